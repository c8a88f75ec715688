ghost use Rattle.std.specs.Prelude.{◌≡◌};
ghost use Rattle.tk_cert.specs.Shapes.{IsCert};

use pt_base::Many;
use std::marker::Model;

/// What a certificate says of a code place. A number is `None` where there is none.
#[derive(Drop)]
pub enum Line {
    /// Nothing.
    Bare,
    /// The slot that comes here, the numbers of the abort lines that it is inside, the places of the loops that it is
    /// inside, both from the outermost, and for each level the greatest cycles up to a pause and up to the end.
    Thread {
        slot: u32,
        stack: Many<u32>,
        loops: Many<u32>,
        levels: Many<(Option<u64>, Option<u64>)>,
    },
    /// The height of a routine, the places of the loops that it is inside, and the greatest cycles up to its return.
    Routine {
        height: u32,
        loops: Many<u32>,
        value: u64,
    },
    /// The greatest cycles up to the end of a condition.
    Cond {
        value: u64,
    },
}

/// What a slot does as a free tick begins.
#[derive(Clone, Copy, Debug, PartialEq, Eq)]
pub enum State {
    /// It belongs to no group.
    Free,
    /// It is ready at its start.
    Start,
    /// It is paused at this code place.
    Paused(u32),
    /// It waits at this code place for the group that it forked.
    Waiting(u32),
    /// It has ended.
    Ended,
}

/// A free tick: the state of each slot as it begins, and which way each choice goes.
#[derive(Drop)]
pub struct Walk {
    pub states: Many<State>,
    pub choices: Many<bool>,
}

/// The lists of a certificate: the bound, a line for each code place, the weights of the places of loops, the numbers
/// of each slot where it is resumed and pauses or ends, and a walk.
#[derive(Drop)]
pub struct CertParts {
    pub bound: u64,
    pub lines: Many<Line>,
    pub weights: Many<(u32, u64)>,
    pub slot_bounds: Many<(Option<u64>, Option<u64>)>,
    pub walk: Walk,
}

/// A certificate, whose lines and weights have their shape: `IsCert`.
#[derive(Drop)]
pub struct Cert {
    parts: CertParts,
}

impl Model for Cert {
    ghost use Rattle.tk_cert.specs.declared.cert.CertParts.{CertParts};
    ghost use Rattle.tk_cert.specs.Shapes.{IsCert};

    ghost Value = { CertParts };

    ghost view = { λ c. c.parts };

    ghost invariant = { λ c. IsCert c.parts };
}

impl Cert {
    /// The certificate of these lists, which takes no memory.
    pub fn of(parts: CertParts) -> Cert
        requires { IsCert parts }
        ensures { result ≡ parts }
    {
        Cert { parts }
    }

    /// The bound of a tick's cycles.
    pub fn bound(&self) -> u64
        ensures { result ≡ self.now.bound }
    {
        self.parts.bound
    }

    /// The lines of the code places.
    pub fn lines(&self) -> &[Line]
        ensures { result.now ≡ self.now.lines }
    {
        self.parts.lines.items()
    }

    /// The places of loops, which rise, each with its weight.
    pub fn weights(&self) -> &[(u32, u64)]
        ensures { result.now ≡ self.now.weights }
    {
        self.parts.weights.items()
    }

    /// The two numbers of each slot.
    pub fn slot_bounds(&self) -> &[(Option<u64>, Option<u64>)]
        ensures { result.now ≡ self.now.slot_bounds }
    {
        self.parts.slot_bounds.items()
    }

    /// The walk.
    pub fn walk(&self) -> &Walk
        ensures { result.now ≡ self.now.walk }
    {
        &self.parts.walk
    }

    /// That the lines and weights have their shape; does nothing.
    pub fn shape(&self)
        ensures { IsCert self.now }
    {
        let _parts = &self.parts;
    }
}
