ghost use Rattle.std.specs.Prelude.{◌≡◌};
ghost use Rattle.pt_base.specs.First.{end_of};
ghost use Rattle.pt_base.specs.declared.rules.Refusal.TheVariants.{Memory};

use std::alloc::{AllocError, AllocFailed};

/// A rule that a program can break, in the order in which broken rules are looked for.
/// `docs/language.md` states each of them.
#[derive(Clone, Copy, Debug, PartialEq, Eq)]
pub enum Rule {
    Z1,
    L1,
    L2,
    L3,
    S1,
    N1,
    N2,
    N3,
    N4,
    N5,
    N6,
    N7,
    N8,
    E1,
    E2,
    Z2,
    Z3,
    Z4,
    Z5,
    Z6,
    Z7,
    Z8,
    Z9,
}

/// Two byte places of a source, the first byte and the place after the last one.
#[derive(Clone, Copy, Debug, PartialEq, Eq)]
pub struct Span {
    pub from: u32,
    pub to: u32,
}

impl Span {
    /// The end of a source of so many bytes.
    pub fn at_end(length: u32) -> Span
        ensures { result ≡ end_of length }
    {
        Span {
            from: length,
            to: length,
        }
    }
}

/// Why a program was refused.
#[derive(Clone, Copy, Debug, PartialEq, Eq)]
pub enum Refusal {
    /// The first broken rule, and the place where it is broken.
    Broken { rule: Rule, span: Span },
    /// No memory was found.
    Memory,
}

impl From<crate::lists::Memory> for Refusal {
    ghost from_gives = { λ _ r. r ≡ Memory };

    fn from(_memory: crate::lists::Memory) -> Self {
        Refusal::Memory
    }
}

impl From<AllocError> for Refusal {
    ghost from_gives = { λ _ r. r ≡ Memory };

    fn from(_error: AllocError) -> Self {
        Refusal::Memory
    }
}

impl<T: Drop> From<AllocFailed<T>> for Refusal {
    ghost from_gives = { λ _ r. r ≡ Memory };

    fn from(_failed: AllocFailed<T>) -> Self {
        Refusal::Memory
    }
}
