ghost use Rattle.std.specs.Prelude.{◌≡◌};
ghost use Rattle.pt_image.specs.Ranges.{IsImage};

use pt_base::Many;
use std::marker::Model;

/// An abort of the program: whether it is weak, the code place of its condition and that of its handler.
#[derive(Clone, Copy, Debug, PartialEq, Eq)]
pub struct AbortLine {
    pub weak: bool,
    pub cond: u32,
    pub handler: u32,
}

/// A code place where a slot may pause or fork, the slot, and the numbers of the abort lines that it is inside there,
/// from the outermost.
#[derive(Drop)]
pub struct Point {
    pub at: u32,
    pub slot: u32,
    pub stack: Many<u32>,
}

/// The lists of an image. Inputs and outputs are memory words, slots are the code places where they start.
#[derive(Drop)]
pub struct Parts {
    pub code: Many<u32>,
    pub memory: Many<i32>,
    pub inputs: Many<u32>,
    pub outputs: Many<u32>,
    pub slots: Many<u32>,
    pub aborts: Many<AbortLine>,
    pub pauses: Many<Point>,
    pub forks: Many<Point>,
}

/// An image, whose lists are within their ranges: `IsImage`.
#[derive(Drop)]
pub struct Image {
    parts: Parts,
}

impl Model for Image {
    ghost use Rattle.pt_image.specs.declared.image.Parts.{Parts};
    ghost use Rattle.pt_image.specs.Ranges.{IsImage};

    ghost Value = { Parts };

    ghost view = { λ i. i.parts };

    ghost invariant = { λ i. IsImage i.parts };
}

impl Image {
    /// The image of these lists, which takes no memory.
    pub fn of(parts: Parts) -> Image
        requires { IsImage parts }
        ensures { result ≡ parts }
    {
        Image { parts }
    }

    /// The code words.
    pub fn code(&self) -> &[u32]
        ensures { result.now ≡ self.now.code }
    {
        self.parts.code.items()
    }

    /// The memory words at the start.
    pub fn memory(&self) -> &[i32]
        ensures { result.now ≡ self.now.memory }
    {
        self.parts.memory.items()
    }

    /// The memory words of the inputs, in their order.
    pub fn inputs(&self) -> &[u32]
        ensures { result.now ≡ self.now.inputs }
    {
        self.parts.inputs.items()
    }

    /// The memory words of the outputs, in their order.
    pub fn outputs(&self) -> &[u32]
        ensures { result.now ≡ self.now.outputs }
    {
        self.parts.outputs.items()
    }

    /// The code places where the slots start.
    pub fn slots(&self) -> &[u32]
        ensures { result.now ≡ self.now.slots }
    {
        self.parts.slots.items()
    }

    /// The abort lines.
    pub fn aborts(&self) -> &[AbortLine]
        ensures { result.now ≡ self.now.aborts }
    {
        self.parts.aborts.items()
    }

    /// The listed pauses.
    pub fn pauses(&self) -> &[Point]
        ensures { result.now ≡ self.now.pauses }
    {
        self.parts.pauses.items()
    }

    /// The listed forks.
    pub fn forks(&self) -> &[Point]
        ensures { result.now ≡ self.now.forks }
    {
        self.parts.forks.items()
    }

    /// That the lists are within their ranges; does nothing.
    pub fn ranges(&self)
        ensures { IsImage self.now }
    {
        let _parts = &self.parts;
    }
}
