use sqlite_items::{Boxed, Items};

/// A piece of code that a thread passes in one go: it is entered at one place and left at one. Places are those of an image's
/// code, `count` is a number of units, and `to` the place behind.
#[derive(Drop)]
pub enum Region {
    /// Units that just go on.
    Words {
        from: u32,
        count: u32,
        to: u32,
    },
    /// Regions one behind the other.
    Sequence {
        parts: Items<Region>,
        to: u32,
    },
    /// A test of so many units, its branch, the side where it is not taken with a jump behind it, and the side where it is.
    Choice {
        from: u32,
        count: u32,
        branch: u32,
        untaken: Boxed<Region>,
        taken: Boxed<Region>,
    },
    /// A loop of one turn more than said: `loop`, `next`, the units of a test, its branch, the body, the jump back, and `drop`.
    Counted {
        from: u32,
        turns: u32,
        count: u32,
        branch: u32,
        body: Boxed<Region>,
        drop: u32,
    },
    /// The same with no test.
    Repeated {
        from: u32,
        turns: u32,
        body: Boxed<Region>,
        to: u32,
    },
    /// A call of the routine of this number: routines are numbered in the order of the code.
    Calling {
        place: u32,
        routine: u32,
    },
}

/// The code of a thread: regions that it passes, and places where it rests.
#[derive(Drop)]
pub enum Code {
    Passed(Region),
    /// Codes one behind the other.
    Sequence {
        parts: Items<Code>,
        to: u32,
    },
    /// As a region's choice.
    Either {
        from: u32,
        count: u32,
        branch: u32,
        untaken: Boxed<Code>,
        taken: Boxed<Code>,
    },
    /// A loop with a test and no number of turns: the units of the test, its branch, the body, the jump back.
    Turns {
        from: u32,
        count: u32,
        branch: u32,
        body: Boxed<Code>,
        to: u32,
    },
    /// A loop without a test: the body, the jump back.
    Forever {
        body: Boxed<Code>,
        to: u32,
    },
    /// A pause at a place.
    Resting(u32),
    /// A fork of so many slots from the first on.
    Forking {
        place: u32,
        first: u32,
        count: u32,
    },
    /// The abort of this number: `abrt`, the body, and `leave`.
    Guarded {
        place: u32,
        number: u32,
        body: Boxed<Code>,
    },
}

/// A piece of an image's code.
#[derive(Drop)]
pub enum Section {
    /// The code of the thread of a slot, and `end`.
    OfThread { slot: u32, code: Code },
    /// A routine, and `ret`.
    OfRoutine(Region),
    /// The units of a condition, and `cend` at a place.
    OfCondition { from: u32, count: u32, close: u32 },
    /// So many words that nothing leads to.
    Unused(u32),
}

/// The sections of an image's code, in its order.
#[derive(Drop)]
pub struct Program {
    pub sections: Vec<Section>,
}
