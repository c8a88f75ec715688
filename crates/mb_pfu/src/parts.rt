//! What a unit is made of.

/// What a slot does: it is free, ready at a code place, paused at one, waiting at the place of a fork for
/// its children `lo` to `lo + count - 1`, or ended.
#[derive(Clone, Copy, Debug, PartialEq, Eq)]
pub enum Slot {
    Free,
    Ready(u32),
    Paused(u32),
    Waiting { at: u32, lo: u32, count: u32 },
    Ended,
}

/// Why a step isn't done.
#[derive(Clone, Copy, Debug, PartialEq, Eq)]
pub enum TrapKind {
    BadWord,
    OutOfCode,
    BadAddress,
    SlotBusy,
    TableFull,
    TableEmpty,
    WrongPlace,
    Late,
}

/// An abort that a slot is inside: its number, whether it is weak, the code places of its condition and of
/// its handler, whether it was entered in an earlier tick, and whether it is fired.
#[derive(Clone, Copy, Debug, PartialEq, Eq, Default)]
pub struct Entry {
    pub number: u32,
    pub weak: bool,
    pub cond: u32,
    pub handler: u32,
    pub aged: bool,
    pub fired: bool,
}

/// An abort to enter: whether it is weak, the code places of its condition and of its handler.
#[derive(Clone, Copy, Debug, PartialEq, Eq)]
pub struct AbortParts {
    pub weak: bool,
    pub cond: u32,
    pub handler: u32,
}

/// An entry, and whether its condition is still due.
#[derive(Clone, Copy, Default)]
pub struct Watch {
    pub entry: Entry,
    pub due: bool,
}
