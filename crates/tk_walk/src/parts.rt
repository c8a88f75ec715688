use mb_pfu::TrapKind;

/// Where a step leads: on, at a place; or the slot rests; or a condition has ended, and holds or not.
#[derive(Clone, Copy)]
pub enum To {
    On(u32),
    Rest,
    Conclude(bool),
}

/// What a step is charged, and where it leads.
#[derive(Clone, Copy)]
pub struct Went {
    pub charge: u64,
    pub to: To,
}

/// Why a step isn't done: a trap, or no choice is left.
#[derive(Clone, Copy)]
pub enum Stop {
    Trap(TrapKind),
    Open,
}

/// Where a tick is: in a condition, at a place; or a slot takes its turn and is at a place; or no slot is ready.
#[derive(Clone, Copy)]
pub enum Phase {
    Testing(u32),
    Running { s: u32, place: u32 },
    Resting,
}

/// What a step was charged, and where the tick is after it.
#[derive(Clone, Copy)]
pub struct Moved {
    pub charge: u64,
    pub phase: Phase,
}
