/// A number of cycles is up to a pause or up to the end.
#[derive(Clone, Copy)]
pub enum Side {
    ToPause,
    ToEnd,
}

/// Which of a line's numbers is meant: `docs/bounds.md`, "Acceptance".
#[derive(Clone, Copy)]
pub enum View {
    /// Of a thread's, that of a side at a level.
    On { side: Side, level: usize },
    /// Of a routine's or a condition's, its only one.
    Value,
}
