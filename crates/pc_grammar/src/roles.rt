/// What a name does where it stands.
#[derive(Clone, Copy)]
pub enum Role {
    /// An operand without an index.
    Reads,
    /// An operand with an index.
    ReadsElement,
    /// A target without an index.
    Writes,
    /// A target with an index.
    WritesElement,
    /// The function of a call with so many arguments; `taken` says whether the call has a target.
    Calls { arguments: usize, taken: bool },
    /// A thread of a `PAR`.
    Starts,
}
