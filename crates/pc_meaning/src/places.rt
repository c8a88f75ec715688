/// The words of a cell in the store: the place of the first, and how many.
#[derive(Clone, Copy, Debug, PartialEq, Eq)]
pub struct Room {
    pub first: u32,
    pub size: u32,
}
