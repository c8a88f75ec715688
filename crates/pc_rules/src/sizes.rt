/// How large a program is that keeps the limits: its threads, the words of its cells, and the most words of its code and of
/// one passage of its threads.
#[derive(Clone, Copy)]
pub struct Sizes {
    pub threads: u64,
    pub cell_words: u64,
    pub weight: u64,
    pub passage: u64,
}
