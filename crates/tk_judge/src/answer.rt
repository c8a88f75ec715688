/// What the checker says of a certificate.
#[derive(Clone, Copy, Debug, PartialEq, Eq)]
pub enum Answer {
    /// No tick passes the bound; and whether the certificate's walk costs just the bound.
    Yes {
        reached: bool,
    },
    /// The first demand that fails: the number of its condition, the place, the level, what is needed, and the number
    /// that is given, or none.
    No {
        condition: u8,
        at: u32,
        level: usize,
        needed: u128,
        given: Option<u64>,
    },
}
