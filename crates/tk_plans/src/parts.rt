//! What plans are made of.

use tk_paths::Side;

/// How the children of a fork come to rest.
#[derive(Clone, Copy)]
pub enum Group {
    /// All of them end.
    Ending,
    /// Each goes its dearest way.
    Resting,
    /// The same, with one at least that pauses.
    Pausing,
}

/// Where a slot goes from a place.
#[derive(Clone, Copy)]
pub enum Next {
    /// On to a place, in the same view.
    On(usize),
    /// Out of an abort to a place, where so many of those outside are old.
    Out { place: usize, level: usize },
    /// To the handler of an abort, outside of which so many are old: its condition holds.
    Handler { place: usize, level: usize },
    /// It stays where it rests.
    Stays,
    /// No way is told.
    Nowhere,
}

/// What is told of a plan.
#[derive(Drop)]
pub enum Part {
    /// It goes on as that of a place in the same view.
    Open(usize),
    /// All of it: these are its answers.
    Whole(Vec<bool>),
}
