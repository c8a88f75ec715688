//! The rules on loops and the limits (`docs/language.md`, "Loops and limits"), how many words a program and one passage of its
//! threads take at most ("Weights"), and the verdict on a source: its program where it keeps every rule, or the first rule that
//! it breaks ("The verdict").
//!
//! Its contract: `judge` gives the sizes of a program that keeps the rules on loops and the limits, or the first of these that is
//! broken. Every fault is noted, and the least of those noted is kept. Every sum counts no further than one more than its limit,
//! so that none can overflow. In the verdict the phases follow one another: `source_of` gives the program that the source's
//! tokens spell, or the first rule of size, tokens and grammar that is broken; `judged` goes on with names, loops and limits.
#![tactic(auto)]

mod expressions;
mod frames;
mod heights;
mod judging;
mod known;
mod limits;
mod noting;
mod sizes;
mod sources;
mod statements;
mod sums;
mod verdicts;
mod weights;

pub use judging::judge;
pub use limits::{cell_words, threads};
pub use sizes::Sizes;
pub use sources::source_of;
pub use verdicts::{Accepted, judged};
pub use weights::{passage, weight};
