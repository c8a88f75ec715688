//! The shape of certificates: the first demand of A1 that fails, and what the other demands read of an image and a certificate.
//!
//! `shape` gives the first demand of `docs/bounds.md`, "Acceptance", A1, that an image and a certificate fail, whoever made
//! them, and none where all of these hold. `Refusal` is a demand that fails; `word_at` reads a word, `number` a number of a line.
//! Nothing here takes memory.
#![tactic(auto)]

mod asked;
mod index;
mod kinds;
mod marks;
mod numbers;
mod places;
mod reading;
mod refusal;
mod tables;
mod words;

pub use index::weight_at;
pub use kinds::{last, loops_of, start_of};
pub use numbers::{level_of, levels_at, number, restarted, stack_at, stack_of, starting, value_at};
pub use places::{shape, shaped};
pub use reading::{instr_at, word_at};
pub use refusal::{Refusal, at_least, lowered, more};
pub use tables::{Tables, fork_at, pause_at};
