//! Registers and memory of a compiled program, and the words that do its steps.
//!
//! `specs/Placement.antt` says where each word stands, `specs/Words.antt` which words do a step, `specs/Represents.antt` when
//! registers and memory stand for the state of a flow. The functions give exactly these words, and `words_do_the_steps` says of
//! them, for every operator and every place of each operand, that they do what the step does, and that the words of a test decide
//! it; `words_are_work` that they are words which the data do wherever they stand, and `words_are_few` how many they are at most.
#![tactic(auto)]

mod assignment;
mod elements;
mod laws;
mod operators;
mod placement;
mod steps;
mod words;

pub use assignment::assign;
pub use laws::{used_temporaries_are_enough, words_are_few, words_are_work, words_do_the_steps};
pub use placement::{Location, Placement};
pub use steps::{branch, count_steps, count_test, push_steps, push_test, register};
