//! The cost of a walk of any image.
//!
//! Its contract: `walk_cost` gives the cost of the free tick that a walk describes, and none exactly where there is none:
//! where its states are no configuration of the image, where choices run out or are left over, where a step traps, or where
//! the cycles pass 1,000,000,000,000. It takes no memory.
#![tactic(auto)]

mod configuration;
mod cost;
mod free_core;
mod listing;
mod parts;
mod ticking;
mod turn_words;

pub use cost::{cost_within, walk_cost};
