//! The lines and weights of the codes of threads, and of all sections of an image's code; what slots start with.
//!
//! They are those of the definition (`Numbers` and `Programs` of `tk_paths`), told from the last place to the first, with the numbers with
//! which slots start told first, from the highest slot down: `starts_of` gives these, and `made_of` all lines and weights. All sums are
//! checked, so what comes out is exact, or `TooLarge`; by `fits` it is not, where all that is told on the way is small (`Rooms.antt` of
//! `specs`).
#![tactic(auto)]

mod codes;
mod entrances;
mod exits;
mod places;
mod rests;
mod sections;
mod starts;
mod sums;

pub use sections::made_of;
pub use starts::starts_of;
