//! The judge of certificates: the first demand of acceptance that fails, and whether a certificate bounds the cycles of each tick
//! of an image.
//!
//! Its contract: `judge` gives the first demand of `docs/bounds.md`, "Acceptance", that an image, a certificate and a table of
//! costs fail, whoever made them, and none exactly where all hold. It takes no memory. `check` answers `Yes` exactly where all
//! demands of acceptance hold, and then no free tick traps or is charged more than the bound, and no tick of any run is charged
//! more or traps but at a bad address; else it answers the first demand that fails.
#![tactic(auto)]

mod answer;
mod apart;
mod checking;
mod edges;
mod forks;
mod handlers;
mod judging;
mod pauses;
mod resuming;
mod sums;

pub use answer::Answer;
pub use checking::check;
pub use judging::judge;
pub use tk_shape::Refusal;
