//! What regions of code cost, and the lines and weights of their places.
//!
//! They are those of the definition (`Regions` and `Numbers` of `tk_paths`), told from the last place to the first: `through` is the
//! cost of the dearest way through a region, and `region_lines` puts its lines and weights in front of those that are made. All sums are
//! checked, so what comes out is exact, or `TooLarge`; by `fits` it is not, where the cost of a region, alone and before what is behind it,
//! is small.
#![tactic(auto)]

mod charges;
mod crossings;
mod nexts;
mod putting;
mod regions;
mod routines;
mod turns;
mod units;
mod writing;

pub use charges::{behind, extra, half, units_cost, word_place};
pub use putting::put_test;
pub use regions::through;
pub use routines::{all_links, links_before, links_in, values_before, values_of};
pub use turns::{end_of, jump_cost, leaving, tested_turn, testing_cost};
pub use units::{jump_lines, jumping, put_line, test_lines, unit_lines, units_lines};
pub use writing::region_lines;
