//! The plans of a program's places: which conditions are to hold, and which way each branch goes, so that a place costs its number.
//!
//! Its contract: a plan is just that of the definition (`plan` of `tk_paths`), with the choices by which bounded loops and calls are
//! crossed.
#![tactic(auto)]

mod children;
mod nexts;
mod parts;
mod pieces;
mod plans;
mod rests;
mod sums;
mod units;
mod ways;
mod words;

pub use children::{behind_child, group_of, side_by};
pub use parts::{Group, Next};
pub use pieces::{Piece, pieces_of};
pub use plans::{gone, plan};
pub use rests::rest_next;
pub use units::instr_in;
pub use words::is_second;
