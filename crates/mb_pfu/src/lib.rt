//! The unit of the machine that holds its slots and their aborts, the links of calls and the loop counters, all
//! in tables of fixed capacity: no call takes memory. It stands on `arrayvec` alone.
//!
//! Seen from outside the slots are a tree, in which a slot that waits has the group of its fork. The contract of
//! each call is that it is its move of this tree, or is refused and changes nothing. The table is that tree
//! written out in depth-first order. The laws of these moves that the crates above need are functions that do nothing.
#![tactic(auto)]

mod parts;
mod row;
mod slots;
mod table;
mod tree_laws;
mod unit;

pub use parts::{AbortParts, Entry, Slot, TrapKind};
pub use tree_laws::{aborts_keep_states, answers_take_off, free_outside, tests_are_in_order};
pub use unit::Unit;
