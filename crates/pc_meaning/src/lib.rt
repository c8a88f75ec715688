//! The meaning of programs: `docs/language.md`, "The meaning of a program".
//!
//! The definitions are `specs/Tree.antt`, `Values`, `Outcomes`, `Statements` and `Runs`, in this order; `specs/Programs.antt`
//! takes a program with numbers for names there. `Meaning` keeps a program between two ticks, and its contract is that each
//! tick is that of the definition; `meaning_of` gives the outputs of all ticks. The functions that begin with `a_`, `more_`
//! and `what_` are laws.
#![tactic(auto)]

mod cells;
mod laws;
mod layout;
mod lefts;
mod places;
mod resuming;
mod standing;
mod starting;
mod state;
mod ticking;
mod values;
mod writes;

pub use laws::{
    a_function_does_its_body, a_routine_never_pauses, a_tree_finishes_alike, a_tree_pauses_alike,
    more_functions_change_nothing, what_cannot_finish_pauses,
};
pub use layout::{declared, places as ports, rooms};
pub use places::Room;
pub use state::{Meaning, meaning_of};
pub use values::room;
