//! The instruction words of the machine, and what they do: their parts, their codes and what they cost; the step and the tick,
//! defined once over what data decide; and each word's effect on registers and memory and on the unit.
//!
//! `encode` gives the code of the table in `docs/machine.md`, `decode` undoes it and answers `None` exactly where no instruction
//! word has the code, and `Costs` gives the number of a class.
//!
//! What data decide is what a word does to registers and memory, whether a conditional branch is taken, and whether a condition
//! holds. The machine is one instance of the step, with its registers and memory; the free tick is another, with a list of
//! choices. Read `Control`, `Words`, `Step`, `Tick`, `Cells`, `Run`, `Free`, `Follows` and `Laws` in `specs/` in this order. The
//! functions of `step_laws` do nothing: their contracts are the laws that tie the two instances together.
//!
//! Each call of `Store` and of `unit_words` is what the step defines. Of `Store`: a word that computes, loads or stores does
//! `cells_do`, or its address is bad; a branch is taken where `is_taken` says so; sampling sets the inputs' words. Of the unit:
//! each of its words is its plan in the turn of a slot.
#![tactic(auto)]

mod costs;
mod decoding;
mod encoding;
mod operands;
mod registers;
mod step_laws;
mod store;
#[cfg(test)]
mod tests;
mod unit_words;
mod words;

pub use costs::{Class, Costs, unit_costs};
pub use decoding::{decode, decode_encoded};
pub use encoding::encode;
pub use operands::{branch_place, immediate, turns, word_at_byte};
pub use registers::Reg;
pub use step_laws::{a_tick_is_followed_freely, a_tick_is_paid};
pub use store::{Store, sample};
pub use unit_words::{
    abrt, call, drop_word, end, eot, fork_word, leave_word, loop_word, next, ret, stack_of,
};
pub use words::{Instr, class, takes_upper};
