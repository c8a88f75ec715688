//! The top call of `pretc`: the words of a call, its files, its trace and its report.
//!
//! `pretc` reads its words as a `Command`, and each command comes to an `Ending` of `pretc_run`. The lines that are due
//! then are pushed, one push a line, and flushed. The contract of `pretc` says of any shelf, source and sink what was
//! loaded, stored, pulled and written, and with which status: `docs/commands.md` is that in words.
#![tactic(auto)]

mod calling;
mod certifying;
mod checking;
mod commands;
mod executing;
mod generating;
mod going;
mod jobbing;
mod meaning;
mod printing;
mod ruling;
mod running;
mod saying;
mod stages;

pub use calling::pretc;
