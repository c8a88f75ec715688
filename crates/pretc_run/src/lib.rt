//! A run of a machine, or of a program's meaning, on a trace, line by line, and how a call of `pretc` ends.
//!
//! A run reads a row, does the tick on it, pushes the tick's line, and only then reads on; it ends with the trace, at
//! its first bad line, at a fault of its source, at a trap, or where its sink fails. A run of a machine takes no memory;
//! that of a meaning ends at a tick for which it finds none. An `Ending` is how a call ends, with its status and the
//! line that is printed last: `docs/commands.md`, "Statuses".
#![tactic(auto)]

mod beginning;
mod closing;
mod endings;
mod meaning;
mod reporting;
mod running;
mod summing;

pub use beginning::mean_program;
pub use closing::{close, finish, finish_with, push_line};
pub use endings::{Ending, WRITE_FAULT};
pub use meaning::{mean, mean_trace};
pub use reporting::report;
pub use running::run_trace;
pub use summing::{COUNTED_TICKS, Totals, sum_ticks};
