//! The trace that a program runs on and the report that it gives.
//!
//! A `TraceReader` reads a trace from a source line by line, in a fixed table of 2,048 bytes, exactly by
//! `docs/files.md`, "The trace": `next` gives the next row, the end, or the first line that is refused. The calls on a
//! `LineBuffer` write the lines of a report, of a check, of an accepted program and of a refusal, exactly by
//! `docs/commands.md`, "The report", "check", "rules" and "Statuses". None of them takes memory.
#![tactic(auto)]

mod accepted;
mod gather;
mod kept;
mod laws;
mod line;
mod reader;
mod refused;
mod report;
#[cfg(test)]
mod tests;
mod verdict;

pub use accepted::accepted_line;
pub use laws::readings;
pub use reader::{TraceFault, TraceReader};
pub use refused::{cost_line, costs_line, refused_line, trace_line, trap_line};
pub use report::{
    LineBuffer, bound_line, report_line, sum_line, threads_line, ticks_line, worst_line,
};
pub use verdict::{cert_line, image_line, no_line, yes_line};
