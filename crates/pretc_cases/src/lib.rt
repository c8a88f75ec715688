//! The top call over objects in memory: its reports, its statuses, and each load, store, pull, push and flush
//! that fails in turn, for `go`, `run`, `mean`, `gen`, `job`, `print`, `rules`, `check` and `exec`; and programs of every construct, of
//! which `go` and `mean` tell the same outputs. Beside it, values of operators.
//!
//! There is nothing here but tests and what they call. The helpers promise nothing, so that a test knows no more of a
//! call than whether it came as wanted.
#![tactic(auto)]

#[cfg(test)]
mod calls;
#[cfg(test)]
mod check_tests;
#[cfg(test)]
mod checks;
#[cfg(test)]
mod compiled_tests;
#[cfg(test)]
mod exec_tests;
#[cfg(test)]
mod go_tests;
#[cfg(test)]
mod meaning_tests;
#[cfg(test)]
mod operator_tests;
#[cfg(test)]
mod print_tests;
#[cfg(test)]
mod rules_tests;
#[cfg(test)]
mod run_tests;
