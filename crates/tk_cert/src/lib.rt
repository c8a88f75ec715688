//! The files of a bound: certificates of the greatest number of cycles that a tick takes, and tables of what each class of
//! instruction words charges.
//!
//! Its contract: a `Cert` keeps the shape that `docs/files.md` states under "The certificate file"; `write` gives the one text of
//! a certificate, and `read` gives a certificate exactly where a text is its text, else the first group of lines at fault. A
//! table of costs is a TOML document with the 22 classes as keys, each a whole number from 1 to 255; `read_costs` gives these
//! numbers, or the first fault, exactly by `docs/files.md`, "The cost table", over the tree that the crate `toml` gives.
#![tactic(auto)]

mod cert;
#[cfg(test)]
mod cost_tests;
mod costs;
mod fault;
mod line;
mod lists;
mod read;
#[cfg(test)]
mod tests;
mod walk;
mod write;
mod writing;

pub use cert::{Cert, CertParts, Line, State, Walk};
pub use costs::{CostFault, key, read_costs};
pub use fault::CertFault;
