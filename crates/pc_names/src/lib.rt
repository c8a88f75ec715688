//! Names: which cell or function each name of a program is, or the first rule on names that is broken
//! (`docs/language.md`, "Names").
//!
//! Its contract: `resolve` gives the tree with numbers for names, where none of the rules N1 to N8 is broken, or the first of
//! them that is, with its place. `sites` lists each use of a name with what it names, and `threads` those that run beside one
//! another; `finding` notes every fault and keeps the first; `trees` and the files beside it give each cell and each function
//! its number.
#![tactic(auto)]

mod before;
mod cells;
mod faults;
mod finding;
mod functions;
mod known;
mod names;
mod resolving;
mod rules;
mod scopes;
mod sites;
mod threads;
mod trees;
mod uses;

pub use resolving::resolve;
