//! The outside of the program: a shelf of files, a source of bytes and a sink of bytes.
//!
//! Each trait tells, by its ghost members, what the object holds, where it tells that at all, and how many faults it has met. A
//! call answers a failure only where such a count rose. `MemShelf`, `MemSource` and `MemSink` hold all in memory, tell it, and
//! fail at the calls that they are told; `FirmSource` and `FirmSink` never fail. `docs/architecture.md`, "The outside", says it
//! in words.
//!
//! `HostShelf`, `HostSource` and `HostSink` are the outside as it is: files, a reader such as standard input, and a writer such
//! as standard output. These adapters loop over std's calls and tell no content. Each raises its count of faults at each error,
//! until the count stands at its last value, and at nothing else. They are the edge that is trusted: that std's calls do what
//! they are named after is what no proof here sees.
#![tactic(auto)]

mod host_shelf;
mod host_streams;
#[cfg(test)]
mod host_tests;
mod shelf;
mod sink;
mod source;
#[cfg(test)]
mod tests;
mod traits;

pub use host_shelf::HostShelf;
pub use host_streams::{HostSink, HostSource};
pub use shelf::MemShelf;
pub use sink::{FirmSink, MemSink};
pub use source::{FirmSource, MemSource};
pub use traits::{Failed, Shelf, ShelfFault, Sink, Source, StoreFault};
