//! The image of a machine: its code, its memory, and the lists of its inputs, outputs, slots, abort lines, pauses and
//! forks; and its file.
//!
//! Its contract: an `Image` keeps the ranges that `docs/files.md` states under "The image file"; `write` gives the one text
//! of an image, and `read` gives an image exactly where a text is its text, else the first group of lines at fault.
#![tactic(auto)]

mod fault;
mod image;
mod listed;
mod points;
mod read;
mod reading;
mod write;
mod writing;

pub use fault::ImageFault;
pub use image::{AbortLine, Image, Parts, Point};
pub use listed::is_listed;

#[cfg(test)]
mod tests;
