//! The analyser: from an image, its program and a table of costs, the program's certificate, whose bound is the worst of the image.
//!
//! Its contract: the certificate is just that of the definition (`certificate` of `tk_paths`), with the walk that is told of the program
//! (`walk_of`), which costs just its bound; it is accepted, and its bound is the worst of the image. Where the image holds the program
//! and its counts are small there is none for want of memory alone.
#![tactic(auto)]

mod analysing;
mod cuts;
mod slots;
mod standing;
mod walks;

pub use analysing::analyse;
