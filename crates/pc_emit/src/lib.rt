//! The image of a flow: its words and its lists, laid out.
//!
//! `emit` gives the image that `specs/Image.antt` defines: the functions in the order of the text, each with the word that closes
//! it, and behind them the conditions of the aborts. `specs/Code.antt` says which words and list entries a node has at a place;
//! how many words it takes is worked out first, so each place is known when it is written. It stands on any placement of
//! `pc_regs`; what it asks of the flow is `CanBeEmitted` of `specs/Fits.antt`. The laws are for every writing of `pc_lower`: that
//! image holds the flow, is within the ranges of an image, and lists all that the flow has; and it holds the program of
//! `specs/Sections.antt`, whose certificate is accepted with the worst bound. `program` gives that program, as a tree.
#![tactic(auto)]

mod aborts;
mod branches;
mod counting;
mod draft;
mod functions;
mod image;
mod laws;
mod nodes;
mod region;
mod section;
mod sizes;
mod slots;
mod thread;
mod used;

pub use image::emit;
pub use laws::{
    a_flow_is_laid_out, a_flow_is_small, a_laid_flow_is_a_program, a_laid_flow_is_certified,
    a_laid_flow_is_in_its_ranges, a_laid_flow_lists_all,
};
pub use section::program;
