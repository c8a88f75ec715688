//! The parser: the one program that the tokens of a source spell, or the exact place of `S1`
//! (`docs/language.md`, "Items" and "Refused programs"). Expressions first, then statements, items and programs.
//!
//! Its contract: `parse` gives the program that the tokens spell, and refuses at the first token with which no program goes
//! on, or at the end where all could go on and spell none. Below it each function takes its piece at the front of the tokens,
//! or fails at the first token with which none goes on, in words (`Takes`, `Fails`) that compose. The laws `one_tree`,
//! `one_body` and `one_program` say that no list of tokens spells two.
#![tactic(auto)]

mod bodies;
mod constants;
mod expressions;
mod frames;
mod items;
mod lists;
mod programs;
mod reading;
mod settings;
mod simple;

pub use bodies::one_body;
pub use expressions::{one_tree, whole_expression};
pub use programs::{one_program, parse};
pub use reading::Failure;
