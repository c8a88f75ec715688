//! The texts of programs: the canonical text of a tree (`docs/language.md`, "Canonical text"), and programs of as many threads as
//! are asked for, to try the rest on (`docs/commands.md`, "gen").
//!
//! Its contract: `print` puts the canonical text of a program. By the law `canonical_program_spells` that text is cut into tokens
//! that spell the same program, up to its places. `generate` gives one text for each number, that of `specs/Generated.antt`.
#![tactic(auto)]

mod expressions;
mod generating;
mod items;
mod laws;
mod lines;
mod marks;
mod statements;

pub use expressions::put_expression;
pub use generating::generate;
pub use items::{print, put_item};
pub use laws::{
    canonical_body_spells, canonical_program_spells, canonical_text_spells, canonical_tokens_spell,
};
pub use statements::put_statement;
