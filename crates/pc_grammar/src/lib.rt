//! The language: the tokens that a source is cut into, the trees that they spell, and programs with numbers for names
//! (`docs/language.md`, "Tokens" to "Names").
//!
//! `lex` cuts a source into white space, comments and longest tokens: it gives the one list of tokens that a source has, in order
//! and each with its slice of the source, or else the first break of `L1`, `L2` or `L3` from the left. Keywords and signs have
//! one table, `spelling`.
//!
//! Trees are expressions, statements and items over a kind of name `N`. A raw tree has names as `Word`, the text and its place in
//! the source; a resolved one has numbers. Boxes and lists are those of `sqlite_items`, which contracts see as their value and as
//! a list, so a tree has no pointers in its value.
//!
//! Which tokens spell which expression, statement, item and program, and where others are refused, is defined in `specs/`, from
//! `Signs` up to `Trees`. A `Program` keeps that the tokens of a source spell it, and by the law `spans_rise` its spans rise in
//! the order of the text. `marks` says of each token what it is to the grammar.
//!
//! A `Typed` has cells in order of declaration and functions that name them by number. It keeps that it is that of a program of
//! the grammar that breaks no rule on names. By the law `names_mean_well` each of its numbers then names what is asked of it;
//! `may_finish` says which of its functions may finish.
#![tactic(auto)]

mod expressions;
mod finishing;
mod frames;
mod fronts;
mod laws;
mod lexer;
#[cfg(test)]
mod lexer_tests;
mod marks;
mod numbers;
mod pauses;
mod programs;
mod roles;
mod statements;
mod tokens;
mod trees;
mod typed;

pub use expressions::{Expr, Goal, Word};
pub use frames::Frame;
pub use laws::spans_rise;
pub use lexer::{lex, longest_sign, one_cut};
pub use marks::{
    LEVELS, Mark, OperandOpening, Pair, binary_operator, closes, is_mark, level_number, opens,
    operand_opening,
};
pub use pauses::{hold_pauses, holds_pause};
pub use programs::{CellKind, Item};
pub use roles::Role;
pub use statements::Stmt;
pub use tokens::{Sort, Token, Tokens, keyword_sorts, sign_sorts, spelling};
pub use trees::Program;
pub use typed::{Cell, Function, Typed, may_finish, names_mean_well};
