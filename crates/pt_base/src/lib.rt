//! The base of every crate: lists of bytes and of values as contracts see them, spans of a source, the rules that a program may
//! break and the first of those that it breaks, the limits of the language, the operators on words of 32 bits, and lines and
//! numbers of files that have one spelling.
//!
//! Its contract: `Text` and `Many` are lists; `unary` and `binary` give the values of `docs/language.md`, "Values"; `First` is
//! the first of all faults that were noted, and none where none was. `proofs/Least.antt` says that it is the first rule that is
//! broken, where just what is broken was noted. Each reader of lines and numbers gives what reading gives by its definition, and
//! each writer puts the value's spelling at the end; the laws of `exact` tie the two: a value is read exactly where its spelling
//! stands at the front.
#![tactic(auto)]

mod bytes;
mod exact;
mod fault;
mod first;
mod limits;
mod lists;
mod operators;
mod read;
mod read_lists;
mod rules;
mod words;
mod write;
mod write_lists;

pub use bytes::is_digit;
pub use exact::{lines_are_exact, lists_are_exact, numbers_are_exact, words_are_exact};
pub use fault::Unread;
pub use first::First;
pub use limits::{
    MOST_CELL_WORDS, MOST_EXPRESSION_LEVELS, MOST_HEIGHT, MOST_NESTED, MOST_PASSAGE, MOST_PORTS,
    MOST_SOURCE_BYTES, MOST_STATEMENT_LEVELS, MOST_THREADS, MOST_WEIGHT,
};
pub use lists::{Many, Memory, Text};
pub use operators::{BinOp, UnOp, binary, unary};
pub use read::{count_line, number, number_then, past, past_all};
pub use read_lists::{list, number_lines, numbers, signed_lines, word_lines};
pub use rules::{Refusal, Rule, Span};
pub use write::{put_count, put_number, put_number_then, put_signed_line, put_word_line};
pub use write_lists::{put_list, put_number_lines, put_numbers, put_signed_lines, put_word_lines};
