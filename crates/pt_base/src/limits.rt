//! The limits of the language, each written once (`docs/language.md`, "Tokens", "Expressions", "Statements" and
//! "Loops and limits").

/// The most bytes of a source.
pub const MOST_SOURCE_BYTES: u32 = 1_048_576;

/// The most expressions that stand in one another.
pub const MOST_EXPRESSION_LEVELS: u32 = 64;

/// The most statements that stand in one another.
pub const MOST_STATEMENT_LEVELS: u32 = 32;

/// The most threads of a program.
pub const MOST_THREADS: u32 = 64;

/// The most words of all cells together.
pub const MOST_CELL_WORDS: u32 = 15_000;

/// The most aborts of a function that stand in one another, and the most loops with `#n`.
pub const MOST_NESTED: u32 = 8;

/// The greatest height of a routine.
pub const MOST_HEIGHT: u32 = 16;

/// The greatest weight of a program, in words.
pub const MOST_WEIGHT: u32 = 60_000;

/// The most words of one passage.
pub const MOST_PASSAGE: u32 = 2_000_000;

/// The most inputs of a program, and the most outputs.
pub const MOST_PORTS: u32 = 64;
