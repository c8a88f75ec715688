use crate::expressions::{Expr, Word};
use crate::statements::Stmt;
use sqlite_items::Items;

/// What a cell is.
#[derive(Clone, Copy, Debug, PartialEq, Eq)]
pub enum CellKind {
    Input,
    Output,
    Plain,
    Array,
    Parameter,
    Local,
}

/// An item of a program: an input, output or variable with the word that it starts with, an array with its size, or a
/// function. `gives` says whether the function has a result.
#[derive(Drop)]
pub enum Item {
    Scalar {
        kind: CellKind,
        name: Word,
        start: i32,
    },
    Array {
        name: Word,
        size: u32,
    },
    Function {
        name: Word,
        gives: bool,
        parameters: Items<Word>,
        locals: Items<(Word, Option<Expr<Word>>)>,
        body: Items<Stmt<Word>>,
        result: Option<Expr<Word>>,
    },
}
