use crate::expressions::{Expr, Word};
use crate::statements::Stmt;
use sqlite_items::Items;

/// The parameters, locals and statements of a function.
#[derive(Drop)]
pub struct Frame {
    pub parameters: Items<Word>,
    pub locals: Items<(Word, Option<Expr<Word>>)>,
    pub body: Items<Stmt<Word>>,
}
