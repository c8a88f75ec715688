use pt_base::{BinOp, Span, Text, UnOp};
use sqlite_items::{Boxed, Items};

/// A name of the source: its bytes, and their place.
#[derive(Drop)]
pub struct Word {
    pub text: Text,
    pub span: Span,
}

/// An expression. A chain has one or more operators of one level after its first operand, and is folded from the left.
/// An operand alone is its own tree, and parentheses leave no mark.
#[derive(Drop)]
pub enum Expr<N> {
    Number(u32),
    Var(N),
    Elem(N, Boxed<Expr<N>>),
    Unary(UnOp, Boxed<Expr<N>>),
    Chain(Boxed<Expr<N>>, Items<(BinOp, Expr<N>)>),
}

/// Where a value goes: nowhere, to a variable, or to an element of an array.
#[derive(Drop)]
pub enum Goal<N> {
    Nothing,
    Var(N),
    Elem(N, Expr<N>),
}
