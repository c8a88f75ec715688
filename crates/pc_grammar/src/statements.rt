use crate::expressions::{Expr, Goal};
use pt_base::Span;
use sqlite_items::{Boxed, Items};

/// A statement. A span is that of the statement's first word. An assignment's goal is never `Nothing`.
#[derive(Drop)]
pub enum Stmt<N> {
    Skip,
    Assign {
        goal: Goal<N>,
        value: Expr<N>,
    },
    Call {
        goal: Goal<N>,
        function: N,
        arguments: Items<Expr<N>>,
    },
    Block(Items<Stmt<N>>),
    If {
        test: Expr<N>,
        yes: Boxed<Stmt<N>>,
        no: Option<Boxed<Stmt<N>>>,
    },
    While {
        span: Span,
        test: Expr<N>,
        most: Option<u32>,
        body: Boxed<Stmt<N>>,
    },
    Eot(Span),
    Par {
        span: Span,
        threads: Items<N>,
    },
    Abort {
        span: Span,
        weak: bool,
        body: Boxed<Stmt<N>>,
        test: Expr<N>,
    },
}
