ghost use Rattle.std.specs.Prelude.{◌≡◌, IfOk, map};
ghost use Rattle.pc_grammar.specs.Typing.{numbered, numbered_value, numbered_goal, numbered_statement};
ghost use Rattle.pc_names.specs.Names.{cell_in, function_in};
ghost use Rattle.pc_names.specs.Chains.{numbered_operands, numbered_statements};

use crate::scopes::Scope;
use pc_grammar::{Expr, Goal, Stmt, Word};
use pt_base::{BinOp, Memory};
use sqlite_items::{Boxed, Items};
use std::alloc::Global;

/// The expression with a number for each name.
#[cycle(expression)]
#[tactic(auto, using(crate::proofs::Numbering::chains))]
pub fn expression(
    alloc: Global,
    scope: &Scope<'_, '_, '_, '_>,
    e: &Expr<Word>,
) -> Result<Expr<u32>, Memory>
    ensures { IfOk result (λ tree. tree ≡ numbered (cell_in scope.now) e.now) }
{
    match e {
        Expr::Number(n) => Ok(Expr::Number(*n)),
        Expr::Var(name) => Ok(Expr::Var(scope.cell(name))),
        Expr::Elem(name, index) => {
            let cell = scope.cell(name);
            let index = expression(alloc, scope, index.get())?;
            Ok(Expr::Elem(cell, Boxed::new(alloc, index)?))
        }
        Expr::Unary(op, e) => {
            let e = expression(alloc, scope, e.get())?;
            Ok(Expr::Unary(*op, Boxed::new(alloc, e)?))
        }
        Expr::Chain(first, rest) => {
            let first = expression(alloc, scope, first.get())?;
            let rest = operands(alloc, scope, rest.as_slice())?;
            Ok(Expr::Chain(Boxed::new(alloc, first)?, rest))
        }
    }
}

#[cycle(expression)]
#[tactic(auto, using(crate::proofs::Numbering::chains))]
fn operands(
    alloc: Global,
    scope: &Scope<'_, '_, '_, '_>,
    rest: &[(BinOp, Expr<Word>)],
) -> Result<Items<(BinOp, Expr<u32>)>, Memory>
    ensures { IfOk result (λ all. all ≡ numbered_operands (cell_in scope.now) rest.now) }
{
    let mut all = Items::new(alloc);
    for (op, e) in rest {
        let e = expression(alloc, scope, e)?;
        all.push((*op, e))?;
    }
    Ok(all)
}

/// The value with a number for each name, where there is one.
pub fn value(
    alloc: Global,
    scope: &Scope<'_, '_, '_, '_>,
    of: &Option<Expr<Word>>,
) -> Result<Option<Expr<u32>>, Memory>
    ensures { IfOk result (λ tree. tree ≡ numbered_value (cell_in scope.now) of.now) }
{
    match of {
        Some(e) => {
            let e = expression(alloc, scope, e)?;
            Ok(Some(e))
        }
        None => Ok(None),
    }
}

fn expressions(
    alloc: Global,
    scope: &Scope<'_, '_, '_, '_>,
    of: &[Expr<Word>],
) -> Result<Items<Expr<u32>>, Memory>
    ensures { IfOk result (λ all. all ≡ map (numbered (cell_in scope.now)) of.now) }
{
    let mut all = Items::new(alloc);
    for e in of {
        let e = expression(alloc, scope, e)?;
        all.push(e)?;
    }
    Ok(all)
}

fn target(
    alloc: Global,
    scope: &Scope<'_, '_, '_, '_>,
    of: &Goal<Word>,
) -> Result<Goal<u32>, Memory>
    ensures { IfOk result (λ tree. tree ≡ numbered_goal (cell_in scope.now) of.now) }
{
    match of {
        Goal::Nothing => Ok(Goal::Nothing),
        Goal::Var(name) => Ok(Goal::Var(scope.cell(name))),
        Goal::Elem(name, index) => {
            let cell = scope.cell(name);
            let index = expression(alloc, scope, index)?;
            Ok(Goal::Elem(cell, index))
        }
    }
}

fn threads(
    alloc: Global,
    scope: &Scope<'_, '_, '_, '_>,
    names: &[Word],
) -> Result<Items<u32>, Memory>
    ensures { IfOk result (λ all. all ≡ map (function_in scope.now) names.now) }
{
    let mut all = Items::new(alloc);
    for name in names {
        all.push(scope.function(name))?;
    }
    Ok(all)
}

/// The statement with a number for each name.
#[cycle(statement)]
#[tactic(auto, using(crate::proofs::Numbering::statements))]
fn statement(
    alloc: Global,
    scope: &Scope<'_, '_, '_, '_>,
    s: &Stmt<Word>,
) -> Result<Stmt<u32>, Memory>
    ensures { IfOk result (λ tree. tree ≡ numbered_statement (cell_in scope.now) (function_in scope.now) s.now) }
{
    match s {
        Stmt::Skip => Ok(Stmt::Skip),
        Stmt::Assign { goal, value } => {
            let goal = target(alloc, scope, goal)?;
            let value = expression(alloc, scope, value)?;
            Ok(Stmt::Assign { goal, value })
        }
        Stmt::Call {
            goal,
            function,
            arguments,
        } => {
            let goal = target(alloc, scope, goal)?;
            let arguments = expressions(alloc, scope, arguments.as_slice())?;
            Ok(Stmt::Call {
                goal,
                function: scope.function(function),
                arguments,
            })
        }
        Stmt::Block(all) => Ok(Stmt::Block(statements(alloc, scope, all.as_slice())?)),
        Stmt::If { test, yes, no } => {
            let test = expression(alloc, scope, test)?;
            let yes = statement(alloc, scope, yes.get())?;
            let yes = Boxed::new(alloc, yes)?;
            match no {
                Some(no) => {
                    let no = statement(alloc, scope, no.get())?;
                    let no = Some(Boxed::new(alloc, no)?);
                    Ok(Stmt::If { test, yes, no })
                }
                None => Ok(Stmt::If {
                    test,
                    yes,
                    no: None,
                }),
            }
        }
        Stmt::While {
            span,
            test,
            most,
            body,
        } => {
            let test = expression(alloc, scope, test)?;
            let body = statement(alloc, scope, body.get())?;
            Ok(Stmt::While {
                span: *span,
                test,
                most: *most,
                body: Boxed::new(alloc, body)?,
            })
        }
        Stmt::Eot(span) => Ok(Stmt::Eot(*span)),
        Stmt::Par {
            span,
            threads: names,
        } => {
            let threads = threads(alloc, scope, names.as_slice())?;
            Ok(Stmt::Par {
                span: *span,
                threads,
            })
        }
        Stmt::Abort {
            span,
            weak,
            body,
            test,
        } => {
            let body = statement(alloc, scope, body.get())?;
            let test = expression(alloc, scope, test)?;
            Ok(Stmt::Abort {
                span: *span,
                weak: *weak,
                body: Boxed::new(alloc, body)?,
                test,
            })
        }
    }
}

/// The statements with a number for each name.
#[cycle(statement)]
#[tactic(auto, using(crate::proofs::Numbering::statements))]
pub fn statements(
    alloc: Global,
    scope: &Scope<'_, '_, '_, '_>,
    of: &[Stmt<Word>],
) -> Result<Items<Stmt<u32>>, Memory>
    ensures { IfOk result (λ all. all ≡ numbered_statements (cell_in scope.now) (function_in scope.now) of.now) }
{
    let mut all = Items::new(alloc);
    for s in of {
        let s = statement(alloc, scope, s)?;
        all.push(s)?;
    }
    Ok(all)
}
