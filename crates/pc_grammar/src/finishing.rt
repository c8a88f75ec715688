ghost use Rattle.std.specs.Prelude.{◌≡◌, IfOk, map};
ghost use Rattle.std.specs.List.{list_all};
ghost use Rattle.pc_grammar.specs.declared.expressions.Expr.{out-Expr};
ghost use Rattle.pc_grammar.specs.Finishing.{is_literal_truth, is_always_true, loop_finishes, is_known, finishes, all_finish, finishing};

use crate::expressions::Expr;
use crate::statements::Stmt;
use crate::typed::Function;
use pt_base::Memory;
use std::alloc::Global;

fn always_true(test: &Expr<u32>) -> bool
    ensures { result ≡ is_always_true test.now }
{
    match test {
        Expr::Number(n) => *n != 0,
        _ => false,
    }
}

fn loop_may(most: Option<u32>, test: &Expr<u32>) -> bool
    ensures { result ≡ loop_finishes most test.now }
{
    match most {
        None => !always_true(test),
        Some(_) => true,
    }
}

fn known_to_finish(known: &[bool], function: u32) -> bool
    ensures { result ≡ is_known known.now function }
{
    match known.get(function as usize) {
        None => true,
        Some(finishes) => *finishes,
    }
}

fn threads_may(known: &[bool], threads: &[u32]) -> bool
    ensures { result ≡ list_all (is_known known.now) threads.now }
{
    threads.iter().all(|thread| known_to_finish(known, *thread))
}

/// Whether a statement may finish, given of each function whether it may.
#[cycle(may)]
#[tactic(auto, using(crate::proofs::Finishes::finishes_steps))]
pub fn may(statement: &Stmt<u32>, known: &[bool]) -> bool
    ensures { result ≡ finishes known.now statement.now }
{
    match statement {
        Stmt::Skip => true,
        Stmt::Assign { .. } => true,
        Stmt::Call { .. } => true,
        Stmt::Block(all) => all_may(all.as_slice(), known),
        Stmt::If { test: _, yes, no } => {
            if may(yes.get(), known) {
                return true;
            }
            match no {
                None => true,
                Some(no) => may(no.get(), known),
            }
        }
        Stmt::While {
            span: _,
            test,
            most,
            body: _,
        } => loop_may(*most, test),
        Stmt::Eot(_) => false,
        Stmt::Par { span: _, threads } => threads_may(known, threads.as_slice()),
        Stmt::Abort {
            span: _,
            weak: _,
            body,
            test: _,
        } => may(body.get(), known),
    }
}

#[cycle(may)]
fn all_may(all: &[Stmt<u32>], known: &[bool]) -> bool
    ensures { result ≡ all_finish known.now all.now }
{
    for statement in all {
        if !may(statement, known) {
            return false;
        }
    }
    true
}

/// Of each function whether it may finish, each from those before it.
pub fn of_each(alloc: Global, functions: &[Function]) -> Result<Vec<bool>, Memory>
    ensures { IfOk result (λ known. known.items ≡ finishing functions.now) }
{
    let mut known: Vec<bool> = Vec::new(alloc);
    for function in functions {
        let finishes = all_may(function.body.as_slice(), &known);
        known.push(finishes)?;
    }
    Ok(known)
}
