ghost use Rattle.std.specs.Prelude.{◌≡◌, ◌+◌, min, sum_by};
ghost use Rattle.pc_rules.specs.Weights.{expression_weight, value_weight, result_weight, goal_weight, call_weight};

use crate::sums::{MOST_WORDS, plus};
use pc_grammar::{Expr, Goal};
use pt_base::BinOp;

#[cycle(expression)]
pub fn expression(e: &Expr<u32>) -> u64
    ensures { result ≡ min MOST_WORDS (expression_weight e.now) }
{
    match e {
        Expr::Number(_) => 4,
        Expr::Var(_) => 4,
        Expr::Elem(_, index) => plus(24, expression(index.get())),
        Expr::Unary(_, e) => plus(12, expression(e.get())),
        Expr::Chain(first, rest) => {
            let operands = operands(rest.as_slice());
            plus(expression(first.get()), operands)
        }
    }
}

#[cycle(expression)]
fn operands(rest: &[(BinOp, Expr<u32>)]) -> u64
    ensures { result ≡ min MOST_WORDS (sum_by (λ p. 16 + expression_weight p.1) rest.now) }
{
    let mut total = 0;
    for (_, e) in rest {
        total = plus(total, plus(16, expression(e)));
    }
    total
}

/// The value of a local, or none.
pub fn value(e: &Option<Expr<u32>>) -> u64
    ensures { result ≡ min MOST_WORDS (value_weight e.now) }
{
    match e {
        None => 4,
        Some(e) => expression(e),
    }
}

/// The result of a function, or none.
pub fn result(e: &Option<Expr<u32>>) -> u64
    ensures { result ≡ min MOST_WORDS (result_weight e.now) }
{
    match e {
        None => 0,
        Some(e) => plus(4, expression(e)),
    }
}

pub fn goal(goal: &Goal<u32>) -> u64
    ensures { result ≡ min MOST_WORDS (goal_weight goal.now) }
{
    match goal {
        Goal::Nothing => 0,
        Goal::Var(_) => 4,
        Goal::Elem(_, index) => plus(24, expression(index)),
    }
}

fn arguments(all: &[Expr<u32>]) -> u64
    ensures { result ≡ min MOST_WORDS (sum_by (λ e. 4 + expression_weight e) all.now) }
{
    let mut total = 0;
    for e in all {
        total = plus(total, plus(4, expression(e)));
    }
    total
}

pub fn call(target: &Goal<u32>, all: &[Expr<u32>]) -> u64
    ensures { result ≡ min MOST_WORDS (call_weight target.now all.now) }
{
    let passed = plus(8, arguments(all));
    plus(passed, goal(target))
}
