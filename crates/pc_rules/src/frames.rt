ghost use Rattle.std.specs.Prelude.{◌≡◌, ◌+◌, min, sum_by};
ghost use Rattle.pc_rules.specs.Weights.{value_weight, frame_weight};

use crate::expressions;
use crate::sums::{MOST_WORDS, plus};
use pc_grammar::{Expr, Function};

fn locals(all: &[(u32, Option<Expr<u32>>)]) -> u64
    ensures { result ≡ min MOST_WORDS (sum_by (λ p. 4 + value_weight p.1) all.now) }
{
    let mut total = 0;
    for (_, e) in all {
        total = plus(total, plus(4, expressions::value(e)));
    }
    total
}

/// A function but for its body.
pub fn frame(function: &Function) -> u64
    ensures { result ≡ min MOST_WORDS (frame_weight function.now) }
{
    let declared = plus(8, locals(function.locals.as_slice()));
    plus(declared, expressions::result(&function.result))
}
