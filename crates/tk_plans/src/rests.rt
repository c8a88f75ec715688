//! The answers of conditions, and where a slot that rests goes on.

ghost use Rattle.std.specs.Prelude.{◌≡◌, ◌≤◌, ◌<◌, ◌+◌, ◌^◌, false, IfOk, IfSome, slice_index_or};
ghost use Rattle.tk_paths.specs.Choices.{fitted};
ghost use Rattle.tk_paths.specs.Walks.{most_cycles};
ghost use Rattle.tk_paths.specs.Faults.{OnlyMemory};
ghost use Rattle.tk_paths.specs.Greatest.{resting};
ghost use Rattle.tk_paths.specs.Told.{told_by};
ghost use Rattle.tk_plans.specs.Parts.{handler_next, rest_next};
ghost use Rattle.tk_plans.specs.Low.{AreLow};

use crate::parts::Next;
use crate::words::is_second;
use mb_isa::Costs;
use pt_image::Image;
use std::alloc::Global;
use tk_cert::Line;
use tk_paths::{Fault, Pair, Side, abort_at, greater, handlers, number, stays};

// An answer; one that isn't told doesn't hold.
fn answer_at(answers: &[bool], i: usize) -> bool
    ensures { result ≡ slice_index_or answers.now i false }
{
    match answers.get(i) {
        None => false,
        Some(holds) => *holds,
    }
}

/// The answers of just so many conditions; those that aren't told don't hold.
#[tactic(auto, using(crate::proofs::Fits::fits))]
pub fn fitted(alloc: Global, level: usize, answers: &[bool]) -> Result<Vec<bool>, Fault>
    ensures exact { IfOk result (λ v. v.items ≡ fitted level answers.now) }
    ensures only { OnlyMemory result }
{
    let mut fit = Vec::new(alloc);
    for i in 0..level {
        fit.push(answer_at(answers, i))?;
    }
    Ok(fit)
}

// Where a slot goes from a rest inside these aborts, of which so many are old: to the handler of a weak one. The first has this level.
#[tactic(auto, using(crate::proofs::PartLaws::handler_step))]
fn handler_next(
    image: &Image,
    costs: &Costs,
    lines: &[Line],
    bounds: &[Pair],
    side: Side,
    level: usize,
    stack: &[u32],
    count: usize,
) -> Next
    requires { level + count < 2 ^ 64 }
    ensures { result ≡ handler_next image.now (told_by lines.now bounds.now) costs.now side level stack.now count }
{
    match stack {
        [] => Next::Stays,
        [j, rest @ ..] => {
            if count == 0 {
                return Next::Stays;
            }
            let line = abort_at(image, *j);
            let handler = line.handler as usize;
            let mine = if line.weak {
                number(lines, side, level, handler)
            } else {
                None
            };
            let others = handlers(
                image,
                costs,
                lines,
                bounds,
                side,
                level + 1,
                rest,
                count - 1,
            );
            if is_second(mine, others) {
                return handler_next(
                    image,
                    costs,
                    lines,
                    bounds,
                    side,
                    level + 1,
                    rest,
                    count - 1,
                );
            }
            Next::Handler {
                place: handler,
                level,
            }
        }
    }
}

/// The same where a slot may stay.
pub fn rest_next(
    image: &Image,
    costs: &Costs,
    lines: &[Line],
    bounds: &[Pair],
    stack: &[u32],
    count: usize,
    side: Side,
) -> Next
    ensures { result ≡ rest_next image.now (told_by lines.now bounds.now) costs.now stack.now count side }
{
    let others = handlers(image, costs, lines, bounds, side, 0, stack, count);
    if is_second(stays(side), others) {
        return handler_next(image, costs, lines, bounds, side, 0, stack, count);
    }
    Next::Stays
}

/// What follows a rest inside these aborts, of which so many are old.
#[tactic(auto, using(crate::proofs::LowLaws::resting_low))]
pub fn resting_at(
    image: &Image,
    costs: &Costs,
    lines: &[Line],
    bounds: &[Pair],
    stack: &[u32],
    count: usize,
    side: Side,
) -> Option<u64>
    requires { AreLow lines.now }
    ensures exact { result ≡ resting image.now (told_by lines.now bounds.now) costs.now stack.now count side }
    ensures bound { IfSome result (λ n. n ≤ most_cycles) }
{
    greater(
        stays(side),
        handlers(image, costs, lines, bounds, side, 0, stack, count),
    )
}
