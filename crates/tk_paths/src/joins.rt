//! Sums over the children of a fork that are resumed.

ghost use Rattle.std.specs.Prelude.{◌≡◌, ◌≤◌, ◌+◌, ◌^◌, IfOk};
ghost use Rattle.tk_paths.specs.Sums.{and_more, resumed_ends, resumed_most, resumed_paused};
ghost use Rattle.tk_paths.specs.Walks.{most_cycles};
ghost use Rattle.tk_paths.specs.Faults.{OnlyMemory, IsSmall};
ghost use Rattle.tk_paths.specs.Told.{pair_at};

use crate::counts::{greater, plus, sum};
use crate::fault::Fault;
use crate::levels::Pair;
use crate::numbers::{or_zero, pair_at};
use crate::view::Side;

// A number and what there is of another.
fn and_more(number: Option<u64>, rest: Option<u64>) -> Result<Option<u64>, Fault>
    ensures exact { IfOk result (λ n. n ≡ and_more number rest) }
    ensures fits { IsSmall (and_more number rest) → OnlyMemory result }
{
    match number {
        None => Ok(rest),
        Some(number) => {
            let n = sum(number, or_zero(rest))?;
            Ok(Some(n))
        }
    }
}

/// The sum of all numbers to the end that are there; none where no child has one.
#[tactic(auto, using(crate::proofs::ChildSums::resumed_ends_step))]
pub fn resumed_ends(bounds: &[Pair], child: u32, count: u32) -> Result<Option<u64>, Fault>
    requires { child + count ≤ 2 ^ 20 }
    ensures exact { IfOk result (λ n. n ≡ resumed_ends (pair_at bounds.now) child count) }
    ensures fits { resumed_most (pair_at bounds.now) child count ≤ most_cycles → OnlyMemory result }
{
    if count == 0 {
        return Ok(None);
    }
    let rest = resumed_ends(bounds, child + 1, count - 1)?;
    let n = and_more(pair_at(bounds, Side::ToEnd, child as usize), rest)?;
    Ok(n)
}

/// The greatest sum in which each child gives one of its numbers or 0.
#[tactic(auto, using(crate::proofs::ChildSums::resumed_most_step))]
pub fn resumed_most(bounds: &[Pair], child: u32, count: u32) -> Result<u64, Fault>
    requires { child + count ≤ 2 ^ 20 }
    ensures exact { IfOk result (λ n. n ≡ resumed_most (pair_at bounds.now) child count) }
    ensures fits { resumed_most (pair_at bounds.now) child count ≤ most_cycles → OnlyMemory result }
{
    if count == 0 {
        return Ok(0);
    }
    let here = greater(
        pair_at(bounds, Side::ToPause, child as usize),
        pair_at(bounds, Side::ToEnd, child as usize),
    );
    let rest = resumed_most(bounds, child + 1, count - 1)?;
    let n = sum(or_zero(here), rest)?;
    Ok(n)
}

/// The same with at least one of them up to a pause.
#[tactic(auto, using(crate::proofs::ChildSums::resumed_paused_step))]
pub fn resumed_paused(bounds: &[Pair], child: u32, count: u32) -> Result<Option<u64>, Fault>
    requires { child + count ≤ 2 ^ 20 }
    ensures exact { IfOk result (λ n. n ≡ resumed_paused (pair_at bounds.now) child count) }
    ensures fits { resumed_most (pair_at bounds.now) child count ≤ most_cycles → OnlyMemory result }
{
    if count == 0 {
        return Ok(None);
    }
    let others = resumed_most(bounds, child + 1, count - 1)?;
    let paused = plus(pair_at(bounds, Side::ToPause, child as usize), Some(others))?;
    let rest = resumed_paused(bounds, child + 1, count - 1)?;
    let ended = plus(
        Some(or_zero(pair_at(bounds, Side::ToEnd, child as usize))),
        rest,
    )?;
    Ok(greater(paused, ended))
}
