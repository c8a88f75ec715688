//! What a slot comes to that is resumed.

ghost use Rattle.std.specs.Prelude.{◌≡◌, ◌≤◌, ◌<◌, ◌+◌, ◌^◌, IfOk, length, Some};
ghost use Rattle.tk_paths.specs.Shape.{children_at};
ghost use Rattle.tk_paths.specs.Greatest.{stays, where_some, handlers, resting, tested, paused, joined, waited, best};
ghost use Rattle.tk_paths.specs.Sums.{resumed_most};
ghost use Rattle.tk_paths.specs.Walks.{most_cycles};
ghost use Rattle.tk_paths.specs.Faults.{OnlyMemory, IsSmall};
ghost use Rattle.tk_paths.specs.Told.{told_by, pair_at, weak_handler, strong_handler, joined_paused, joined_ended};
ghost use Rattle.tk_paths.specs.Waits.{IsSmallWait, AreSmallWaits};

use crate::counts::{greater, more, plus};
use crate::fault::Fault;
use crate::joins::{resumed_ends, resumed_paused};
use crate::levels::Pair;
use crate::numbers::{abort_at, instr_at, number, value_at};
use crate::view::Side;
use mb_isa::{Costs, Instr};
use pt_image::{Image, Point};
use tk_cert::Line;

// The number of a handler, where its abort is weak.
fn weak_handler(image: &Image, lines: &[Line], side: Side, level: usize, j: u32) -> Option<u64>
    ensures { result ≡ weak_handler image.now lines.now side level j }
{
    let line = abort_at(image, j);
    if line.weak {
        return number(lines, side, level, line.handler as usize);
    }
    None
}

// The number of a handler, where its abort is strong.
fn strong_handler(image: &Image, lines: &[Line], side: Side, level: usize, j: u32) -> Option<u64>
    ensures { result ≡ strong_handler image.now lines.now side level j }
{
    let line = abort_at(image, j);
    if line.weak {
        return None;
    }
    number(lines, side, level, line.handler as usize)
}

/// The greatest number of the handlers of the weak ones of so many aborts; the first has this level.
#[tactic(auto, using(crate::proofs::ChildSums::handlers_step))]
pub fn handlers(
    image: &Image,
    costs: &Costs,
    lines: &[Line],
    bounds: &[Pair],
    side: Side,
    level: usize,
    stack: &[u32],
    count: usize,
) -> Option<u64>
    requires { level + count < 2 ^ 64 }
    ensures { result ≡ handlers image.now (told_by lines.now bounds.now) costs.now side level stack.now count }
{
    match stack {
        [] => None,
        [j, rest @ ..] => {
            if count == 0 {
                return None;
            }
            let inner = handlers(
                image,
                costs,
                lines,
                bounds,
                side,
                level + 1,
                rest,
                count - 1,
            );
            greater(weak_handler(image, lines, side, level, *j), inner)
        }
    }
}

/// What a rest stays at.
pub fn stays(side: Side) -> Option<u64>
    ensures { result ≡ stays side }
{
    match side {
        Side::ToPause => Some(0),
        Side::ToEnd => None,
    }
}

/// What follows a rest inside these aborts, which are old.
pub fn resting(
    image: &Image,
    costs: &Costs,
    lines: &[Line],
    bounds: &[Pair],
    stack: &[u32],
    side: Side,
) -> Option<u64>
    ensures { result ≡ resting image.now (told_by lines.now bounds.now) costs.now stack.now (length stack.now) side }
{
    let handled = handlers(image, costs, lines, bounds, side, 0, stack, stack.len());
    greater(stays(side), handled)
}

/// The conditions of these aborts, the first of which has this level: a strong one may lead to its handler, and then `inner`.
pub fn tested_by(
    image: &Image,
    costs: &Costs,
    lines: &[Line],
    bounds: &[Pair],
    side: Side,
    level: usize,
    stack: &[u32],
    inner: Option<u64>,
) -> Result<Option<u64>, Fault>
    requires { level + length stack.now ≤ 8 }
    ensures exact { IfOk result (λ n. n ≡ tested image.now (told_by lines.now bounds.now) costs.now side level stack.now inner) }
    ensures fits { IsSmall (tested image.now (told_by lines.now bounds.now) costs.now side level stack.now inner) → OnlyMemory result }
{
    match stack {
        [] => Ok(inner),
        [j, rest @ ..] => {
            let behind = tested_by(image, costs, lines, bounds, side, level + 1, rest, inner)?;
            let either = greater(strong_handler(image, lines, side, level, *j), behind);
            let n = more(value_at(lines, abort_at(image, *j).cond as usize), either)?;
            Ok(n)
        }
    }
}

/// What a pause gives its slot.
pub fn paused(
    image: &Image,
    costs: &Costs,
    lines: &[Line],
    bounds: &[Pair],
    side: Side,
    p: &Point,
) -> Result<Option<u64>, Fault>
    requires { length p.now.stack ≤ 8 }
    ensures exact { IfOk result (λ n. n ≡ paused image.now (told_by lines.now bounds.now) costs.now side p.now) }
    ensures fits { IsSmall (paused image.now (told_by lines.now bounds.now) costs.now side p.now) → OnlyMemory result }
{
    let stack = p.stack.items();
    let behind = number(lines, side, stack.len(), p.at as usize + 1);
    let n = tested_by(image, costs, lines, bounds, side, 0, stack, behind)?;
    Ok(n)
}

/// What follows behind the conditions of a fork that waits, where some child pauses.
pub fn joined_paused(
    image: &Image,
    costs: &Costs,
    lines: &[Line],
    bounds: &[Pair],
    side: Side,
    p: &Point,
    lo: u8,
    count: u8,
) -> Result<Option<u64>, Fault>
    ensures exact { IfOk result (λ n. n ≡ joined_paused image.now (told_by lines.now bounds.now) costs.now side p.now lo count) }
    ensures fits { resumed_most (pair_at bounds.now) lo count ≤ most_cycles
        → IsSmall (joined_paused image.now (told_by lines.now bounds.now) costs.now side p.now lo count) → OnlyMemory result }
{
    let pausing = resumed_paused(bounds, u32::from(lo), u32::from(count))?;
    let rests = resting(image, costs, lines, bounds, p.stack.items(), side);
    let n = plus(pausing, rests)?;
    Ok(n)
}

/// The same where all children end.
pub fn joined_ended(
    image: &Image,
    costs: &Costs,
    lines: &[Line],
    bounds: &[Pair],
    side: Side,
    p: &Point,
    lo: u8,
    count: u8,
) -> Result<Option<u64>, Fault>
    ensures exact { IfOk result (λ n. n ≡ joined_ended image.now (told_by lines.now bounds.now) costs.now side p.now lo count) }
    ensures fits { resumed_most (pair_at bounds.now) lo count ≤ most_cycles
        → IsSmall (joined_ended image.now (told_by lines.now bounds.now) costs.now side p.now lo count) → OnlyMemory result }
{
    let ending = resumed_ends(bounds, u32::from(lo), u32::from(count))?;
    let behind = number(lines, side, p.stack.items().len(), p.at as usize + 1);
    let n = plus(ending, behind)?;
    Ok(n)
}

// What follows behind the conditions of a fork that waits.
fn joined(
    image: &Image,
    costs: &Costs,
    lines: &[Line],
    bounds: &[Pair],
    side: Side,
    p: &Point,
    lo: u8,
    count: u8,
) -> Result<Option<u64>, Fault>
    ensures exact { IfOk result (λ n. n ≡ joined image.now (told_by lines.now bounds.now) costs.now side p.now lo count) }
    ensures fits { resumed_most (pair_at bounds.now) lo count ≤ most_cycles
        → IsSmall (joined image.now (told_by lines.now bounds.now) costs.now side p.now lo count) → OnlyMemory result }
{
    let paused = joined_paused(image, costs, lines, bounds, side, p, lo, count)?;
    let ended = joined_ended(image, costs, lines, bounds, side, p, lo, count)?;
    Ok(greater(paused, ended))
}

// What a fork gives its slot, where this number is there.
fn waited_where(
    image: &Image,
    costs: &Costs,
    lines: &[Line],
    bounds: &[Pair],
    side: Side,
    p: &Point,
    lo: u8,
    count: u8,
    any: Option<u64>,
) -> Result<Option<u64>, Fault>
    requires { length p.now.stack ≤ 8 }
    ensures exact { IfOk result (λ n. n ≡ where_some any (tested image.now (told_by lines.now bounds.now) costs.now side 0 p.now.stack
        (joined image.now (told_by lines.now bounds.now) costs.now side p.now lo count))) }
    ensures fits { let told = told_by lines.now bounds.now in
        resumed_most (pair_at bounds.now) lo count ≤ most_cycles
        → IsSmall (where_some any (tested image.now told costs.now side 0 p.now.stack (joined image.now told costs.now side p.now lo count)))
        → OnlyMemory result }
{
    match any {
        None => Ok(None),
        Some(_) => {
            let behind = joined(image, costs, lines, bounds, side, p, lo, count)?;
            let n = tested_by(
                image,
                costs,
                lines,
                bounds,
                side,
                0,
                p.stack.items(),
                behind,
            )?;
            Ok(n)
        }
    }
}

/// What a fork that waits gives its slot.
pub fn waited(
    image: &Image,
    costs: &Costs,
    lines: &[Line],
    bounds: &[Pair],
    side: Side,
    p: &Point,
) -> Result<Option<u64>, Fault>
    requires { length p.now.stack ≤ 8 }
    ensures exact { IfOk result (λ n. n ≡ waited image.now (told_by lines.now bounds.now) costs.now side p.now) }
    ensures fits { IsSmallWait image.now bounds.now p.now
        → IsSmall (waited image.now (told_by lines.now bounds.now) costs.now side p.now) → OnlyMemory result }
{
    match instr_at(image, p.at as usize) {
        Some(Instr::Fork { lo, count }) => {
            let ending = resumed_ends(bounds, u32::from(lo), u32::from(count))?;
            let pausing = resumed_paused(bounds, u32::from(lo), u32::from(count))?;
            let any = greater(ending, pausing);
            let n = waited_where(image, costs, lines, bounds, side, p, lo, count, any)?;
            Ok(n)
        }
        _ => Ok(None),
    }
}

/// The greatest of what the pauses of a slot give it.
#[tactic(auto, using(crate::proofs::Bests::best_here, crate::proofs::Bests::best_past, crate::proofs::Bests::greater_none, crate::proofs::Bests::few_at))]
pub fn best_paused(
    image: &Image,
    costs: &Costs,
    lines: &[Line],
    bounds: &[Pair],
    side: Side,
    slot: u32,
) -> Result<Option<u64>, Fault>
    ensures exact { IfOk result (λ n. n ≡ best (paused image.now (told_by lines.now bounds.now) costs.now side) slot image.now.pauses) }
    ensures fits { IsSmall (best (paused image.now (told_by lines.now bounds.now) costs.now side) slot image.now.pauses) →
        OnlyMemory result }
{
    image.ranges();
    let mut most = None;
    for p in image.pauses() {
        if p.slot == slot {
            let given = paused(image, costs, lines, bounds, side, p)?;
            most = greater(most, given);
        }
    }
    Ok(most)
}

/// The greatest of what the forks of a slot give it.
#[tactic(auto, using(crate::proofs::Bests::best_here, crate::proofs::Bests::best_past, crate::proofs::Bests::greater_none, crate::proofs::Bests::few_at))]
pub fn best_waited(
    image: &Image,
    costs: &Costs,
    lines: &[Line],
    bounds: &[Pair],
    side: Side,
    slot: u32,
) -> Result<Option<u64>, Fault>
    ensures exact { IfOk result (λ n. n ≡ best (waited image.now (told_by lines.now bounds.now) costs.now side) slot image.now.forks) }
    ensures fits { AreSmallWaits image.now bounds.now slot
        → IsSmall (best (waited image.now (told_by lines.now bounds.now) costs.now side) slot image.now.forks) → OnlyMemory result }
{
    image.ranges();
    let mut most = None;
    for p in image.forks() {
        if p.slot == slot {
            let given = waited(image, costs, lines, bounds, side, p)?;
            most = greater(most, given);
        }
    }
    Ok(most)
}
