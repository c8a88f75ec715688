//! The numbers of slots that are resumed, from the highest slot down, and the bound.

ghost use Rattle.std.specs.Prelude.{◌≡◌, ◌≤◌, ◌<◌, ◌+◌, ◌++◌, [], replicate, length, None, IfOk};
ghost use Rattle.mb_isa.specs.Tick.{base_of};
ghost use Rattle.tk_paths.specs.declared.view.Side.TheVariants.{ToPause, ToEnd};
ghost use Rattle.tk_paths.specs.Sums.{greatest};
ghost use Rattle.tk_paths.specs.Walks.{most_cycles};
ghost use Rattle.tk_paths.specs.Greatest.{beginnings};
ghost use Rattle.tk_paths.specs.Faults.{OnlyMemory, IsSmall};
ghost use Rattle.tk_paths.specs.Told.{told_by, resumption, slots_from};
ghost use Rattle.tk_paths.specs.Waits.{AreSmallWaits, AreSmallSlots};

use crate::counts::{MOST, greater, sum};
use crate::fault::Fault;
use crate::levels::Pair;
use crate::numbers::{number, pair_at, start_of};
use crate::resuming::{best_paused, best_waited};
use crate::view::Side;
use mb_isa::Costs;
use pt_image::Image;
use std::alloc::Global;
use tk_cert::Line;

// A number of a slot that is resumed.
fn resumption(
    image: &Image,
    costs: &Costs,
    lines: &[Line],
    bounds: &[Pair],
    slot: u32,
    side: Side,
) -> Result<Option<u64>, Fault>
    ensures exact { IfOk result (λ n. n ≡ resumption image.now costs.now lines.now bounds.now slot side) }
    ensures fits { AreSmallWaits image.now bounds.now slot
        → IsSmall (resumption image.now costs.now lines.now bounds.now slot side) → OnlyMemory result }
{
    let paused = best_paused(image, costs, lines, bounds, side, slot)?;
    let waited = best_waited(image, costs, lines, bounds, side, slot)?;
    Ok(greater(paused, waited))
}

// Sets the numbers of so many slots, from one on, which are the last.
#[tactic(auto, using(crate::proofs::Later::unknown))]
fn set_slots(
    image: &Image,
    costs: &Costs,
    lines: &[Line],
    slot: u32,
    count: u32,
    bounds: &mut Vec<Pair>,
) -> Result<(), Fault>
    requires few { slot + count ≤ 64 }
    requires unknown { bounds.old.items ≡ replicate (slot + count) (None, None) }
    ensures exact { IfOk result (λ done. bounds.new.items ≡
        replicate slot (None, None) ++ slots_from image.now costs.now lines.now slot count) }
    ensures fits { AreSmallSlots image.now costs.now lines.now slot count → OnlyMemory result }
{
    if count == 0 {
        return Ok(());
    }
    set_slots(image, costs, lines, slot + 1, count - 1, bounds)?;
    let known = bounds.as_slice();
    let pause = resumption(image, costs, lines, known, slot, Side::ToPause)?;
    let end = resumption(image, costs, lines, known, slot, Side::ToEnd)?;
    bounds[slot as usize] = (pause, end);
    Ok(())
}

/// The numbers of each slot that is resumed.
pub fn slot_bounds(
    alloc: Global,
    image: &Image,
    costs: &Costs,
    lines: &[Line],
) -> Result<Vec<Pair>, Fault>
    ensures exact { IfOk result (λ bounds. bounds.items ≡ slots_from image.now costs.now lines.now 0 (length image.now.slots)) }
    ensures fits { AreSmallSlots image.now costs.now lines.now 0 (length image.now.slots) → OnlyMemory result }
{
    image.ranges();
    let count = image.slots().len();
    let mut bounds = Vec::new(alloc);
    for _ in 0..count {
        bounds.push((None, None))?;
    }
    set_slots(image, costs, lines, 0, count as u32, &mut bounds)?;
    Ok(bounds)
}

/// The greatest of the numbers that are there, or 0.
pub fn greatest_of(numbers: &[Option<u64>]) -> u64
    ensures { result ≡ greatest numbers.now }
{
    match numbers {
        [] => 0,
        [None, rest @ ..] => greatest_of(rest),
        [Some(number), rest @ ..] => {
            let most = greatest_of(rest);
            if *number <= most { most } else { *number }
        }
    }
}

// What the tick itself is charged.
fn base(image: &Image, costs: &Costs) -> u64
    ensures { result ≡ base_of image.now costs.now }
{
    image.ranges();
    costs.tick(image.inputs().len(), image.outputs().len())
}

/// The bound: what the tick itself is charged, and the greatest of the numbers with which it may begin.
pub fn bound_of(image: &Image, costs: &Costs, lines: &[Line], bounds: &[Pair]) -> Result<u64, Fault>
    ensures exact { IfOk result (λ n. n ≡
        base_of image.now costs.now + greatest (beginnings image.now (told_by lines.now bounds.now) costs.now)) }
    ensures within { IfOk result (λ n. n ≤ most_cycles) }
    ensures fits { base_of image.now costs.now + greatest (beginnings image.now (told_by lines.now bounds.now) costs.now) ≤ most_cycles
        → OnlyMemory result }
{
    let start = start_of(image, 0);
    let beginnings = [
        number(lines, Side::ToPause, 0, start),
        number(lines, Side::ToEnd, 0, start),
        pair_at(bounds, Side::ToPause, 0),
        pair_at(bounds, Side::ToEnd, 0),
    ];
    let n = sum(base(image, costs), greatest_of(&beginnings))?;
    if n > MOST {
        return Err(Fault::TooLarge);
    }
    Ok(n)
}
