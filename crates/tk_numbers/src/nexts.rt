//! The numbers at the `next` of a bounded loop.

ghost use Rattle.std.specs.Prelude.{◌≡◌, ◌≤◌, ◌+◌, ◌-◌, IfOk};
ghost use Rattle.tk_paths.specs.Walks.{most_cycles};
ghost use Rattle.tk_paths.specs.Numbers.{next_number, at_next};
ghost use Rattle.tk_paths.specs.Regions.{tested_turn, leaving, through};
ghost use Rattle.tk_paths.specs.Trees.{read_region};
ghost use Rattle.tk_numbers.specs.Charges.{routines_in};
ghost use Rattle.tk_paths.specs.Faults.{OnlyMemory, IsSmall, AllSmall};
ghost use Rattle.tk_paths.specs.Levels.{numbers_of};
ghost use Rattle.tk_numbers.specs.Nexts.{nexts};

use crate::turns::{leaving, tested_turn};
use mb_isa::{Class, Costs};
use pt_base::Many;
use pt_image::Image;
use std::alloc::Global;
use tk_paths::{Fault, Levels, Region, Section, level_at, sum};

// A sum of two numbers without a third, and not below 0.
fn without(out: u64, behind: u64, weight: u64) -> Result<u64, Fault>
    ensures exact { IfOk result (λ n. n ≡ (out + behind) - weight) }
    ensures fits { (out + behind) - weight ≤ most_cycles → OnlyMemory result }
{
    if out < weight {
        return Ok(behind.saturating_sub(weight - out));
    }
    sum(out - weight, behind)
}

// A number at a `next`, from that behind its loop.
fn next_number(next: u64, out: u64, weight: u64, behind: Option<u64>) -> Result<Option<u64>, Fault>
    ensures exact { IfOk result (λ o. o ≡ next_number next out weight behind) }
    ensures fits { IsSmall (next_number next out weight behind) → OnlyMemory result }
{
    match behind {
        None => Ok(None),
        Some(n) => {
            let used = sum(next, n)?;
            let left = without(out, n, weight)?;
            Ok(Some(used.max(left)))
        }
    }
}

// The numbers at a `next`, from those behind its loop.
#[tactic(auto, using(crate::proofs::LoopNumbers::loop_numbers))]
fn next_levels(
    alloc: Global,
    next: u64,
    out: u64,
    weight: u64,
    behind: &Levels,
) -> Result<Levels, Fault>
    ensures exact { IfOk result (λ l. numbers_of l ≡ nexts next out weight (numbers_of behind.now)) }
    ensures fits { AllSmall (nexts next out weight (numbers_of behind.now)) → OnlyMemory result }
{
    let count = behind.levels.items().len().max(1);
    let mut levels = Vec::new(alloc);
    for k in 0..count {
        let pair = level_at(behind, k);
        let pause = next_number(next, out, weight, pair.0)?;
        let end = next_number(next, out, weight, pair.1)?;
        levels.push((pause, end))?;
    }
    Ok(Levels {
        value: next_number(next, out, weight, behind.value)?,
        levels: Many::of(levels),
    })
}

/// The numbers at the `next` of a loop with a test, whose body costs so much.
#[tactic(auto, using(crate::proofs::LoopNumbers::nexts_are))]
pub fn at_next(
    alloc: Global,
    image: &Image,
    costs: &Costs,
    before: &[Section],
    from: u32,
    count: u32,
    branch: u32,
    body: &Region,
    cost: u64,
    behind: &Levels,
) -> Result<Levels, Fault>
    requires { cost ≡ through image.now costs.now (read_region (routines_in before.now) body.now) }
    ensures exact { IfOk result (λ l. numbers_of l ≡
        at_next image.now costs.now from count branch (read_region (routines_in before.now) body.now) (numbers_of behind.now)) }
    ensures fits { let tree = read_region (routines_in before.now) body.now in
        tested_turn image.now costs.now from count branch tree cost ≤ most_cycles
        → leaving image.now costs.now from count branch ≤ most_cycles
        → AllSmall (at_next image.now costs.now from count branch tree (numbers_of behind.now)) → OnlyMemory result }
{
    let weight = tested_turn(image, costs, before, from, count, branch, body, cost)?;
    let out = leaving(image, costs, from, count, branch)?;
    next_levels(alloc, costs.cost(Class::Next), out, weight, behind)
}
