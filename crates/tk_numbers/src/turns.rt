//! What tests, jumps and turns of bounded loops cost.

ghost use Rattle.std.specs.Prelude.{◌≡◌, ◌≤◌, ◌<◌, ◌+◌, ◌^◌, IfOk};
ghost use Rattle.tk_paths.specs.Walks.{most_cycles};
ghost use Rattle.tk_paths.specs.Regions.{extra, to, test_cost, tested_turn, plain_turn, leaving};
ghost use Rattle.tk_paths.specs.Regions.{cost};
ghost use Rattle.tk_paths.specs.Trees.{read_region};
ghost use Rattle.mb_isa.specs.declared.Class.TheVariants.{Jump};
ghost use Rattle.tk_paths.specs.Faults.{OnlyMemory};
ghost use Rattle.tk_numbers.specs.Charges.{routines_in, testing_cost};

use crate::charges::{behind, extra, units_cost};
use mb_isa::{Class, Costs};
use pt_image::Image;
use tk_paths::{Fault, Region, Section, sum};

/// The place behind a region.
#[tactic(auto, using(tk_paths::proofs::Readings::region_reads))]
pub fn end_of(before: &[Section], region: &Region) -> usize
    ensures place { result ≡ to (read_region (routines_in before.now) region.now) }
    ensures low { result ≤ 2 ^ 32 }
{
    match region {
        Region::Words { to, .. } => *to as usize,
        Region::Sequence { to, .. } => *to as usize,
        Region::Choice { taken, .. } => end_of(before, taken.get()),
        Region::Counted { drop, .. } => *drop as usize + 1,
        Region::Repeated { to, .. } => *to as usize,
        Region::Calling { place, .. } => *place as usize + 1,
    }
}

/// What a jump at a place is charged.
pub fn jump_cost(image: &Image, costs: &Costs, place: usize) -> u64
    ensures exact { result ≡ extra image.now costs.now place + cost image.now costs.now Jump }
    ensures low { result < 512 }
{
    extra(image, costs, place) + costs.cost(Class::Jump)
}

/// What a test of so many units is charged, up to its branch.
pub fn testing_cost(
    image: &Image,
    costs: &Costs,
    place: usize,
    count: u32,
    branch: u32,
) -> Result<u64, Fault>
    requires { place < 2 ^ 36 }
    ensures exact { IfOk result (λ n. n ≡ testing_cost image.now costs.now place count branch) }
    ensures fits { testing_cost image.now costs.now place count branch ≤ most_cycles → OnlyMemory result }
{
    sum(
        units_cost(image, costs, place, count)?,
        extra(image, costs, branch as usize),
    )
}

// The test of a bounded loop.
fn test_cost(image: &Image, costs: &Costs, from: u32, count: u32, branch: u32) -> Result<u64, Fault>
    ensures exact { IfOk result (λ n. n ≡ test_cost image.now costs.now from count branch) }
    ensures fits { test_cost image.now costs.now from count branch ≤ most_cycles → OnlyMemory result }
{
    let test = behind(image, from as usize) + 1;
    testing_cost(image, costs, test, count, branch)
}

/// A whole turn of a bounded loop with a test, whose body costs so much: the loop's weight.
pub fn tested_turn(
    image: &Image,
    costs: &Costs,
    before: &[Section],
    from: u32,
    count: u32,
    branch: u32,
    body: &Region,
    through: u64,
) -> Result<u64, Fault>
    ensures exact { IfOk result (λ n. n ≡
        tested_turn image.now costs.now from count branch (read_region (routines_in before.now) body.now) through) }
    ensures fits { let tree = read_region (routines_in before.now) body.now in
        tested_turn image.now costs.now from count branch tree through ≤ most_cycles → OnlyMemory result }
{
    let test = sum(
        test_cost(image, costs, from, count, branch)?,
        costs.cost(Class::Untaken),
    )?;
    let back = sum(through, jump_cost(image, costs, end_of(before, body)))?;
    sum(costs.cost(Class::Next), sum(test, back)?)
}

/// The same with no test.
pub fn plain_turn(
    image: &Image,
    costs: &Costs,
    before: &[Section],
    body: &Region,
    through: u64,
) -> Result<u64, Fault>
    ensures exact { IfOk result (λ n. n ≡ plain_turn image.now costs.now (read_region (routines_in before.now) body.now) through) }
    ensures fits { plain_turn image.now costs.now (read_region (routines_in before.now) body.now) through ≤ most_cycles →
        OnlyMemory result }
{
    let back = sum(through, jump_cost(image, costs, end_of(before, body)))?;
    sum(costs.cost(Class::Next), back)
}

/// The way out of a loop by its test.
pub fn leaving(
    image: &Image,
    costs: &Costs,
    from: u32,
    count: u32,
    branch: u32,
) -> Result<u64, Fault>
    ensures exact { IfOk result (λ n. n ≡ leaving image.now costs.now from count branch) }
    ensures fits { leaving image.now costs.now from count branch ≤ most_cycles → OnlyMemory result }
{
    let test = sum(
        test_cost(image, costs, from, count, branch)?,
        costs.cost(Class::Taken),
    )?;
    let out = sum(test, costs.cost(Class::Drop))?;
    sum(costs.cost(Class::Next), out)
}
