//! What it costs to cross a region, from what it costs to cross those that it is made of.

ghost use Rattle.std.specs.Prelude.{◌≡◌, ◌≤◌, IfOk};
ghost use Rattle.tk_paths.specs.Walks.{most_cycles};
ghost use Rattle.tk_paths.specs.Regions.{tested_loop};
ghost use Rattle.tk_paths.specs.Trees.{read_region};
ghost use Rattle.tk_paths.specs.Faults.{OnlyMemory};
ghost use Rattle.tk_numbers.specs.Charges.{routines_in, choice_cost, counted_cost, repeated_cost, calling_cost};

use crate::charges::extra;
use crate::turns::{jump_cost, leaving, plain_turn, tested_turn, testing_cost};
use mb_isa::{Class, Costs};
use pt_image::Image;
use tk_paths::{Fault, Region, Section, product, sum};

/// The dearer side of a choice, whose sides cost so much.
pub fn choice_cost(
    image: &Image,
    costs: &Costs,
    from: u32,
    count: u32,
    branch: u32,
    jump: usize,
    untaken: u64,
    taken: u64,
) -> Result<u64, Fault>
    ensures exact { IfOk result (λ n. n ≡ choice_cost image.now costs.now from count branch jump untaken taken) }
    ensures fits { choice_cost image.now costs.now from count branch jump untaken taken ≤ most_cycles → OnlyMemory result }
{
    let back = sum(untaken, jump_cost(image, costs, jump))?;
    let first = sum(costs.cost(Class::Untaken), back)?;
    let second = sum(costs.cost(Class::Taken), taken)?;
    let test = testing_cost(image, costs, from as usize, count, branch)?;
    sum(test, first.max(second))
}

// All turns of a loop with a test, or one turn less and the way out by the test.
fn tested_loop(
    image: &Image,
    costs: &Costs,
    before: &[Section],
    from: u32,
    turns: u32,
    count: u32,
    branch: u32,
    body: &Region,
    through: u64,
) -> Result<u64, Fault>
    ensures exact { IfOk result (λ n. n ≡
        tested_loop image.now costs.now from turns count branch (read_region (routines_in before.now) body.now) through) }
    ensures fits { let tree = read_region (routines_in before.now) body.now in
        tested_loop image.now costs.now from turns count branch tree through ≤ most_cycles → OnlyMemory result }
{
    let turn = tested_turn(image, costs, before, from, count, branch, body, through)?;
    let all = product(u64::from(turns) + 1, turn)?;
    let used = sum(all, costs.cost(Class::Next))?;
    let fewer = product(u64::from(turns), turn)?;
    let left = sum(fewer, leaving(image, costs, from, count, branch)?)?;
    Ok(used.max(left))
}

/// A loop with a test, whose body costs so much.
pub fn counted_cost(
    image: &Image,
    costs: &Costs,
    before: &[Section],
    from: u32,
    turns: u32,
    count: u32,
    branch: u32,
    body: &Region,
    through: u64,
) -> Result<u64, Fault>
    ensures exact { IfOk result (λ n. n ≡
        counted_cost image.now costs.now from turns count branch (read_region (routines_in before.now) body.now) through) }
    ensures fits { let tree = read_region (routines_in before.now) body.now in
        counted_cost image.now costs.now from turns count branch tree through ≤ most_cycles → OnlyMemory result }
{
    let opening = extra(image, costs, from as usize) + costs.cost(Class::Loop);
    let turning = tested_loop(
        image, costs, before, from, turns, count, branch, body, through,
    )?;
    sum(opening, turning)
}

/// A loop without one.
pub fn repeated_cost(
    image: &Image,
    costs: &Costs,
    before: &[Section],
    from: u32,
    turns: u32,
    body: &Region,
    through: u64,
) -> Result<u64, Fault>
    ensures exact { IfOk result (λ n. n ≡
        repeated_cost image.now costs.now from turns (read_region (routines_in before.now) body.now) through) }
    ensures fits { let tree = read_region (routines_in before.now) body.now in
        repeated_cost image.now costs.now from turns tree through ≤ most_cycles → OnlyMemory result }
{
    let opening = extra(image, costs, from as usize) + costs.cost(Class::Loop);
    let turn = plain_turn(image, costs, before, body, through)?;
    let all = product(u64::from(turns) + 1, turn)?;
    sum(opening, sum(all, costs.cost(Class::Next))?)
}

/// A call of a routine of this cost.
pub fn calling_cost(image: &Image, costs: &Costs, routine: u64) -> Result<u64, Fault>
    ensures exact { IfOk result (λ n. n ≡ calling_cost image.now costs.now routine) }
    ensures fits { calling_cost image.now costs.now routine ≤ most_cycles → OnlyMemory result }
{
    let _image = image;
    sum(
        costs.cost(Class::Call),
        sum(routine, costs.cost(Class::Ret))?,
    )
}
