//! Where codes end, and the numbers at the words round them.

ghost use Rattle.std.specs.Prelude.{◌≡◌, ◌≤◌, IfOk};
ghost use Rattle.tk_paths.specs.Sums.{resumed_most};
ghost use Rattle.tk_paths.specs.Walks.{most_cycles};
ghost use Rattle.tk_paths.specs.Codes.{exit as the_exit};
ghost use Rattle.tk_paths.specs.Numbers.{branched as the_branched, jumping as the_jumping, testing as the_testing};
ghost use Rattle.tk_paths.specs.Programs.{pair_from};
ghost use Rattle.tk_paths.specs.Trees.{read_code};
ghost use Rattle.tk_paths.specs.Faults.{OnlyMemory, AllSmall, HasRoom};
ghost use Rattle.tk_numbers.specs.Charges.{routines_in, testing_cost};
ghost use Rattle.tk_paths.specs.Levels.{numbers_of};
ghost use Rattle.tk_threads.specs.Codes.{pausing, forking};

use crate::rests::{Handler, rested};
use crate::sums::{all_ends, most_paused};
use mb_isa::{Class, Costs};
use pt_image::Image;
use std::alloc::Global;
use tk_numbers::{end_of, jumping, testing_cost};
use tk_paths::{Code, Fault, Levels, Pair, Section, added, after, branched, dearer};

/// The place behind a code.
#[tactic(auto, using(tk_paths::proofs::Readings::code_reads))]
pub fn exit(before: &[Section], code: &Code) -> Result<usize, Fault>
    ensures exact { IfOk result (λ place. place ≡ the_exit (read_code (routines_in before.now) code.now)) }
    ensures fits { OnlyMemory result }
{
    match code {
        Code::Passed(region) => Ok(end_of(before, region)),
        Code::Sequence { parts: _, to } => Ok(*to as usize),
        Code::Either {
            from: _,
            count: _,
            branch: _,
            untaken: _,
            taken,
        } => {
            let place = exit(before, taken.get())?;
            Ok(place)
        }
        Code::Turns {
            from: _,
            count: _,
            branch: _,
            body: _,
            to,
        } => Ok(*to as usize),
        Code::Forever { body: _, to } => Ok(*to as usize),
        Code::Resting(place) => Ok(*place as usize + 1),
        Code::Forking {
            place,
            first: _,
            count: _,
        } => Ok(*place as usize + 1),
        Code::Guarded {
            place: _,
            number: _,
            body,
        } => {
            let last = exit(before, body.get())?;
            let Some(place) = last.checked_add(1) else {
                return Err(Fault::Memory);
            };
            Ok(place)
        }
    }
}

/// The numbers where a test begins, from those at the word of its branch.
pub fn testing(
    alloc: Global,
    image: &Image,
    costs: &Costs,
    place: u32,
    count: u32,
    branch: u32,
    behind: &Levels,
) -> Result<Levels, Fault>
    ensures exact { IfOk result (λ l. numbers_of l ≡ the_testing image.now costs.now place count branch (numbers_of behind.now)) }
    ensures fits { HasRoom (testing_cost image.now costs.now place count branch) (numbers_of behind.now) → OnlyMemory result }
{
    let cost = testing_cost(image, costs, place as usize, count, branch)?;
    let levels = after(alloc, cost, behind)?;
    Ok(levels)
}

/// The numbers where the jump behind a code begins, from those where it leads.
pub fn back_to(
    alloc: Global,
    image: &Image,
    costs: &Costs,
    before: &[Section],
    code: &Code,
    behind: &Levels,
) -> Result<Levels, Fault>
    ensures exact { IfOk result (λ l. numbers_of l ≡
        the_jumping image.now costs.now (the_exit (read_code (routines_in before.now) code.now)) (numbers_of behind.now)) }
    ensures fits { AllSmall (the_jumping image.now costs.now (the_exit (read_code (routines_in before.now) code.now))
        (numbers_of behind.now))
        → OnlyMemory result }
{
    let place = exit(before, code)?;
    let levels = jumping(alloc, image, costs, place, behind)?;
    Ok(levels)
}

/// The numbers where a test begins, from those of the two sides of its branch.
pub fn tested(
    alloc: Global,
    image: &Image,
    costs: &Costs,
    place: u32,
    count: u32,
    branch: u32,
    untaken: &Levels,
    taken: &Levels,
) -> Result<Levels, Fault>
    ensures exact { IfOk result (λ l. numbers_of l ≡
        the_testing image.now costs.now place count branch
        (the_branched image.now costs.now (numbers_of untaken.now) (numbers_of taken.now))) }
    ensures fits { let both = the_branched image.now costs.now (numbers_of untaken.now) (numbers_of taken.now) in
        HasRoom (testing_cost image.now costs.now place count branch) both → OnlyMemory result }
{
    let both = branched(alloc, costs, untaken, taken)?;
    let levels = testing(alloc, image, costs, place, count, branch, &both)?;
    Ok(levels)
}

/// The numbers at a pause inside these aborts.
pub fn pausing(
    alloc: Global,
    image: &Image,
    costs: &Costs,
    aborts: &[Handler],
) -> Result<Levels, Fault>
    ensures exact { IfOk result (λ l. numbers_of l ≡ pausing image.now costs.now aborts.now) }
    ensures fits { AllSmall (pausing image.now costs.now aborts.now) → OnlyMemory result }
{
    let rest = rested(alloc, image, costs, aborts)?;
    let levels = after(alloc, costs.cost(Class::Eot), &rest)?;
    Ok(levels)
}

/// The numbers at a fork of so many slots from `low` on, from those behind it. These are what the slots from the first on start with.
pub fn forking(
    alloc: Global,
    image: &Image,
    costs: &Costs,
    first: u32,
    starts: &[Pair],
    aborts: &[Handler],
    low: u32,
    count: u32,
    behind: &Levels,
) -> Result<Levels, Fault>
    ensures exact { IfOk result (λ l. numbers_of l ≡ forking image.now costs.now
        (pair_from first starts.now) aborts.now low count (numbers_of behind.now)) }
    ensures fits { resumed_most (pair_from first starts.now) low count ≤ most_cycles
        → AllSmall (forking image.now costs.now (pair_from first starts.now) aborts.now low count (numbers_of behind.now))
        → OnlyMemory result }
{
    let rest = rested(alloc, image, costs, aborts)?;
    let paused = most_paused(first, starts, low, count)?;
    let stay = added(alloc, paused, &rest)?;
    let ends = all_ends(first, starts, low, count)?;
    let go = added(alloc, ends, behind)?;
    let both = dearer(alloc, &stay, &go)?;
    let levels = after(alloc, costs.cost(Class::Fork), &both)?;
    Ok(levels)
}
