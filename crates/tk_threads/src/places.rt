//! The lines of the words round codes, put in front of those that are made.

ghost use Rattle.std.specs.Prelude.{◌≡◌, [], ◌∷◌, ◌++◌, IfOk};
ghost use Rattle.tk_paths.specs.Codes.{exit as the_exit};
ghost use Rattle.tk_paths.specs.Numbers.{thread, stack_of, line as the_line};
ghost use Rattle.tk_paths.specs.Numbers.{branched as the_branched, jumping as the_jumping, jump_lines as the_jump_lines};
ghost use Rattle.tk_paths.specs.Numbers.{testing as the_testing, test_lines as the_test_lines, region_lines as the_region_lines};
ghost use Rattle.tk_paths.specs.Numbers.{passing as the_passing, region_weights as the_region_weights};
ghost use Rattle.tk_paths.specs.Trees.{read_code, read_region};
ghost use Rattle.tk_paths.specs.Regions.{through};
ghost use Rattle.tk_numbers.specs.Charges.{IsValued, routines_in, testing_cost};
ghost use Rattle.tk_paths.specs.Faults.{OnlyMemory, AllSmall, HasRoom};
ghost use Rattle.tk_paths.specs.Levels.{numbers_of};

use crate::exits::{exit, testing};
use crate::rests::{Handler, in_thread};
use mb_isa::Costs;
use pt_image::Image;
use std::alloc::Global;
use tk_numbers::{jump_lines, jumping, region_lines, test_lines};
use tk_paths::{Code, Fault, Levels, Made, Region, Section, after, branched, line};

/// Puts the line of a place of a slot inside these aborts.
pub fn put_place(
    alloc: Global,
    slot: u32,
    aborts: &[Handler],
    levels: &Levels,
    made: &mut Made,
) -> Result<(), Fault>
    ensures lines { IfOk result (λ done. made.new.lines ≡
        the_line (thread slot (stack_of aborts.now) []) (numbers_of levels.now) ∷ made.old.lines) }
    ensures weights { IfOk result (λ done. made.new.weights ≡ made.old.weights) }
    ensures fits { OnlyMemory result }
{
    let kind = in_thread(alloc, slot, aborts)?;
    let one = line(alloc, &kind, levels)?;
    made.put_line(one)?;
    Ok(())
}

/// Puts the lines of a region, and gives the numbers where it begins.
pub fn put_region(
    alloc: Global,
    image: &Image,
    costs: &Costs,
    before: &[Section],
    values: &[u64],
    slot: u32,
    aborts: &[Handler],
    region: &Region,
    behind: &Levels,
    made: &mut Made,
) -> Result<Levels, Fault>
    requires { IsValued image.now costs.now values.now before.now }
    ensures numbers { IfOk result (λ l. numbers_of l ≡ the_passing image.now costs.now
        (read_region (routines_in before.now) region.now) (numbers_of behind.now)) }
    ensures lines { IfOk result (λ l. made.new.lines ≡
        the_region_lines image.now costs.now (thread slot (stack_of aborts.now) [])
        (read_region (routines_in before.now) region.now) (numbers_of behind.now)
        ++ made.old.lines) }
    ensures weights { IfOk result (λ l. made.new.weights ≡
        the_region_weights image.now costs.now (read_region (routines_in before.now) region.now) ++ made.old.weights) }
    ensures fits { let tree = read_region (routines_in before.now) region.now in
        HasRoom (through image.now costs.now tree) (numbers_of behind.now) → OnlyMemory result }
{
    let kind = in_thread(alloc, slot, aborts)?;
    let cost = region_lines(
        alloc, image, costs, before, values, &kind, region, behind, made,
    )?;
    let levels = after(alloc, cost, behind)?;
    Ok(levels)
}

/// Puts the lines of the jump behind a code, and gives the numbers where it begins, from those where it leads.
pub fn put_back(
    alloc: Global,
    image: &Image,
    costs: &Costs,
    before: &[Section],
    slot: u32,
    aborts: &[Handler],
    code: &Code,
    behind: &Levels,
    made: &mut Made,
) -> Result<Levels, Fault>
    ensures numbers { IfOk result (λ l. numbers_of l ≡
        the_jumping image.now costs.now (the_exit (read_code (routines_in before.now) code.now)) (numbers_of behind.now)) }
    ensures lines { IfOk result (λ l. made.new.lines ≡
        the_jump_lines image.now costs.now (thread slot (stack_of aborts.now) [])
        (the_exit (read_code (routines_in before.now) code.now)) (numbers_of behind.now)
        ++ made.old.lines) }
    ensures weights { IfOk result (λ l. made.new.weights ≡ made.old.weights) }
    ensures fits { AllSmall (the_jumping image.now costs.now (the_exit (read_code (routines_in before.now) code.now))
        (numbers_of behind.now))
        → OnlyMemory result }
{
    let kind = in_thread(alloc, slot, aborts)?;
    let place = exit(before, code)?;
    jump_lines(alloc, image, costs, &kind, place, behind, made)?;
    let levels = jumping(alloc, image, costs, place, behind)?;
    Ok(levels)
}

/// Puts the lines of a test and its branch, and gives the numbers where it begins, from those of the two sides.
pub fn put_tested(
    alloc: Global,
    image: &Image,
    costs: &Costs,
    slot: u32,
    aborts: &[Handler],
    place: u32,
    count: u32,
    branch: u32,
    untaken: &Levels,
    taken: &Levels,
    made: &mut Made,
) -> Result<Levels, Fault>
    ensures numbers { IfOk result (λ l. numbers_of l ≡
        the_testing image.now costs.now place count branch
        (the_branched image.now costs.now (numbers_of untaken.now) (numbers_of taken.now))) }
    ensures lines { IfOk result (λ l. made.new.lines ≡
        the_test_lines image.now costs.now (thread slot (stack_of aborts.now) []) place count branch
        (the_branched image.now costs.now (numbers_of untaken.now) (numbers_of taken.now))
        ++ made.old.lines) }
    ensures weights { IfOk result (λ l. made.new.weights ≡ made.old.weights) }
    ensures fits { let both = the_branched image.now costs.now (numbers_of untaken.now) (numbers_of taken.now) in
        HasRoom (testing_cost image.now costs.now place count branch) both → OnlyMemory result }
{
    let kind = in_thread(alloc, slot, aborts)?;
    let both = branched(alloc, costs, untaken, taken)?;
    test_lines(
        alloc,
        image,
        costs,
        &kind,
        place as usize,
        count,
        branch,
        &both,
        made,
    )?;
    let levels = testing(alloc, image, costs, place, count, branch, &both)?;
    Ok(levels)
}
