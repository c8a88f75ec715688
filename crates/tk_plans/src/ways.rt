//! The choices of the dearest way through a region.

ghost use Rattle.std.specs.Prelude.{◌≡◌, ◌≤◌, ◌++◌, IfOk};
ghost use Rattle.tk_paths.specs.Walks.{most_cycles};
ghost use Rattle.tk_paths.specs.Faults.{OnlyMemory};
ghost use Rattle.tk_paths.specs.Regions.{dearest_way, tested_loop, through, times};
ghost use Rattle.tk_paths.specs.Trees.{read_region, routine_at};
ghost use Rattle.tk_numbers.specs.Charges.{IsValued, routines_in};
ghost use Rattle.tk_plans.specs.Ways.{AreWays, is_left, side_taken, taken_side, turns_by, untaken_side};

use mb_isa::{Class, Costs};
use pt_base::Many;
use pt_image::Image;
use std::alloc::Global;
use tk_numbers::{end_of, jump_cost, leaving, tested_turn, through};
use tk_paths::{Fault, Region, Section, product, sum};

// Whether the second side of a choice is the dearer.
fn side_taken(
    image: &Image,
    costs: &Costs,
    before: &[Section],
    values: &[u64],
    untaken: &Region,
    taken: &Region,
) -> Result<bool, Fault>
    requires { IsValued image.now costs.now values.now before.now }
    ensures exact { IfOk result (λ b. b ≡ side_taken image.now costs.now
        (read_region (routines_in before.now) untaken.now) (read_region (routines_in before.now) taken.now)) }
    ensures fits { untaken_side image.now costs.now (read_region (routines_in before.now) untaken.now) ≤ most_cycles →
        taken_side image.now costs.now (read_region (routines_in before.now) taken.now) ≤ most_cycles → OnlyMemory result }
{
    let first = through(image, costs, before, values, untaken)?;
    let second = through(image, costs, before, values, taken)?;
    let back = sum(first, jump_cost(image, costs, end_of(before, untaken)))?;
    let around = sum(costs.cost(Class::Untaken), back)?;
    let across = sum(costs.cost(Class::Taken), second)?;
    Ok(around <= across)
}

// Whether a bounded loop is left by its test.
fn is_left(
    image: &Image,
    costs: &Costs,
    before: &[Section],
    values: &[u64],
    from: u32,
    turns: u32,
    count: u32,
    branch: u32,
    body: &Region,
) -> Result<bool, Fault>
    requires { IsValued image.now costs.now values.now before.now }
    ensures exact { IfOk result (λ b. b ≡
        is_left image.now costs.now from turns count branch (read_region (routines_in before.now) body.now)) }
    ensures fits { let tree = read_region (routines_in before.now) body.now in
        let inner = through image.now costs.now tree in
        inner ≤ most_cycles → tested_loop image.now costs.now from turns count branch tree inner ≤ most_cycles → OnlyMemory result }
{
    let inner = through(image, costs, before, values, body)?;
    let turn = tested_turn(image, costs, before, from, count, branch, body, inner)?;
    let all = product(u64::from(turns) + 1, turn)?;
    let used = sum(all, costs.cost(Class::Next))?;
    let fewer = product(u64::from(turns), turn)?;
    let left = sum(fewer, leaving(image, costs, from, count, branch)?)?;
    Ok(used <= left)
}

// Adds the same choices so many times.
#[tactic(auto, using(crate::proofs::WayLaws::turnings))]
fn push_times(turn: &[bool], count: u64, choices: &mut Vec<bool>) -> Result<(), Fault>
    ensures exact { IfOk result (λ done. choices.new.items ≡ choices.old.items ++ times count turn.now) }
    ensures only { OnlyMemory result }
{
    if turn.len() == 0 {
        return Ok(());
    }
    let mut left = count;
    while left > 0 {
        choices.extend_from_slice(turn)?;
        left -= 1;
    }
    Ok(())
}

// Adds the choices of all turns of a bounded loop with a test.
#[tactic(auto, using(crate::proofs::WayLaws::turns_left, crate::proofs::WayLaws::turns_used))]
fn push_turns(left: bool, turns: u32, turn: &[bool], choices: &mut Vec<bool>) -> Result<(), Fault>
    ensures exact { IfOk result (λ done. choices.new.items ≡ choices.old.items ++ turns_by left turns turn.now) }
    ensures only { OnlyMemory result }
{
    if left {
        push_times(turn, u64::from(turns), choices)?;
        choices.push(true)?;
        return Ok(());
    }
    push_times(turn, u64::from(turns) + 1, choices)?;
    Ok(())
}

// The choices of a routine, none where there is none of its number.
#[tactic(auto, using(crate::proofs::WayLaws::way_is))]
fn way_of<'a>(
    image: &Image,
    costs: &Costs,
    before: &[Section],
    ways: &'a [Many<bool>],
    place: u32,
    routine: u32,
) -> &'a [bool]
    requires { AreWays image.now costs.now ways.now before.now }
    ensures { result.now ≡ dearest_way image.now costs.now (routine_at (routines_in before.now) place routine) }
{
    match ways.get(routine as usize) {
        None => &[],
        Some(way) => way.items(),
    }
}

/// Adds the choices of the dearest way through a region, where the sections before have routines of these costs and ways.
#[tactic(auto, using(tk_paths::proofs::Readings::region_reads, crate::proofs::PartLaws::no_choice))]
pub fn push_way(
    alloc: Global,
    image: &Image,
    costs: &Costs,
    before: &[Section],
    values: &[u64],
    ways: &[Many<bool>],
    region: &Region,
    choices: &mut Vec<bool>,
) -> Result<(), Fault>
    requires values { IsValued image.now costs.now values.now before.now }
    requires ways { AreWays image.now costs.now ways.now before.now }
    ensures exact { IfOk result (λ done. choices.new.items ≡
        choices.old.items ++ dearest_way image.now costs.now (read_region (routines_in before.now) region.now)) }
    ensures fits { through image.now costs.now (read_region (routines_in before.now) region.now) ≤ most_cycles → OnlyMemory result }
{
    match region {
        Region::Words { .. } => Ok(()),
        Region::Sequence { parts, .. } => {
            let parts = parts.as_slice();
            for part in parts {
                push_way(alloc, image, costs, before, values, ways, part, choices)?;
            }
            Ok(())
        }
        Region::Choice { untaken, taken, .. } => {
            let first = untaken.get();
            let second = taken.get();
            let is_taken = side_taken(image, costs, before, values, first, second)?;
            choices.push(is_taken)?;
            if is_taken {
                push_way(alloc, image, costs, before, values, ways, second, choices)?;
                return Ok(());
            }
            push_way(alloc, image, costs, before, values, ways, first, choices)?;
            Ok(())
        }
        Region::Counted {
            from,
            turns,
            count,
            branch,
            body,
            ..
        } => {
            let body = body.get();
            let left = is_left(
                image, costs, before, values, *from, *turns, *count, *branch, body,
            )?;
            let mut turn = Vec::new(alloc);
            turn.push(false)?;
            push_way(alloc, image, costs, before, values, ways, body, &mut turn)?;
            push_turns(left, *turns, turn.as_slice(), choices)?;
            Ok(())
        }
        Region::Repeated { turns, body, .. } => {
            let body = body.get();
            let mut turn = Vec::new(alloc);
            push_way(alloc, image, costs, before, values, ways, body, &mut turn)?;
            push_times(turn.as_slice(), u64::from(*turns) + 1, choices)?;
            Ok(())
        }
        Region::Calling { place, routine } => {
            let way = way_of(image, costs, before, ways, *place, *routine);
            choices.extend_from_slice(way)?;
            Ok(())
        }
    }
}
