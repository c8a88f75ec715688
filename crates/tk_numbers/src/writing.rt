//! The lines and weights of a region, put in front of those that are made.

ghost use Rattle.std.specs.Prelude.{◌≡◌, ◌++◌, map, IfOk};
ghost use Rattle.tk_paths.specs.Regions.{through};
ghost use Rattle.tk_paths.specs.Numbers.{region_lines, region_weights};
ghost use Rattle.tk_paths.specs.Trees.{read_region, regions_from};
ghost use Rattle.tk_paths.specs.Faults.{OnlyMemory, HasRoom};
ghost use Rattle.tk_numbers.specs.Charges.{routines_in, IsValued};
ghost use Rattle.tk_paths.specs.PlaceKinds.{kind_of};
ghost use Rattle.tk_paths.specs.Levels.{numbers_of};

use crate::nexts::at_next;
use crate::putting::{
    inside_of, put_call, put_choice, put_counted, put_drop, put_jump, put_repeated,
};
use crate::regions::{through, value_of};
use crate::turns::end_of;
use crate::units::units_lines;
use mb_isa::{Class, Costs};
use pt_image::Image;
use std::alloc::Global;
use tk_paths::{Fault, Kind, Levels, Made, Region, Section, after, sum};

/// Puts the lines and the weights of a region, and says what its dearest way costs; the numbers are those behind it, and the sections
/// before have routines of these costs.
#[cycle(lines)]
#[tactic(auto, using(tk_paths::proofs::Readings::region_reads))]
pub fn region_lines(
    alloc: Global,
    image: &Image,
    costs: &Costs,
    before: &[Section],
    values: &[u64],
    kind: &Kind,
    region: &Region,
    behind: &Levels,
    made: &mut Made,
) -> Result<u64, Fault>
    requires { IsValued image.now costs.now values.now before.now }
    ensures exact { IfOk result (λ n. n ≡ through image.now costs.now (read_region (routines_in before.now) region.now)) }
    ensures lines { IfOk result (λ n. made.new.lines ≡
        region_lines image.now costs.now (kind_of kind.now) (read_region (routines_in before.now) region.now) (numbers_of behind.now) ++
        made.old.lines) }
    ensures weights { IfOk result (λ n. made.new.weights ≡
        region_weights image.now costs.now (read_region (routines_in before.now) region.now) ++ made.old.weights) }
    ensures fits { let tree = read_region (routines_in before.now) region.now in
        HasRoom (through image.now costs.now tree) (numbers_of behind.now) → OnlyMemory result }
{
    match region {
        Region::Words { from, count, .. } => {
            units_lines(
                alloc,
                image,
                costs,
                kind,
                *from as usize,
                *count,
                behind,
                made,
            )
        }
        Region::Sequence { parts, .. } => parts_lines(
            alloc,
            image,
            costs,
            before,
            values,
            kind,
            parts.as_slice(),
            behind,
            made,
        ),
        Region::Choice {
            from,
            count,
            branch,
            untaken,
            taken,
        } => {
            let untaken = untaken.get();
            let second = region_lines(
                alloc,
                image,
                costs,
                before,
                values,
                kind,
                taken.get(),
                behind,
                made,
            )?;
            let jump = end_of(before, untaken);
            let back = put_jump(alloc, image, costs, kind, jump, behind, made)?;
            let first = region_lines(
                alloc, image, costs, before, values, kind, untaken, &back, made,
            )?;
            put_choice(
                alloc, image, costs, kind, *from, *count, *branch, jump, first, second, &back,
                behind, made,
            )
        }
        Region::Counted {
            from,
            turns,
            count,
            branch,
            body,
            ..
        } => {
            let body = body.get();
            let cost = through(image, costs, before, values, body)?;
            let inner = inside_of(alloc, image, kind, *from)?;
            let next = at_next(
                alloc, image, costs, before, *from, *count, *branch, body, cost, behind,
            )?;
            let drop = put_drop(alloc, image, costs, &inner, behind, made)?;
            let jump = end_of(before, body);
            let back = put_jump(alloc, image, costs, &inner, jump, &next, made)?;
            let again = region_lines(
                alloc, image, costs, before, values, &inner, body, &back, made,
            )?;
            put_counted(
                alloc, image, costs, before, kind, &inner, *from, *turns, *count, *branch, body,
                again, &next, &back, &drop, made,
            )
        }
        Region::Repeated {
            from,
            turns,
            body,
            ..
        } => {
            let body = body.get();
            let inner = inside_of(alloc, image, kind, *from)?;
            let next = after(alloc, costs.cost(Class::Next), behind)?;
            let jump = end_of(before, body);
            let back = put_jump(alloc, image, costs, &inner, jump, &next, made)?;
            let cost = region_lines(
                alloc, image, costs, before, values, &inner, body, &back, made,
            )?;
            put_repeated(
                alloc, image, costs, before, kind, &inner, *from, *turns, body, cost, &next, made,
            )
        }
        Region::Calling { place, routine } => {
            let value = value_of(image, costs, before, values, *place, *routine);
            put_call(alloc, image, costs, kind, value, behind, made)
        }
    }
}

// The same of regions one behind the other.
#[cycle(lines)]
fn parts_lines(
    alloc: Global,
    image: &Image,
    costs: &Costs,
    before: &[Section],
    values: &[u64],
    kind: &Kind,
    parts: &[Region],
    behind: &Levels,
    made: &mut Made,
) -> Result<u64, Fault>
    requires { IsValued image.now costs.now values.now before.now }
    ensures exact { IfOk result (λ n. n ≡
        through image.now costs.now (regions_from 0 (map (read_region (routines_in before.now)) parts.now))) }
    ensures lines { IfOk result (λ n. made.new.lines ≡
        region_lines image.now costs.now (kind_of kind.now) (regions_from 0 (map (read_region (routines_in before.now)) parts.now))
        (numbers_of behind.now) ++ made.old.lines) }
    ensures weights { IfOk result (λ n. made.new.weights ≡
        region_weights image.now costs.now (regions_from 0 (map (read_region (routines_in before.now)) parts.now)) ++ made.old.weights) }
    ensures fits { let all = regions_from 0 (map (read_region (routines_in before.now)) parts.now) in
        HasRoom (through image.now costs.now all) (numbers_of behind.now) → OnlyMemory result }
{
    let mut total = 0;
    let mut i = parts.len();
    while i > 0 {
        i -= 1;
        let part = &parts[i];
        let next = after(alloc, total, behind)?;
        let cost = region_lines(alloc, image, costs, before, values, kind, part, &next, made)?;
        total = sum(cost, total)?;
    }
    Ok(total)
}
