//! The cost of the dearest way through a region.

ghost use Rattle.std.specs.Prelude.{◌≡◌, ◌≤◌, IfOk};
ghost use Rattle.tk_paths.specs.Walks.{most_cycles};
ghost use Rattle.tk_paths.specs.Regions.{through};
ghost use Rattle.tk_paths.specs.Trees.{read_region, routine_at};
ghost use Rattle.tk_paths.specs.Faults.{OnlyMemory};
ghost use Rattle.tk_numbers.specs.Charges.{routines_in, IsValued};

use crate::charges::units_cost;
use crate::crossings::{calling_cost, choice_cost, counted_cost, repeated_cost};
use crate::turns::end_of;
use mb_isa::Costs;
use pt_image::Image;
use tk_paths::{Fault, Region, Section, sum};

/// The cost of a routine, 0 where there is none of its number.
#[tactic(auto, using(crate::proofs::Values::value_is))]
pub fn value_of(
    image: &Image,
    costs: &Costs,
    before: &[Section],
    values: &[u64],
    place: u32,
    routine: u32,
) -> u64
    requires { IsValued image.now costs.now values.now before.now }
    ensures { result ≡ through image.now costs.now (routine_at (routines_in before.now) place routine) }
{
    match values.get(routine as usize) {
        None => 0,
        Some(value) => *value,
    }
}

/// The cost of the dearest way through a region, where the sections before have routines of these costs.
#[tactic(auto, using(tk_paths::proofs::Readings::region_reads))]
pub fn through(
    image: &Image,
    costs: &Costs,
    before: &[Section],
    values: &[u64],
    region: &Region,
) -> Result<u64, Fault>
    requires { IsValued image.now costs.now values.now before.now }
    ensures exact { IfOk result (λ n. n ≡ through image.now costs.now (read_region (routines_in before.now) region.now)) }
    ensures fits { through image.now costs.now (read_region (routines_in before.now) region.now) ≤ most_cycles → OnlyMemory result }
{
    match region {
        Region::Words { from, count, .. } => units_cost(image, costs, *from as usize, *count),
        Region::Sequence { parts, .. } => {
            let parts = parts.as_slice();
            let mut total = 0;
            for part in parts {
                total = sum(total, through(image, costs, before, values, part)?)?;
            }
            Ok(total)
        }
        Region::Choice {
            from,
            count,
            branch,
            untaken,
            taken,
        } => {
            let first = through(image, costs, before, values, untaken.get())?;
            let second = through(image, costs, before, values, taken.get())?;
            let jump = end_of(before, untaken.get());
            choice_cost(image, costs, *from, *count, *branch, jump, first, second)
        }
        Region::Counted {
            from,
            turns,
            count,
            branch,
            body,
            ..
        } => {
            let body = body.get();
            let inner = through(image, costs, before, values, body)?;
            counted_cost(
                image, costs, before, *from, *turns, *count, *branch, body, inner,
            )
        }
        Region::Repeated {
            from,
            turns,
            body,
            ..
        } => {
            let body = body.get();
            let inner = through(image, costs, before, values, body)?;
            repeated_cost(image, costs, before, *from, *turns, body, inner)
        }
        Region::Calling { place, routine } => {
            let value = value_of(image, costs, before, values, *place, *routine);
            calling_cost(image, costs, value)
        }
    }
}
