//! The numbers where codes begin.

ghost use Rattle.std.specs.Prelude.{◌≡◌, IfOk};
ghost use Rattle.tk_paths.specs.Numbers.{entered as the_entered};
ghost use Rattle.tk_paths.specs.Programs.{pair_from};
ghost use Rattle.tk_paths.specs.Trees.{read_code};
ghost use Rattle.tk_numbers.specs.Charges.{IsValued, routines_in};
ghost use Rattle.tk_paths.specs.Faults.{OnlyMemory};
ghost use Rattle.tk_paths.specs.Levels.{numbers_of};
ghost use Rattle.tk_threads.specs.Rooms.{IsSmallEntry};

use crate::exits::{back_to, forking, pausing, tested};
use crate::rests::{Handler, left, with_abort};
use mb_isa::{Class, Costs};
use pt_image::Image;
use std::alloc::Global;
use tk_numbers::through;
use tk_paths::{Code, Fault, Levels, Pair, Section, after, copied, nothing};

/// The numbers where a code begins inside these aborts, from those behind it.
#[tactic(auto, using(tk_paths::proofs::Readings::code_reads))]
pub fn entered(
    alloc: Global,
    image: &Image,
    costs: &Costs,
    before: &[Section],
    values: &[u64],
    first: u32,
    starts: &[Pair],
    aborts: &[Handler],
    code: &Code,
    behind: &Levels,
) -> Result<Levels, Fault>
    requires { IsValued image.now costs.now values.now before.now }
    ensures exact { IfOk result (λ l. numbers_of l ≡
        the_entered image.now costs.now (pair_from first starts.now) aborts.now
        (read_code (routines_in before.now) code.now) (numbers_of behind.now)) }
    ensures fits { IsSmallEntry image.now costs.now (pair_from first starts.now) aborts.now
        (read_code (routines_in before.now) code.now) (numbers_of behind.now) → OnlyMemory result }
{
    match code {
        Code::Passed(region) => {
            let cost = through(image, costs, before, values, region)?;
            let levels = after(alloc, cost, behind)?;
            Ok(levels)
        }
        Code::Sequence { parts, to: _ } => {
            let codes = parts.as_slice();
            let mut levels = copied(alloc, behind)?;
            let mut rest = codes.len();
            while rest > 0 {
                rest -= 1;
                let part = &codes[rest];
                levels = entered(
                    alloc, image, costs, before, values, first, starts, aborts, part, &levels,
                )?;
            }
            Ok(levels)
        }
        Code::Either {
            from,
            count,
            branch,
            untaken,
            taken,
        } => {
            let near = untaken.get();
            let far = taken.get();
            let back = back_to(alloc, image, costs, before, near, behind)?;
            let one = entered(
                alloc, image, costs, before, values, first, starts, aborts, near, &back,
            )?;
            let other = entered(
                alloc, image, costs, before, values, first, starts, aborts, far, behind,
            )?;
            let levels = tested(alloc, image, costs, *from, *count, *branch, &one, &other)?;
            Ok(levels)
        }
        Code::Turns {
            from,
            count,
            branch,
            body,
            to: _,
        } => {
            let inner = body.get();
            let none = nothing(alloc);
            let one = entered(
                alloc, image, costs, before, values, first, starts, aborts, inner, &none,
            )?;
            let levels = tested(alloc, image, costs, *from, *count, *branch, &one, behind)?;
            Ok(levels)
        }
        Code::Forever { body, to: _ } => {
            let inner = body.get();
            let none = nothing(alloc);
            let levels = entered(
                alloc, image, costs, before, values, first, starts, aborts, inner, &none,
            )?;
            Ok(levels)
        }
        Code::Resting(_) => {
            let levels = pausing(alloc, image, costs, aborts)?;
            Ok(levels)
        }
        Code::Forking {
            place: _,
            first: low,
            count,
        } => {
            let levels = forking(
                alloc, image, costs, first, starts, aborts, *low, *count, behind,
            )?;
            Ok(levels)
        }
        Code::Guarded {
            place: _,
            number,
            body,
        } => {
            let inner = body.get();
            let deeper = with_abort(alloc, image, costs, aborts, *number, behind)?;
            let all = deeper.as_slice();
            let last = left(alloc, image, costs, aborts, behind)?;
            let inside = entered(
                alloc, image, costs, before, values, first, starts, all, inner, &last,
            )?;
            let levels = after(alloc, costs.cost(Class::Abrt), &inside)?;
            Ok(levels)
        }
    }
}
