//! The lines and weights of the places of a thread's code.

ghost use Rattle.std.specs.Prelude.{◌≡◌, ◌++◌, IfOk};
ghost use Rattle.tk_paths.specs.Numbers.{entered as the_entered, code_lines as the_code_lines, code_weights as the_code_weights};
ghost use Rattle.tk_paths.specs.Programs.{pair_from};
ghost use Rattle.tk_paths.specs.Trees.{read_code};
ghost use Rattle.tk_numbers.specs.Charges.{IsValued, routines_in};
ghost use Rattle.tk_paths.specs.Faults.{OnlyMemory};
ghost use Rattle.tk_paths.specs.Levels.{numbers_of};
ghost use Rattle.tk_threads.specs.Rooms.{IsSmallCode};

use crate::entrances::entered;
use crate::exits::{forking, pausing, tested};
use crate::places::{put_back, put_place, put_region, put_tested};
use crate::rests::{Handler, left, with_abort};
use mb_isa::{Class, Costs};
use pt_image::Image;
use std::alloc::Global;
use tk_paths::{Code, Fault, Levels, Made, Pair, Section, after, copied, nothing};

/// Puts the lines and weights of a code of a slot, inside these aborts, in front of those that are made, and gives the numbers where
/// it begins. `starts` are what the slots from the first on start with.
#[tactic(auto, using(tk_paths::proofs::Readings::code_reads))]
pub fn code_lines(
    alloc: Global,
    image: &Image,
    costs: &Costs,
    before: &[Section],
    values: &[u64],
    first: u32,
    starts: &[Pair],
    slot: u32,
    aborts: &[Handler],
    code: &Code,
    behind: &Levels,
    made: &mut Made,
) -> Result<Levels, Fault>
    requires { IsValued image.now costs.now values.now before.now }
    ensures numbers { IfOk result (λ l. numbers_of l ≡
        the_entered image.now costs.now (pair_from first starts.now) aborts.now
        (read_code (routines_in before.now) code.now) (numbers_of behind.now)) }
    ensures lines { IfOk result (λ l. made.new.lines ≡
        the_code_lines image.now costs.now (pair_from first starts.now) slot aborts.now
        (read_code (routines_in before.now) code.now) (numbers_of behind.now)
        ++ made.old.lines) }
    ensures weights { IfOk result (λ l. made.new.weights ≡
        the_code_weights image.now costs.now (read_code (routines_in before.now) code.now) ++ made.old.weights) }
    ensures fits { IsSmallCode image.now costs.now (pair_from first starts.now) aborts.now
        (read_code (routines_in before.now) code.now) (numbers_of behind.now) → OnlyMemory result }
{
    match code {
        Code::Passed(region) => {
            let levels = put_region(
                alloc, image, costs, before, values, slot, aborts, region, behind, made,
            )?;
            Ok(levels)
        }
        Code::Sequence { parts, to: _ } => {
            let codes = parts.as_slice();
            let mut levels = copied(alloc, behind)?;
            let mut rest = codes.len();
            while rest > 0 {
                rest -= 1;
                let part = &codes[rest];
                levels = code_lines(
                    alloc, image, costs, before, values, first, starts, slot, aborts, part,
                    &levels, made,
                )?;
            }
            Ok(levels)
        }
        Code::Either {
            from,
            count,
            branch,
            untaken,
            taken,
        } => {
            let near = untaken.get();
            let far = taken.get();
            let other = code_lines(
                alloc, image, costs, before, values, first, starts, slot, aborts, far, behind, made,
            )?;
            let back = put_back(
                alloc, image, costs, before, slot, aborts, near, behind, made,
            )?;
            let one = code_lines(
                alloc, image, costs, before, values, first, starts, slot, aborts, near, &back, made,
            )?;
            let levels = put_tested(
                alloc, image, costs, slot, aborts, *from, *count, *branch, &one, &other, made,
            )?;
            Ok(levels)
        }
        Code::Turns {
            from,
            count,
            branch,
            body,
            to: _,
        } => {
            let inner = body.get();
            let none = nothing(alloc);
            let one = entered(
                alloc, image, costs, before, values, first, starts, aborts, inner, &none,
            )?;
            let head = tested(alloc, image, costs, *from, *count, *branch, &one, behind)?;
            let back = put_back(
                alloc, image, costs, before, slot, aborts, inner, &head, made,
            )?;
            let _again = code_lines(
                alloc, image, costs, before, values, first, starts, slot, aborts, inner, &back,
                made,
            )?;
            let levels = put_tested(
                alloc, image, costs, slot, aborts, *from, *count, *branch, &one, behind, made,
            )?;
            Ok(levels)
        }
        Code::Forever { body, to: _ } => {
            let inner = body.get();
            let none = nothing(alloc);
            let levels = entered(
                alloc, image, costs, before, values, first, starts, aborts, inner, &none,
            )?;
            let back = put_back(
                alloc, image, costs, before, slot, aborts, inner, &levels, made,
            )?;
            let _again = code_lines(
                alloc, image, costs, before, values, first, starts, slot, aborts, inner, &back,
                made,
            )?;
            Ok(levels)
        }
        Code::Resting(_) => {
            let levels = pausing(alloc, image, costs, aborts)?;
            put_place(alloc, slot, aborts, &levels, made)?;
            Ok(levels)
        }
        Code::Forking {
            place: _,
            first: low,
            count,
        } => {
            let levels = forking(
                alloc, image, costs, first, starts, aborts, *low, *count, behind,
            )?;
            put_place(alloc, slot, aborts, &levels, made)?;
            Ok(levels)
        }
        Code::Guarded {
            place: _,
            number,
            body,
        } => {
            let inner = body.get();
            let deeper = with_abort(alloc, image, costs, aborts, *number, behind)?;
            let all = deeper.as_slice();
            let last = left(alloc, image, costs, aborts, behind)?;
            put_place(alloc, slot, all, &last, made)?;
            let inside = code_lines(
                alloc, image, costs, before, values, first, starts, slot, all, inner, &last, made,
            )?;
            let levels = after(alloc, costs.cost(Class::Abrt), &inside)?;
            put_place(alloc, slot, aborts, &levels, made)?;
            Ok(levels)
        }
    }
}
