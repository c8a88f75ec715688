ghost use Rattle.std.specs.Prelude.{◌≡◌, [], ◌∷◌, ◌++◌, IfOk};
ghost use Rattle.tk_paths.specs.Numbers.{line as the_line, inside};
ghost use Rattle.tk_paths.specs.Levels.{numbers_of};
ghost use Rattle.tk_paths.specs.PlaceKinds.{kind_of};
ghost use Rattle.tk_paths.specs.Faults.{OnlyMemory};

use crate::fault::Fault;
use crate::levels::{Levels, first_levels, value};
use pt_base::Many;
use std::alloc::Global;
use tk_cert::Line;

/// What a place is inside: the slot of a thread, its aborts and its bounded loops, from the outermost; or a routine of this height and
/// its loops; or a condition.
#[derive(Drop)]
pub enum Kind {
    Thread {
        slot: u32,
        stack: Many<u32>,
        loops: Many<u32>,
    },
    Routine {
        height: u32,
        loops: Many<u32>,
    },
    Condition,
}

// A copy.
fn copied(alloc: Global, numbers: &Many<u32>) -> Result<Many<u32>, Fault>
    ensures exact { IfOk result (λ copy. copy ≡ numbers.now) }
    ensures fits { OnlyMemory result }
{
    Ok(Many::of(numbers.items().to_vec(alloc)?))
}

// A copy with one number more.
fn with(alloc: Global, numbers: &Many<u32>, last: u32) -> Result<Many<u32>, Fault>
    ensures exact { IfOk result (λ longer. longer ≡ numbers.now ++ last ∷ []) }
    ensures fits { OnlyMemory result }
{
    let mut longer = numbers.items().to_vec(alloc)?;
    longer.push(last)?;
    Ok(Many::of(longer))
}

/// The line of a place with these numbers.
pub fn line(alloc: Global, kind: &Kind, levels: &Levels) -> Result<Line, Fault>
    ensures exact { IfOk result (λ l. l ≡ the_line (kind_of kind.now) (numbers_of levels.now)) }
    ensures fits { OnlyMemory result }
{
    match kind {
        Kind::Thread { slot, stack, loops } => {
            let count = stack.items().len() + 1;
            let levels = first_levels(alloc, levels, count)?;
            let stack = copied(alloc, stack)?;
            let loops = copied(alloc, loops)?;
            Ok(Line::Thread {
                slot: *slot,
                stack,
                loops,
                levels: Many::of(levels),
            })
        }
        Kind::Routine { height, loops } => {
            let loops = copied(alloc, loops)?;
            let value = value(levels);
            Ok(Line::Routine {
                height: *height,
                loops,
                value,
            })
        }
        Kind::Condition => {
            let value = value(levels);
            Ok(Line::Cond { value })
        }
    }
}

/// The same inside one loop more, whose `loop` stands at this place.
pub fn in_loop(alloc: Global, kind: &Kind, place: u32) -> Result<Kind, Fault>
    ensures exact { IfOk result (λ inner. kind_of inner ≡ inside place (kind_of kind.now)) }
    ensures fits { OnlyMemory result }
{
    match kind {
        Kind::Thread { slot, stack, loops } => {
            let stack = copied(alloc, stack)?;
            let loops = with(alloc, loops, place)?;
            Ok(Kind::Thread {
                slot: *slot,
                stack,
                loops,
            })
        }
        Kind::Routine { height, loops } => {
            let loops = with(alloc, loops, place)?;
            Ok(Kind::Routine {
                height: *height,
                loops,
            })
        }
        Kind::Condition => Ok(Kind::Condition),
    }
}
