//! The numbers of a place and of a slot.

ghost use Rattle.std.specs.Prelude.{◌≡◌, Some, slice_get};
ghost use Rattle.tk_paths.specs.declared.view.View.TheVariants.{On};
ghost use Rattle.tk_paths.specs.Sums.{or_zero};
ghost use Rattle.tk_paths.specs.Words.{instr_at};
ghost use Rattle.tk_paths.specs.Kinds.{line_at, abort_at, start_of};
ghost use Rattle.tk_paths.specs.Acceptance.{on_side, number_in, value_of};
ghost use Rattle.tk_paths.specs.Told.{pair_at};

use crate::levels::Pair;
use crate::view::Side;
use mb_isa::{Instr, decode};
use pt_image::{AbortLine, Image};
use tk_cert::Line;

/// The instruction at a place, if there is one.
pub fn instr_at(image: &Image, place: usize) -> Option<Instr>
    ensures { result ≡ instr_at image.now place }
{
    decode(*image.code().get(place)?)
}

/// A line of the table of aborts.
pub fn abort_at(image: &Image, j: u32) -> AbortLine
    ensures { result ≡ abort_at image.now j }
{
    match image.aborts().get(j as usize) {
        None => AbortLine {
            weak: false,
            cond: 0,
            handler: 0,
        },
        Some(line) => *line,
    }
}

/// The place where a slot starts.
pub fn start_of(image: &Image, slot: u32) -> usize
    ensures { result ≡ start_of image.now slot }
{
    match image.slots().get(slot as usize) {
        None => 0,
        Some(place) => *place as usize,
    }
}

// One of two numbers.
fn on_side(side: Side, numbers: &Pair) -> Option<u64>
    ensures { result ≡ on_side side (Some numbers.now) }
{
    match side {
        Side::ToPause => numbers.0,
        Side::ToEnd => numbers.1,
    }
}

/// A number of a list of pairs.
pub fn pair_at(pairs: &[Pair], side: Side, index: usize) -> Option<u64>
    ensures { result ≡ pair_at pairs.now side index }
{
    match pairs.get(index) {
        None => None,
        Some(numbers) => on_side(side, numbers),
    }
}

/// The number of a side at a level of a place.
pub fn number(lines: &[Line], side: Side, level: usize, place: usize) -> Option<u64>
    ensures { result ≡ number_in (On side level) (line_at lines.now place) }
{
    match lines.get(place) {
        None => None,
        Some(line) => match line {
            Line::Bare => None,
            Line::Thread { levels, .. } => pair_at(levels.items(), side, level),
            Line::Routine { .. } => None,
            Line::Cond { .. } => None,
        },
    }
}

/// The value of a routine or a condition.
pub fn value_at(lines: &[Line], place: usize) -> u64
    ensures { result ≡ value_of (line_at lines.now place) }
{
    match lines.get(place) {
        None => 0,
        Some(line) => match line {
            Line::Bare => 0,
            Line::Thread { .. } => 0,
            Line::Routine { value, .. } => *value,
            Line::Cond { value } => *value,
        },
    }
}

/// A number, or 0.
pub fn or_zero(number: Option<u64>) -> u64
    ensures { result ≡ or_zero number }
{
    match number {
        None => 0,
        Some(number) => number,
    }
}
