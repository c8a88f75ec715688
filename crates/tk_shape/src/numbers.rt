//! The numbers of a certificate.

ghost use Rattle.std.specs.Prelude.{◌≡◌, Some, slice_get, length};
ghost use Rattle.tk_paths.specs.declared.view.View.TheVariants.{On};
ghost use Rattle.tk_paths.specs.Kinds.{line_at};
ghost use Rattle.tk_paths.specs.Acceptance.{on_side, number_in, value_of, level_of, stack_of, levels_of};
ghost use Rattle.tk_shape.specs.Children.{starting, restarted};

use crate::kinds::start_of;
use pt_image::Image;
use tk_cert::{Cert, Line};
use tk_paths::{Side, View};

// One of two numbers.
fn on_side(side: Side, numbers: &(Option<u64>, Option<u64>)) -> Option<u64>
    ensures { result ≡ on_side side (Some numbers.now) }
{
    match side {
        Side::ToPause => numbers.0,
        Side::ToEnd => numbers.1,
    }
}

// A number of a list of levels.
fn at_level(levels: &[(Option<u64>, Option<u64>)], side: Side, level: usize) -> Option<u64>
    ensures { result ≡ on_side side (slice_get levels.now level) }
{
    match levels.get(level) {
        None => None,
        Some(numbers) => on_side(side, numbers),
    }
}

// The number of a side at a level of a place.
fn on_level(cert: &Cert, side: Side, level: usize, place: usize) -> Option<u64>
    ensures { result ≡ number_in (On side level) (line_at cert.now.lines place) }
{
    match cert.lines().get(place) {
        None => None,
        Some(line) => match line {
            Line::Bare => None,
            Line::Thread { levels, .. } => at_level(levels.items(), side, level),
            Line::Routine { .. } => None,
            Line::Cond { .. } => None,
        },
    }
}

/// The value of a routine or a condition.
pub fn value_at(cert: &Cert, place: usize) -> u64
    ensures { result ≡ value_of (line_at cert.now.lines place) }
{
    match cert.lines().get(place) {
        None => 0,
        Some(line) => match line {
            Line::Bare => 0,
            Line::Thread { .. } => 0,
            Line::Routine { value, .. } => *value,
            Line::Cond { value } => *value,
        },
    }
}

/// A number of a place's line.
pub fn number(cert: &Cert, view: View, place: usize) -> Option<u64>
    ensures { result ≡ number_in view (line_at cert.now.lines place) }
{
    match view {
        View::On { side, level } => on_level(cert, side, level, place),
        View::Value => Some(value_at(cert, place)),
    }
}

/// The level of a view.
pub fn level_of(view: View) -> usize
    ensures { result ≡ level_of view }
{
    match view {
        View::On { level, .. } => level,
        View::Value => 0,
    }
}

/// A number of a slot that is resumed.
pub fn restarted(cert: &Cert, side: Side, slot: u32) -> Option<u64>
    ensures { result ≡ restarted cert.now side slot }
{
    at_level(cert.slot_bounds(), side, slot as usize)
}

/// A number of a slot that starts.
pub fn starting(image: &Image, cert: &Cert, side: Side, slot: u32) -> Option<u64>
    ensures { result ≡ starting image.now cert.now side slot }
{
    on_level(cert, side, 0, start_of(image, slot as usize))
}

/// The aborts that a line is inside, from the outermost.
pub fn stack_of(line: &Line) -> &[u32]
    ensures { result.now ≡ stack_of line.now }
{
    match line {
        Line::Bare => &[],
        Line::Thread { stack, .. } => stack.items(),
        Line::Routine { .. } => &[],
        Line::Cond { .. } => &[],
    }
}

/// The aborts that a place is inside, from the outermost.
pub fn stack_at(cert: &Cert, place: usize) -> &[u32]
    ensures { result.now ≡ stack_of (line_at cert.now.lines place) }
{
    match cert.lines().get(place) {
        None => &[],
        Some(line) => stack_of(line),
    }
}

/// How many levels a place has.
pub fn levels_at(cert: &Cert, place: usize) -> usize
    ensures { result ≡ length (levels_of (line_at cert.now.lines place)) }
{
    match cert.lines().get(place) {
        None => 0,
        Some(line) => match line {
            Line::Bare => 0,
            Line::Thread { levels, .. } => levels.items().len(),
            Line::Routine { .. } => 0,
            Line::Cond { .. } => 0,
        },
    }
}
