//! What the lines of a certificate say but for their numbers.

ghost use Rattle.std.specs.Prelude.{◌≡◌, ◌<◌, ◌++◌, [], ◌∷◌, Option, option_map, Some, None, length};
ghost use Rattle.pt_image.specs.Listed.{same_numbers};
ghost use Rattle.mb_pfu.specs.Calls.{last_of};
ghost use Rattle.tk_paths.specs.Kinds.{line_at, is_thread, is_routine, is_cond, loops_of, is_inside, same_kind, start_of};

use pt_image::Image;
use tk_cert::{Cert, Line};

/// Whether two lists of numbers are the same.
pub fn same_numbers(a: &[u32], b: &[u32]) -> bool
    ensures { result ≡ same_numbers a.now b.now }
{
    a == b
}

/// Whether a list is another one with one number more.
pub fn same_and_last(a: &[u32], b: &[u32], last: u32) -> bool
    ensures { result ≡ same_numbers a.now (b.now ++ last ∷ []) }
{
    match a {
        [] => false,
        [x, more @ ..] => match b {
            [] => *x == last && more.is_empty(),
            [y, rest @ ..] => *x == *y && same_and_last(more, rest, last),
        },
    }
}

/// Whether the line of a place is that of a thread with this slot, these aborts and these loops.
pub fn is_thread(cert: &Cert, place: usize, slot: u32, stack: &[u32], loops: &[u32]) -> bool
    ensures { result ≡ is_thread slot stack.now loops.now (line_at cert.now.lines place) }
{
    match cert.lines().get(place) {
        None => false,
        Some(line) => match line {
            Line::Bare => false,
            Line::Thread {
                slot: s,
                stack: a,
                loops: l,
                ..
            } => *s == slot && same_numbers(a.items(), stack) && same_numbers(l.items(), loops),
            Line::Routine { .. } => false,
            Line::Cond { .. } => false,
        },
    }
}

/// Whether the line of a place is that of a routine of this height inside these loops.
pub fn is_routine(cert: &Cert, place: usize, height: u32, loops: &[u32]) -> bool
    ensures { result ≡ is_routine height loops.now (line_at cert.now.lines place) }
{
    match cert.lines().get(place) {
        None => false,
        Some(line) => match line {
            Line::Bare => false,
            Line::Thread { .. } => false,
            Line::Routine {
                height: h,
                loops: l,
                ..
            } => *h == height && same_numbers(l.items(), loops),
            Line::Cond { .. } => false,
        },
    }
}

/// Whether the line of a place is that of a condition.
pub fn is_cond(cert: &Cert, place: usize) -> bool
    ensures { result ≡ is_cond (line_at cert.now.lines place) }
{
    match cert.lines().get(place) {
        None => false,
        Some(line) => match line {
            Line::Bare => false,
            Line::Thread { .. } => false,
            Line::Routine { .. } => false,
            Line::Cond { .. } => true,
        },
    }
}

/// The loops that a line is inside, from the outermost.
pub fn loops_of(line: &Line) -> &[u32]
    ensures { result.now ≡ loops_of line.now }
{
    match line {
        Line::Bare => &[],
        Line::Thread { loops, .. } => loops.items(),
        Line::Routine { loops, .. } => loops.items(),
        Line::Cond { .. } => &[],
    }
}

/// Whether a place has the kind of a line, but for these loops.
pub fn is_inside(cert: &Cert, line: &Line, loops: &[u32], place: usize) -> bool
    ensures { result ≡ is_inside line.now loops.now (line_at cert.now.lines place) }
{
    match line {
        Line::Bare => false,
        Line::Thread { slot, stack, .. } => is_thread(cert, place, *slot, stack.items(), loops),
        Line::Routine { height, .. } => is_routine(cert, place, *height, loops),
        Line::Cond { .. } => is_cond(cert, place),
    }
}

/// Whether a place has the kind of a line.
pub fn keeps_kind(cert: &Cert, line: &Line, place: usize) -> bool
    ensures { result ≡ same_kind line.now (line_at cert.now.lines place) }
{
    is_inside(cert, line, loops_of(line), place)
}

/// The place where a slot starts.
pub fn start_of(image: &Image, slot: usize) -> usize
    ensures { result ≡ start_of image.now slot }
{
    match image.slots().get(slot) {
        None => 0,
        Some(start) => *start as usize,
    }
}

/// The last number of a list, and those before it.
#[tactic(auto, using(crate::proofs::Lasts::last_taken))]
pub fn last(list: &[u32]) -> Option<(&[u32], u32)>
    ensures { option_map (λ x. (x.0.now, x.1)) result ≡ last_of list.now }
{
    if list.is_empty() {
        return None;
    }
    let before = list.len() - 1;
    Some((&list[..before], list[before]))
}
