ghost use Rattle.std.specs.Prelude.{◌≡◌, ◌+◌, option_map};
ghost use Rattle.pt_base.specs.Reading.{Gives, many_at};
ghost use Rattle.tk_cert.specs.Reading.{optional_at, level_at, thread_at, routine_at, cond_at, bare_at, line_at};

use crate::cert::Line;
use pt_base::{Many, Unread, list, number, number_then, numbers, past};
use std::alloc::Global;

/// The least number that is too large.
pub const TOO_LARGE: u64 = 1_000_000_000_001;

/// The number at the front, or none where a `-` stands there, and what follows it.
#[tactic(auto, unfolding(crate::specs::Reading::optional_at))]
pub fn optional(bytes: &[u8]) -> Option<(Option<u64>, &[u8])>
    ensures { option_map (λ x. (x.0, x.1.now)) result ≡ optional_at bytes.now }
{
    match past(bytes, b'-') {
        Some(rest) => Some((None, rest)),
        None => {
            let (value, rest) = number(bytes, TOO_LARGE)?;
            Some((Some(value), rest))
        }
    }
}

// The two numbers of a level at the front, each behind a blank, and what follows them.
#[tactic(auto, unfolding(crate::specs::Reading::level_at))]
fn level(bytes: &[u8]) -> Option<((Option<u64>, Option<u64>), &[u8])>
    ensures { option_map (λ x. (x.0, x.1.now)) result ≡ level_at bytes.now }
{
    let rest = past(bytes, b' ')?;
    let (pause, rest) = optional(rest)?;
    let rest = past(rest, b' ')?;
    let (end, rest) = optional(rest)?;
    Some(((pause, end), rest))
}

// So many levels, and what follows them.
fn levels(
    alloc: Global,
    bytes: &[u8],
    count: u64,
) -> Result<(Vec<(Option<u64>, Option<u64>)>, &[u8]), Unread>
    ensures { Gives (λ x. (x.0.items, x.1.now)) result (many_at level_at count bytes.now) }
{
    let mut values = Vec::new(alloc);
    let mut rest = bytes;
    for _ in 0..count {
        let (value, after) = level(rest).ok_or(Unread::Form)?;
        values.push(value)?;
        rest = after;
    }
    Ok((values, rest))
}

// What a thread line says behind its letter, and what follows the line.
#[tactic(auto, unfolding(crate::specs::Reading::thread_at))]
fn thread(alloc: Global, bytes: &[u8]) -> Result<(Line, &[u8]), Unread>
    ensures { Gives (λ x. (x.0, x.1.now)) result (thread_at bytes.now) }
{
    let rest = past(bytes, b' ').ok_or(Unread::Form)?;
    let (slot, rest) = number_then(rest, b' ', 64).ok_or(Unread::Form)?;
    let (stack, rest) = numbers(alloc, rest, b' ', 9, 0x1_0000_0000)?;
    let (loops, rest) = list(alloc, rest, 9, 65_536)?;
    let (levels, rest) = levels(alloc, rest, stack.len() as u64 + 1)?;
    let rest = past(rest, b'\n').ok_or(Unread::Form)?;
    let line = Line::Thread {
        slot: slot as u32,
        stack: Many::of(stack),
        loops: Many::of(loops),
        levels: Many::of(levels),
    };
    Ok((line, rest))
}

// What a routine line says behind its letter, and what follows the line.
#[tactic(auto, unfolding(crate::specs::Reading::routine_at))]
fn routine(alloc: Global, bytes: &[u8]) -> Result<(Line, &[u8]), Unread>
    ensures { Gives (λ x. (x.0, x.1.now)) result (routine_at bytes.now) }
{
    let rest = past(bytes, b' ').ok_or(Unread::Form)?;
    let (height, rest) = number_then(rest, b' ', 17).ok_or(Unread::Form)?;
    let (loops, rest) = numbers(alloc, rest, b' ', 9, 65_536)?;
    let (value, rest) = number_then(rest, b'\n', TOO_LARGE).ok_or(Unread::Form)?;
    if height < 1 {
        return Err(Unread::Form);
    }
    let line = Line::Routine {
        height: height as u32,
        loops: Many::of(loops),
        value,
    };
    Ok((line, rest))
}

// What a condition's line says behind its letter, and what follows the line.
#[tactic(auto, unfolding(crate::specs::Reading::cond_at))]
fn cond(bytes: &[u8]) -> Option<(Line, &[u8])>
    ensures { option_map (λ x. (x.0, x.1.now)) result ≡ cond_at bytes.now }
{
    let rest = past(bytes, b' ')?;
    let (value, rest) = number_then(rest, b'\n', TOO_LARGE)?;
    Some((Line::Cond { value }, rest))
}

// What follows a line that says nothing, behind its `-`.
#[tactic(auto, unfolding(crate::specs::Reading::bare_at))]
fn bare(bytes: &[u8]) -> Option<(Line, &[u8])>
    ensures { option_map (λ x. (x.0, x.1.now)) result ≡ bare_at bytes.now }
{
    let rest = past(bytes, b'\n')?;
    Some((Line::Bare, rest))
}

// The line of a code place at the front, and what follows it.
#[tactic(auto, unfolding(crate::specs::Reading::line_at))]
fn line(alloc: Global, bytes: &[u8]) -> Result<(Line, &[u8]), Unread>
    ensures { Gives (λ x. (x.0, x.1.now)) result (line_at bytes.now) }
{
    match bytes {
        [] => Err(Unread::Form),
        [first, rest @ ..] => {
            if *first == b'-' {
                return bare(rest).ok_or(Unread::Form);
            }
            if *first == b'T' {
                return thread(alloc, rest);
            }
            if *first == b'R' {
                return routine(alloc, rest);
            }
            if *first == b'C' {
                return cond(rest).ok_or(Unread::Form);
            }
            Err(Unread::Form)
        }
    }
}

/// So many lines of code places, and what follows them.
pub fn line_list(alloc: Global, bytes: &[u8], count: u64) -> Result<(Vec<Line>, &[u8]), Unread>
    ensures { Gives (λ x. (x.0.items, x.1.now)) result (many_at line_at count bytes.now) }
{
    let mut values = Vec::new(alloc);
    let mut rest = bytes;
    for _ in 0..count {
        let (value, after) = line(alloc, rest)?;
        values.push(value)?;
        rest = after;
    }
    Ok((values, rest))
}
