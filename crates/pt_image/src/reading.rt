ghost use Rattle.std.specs.Prelude.{◌≡◌, ◌≤◌, ◌<◌, ◌^◌, option_map, length, IfOk};
ghost use Rattle.pt_base.specs.Reading.{Gives, many_at};
ghost use Rattle.pt_image.specs.Reading.{strength_at, abort_at, code_at, signals_at, slots_at, aborts_at};
ghost use Rattle.pt_image.specs.Whole.{memory_at};

use crate::image::AbortLine;
use pt_base::{Unread, count_line, number_lines, number_then, past, signed_lines, word_lines};
use std::alloc::Global;

/// The code at the front, and what follows it.
#[tactic(auto, using(pt_base::proofs::Laws::many_length), unfolding(crate::specs::Reading::code_at, pt_base::specs::Reading::lines_at))]
pub fn code_of(alloc: Global, bytes: &[u8]) -> Result<(Vec<u32>, &[u8]), Unread>
    ensures exact { Gives (λ x. (x.0.items, x.1.now)) result (code_at bytes.now) }
    ensures few { IfOk result (λ x. length x.0.items < 65537) }
{
    let (count, rest) = count_line(bytes, b"code ", 1, 65_537).ok_or(Unread::Form)?;
    let (values, rest) = word_lines(alloc, rest, count)?;
    Ok((values, rest))
}

/// The memory at the front, and what follows it.
#[tactic(auto, using(pt_base::proofs::Laws::many_length), unfolding(crate::specs::Whole::memory_at, pt_base::specs::Reading::lines_at))]
pub fn memory_of(alloc: Global, bytes: &[u8]) -> Result<(Vec<i32>, &[u8]), Unread>
    ensures exact { Gives (λ x. (x.0.items, x.1.now)) result (memory_at bytes.now) }
    ensures few { IfOk result (λ x. length x.0.items < 16385) }
{
    let (count, rest) = count_line(bytes, b"memory ", 0, 16_385).ok_or(Unread::Form)?;
    let (values, rest) = signed_lines(alloc, rest, count)?;
    Ok((values, rest))
}

/// The inputs or outputs at the front, which are memory words, and what follows them.
#[tactic(auto, unfolding(crate::specs::Reading::signals_at, pt_base::specs::Reading::lines_at))]
pub fn signals_of<'a>(
    alloc: Global,
    bytes: &'a [u8],
    name: &[u8],
    memory: u64,
) -> Result<(Vec<u32>, &'a [u8]), Unread>
    requires { memory ≤ 2 ^ 32 }
    ensures { Gives (λ x. (x.0.items, x.1.now)) result (signals_at name.now memory bytes.now) }
{
    let (count, rest) = count_line(bytes, name, 0, 65).ok_or(Unread::Form)?;
    number_lines(alloc, rest, count, memory)
}

/// The slots at the front, which start at code places, and what follows them.
#[tactic(auto, using(pt_base::proofs::Laws::many_length), unfolding(crate::specs::Reading::slots_at, pt_base::specs::Reading::lines_at))]
pub fn slots_of(alloc: Global, bytes: &[u8], code: u64) -> Result<(Vec<u32>, &[u8]), Unread>
    requires { code ≤ 2 ^ 32 }
    ensures exact { Gives (λ x. (x.0.items, x.1.now)) result (slots_at code bytes.now) }
    ensures few { IfOk result (λ x. length x.0.items < 65) }
{
    let (count, rest) = count_line(bytes, b"slots ", 1, 65).ok_or(Unread::Form)?;
    let (values, rest) = number_lines(alloc, rest, count, code)?;
    Ok((values, rest))
}

// Whether the abort line at the front is weak, and what follows that.
fn strength(bytes: &[u8]) -> Option<(bool, &[u8])>
    ensures { option_map (λ x. (x.0, x.1.now)) result ≡ strength_at bytes.now }
{
    match bytes {
        [] => None,
        [first, rest @ ..] => {
            if *first == 119 {
                Some((true, rest))
            } else if *first == 115 {
                Some((false, rest))
            } else {
                None
            }
        }
    }
}

// The abort line at the front, and what follows it.
#[tactic(auto, unfolding(crate::specs::Reading::abort_at))]
fn abort_line(bytes: &[u8], code: u64) -> Option<(AbortLine, &[u8])>
    requires { code ≤ 2 ^ 32 }
    ensures { option_map (λ x. (x.0, x.1.now)) result ≡ abort_at code bytes.now }
{
    let (weak, rest) = strength(bytes)?;
    let rest = past(rest, 32)?;
    let (cond, rest) = number_then(rest, 32, code)?;
    let (handler, rest) = number_then(rest, 10, code)?;
    let line = AbortLine {
        weak,
        cond: cond as u32,
        handler: handler as u32,
    };
    Some((line, rest))
}

// So many abort lines, and what follows them.
fn abort_lines(
    alloc: Global,
    bytes: &[u8],
    count: u64,
    code: u64,
) -> Result<(Vec<AbortLine>, &[u8]), Unread>
    requires { code ≤ 2 ^ 32 }
    ensures { Gives (λ x. (x.0.items, x.1.now)) result (many_at (abort_at code) count bytes.now) }
{
    let mut values = Vec::new(alloc);
    let mut rest = bytes;
    for _ in 0..count {
        let (value, after) = abort_line(rest, code).ok_or(Unread::Form)?;
        values.push(value)?;
        rest = after;
    }
    Ok((values, rest))
}

/// The abort lines at the front, whose places are code places, and what follows them.
#[tactic(auto, using(pt_base::proofs::Laws::many_length), unfolding(crate::specs::Reading::aborts_at, pt_base::specs::Reading::lines_at))]
pub fn aborts_of(alloc: Global, bytes: &[u8], code: u64) -> Result<(Vec<AbortLine>, &[u8]), Unread>
    requires { code ≤ 2 ^ 32 }
    ensures exact { Gives (λ x. (x.0.items, x.1.now)) result (aborts_at code bytes.now) }
    ensures few { IfOk result (λ x. length x.0.items < 65537) }
{
    let (count, rest) = count_line(bytes, b"aborts ", 0, 65_537).ok_or(Unread::Form)?;
    let (values, rest) = abort_lines(alloc, rest, count, code)?;
    Ok((values, rest))
}
