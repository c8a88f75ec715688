ghost use Rattle.std.specs.Prelude.{◌≡◌, ◌≤◌, ◌<◌, ◌^◌, ◌+◌, Option, option_map, IfSome};
ghost use Rattle.pt_base.specs.Reading.{Gives, many_at, list_at, numbers_at, number_then_at, blank_number_at, word_line_at, signed_line_at};

use crate::fault::Unread;
use crate::read::{blank_number, number, number_then, past};
use crate::words::{signed_line, word_line};
use std::alloc::Global;

/// So many numbers below the limit, each on a line of its own, and what follows them.
pub fn number_lines(
    alloc: Global,
    bytes: &[u8],
    count: u64,
    limit: u64,
) -> Result<(Vec<u32>, &[u8]), Unread>
    requires { limit ≤ 2 ^ 32 }
    ensures { Gives (λ x. (x.0.items, x.1.now)) result (many_at (number_then_at 10 limit) count bytes.now) }
{
    let mut values = Vec::new(alloc);
    let mut rest = bytes;
    for _ in 0..count {
        let (value, after) = number_then(rest, 10, limit).ok_or(Unread::Form)?;
        values.push(value as u32)?;
        rest = after;
    }
    Ok((values, rest))
}

/// So many words of eight hexadecimal digits, each on a line of its own, and what follows them.
pub fn word_lines(alloc: Global, bytes: &[u8], count: u64) -> Result<(Vec<u32>, &[u8]), Unread>
    ensures { Gives (λ x. (x.0.items, x.1.now)) result (many_at word_line_at count bytes.now) }
{
    let mut values = Vec::new(alloc);
    let mut rest = bytes;
    for _ in 0..count {
        let (value, after) = word_line(rest).ok_or(Unread::Form)?;
        values.push(value)?;
        rest = after;
    }
    Ok((values, rest))
}

/// So many signed numbers, each on a line of its own, and what follows them.
pub fn signed_lines(alloc: Global, bytes: &[u8], count: u64) -> Result<(Vec<i32>, &[u8]), Unread>
    ensures { Gives (λ x. (x.0.items, x.1.now)) result (many_at signed_line_at count bytes.now) }
{
    let mut values = Vec::new(alloc);
    let mut rest = bytes;
    for _ in 0..count {
        let (value, after) = signed_line(rest).ok_or(Unread::Form)?;
        values.push(value)?;
        rest = after;
    }
    Ok((values, rest))
}

// So many numbers below the limit, each behind a blank.
fn blank_numbers(
    alloc: Global,
    bytes: &[u8],
    count: u64,
    limit: u64,
) -> Result<(Vec<u32>, &[u8]), Unread>
    requires { limit ≤ 2 ^ 32 }
    ensures { Gives (λ x. (x.0.items, x.1.now)) result (many_at (blank_number_at limit) count bytes.now) }
{
    let mut values = Vec::new(alloc);
    let mut rest = bytes;
    for _ in 0..count {
        let (value, after) = blank_number(rest, limit).ok_or(Unread::Form)?;
        values.push(value as u32)?;
        rest = after;
    }
    Ok((values, rest))
}

/// Fewer than `most` numbers below the limit behind their count, and what follows them.
#[tactic(auto, unfolding(crate::specs::Reading::list_at))]
pub fn list(alloc: Global, bytes: &[u8], most: u64, limit: u64) -> Result<(Vec<u32>, &[u8]), Unread>
    requires few { most ≤ 2 ^ 56 }
    requires fits { limit ≤ 2 ^ 32 }
    ensures { Gives (λ x. (x.0.items, x.1.now)) result (list_at most limit bytes.now) }
{
    let (count, rest) = number(bytes, most).ok_or(Unread::Form)?;
    blank_numbers(alloc, rest, count, limit)
}

/// Fewer than `most` numbers below the limit behind their count, the byte that ends them, and what follows it.
#[tactic(auto, unfolding(crate::specs::Reading::numbers_at))]
pub fn numbers(
    alloc: Global,
    bytes: &[u8],
    ends: u8,
    most: u64,
    limit: u64,
) -> Result<(Vec<u32>, &[u8]), Unread>
    requires few { most ≤ 2 ^ 56 }
    requires fits { limit ≤ 2 ^ 32 }
    ensures { Gives (λ x. (x.0.items, x.1.now)) result (numbers_at ends most limit bytes.now) }
{
    let (values, rest) = list(alloc, bytes, most, limit)?;
    let rest = past(rest, ends).ok_or(Unread::Form)?;
    Ok((values, rest))
}
