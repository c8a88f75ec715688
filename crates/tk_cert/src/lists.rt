ghost use Rattle.std.specs.Prelude.{◌≡◌, option_map};
ghost use Rattle.pt_base.specs.Reading.{Gives, many_at};
ghost use Rattle.tk_cert.specs.Reading.{weight_at, rise_from, slot_at, bound_at, places_at, loops_at, slots_at};

use crate::cert::Line;
use crate::line::{TOO_LARGE, line_list, optional};
use pt_base::{Unread, count_line, number_then, past};
use std::alloc::Global;

/// The bound at the front, and what follows it.
#[tactic(auto, unfolding(crate::specs::Reading::bound_at))]
pub fn bound_of(bytes: &[u8]) -> Option<(u64, &[u8])>
    ensures { option_map (λ x. (x.0, x.1.now)) result ≡ bound_at bytes.now }
{
    count_line(bytes, b"bound ", 0, TOO_LARGE)
}

/// The lines of code places at the front, and what follows them.
#[tactic(auto, unfolding(crate::specs::Reading::places_at, pt_base::specs::Reading::lines_at))]
pub fn places_of(alloc: Global, bytes: &[u8]) -> Result<(Vec<Line>, &[u8]), Unread>
    ensures { Gives (λ x. (x.0.items, x.1.now)) result (places_at bytes.now) }
{
    let (count, rest) = count_line(bytes, b"at ", 1, 65_537).ok_or(Unread::Form)?;
    line_list(alloc, rest, count)
}

// The place of a loop and its weight at the front, and what follows them.
#[tactic(auto, unfolding(crate::specs::Reading::weight_at))]
fn weight(bytes: &[u8]) -> Option<((u32, u64), &[u8])>
    ensures { option_map (λ x. (x.0, x.1.now)) result ≡ weight_at bytes.now }
{
    let (place, rest) = number_then(bytes, b' ', 65_536)?;
    let (weight, rest) = number_then(rest, b'\n', TOO_LARGE)?;
    Some(((place as u32, weight), rest))
}

// So many places of loops with their weights, and what follows them.
fn weight_list(alloc: Global, bytes: &[u8], count: u64) -> Result<(Vec<(u32, u64)>, &[u8]), Unread>
    ensures { Gives (λ x. (x.0.items, x.1.now)) result (many_at weight_at count bytes.now) }
{
    let mut values = Vec::new(alloc);
    let mut rest = bytes;
    for _ in 0..count {
        let (value, after) = weight(rest).ok_or(Unread::Form)?;
        values.push(value)?;
        rest = after;
    }
    Ok((values, rest))
}

// Whether the places rise.
fn rise(weights: &[(u32, u64)]) -> bool
    ensures { result ≡ rise_from 0 weights.now }
{
    let mut low = 0;
    for (place, _) in weights {
        if u64::from(*place) < low {
            return false;
        }
        low = u64::from(*place) + 1;
    }
    true
}

/// The places of loops with their weights at the front, and what follows them.
#[tactic(auto, unfolding(crate::specs::Reading::loops_at, pt_base::specs::Reading::lines_at))]
pub fn loops_of(alloc: Global, bytes: &[u8]) -> Result<(Vec<(u32, u64)>, &[u8]), Unread>
    ensures { Gives (λ x. (x.0.items, x.1.now)) result (loops_at bytes.now) }
{
    let (count, rest) = count_line(bytes, b"loops ", 0, 65_537).ok_or(Unread::Form)?;
    let (weights, rest) = weight_list(alloc, rest, count)?;
    if rise(&weights) {
        Ok((weights, rest))
    } else {
        Err(Unread::Form)
    }
}

// The two numbers of a slot at the front, and what follows their line.
#[tactic(auto, unfolding(crate::specs::Reading::slot_at))]
fn slot(bytes: &[u8]) -> Option<((Option<u64>, Option<u64>), &[u8])>
    ensures { option_map (λ x. (x.0, x.1.now)) result ≡ slot_at bytes.now }
{
    let (pause, rest) = optional(bytes)?;
    let rest = past(rest, b' ')?;
    let (end, rest) = optional(rest)?;
    let rest = past(rest, b'\n')?;
    Some(((pause, end), rest))
}

// The two numbers of so many slots, and what follows them.
fn slot_list(
    alloc: Global,
    bytes: &[u8],
    count: u64,
) -> Result<(Vec<(Option<u64>, Option<u64>)>, &[u8]), Unread>
    ensures { Gives (λ x. (x.0.items, x.1.now)) result (many_at slot_at count bytes.now) }
{
    let mut values = Vec::new(alloc);
    let mut rest = bytes;
    for _ in 0..count {
        let (value, after) = slot(rest).ok_or(Unread::Form)?;
        values.push(value)?;
        rest = after;
    }
    Ok((values, rest))
}

/// The two numbers of each slot at the front, and what follows them.
#[tactic(auto, unfolding(crate::specs::Reading::slots_at, pt_base::specs::Reading::lines_at))]
pub fn slots_of(
    alloc: Global,
    bytes: &[u8],
) -> Result<(Vec<(Option<u64>, Option<u64>)>, &[u8]), Unread>
    ensures { Gives (λ x. (x.0.items, x.1.now)) result (slots_at bytes.now) }
{
    let (count, rest) = count_line(bytes, b"slots ", 1, 65).ok_or(Unread::Form)?;
    slot_list(alloc, rest, count)
}
