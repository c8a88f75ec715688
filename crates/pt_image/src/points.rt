ghost use Rattle.std.specs.Prelude.{◌≡◌, ◌≤◌, ◌<◌, ◌^◌, length, false, replicate, IfOk};
ghost use Rattle.std.specs.List.{All, AllByRecursion};
ghost use Rattle.pt_base.specs.Reading.{Gives, many_at};
ghost use Rattle.pt_image.specs.Reading.{point_at, fresh, points_at};

use crate::image::Point;
use pt_base::{Many, Unread, count_line, number_then, numbers};
use std::alloc::{AllocError, Global};

// The listed pause or fork at the front, and what follows it.
#[tactic(auto, unfolding(crate::specs::Reading::point_at))]
fn point(
    alloc: Global,
    bytes: &[u8],
    code: u64,
    slots: u64,
    aborts: u64,
) -> Result<(Point, &[u8]), Unread>
    requires places { code ≤ 2 ^ 32 }
    requires threads { slots ≤ 2 ^ 32 }
    requires lines { aborts ≤ 2 ^ 32 }
    ensures { Gives (λ x. (x.0, x.1.now)) result (point_at code slots aborts bytes.now) }
{
    let (at, rest) = number_then(bytes, 32, code).ok_or(Unread::Form)?;
    let (slot, rest) = number_then(rest, 32, slots).ok_or(Unread::Form)?;
    let (stack, rest) = numbers(alloc, rest, 10, 9, aborts)?;
    let point = Point {
        at: at as u32,
        slot: slot as u32,
        stack: Many::of(stack),
    };
    Ok((point, rest))
}

// So many listed pauses or forks, and what follows them.
fn point_lines(
    alloc: Global,
    bytes: &[u8],
    count: u64,
    code: u64,
    slots: u64,
    aborts: u64,
) -> Result<(Vec<Point>, &[u8]), Unread>
    requires places { code ≤ 2 ^ 32 }
    requires threads { slots ≤ 2 ^ 32 }
    requires lines { aborts ≤ 2 ^ 32 }
    ensures { Gives (λ x. (x.0.items, x.1.now)) result (many_at (point_at code slots aborts) count bytes.now) }
{
    let mut values = Vec::new(alloc);
    let mut rest = bytes;
    for _ in 0..count {
        let (value, after) = point(alloc, rest, code, slots, aborts)?;
        values.push(value)?;
        rest = after;
    }
    Ok((values, rest))
}

// Whether no two of the points stand at one place; each place has a mark in `seen`, none of them set.
fn are_fresh(points: &[Point], seen: &mut [bool]) -> bool
    requires { All (λ x. x.at < length seen.old) points.now }
    ensures { result ≡ fresh seen.old points.now }
{
    for point in points {
        let at = point.at as usize;
        if seen[at] {
            return false;
        }
        seen[at] = true;
    }
    true
}

/// The listed pauses or forks at the front, no two of them at one place, and what follows them.
#[tactic(auto, using(crate::proofs::PointLaws::within), unfolding(crate::specs::Reading::points_at, pt_base::specs::Reading::lines_at))]
pub fn points_of<'a>(
    alloc: Global,
    bytes: &'a [u8],
    name: &[u8],
    code: u64,
    slots: u64,
    aborts: u64,
) -> Result<(Vec<Point>, &'a [u8]), Unread>
    requires places { code ≤ 2 ^ 32 }
    requires threads { slots ≤ 2 ^ 32 }
    requires lines { aborts ≤ 2 ^ 32 }
    ensures { Gives (λ x. (x.0.items, x.1.now)) result (points_at name.now code slots aborts bytes.now) }
{
    let (count, rest) = count_line(bytes, name, 0, 65_537).ok_or(Unread::Form)?;
    let (points, rest) = point_lines(alloc, rest, count, code, slots, aborts)?;
    let mut seen = Vec::from_elem(alloc, false, code as usize)?;
    if are_fresh(&points, &mut seen) {
        Ok((points, rest))
    } else {
        Err(Unread::Form)
    }
}
