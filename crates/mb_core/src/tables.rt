//! Listed pauses and forks in tables by place.

ghost use Rattle.std.specs.Prelude.{◌≡◌, ◌<◌, ◌≤◌, ◌==◌, ◌^◌, IfOk, IsTrue, length};
ghost use Rattle.std.specs.List.{All, IsDistinct};
ghost use Rattle.pt_image.specs.Listed.{is_listed};
ghost use Rattle.pt_image.specs.Ranges.{places_of};
ghost use Rattle.mb_core.specs.Tables.{IsTable, listed_at};

use pt_base::Memory;
use pt_image::{Point, is_listed};
use std::alloc::Global;

/// For each place of a code the number of the point that is listed there.
pub fn table_of(alloc: Global, size: usize, points: &[Point]) -> Result<Vec<Option<u32>>, Memory>
    requires few { length points.now ≤ 65536 }
    requires within { All (λ p. p.at < size) points.now }
    requires once { IsDistinct (λ m n. m == n) (places_of points.now) }
    ensures { IfOk result (λ table. IsTable points.now table.items) }
{
    let mut table = Vec::from_elem(alloc, None, size)?;
    for (i, point) in points.iter().enumerate() {
        table[point.at as usize] = Some(i as u32);
    }
    Ok(table)
}

// The number of the point at a place, if one is there.
fn number_at(table: &[Option<u32>], place: u32) -> Option<u32>
    ensures { result ≡ listed_at table.now place }
{
    if place as usize >= table.len() {
        return None;
    }
    table[place as usize]
}

/// Whether a pause or a fork is listed with this place, slot and stack of abort numbers.
pub fn is_in(points: &[Point], table: &[Option<u32>], place: u32, slot: u32, stack: &[u32]) -> bool
    requires { IsTable points.now table.now }
    ensures { result ≡ is_listed points.now place slot stack.now }
{
    match number_at(table, place) {
        None => false,
        Some(i) => {
            let i = i as usize;
            is_listed(&points[i..i + 1], place, slot, stack)
        }
    }
}
