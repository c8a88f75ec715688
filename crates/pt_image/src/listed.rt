ghost use Rattle.std.specs.Prelude.{◌≡◌};
ghost use Rattle.pt_image.specs.Listed.{is_listed, same_numbers};

use crate::image::Point;

// Whether two lists of numbers are the same.
fn same_numbers(a: &[u32], b: &[u32]) -> bool
    ensures { result ≡ same_numbers a.now b.now }
{
    a == b
}

/// Whether a pause or a fork is listed with this place, slot and stack of abort numbers.
pub fn is_listed(points: &[Point], place: u32, slot: u32, stack: &[u32]) -> bool
    ensures { result ≡ is_listed points.now place slot stack.now }
{
    points.iter().any(|p| p.at == place && p.slot == slot && same_numbers(p.stack.items(), stack))
}
