//! Where in a list the entry for a place stands.

ghost use Rattle.std.specs.Prelude.{◌≡◌, ℕ, ◌<◌, ◌≤◌, ◌==◌, if◌then◌else◌, Some, None, length, option_map};
ghost use Rattle.std.specs.List.{IsDistinct};
ghost use Rattle.pt_image.specs.Ranges.{places_of};
ghost use Rattle.tk_cert.specs.Shapes.{RiseFrom};
ghost use Rattle.tk_paths.specs.Shape.{weight_in};
ghost use Rattle.tk_shape.specs.Looking.{number_at, found, IsIndexed, AreWeighed};

use pt_image::Point;
use std::marker::Model;

/// The most words of a code.
pub const MOST_PLACES: usize = 65_536;

/// A number or none for each place of a code, kept as one more than it, or as 0.
#[derive(Drop)]
pub struct Index {
    numbers: [u32; MOST_PLACES],
}

impl Model for Index {
    ghost use Rattle.std.specs.Prelude.{◌≡◌, ℕ, List, length};

    ghost Value = { List ℕ };

    ghost view = { λ index. index.numbers };

    ghost invariant = { λ index. length index.numbers ≡ 65536 };
}

impl Index {
    // No numbers.
    fn none() -> Index
        ensures { (place : ℕ) → place < 65536 → number_at result place ≡ None }
    {
        Index {
            numbers: [0; MOST_PLACES],
        }
    }

    // Puts a number at a place, if it isn't behind the last one.
    fn put(&mut self, place: usize, number: usize)
        requires { place < 65536 → number < 65536 }
        ensures { (other : ℕ) → other < 65536 →
            number_at self.new other ≡ (if place == other then Some number else number_at self.old other) }
    {
        if place < MOST_PLACES {
            self.numbers[place] = number as u32 + 1;
        }
    }

    // The number for a place.
    fn number(&self, place: usize) -> Option<usize>
        ensures { result ≡ number_at self.now place }
    {
        match self.numbers.get(place) {
            None => None,
            Some(number) => {
                if *number == 0 {
                    None
                } else {
                    Some(*number as usize - 1)
                }
            }
        }
    }
}

/// The index of points by their places.
pub fn index_of(points: &[Point]) -> Index
    requires few { length points.now ≤ 65536 }
    requires distinct { IsDistinct (λ m n. m == n) (places_of points.now) }
    ensures { IsIndexed points.now result }
{
    let mut index = Index::none();
    for number in 0..points.len() {
        index.put(points[number].at as usize, number);
    }
    index
}

/// The point for a place, if one is listed.
pub fn point_at<'a>(points: &'a [Point], index: &Index, place: usize) -> Option<&'a Point>
    ensures { option_map (λ p. p.now) result ≡ found points.now (number_at index.now place) }
{
    points.get(index.number(place)?)
}

/// The index of the weights of loops by their places.
pub fn weights_index(weights: &[(u32, u64)]) -> Index
    requires { RiseFrom 0 weights.now }
    ensures { AreWeighed weights.now result }
{
    let mut index = Index::none();
    let mut number = weights.len();
    while number > 0 {
        number -= 1;
        index.put(weights[number].0 as usize, number);
    }
    index
}

// The weight of the loop at a place, looked for from the first.
fn weight_from(weights: &[(u32, u64)], place: usize) -> Option<u64>
    ensures { result ≡ weight_in weights.now place }
{
    for (at, weight) in weights {
        if *at as usize == place {
            return Some(*weight);
        }
    }
    None
}

// The weight that an index has for a place.
fn weight_found(weights: &[(u32, u64)], index: &Index, place: usize) -> Option<u64>
    ensures { result ≡ option_map (λ w. w.1) (found weights.now (number_at index.now place)) }
{
    let (_, weight) = weights.get(index.number(place)?)?;
    Some(*weight)
}

/// The weight of the loop at a place. No place of a code is looked for from the first.
pub fn weight_at(weights: &[(u32, u64)], index: &Index, place: usize) -> Option<u64>
    requires { AreWeighed weights.now index.now }
    ensures { result ≡ weight_in weights.now place }
{
    if place < MOST_PLACES {
        weight_found(weights, index, place)
    } else {
        weight_from(weights, place)
    }
}
