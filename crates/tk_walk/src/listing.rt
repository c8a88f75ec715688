ghost use Rattle.std.specs.Prelude.{◌≡◌, ◌≢◌, ℕ, ◌<◌, ◌≤◌, ◌==◌, length, slice_index_or};
ghost use Rattle.std.specs.List.{AllByRecursion, IsDistinct};
ghost use Rattle.pt_image.specs.Ranges.{places_of};
ghost use Rattle.pt_image.specs.Listed.{is_listed};
ghost use Rattle.tk_walk.specs.Listing.{IsTable, IsFound, AreListings};

use pt_image::{Image, Point, is_listed};
use std::marker::Model;

// The most words of a code.
const MOST_PLACES: usize = 65_536;

/// At the place of each point of a list its number, so that a point is found without a search.
#[derive(Drop)]
pub struct Places {
    numbers: [u16; MOST_PLACES],
}

impl Model for Places {
    ghost use Rattle.std.specs.Prelude.{◌≡◌, List, ℕ, length};

    ghost Value = { List ℕ };

    ghost view = { λ p. p.numbers };

    ghost invariant = { λ p. length p.numbers ≡ 65536 };
}

impl Places {
    // No places.
    fn none() -> Places {
        Places {
            numbers: [0; MOST_PLACES],
        }
    }

    // A place has this number.
    fn note(&mut self, place: usize, number: u16)
        requires { place < 65536 }
        ensures here { slice_index_or self.new place 0 ≡ number }
        ensures others { (other : ℕ) → other ≢ place → slice_index_or self.new other 0 ≡ slice_index_or self.old other 0 }
    {
        self.numbers[place] = number;
    }

    /// The places of some points, no two of them at one place.
    pub fn of(points: &[Point]) -> Places
        requires few { length points.now ≤ 65536 }
        requires low { AllByRecursion (λ p. p.at < 65536) points.now }
        requires distinct { IsDistinct (λ m n. m == n) (places_of points.now) }
        ensures { IsTable points.now result }
    {
        let mut places = Places::none();
        for (i, point) in points.iter().enumerate() {
            places.note(point.at as usize, i as u16);
        }
        places
    }

    // The number of the point that is listed for a place.
    fn find(&self, points: &[Point], place: u32) -> Option<usize>
        requires low { AllByRecursion (λ p. p.at < 65536) points.now }
        requires table { IsTable points.now self.now }
        ensures { IsFound points.now place result }
    {
        if place as usize >= MOST_PLACES {
            return None;
        }
        let i = usize::from(self.numbers[place as usize]);
        if i < points.len() && points[i].at == place {
            return Some(i);
        }
        None
    }

    /// Whether a point is listed with this place, slot and stack of abort numbers.
    pub fn is_listed(&self, points: &[Point], place: u32, slot: u32, stack: &[u32]) -> bool
        requires low { AllByRecursion (λ p. p.at < 65536) points.now }
        requires table { IsTable points.now self.now }
        ensures { result ≡ is_listed points.now place slot stack.now }
    {
        match self.find(points, place) {
            None => false,
            Some(i) => is_listed(&points[i..i + 1], place, slot, stack),
        }
    }
}

/// The places of the pauses and of the forks of an image.
#[derive(Drop)]
pub struct Listing {
    pauses: Places,
    forks: Places,
}

#[tactic(auto, using(crate::proofs::Listings::low_points))]
impl Listing {
    /// The listing of an image.
    pub fn of(image: &Image) -> Listing
        ensures { AreListings image.now result }
    {
        image.ranges();
        Listing {
            pauses: Places::of(image.pauses()),
            forks: Places::of(image.forks()),
        }
    }

    /// The number of the pause that is listed for a place.
    pub fn find_pause(&self, image: &Image, place: u32) -> Option<usize>
        requires { AreListings image.now self.now }
        ensures { IsFound image.now.pauses place result }
    {
        image.ranges();
        self.pauses.find(image.pauses(), place)
    }

    /// The number of the fork that is listed for a place.
    pub fn find_fork(&self, image: &Image, place: u32) -> Option<usize>
        requires { AreListings image.now self.now }
        ensures { IsFound image.now.forks place result }
    {
        image.ranges();
        self.forks.find(image.forks(), place)
    }

    /// Whether a pause is listed with this place, slot and stack of abort numbers.
    pub fn is_pause(&self, image: &Image, place: u32, slot: u32, stack: &[u32]) -> bool
        requires { AreListings image.now self.now }
        ensures { result ≡ is_listed image.now.pauses place slot stack.now }
    {
        image.ranges();
        self.pauses.is_listed(image.pauses(), place, slot, stack)
    }

    /// Whether a fork is listed with this place, slot and stack of abort numbers.
    pub fn is_fork(&self, image: &Image, place: u32, slot: u32, stack: &[u32]) -> bool
        requires { AreListings image.now self.now }
        ensures { result ≡ is_listed image.now.forks place slot stack.now }
    {
        image.ranges();
        self.forks.is_listed(image.forks(), place, slot, stack)
    }
}
