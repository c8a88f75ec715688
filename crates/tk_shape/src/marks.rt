//! Marks of places.

ghost use Rattle.std.specs.Prelude.{◌≡◌, ℕ, ◌<◌, ◌||◌, ◌==◌, false, [], ◌∷◌, length};
ghost use Rattle.tk_shape.specs.Marked.{is_marked, IsMore};

use crate::index::MOST_PLACES;
use std::marker::Model;

/// A mark or none at each place of a code.
#[derive(Drop)]
pub struct Marks {
    marked: [bool; MOST_PLACES],
}

impl Model for Marks {
    ghost use Rattle.std.specs.Prelude.{◌≡◌, List, Bool, length};

    ghost Value = { List Bool };

    ghost view = { λ m. m.marked };

    ghost invariant = { λ m. length m.marked ≡ 65536 };
}

impl Marks {
    /// No marks.
    pub fn none() -> Marks
        ensures { (place : ℕ) → place < 65536 → is_marked result place ≡ false }
    {
        Marks {
            marked: [false; MOST_PLACES],
        }
    }

    /// Whether a place is marked; none is behind the last place.
    pub fn is_marked(&self, place: usize) -> bool
        ensures { result ≡ is_marked self.now place }
    {
        match self.marked.get(place) {
            None => false,
            Some(mark) => *mark,
        }
    }

    /// Marks a place, if it isn't behind the last one.
    pub fn mark(&mut self, goal: usize)
        ensures { IsMore self.old self.new (goal ∷ []) }
    {
        if goal < MOST_PLACES {
            self.marked[goal] = true;
        }
    }
}
