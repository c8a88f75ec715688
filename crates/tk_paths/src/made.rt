ghost use Rattle.std.specs.Prelude.{◌≡◌, [], ◌∷◌, IfOk};
ghost use Rattle.tk_paths.specs.Faults.{OnlyMemory};

use crate::fault::Fault;
use std::alloc::Global;
use std::marker::Model;
use tk_cert::Line;

/// The lines and weights that are made so far, of the places from some place on. They are made from the last place to the first.
#[derive(Drop)]
pub struct Made {
    lines: Vec<Line>,
    weights: Vec<(u32, u64)>,
}

impl Model for Made {
    ghost use Rattle.std.specs.Prelude.{reverse};
    ghost use Rattle.tk_paths.specs.Made.{Made};

    ghost Value = { Made };

    ghost view = { λ m. record { lines = reverse m.lines.items; weights = reverse m.weights.items } };
}

impl Made {
    /// Of no places.
    pub fn new(alloc: Global) -> Made
        ensures lines { result.lines ≡ [] }
        ensures weights { result.weights ≡ [] }
    {
        Made {
            lines: Vec::new(alloc),
            weights: Vec::new(alloc),
        }
    }

    /// Puts a line in front.
    pub fn put_line(&mut self, line: Line) -> Result<(), Fault>
        ensures lines { IfOk result (λ done. self.new.lines ≡ line ∷ self.old.lines) }
        ensures weights { self.new.weights ≡ self.old.weights }
        ensures fits { OnlyMemory result }
    {
        self.lines.push(line)?;
        Ok(())
    }

    /// Puts the weight of a place in front.
    pub fn put_weight(&mut self, place: u32, weight: u64) -> Result<(), Fault>
        ensures weights { IfOk result (λ done. self.new.weights ≡ (place, weight) ∷ self.old.weights) }
        ensures lines { self.new.lines ≡ self.old.lines }
        ensures fits { OnlyMemory result }
    {
        self.weights.push((place, weight))?;
        Ok(())
    }

    /// The lines and the weights, from the first place on.
    pub fn into_lists(self) -> (Vec<Line>, Vec<(u32, u64)>)
        ensures lines { result.0.items ≡ self.lines }
        ensures weights { result.1.items ≡ self.weights }
    {
        let mut lines = self.lines;
        let mut weights = self.weights;
        lines.reverse();
        weights.reverse();
        (lines, weights)
    }
}
