ghost use Rattle.std.specs.Prelude.{◌≡◌, ◌≤◌, ℕ, List, Option, Some, None, IfOk, length};
ghost use Rattle.std.specs.Option.{option_map};
ghost use Rattle.pc_meaning.specs.Tree.{par, Routine};
ghost use Rattle.pc_meaning.specs.Values.{Store};
ghost use Rattle.pc_meaning.specs.Outcomes.{joined};
ghost use Rattle.pc_meaning.specs.Lefts.{is_over, sided, outcome_of};
ghost use Rattle.pc_meaning.specs.declared.lefts.Left.TheVariants.{Inside};

use pt_base::Memory;
use sqlite_items::{Boxed, Items};
use std::alloc::Global;

/// What is left of a statement that has paused. It holds numbers alone, and is read along the statement.
#[derive(Drop)]
pub enum Left {
    /// The statement is an `EOT`.
    Here,
    /// The part of this number has paused: a statement of a block, the first or second part of an `if`, the body of a
    /// loop or an abort.
    Inside(usize, Boxed<Left>),
    /// The statement is a `PAR`, and this is left of each of its threads.
    Beside(Items<Option<Left>>),
}

/// What is left of a part, if anything, is left of the whole.
pub fn inside(alloc: Global, part: usize, left: Option<Left>) -> Result<Option<Left>, Memory>
    ensures { IfOk result (λ o. o ≡ option_map (λ l. Inside part l) left) }
{
    match left {
        None => Ok(None),
        Some(left) => Ok(Some(Left::Inside(part, Boxed::new(alloc, left)?))),
    }
}

// Whether nothing is left of each thread.
fn is_over(lefts: &[Option<Left>]) -> bool
    ensures { result ≡ is_over lefts.now }
{
    for left in lefts {
        if left.is_some() {
            return false;
        }
    }
    true
}

/// A `PAR` is done where nothing is left of its threads.
pub fn beside(lefts: Items<Option<Left>>) -> Option<Left>
    ensures { (routines : List Routine) (i : ℕ) (fs : List ℕ) (store : Store) → length lefts ≤ length fs →
        outcome_of routines (par i fs) result store ≡ joined i (sided routines lefts fs store) }
{
    if is_over(lefts.as_slice()) {
        None
    } else {
        Some(Left::Beside(lefts))
    }
}
