ghost use Rattle.std.specs.Prelude.{◌≡◌, ℕ, Some};
ghost use Rattle.tk_paths.specs.Walks.{IsCostOf};
ghost use Rattle.tk_walk.specs.Listing.{AreListings};
ghost use Rattle.tk_walk.specs.Walks.{Tells, TellsWithin, IsCostWithin, IsTickCost};

use crate::configuration::begin;
use crate::free_core::FreeCore;
use crate::listing::Listing;
use mb_isa::Costs;
use mb_pfu::Unit;
use pt_image::Image;
use tk_cert::Walk;

// The most cycles that a walk may cost.
const CYCLES_MOST: u64 = 1_000_000_000_000;

// The cycles of the free tick from a unit that takes just these choices; `None` where it doesn't end so within `most`.
fn tick_cost(
    image: &Image,
    listing: &Listing,
    costs: &Costs,
    unit: Unit,
    choices: &[bool],
    most: u64,
) -> Option<u64>
    requires { AreListings image.now listing.now }
    ensures { IsTickCost image.now costs.now most unit choices.now result }
{
    let mut core = FreeCore::of(unit);
    match core.tick(choices, image, listing, costs, most) {
        None => None,
        Some(cycles) => {
            if core.is_spent(choices) {
                Some(cycles)
            } else {
                None
            }
        }
    }
}

/// The cycles of the free tick that a walk describes, those of the tick itself included. `None` exactly where no tick of
/// the image begins in its states, where choices run out or are left over, where a step traps, or where the cycles pass
/// `most`.
///
/// It takes no memory. Its time is that of the listed points and of the steps of the walk; a listed point is found by its
/// place in two tables of 65,536 numbers.
pub fn cost_within(image: &Image, costs: &Costs, walk: &Walk, most: u64) -> Option<u64>
    ensures cost { TellsWithin image.now costs.now most walk.now result }
    ensures only { (n : ℕ) → IsCostWithin image.now costs.now most walk.now n → result ≡ Some n }
{
    let listing = Listing::of(image);
    match begin(image, &listing, walk.states.items()) {
        None => None,
        Some(unit) => tick_cost(image, &listing, costs, unit, walk.choices.items(), most),
    }
}

/// The cost of a walk: its cycles, where they are at most 1,000,000,000,000. As `cost_within` it takes no memory.
pub fn walk_cost(image: &Image, costs: &Costs, walk: &Walk) -> Option<u64>
    ensures cost { Tells image.now costs.now walk.now result }
    ensures only { (n : ℕ) → IsCostOf image.now costs.now walk.now n → result ≡ Some n }
{
    cost_within(image, costs, walk, CYCLES_MOST)
}
