//! The lines of units, tests and jumps, put in front of those that are made.

ghost use Rattle.std.specs.Prelude.{◌≡◌, ◌<◌, ◌^◌, ◌++◌, ◌∷◌, IfOk};
ghost use Rattle.tk_paths.specs.Numbers.{after as the_after, line, unit_lines, units_lines, jump_lines, test_lines, jumping};
ghost use Rattle.tk_paths.specs.Regions.{extra, units_cost};
ghost use Rattle.tk_paths.specs.Faults.{OnlyMemory, AllSmall, HasRoom};
ghost use Rattle.tk_paths.specs.PlaceKinds.{kind_of};
ghost use Rattle.tk_paths.specs.Levels.{numbers_of};
ghost use Rattle.tk_numbers.specs.Charges.{testing_cost};
ghost use Rattle.tk_numbers.specs.Units.{places_from, charged, lines_at};

use crate::charges::{behind, extra, half, unit_cost};
use crate::turns::jump_cost;
use mb_isa::{Class, Costs};
use pt_image::Image;
use std::alloc::Global;
use tk_paths::{Fault, Kind, Levels, Made, after, line, sum};

/// Puts the line of a place with these numbers.
pub fn put_line(alloc: Global, kind: &Kind, levels: &Levels, made: &mut Made) -> Result<(), Fault>
    ensures lines { IfOk result (λ done. made.new.lines ≡ line (kind_of kind.now) (numbers_of levels.now) ∷ made.old.lines) }
    ensures weights { made.new.weights ≡ made.old.weights }
    ensures fits { OnlyMemory result }
{
    made.put_line(line(alloc, kind, levels)?)
}

/// Puts the lines of the unit at a place, at whose word these numbers stand.
pub fn unit_lines(
    alloc: Global,
    image: &Image,
    costs: &Costs,
    kind: &Kind,
    place: usize,
    levels: &Levels,
    made: &mut Made,
) -> Result<(), Fault>
    ensures lines { IfOk result (λ done. made.new.lines ≡
        unit_lines image.now costs.now (kind_of kind.now) place (numbers_of levels.now) ++ made.old.lines) }
    ensures weights { made.new.weights ≡ made.old.weights }
    ensures fits { AllSmall (the_after (extra image.now costs.now place) (numbers_of levels.now)) → OnlyMemory result }
{
    put_line(alloc, kind, levels, made)?;
    match half(image, place) {
        None => Ok(()),
        Some(_) => {
            let upper = after(alloc, costs.cost(Class::Imm), levels)?;
            put_line(alloc, kind, &upper, made)
        }
    }
}

// The places where so many units begin.
#[tactic(auto, using(crate::proofs::Straight::one_more))]
fn places_from(alloc: Global, image: &Image, place: usize, count: u32) -> Result<Vec<usize>, Fault>
    requires { place < 2 ^ 36 }
    ensures exact { IfOk result (λ places. places.items ≡ places_from image.now place count) }
    ensures fits { OnlyMemory result }
{
    let mut places = Vec::new(alloc);
    let mut at = place;
    for _ in 0..count {
        places.push(at)?;
        at = behind(image, at);
    }
    Ok(places)
}

// Puts the lines of the units that begin at these places, and says what they are charged; the numbers are those behind them.
fn lines_at(
    alloc: Global,
    image: &Image,
    costs: &Costs,
    kind: &Kind,
    places: &[usize],
    levels: &Levels,
    made: &mut Made,
) -> Result<u64, Fault>
    ensures charge { IfOk result (λ n. n ≡ charged image.now costs.now places.now) }
    ensures lines { IfOk result (λ n. made.new.lines ≡
        lines_at image.now costs.now (kind_of kind.now) places.now (numbers_of levels.now) ++ made.old.lines) }
    ensures weights { made.new.weights ≡ made.old.weights }
    ensures fits { HasRoom (charged image.now costs.now places.now) (numbers_of levels.now) → OnlyMemory result }
{
    let mut total = 0;
    let mut i = places.len();
    while i > 0 {
        i -= 1;
        let place = places[i];
        let word = unit_cost(image, costs, place);
        let standing = after(alloc, sum(word, total)?, levels)?;
        unit_lines(alloc, image, costs, kind, place, &standing, made)?;
        total = sum(extra(image, costs, place) + word, total)?;
    }
    Ok(total)
}

/// Puts the lines of so many units from a place on, and says what they are charged; the numbers are those behind them.
#[tactic(auto, using(crate::proofs::Straight::charged_is, crate::proofs::Straight::lines_are))]
pub fn units_lines(
    alloc: Global,
    image: &Image,
    costs: &Costs,
    kind: &Kind,
    place: usize,
    count: u32,
    levels: &Levels,
    made: &mut Made,
) -> Result<u64, Fault>
    requires { place < 2 ^ 36 }
    ensures charge { IfOk result (λ n. n ≡ units_cost image.now costs.now place count) }
    ensures lines { IfOk result (λ n. made.new.lines ≡
        units_lines image.now costs.now (kind_of kind.now) place count (numbers_of levels.now) ++ made.old.lines) }
    ensures weights { made.new.weights ≡ made.old.weights }
    ensures fits { HasRoom (units_cost image.now costs.now place count) (numbers_of levels.now) → OnlyMemory result }
{
    let places = places_from(alloc, image, place, count)?;
    lines_at(alloc, image, costs, kind, &places, levels, made)
}

/// The numbers at the beginning of a jump's unit, from those of the place to which it leads.
pub fn jumping(
    alloc: Global,
    image: &Image,
    costs: &Costs,
    place: usize,
    levels: &Levels,
) -> Result<Levels, Fault>
    ensures exact { IfOk result (λ l. numbers_of l ≡ jumping image.now costs.now place (numbers_of levels.now)) }
    ensures fits { AllSmall (jumping image.now costs.now place (numbers_of levels.now)) → OnlyMemory result }
{
    after(alloc, jump_cost(image, costs, place), levels)
}

/// Puts the lines of a jump to a place with these numbers.
pub fn jump_lines(
    alloc: Global,
    image: &Image,
    costs: &Costs,
    kind: &Kind,
    place: usize,
    levels: &Levels,
    made: &mut Made,
) -> Result<(), Fault>
    ensures lines { IfOk result (λ done. made.new.lines ≡
        jump_lines image.now costs.now (kind_of kind.now) place (numbers_of levels.now) ++ made.old.lines) }
    ensures weights { made.new.weights ≡ made.old.weights }
    ensures fits { AllSmall (jumping image.now costs.now place (numbers_of levels.now)) → OnlyMemory result }
{
    let word = after(alloc, costs.cost(Class::Jump), levels)?;
    unit_lines(alloc, image, costs, kind, place, &word, made)
}

/// Puts the lines of a test of so many units and of its branch, at whose word these numbers stand.
pub fn test_lines(
    alloc: Global,
    image: &Image,
    costs: &Costs,
    kind: &Kind,
    place: usize,
    count: u32,
    branch: u32,
    levels: &Levels,
    made: &mut Made,
) -> Result<(), Fault>
    requires { place < 2 ^ 36 }
    ensures lines { IfOk result (λ done. made.new.lines ≡
        test_lines image.now costs.now (kind_of kind.now) place count branch (numbers_of levels.now) ++ made.old.lines) }
    ensures weights { made.new.weights ≡ made.old.weights }
    ensures fits { HasRoom (testing_cost image.now costs.now place count branch) (numbers_of levels.now) → OnlyMemory result }
{
    let branch = branch as usize;
    unit_lines(alloc, image, costs, kind, branch, levels, made)?;
    let before = after(alloc, extra(image, costs, branch), levels)?;
    units_lines(alloc, image, costs, kind, place, count, &before, made)?;
    Ok(())
}
