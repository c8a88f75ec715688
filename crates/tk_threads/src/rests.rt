//! What follows a rest inside aborts, and the numbers at the words of aborts.

ghost use Rattle.std.specs.Prelude.{◌≡◌, [], ◌∷◌, ◌++◌, length, if◌then◌else◌, IfOk};
ghost use Rattle.tk_paths.specs.declared.view.Side.TheVariants.{ToPause, ToEnd};
ghost use Rattle.tk_paths.specs.Kinds.{abort_at};
ghost use Rattle.tk_paths.specs.Acceptance.{on_side};
ghost use Rattle.tk_paths.specs.Numbers.{thread, stack_of};
ghost use Rattle.tk_paths.specs.Numbers.{handled as the_handled, rested as the_rested, left as the_left, with_abort as the_with_abort};
ghost use Rattle.tk_paths.specs.Faults.{OnlyMemory, AllSmall};
ghost use Rattle.tk_paths.specs.Levels.{numbers_of};
ghost use Rattle.tk_paths.specs.PlaceKinds.{kind_of};

use mb_isa::{Class, Costs};
use pt_base::Many;
use pt_image::Image;
use std::alloc::Global;
use tk_paths::{Fault, Kind, Levels, Pair, greater, level_at, plus};

/// An abort that a place is inside: its number, and the two numbers of its handler, where those outside it are old.
pub type Handler = (u32, Pair);

// Whether the abort of a number is weak.
fn is_weak(image: &Image, number: u32) -> bool
    ensures { result ≡ (abort_at image.now number).weak }
{
    match image.aborts().get(number as usize) {
        None => false,
        Some(line) => line.weak,
    }
}

// The numbers of the handler of an abort that is old, which a weak one goes on at.
fn old_handler(image: &Image, handler: Handler) -> Pair
    ensures pause { result.0 ≡ (if (abort_at image.now handler.0).weak then on_side ToPause (Some (handler.1)) else None) }
    ensures end { result.1 ≡ (if (abort_at image.now handler.0).weak then on_side ToEnd (Some (handler.1)) else None) }
{
    if is_weak(image, handler.0) {
        return handler.1;
    }
    (None, None)
}

// The greatest numbers of the handlers of the weak ones among the first of these aborts.
fn handled(image: &Image, costs: &Costs, aborts: &[Handler], count: usize) -> Pair
    ensures pause { result.0 ≡ the_handled image.now costs.now ToPause aborts.now count }
    ensures end { result.1 ≡ the_handled image.now costs.now ToEnd aborts.now count }
{
    let mut most = (None, None);
    let mut i = count.min(aborts.len());
    while i > 0 {
        i -= 1;
        let pair = old_handler(image, aborts[i]);
        most = (greater(pair.0, most.0), greater(pair.1, most.1));
    }
    most
}

/// What follows a rest inside these aborts.
pub fn rested(
    alloc: Global,
    image: &Image,
    costs: &Costs,
    aborts: &[Handler],
) -> Result<Levels, Fault>
    ensures exact { IfOk result (λ l. numbers_of l ≡ the_rested image.now costs.now aborts.now) }
    ensures fits { OnlyMemory result }
{
    let count = aborts.len() + 1;
    let mut levels = Vec::new(alloc);
    for k in 0..count {
        let pair = handled(image, costs, aborts, k);
        levels.push((greater(Some(0), pair.0), pair.1))?;
    }
    Ok(Levels {
        value: None,
        levels: Many::of(levels),
    })
}

/// The numbers at the `leave` of an abort inside these, from those behind it.
pub fn left(
    alloc: Global,
    image: &Image,
    costs: &Costs,
    aborts: &[Handler],
    behind: &Levels,
) -> Result<Levels, Fault>
    ensures exact { IfOk result (λ l. numbers_of l ≡ the_left image.now costs.now aborts.now (numbers_of behind.now)) }
    ensures fits { AllSmall (the_left image.now costs.now aborts.now (numbers_of behind.now)) → OnlyMemory result }
{
    let cost = Some(costs.cost(Class::Leave));
    let count = aborts.len() + 1;
    let mut levels = Vec::new(alloc);
    for k in 0..count {
        let pair = level_at(behind, k);
        levels.push((plus(cost, pair.0)?, plus(cost, pair.1)?))?;
    }
    Ok(Levels {
        value: None,
        levels: Many::of(levels),
    })
}

/// The aborts with the one of this number inside them, where these numbers come behind it.
pub fn with_abort(
    alloc: Global,
    image: &Image,
    costs: &Costs,
    aborts: &[Handler],
    number: u32,
    behind: &Levels,
) -> Result<Vec<Handler>, Fault>
    ensures exact { IfOk result (λ all. all.items ≡ the_with_abort image.now costs.now aborts.now number (numbers_of behind.now)) }
    ensures fits { OnlyMemory result }
{
    let mut all = aborts.to_vec(alloc)?;
    all.push((number, level_at(behind, aborts.len())))?;
    Ok(all)
}

/// What a place of a slot is inside that is inside these aborts.
pub fn in_thread(alloc: Global, slot: u32, aborts: &[Handler]) -> Result<Kind, Fault>
    ensures exact { IfOk result (λ kind. kind_of kind ≡ thread slot (stack_of aborts.now) []) }
    ensures fits { OnlyMemory result }
{
    let mut stack = Vec::new(alloc);
    for handler in aborts {
        stack.push(handler.0)?;
    }
    Ok(Kind::Thread {
        slot,
        stack: Many::of(stack),
        loops: Many::of(Vec::new(alloc)),
    })
}
