//! The numbers of a place, at all levels.

ghost use Rattle.std.specs.Prelude.{◌≡◌, ◌≤◌, ◌+◌, ◌-◌, IfOk};
ghost use Rattle.tk_paths.specs.declared.view.View.TheVariants.{Value};
ghost use Rattle.tk_paths.specs.Sums.{or_zero};
ghost use Rattle.tk_paths.specs.Numbers.{level, just as the_just, nothing as the_nothing, after as the_after};
ghost use Rattle.tk_paths.specs.Levels.{numbers_of, added as the_added, branching, dearer as the_dearer, levels_to};
ghost use Rattle.tk_paths.specs.Faults.{OnlyMemory, AllSmall};

use crate::counts::{greater, plus};
use crate::fault::Fault;
use mb_isa::{Class, Costs};
use pt_base::Many;
use std::alloc::Global;

/// The greatest cycles up to a pause and up to an end, at one level.
pub type Pair = (Option<u64>, Option<u64>);

/// The numbers of a place: the value of a routine or a condition, and the levels of a thread, from the outermost; levels further in
/// are as the last.
#[derive(Drop)]
pub struct Levels {
    pub value: Option<u64>,
    pub levels: Many<Pair>,
}

/// One number for all.
pub fn just(alloc: Global, cycles: u64) -> Result<Levels, Fault>
    ensures exact { IfOk result (λ l. numbers_of l ≡ the_just cycles) }
    ensures fits { OnlyMemory result }
{
    let mut levels = Vec::new(alloc);
    levels.push((Some(cycles), Some(cycles)))?;
    Ok(Levels {
        value: Some(cycles),
        levels: Many::of(levels),
    })
}

/// No way leads on.
pub fn nothing(alloc: Global) -> Levels
    ensures { numbers_of result ≡ the_nothing }
{
    let none = Vec::new(alloc);
    Levels {
        value: None,
        levels: Many::of(none),
    }
}

/// A copy.
pub fn copied(alloc: Global, levels: &Levels) -> Result<Levels, Fault>
    ensures exact { IfOk result (λ l. numbers_of l ≡ numbers_of levels.now) }
    ensures fits { OnlyMemory result }
{
    let all = levels.levels.items().to_vec(alloc)?;
    Ok(Levels {
        value: levels.value,
        levels: Many::of(all),
    })
}

/// The numbers of a level.
pub fn level_at(levels: &Levels, k: usize) -> Pair
    ensures { result ≡ level (numbers_of levels.now) k }
{
    let all = levels.levels.items();
    let count = all.len();
    if count == 0 {
        return (None, None);
    }
    all[k.min(count - 1)]
}

/// The value.
#[tactic(auto, unfolding(crate::specs::Levels::numbers_of))]
pub fn value(levels: &Levels) -> u64
    ensures { result ≡ or_zero (numbers_of levels.now Value) }
{
    match levels.value {
        None => 0,
        Some(cycles) => cycles,
    }
}

/// So many cycles more; nothing, where they aren't there.
pub fn added(alloc: Global, cycles: Option<u64>, behind: &Levels) -> Result<Levels, Fault>
    ensures exact { IfOk result (λ l. numbers_of l ≡ the_added cycles (numbers_of behind.now)) }
    ensures fits { AllSmall (the_added cycles (numbers_of behind.now)) → OnlyMemory result }
{
    let count = behind.levels.items().len().max(1);
    let mut levels = Vec::new(alloc);
    for k in 0..count {
        let pair = level_at(behind, k);
        levels.push((plus(cycles, pair.0)?, plus(cycles, pair.1)?))?;
    }
    Ok(Levels {
        value: plus(cycles, behind.value)?,
        levels: Many::of(levels),
    })
}

/// So many cycles before what comes behind.
pub fn after(alloc: Global, cycles: u64, behind: &Levels) -> Result<Levels, Fault>
    ensures exact { IfOk result (λ l. numbers_of l ≡ the_after cycles (numbers_of behind.now)) }
    ensures fits { AllSmall (the_after cycles (numbers_of behind.now)) → OnlyMemory result }
{
    let levels = added(alloc, Some(cycles), behind)?;
    Ok(levels)
}

/// The dearer of two ways.
pub fn dearer(alloc: Global, first: &Levels, second: &Levels) -> Result<Levels, Fault>
    ensures exact { IfOk result (λ l. numbers_of l ≡ the_dearer (numbers_of first.now) (numbers_of second.now)) }
    ensures fits { OnlyMemory result }
{
    let most = first.levels.items().len().max(second.levels.items().len());
    let count = most.max(1);
    let mut levels = Vec::new(alloc);
    for k in 0..count {
        let a = level_at(first, k);
        let b = level_at(second, k);
        levels.push((greater(a.0, b.0), greater(a.1, b.1)))?;
    }
    Ok(Levels {
        value: greater(first.value, second.value),
        levels: Many::of(levels),
    })
}

/// The numbers of a branch, from those of its two sides.
pub fn branched(
    alloc: Global,
    costs: &Costs,
    untaken: &Levels,
    taken: &Levels,
) -> Result<Levels, Fault>
    ensures exact { IfOk result (λ l. numbers_of l ≡ branching costs.now (numbers_of untaken.now) (numbers_of taken.now)) }
    ensures fits { AllSmall (branching costs.now (numbers_of untaken.now) (numbers_of taken.now)) → OnlyMemory result }
{
    let first = after(alloc, costs.cost(Class::Untaken), untaken)?;
    let second = after(alloc, costs.cost(Class::Taken), taken)?;
    let both = dearer(alloc, &first, &second)?;
    Ok(both)
}

/// The first levels.
pub fn first_levels(alloc: Global, levels: &Levels, count: usize) -> Result<Vec<Pair>, Fault>
    ensures exact { IfOk result (λ all. all.items ≡ levels_to (numbers_of levels.now) count) }
    ensures fits { OnlyMemory result }
{
    let mut all = Vec::new(alloc);
    for k in 0..count {
        all.push(level_at(levels, k))?;
    }
    Ok(all)
}
