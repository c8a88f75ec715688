//! Sums over the children of a fork, of the numbers with which slots start.

ghost use Rattle.std.specs.Prelude.{◌≡◌, ◌≤◌, ◌+◌, ◌-◌, IfOk};
ghost use Rattle.tk_paths.specs.declared.view.Side.TheVariants.{ToPause, ToEnd};
ghost use Rattle.tk_paths.specs.Sums.{all_ends as the_all_ends, most_paused as the_most_paused, resumed_most};
ghost use Rattle.tk_paths.specs.Walks.{most_cycles};
ghost use Rattle.tk_paths.specs.Faults.{OnlyMemory};
ghost use Rattle.tk_paths.specs.Programs.{pair_from};

use tk_paths::{Fault, Pair, greater, plus};

// The numbers with which a slot starts, where these are those of the slots from the first on.
fn start_of(first: u32, starts: &[Pair], slot: usize) -> Pair
    ensures pause { result.0 ≡ pair_from first starts.now ToPause slot }
    ensures end { result.1 ≡ pair_from first starts.now ToEnd slot }
{
    match starts.get(slot.saturating_sub(first as usize)) {
        None => (None, None),
        Some(pair) => *pair,
    }
}

/// The sum of the cycles up to their ends of so many slots from `low` on, where all of them can end.
pub fn all_ends(first: u32, starts: &[Pair], low: u32, count: u32) -> Result<Option<u64>, Fault>
    ensures exact { IfOk result (λ sum. sum ≡ the_all_ends (pair_from first starts.now) low count) }
    ensures fits { resumed_most (pair_from first starts.now) low count ≤ most_cycles → OnlyMemory result }
{
    let mut total = Some(0);
    let mut left = count as usize;
    while left > 0 {
        left -= 1;
        let pair = start_of(first, starts, low as usize + left);
        total = plus(pair.1, total)?;
    }
    Ok(total)
}

/// The greatest sum of one number for each of so many slots, at least one of them up to a pause.
pub fn most_paused(first: u32, starts: &[Pair], low: u32, count: u32) -> Result<Option<u64>, Fault>
    ensures exact { IfOk result (λ sum. sum ≡ the_most_paused (pair_from first starts.now) low count) }
    ensures fits { resumed_most (pair_from first starts.now) low count ≤ most_cycles → OnlyMemory result }
{
    let mut most = Some(0);
    let mut paused = None;
    let mut left = count as usize;
    while left > 0 {
        left -= 1;
        let pair = start_of(first, starts, low as usize + left);
        let here = plus(pair.0, most)?;
        let later = plus(pair.1, paused)?;
        paused = greater(here, later);
        most = plus(greater(pair.0, pair.1), most)?;
    }
    Ok(paused)
}
