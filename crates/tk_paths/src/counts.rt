//! Cycles, counted up to the most that a tick may take.

ghost use Rattle.std.specs.Prelude.{◌≡◌, ◌≤◌, ◌+◌, ◌*◌, IfOk};
ghost use Rattle.tk_paths.specs.Sums.{plus, greater};
ghost use Rattle.tk_paths.specs.Acceptance.{more};
ghost use Rattle.tk_paths.specs.Walks.{most_cycles};
ghost use Rattle.tk_paths.specs.Faults.{OnlyMemory, IsSmall};

use crate::fault::Fault;

/// The most cycles that a number may come to.
pub const MOST: u64 = 1_000_000_000_000;

/// A sum.
pub fn sum(a: u64, b: u64) -> Result<u64, Fault>
    ensures exact { IfOk result (λ n. n ≡ a + b) }
    ensures fits { a + b ≤ most_cycles → OnlyMemory result }
{
    if a > MOST || b > MOST - a {
        return Err(Fault::TooLarge);
    }
    Ok(a + b)
}

/// A product.
pub fn product(a: u64, b: u64) -> Result<u64, Fault>
    ensures exact { IfOk result (λ n. n ≡ a * b) }
    ensures fits { a * b ≤ most_cycles → OnlyMemory result }
{
    match a.checked_mul(b) {
        None => Err(Fault::TooLarge),
        Some(n) => {
            if n > MOST {
                return Err(Fault::TooLarge);
            }
            Ok(n)
        }
    }
}

/// A sum, where both numbers are there.
pub fn plus(a: Option<u64>, b: Option<u64>) -> Result<Option<u64>, Fault>
    ensures exact { IfOk result (λ o. o ≡ plus a b) }
    ensures fits { IsSmall (plus a b) → OnlyMemory result }
{
    match a {
        None => Ok(None),
        Some(a) => match b {
            None => Ok(None),
            Some(b) => Ok(Some(sum(a, b)?)),
        },
    }
}

/// So much more, where the number is there.
pub fn more(charge: u64, a: Option<u64>) -> Result<Option<u64>, Fault>
    ensures exact { IfOk result (λ o. o ≡ more charge a) }
    ensures fits { IsSmall (more charge a) → OnlyMemory result }
{
    match a {
        None => Ok(None),
        Some(a) => Ok(Some(sum(charge, a)?)),
    }
}

/// The greater of the numbers that are there.
pub fn greater(a: Option<u64>, b: Option<u64>) -> Option<u64>
    ensures { result ≡ greater a b }
{
    match a {
        None => b,
        Some(a) => match b {
            None => Some(a),
            Some(b) => { if a <= b { Some(b) } else { Some(a) } }
        },
    }
}
