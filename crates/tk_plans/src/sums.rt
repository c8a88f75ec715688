//! Sums of numbers of places, which are too low for a sum to be too large.

ghost use Rattle.std.specs.Prelude.{◌≡◌, ◌≤◌, ◌<◌, ◌^◌, IfSome};
ghost use Rattle.tk_paths.specs.Sums.{plus};
ghost use Rattle.tk_paths.specs.Acceptance.{more};

/// A sum, where both numbers are there.
pub fn plus(a: Option<u64>, b: Option<u64>) -> Option<u64>
    requires a { IfSome a (λ n. n ≤ 2 ^ 62) }
    requires b { IfSome b (λ n. n ≤ 2 ^ 62) }
    ensures { result ≡ plus a b }
{
    Some(a? + b?)
}

/// So much more, where the number is there.
pub fn more(charge: u64, number: Option<u64>) -> Option<u64>
    requires charge { charge ≤ 2 ^ 62 }
    requires number { IfSome number (λ n. n ≤ 2 ^ 62) }
    ensures { result ≡ more charge number }
{
    Some(charge + number?)
}
