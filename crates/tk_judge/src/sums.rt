//! Sums over the children of a fork.

ghost use Rattle.std.specs.Prelude.{◌≡◌, ◌≤◌, ◌<◌, ◌+◌, ◌*◌, ◌^◌, IfSome, Some};
ghost use Rattle.tk_paths.specs.declared.view.Side.TheVariants.{ToPause, ToEnd};
ghost use Rattle.tk_paths.specs.Sums.{plus, greater, or_zero, and_more, all_ends, most, most_paused, resumed_ends, resumed_most};
ghost use Rattle.tk_paths.specs.Sums.{resumed_paused};
ghost use Rattle.tk_paths.specs.Acceptance.{more};
ghost use Rattle.tk_shape.specs.Children.{starting, restarted};
ghost use Rattle.tk_judge.specs.Small.{IsSmall};
ghost use Rattle.tk_judge.specs.Asks.{has_restarted};

use pt_image::Image;
use tk_cert::Cert;
use tk_paths::Side;
use tk_shape::{restarted, starting};

/// A sum, where both numbers are there.
pub fn plus(a: Option<u128>, b: Option<u128>) -> Option<u128>
    requires a { IfSome a (λ x. x ≤ 2 ^ 126) }
    requires b { IfSome b (λ x. x ≤ 2 ^ 120) }
    ensures { result ≡ plus a b }
{
    Some(a? + b?)
}

// The greater of the numbers that are there.
fn greater(a: Option<u128>, b: Option<u128>) -> Option<u128>
    ensures { result ≡ greater a b }
{
    match a {
        None => b,
        Some(a) => match b {
            None => Some(a),
            Some(b) => { if a <= b { Some(b) } else { Some(a) } }
        },
    }
}

// A number, or 0.
fn or_zero(number: Option<u128>) -> u128
    ensures { result ≡ or_zero number }
{
    match number {
        None => 0,
        Some(number) => number,
    }
}

// A number in more bits.
fn wide(number: Option<u64>) -> Option<u128>
    ensures same { result ≡ number }
    ensures small { IsSmall 1 result }
{
    match number {
        None => None,
        Some(number) => Some(u128::from(number)),
    }
}

/// The sum of the numbers to the end, where all are there.
#[tactic(auto, using(crate::proofs::Steps::all_ends_step))]
pub fn all_ends(image: &Image, cert: &Cert, child: u32, count: u32) -> Option<u128>
    requires few { count ≤ 256 }
    requires low { child + count ≤ 2 ^ 20 }
    ensures sum { result ≡ all_ends (starting image.now cert.now) child count }
    ensures small { IsSmall count result }
{
    if count == 0 {
        return Some(0);
    }
    plus(
        wide(starting(image, cert, Side::ToEnd, child)),
        all_ends(image, cert, child + 1, count - 1),
    )
}

/// The greatest sum of one number per child.
#[tactic(auto, using(crate::proofs::Steps::most_step))]
pub fn most(image: &Image, cert: &Cert, child: u32, count: u32) -> Option<u128>
    requires few { count ≤ 256 }
    requires low { child + count ≤ 2 ^ 20 }
    ensures sum { result ≡ most (starting image.now cert.now) child count }
    ensures small { IsSmall count result }
{
    if count == 0 {
        return Some(0);
    }
    let here = greater(
        wide(starting(image, cert, Side::ToPause, child)),
        wide(starting(image, cert, Side::ToEnd, child)),
    );
    plus(here, most(image, cert, child + 1, count - 1))
}

/// The same with at least one of them up to a pause.
#[tactic(auto, using(crate::proofs::Steps::most_paused_step))]
pub fn most_paused(image: &Image, cert: &Cert, child: u32, count: u32) -> Option<u128>
    requires few { count ≤ 256 }
    requires low { child + count ≤ 2 ^ 20 }
    ensures sum { result ≡ most_paused (starting image.now cert.now) child count }
    ensures small { IsSmall count result }
{
    if count == 0 {
        return None;
    }
    let paused = plus(
        wide(starting(image, cert, Side::ToPause, child)),
        most(image, cert, child + 1, count - 1),
    );
    let ended = plus(
        wide(starting(image, cert, Side::ToEnd, child)),
        most_paused(image, cert, child + 1, count - 1),
    );
    greater(paused, ended)
}

// A number and what there is of another.
fn and_more(number: Option<u64>, rest: Option<u128>) -> Option<u128>
    requires { IfSome rest (λ n. n ≤ 2 ^ 120) }
    ensures { result ≡ and_more number rest }
{
    match number {
        None => rest,
        Some(number) => Some(u128::from(number) + or_zero(rest)),
    }
}

/// The sum of all numbers to the end that are there; none where no child has one.
#[tactic(auto, using(crate::proofs::Steps::resumed_ends_step))]
pub fn resumed_ends(cert: &Cert, child: u32, count: u32) -> Option<u128>
    requires few { count ≤ 256 }
    requires low { child + count ≤ 2 ^ 20 }
    ensures sum { result ≡ resumed_ends (restarted cert.now) child count }
    ensures small { IsSmall count result }
{
    if count == 0 {
        return None;
    }
    and_more(
        restarted(cert, Side::ToEnd, child),
        resumed_ends(cert, child + 1, count - 1),
    )
}

// The greatest sum in which each child gives one of its numbers or 0.
#[tactic(auto, using(crate::proofs::Steps::resumed_most_step))]
fn resumed_most(cert: &Cert, child: u32, count: u32) -> u128
    requires few { count ≤ 256 }
    requires low { child + count ≤ 2 ^ 20 }
    ensures sum { result ≡ resumed_most (restarted cert.now) child count }
    ensures small { result ≤ count * 2 ^ 64 }
{
    if count == 0 {
        return 0;
    }
    let here = greater(
        wide(restarted(cert, Side::ToPause, child)),
        wide(restarted(cert, Side::ToEnd, child)),
    );
    or_zero(here) + resumed_most(cert, child + 1, count - 1)
}

/// The same with at least one of them up to a pause.
#[tactic(auto, using(crate::proofs::Steps::resumed_paused_step))]
pub fn resumed_paused(cert: &Cert, child: u32, count: u32) -> Option<u128>
    requires few { count ≤ 256 }
    requires low { child + count ≤ 2 ^ 20 }
    ensures sum { result ≡ resumed_paused (restarted cert.now) child count }
    ensures small { IsSmall count result }
{
    if count == 0 {
        return None;
    }
    let paused = plus(
        wide(restarted(cert, Side::ToPause, child)),
        Some(resumed_most(cert, child + 1, count - 1)),
    );
    let ended = plus(
        Some(or_zero(wide(restarted(cert, Side::ToEnd, child)))),
        resumed_paused(cert, child + 1, count - 1),
    );
    greater(paused, ended)
}

/// Whether one of so many children has a number where it is resumed.
#[tactic(auto, using(crate::proofs::Steps::any_child))]
pub fn has_restarted(cert: &Cert, child: u32, count: u32) -> bool
    requires { child + count ≤ 2 ^ 20 }
    ensures { result ≡ has_restarted cert.now child count }
{
    if count == 0 {
        return false;
    }
    restarted(cert, Side::ToPause, child).is_some()
        || restarted(cert, Side::ToEnd, child).is_some()
        || has_restarted(cert, child + 1, count - 1)
}

/// A charge more than a sum and a number, where both are there.
pub fn rested(charge: u128, rest: Option<u128>, number: Option<u64>) -> Option<u128>
    requires charge { charge ≤ 2 ^ 126 }
    requires rest { IfSome rest (λ n. n ≤ 2 ^ 120) }
    ensures { result ≡ more charge (plus rest number) }
{
    let rest = rest?;
    Some(charge + (rest + u128::from(number?)))
}
