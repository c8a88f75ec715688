//! The judge.

ghost use Rattle.std.specs.Prelude.{◌≡◌, ◌↔◌, ◌++◌, None};
ghost use Rattle.mb_isa.specs.Tick.{base_of};
ghost use Rattle.tk_cert.specs.Demands.{AllHold};
ghost use Rattle.tk_paths.specs.Sums.{greatest};
ghost use Rattle.tk_paths.specs.Acceptance.{bounded, asks};
ghost use Rattle.tk_shape.specs.Refused.{refused};

use crate::apart::apart;
use crate::edges::edges;
use crate::forks::forks;
use crate::pauses::pauses;
use crate::resuming::resuming;
use mb_isa::Costs;
use pt_image::Image;
use tk_cert::Cert;
use tk_paths::Side;
use tk_shape::{Refusal, Tables, at_least, restarted, shape, starting};

// The greatest of the numbers that are there, or 0.
fn greatest(numbers: &[Option<u64>]) -> u64
    ensures { result ≡ greatest numbers.now }
{
    match numbers {
        [] => 0,
        [None, rest @ ..] => greatest(rest),
        [Some(number), rest @ ..] => {
            let most = greatest(rest);
            if *number <= most { most } else { *number }
        }
    }
}

// What the tick itself is charged.
fn base(image: &Image, costs: &Costs) -> u64
    ensures { result ≡ base_of image.now costs.now }
{
    image.ranges();
    costs.tick(image.inputs().len(), image.outputs().len())
}

// The refusal where the bound doesn't cover the tick itself and each beginning of a tick.
fn bounded(image: &Image, cert: &Cert, costs: &Costs) -> Option<Refusal>
    ensures { result ≡ refused (bounded image.now cert.now costs.now) }
{
    let beginnings = [
        starting(image, cert, Side::ToPause, 0),
        starting(image, cert, Side::ToEnd, 0),
        restarted(cert, Side::ToPause, 0),
        restarted(cert, Side::ToEnd, 0),
    ];
    let needed = u128::from(base(image, costs)) + u128::from(greatest(&beginnings));
    at_least(7, 0, 0, Some(cert.bound()), Some(needed))
}

// The refusal of the first demand that fails.
#[tactic(auto, using(crate::proofs::Judged::asks_are))]
fn first_refusal(image: &Image, cert: &Cert, costs: &Costs) -> Option<Refusal>
    ensures { result ≡ refused (asks image.now cert.now costs.now) }
{
    let tables = Tables::of(image, cert);
    if let Some(refusal) = shape(image, cert, &tables) {
        return Some(refusal);
    }
    if let Some(refusal) = apart(image, cert, &tables) {
        return Some(refusal);
    }
    if let Some(refusal) = edges(image, cert, costs, &tables) {
        return Some(refusal);
    }
    if let Some(refusal) = pauses(image, cert, costs) {
        return Some(refusal);
    }
    if let Some(refusal) = forks(image, cert, costs) {
        return Some(refusal);
    }
    if let Some(refusal) = resuming(image, cert, costs, &tables) {
        return Some(refusal);
    }
    bounded(image, cert, costs)
}

/// The first demand of acceptance that an image, a certificate and a table of costs fail, in the order of `asks`: its condition,
/// its place, its level, what is needed, and the number that is given; none exactly where all demands hold, and then the
/// bound bounds every tick (`tk_paths`).
///
/// Takes no memory, and time about linear in the code, the lines and their levels: what is looked up by place stands in tables
/// of 832 kilobytes on the stack. Of the listed forks at most 63 have children of their own, so the list is gone over at most
/// 64 times for them.
#[tactic(auto, using(crate::proofs::Judged::none_holds))]
pub fn judge(image: &Image, cert: &Cert, costs: &Costs) -> Option<Refusal>
    ensures first { result ≡ refused (asks image.now cert.now costs.now) }
    ensures holds { result ≡ None ↔ AllHold (asks image.now cert.now costs.now) }
{
    first_refusal(image, cert, costs)
}
