//! A5, forks.

ghost use Rattle.std.specs.Prelude.{◌≡◌, ◌<◌, ◌^◌, ◌++◌, ◌≤◌};
ghost use Rattle.std.specs.List.{flat_map, range_with_len};
ghost use Rattle.tk_paths.specs.Acceptance.{fork_ends, fork_handlers, fork_at_level, forks};
ghost use Rattle.tk_shape.specs.Refused.{refused};
ghost use Rattle.tk_judge.specs.Asks.{fork_pauses, forks_at};

use crate::handlers::{Rested, rested_handlers};
use crate::sums::{all_ends, most_paused, plus, rested};
use mb_isa::{Class, Costs};
use pt_image::Image;
use tk_cert::Cert;
use tk_paths::{Side, View, Word};
use tk_shape::{Refusal, at_least, levels_at, number, stack_at, word_at};

// What a fork asks where all children end.
fn fork_ends(
    image: &Image,
    cert: &Cert,
    costs: &Costs,
    place: usize,
    lo: u8,
    count: u8,
    level: usize,
    side: Side,
) -> Option<Refusal>
    requires { place < 65536 }
    ensures { result ≡ refused (fork_ends image.now cert.now costs.now place lo count level side) }
{
    let view = View::On { side, level };
    let cost = u128::from(costs.cost(Class::Fork));
    let ends = all_ends(image, cert, u32::from(lo), u32::from(count));
    let needed = rested(cost, ends, number(cert, view, place + 1));
    at_least(5, place as u32, level, number(cert, view, place), needed)
}

// What the handlers of weak aborts ask where the children come to rest.
fn fork_handlers(
    image: &Image,
    cert: &Cert,
    costs: &Costs,
    place: usize,
    stack: &[u32],
    lo: u8,
    count: u8,
    level: usize,
    side: Side,
) -> Option<Refusal>
    requires { place < 65536 }
    ensures { result ≡ refused (fork_handlers image.now cert.now costs.now place stack.now lo count level side) }
{
    let ask = Rested {
        condition: 5,
        at: place as u32,
        level,
        given: number(cert, View::On { side, level }, place),
        charge: u128::from(costs.cost(Class::Fork)),
        rest: most_paused(image, cert, u32::from(lo), u32::from(count)),
    };
    rested_handlers(image, cert, costs, &ask, side, 0, stack, level)
}

// What a fork asks where its children pause.
fn fork_pauses(
    image: &Image,
    cert: &Cert,
    costs: &Costs,
    place: usize,
    lo: u8,
    count: u8,
    level: usize,
) -> Option<Refusal>
    requires { place < 65536 }
    ensures { result ≡ refused (fork_pauses image.now cert.now costs.now place lo count level) }
{
    let view = View::On {
        side: Side::ToPause,
        level,
    };
    let cost = u128::from(costs.cost(Class::Fork));
    let needed = plus(
        Some(cost),
        most_paused(image, cert, u32::from(lo), u32::from(count)),
    );
    at_least(5, place as u32, level, number(cert, view, place), needed)
}

// What a fork asks at a level.
#[tactic(auto, using(tk_shape::proofs::Refusals::refused_append))]
fn fork_at_level(
    image: &Image,
    cert: &Cert,
    costs: &Costs,
    place: usize,
    stack: &[u32],
    lo: u8,
    count: u8,
    k: usize,
) -> Option<Refusal>
    requires { place < 65536 }
    ensures { result ≡ refused (fork_at_level image.now cert.now costs.now place stack.now lo count k) }
{
    if let Some(refusal) = fork_ends(image, cert, costs, place, lo, count, k, Side::ToPause) {
        return Some(refusal);
    }
    if let Some(refusal) = fork_pauses(image, cert, costs, place, lo, count, k) {
        return Some(refusal);
    }
    if let Some(refusal) = fork_handlers(
        image,
        cert,
        costs,
        place,
        stack,
        lo,
        count,
        k,
        Side::ToPause,
    ) {
        return Some(refusal);
    }
    if let Some(refusal) = fork_ends(image, cert, costs, place, lo, count, k, Side::ToEnd) {
        return Some(refusal);
    }
    fork_handlers(image, cert, costs, place, stack, lo, count, k, Side::ToEnd)
}

// What a fork asks at all levels.
fn fork_levels(
    image: &Image,
    cert: &Cert,
    costs: &Costs,
    place: usize,
    stack: &[u32],
    lo: u8,
    count: u8,
    levels: usize,
) -> Option<Refusal>
    requires { place < 65536 }
    ensures { result ≡ refused (flat_map (fork_at_level image.now cert.now costs.now place stack.now lo count) (range_with_len 0 levels)) }
{
    for level in 0..levels {
        if let Some(refusal) = fork_at_level(image, cert, costs, place, stack, lo, count, level) {
            return Some(refusal);
        }
    }
    None
}

// What a place asks, if its word is a fork.
fn forks_at(image: &Image, cert: &Cert, costs: &Costs, place: usize) -> Option<Refusal>
    requires { place < 65536 }
    ensures { result ≡ refused (forks_at image.now cert.now costs.now place) }
{
    match word_at(image, cert, place) {
        Some(Word::Fork { lo, count }) => fork_levels(
            image,
            cert,
            costs,
            place,
            stack_at(cert, place),
            lo,
            count,
            levels_at(cert, place),
        ),
        _ => None,
    }
}

/// The first refusal of a fork.
pub fn forks(image: &Image, cert: &Cert, costs: &Costs) -> Option<Refusal>
    ensures { result ≡ refused (forks image.now cert.now costs.now) }
{
    image.ranges();
    for place in 0..image.code().len() {
        if let Some(refusal) = forks_at(image, cert, costs, place) {
            return Some(refusal);
        }
    }
    None
}
