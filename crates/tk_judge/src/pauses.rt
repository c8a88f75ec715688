//! A4, pauses.

ghost use Rattle.std.specs.Prelude.{◌≡◌, ◌<◌, ◌^◌, ◌++◌};
ghost use Rattle.std.specs.List.{flat_map, range_with_len};
ghost use Rattle.tk_paths.specs.Acceptance.{pause_at_level, pauses};
ghost use Rattle.tk_shape.specs.Refused.{refused};
ghost use Rattle.tk_judge.specs.Asks.{pauses_at};

use crate::handlers::pause_handlers;
use mb_isa::{Class, Costs};
use pt_image::Image;
use tk_cert::Cert;
use tk_paths::{Side, View, Word};
use tk_shape::{Refusal, at_least, levels_at, number, stack_at, word_at};

// What a pause asks at a level.
#[tactic(auto, using(tk_shape::proofs::Refusals::refused_append))]
fn pause_at_level(
    image: &Image,
    cert: &Cert,
    costs: &Costs,
    place: usize,
    stack: &[u32],
    k: usize,
) -> Option<Refusal>
    requires { place < 65536 }
    ensures { result ≡ refused (pause_at_level image.now cert.now costs.now place stack.now k) }
{
    let to_pause = View::On {
        side: Side::ToPause,
        level: k,
    };
    let cost = u128::from(costs.cost(Class::Eot));
    if let Some(refusal) = at_least(
        4,
        place as u32,
        k,
        number(cert, to_pause, place),
        Some(cost),
    ) {
        return Some(refusal);
    }
    if let Some(refusal) = pause_handlers(
        image,
        cert,
        costs,
        place,
        k,
        Side::ToPause,
        0,
        stack,
        k,
    ) {
        return Some(refusal);
    }
    pause_handlers(image, cert, costs, place, k, Side::ToEnd, 0, stack, k)
}

// What a pause asks at all levels.
fn pause_levels(
    image: &Image,
    cert: &Cert,
    costs: &Costs,
    place: usize,
    stack: &[u32],
    levels: usize,
) -> Option<Refusal>
    requires { place < 65536 }
    ensures { result ≡ refused (flat_map (pause_at_level image.now cert.now costs.now place stack.now) (range_with_len 0 levels)) }
{
    for level in 0..levels {
        if let Some(refusal) = pause_at_level(image, cert, costs, place, stack, level) {
            return Some(refusal);
        }
    }
    None
}

// What a place asks, if its word is a pause.
fn pauses_at(image: &Image, cert: &Cert, costs: &Costs, place: usize) -> Option<Refusal>
    requires { place < 65536 }
    ensures { result ≡ refused (pauses_at image.now cert.now costs.now place) }
{
    match word_at(image, cert, place) {
        Some(Word::Eot) => pause_levels(
            image,
            cert,
            costs,
            place,
            stack_at(cert, place),
            levels_at(cert, place),
        ),
        _ => None,
    }
}

/// The first refusal of a pause.
pub fn pauses(image: &Image, cert: &Cert, costs: &Costs) -> Option<Refusal>
    ensures { result ≡ refused (pauses image.now cert.now costs.now) }
{
    image.ranges();
    for place in 0..image.code().len() {
        if let Some(refusal) = pauses_at(image, cert, costs, place) {
            return Some(refusal);
        }
    }
    None
}
