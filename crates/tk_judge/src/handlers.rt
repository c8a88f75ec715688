//! What the handlers of aborts ask.

ghost use Rattle.std.specs.Prelude.{◌≡◌, ◌≤◌, ◌<◌, ◌+◌, ◌*◌, ◌^◌, IfSome, length, ◌∷◌, []};
ghost use Rattle.tk_paths.specs.Kinds.{abort_at};
ghost use Rattle.tk_paths.specs.Acceptance.{conditions};
ghost use Rattle.tk_shape.specs.Refused.{refused};
ghost use Rattle.tk_judge.specs.Asks.{if_weak, if_strong, pause_asks, pause_asked, rested_asks, rested_asked, strong_asks, strong_asked};

use crate::sums::rested;
use mb_isa::{Class, Costs};
use pt_image::{AbortLine, Image, Point};
use tk_cert::Cert;
use tk_paths::{Side, View};
use tk_shape::{Refusal, at_least, more, number, restarted, value_at};

// A line of the table of aborts.
fn abort_at(image: &Image, j: u32) -> AbortLine
    ensures { result ≡ abort_at image.now j }
{
    match image.aborts().get(j as usize) {
        None => AbortLine {
            weak: false,
            cond: 0,
            handler: 0,
        },
        Some(line) => *line,
    }
}

// What a handler asks of a pause, where its abort is weak.
fn pause_handler(
    image: &Image,
    cert: &Cert,
    costs: &Costs,
    place: usize,
    k: usize,
    side: Side,
    level: usize,
    j: u32,
) -> Option<Refusal>
    requires { place < 65536 }
    ensures { result ≡ refused (if_weak image.now j (pause_asks image.now cert.now costs.now place k side level)) }
{
    let line = abort_at(image, j);
    if !line.weak {
        return None;
    }
    let handler = number(cert, View::On { side, level }, line.handler as usize);
    let needed = more(u128::from(costs.cost(Class::Eot)), handler);
    at_least(
        4,
        place as u32,
        k,
        number(cert, View::On { side, level: k }, place),
        needed,
    )
}

/// What the handlers of the weak ones of so many aborts ask of a pause; the first has this level.
#[tactic(auto, using(crate::proofs::Firsts::weak_first))]
pub fn pause_handlers(
    image: &Image,
    cert: &Cert,
    costs: &Costs,
    place: usize,
    k: usize,
    side: Side,
    level: usize,
    stack: &[u32],
    count: usize,
) -> Option<Refusal>
    requires place { place < 65536 }
    requires levels { level + count < 2 ^ 64 }
    ensures { result ≡ refused (pause_asked image.now cert.now costs.now place k side level stack.now count) }
{
    match stack {
        [] => None,
        [j, rest @ ..] => {
            if count == 0 {
                return None;
            }
            if let Some(refusal) = pause_handler(image, cert, costs, place, k, side, level, *j) {
                return Some(refusal);
            }
            pause_handlers(
                image,
                cert,
                costs,
                place,
                k,
                side,
                level + 1,
                rest,
                count - 1,
            )
        }
    }
}

/// What asks a number of the handlers of weak aborts after the children of a fork came to rest: the condition, the place, the
/// level, the number, what is charged, and the sum of the children.
#[derive(Clone, Copy)]
pub struct Rested {
    pub condition: u8,
    pub at: u32,
    pub level: usize,
    pub given: Option<u64>,
    pub charge: u128,
    pub rest: Option<u128>,
}

// What a handler asks after the children came to rest, where its abort is weak.
fn rested_handler(
    image: &Image,
    cert: &Cert,
    costs: &Costs,
    ask: &Rested,
    side: Side,
    level: usize,
    j: u32,
) -> Option<Refusal>
    requires charge { ask.now.charge ≤ 2 ^ 126 }
    requires rest { IfSome ask.now.rest (λ n. n ≤ 2 ^ 120) }
    ensures { result ≡ refused (if_weak image.now j (rested_asks image.now cert.now costs.now ask.now side level)) }
{
    let line = abort_at(image, j);
    if !line.weak {
        return None;
    }
    let handler = number(cert, View::On { side, level }, line.handler as usize);
    let needed = rested(ask.charge, ask.rest, handler);
    at_least(ask.condition, ask.at, ask.level, ask.given, needed)
}

/// What the handlers of the weak ones of so many aborts ask after the children came to rest; the first has this level.
#[tactic(auto, using(crate::proofs::Firsts::weak_first))]
pub fn rested_handlers(
    image: &Image,
    cert: &Cert,
    costs: &Costs,
    ask: &Rested,
    side: Side,
    level: usize,
    stack: &[u32],
    count: usize,
) -> Option<Refusal>
    requires charge { ask.now.charge ≤ 2 ^ 126 }
    requires rest { IfSome ask.now.rest (λ n. n ≤ 2 ^ 120) }
    requires levels { level + count < 2 ^ 64 }
    ensures { result ≡ refused (rested_asked image.now cert.now costs.now ask.now side level stack.now count) }
{
    match stack {
        [] => None,
        [j, more @ ..] => {
            if count == 0 {
                return None;
            }
            if let Some(refusal) = rested_handler(image, cert, costs, ask, side, level, *j) {
                return Some(refusal);
            }
            rested_handlers(image, cert, costs, ask, side, level + 1, more, count - 1)
        }
    }
}

// What a handler asks of a slot that is resumed, where its abort is strong.
fn strong_handler(
    image: &Image,
    cert: &Cert,
    costs: &Costs,
    p: &Point,
    side: Side,
    sum: u128,
    level: usize,
    j: u32,
) -> Option<Refusal>
    requires { sum ≤ 2 ^ 120 }
    ensures { result ≡ refused (if_strong image.now j (strong_asks image.now cert.now costs.now p.now side sum level)) }
{
    let line = abort_at(image, j);
    if line.weak {
        return None;
    }
    let handler = number(cert, View::On { side, level }, line.handler as usize);
    at_least(
        6,
        p.at,
        0,
        restarted(cert, side, p.slot),
        more(sum, handler),
    )
}

/// What the handlers of strong aborts ask of a slot that is resumed, after conditions of this sum; the first has this level.
#[tactic(auto, using(crate::proofs::Firsts::strong_first))]
pub fn strong_handlers(
    image: &Image,
    cert: &Cert,
    costs: &Costs,
    p: &Point,
    side: Side,
    sum: u128,
    level: usize,
    stack: &[u32],
) -> Option<Refusal>
    requires sum { sum + length stack.now * 2 ^ 64 ≤ 2 ^ 120 }
    requires levels { level + length stack.now ≤ 8 }
    ensures { result ≡ refused (strong_asked image.now cert.now costs.now p.now side sum level stack.now) }
{
    match stack {
        [] => None,
        [j, rest @ ..] => {
            let after = sum + u128::from(value_at(cert, abort_at(image, *j).cond as usize));
            if let Some(refusal) = strong_handler(image, cert, costs, p, side, after, level, *j) {
                return Some(refusal);
            }
            strong_handlers(image, cert, costs, p, side, after, level + 1, rest)
        }
    }
}

/// The sum of all conditions, after this one.
pub fn conditions(image: &Image, cert: &Cert, costs: &Costs, sum: u128, stack: &[u32]) -> u128
    requires { sum + length stack.now * 2 ^ 64 ≤ 2 ^ 120 }
    ensures sum { result ≡ conditions image.now cert.now costs.now sum stack.now }
    ensures small { result ≤ sum + length stack.now * 2 ^ 64 }
{
    match stack {
        [] => sum,
        [j, rest @ ..] => {
            let after = sum + u128::from(value_at(cert, abort_at(image, *j).cond as usize));
            conditions(image, cert, costs, after, rest)
        }
    }
}
