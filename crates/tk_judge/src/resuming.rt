//! A6, resuming.

ghost use Rattle.std.specs.Prelude.{◌≡◌, ◌≤◌, ◌<◌, ◌^◌, ◌++◌, length, option_map, IfSome};
ghost use Rattle.std.specs.Option.{option_to_list};
ghost use Rattle.std.specs.List.{flat_map};
ghost use Rattle.tk_paths.specs.Kinds.{points_at};
ghost use Rattle.tk_paths.specs.Acceptance.{resumed_strong, pause_resumes, resumed_join, resumed_handlers, fork_resumes, resuming};
ghost use Rattle.tk_shape.specs.Looking.{HasFew, AreTables};
ghost use Rattle.tk_shape.specs.Refused.{refused};
ghost use Rattle.tk_judge.specs.Asks.{if_any, fork_both, resumed_next, resumed_pauses, pause_point, fork_point, fork_to_pause, fork_to_end};
ghost use Rattle.tk_judge.specs.Asks.{resuming_at};

use crate::apart::children_at;
use crate::handlers::{Rested, conditions, rested_handlers, strong_handlers};
use crate::sums::{has_restarted, plus, rested, resumed_ends, resumed_paused};
use mb_isa::Costs;
use pt_image::{Image, Point};
use tk_cert::Cert;
use tk_paths::{Side, View};
use tk_shape::{Refusal, Tables, at_least, fork_at, more, number, pause_at, restarted};

// What the handlers of strong aborts ask of a slot that is resumed.
fn resumed_strong(
    image: &Image,
    cert: &Cert,
    costs: &Costs,
    p: &Point,
    side: Side,
) -> Option<Refusal>
    requires { length p.now.stack ≤ 8 }
    ensures { result ≡ refused (resumed_strong image.now cert.now costs.now p.now side) }
{
    strong_handlers(image, cert, costs, p, side, 0, 0, p.stack.items())
}

// What the sum of all conditions and a number ask.
fn resumed_next(image: &Image, cert: &Cert, costs: &Costs, p: &Point, side: Side) -> Option<Refusal>
    requires { length p.now.stack ≤ 8 }
    ensures { result ≡ refused (resumed_next image.now cert.now costs.now p.now side) }
{
    let stack = p.stack.items();
    let view = View::On {
        side,
        level: stack.len(),
    };
    let sum = conditions(image, cert, costs, 0, stack);
    let needed = more(sum, number(cert, view, p.at as usize + 1));
    at_least(6, p.at, 0, restarted(cert, side, p.slot), needed)
}

// What a slot asks that is resumed at a pause.
#[tactic(auto, using(tk_shape::proofs::Refusals::refused_append))]
fn pause_resumes(
    image: &Image,
    cert: &Cert,
    costs: &Costs,
    p: &Point,
    side: Side,
) -> Option<Refusal>
    requires { length p.now.stack ≤ 8 }
    ensures { result ≡ refused (pause_resumes image.now cert.now costs.now p.now side) }
{
    if let Some(refusal) = resumed_strong(image, cert, costs, p, side) {
        return Some(refusal);
    }
    resumed_next(image, cert, costs, p, side)
}

// What a listed pause asks.
#[tactic(auto, using(tk_shape::proofs::Refusals::refused_append))]
fn pause_point(image: &Image, cert: &Cert, costs: &Costs, p: &Point) -> Option<Refusal>
    requires { length p.now.stack ≤ 8 }
    ensures { result ≡ refused (pause_point image.now cert.now costs.now p.now) }
{
    if let Some(refusal) = pause_resumes(image, cert, costs, p, Side::ToPause) {
        return Some(refusal);
    }
    pause_resumes(image, cert, costs, p, Side::ToEnd)
}

// What a fork asks where its children end.
fn resumed_join(
    image: &Image,
    cert: &Cert,
    costs: &Costs,
    p: &Point,
    lo: u8,
    count: u8,
    side: Side,
) -> Option<Refusal>
    requires { length p.now.stack ≤ 8 }
    ensures { result ≡ refused (resumed_join image.now cert.now costs.now p.now lo count side) }
{
    let stack = p.stack.items();
    let view = View::On {
        side,
        level: stack.len(),
    };
    let sum = conditions(image, cert, costs, 0, stack);
    let ends = resumed_ends(cert, u32::from(lo), u32::from(count));
    let needed = rested(sum, ends, number(cert, view, p.at as usize + 1));
    at_least(6, p.at, 0, restarted(cert, side, p.slot), needed)
}

// What a fork asks where its children pause.
fn resumed_pauses(
    image: &Image,
    cert: &Cert,
    costs: &Costs,
    p: &Point,
    lo: u8,
    count: u8,
) -> Option<Refusal>
    requires { length p.now.stack ≤ 8 }
    ensures { result ≡ refused (resumed_pauses image.now cert.now costs.now p.now lo count) }
{
    let sum = conditions(image, cert, costs, 0, p.stack.items());
    let needed = plus(
        Some(sum),
        resumed_paused(cert, u32::from(lo), u32::from(count)),
    );
    at_least(6, p.at, 0, restarted(cert, Side::ToPause, p.slot), needed)
}

// What the handlers of weak aborts ask where the children come to rest.
fn resumed_handlers(
    image: &Image,
    cert: &Cert,
    costs: &Costs,
    p: &Point,
    lo: u8,
    count: u8,
    side: Side,
) -> Option<Refusal>
    requires { length p.now.stack ≤ 8 }
    ensures { result ≡ refused (resumed_handlers image.now cert.now costs.now p.now lo count side) }
{
    let stack = p.stack.items();
    let ask = Rested {
        condition: 6,
        at: p.at,
        level: 0,
        given: restarted(cert, side, p.slot),
        charge: conditions(image, cert, costs, 0, stack),
        rest: resumed_paused(cert, u32::from(lo), u32::from(count)),
    };
    rested_handlers(image, cert, costs, &ask, side, 0, stack, stack.len())
}

// What a listed fork asks of the number up to a pause.
#[tactic(auto, using(tk_shape::proofs::Refusals::refused_append))]
fn fork_to_pause(
    image: &Image,
    cert: &Cert,
    costs: &Costs,
    p: &Point,
    lo: u8,
    count: u8,
) -> Option<Refusal>
    requires { length p.now.stack ≤ 8 }
    ensures { result ≡ refused (fork_to_pause image.now cert.now costs.now p.now lo count) }
{
    if let Some(refusal) = resumed_strong(image, cert, costs, p, Side::ToPause) {
        return Some(refusal);
    }
    if let Some(refusal) = resumed_join(image, cert, costs, p, lo, count, Side::ToPause) {
        return Some(refusal);
    }
    if let Some(refusal) = resumed_pauses(image, cert, costs, p, lo, count) {
        return Some(refusal);
    }
    resumed_handlers(image, cert, costs, p, lo, count, Side::ToPause)
}

// What a listed fork asks of the number up to the end.
#[tactic(auto, using(tk_shape::proofs::Refusals::refused_append))]
fn fork_to_end(
    image: &Image,
    cert: &Cert,
    costs: &Costs,
    p: &Point,
    lo: u8,
    count: u8,
) -> Option<Refusal>
    requires { length p.now.stack ≤ 8 }
    ensures { result ≡ refused (fork_to_end image.now cert.now costs.now p.now lo count) }
{
    if let Some(refusal) = resumed_strong(image, cert, costs, p, Side::ToEnd) {
        return Some(refusal);
    }
    if let Some(refusal) = resumed_join(image, cert, costs, p, lo, count, Side::ToEnd) {
        return Some(refusal);
    }
    resumed_handlers(image, cert, costs, p, lo, count, Side::ToEnd)
}

// All that a listed fork asks.
#[tactic(auto, using(tk_shape::proofs::Refusals::refused_append))]
fn fork_both(
    image: &Image,
    cert: &Cert,
    costs: &Costs,
    p: &Point,
    lo: u8,
    count: u8,
) -> Option<Refusal>
    requires { length p.now.stack ≤ 8 }
    ensures { result ≡ refused (fork_both image.now cert.now costs.now p.now lo count) }
{
    if let Some(refusal) = fork_to_pause(image, cert, costs, p, lo, count) {
        return Some(refusal);
    }
    fork_to_end(image, cert, costs, p, lo, count)
}

// All that a listed fork asks, where this holds.
fn if_restarted(
    image: &Image,
    cert: &Cert,
    costs: &Costs,
    p: &Point,
    lo: u8,
    count: u8,
    holds: bool,
) -> Option<Refusal>
    requires { length p.now.stack ≤ 8 }
    ensures { result ≡ refused (if_any holds (fork_both image.now cert.now costs.now p.now lo count)) }
{
    if !holds {
        return None;
    }
    fork_both(image, cert, costs, p, lo, count)
}

// What a listed fork asks, if a child has a number where it is resumed.
fn fork_resumes(
    image: &Image,
    cert: &Cert,
    costs: &Costs,
    p: &Point,
    lo: u8,
    count: u8,
) -> Option<Refusal>
    requires { length p.now.stack ≤ 8 }
    ensures { result ≡ refused (fork_resumes image.now cert.now costs.now p.now lo count) }
{
    let holds = has_restarted(cert, u32::from(lo), u32::from(count));
    if_restarted(image, cert, costs, p, lo, count, holds)
}

// What a listed fork asks.
fn fork_point(image: &Image, cert: &Cert, costs: &Costs, place: usize, p: &Point) -> Option<Refusal>
    requires { length p.now.stack ≤ 8 }
    ensures { result ≡ refused (fork_point image.now cert.now costs.now place p.now) }
{
    let children = children_at(image, place);
    fork_resumes(image, cert, costs, p, children.0, children.1)
}

// What a listed pause asks, if there is one.
#[tactic(auto, using(crate::proofs::Points::one_asks))]
fn pause_if(image: &Image, cert: &Cert, costs: &Costs, point: Option<&Point>) -> Option<Refusal>
    requires { IfSome (option_map (λ p. p.now) point) HasFew }
    ensures { result ≡ refused (flat_map (pause_point image.now cert.now costs.now) (option_to_list (option_map (λ p. p.now) point.entry))) }
{
    match point {
        None => None,
        Some(p) => pause_point(image, cert, costs, p),
    }
}

// What a listed fork asks, if there is one.
#[tactic(auto, using(crate::proofs::Points::one_asks))]
fn fork_if(
    image: &Image,
    cert: &Cert,
    costs: &Costs,
    place: usize,
    point: Option<&Point>,
) -> Option<Refusal>
    requires { IfSome (option_map (λ p. p.now) point) HasFew }
    ensures { result ≡ refused (flat_map (fork_point image.now cert.now costs.now place) (option_to_list (option_map (λ p. p.now) point.entry))) }
{
    match point {
        None => None,
        Some(p) => fork_point(image, cert, costs, place, p),
    }
}

// What the pauses that are listed for a place ask.
fn pauses_resume(
    image: &Image,
    cert: &Cert,
    costs: &Costs,
    tables: &Tables,
    place: usize,
) -> Option<Refusal>
    requires tables { AreTables image.now cert.now tables.now }
    requires place { place < 65536 }
    ensures { result ≡ refused (flat_map (pause_point image.now cert.now costs.now) (points_at image.now.pauses place)) }
{
    pause_if(image, cert, costs, pause_at(image, cert, tables, place))
}

// What the forks that are listed for a place ask.
fn forks_resume(
    image: &Image,
    cert: &Cert,
    costs: &Costs,
    tables: &Tables,
    place: usize,
) -> Option<Refusal>
    requires tables { AreTables image.now cert.now tables.now }
    requires place { place < 65536 }
    ensures { result ≡ refused (flat_map (fork_point image.now cert.now costs.now place) (points_at image.now.forks place)) }
{
    fork_if(
        image,
        cert,
        costs,
        place,
        fork_at(image, cert, tables, place),
    )
}

// What the points for a place ask.
#[tactic(auto, using(tk_shape::proofs::Refusals::refused_append))]
fn resuming_at(
    image: &Image,
    cert: &Cert,
    costs: &Costs,
    tables: &Tables,
    place: usize,
) -> Option<Refusal>
    requires tables { AreTables image.now cert.now tables.now }
    requires place { place < 65536 }
    ensures { result ≡ refused (resuming_at image.now cert.now costs.now place) }
{
    if let Some(refusal) = pauses_resume(image, cert, costs, tables, place) {
        return Some(refusal);
    }
    forks_resume(image, cert, costs, tables, place)
}

/// The first refusal where a slot is resumed.
pub fn resuming(image: &Image, cert: &Cert, costs: &Costs, tables: &Tables) -> Option<Refusal>
    requires { AreTables image.now cert.now tables.now }
    ensures { result ≡ refused (resuming image.now cert.now costs.now) }
{
    image.ranges();
    for place in 0..image.code().len() {
        if let Some(refusal) = resuming_at(image, cert, costs, tables, place) {
            return Some(refusal);
        }
    }
    None
}
