ghost use Rattle.std.specs.Prelude.{◌≡◌, ◌↔◌, ◌<◌, ◌≤◌, ◌+◌, ◌^◌, ◌≢◌, [], ◌∷◌, IsTrue, length, Some};
ghost use Rattle.std.specs.List.{AllByRecursion};
ghost use Rattle.mb_isa.specs.Candidates.{decoded};
ghost use Rattle.mb_pfu.specs.Rows.{is_ready};
ghost use Rattle.mb_pfu.specs.Tree.{slot_of, watches_of};
ghost use Rattle.mb_pfu.specs.Unit.{is_nested};
ghost use Rattle.tk_walk.specs.Listing.{AreListings};
ghost use Rattle.tk_paths.specs.Walks.{state_of, states_of};
ghost use Rattle.tk_walk.specs.Building.{state_at, is_loose, any_loose, entries, all_entered, IsForkAt, IsBuilding, IsRested, IsBuilt, IsBegun};

use crate::listing::Listing;
use mb_isa::{Instr, decode};
use mb_pfu::{AbortParts, Slot, Unit};
use pt_image::Image;
use tk_cert::State;

// What a walk says of a slot.
fn state_of(slot: Slot) -> State
    ensures { result ≡ state_of slot }
{
    match slot {
        Slot::Free => State::Free,
        Slot::Ready(_) => State::Start,
        Slot::Paused(place) => State::Paused(place),
        Slot::Waiting { at, .. } => State::Waiting(at),
        Slot::Ended => State::Ended,
    }
}

// Whether a slot will go on by itself.
fn is_loose(state: State) -> bool
    ensures { result ≡ is_loose state }
{
    match state {
        State::Free => false,
        State::Start => false,
        State::Paused(_) => true,
        State::Waiting(_) => true,
        State::Ended => false,
    }
}

// The state that a walk says of a slot.
fn state_at(states: &[State], k: usize) -> State
    ensures { result ≡ state_at states.now k }
{
    match states.get(k) {
        None => State::Free,
        Some(state) => *state,
    }
}

// Whether one of so many slots from this one on will go on by itself.
fn any_loose(states: &[State], from: usize, count: usize) -> bool
    requires { from + count < 2 ^ 32 }
    ensures { result ≡ any_loose states.now from count }
{
    for j in 0..count {
        if is_loose(state_at(states, from + j)) {
            return true;
        }
    }
    false
}

// A slot enters the aborts of these lines, one after another.
fn enter_all(unit: &mut Unit, image: &Image, s: u32, stack: &[u32])
    requires ready { IsTrue (is_ready (slot_of s unit.old.tree)) }
    requires links { unit.old.links ≡ [] }
    requires counters { unit.old.counters ≡ [] }
    requires bare { watches_of s unit.old.tree ≡ [] }
    requires few { length stack.now ≤ 8 }
    requires lines { AllByRecursion (λ j. j < length image.now.aborts) stack.now }
    ensures entered { unit.new ≡ record unit.old { tree = all_entered s (entries image.now stack.now) unit.old.tree } }
    ensures ready { IsTrue (is_ready (slot_of s unit.new.tree)) }
{
    for number in stack {
        let line = image.aborts()[*number as usize];
        let parts = AbortParts {
            weak: line.weak,
            cond: line.cond,
            handler: line.handler,
        };
        let _ = unit.enter(s, *number, &parts);
    }
}

// The slots that a `fork` word at a place starts: the first one, and how many; nothing where no such word stands there.
fn fork_at(image: &Image, at: u32) -> Option<(u8, u8)>
    ensures { IsForkAt image.now at result }
{
    match image.code().get(at as usize) {
        None => None,
        Some(word) => match decode(*word) {
            Some(Instr::Fork { lo, count }) => Some((lo, count)),
            _ => None,
        },
    }
}

// A slot pauses at a place that is listed for it.
fn pause_in(
    unit: &mut Unit,
    image: &Image,
    listing: &Listing,
    states: &[State],
    s: u32,
    at: u32,
) -> bool
    requires listing { AreListings image.now listing.now }
    requires ready { IsTrue (is_ready (slot_of s unit.old.tree)) }
    requires building { IsBuilding image.now states.now unit.old }
    requires state { state_at states.now s ≡ State.Paused at }
    ensures { IsRested image.now states.now s unit.old result unit.new }
{
    image.ranges();
    let Some(i) = listing.find_pause(image, at) else {
        return false;
    };
    let point = &image.pauses()[i];
    if point.slot != s {
        return false;
    }
    enter_all(unit, image, s, point.stack.items());
    let _ = unit.pause(s, at);
    true
}

// A slot waits for its group at a place that is listed for it.
fn wait_in(
    unit: &mut Unit,
    image: &Image,
    listing: &Listing,
    states: &[State],
    s: u32,
    at: u32,
) -> bool
    requires listing { AreListings image.now listing.now }
    requires ready { IsTrue (is_ready (slot_of s unit.old.tree)) }
    requires building { IsBuilding image.now states.now unit.old }
    requires state { state_at states.now s ≡ State.Waiting at }
    ensures { IsRested image.now states.now s unit.old result unit.new }
{
    image.ranges();
    let Some(i) = listing.find_fork(image, at) else {
        return false;
    };
    let point = &image.forks()[i];
    if point.slot != s {
        return false;
    }
    let Some((lo, count)) = fork_at(image, at) else {
        return false;
    };
    let from = usize::from(lo);
    let to = from + usize::from(count);
    if image.slots().len() < to {
        return false;
    }
    if !any_loose(states, from, usize::from(count)) {
        return false;
    }
    enter_all(unit, image, s, point.stack.items());
    unit.wait(s, at, u32::from(lo), &image.slots()[from..to])
}

// A slot has ended.
fn end_in(unit: &mut Unit, image: &Image, states: &[State], s: u32) -> bool
    requires ready { IsTrue (is_ready (slot_of s unit.old.tree)) }
    requires building { IsBuilding image.now states.now unit.old }
    requires state { state_at states.now s ≡ State.Ended }
    ensures { IsRested image.now states.now s unit.old result unit.new }
{
    let _ = unit.finish(s);
    true
}

// A slot comes to rest as its state says.
fn rest_in(unit: &mut Unit, image: &Image, listing: &Listing, states: &[State], s: u32) -> bool
    requires listing { AreListings image.now listing.now }
    requires ready { IsTrue (is_ready (slot_of s unit.old.tree)) }
    requires building { IsBuilding image.now states.now unit.old }
    ensures { IsRested image.now states.now s unit.old result unit.new }
{
    match state_at(states, s as usize) {
        State::Free => false,
        State::Start => false,
        State::Paused(at) => pause_in(unit, image, listing, states, s, at),
        State::Waiting(at) => wait_in(unit, image, listing, states, s, at),
        State::Ended => end_in(unit, image, states, s),
    }
}

// Whether two states are the same.
fn are_same(a: State, b: State) -> bool
    ensures { IsTrue result ↔ (a ≡ b) }
{
    a == b
}

// Whether these are the states of a unit's slots.
fn are_states(unit: &Unit, slots: usize, states: &[State]) -> bool
    requires slots { slots ≡ unit.now.slots }
    requires few { slots ≤ 64 }
    ensures { IsTrue result ↔ (states.now ≡ states_of unit.now) }
{
    if states.len() != slots {
        return false;
    }
    for s in 0..states.len() {
        if !are_same(state_at(states, s), state_of(unit.slot(s as u32))) {
            return false;
        }
    }
    true
}

// Each slot comes to rest as its state says, from slot 0 on.
fn build(image: &Image, listing: &Listing, states: &[State]) -> Option<Unit>
    requires listing { AreListings image.now listing.now }
    ensures { IsBuilt image.now states.now result }
{
    image.ranges();
    let mut unit = Unit::begin(image.slots().len() as u32, image.slots()[0]);
    'slots: while let Some(s) = unit.next_job() {
        unit.sound();
        if !rest_in(&mut unit, image, listing, states, s) {
            return None;
        }
    }
    Some(unit)
}

// The first configuration, where slot 0 is at its start.
fn first(image: &Image, states: &[State]) -> Option<Unit>
    requires start { state_at states.now 0 ≡ State.Start }
    ensures { IsBegun image.now states.now result }
{
    image.ranges();
    let unit = Unit::begin(image.slots().len() as u32, image.slots()[0]);
    unit.sound();
    if are_states(&unit, image.slots().len(), states) {
        return Some(unit);
    }
    None
}

// A configuration in which all slots have come to rest.
fn later(image: &Image, listing: &Listing, states: &[State]) -> Option<Unit>
    requires listing { AreListings image.now listing.now }
    requires later { state_at states.now 0 ≢ State.Start }
    ensures { IsBegun image.now states.now result }
{
    image.ranges();
    match build(image, listing, states) {
        None => None,
        Some(unit) => {
            unit.sound();
            if are_states(&unit, image.slots().len(), states) {
                return Some(unit);
            }
            None
        }
    }
}

/// The unit in the configuration that these states say, with nothing fired, aged or due; `None` where they say none.
pub fn begin(image: &Image, listing: &Listing, states: &[State]) -> Option<Unit>
    requires listing { AreListings image.now listing.now }
    ensures { IsBegun image.now states.now result }
{
    match state_at(states, 0) {
        State::Start => first(image, states),
        State::Free => later(image, listing, states),
        State::Paused(_) => later(image, listing, states),
        State::Waiting(_) => later(image, listing, states),
        State::Ended => later(image, listing, states),
    }
}
