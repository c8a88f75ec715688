ghost use Rattle.std.specs.Prelude.{◌≡◌, option_map};
ghost use Rattle.pt_base.specs.Reading.{Gives, many_at};
ghost use Rattle.tk_cert.specs.Reading.{place_at, plain_at, state_at, choice_at, choices_at, walk_at};

use crate::cert::{State, Walk};
use crate::line::TOO_LARGE;
use pt_base::{Many, Unread, count_line, number_then, past};
use std::alloc::Global;

// A place behind a blank with its line feed, and what follows them.
#[tactic(auto, unfolding(crate::specs::Reading::place_at))]
fn place(bytes: &[u8]) -> Option<(u32, &[u8])>
    ensures { option_map (λ x. (x.0, x.1.now)) result ≡ place_at bytes.now }
{
    let rest = past(bytes, b' ')?;
    let (place, rest) = number_then(rest, b'\n', 65_536)?;
    Some((place as u32, rest))
}

// A state whose line ends here, and what follows the line.
fn plain(bytes: &[u8], state: State) -> Option<(State, &[u8])>
    ensures { option_map (λ x. (x.0, x.1.now)) result ≡ plain_at state bytes.now }
{
    let rest = past(bytes, b'\n')?;
    Some((state, rest))
}

// The state on the line at the front, and what follows the line.
#[tactic(auto, unfolding(crate::specs::Reading::state_at))]
fn state(bytes: &[u8]) -> Option<(State, &[u8])>
    ensures { option_map (λ x. (x.0, x.1.now)) result ≡ state_at bytes.now }
{
    match bytes {
        [] => None,
        [first, rest @ ..] => {
            if *first == b'f' {
                return plain(rest, State::Free);
            }
            if *first == b's' {
                return plain(rest, State::Start);
            }
            if *first == b'p' {
                let (at, rest) = place(rest)?;
                return Some((State::Paused(at), rest));
            }
            if *first == b'w' {
                let (at, rest) = place(rest)?;
                return Some((State::Waiting(at), rest));
            }
            if *first == b'e' {
                return plain(rest, State::Ended);
            }
            None
        }
    }
}

// So many states, and what follows them.
fn states(alloc: Global, bytes: &[u8], count: u64) -> Result<(Vec<State>, &[u8]), Unread>
    ensures { Gives (λ x. (x.0.items, x.1.now)) result (many_at state_at count bytes.now) }
{
    let mut values = Vec::new(alloc);
    let mut rest = bytes;
    for _ in 0..count {
        let (value, after) = state(rest).ok_or(Unread::Form)?;
        values.push(value)?;
        rest = after;
    }
    Ok((values, rest))
}

// The choice at the front, and what follows it.
#[tactic(auto, unfolding(crate::specs::Reading::choice_at))]
fn choice(bytes: &[u8]) -> Option<(bool, &[u8])>
    ensures { option_map (λ x. (x.0, x.1.now)) result ≡ choice_at bytes.now }
{
    match bytes {
        [] => None,
        [first, rest @ ..] => {
            if *first == b'0' {
                Some((false, rest))
            } else if *first == b'1' {
                Some((true, rest))
            } else {
                None
            }
        }
    }
}

// So many choices, and what follows them.
fn choice_list(alloc: Global, bytes: &[u8], count: u64) -> Result<(Vec<bool>, &[u8]), Unread>
    ensures { Gives (λ x. (x.0.items, x.1.now)) result (many_at choice_at count bytes.now) }
{
    let mut values = Vec::new(alloc);
    let mut rest = bytes;
    for _ in 0..count {
        let (value, after) = choice(rest).ok_or(Unread::Form)?;
        values.push(value)?;
        rest = after;
    }
    Ok((values, rest))
}

// How many choices there are, the line of them, and what follows it.
#[tactic(auto, unfolding(crate::specs::Reading::choices_at))]
fn choices(alloc: Global, bytes: &[u8]) -> Result<(Vec<bool>, &[u8]), Unread>
    ensures { Gives (λ x. (x.0.items, x.1.now)) result (choices_at bytes.now) }
{
    let (count, rest) = count_line(bytes, b"choices ", 0, TOO_LARGE).ok_or(Unread::Form)?;
    let (choices, rest) = choice_list(alloc, rest, count)?;
    let rest = past(rest, b'\n').ok_or(Unread::Form)?;
    Ok((choices, rest))
}

/// The walk at the front, and what follows it.
#[tactic(auto, unfolding(crate::specs::Reading::walk_at, pt_base::specs::Reading::lines_at))]
pub fn walk_of(alloc: Global, bytes: &[u8]) -> Result<(Walk, &[u8]), Unread>
    ensures { Gives (λ x. (x.0, x.1.now)) result (walk_at bytes.now) }
{
    let (count, rest) = count_line(bytes, b"walk ", 1, 65).ok_or(Unread::Form)?;
    let (states, rest) = states(alloc, rest, count)?;
    let (choices, rest) = choices(alloc, rest)?;
    let walk = Walk {
        states: Many::of(states),
        choices: Many::of(choices),
    };
    Ok((walk, rest))
}
