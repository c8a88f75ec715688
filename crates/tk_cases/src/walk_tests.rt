//! Walks over small images, worked out by hand. A row has the states, the choices, the most cycles, and the cost.

use mb_isa::{Costs, unit_costs};
use pt_base::{Many, Memory, Text};
use pt_image::Image;
use std::alloc::Global;
use tk_cert::{State, Walk};
use tk_walk::{cost_within, walk_cost};

// It loads its input, adds 1, stores its output, pauses, and goes back.
const COUNTER: &str =
    "ARPRET 1\ncode 5\ne8600000\n30630001\nf8600004\nfc200000\nb800fff0\nmemory 2\n0\n0\ninputs 1\n0\noutputs 1\n1\nslots 1\n0\naborts 0\npauses 1\n3 0 0\nforks 0\n";

// Three turns of a loop, then a pause.
const LOOP: &str =
    "ARPRET 1\ncode 6\nfce00003\nfd000004\n30630001\nb800fff8\nfc200000\nb800ffec\nmemory 0\ninputs 0\noutputs 0\nslots 1\n0\naborts 0\npauses 1\n4 0 0\nforks 0\n";

// A pause inside a loop is refused.
const LOOP_PAUSES: &str =
    "ARPRET 1\ncode 3\nfce00001\nfc200000\nfc400000\nmemory 0\ninputs 0\noutputs 0\nslots 1\n0\naborts 0\npauses 1\n1 0 0\nforks 0\n";

// A branch to itself.
const ENDLESS: &str =
    "ARPRET 1\ncode 1\nb8000000\nmemory 0\ninputs 0\noutputs 0\nslots 1\n0\naborts 0\npauses 0\nforks 0\n";

// A routine that calls itself until no link is free.
const CALLS: &str =
    "ARPRET 1\ncode 4\nfca00002\nfc400000\nfca00002\nfcc00000\nmemory 0\ninputs 0\noutputs 0\nslots 1\n0\naborts 0\npauses 0\nforks 0\n";

// A pause in the last word: the next tick would begin behind the code.
const LAST_WORD: &str =
    "ARPRET 1\ncode 1\nfc200000\nmemory 0\ninputs 0\noutputs 0\nslots 1\n0\naborts 0\npauses 1\n0 0 0\nforks 0\n";

// A branch by a choice.
const BRANCH: &str =
    "ARPRET 1\ncode 3\nbc030008\n30600001\nfc400000\nmemory 0\ninputs 0\noutputs 0\nslots 1\n0\naborts 0\npauses 0\nforks 0\n";

// A branch that leads out of the code where it is taken.
const BRANCH_OUT: &str =
    "ARPRET 1\ncode 2\nbc03fff8\nfc400000\nmemory 0\ninputs 0\noutputs 0\nslots 1\n0\naborts 0\npauses 0\nforks 0\n";

// A branch by 4 bytes with the upper half 0, and an `imm` before a word that takes none.
const UPPER: &str =
    "ARPRET 1\ncode 5\nb0000000\nb8000004\nfc400000\nb0000000\n10000000\nmemory 0\ninputs 0\noutputs 0\nslots 1\n0\naborts 0\npauses 0\nforks 0\n";

// A weak abort: its condition is tested, the pause goes on, and the handler takes over where it fired.
const WEAK: &str =
    "ARPRET 1\ncode 6\nfc600000\nfc200000\nb800fffc\nb800fff4\ne8800000\nfd440000\nmemory 1\n0\ninputs 1\n0\noutputs 0\nslots 1\n0\naborts 1\nw 4 3\npauses 1\n1 0 1 0\nforks 0\n";

// A strong abort round a fork whose child never pauses.
const STRONG: &str =
    "ARPRET 1\ncode 6\nfc600000\nfc000101\nfc800000\nfc400000\nfc400000\nfd400000\nmemory 0\ninputs 0\noutputs 0\nslots 2\n0\n4\naborts 1\ns 5 3\npauses 0\nforks 1\n1 0 1 0\n";

// A strong abort round a child that pauses: where its condition holds, the child is gone.
const STRONG_GROUP: &str =
    "ARPRET 1\ncode 7\nfc600000\nfc000101\nfc800000\nfc400000\nfc200000\nfc400000\nfd400000\nmemory 0\ninputs 0\noutputs 0\nslots 2\n0\n4\naborts 1\ns 6 3\npauses 1\n4 1 0\nforks 1\n1 0 1 0\n";

// A weak abort round a child that pauses again: the group comes to rest, and the handler takes over.
const WEAK_GROUP: &str =
    "ARPRET 1\ncode 7\nfc600000\nfc000101\nfc800000\nfc400000\nfc200000\nb800fffc\nfd400000\nmemory 0\ninputs 0\noutputs 0\nslots 2\n0\n4\naborts 1\nw 6 3\npauses 1\n4 1 0\nforks 1\n1 0 1 0\n";

// Slot 0 starts slots 1 and 2; slot 1 pauses.
const FORKED: &str =
    "ARPRET 1\ncode 7\nfc000102\n30600001\nfc200000\nfc400000\nfc200000\nfc400000\nfc400000\nmemory 0\ninputs 0\noutputs 0\nslots 3\n0\n4\n6\naborts 0\npauses 2\n2 0 0\n4 1 0\nforks 1\n0 0 0\n";

// The groups of two forks meet in slot 2.
const TWICE: &str =
    "ARPRET 1\ncode 6\nfc000102\nfc400000\nfc000201\nfc400000\nfc200000\nfc400000\nmemory 0\ninputs 0\noutputs 0\nslots 3\n0\n2\n4\naborts 0\npauses 1\n4 2 0\nforks 2\n0 0 0\n2 1 0\n";

// Slot 0 waits for slot 2, which waits for slot 1.
const BACKWARDS: &str =
    "ARPRET 1\ncode 6\nfc000201\nfc400000\nfc000101\nfc400000\nfc200000\nfc400000\nmemory 0\ninputs 0\noutputs 0\nslots 3\n0\n4\n2\naborts 0\npauses 1\n4 1 0\nforks 2\n0 0 0\n2 2 0\n";

// A fork is listed where no `fork` word stands.
const NO_FORK: &str =
    "ARPRET 1\ncode 3\nfc200000\nfc400000\nfc400000\nmemory 0\ninputs 0\noutputs 0\nslots 2\n0\n2\naborts 0\npauses 2\n0 0 0\n2 1 0\nforks 1\n0 0 0\n";

// 7 for `eot`, 5 for a branch that is taken and 3 for one that isn't, 1 for all else.
const COSTS: [u8; 22] = [
    1, 1, 1, 1, 1, 1, 1, 1, 5, 3, 1, 7, 1, 1, 1, 1, 1, 1, 1, 1, 1, 1,
];

// The state that a word says.
fn state_of(word: &str) -> State {
    let place = word.get(1..).and_then(|digits| digits.parse::<u32>().ok());
    match place {
        Some(place) => {
            if word.starts_with("p") {
                State::Paused(place)
            } else {
                State::Waiting(place)
            }
        }
        None => {
            if word == "s" {
                State::Start
            } else if word == "e" {
                State::Ended
            } else {
                State::Free
            }
        }
    }
}

fn states_of(alloc: Global, states: &str) -> Result<Many<State>, Memory> {
    let mut said = Vec::new(alloc);
    for word in states.split_whitespace() {
        said.push(state_of(word))?;
    }
    Ok(Many::of(said))
}

fn choices_of(alloc: Global, choices: &str) -> Result<Many<bool>, Memory> {
    let mut chosen = Vec::new(alloc);
    for choice in choices.chars() {
        if choice == '0' || choice == '1' {
            chosen.push(choice == '1')?;
        }
    }
    Ok(Many::of(chosen))
}

// The walk of these states and choices.
fn walk_of(alloc: Global, states: &str, choices: &str) -> Result<Walk, Memory> {
    let states = states_of(alloc, states)?;
    let choices = choices_of(alloc, choices)?;
    Ok(Walk { states, choices })
}

// Whether a row tells the cost.
fn is_told(told: &str, cost: Option<u64>) -> bool {
    match cost {
        None => told == "none",
        Some(cycles) => told.parse::<u64>().ok() == Some(cycles),
    }
}

// Whether a walk costs so. Where the limit is no number there is none.
fn costs_so(image: &Image, costs: &Costs, walk: &Walk, most: &str, told: &str) -> bool {
    let cost = match most.parse::<u64>() {
        Ok(most) => cost_within(image, costs, walk, most),
        Err(_) => walk_cost(image, costs, walk),
    };
    is_told(told, cost)
}

// Whether a row is so.
fn is_so(alloc: Global, image: &Image, costs: &Costs, row: &str) -> Option<bool> {
    let mut fields = row.split(',');
    let (states, choices) = (fields.next()?, fields.next()?);
    let (most, told) = (fields.next()?, fields.next()?);
    let walk = walk_of(alloc, states, choices).ok()?;
    Some(costs_so(image, costs, &walk, most, told))
}

fn image_of(alloc: Global, text: &str) -> Option<Image> {
    let text = Text::of(alloc, text.as_bytes()).ok()?;
    Image::read(alloc, &text).ok()
}

// Whether all rows are so over an image.
fn all_so(alloc: Global, image: &Image, costs: &Costs, rows: &str) -> bool {
    for row in rows.lines() {
        if is_so(alloc, image, costs, row) != Some(true) {
            return false;
        }
    }
    true
}

// Whether all rows are so over an image's text.
fn walks_so(alloc: Global, text: &str, costs: &Costs, rows: &str) -> bool {
    match image_of(alloc, text) {
        None => false,
        Some(image) => all_so(alloc, &image, costs, rows),
    }
}

#[test]
fn walks_of_one_slot(rt: HostRuntime) {
    let alloc = rt.alloc();
    let unit = unit_costs();
    assert!(rt;
        walks_so(
            alloc,
            COUNTER,
            &unit,
            "p3,,1000,8\ns,,1000,7\ne,,1000,3\ne,,3,3\ne,,2,none\nf,,1000,none\nw3,,1000,none\np2,,1000,none\ns f,,1000,none\n,,1000,none\ns,1,1000,none"
        )
    );
    assert!(rt;
        walks_so(
            alloc,
            LOOP,
            &unit,
            "s,,1000,13\np4,,1000,14\ns,,13,13\ns,,12,none"
        )
    );
    assert!(rt; walks_so(alloc, LOOP_PAUSES, &unit, "s,,1000,none\np1,,1000,2"));
    assert!(rt; walks_so(alloc, ENDLESS, &unit, "s,,100000,none\ne,,1,1"));
    assert!(rt; walks_so(alloc, CALLS, &unit, "s,,1000,none"));
    assert!(rt; walks_so(alloc, LAST_WORD, &unit, "s,,1000,2\np0,,1000,none"));
}

#[test]
fn walks_by_choices(rt: HostRuntime) {
    let alloc = rt.alloc();
    let unit = unit_costs();
    assert!(rt;
        walks_so(
            alloc,
            BRANCH,
            &unit,
            "s,1,1000,3\ns,0,1000,4\ns,,1000,none\ns,10,1000,none"
        )
    );
    assert!(rt; walks_so(alloc, BRANCH_OUT, &unit, "s,0,1000,3\ns,1,1000,none"));
    assert!(rt; walks_so(alloc, UPPER, &unit, "s,,1000,4"));
}

#[test]
fn walks_of_aborts(rt: HostRuntime) {
    let alloc = rt.alloc();
    let unit = unit_costs();
    assert!(rt;
        walks_so(
            alloc,
            WEAK,
            &unit,
            "p1,1,1000,9\np1,0,1000,6\np1,,1000,none\np1,11,1000,none\ns,,1000,4"
        )
    );
    assert!(rt;
        walks_so(
            alloc,
            STRONG,
            &unit,
            "s f,,1000,6\nw1 e,1,1000,none\nw1 e,,1000,none\ne f,,1000,1"
        )
    );
    assert!(rt;
        walks_so(
            alloc,
            STRONG_GROUP,
            &unit,
            "s f,,1000,4\nw1 p4,1,1000,3\nw1 p4,0,1000,5\nw1 p4,,1000,none\nw1 p4,10,1000,none\nw1 e,0,1000,none\np1 f,,1000,none"
        )
    );
    assert!(rt; walks_so(alloc, WEAK_GROUP, &unit, "w1 p4,1,1000,5\nw1 p4,0,1000,4"));
}

#[test]
fn walks_of_groups(rt: HostRuntime) {
    let alloc = rt.alloc();
    let unit = unit_costs();
    assert!(rt;
        walks_so(
            alloc,
            FORKED,
            &unit,
            "w0 p4 e,,1000,4\ns f f,,1000,4\np2 f f,,1000,2\nw0 e e,,1000,none\nw0 p4 f,,1000,none\nw0 p4 p4,,1000,none\nw0 p4 s,,1000,none\ne p4 f,,1000,none\np4 f f,,1000,none\np2 e e,,1000,none"
        )
    );
    assert!(rt; walks_so(alloc, TWICE, &unit, "w0 w2 p4,,1000,none\nw0 e p4,,1000,3"));
    assert!(rt;
        walks_so(
            alloc,
            BACKWARDS,
            &unit,
            "w0 p4 w2,,1000,4\ns f f,,1000,none"
        )
    );
    assert!(rt; walks_so(alloc, NO_FORK, &unit, "w0 p2,,1000,none\np0 f,,1000,2"));
}

#[test]
fn walks_by_a_table_of_costs(rt: HostRuntime) {
    let alloc = rt.alloc();
    let costs = Costs::of(&COSTS);
    assert!(rt; walks_so(alloc, COUNTER, &costs, "p3,,-,14\ns,,-,13"));
    assert!(rt; walks_so(alloc, BRANCH, &costs, "s,1,-,7\ns,0,-,6"));
}
