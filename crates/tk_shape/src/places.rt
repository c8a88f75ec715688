//! A1, shape.

ghost use Rattle.std.specs.Prelude.{◌≡◌, ◌<◌, ◌^◌, ◌&&◌, false, [], ◌∷◌, Some, None, take, drop, option_map};
ghost use Rattle.std.specs.List.{list_all, flat_map};
ghost use Rattle.tk_cert.specs.Demands.{shape_demand};
ghost use Rattle.tk_paths.specs.Kinds.{line_at, places_of, word_at, points_at};
ghost use Rattle.tk_paths.specs.Shape.{has_number, is_pause_word, is_fork_word, word_is_shaped, aborts_are_shaped, says_well};
ghost use Rattle.tk_paths.specs.Shape.{line_is_shaped, pause_is_shaped, fork_is_shaped, place_is_shaped, tables_fit, shape};
ghost use Rattle.tk_shape.specs.Calling.{abort_is_shaped, speaks_well, shape_at};
ghost use Rattle.tk_shape.specs.Looking.{AreTables};
ghost use Rattle.std.specs.Option.{option_to_list};
ghost use Rattle.tk_shape.specs.Refused.{refusal_of, refused};

use crate::kinds::{is_cond, is_thread, start_of};
use crate::reading::{instr_at, word_at};
use crate::refusal::Refusal;
use crate::tables::{Tables, fork_at, pause_at};
use crate::words::word_is_shaped;
use mb_isa::Instr;
use pt_image::{Image, Point};
use tk_cert::{Cert, Line};

// Whether an abort of a slot, inside others, is as it may be.
fn abort_is_shaped(image: &Image, cert: &Cert, slot: u32, outside: &[u32], j: u32) -> bool
    ensures { result ≡ abort_is_shaped image.now cert.now slot outside.now j }
{
    match image.aborts().get(j as usize) {
        None => false,
        Some(line) => is_cond(cert, line.cond as usize)
            && is_thread(cert, line.handler as usize, slot, outside, &[]),
    }
}

// Whether the aborts of a slot are as they may be.
#[tactic(auto, using(crate::proofs::Aborts::aborts_past, crate::proofs::Aborts::aborts_at, crate::proofs::Aborts::aborts_end))]
fn aborts_are_shaped(image: &Image, cert: &Cert, slot: u32, stack: &[u32]) -> bool
    ensures { result ≡ aborts_are_shaped image.now cert.now slot [] stack.now }
{
    for depth in 0..stack.len() {
        if !abort_is_shaped(image, cert, slot, &stack[..depth], stack[depth]) {
            return false;
        }
    }
    true
}

// Whether each level has a number.
fn levels_are_shaped(levels: &[(Option<u64>, Option<u64>)]) -> bool
    ensures { result ≡ list_all has_number levels.now }
{
    levels
        .iter()
        .all(|numbers| numbers.0.is_some() || numbers.1.is_some())
}

// Whether what a line says of itself is as it may be.
fn says_well(image: &Image, cert: &Cert, line: &Line) -> bool
    ensures { result ≡ says_well image.now cert.now line.now }
{
    match line {
        Line::Bare => true,
        Line::Thread {
            slot,
            stack,
            levels,
            ..
        } => {
            (*slot as usize) < image.slots().len()
                && aborts_are_shaped(image, cert, *slot, stack.items())
                && levels_are_shaped(levels.items())
        }
        Line::Routine { .. } => true,
        Line::Cond { .. } => true,
    }
}

// Whether a line that says something is shaped.
fn spoken_is_shaped(image: &Image, cert: &Cert, tables: &Tables, place: usize, line: &Line) -> bool
    requires tables { AreTables image.now cert.now tables.now }
    requires place { place < 65536 }
    ensures { result ≡ speaks_well image.now cert.now place line.now }
{
    says_well(image, cert, line)
        && word_is_shaped(
            image,
            cert,
            tables,
            place,
            line,
            word_at(image, cert, place),
        )
}

// Whether the line of a place is shaped.
fn line_is_shaped(image: &Image, cert: &Cert, tables: &Tables, place: usize) -> bool
    requires tables { AreTables image.now cert.now tables.now }
    requires place { place < 65536 }
    ensures { result ≡ line_is_shaped image.now cert.now place (line_at cert.now.lines place) }
{
    match cert.lines().get(place) {
        None => true,
        Some(line) => match line {
            Line::Bare => true,
            Line::Thread { .. } => spoken_is_shaped(image, cert, tables, place, line),
            Line::Routine { .. } => spoken_is_shaped(image, cert, tables, place, line),
            Line::Cond { .. } => spoken_is_shaped(image, cert, tables, place, line),
        },
    }
}

// Whether an instruction is a pause.
fn is_pause(word: Option<Instr>) -> bool
    ensures { result ≡ is_pause_word word }
{
    matches!(word, Some(Instr::Eot))
}

// Whether an instruction is a fork.
fn is_fork(word: Option<Instr>) -> bool
    ensures { result ≡ is_fork_word word }
{
    matches!(word, Some(Instr::Fork { .. }))
}

// Whether a listed pause is shaped.
fn pause_is_shaped(image: &Image, cert: &Cert, p: &Point) -> bool
    ensures { result ≡ pause_is_shaped image.now cert.now p.now }
{
    is_pause(instr_at(image, p.at as usize))
        && is_thread(cert, p.at as usize, p.slot, p.stack.items(), &[])
}

// Whether a listed fork is shaped.
fn fork_is_shaped(image: &Image, cert: &Cert, p: &Point) -> bool
    ensures { result ≡ fork_is_shaped image.now cert.now p.now }
{
    is_fork(instr_at(image, p.at as usize))
        && is_thread(cert, p.at as usize, p.slot, p.stack.items(), &[])
}

// Whether a pause, if there is one, is shaped.
fn pause_passes(image: &Image, cert: &Cert, point: Option<&Point>) -> bool
    ensures { result ≡ list_all (pause_is_shaped image.now cert.now) (option_to_list (option_map (λ p. p.now) point.entry)) }
{
    match point {
        None => true,
        Some(p) => pause_is_shaped(image, cert, p),
    }
}

// Whether the pauses that are listed for a place are shaped.
fn pauses_are_shaped(image: &Image, cert: &Cert, tables: &Tables, place: usize) -> bool
    requires tables { AreTables image.now cert.now tables.now }
    requires place { place < 65536 }
    ensures { result ≡ list_all (pause_is_shaped image.now cert.now) (points_at image.now.pauses place) }
{
    pause_passes(image, cert, pause_at(image, cert, tables, place))
}

// Whether a fork, if there is one, is shaped.
fn fork_passes(image: &Image, cert: &Cert, point: Option<&Point>) -> bool
    ensures { result ≡ list_all (fork_is_shaped image.now cert.now) (option_to_list (option_map (λ p. p.now) point.entry)) }
{
    match point {
        None => true,
        Some(p) => fork_is_shaped(image, cert, p),
    }
}

// Whether the forks that are listed for a place are shaped.
fn forks_are_shaped(image: &Image, cert: &Cert, tables: &Tables, place: usize) -> bool
    requires tables { AreTables image.now cert.now tables.now }
    requires place { place < 65536 }
    ensures { result ≡ list_all (fork_is_shaped image.now cert.now) (points_at image.now.forks place) }
{
    fork_passes(image, cert, fork_at(image, cert, tables, place))
}

// Whether a place is shaped.
fn place_is_shaped(image: &Image, cert: &Cert, tables: &Tables, place: usize) -> bool
    requires tables { AreTables image.now cert.now tables.now }
    requires place { place < 65536 }
    ensures { result ≡ place_is_shaped image.now cert.now place }
{
    pauses_are_shaped(image, cert, tables, place)
        && forks_are_shaped(image, cert, tables, place)
        && line_is_shaped(image, cert, tables, place)
}

// Whether the tables have the sizes of the image, and slot 0 starts in a thread of its own.
fn tables_fit(image: &Image, cert: &Cert) -> bool
    ensures { result ≡ tables_fit image.now cert.now }
{
    cert.lines().len() == image.code().len()
        && cert.slot_bounds().len() == image.slots().len()
        && is_thread(cert, start_of(image, 0), 0, &[], &[])
}

// The refusal of a shape.
fn misshapen(condition: u8, at: usize) -> Refusal
    requires { at < 65536 }
    ensures { result ≡ refusal_of (shape_demand condition at false) }
{
    Refusal {
        condition,
        at: at as u32,
        level: 0,
        needed: 0,
        given: Some(0),
    }
}

/// The refusal of a condition on a shape, where it fails.
pub fn shaped(condition: u8, at: usize, holds: bool) -> Option<Refusal>
    requires { at < 65536 }
    ensures { result ≡ refused (shape_demand condition at holds ∷ []) }
{
    if holds {
        return None;
    }
    Some(misshapen(condition, at))
}

// The refusal where a place isn't shaped.
fn shape_at(image: &Image, cert: &Cert, tables: &Tables, place: usize) -> Option<Refusal>
    requires tables { AreTables image.now cert.now tables.now }
    requires place { place < 65536 }
    ensures { result ≡ refused (shape_demand 1 place (place_is_shaped image.now cert.now place) ∷ []) }
{
    shaped(1, place, place_is_shaped(image, cert, tables, place))
}

// The first refusal of the places' shapes.
fn shape_of_places(image: &Image, cert: &Cert, tables: &Tables) -> Option<Refusal>
    requires { AreTables image.now cert.now tables.now }
    ensures { result ≡ refused (flat_map (shape_at image.now cert.now) (places_of image.now)) }
{
    image.ranges();
    for place in 0..image.code().len() {
        if let Some(refusal) = shape_at(image, cert, tables, place) {
            return Some(refusal);
        }
    }
    None
}

/// The first refusal of the shapes.
#[tactic(auto, using(crate::proofs::Ranges::shape_is))]
pub fn shape(image: &Image, cert: &Cert, tables: &Tables) -> Option<Refusal>
    requires { AreTables image.now cert.now tables.now }
    ensures { result ≡ refused (shape image.now cert.now) }
{
    if let Some(refusal) = shaped(1, 0, tables_fit(image, cert)) {
        return Some(refusal);
    }
    shape_of_places(image, cert, tables)
}
