ghost use Rattle.std.specs.Prelude.{◌≡◌, ◌++◌, ◌∷◌, [], OnOk};
ghost use Rattle.pt_base.specs.Spelling.{each, number_text};
ghost use Rattle.tk_cert.specs.Text.{optional_text, level_text, thread_text, routine_text, cond_text, line_text, weight_text, slot_text, state_text, choice_text};

use crate::cert::{Line, State};
use pt_base::{put_list, put_number, put_number_then, put_numbers};
use std::alloc::AllocError;

// Puts a number, or `-` for none, at the end.
#[tactic(auto, using(crate::proofs::Putting::in_order))]
fn put_optional(out: &mut Vec<u8>, value: Option<u64>) -> Result<(), AllocError>
    ensures { OnOk result (out.new.items ≡ out.old.items ++ optional_text value) }
{
    match value {
        Some(value) => put_number(out, value),
        None => {
            out.push(b'-')?;
            Ok(())
        }
    }
}

// Puts the two numbers of a level, each behind a blank, at the end.
#[tactic(auto, using(crate::proofs::Putting::in_order))]
fn put_level(out: &mut Vec<u8>, level: &(Option<u64>, Option<u64>)) -> Result<(), AllocError>
    ensures { OnOk result (out.new.items ≡ out.old.items ++ level_text level.now) }
{
    out.push(b' ')?;
    put_optional(out, level.0)?;
    out.push(b' ')?;
    put_optional(out, level.1)
}

// Puts each level at the end.
#[tactic(auto, using(crate::proofs::Putting::in_order))]
fn put_levels(out: &mut Vec<u8>, levels: &[(Option<u64>, Option<u64>)]) -> Result<(), AllocError>
    ensures { OnOk result (out.new.items ≡ out.old.items ++ each level_text levels.now) }
{
    for level in levels {
        put_level(out, level)?;
    }
    Ok(())
}

// Puts what a thread line says behind its letter at the end.
#[tactic(auto, using(crate::proofs::Putting::in_order))]
fn put_thread(
    out: &mut Vec<u8>,
    slot: u32,
    stack: &[u32],
    loops: &[u32],
    levels: &[(Option<u64>, Option<u64>)],
) -> Result<(), AllocError>
    ensures { OnOk result (out.new.items ≡ out.old.items ++ thread_text slot stack.now loops.now levels.now) }
{
    out.push(b' ')?;
    put_number_then(out, u64::from(slot), b' ')?;
    put_numbers(out, stack, b' ')?;
    put_list(out, loops)?;
    put_levels(out, levels)?;
    out.push(b'\n')?;
    Ok(())
}

// Puts what a routine line says behind its letter at the end.
#[tactic(auto, using(crate::proofs::Putting::in_order))]
fn put_routine(out: &mut Vec<u8>, height: u32, loops: &[u32], value: u64) -> Result<(), AllocError>
    ensures { OnOk result (out.new.items ≡ out.old.items ++ routine_text height loops.now value) }
{
    out.push(b' ')?;
    put_number_then(out, u64::from(height), b' ')?;
    put_numbers(out, loops, b' ')?;
    put_number_then(out, value, b'\n')
}

// Puts a byte and a line feed at the end.
#[tactic(auto, using(crate::proofs::Putting::in_order))]
fn put_byte_line(out: &mut Vec<u8>, byte: u8) -> Result<(), AllocError>
    ensures { OnOk result (out.new.items ≡ out.old.items ++ byte ∷ 10 ∷ []) }
{
    out.push(byte)?;
    out.push(b'\n')?;
    Ok(())
}

// Puts the line of a code place at the end.
#[tactic(auto, using(crate::proofs::Putting::in_order))]
fn put_line(out: &mut Vec<u8>, line: &Line) -> Result<(), AllocError>
    ensures { OnOk result (out.new.items ≡ out.old.items ++ line_text line.now) }
{
    match line {
        Line::Bare => put_byte_line(out, b'-'),
        Line::Thread {
            slot,
            stack,
            loops,
            levels,
        } => {
            out.push(b'T')?;
            put_thread(out, *slot, stack.items(), loops.items(), levels.items())
        }
        Line::Routine {
            height,
            loops,
            value,
        } => {
            out.push(b'R')?;
            put_routine(out, *height, loops.items(), *value)
        }
        Line::Cond { value } => {
            out.push(b'C')?;
            out.push(b' ')?;
            put_number_then(out, *value, b'\n')
        }
    }
}

/// Puts the line of each code place at the end.
#[tactic(auto, using(crate::proofs::Putting::in_order))]
pub fn put_lines(out: &mut Vec<u8>, lines: &[Line]) -> Result<(), AllocError>
    ensures { OnOk result (out.new.items ≡ out.old.items ++ each line_text lines.now) }
{
    for line in lines {
        put_line(out, line)?;
    }
    Ok(())
}

/// Puts the place of each loop and its weight at the end.
#[tactic(auto, using(crate::proofs::Putting::in_order))]
pub fn put_weights(out: &mut Vec<u8>, weights: &[(u32, u64)]) -> Result<(), AllocError>
    ensures { OnOk result (out.new.items ≡ out.old.items ++ each weight_text weights.now) }
{
    for weight in weights {
        put_number_then(out, u64::from(weight.0), b' ')?;
        put_number_then(out, weight.1, b'\n')?;
    }
    Ok(())
}

// Puts the two numbers of a slot at the end.
#[tactic(auto, using(crate::proofs::Putting::in_order))]
fn put_slot(out: &mut Vec<u8>, slot: &(Option<u64>, Option<u64>)) -> Result<(), AllocError>
    ensures { OnOk result (out.new.items ≡ out.old.items ++ slot_text slot.now) }
{
    put_optional(out, slot.0)?;
    out.push(b' ')?;
    put_optional(out, slot.1)?;
    out.push(b'\n')?;
    Ok(())
}

/// Puts the two numbers of each slot at the end.
#[tactic(auto, using(crate::proofs::Putting::in_order))]
pub fn put_slots(out: &mut Vec<u8>, slots: &[(Option<u64>, Option<u64>)]) -> Result<(), AllocError>
    ensures { OnOk result (out.new.items ≡ out.old.items ++ each slot_text slots.now) }
{
    for slot in slots {
        put_slot(out, slot)?;
    }
    Ok(())
}

// Puts a letter, a blank and a place on a line at the end.
#[tactic(auto, using(crate::proofs::Putting::in_order))]
fn put_place(out: &mut Vec<u8>, letter: u8, at: u32) -> Result<(), AllocError>
    ensures { OnOk result (out.new.items ≡ out.old.items ++ letter ∷ 32 ∷ number_text 10 at) }
{
    out.push(letter)?;
    out.push(b' ')?;
    put_number_then(out, u64::from(at), b'\n')
}

// Puts a state at the end.
#[tactic(auto, using(crate::proofs::Putting::in_order))]
fn put_state(out: &mut Vec<u8>, state: State) -> Result<(), AllocError>
    ensures { OnOk result (out.new.items ≡ out.old.items ++ state_text state) }
{
    match state {
        State::Free => put_byte_line(out, b'f'),
        State::Start => put_byte_line(out, b's'),
        State::Paused(at) => put_place(out, b'p', at),
        State::Waiting(at) => put_place(out, b'w', at),
        State::Ended => put_byte_line(out, b'e'),
    }
}

/// Puts each state at the end.
#[tactic(auto, using(crate::proofs::Putting::in_order))]
pub fn put_states(out: &mut Vec<u8>, states: &[State]) -> Result<(), AllocError>
    ensures { OnOk result (out.new.items ≡ out.old.items ++ each state_text states.now) }
{
    for state in states {
        put_state(out, *state)?;
    }
    Ok(())
}

/// Puts each choice at the end.
#[tactic(auto, using(crate::proofs::Putting::in_order))]
pub fn put_choices(out: &mut Vec<u8>, choices: &[bool]) -> Result<(), AllocError>
    ensures { OnOk result (out.new.items ≡ out.old.items ++ each choice_text choices.now) }
{
    for choice in choices {
        out.push(if *choice { b'1' } else { b'0' })?;
    }
    Ok(())
}
