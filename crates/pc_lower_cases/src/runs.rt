ghost use Rattle.std.specs.Prelude.{IsTrue, IfOk, IfSome};
ghost use Rattle.pc_lower_cases.specs.Ports.{HasPorts};
ghost use Rattle.pc_regs.specs.Placement.{IsPlacement};
ghost use Rattle.pc_regs.specs.Words.{are_written};

use mb_core::Machine;
use mb_isa::{Instr, encode, unit_costs};
use pc_lower::Step;
use pc_regs::{Placement, push_steps};
use pt_base::{Memory, Text};
use pt_image::Image;
use std::alloc::Global;

// How many cycles a tick may take.
const MOST: u64 = 1_000_000;

// The words of steps, a pause, and the way back to the first word.
fn words_of(alloc: Global, placement: Placement, steps: &[Step]) -> Result<Vec<Instr>, Memory>
    requires room { IsPlacement placement }
    requires written { IsTrue (are_written placement steps.now) }
{
    let mut words = Vec::new(alloc);
    push_steps(&mut words, placement, steps)?;
    words.push(Instr::Eot)?;
    let imm = i16::try_from(words.len()).unwrap_or(0).wrapping_mul(-4);
    words.push(Instr::Bri { imm })?;
    Ok(words)
}

// Puts a group of numbers, each on a line, behind a text.
fn push_numbers(
    alloc: Global,
    text: &mut String,
    name: &str,
    numbers: &[i32],
) -> Result<(), Memory> {
    text.push_str(&format!(in alloc; "{} {}\n", name, numbers.len())?)?;
    for number in numbers {
        text.push_str(&format!(in alloc; "{}\n", *number)?)?;
    }
    Ok(())
}

// The text of an image with one slot.
fn text_of(
    alloc: Global,
    words: &[Instr],
    memory: &[i32],
    inputs: &[i32],
    outputs: &[i32],
) -> Result<String, Memory> {
    let mut text = String::new(alloc);
    text.push_str(&format!(in alloc; "ARPRET 1\ncode {}\n", words.len())?)?;
    for word in words {
        text.push_str(&format!(in alloc; "{:08x}\n", encode(word))?)?;
    }
    push_numbers(alloc, &mut text, "memory", memory)?;
    push_numbers(alloc, &mut text, "inputs", inputs)?;
    push_numbers(alloc, &mut text, "outputs", outputs)?;
    push_numbers(alloc, &mut text, "slots", &[0])?;
    let pause = words.len().saturating_sub(2);
    text.push_str(&format!(in alloc; "aborts 0\npauses 1\n{} 0 0\nforks 0\n", pause)?)?;
    Ok(text)
}

/// The machine that does these steps in each tick, on two inputs that are the first cells, with one output that is the third.
/// The cells are the first of these memory words.
pub fn machine_of(
    alloc: Global,
    placement: Placement,
    steps: &[Step],
    memory: &[i32],
) -> Result<Option<Machine>, Memory>
    requires room { IsPlacement placement }
    requires written { IsTrue (are_written placement steps.now) }
    ensures { IfOk result (λ machine. IfSome machine HasPorts) }
{
    let words = words_of(alloc, placement, steps)?;
    let text = text_of(alloc, &words, memory, &[0, 1], &[2])?;
    let text = Text::of(alloc, text.as_str().as_bytes())?;
    let Ok(image) = Image::read(alloc, &text) else {
        return Ok(None);
    };
    if image.inputs().len() != 2 || image.outputs().len() != 1 {
        return Ok(None);
    }
    Ok(Some(Machine::load(alloc, &image, &unit_costs())?))
}

/// What comes of two inputs in a tick.
pub fn comes_of(machine: &mut Machine, first: i32, second: i32) -> Option<i32>
    requires { HasPorts machine.old }
    ensures { HasPorts machine.new }
{
    let mut out = [0];
    if machine.tick(&[first, second], &mut out, MOST).is_err() {
        return None;
    }
    Some(out[0])
}
