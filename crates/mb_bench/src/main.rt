//! Runs an image for so many ticks and prints what it took: standard input has the number of ticks on its first line and
//! the image behind it; each input is 0. `bench/run` times it beside a plain interpreter.
#![tactic(auto)]

ghost use Rattle.std.specs.Prelude.{◌≡◌, length};

use mb_core::{Machine, Trap};
use mb_isa::unit_costs;
use pt_base::{Memory, Text};
use pt_image::Image;
use std::alloc::Global;
use std::io;

// The cycles that a tick may take.
const MOST: u64 = 1_000_000_000_000;

// The cycles of so many ticks of an image, or the trap that stopped them. Each input is 0.
fn cycles_of(
    machine: &mut Machine,
    inputs: &[i32],
    outputs: &mut [i32],
    ticks: u64,
) -> Result<u64, Trap>
    requires inputs { length inputs.now ≡ length machine.old.image.inputs }
    requires outputs { length outputs.old ≡ length machine.old.image.outputs }
{
    let mut cycles = 0u64;
    for _ in 0..ticks {
        let more = machine.tick(inputs, outputs, MOST)?;
        cycles = cycles.wrapping_add(more);
    }
    Ok(cycles)
}

// The image of a text.
fn image_of(alloc: Global, text: &[u8]) -> Option<Image> {
    let text = Text::of(alloc, text).ok()?;
    Image::read(alloc, &text).ok()
}

// The cycles of so many ticks of an image from its loaded state, or their trap.
fn run(alloc: Global, image: &Image, ticks: u64) -> Result<Result<u64, Trap>, Memory> {
    let mut machine = Machine::load(alloc, image, &unit_costs())?;
    let inputs = vec![in alloc; 0; image.inputs().len()]?;
    let mut outputs = vec![in alloc; 0; image.outputs().len()]?;
    Ok(cycles_of(&mut machine, &inputs, &mut outputs, ticks))
}

// What is told of a run: the number of its ticks and all their cycles, or their trap.
fn line_of(alloc: Global, ticks: u64, did: Result<u64, Trap>) -> Result<String, Memory> {
    match did {
        Ok(cycles) => Ok(format!(in alloc; "ticks {} cycles {}", ticks, cycles)?),
        Err(trap) => Ok(format!(in alloc; "{:?} at {}", trap.kind, trap.at)?),
    }
}

// What is told of an image's text.
fn told(alloc: Global, ticks: u64, text: &[u8]) -> Result<String, Memory> {
    match image_of(alloc, text) {
        None => Ok(format!(in alloc; "no image")?),
        Some(image) => {
            let did = run(alloc, &image, ticks)?;
            line_of(alloc, ticks, did)
        }
    }
}

// The number of ticks on the first line, and the text behind it.
fn split(text: &str) -> (u64, &str) {
    match text.split_once('\n') {
        None => (0, text),
        Some((ticks, image)) => (ticks.parse::<u64>().unwrap_or(0), image),
    }
}

fn main(rt: HostRuntime) -> io::Result<()> {
    let text = io::read_to_string(rt.alloc(), rt.reader())?;
    let (ticks, image) = split(text.as_str());
    match told(rt.alloc(), ticks, image.as_bytes()) {
        Ok(line) => println!(rt; "{line}")?,
        Err(_) => println!(rt; "want of memory")?,
    }
    Ok(())
}
