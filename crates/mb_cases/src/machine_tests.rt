//! The machine beside the slow one, on drawn images.

ghost use Rattle.std.specs.Prelude.{◌≡◌, None, length};

use crate::drawn_images::drawn_file;
use crate::draws::Draws;
use crate::slow_machine::SlowMachine;
use mb_core::Machine;
use mb_isa::Costs;
use pt_base::{Memory, Text};
use pt_image::Image;
use std::alloc::Global;
use std::test::Fail;

// Each class has another cost.
const COSTS: [u8; 22] = [
    1, 2, 3, 4, 5, 6, 7, 8, 9, 10, 11, 12, 13, 14, 15, 16, 17, 18, 19, 20, 21, 22,
];

// How many ticks of each image are run.
const TICKS: u32 = 8;

fn drawn_inputs(draws: &mut Draws) -> [i32; 2] {
    let first = i32::from(draws.next(3) == 0);
    let second = i32::from(draws.next(3) == 0);
    [first, second]
}

// Whether the six slots of both machines do the same.
fn same_slots(machine: &Machine, slow: &SlowMachine) -> bool
    requires slots { length machine.now.image.slots ≡ 6 }
    requires going { machine.now.trap ≡ None }
{
    for s in 0..6 {
        if machine.slot(s) != slow.slot(s) {
            return false;
        }
    }
    true
}

// Whether ticks go alike on both machines, up to so many or to a trap.
fn ticks_alike(
    machine: &mut Machine,
    slow: &mut SlowMachine,
    image: &Image,
    most: u64,
    draws: &mut Draws,
) -> bool
    requires image { machine.old.image ≡ image.now }
    requires inputs { length image.now.inputs ≡ 2 }
    requires outputs { length image.now.outputs ≡ 2 }
    requires slots { length image.now.slots ≡ 6 }
{
    let costs = Costs::of(&COSTS);
    for _ in 0..TICKS {
        let inputs = drawn_inputs(draws);
        let mut outputs = [0; 2];
        let did = machine.tick(&inputs, &mut outputs, most);
        if did != slow.tick(image, &costs, &inputs, most) {
            return false;
        }
        if did.is_err() {
            return true;
        }
        if !slow.gives(image, &outputs) || !same_slots(machine, slow) {
            return false;
        }
    }
    true
}

// Whether a drawn image goes alike on both machines.
fn alike(alloc: Global, image: &Image, draws: &mut Draws) -> Result<bool, Memory> {
    if image.inputs().len() != 2 || image.outputs().len() != 2 || image.slots().len() != 6 {
        return Ok(false);
    }
    let mut machine = Machine::load(alloc, image, &Costs::of(&COSTS))?;
    let mut slow = SlowMachine::load(image);
    let most = if draws.next(8) == 0 { 300 } else { 20_000 };
    Ok(ticks_alike(&mut machine, &mut slow, image, most, draws))
}

// Whether the next drawn image is in form and goes alike on both machines.
fn next_alike(alloc: Global, draws: &mut Draws) -> Result<bool, Memory> {
    let file = Text::of(alloc, drawn_file(alloc, draws)?.as_bytes())?;
    match Image::read(alloc, &file) {
        Err(_) => Ok(false),
        Ok(image) => alike(alloc, &image, draws),
    }
}

// How many of so many drawn images are in form and go alike on both machines.
fn count_alike(alloc: Global, seed: u32, images: u32) -> Result<u32, Memory> {
    let mut draws = Draws::from(seed);
    let mut count = 0u32;
    for _ in 0..images {
        if next_alike(alloc, &mut draws)? {
            count = count.wrapping_add(1);
        }
    }
    Ok(count)
}

#[test]
fn a_slow_machine_does_the_same(rt: HostRuntime) -> Result<(), Fail> {
    assert_eq!(rt; count_alike(rt.alloc(), 1, 200)?, 200);
    Ok(())
}
