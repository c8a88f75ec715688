ghost use Rattle.std.specs.Prelude.{◌≡◌, ◌≤◌, Some, IfOk, IfErr, length};
ghost use Rattle.mb_isa.specs.Costs.{unit};
ghost use Rattle.mb_core.specs.Machine.{fresh};
ghost use Rattle.pretc_run.specs.Reporting.{ReportComes};
ghost use Rattle.pretc_top.specs.Outside.{outside};
ghost use Rattle.pretc_top.specs.Go.{cycles_most, IsReady, IsUnready};
ghost use Rattle.pretc_top.specs.Comes.{Comes};
ghost use Rattle.pretc_top.specs.declared.commands.Command.{Command};

use crate::stages::{load_image, store_image};
use mb_core::Machine;
use mb_isa::unit_costs;
use pretc_run::{Ending, finish, report};
use pt_base::{Memory, Text};
use pt_image::Image;
use pt_outside::{Shelf, Sink, Source};
use std::alloc::Global;

// The cycles that a tick may take.
const CYCLES_MOST: u64 = 1000000000000;

// A loaded machine, a row for its inputs, and places for its outputs.
#[derive(Drop)]
struct Ready {
    machine: Machine,
    row: Vec<i32>,
    outputs: Vec<i32>,
}

// What running an image takes from memory.
fn load_machine(alloc: Global, image: &Image) -> Result<Ready, Memory>
    ensures machine { IfOk result (λ ready. ready.machine ≡ fresh image.now unit) }
    ensures row { IfOk result (λ ready. length ready.row.items ≡ length image.now.inputs) }
    ensures outputs { IfOk result (λ ready. length ready.outputs.items ≡ length image.now.outputs) }
{
    let machine = Machine::load(alloc, image, &unit_costs())?;
    let row = vec![in alloc; 0; image.inputs().len()]?;
    let outputs = vec![in alloc; 0; image.outputs().len()]?;
    Ok(Ready {
        machine,
        row,
        outputs,
    })
}

// All of `go` before its report: the image is built and stored, and the machine loaded.
fn prepare<H: Shelf>(
    alloc: Global,
    program: &Text,
    name: &Text,
    shelf: &mut H,
) -> Result<Ready, Ending>
    ensures ready { IfOk result (λ r. IsReady program.now name.now (H.told shelf.old) (H.told shelf.new)
        r.machine (length r.row.items) (length r.outputs.items)) }
    ensures failed { IfErr result (λ e. IsUnready program.now name.now (H.told shelf.old) (H.told shelf.new) e) }
{
    let image = match load_image(alloc, program, shelf) {
        Ok(image) => image,
        Err(ending) => return Err(ending),
    };
    match store_image(alloc, name, &image, shelf) {
        Ok(()) => {}
        Err(ending) => return Err(ending),
    }
    match load_machine(alloc, &image) {
        Ok(ready) => Ok(ready),
        Err(_) => Err(Ending::WantOfMemory),
    }
}

// The report of a ready machine.
fn run<I: Source, O: Sink>(ready: Ready, input: &mut I, out: &mut O) -> u8
    requires fresh { ready.machine ≡ fresh ready.machine.image unit }
    requires inputs { length ready.row.items ≡ length ready.machine.image.inputs }
    requires outputs { length ready.outputs.items ≡ length ready.machine.image.outputs }
    requires few_inputs { length ready.machine.image.inputs ≤ 64 }
    requires few_outputs { length ready.machine.image.outputs ≤ 64 }
    ensures comes { ReportComes ready.machine.image unit cycles_most (I.told input.old) (I.told input.new)
        (O.told out.old) (O.told out.new) result }
{
    let mut machine = ready.machine;
    let mut row = ready.row;
    let mut outputs = ready.outputs;
    report(
        &mut machine,
        &mut row,
        &mut outputs,
        CYCLES_MOST,
        input,
        out,
    )
}

/// `pretc go`.
pub fn go<H: Shelf, I: Source, O: Sink>(
    alloc: Global,
    program: &Text,
    name: &Text,
    shelf: &mut H,
    input: &mut I,
    out: &mut O,
) -> u8
    ensures comes { Comes (Some (Command.Go program.now name.now))
        (outside (H.told shelf.old) (I.told input.old) (O.told out.old))
        (outside (H.told shelf.new) (I.told input.new) (O.told out.new)) result }
{
    match prepare(alloc, program, name, shelf) {
        Ok(ready) => run(ready, input, out),
        Err(ending) => finish(ending, out),
    }
}
