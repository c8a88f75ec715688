ghost use Rattle.std.specs.Prelude.{◌≡◌, ◌≤◌, Some, IfOk, IfErr, length};
ghost use Rattle.mb_core.specs.Machine.{fresh};
ghost use Rattle.pretc_top.specs.Outside.{outside};
ghost use Rattle.pretc_top.specs.Exec.{Approves, Unapproved, ExecUnready, ExecReady, BoundedReport};
ghost use Rattle.pretc_top.specs.Comes.{Comes};
ghost use Rattle.pretc_top.specs.declared.commands.Command.{Command};

use crate::checking::{Texts, costs_of, load_all, read_cert, read_image};
use mb_core::Machine;
use mb_isa::Costs;
use pretc_run::{Ending, WRITE_FAULT, finish, push_line, report};
use pt_base::{Memory, Text};
use pt_image::Image;
use pt_outside::{Shelf, Sink, Source};
use pt_trace::{LineBuffer, bound_line};
use std::alloc::Global;
use tk_judge::{Answer, check};

// An image, the costs, and the bound that was accepted.
#[derive(Drop)]
struct Approved {
    image: Image,
    costs: Costs,
    bound: u64,
}

// What the texts come to.
fn approve(alloc: Global, texts: &Texts) -> Result<Approved, Ending>
    ensures approves { IfOk result (λ a. Approves texts.now.image texts.now.cert texts.now.costs a.image a.costs a.bound) }
    ensures failed { IfErr result (λ e. Unapproved texts.now.image texts.now.cert texts.now.costs e) }
{
    let image = match read_image(alloc, &texts.image) {
        Ok(image) => image,
        Err(ending) => return Err(ending),
    };
    let cert = match read_cert(alloc, &texts.cert) {
        Ok(cert) => cert,
        Err(ending) => return Err(ending),
    };
    let costs = match costs_of(alloc, &texts.costs) {
        Ok(costs) => costs,
        Err(ending) => return Err(ending),
    };
    let bound = cert.bound();
    match check(&image, &cert, &costs) {
        Answer::Yes { .. } => Ok(Approved {
            image,
            costs,
            bound,
        }),
        Answer::No {
            condition,
            at,
            level,
            needed,
            given,
        } => Err(Ending::NotAccepted {
            condition,
            at,
            level,
            needed,
            given,
        }),
    }
}

/// A loaded machine, a row for its inputs, places for its outputs, and the greatest charge of a tick.
#[derive(Drop)]
pub struct Bounded {
    pub machine: Machine,
    pub row: Vec<i32>,
    pub outputs: Vec<i32>,
    pub bound: u64,
}

/// What running an image takes from memory.
pub fn load_machine(
    alloc: Global,
    image: &Image,
    costs: &Costs,
    bound: u64,
) -> Result<Bounded, Memory>
    ensures machine { IfOk result (λ b. b.machine ≡ fresh image.now costs.now) }
    ensures row { IfOk result (λ b. length b.row.items ≡ length image.now.inputs) }
    ensures outputs { IfOk result (λ b. length b.outputs.items ≡ length image.now.outputs) }
    ensures bound { IfOk result (λ b. b.bound ≡ bound) }
{
    let machine = Machine::load(alloc, image, costs)?;
    let row = vec![in alloc; 0; image.inputs().len()]?;
    let outputs = vec![in alloc; 0; image.outputs().len()]?;
    Ok(Bounded {
        machine,
        row,
        outputs,
        bound,
    })
}

// All of `exec` before its report.
fn prepare<H: Shelf>(
    alloc: Global,
    image: &Text,
    cert: &Text,
    costs: &Text,
    shelf: &mut H,
) -> Result<Bounded, Ending>
    ensures ready { IfOk result (λ b. ExecReady image.now cert.now costs.now (H.told shelf.old) (H.told shelf.new)
        b.machine (length b.row.items) (length b.outputs.items) b.bound) }
    ensures failed { IfErr result (λ e. ExecUnready image.now cert.now costs.now (H.told shelf.old) (H.told shelf.new) e) }
{
    let texts = match load_all(alloc, image, cert, costs, shelf) {
        Ok(texts) => texts,
        Err(ending) => return Err(ending),
    };
    let approved = match approve(alloc, &texts) {
        Ok(approved) => approved,
        Err(ending) => return Err(ending),
    };
    match load_machine(alloc, &approved.image, &approved.costs, approved.bound) {
        Ok(bounded) => Ok(bounded),
        Err(_) => Err(Ending::WantOfMemory),
    }
}

/// The line of the bound, and the report of the machine.
pub fn run<I: Source, O: Sink>(bounded: Bounded, input: &mut I, out: &mut O) -> u8
    requires fresh { bounded.machine ≡ fresh bounded.machine.image bounded.machine.costs }
    requires inputs { length bounded.row.items ≡ length bounded.machine.image.inputs }
    requires outputs { length bounded.outputs.items ≡ length bounded.machine.image.outputs }
    requires few_inputs { length bounded.machine.image.inputs ≤ 64 }
    requires few_outputs { length bounded.machine.image.outputs ≤ 64 }
    ensures comes { BoundedReport bounded.machine.image bounded.machine.costs bounded.bound (I.told input.old) (I.told input.new)
        (O.told out.old) (O.told out.new) result }
{
    let mut machine = bounded.machine;
    let mut row = bounded.row;
    let mut outputs = bounded.outputs;
    let mut line = LineBuffer::empty();
    bound_line(bounded.bound, &mut line);
    match push_line(line.bytes(), out) {
        Ok(()) => report(
            &mut machine,
            &mut row,
            &mut outputs,
            bounded.bound,
            input,
            out,
        ),
        Err(_) => WRITE_FAULT,
    }
}

/// `pretc exec`.
pub fn exec<H: Shelf, I: Source, O: Sink>(
    alloc: Global,
    image: &Text,
    cert: &Text,
    costs: &Text,
    shelf: &mut H,
    input: &mut I,
    out: &mut O,
) -> u8
    ensures comes { Comes (Some (Command.Exec image.now cert.now costs.now))
        (outside (H.told shelf.old) (I.told input.old) (O.told out.old))
        (outside (H.told shelf.new) (I.told input.new) (O.told out.new)) result }
{
    match prepare(alloc, image, cert, costs, shelf) {
        Ok(bounded) => run(bounded, input, out),
        Err(ending) => finish(ending, out),
    }
}
