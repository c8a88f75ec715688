ghost use Rattle.std.specs.Prelude.{◌≡◌, Some, IfOk, IfErr, length};
ghost use Rattle.pretc_top.specs.declared.commands.Command.{Command};
ghost use Rattle.pretc_top.specs.Outside.{outside};
ghost use Rattle.pretc_top.specs.Run.{AreSources, SourcesFail, Analyses, Unanalysed, RunReady, RunUnready};
ghost use Rattle.pretc_top.specs.Comes.{Comes};

use crate::certifying::{Certified, certify};
use crate::checking::{costs_of, load_costs};
use crate::executing::{Bounded, load_machine, run};
use crate::stages::{SOURCE_MOST, ending_of, load_text, store_cert, store_image};
use mb_isa::Costs;
use pc_rules::judged;
use pretc_run::{Ending, finish};
use pt_base::Text;
use pt_outside::{Shelf, Sink, Source};
use std::alloc::Global;

// The text of a program, and that of the table of costs where one is named.
#[derive(Drop)]
struct Sources {
    program: Text,
    costs: Option<Text>,
}

// Loads the program and then the table of costs.
fn load_sources<H: Shelf>(
    alloc: Global,
    program: &Text,
    costs: &Text,
    shelf: &mut H,
) -> Result<Sources, Ending>
    ensures loaded { IfOk result (λ s. AreSources program.now costs.now (H.told shelf.old) (H.told shelf.new)
        s.program s.costs) }
    ensures failed { IfErr result (λ e. SourcesFail program.now costs.now (H.told shelf.old) (H.told shelf.new) e) }
{
    let program = match load_text(alloc, program, SOURCE_MOST, shelf) {
        Ok(text) => text,
        Err(ending) => return Err(ending),
    };
    match load_costs(alloc, costs, shelf) {
        Ok(costs) => Ok(Sources { program, costs }),
        Err(ending) => Err(ending),
    }
}

// An image with its certificate, and the costs under which it is accepted.
#[derive(Drop)]
struct Analysed {
    certified: Certified,
    costs: Costs,
}

// What the sources come to.
fn analyse_sources(alloc: Global, sources: &Sources) -> Result<Analysed, Ending>
    ensures analysed { IfOk result (λ a. Analyses sources.now.program sources.now.costs
        a.certified.image a.certified.cert a.costs) }
    ensures failed { IfErr result (λ e. Unanalysed sources.now.program sources.now.costs e) }
{
    let accepted = match judged(alloc, &sources.program) {
        Ok(accepted) => accepted,
        Err(refusal) => return Err(ending_of(refusal)),
    };
    let costs = match costs_of(alloc, &sources.costs) {
        Ok(costs) => costs,
        Err(ending) => return Err(ending),
    };
    match certify(alloc, &accepted.typed, &costs) {
        Ok(certified) => Ok(Analysed { certified, costs }),
        Err(ending) => Err(ending),
    }
}

// All of `run` before its report: image and certificate are stored, and the machine loaded.
fn prepare<H: Shelf>(
    alloc: Global,
    program: &Text,
    costs: &Text,
    image: &Text,
    cert: &Text,
    shelf: &mut H,
) -> Result<Bounded, Ending>
    ensures ready { IfOk result (λ b. RunReady program.now costs.now image.now cert.now (H.told shelf.old) (H.told shelf.new)
        b.machine (length b.row.items) (length b.outputs.items) b.bound) }
    ensures failed { IfErr result (λ e. RunUnready program.now costs.now image.now cert.now
        (H.told shelf.old) (H.told shelf.new) e) }
{
    let sources = match load_sources(alloc, program, costs, shelf) {
        Ok(sources) => sources,
        Err(ending) => return Err(ending),
    };
    let analysed = match analyse_sources(alloc, &sources) {
        Ok(analysed) => analysed,
        Err(ending) => return Err(ending),
    };
    match store_image(alloc, image, &analysed.certified.image, shelf) {
        Ok(()) => {}
        Err(ending) => return Err(ending),
    }
    match store_cert(alloc, cert, &analysed.certified.cert, shelf) {
        Ok(()) => {}
        Err(ending) => return Err(ending),
    }
    let bound = analysed.certified.cert.bound();
    match load_machine(alloc, &analysed.certified.image, &analysed.costs, bound) {
        Ok(bounded) => Ok(bounded),
        Err(_) => Err(Ending::WantOfMemory),
    }
}

/// `pretc run`.
pub fn carry_out<H: Shelf, I: Source, O: Sink>(
    alloc: Global,
    program: &Text,
    costs: &Text,
    image: &Text,
    cert: &Text,
    shelf: &mut H,
    input: &mut I,
    out: &mut O,
) -> u8
    ensures comes { Comes (Some (Command.Run program.now costs.now image.now cert.now))
        (outside (H.told shelf.old) (I.told input.old) (O.told out.old))
        (outside (H.told shelf.new) (I.told input.new) (O.told out.new)) result }
{
    match prepare(alloc, program, costs, image, cert, shelf) {
        Ok(bounded) => run(bounded, input, out),
        Err(ending) => finish(ending, out),
    }
}
