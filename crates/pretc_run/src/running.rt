ghost use Rattle.std.specs.Prelude.{◌≡◌, ◌≤◌, ◌+◌, ℤ, List, [], Some, None, Ok, max, length};
ghost use Rattle.mb_core.specs.Machine.{tick_of};
ghost use Rattle.pt_trace.specs.Report.{tick_line, worst_line};
ghost use Rattle.pretc_run.specs.Endings.{line_of};
ghost use Rattle.pretc_run.specs.UnderWay.{Start, IsUnderWay, PushComes, SaysLast, TickComes, StepComes, RunComes};

use crate::closing::push_line;
use crate::endings::Ending;
use mb_core::Machine;
use pt_outside::{Failed, Sink, Source};
use pt_trace::{LineBuffer, TraceFault, TraceReader, report_line, worst_line};

/// The greater of two numbers.
pub fn greater(a: u64, b: u64) -> u64
    ensures { result ≡ max a b }
{
    if a < b { b } else { a }
}

/// Pushes the line of an ending, which ends the run.
pub fn say<O: Sink>(ending: Ending, out: &mut O) -> Result<Option<Ending>, Failed>
    ensures { SaysLast ending (line_of ending) (O.told out.old) (O.told out.new) result }
{
    let line = ending.line();
    match push_line(line.bytes(), out) {
        Ok(()) => Ok(Some(ending)),
        Err(failed) => Err(failed),
    }
}

// Pushes the line after the ticks of a run whose trace is read to its end.
fn say_worst<O: Sink>(ticks: u64, worst: u64, out: &mut O) -> Result<Option<Ending>, Failed>
    ensures { SaysLast Ending.Done (worst_line ticks worst) (O.told out.old) (O.told out.new) result }
{
    let mut line = LineBuffer::empty();
    worst_line(ticks, worst, &mut line);
    match push_line(line.bytes(), out) {
        Ok(()) => Ok(Some(Ending::Done)),
        Err(failed) => Err(failed),
    }
}

// Pushes the line of a tick.
fn say_tick<O: Sink>(tick: u64, outputs: &[i32], cycles: u64, out: &mut O) -> Result<(), Failed>
    requires few { length outputs.now ≤ 64 }
    ensures { PushComes (tick_line tick outputs.now (Some cycles)) (O.told out.old) (O.told out.new) result }
{
    let mut line = LineBuffer::empty();
    report_line(tick, outputs, Some(cycles), &mut line);
    push_line(line.bytes(), out)
}

// Does the tick on a row, and pushes its line, or that of its trap, which ends the run.
fn do_tick<O: Sink>(
    machine: &mut Machine,
    row: &[i32],
    outputs: &mut [i32],
    worst: &mut u64,
    most: u64,
    tick: u64,
    out: &mut O,
) -> Result<Option<Ending>, Failed>
    requires inputs { length row.now ≡ length machine.old.image.inputs }
    requires outputs { length outputs.old ≡ length machine.old.image.outputs }
    requires few { length machine.old.image.outputs ≤ 64 }
    ensures comes { TickComes (tick_of machine.old row.now most) tick machine.old machine.new worst.old worst.new
        (O.told out.old) (O.told out.new) result }
    ensures places { length outputs.new ≡ length outputs.old }
    ensures image { machine.new.image ≡ machine.old.image }
{
    match machine.tick(row, outputs, most) {
        Ok(cycles) => {
            *worst = greater(*worst, cycles);
            match say_tick(tick, outputs, cycles, out) {
                Ok(()) => Ok(None),
                Err(failed) => Err(failed),
            }
        }
        Err(trap) => say(Ending::Trapped { at: trap.at, tick }, out),
    }
}

// Reads the next row, does the tick on it and pushes its line; or pushes the last line of the run.
fn step<I: Source, O: Sink>(
    machine: &mut Machine,
    reader: &mut TraceReader,
    row: &mut [i32],
    outputs: &mut [i32],
    worst: &mut u64,
    most: u64,
    input: &mut I,
    out: &mut O,
) -> Result<Option<Ending>, Failed>
    requires width { length row.old ≡ reader.old.width }
    requires inputs { length row.old ≡ length machine.old.image.inputs }
    requires outputs { length outputs.old ≡ length machine.old.image.outputs }
    requires few { length machine.old.image.outputs ≤ 64 }
    requires kept { length reader.old.kept ≤ 2048 }
    ensures comes { (start : Start) (rows : List (List ℤ)) → start.most ≡ most
        → IsUnderWay start rows machine.old reader.old worst.old (I.told input.old) (O.told out.old)
        → StepComes start rows machine.new reader.new worst.new (I.told input.new) (O.told out.new) result }
    ensures one_more { result ≡ Ok None → reader.new.given ≡ reader.old.given + 1 }
    ensures few_given { reader.new.given ≤ 1000000 }
    ensures few_kept { length reader.new.kept ≤ 2048 }
    ensures same_width { reader.new.width ≡ reader.old.width }
    ensures same_row { length row.new ≡ length row.old }
    ensures same_outputs { length outputs.new ≡ length outputs.old }
    ensures same_image { machine.new.image ≡ machine.old.image }
{
    match reader.next(input, row) {
        Ok(true) => {
            let tick = reader.given() - 1;
            do_tick(machine, row, outputs, worst, most, tick, out)
        }
        Ok(false) => say_worst(reader.given(), *worst, out),
        Err(TraceFault::Refused { rule, line }) => say(Ending::BadTrace { rule, line }, out),
        Err(TraceFault::ReadFault) => say(Ending::ReadFault, out),
    }
}

/// Runs a machine on a trace: for each row a tick and its line, and then the last line. A row is read only when the
/// line before it is pushed. It takes no memory.
///
/// The answer is how the run ended, once all its lines are pushed; `Failed` is that of the sink.
pub fn run_trace<I: Source, O: Sink>(
    machine: &mut Machine,
    reader: &mut TraceReader,
    row: &mut [i32],
    outputs: &mut [i32],
    most: u64,
    input: &mut I,
    out: &mut O,
) -> Result<Ending, Failed>
    requires width { length row.old ≡ reader.old.width }
    requires inputs { length row.old ≡ length machine.old.image.inputs }
    requires outputs { length outputs.old ≡ length machine.old.image.outputs }
    requires few { length machine.old.image.outputs ≤ 64 }
    requires kept { length reader.old.kept ≤ 2048 }
    ensures comes { (start : Start) → start.most ≡ most
        → IsUnderWay start [] machine.old reader.old 0 (I.told input.old) (O.told out.old)
        → RunComes start (I.told input.new) (O.told out.new) result }
{
    let mut worst = 0;
    'ticks: loop {
        match step(machine, reader, row, outputs, &mut worst, most, input, out) {
            Ok(None) => {}
            Ok(Some(ending)) => return Ok(ending),
            Err(failed) => return Err(failed),
        }
    }
}
