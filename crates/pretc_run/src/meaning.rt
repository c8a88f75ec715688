ghost use Rattle.std.specs.Prelude.{◌≡◌, ◌≤◌, ◌+◌, ℤ, List, [], Some, None, Ok, length};
ghost use Rattle.pt_trace.specs.Report.{tick_line, ticks_line};
ghost use Rattle.pc_meaning.specs.Moments.{moment};
ghost use Rattle.pc_meaning.specs.Programs.{program_of};
ghost use Rattle.pc_meaning.specs.Runs.{before_ticks};
ghost use Rattle.pretc_run.specs.Meant.{MeanComes};
ghost use Rattle.pretc_run.specs.MeanUnderWay as spec;
ghost use Rattle.pretc_run.specs.MeanUnderWay.{MeanStart, IsMeaning, MeanTickComes, MeanStepComes, MeanRunComes};
ghost use Rattle.pretc_run.specs.UnderWay.{PushComes, SaysLast};

use crate::closing::{close, push_line};
use crate::endings::{Ending, WRITE_FAULT};
use crate::running::say;
use pc_meaning::Meaning;
use pt_outside::{Failed, Sink, Source};
use pt_trace::{LineBuffer, TraceFault, TraceReader, report_line, ticks_line};
use std::alloc::Global;

// Pushes the line of a tick.
fn say_tick<O: Sink>(tick: u64, outputs: &[i32], out: &mut O) -> Result<(), Failed>
    requires few { length outputs.now ≤ 64 }
    ensures { PushComes (tick_line tick outputs.now None) (O.told out.old) (O.told out.new) result }
{
    let mut line = LineBuffer::empty();
    report_line(tick, outputs, None, &mut line);
    push_line(line.bytes(), out)
}

// Pushes the line after the ticks of a meaning whose trace is read to its end.
fn say_ticks<O: Sink>(ticks: u64, out: &mut O) -> Result<Option<Ending>, Failed>
    ensures { SaysLast Ending.Done (ticks_line ticks) (O.told out.old) (O.told out.new) result }
{
    let mut line = LineBuffer::empty();
    ticks_line(ticks, &mut line);
    match push_line(line.bytes(), out) {
        Ok(()) => Ok(Some(Ending::Done)),
        Err(failed) => Err(failed),
    }
}

// How a fault of the trace ends the meaning.
fn ending_of(fault: TraceFault) -> Ending
    ensures { result ≡ spec.ending_of fault }
{
    match fault {
        TraceFault::Refused { rule, line } => Ending::BadTrace { rule, line },
        TraceFault::ReadFault => Ending::ReadFault,
    }
}

// Does the tick on a row, and pushes its line, or that of the want of memory, which ends the meaning.
fn do_tick<'a, O: Sink>(
    alloc: Global,
    meaning: &mut Meaning<'a>,
    row: &[i32],
    outputs: &mut [i32],
    tick: u64,
    out: &mut O,
) -> Result<Option<Ending>, Failed>
    requires outputs { length outputs.old ≡ length (program_of meaning.old.typing).outputs }
    requires few { length outputs.old ≤ 64 }
    ensures comes { MeanTickComes (program_of meaning.old.typing) row.now tick (moment meaning.old) (moment meaning.new)
        (O.told out.old) (O.told out.new) result }
    ensures places { length outputs.new ≡ length outputs.old }
    ensures typing { meaning.new.typing ≡ meaning.old.typing }
{
    match meaning.tick(alloc, row, outputs) {
        Ok(()) => match say_tick(tick, outputs, out) {
            Ok(()) => Ok(None),
            Err(failed) => Err(failed),
        },
        Err(_) => say(Ending::WantOfMemory, out),
    }
}

// Reads the next row, does the tick on it and pushes its line; or pushes the last line of the meaning.
fn step<'a, I: Source, O: Sink>(
    alloc: Global,
    meaning: &mut Meaning<'a>,
    reader: &mut TraceReader,
    row: &mut [i32],
    outputs: &mut [i32],
    input: &mut I,
    out: &mut O,
) -> Result<Option<Ending>, Failed>
    requires width { length row.old ≡ reader.old.width }
    requires outputs { length outputs.old ≡ length (program_of meaning.old.typing).outputs }
    requires few { length outputs.old ≤ 64 }
    requires kept { length reader.old.kept ≤ 2048 }
    ensures comes { (start : MeanStart) (rows : List (List ℤ))
        → IsMeaning start rows meaning.old reader.old (I.told input.old) (O.told out.old)
        → MeanStepComes start rows meaning.new reader.new (I.told input.new) (O.told out.new) result }
    ensures one_more { result ≡ Ok None → reader.new.given ≡ reader.old.given + 1 }
    ensures few_given { reader.new.given ≤ 1000000 }
    ensures few_kept { length reader.new.kept ≤ 2048 }
    ensures same_width { reader.new.width ≡ reader.old.width }
    ensures same_row { length row.new ≡ length row.old }
    ensures same_outputs { length outputs.new ≡ length outputs.old }
    ensures same_typing { meaning.new.typing ≡ meaning.old.typing }
{
    match reader.next(input, row) {
        Ok(true) => {
            let tick = reader.given() - 1;
            do_tick(alloc, meaning, row, outputs, tick, out)
        }
        Ok(false) => say_ticks(reader.given(), out),
        Err(fault) => say(ending_of(fault), out),
    }
}

/// Runs the meaning of a program on a trace: for each row a tick and its line, and then the last line. A row is read
/// only when the line before it is pushed. A tick for which no memory is found ends the run.
///
/// The answer is how the run ended, once all its lines are pushed; `Failed` is that of the sink.
pub fn mean_trace<'a, I: Source, O: Sink>(
    alloc: Global,
    meaning: &mut Meaning<'a>,
    reader: &mut TraceReader,
    row: &mut [i32],
    outputs: &mut [i32],
    input: &mut I,
    out: &mut O,
) -> Result<Ending, Failed>
    requires width { length row.old ≡ reader.old.width }
    requires outputs { length outputs.old ≡ length (program_of meaning.old.typing).outputs }
    requires few { length outputs.old ≤ 64 }
    requires kept { length reader.old.kept ≤ 2048 }
    ensures comes { (start : MeanStart) → IsMeaning start [] meaning.old reader.old (I.told input.old) (O.told out.old)
        → MeanRunComes start (I.told input.new) (O.told out.new) result }
{
    'ticks: loop {
        match step(alloc, meaning, reader, row, outputs, input, out) {
            Ok(None) => {}
            Ok(Some(ending)) => return Ok(ending),
            Err(failed) => return Err(failed),
        }
    }
}

/// The report of a program's meaning on a trace, and the end of the call. `meaning` stands before its first tick; `row`
/// has a place for each input, and `outputs` for each output; what they hold is of no use.
pub fn mean<'a, I: Source, O: Sink>(
    alloc: Global,
    meaning: &mut Meaning<'a>,
    row: &mut [i32],
    outputs: &mut [i32],
    input: &mut I,
    out: &mut O,
) -> u8
    requires begun { moment meaning.old ≡ before_ticks (program_of meaning.old.typing) }
    requires inputs { length row.old ≡ length (program_of meaning.old.typing).inputs }
    requires outputs { length outputs.old ≡ length (program_of meaning.old.typing).outputs }
    requires few_inputs { length row.old ≤ 64 }
    requires few_outputs { length outputs.old ≤ 64 }
    ensures comes { MeanComes (program_of meaning.old.typing) (I.told input.old) (I.told input.new)
        (O.told out.old) (O.told out.new) result }
{
    let mut reader = TraceReader::begin(input, row.len() as u32);
    match mean_trace(alloc, meaning, &mut reader, row, outputs, input, out) {
        Ok(ending) => close(ending, out),
        Err(_) => WRITE_FAULT,
    }
}
