ghost use Rattle.std.specs.Prelude.{◌≡◌, ◌≤◌, length, count_by};
ghost use Rattle.pc_meaning.specs.Moments.{moment};
ghost use Rattle.pc_meaning.specs.Programs.{program_of};
ghost use Rattle.pc_meaning.specs.Runs.{before_ticks};
ghost use Rattle.pc_rules.specs.Judging.{is_input};
ghost use Rattle.pretc_run.specs.Meant.{MeanCallComes};

use crate::closing::finish;
use crate::endings::Ending;
use crate::meaning::mean;
use pc_grammar::{Cell, CellKind, Typed};
use pc_meaning::Meaning;
use pt_outside::{Sink, Source};
use std::alloc::Global;

fn input(cell: &Cell) -> bool
    ensures { result ≡ is_input cell.now }
{
    match cell.kind {
        CellKind::Input => true,
        _ => false,
    }
}

fn inputs(cells: &[Cell]) -> usize
    ensures { result ≡ count_by is_input cells.now }
{
    cells.iter().filter(|cell| input(*cell)).count()
}

// How many inputs a program has.
fn input_count(typed: &Typed) -> usize
    ensures { result ≡ length (program_of typed.now).inputs }
{
    inputs(typed.cells())
}

// Takes the places of the outputs, and reports the meaning.
fn with_outputs<'a, I: Source, O: Sink>(
    alloc: Global,
    meaning: &mut Meaning<'a>,
    row: &mut [i32],
    input: &mut I,
    out: &mut O,
) -> u8
    requires begun { moment meaning.old ≡ before_ticks (program_of meaning.old.typing) }
    requires inputs { length row.old ≡ length (program_of meaning.old.typing).inputs }
    requires few_inputs { length row.old ≤ 64 }
    requires few_outputs { length (program_of meaning.old.typing).outputs ≤ 64 }
    ensures comes { MeanCallComes (program_of meaning.old.typing) (I.told input.old) (I.told input.new)
        (O.told out.old) (O.told out.new) result }
{
    match vec![in alloc; 0; meaning.width()] {
        Ok(mut outputs) => mean(alloc, meaning, row, &mut outputs, input, out),
        Err(_) => finish(Ending::WantOfMemory, out),
    }
}

// Takes the places of the inputs too.
fn with_inputs<'a, I: Source, O: Sink>(
    alloc: Global,
    meaning: &mut Meaning<'a>,
    inputs: usize,
    input: &mut I,
    out: &mut O,
) -> u8
    requires begun { moment meaning.old ≡ before_ticks (program_of meaning.old.typing) }
    requires inputs { inputs ≡ length (program_of meaning.old.typing).inputs }
    requires few_inputs { inputs ≤ 64 }
    requires few_outputs { length (program_of meaning.old.typing).outputs ≤ 64 }
    ensures comes { MeanCallComes (program_of meaning.old.typing) (I.told input.old) (I.told input.new)
        (O.told out.old) (O.told out.new) result }
{
    match vec![in alloc; 0; inputs] {
        Ok(mut row) => with_outputs(alloc, meaning, &mut row, input, out),
        Err(_) => finish(Ending::WantOfMemory, out),
    }
}

/// The report of an accepted program's meaning on a trace, and the end of the call. Where no memory is found for what is
/// taken before the first tick, nothing is read.
pub fn mean_program<I: Source, O: Sink>(
    alloc: Global,
    typed: &Typed,
    input: &mut I,
    out: &mut O,
) -> u8
    requires few_inputs { length (program_of typed.now).inputs ≤ 64 }
    requires few_outputs { length (program_of typed.now).outputs ≤ 64 }
    ensures comes { MeanCallComes (program_of typed.now) (I.told input.old) (I.told input.new)
        (O.told out.old) (O.told out.new) result }
{
    match Meaning::begin(alloc, typed) {
        Ok(mut meaning) => with_inputs(alloc, &mut meaning, input_count(typed), input, out),
        Err(_) => finish(Ending::WantOfMemory, out),
    }
}
