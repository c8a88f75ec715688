ghost use Rattle.std.specs.Prelude.{◌≡◌, None, length};
ghost use Rattle.mb_core.specs.Machine.{fresh, tick_of};
ghost use Rattle.mb_isa.specs.Run.{run_of};
ghost use Rattle.pt_trace.specs.Report.{greatest};
ghost use Rattle.pretc_run.specs.Told.{told, Ended, AllEnded};
ghost use Rattle.pretc_run.specs.Counted as spec;
ghost use Rattle.pretc_run.specs.Counted.{counted_row, counted_rows, sum_of, Counts};

use crate::running::greater;
use mb_core::Machine;

/// How many ticks a machine does on counted inputs.
pub const COUNTED_TICKS: u64 = 1000;

// The inputs of the ticks are their numbers modulo this one.
const COUNTED_INPUTS: u64 = 10;

/// The sum of the outputs of some ticks, modulo 2^32, and the greatest of their cycles.
#[derive(Clone, Copy)]
pub struct Totals {
    pub sum: i32,
    pub worst: u64,
}

// A sum with more values added, modulo 2^32.
fn added(sum: i32, values: &[i32]) -> i32
    ensures { result ≡ spec.added sum values.now }
{
    let mut total = sum;
    for value in values {
        total = total.wrapping_add(*value);
    }
    total
}

// Does the tick of this number, and counts it in.
fn count_tick(
    machine: &mut Machine,
    row: &mut [i32],
    outputs: &mut [i32],
    most: u64,
    tick: u64,
    totals: Totals,
) -> Totals
    requires inputs { length row.old ≡ length machine.old.image.inputs }
    requires outputs { length outputs.old ≡ length machine.old.image.outputs }
    requires ends { Ended (tick_of machine.old (counted_row (length row.old) tick) most) }
    ensures counts { Counts (tick_of machine.old (counted_row (length row.old) tick) most) machine.old machine.new
        totals result }
    ensures same_row { length row.new ≡ length row.old }
    ensures same_outputs { length outputs.new ≡ length outputs.old }
    ensures same_image { machine.new.image ≡ machine.old.image }
{
    row.fill((tick % COUNTED_INPUTS) as i32);
    match machine.tick(row, outputs, most) {
        Ok(cycles) => Totals {
            sum: added(totals.sum, outputs),
            worst: greater(totals.worst, cycles),
        },
        Err(_) => unreachable!(),
    }
}

/// The totals of a loaded machine over its first 1,000 ticks, where the inputs of tick j are j modulo 10. `row` has a
/// place for each input, and `outputs` for each output; what they hold is of no use. It takes no memory.
pub fn sum_ticks(machine: &mut Machine, row: &mut [i32], outputs: &mut [i32], most: u64) -> Totals
    requires fresh { machine.old ≡ fresh machine.old.image machine.old.costs }
    requires inputs { length row.old ≡ length machine.old.image.inputs }
    requires outputs { length outputs.old ≡ length machine.old.image.outputs }
    requires ended { AllEnded (run_of machine.old.image machine.old.costs most
        (counted_rows (length machine.old.image.inputs) 0 1000)) }
    ensures sum { result.sum ≡ sum_of (told (run_of machine.old.image machine.old.costs most
        (counted_rows (length machine.old.image.inputs) 0 1000))) }
    ensures worst { result.worst ≡ greatest (told (run_of machine.old.image machine.old.costs most
        (counted_rows (length machine.old.image.inputs) 0 1000))) }
{
    let mut totals = Totals { sum: 0, worst: 0 };
    let mut tick = 0;
    'ticks: while tick < COUNTED_TICKS {
        totals = count_tick(machine, row, outputs, most, tick, totals);
        tick += 1;
    }
    totals
}
