ghost use Rattle.std.specs.Prelude.{◌≡◌, ◌≤◌, length};
ghost use Rattle.mb_core.specs.Machine.{fresh};
ghost use Rattle.pretc_run.specs.Reporting.{ReportComes};

use crate::closing::close;
use crate::endings::WRITE_FAULT;
use crate::running::run_trace;
use mb_core::Machine;
use pt_outside::{Sink, Source};
use pt_trace::TraceReader;

/// The report of a loaded machine on a trace, and the end of the call. `row` has a place for each input, and `outputs`
/// for each output; what they hold is of no use.
pub fn report<I: Source, O: Sink>(
    machine: &mut Machine,
    row: &mut [i32],
    outputs: &mut [i32],
    most: u64,
    input: &mut I,
    out: &mut O,
) -> u8
    requires fresh { machine.old ≡ fresh machine.old.image machine.old.costs }
    requires inputs { length row.old ≡ length machine.old.image.inputs }
    requires outputs { length outputs.old ≡ length machine.old.image.outputs }
    requires few_inputs { length machine.old.image.inputs ≤ 64 }
    requires few_outputs { length machine.old.image.outputs ≤ 64 }
    ensures comes { ReportComes machine.old.image machine.old.costs most (I.told input.old) (I.told input.new)
        (O.told out.old) (O.told out.new) result }
{
    let mut reader = TraceReader::begin(input, row.len() as u32);
    match run_trace(machine, &mut reader, row, outputs, most, input, out) {
        Ok(ending) => close(ending, out),
        Err(_) => WRITE_FAULT,
    }
}
