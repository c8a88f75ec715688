ghost use Rattle.std.specs.Prelude.{◌≡◌, ◌≤◌, ◌∷◌, [], OnOk, OnErr};
ghost use Rattle.pretc_run.specs.Endings.{number_of, line_of};
ghost use Rattle.pretc_run.specs.Writing.{Wrote, BrokeOff, Closes, Answers};

use crate::endings::{Ending, WRITE_FAULT};
use pt_outside::{Failed, Sink};

/// Pushes a line.
pub fn push_line<O: Sink>(line: &[u8], out: &mut O) -> Result<(), Failed>
    ensures wrote { OnOk result (Wrote (O.told out.old) (O.told out.new) (line.now ∷ [])) }
    ensures broke { OnErr result (BrokeOff (O.told out.old) (O.told out.new) [] line.now) }
{
    out.push(line)
}

/// The end of a call, once its lines are written.
pub fn close<O: Sink>(ending: Ending, out: &mut O) -> u8
    ensures closes { Closes (number_of ending) (O.told out.old) (O.told out.new) result }
{
    match out.flush() {
        Ok(()) => ending.number(),
        Err(_) => WRITE_FAULT,
    }
}

/// The end of a call that has this line to print.
pub fn finish_with<O: Sink>(ending: Ending, line: &[u8], out: &mut O) -> u8
    ensures answers { Answers (line.now ∷ []) (number_of ending) (O.told out.old) (O.told out.new) result }
{
    match push_line(line, out) {
        Ok(()) => close(ending, out),
        Err(_) => WRITE_FAULT,
    }
}

/// The end of a call that has the line of its ending to print.
pub fn finish<O: Sink>(ending: Ending, out: &mut O) -> u8
    ensures answers { Answers (line_of ending ∷ []) (number_of ending) (O.told out.old) (O.told out.new) result }
{
    let line = ending.line();
    finish_with(ending, line.bytes(), out)
}
