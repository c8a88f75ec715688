ghost use Rattle.std.specs.Prelude.{◌≡◌, Some};
ghost use Rattle.pretc_top.specs.declared.commands.Command.{Command};
ghost use Rattle.pretc_top.specs.Outside.{outside};
ghost use Rattle.pretc_top.specs.Comes.{Comes};

use crate::stages::load_accepted;
use pretc_run::{finish, mean_program};
use pt_base::Text;
use pt_outside::{Shelf, Sink, Source};
use std::alloc::Global;

/// `pretc mean`.
pub fn mean<H: Shelf, I: Source, O: Sink>(
    alloc: Global,
    program: &Text,
    shelf: &mut H,
    input: &mut I,
    out: &mut O,
) -> u8
    ensures comes { Comes (Some (Command.Mean program.now))
        (outside (H.told shelf.old) (I.told input.old) (O.told out.old))
        (outside (H.told shelf.new) (I.told input.new) (O.told out.new)) result }
{
    match load_accepted(alloc, program, shelf) {
        Ok(accepted) => mean_program(alloc, &accepted.typed, input, out),
        Err(ending) => finish(ending, out),
    }
}
