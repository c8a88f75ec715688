ghost use Rattle.std.specs.Prelude.{◌≡◌};
ghost use Rattle.pretc_top.specs.Says.{GenEnds};
ghost use Rattle.pretc_top.specs.Comes.{Concludes};

use crate::printing::finish_lines;
use pc_print::generate;
use pretc_run::{Ending, finish};
use pt_outside::Sink;
use std::alloc::Global;

/// `pretc gen`.
pub fn print_generated<O: Sink>(alloc: Global, threads: u32, out: &mut O) -> u8
    ensures concludes { Concludes (GenEnds threads) (O.told out.old) (O.told out.new) result }
{
    match generate(alloc, threads) {
        Ok(text) => finish_lines(text.bytes(), out),
        Err(_) => finish(Ending::WantOfMemory, out),
    }
}
