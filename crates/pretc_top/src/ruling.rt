ghost use Rattle.std.specs.Prelude.{◌∷◌, []};
ghost use Rattle.pc_rules.specs.Verdicts.{BreaksFirst};
ghost use Rattle.pretc_top.specs.Says.{SaysEnds, IsRuled};
ghost use Rattle.pretc_top.specs.Comes.{Concludes};

use crate::saying::{Saying, said};
use crate::stages::load_accepted;
use pretc_run::{Ending, finish_with};
use pt_base::Text;
use pt_outside::{Shelf, Sink};
use pt_trace::{LineBuffer, accepted_line};
use std::alloc::Global;

// What the rules say of a loaded program: its sizes, if it keeps them all.
fn ruled<H: Shelf>(alloc: Global, program: &Text, shelf: &mut H) -> Saying
    ensures ends { SaysEnds BreaksFirst IsRuled program.now (H.told shelf.old) (H.told shelf.new)
        (result.line ∷ []) result.ending }
{
    let accepted = match load_accepted(alloc, program, shelf) {
        Ok(accepted) => accepted,
        Err(ending) => return said(ending),
    };
    let sizes = accepted.sizes;
    let mut line = LineBuffer::empty();
    accepted_line(
        sizes.threads,
        sizes.cell_words,
        sizes.weight,
        sizes.passage,
        &mut line,
    );
    Saying {
        ending: Ending::Done,
        line,
    }
}

/// `pretc rules`.
pub fn rules_of_program<H: Shelf, O: Sink>(
    alloc: Global,
    program: &Text,
    shelf: &mut H,
    out: &mut O,
) -> u8
    ensures concludes { Concludes (SaysEnds BreaksFirst IsRuled program.now (H.told shelf.old) (H.told shelf.new))
        (O.told out.old) (O.told out.new) result }
{
    let said = ruled(alloc, program, shelf);
    finish_with(said.ending, said.line.bytes(), out)
}
