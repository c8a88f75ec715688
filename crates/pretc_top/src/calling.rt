ghost use Rattle.pretc_top.specs.Commands.{command_of};
ghost use Rattle.pretc_top.specs.Outside.{outside};
ghost use Rattle.pretc_top.specs.Comes.{Comes};
ghost use Rattle.pretc_top.specs.Causes.{Causes};

use crate::checking::check_files;
use crate::commands::{Command, command_of};
use crate::executing::exec;
use crate::generating::print_generated;
use crate::going::go;
use crate::jobbing::job;
use crate::meaning::mean;
use crate::printing::print_program;
use crate::ruling::rules_of_program;
use crate::running::carry_out;
use pretc_run::{Ending, finish};
use pt_base::Text;
use pt_outside::{Shelf, Sink, Source};
use std::alloc::Global;

// Does what the words say.
fn called<H: Shelf, I: Source, O: Sink>(
    alloc: Global,
    words: &[Text],
    shelf: &mut H,
    input: &mut I,
    out: &mut O,
) -> u8
    ensures comes { Comes (command_of words.now)
        (outside (H.told shelf.old) (I.told input.old) (O.told out.old))
        (outside (H.told shelf.new) (I.told input.new) (O.told out.new)) result }
{
    match command_of(words) {
        None => finish(Ending::Usage, out),
        Some(Command::Go(program, image)) => go(alloc, program, image, shelf, input, out),
        Some(Command::Run(program, costs, image, cert)) => {
            carry_out(alloc, program, costs, image, cert, shelf, input, out)
        }
        Some(Command::Check(image, cert, costs)) => {
            check_files(alloc, image, cert, costs, shelf, out)
        }
        Some(Command::Exec(image, cert, costs)) => {
            exec(alloc, image, cert, costs, shelf, input, out)
        }
        Some(Command::Print(program)) => print_program(alloc, program, shelf, out),
        Some(Command::Rules(program)) => rules_of_program(alloc, program, shelf, out),
        Some(Command::Mean(program)) => mean(alloc, program, shelf, input, out),
        Some(Command::Gen(threads)) => print_generated(alloc, threads, out),
        Some(Command::Job(threads)) => job(alloc, threads, out),
    }
}

/// Does what the words after the program's name say, and gives the exit status.
///
/// `docs/commands.md` has the commands, the lines that each status prints, and what stands after it.
/// What comes of a call is the clause `comes`; `causes` reads off the status why it came, and what stands after it.
pub fn pretc<H: Shelf, I: Source, O: Sink>(
    alloc: Global,
    words: &Vec<Text>,
    shelf: &mut H,
    input: &mut I,
    out: &mut O,
) -> u8
    ensures comes { Comes (command_of words.now.items)
        (outside (H.told shelf.old) (I.told input.old) (O.told out.old))
        (outside (H.told shelf.new) (I.told input.new) (O.told out.new)) result }
    ensures causes { Causes (command_of words.now.items)
        (outside (H.told shelf.old) (I.told input.old) (O.told out.old))
        (outside (H.told shelf.new) (I.told input.new) (O.told out.new)) result }
{
    called(alloc, words, shelf, input, out)
}
