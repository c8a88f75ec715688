ghost use Rattle.std.specs.Prelude.{◌≡◌, ◌<◌, ◌≤◌, ◌+◌, ◌∷◌, ◌++◌, ℕ, List, length, drop, take, map, IfOk, IfErr, OnOk, OnErr};
ghost use Rattle.pc_rules.specs.Sources.{Breaks};
ghost use Rattle.pt_trace.specs.Next.{line_feed};
ghost use Rattle.pretc_run.specs.Writing.{Answers};
ghost use Rattle.pretc_top.specs.Loading.{IsLoaded, IsAsBefore, ProgramFails};
ghost use Rattle.pretc_top.specs.Says.{lines_of, PrintsTree, IsPrinted, Pushes, SaysEnds};
ghost use Rattle.pretc_top.specs.Comes.{Concludes};

use crate::stages::load_program;
use pc_print::print;
use pretc_run::{Ending, WRITE_FAULT, close, finish, push_line};
use pt_base::Text;
use pt_outside::{Failed, Shelf, Sink};
use std::alloc::Global;

// Where the first line feed stands.
fn line_feed(text: &[u8]) -> Option<usize>
    ensures { result ≡ line_feed text.now }
{
    text.iter().position(|byte| *byte == b'\n')
}

// The bytes of the first line of a text, its line feed included.
fn line_length(text: &[u8]) -> usize
    requires { 0 < length text.now }
    ensures first { lines_of text.now ≡ take result text.now ∷ lines_of (drop result text.now) }
    ensures positive { 0 < result }
    ensures within { result ≤ length text.now }
{
    match line_feed(text) {
        Some(at) => at + 1,
        None => text.len(),
    }
}

// The bytes behind the first n.
fn behind(bytes: &[u8], n: usize) -> &[u8]
    requires { n ≤ length bytes.now }
    ensures { result.now ≡ drop n bytes.now }
{
    &bytes[n..]
}

// Pushes a text, one push a line.
fn push_lines<O: Sink>(text: &[u8], out: &mut O) -> Result<(), Failed>
    ensures { Pushes (lines_of text.now) (O.told out.old) (O.told out.new) result }
{
    let mut rest = text;
    'lines: while 0 < rest.len() {
        let n = line_length(rest);
        match push_line(&rest[..n], out) {
            Ok(()) => {}
            Err(failed) => return Err(failed),
        }
        rest = behind(rest, n);
    }
    Ok(())
}

// The text of a loaded program.
fn printed<H: Shelf>(alloc: Global, program: &Text, shelf: &mut H) -> Result<Text, Ending>
    ensures printed { IfOk result (λ text. PrintsTree program.now (H.told shelf.old).files text) }
    ensures kept { OnOk result (IsAsBefore (H.told shelf.old) (H.told shelf.new)) }
    ensures failed { IfErr result (λ e. ProgramFails Breaks program.now (H.told shelf.old) (H.told shelf.new) e) }
{
    let tree = match load_program(alloc, program, shelf) {
        Ok(tree) => tree,
        Err(ending) => return Err(ending),
    };
    match print(alloc, &tree) {
        Ok(text) => Ok(text),
        Err(_) => Err(Ending::WantOfMemory),
    }
}

/// The end of a call that has this text to print, line by line.
pub fn finish_lines<O: Sink>(text: &[u8], out: &mut O) -> u8
    ensures answers { Answers (lines_of text.now) 0 (O.told out.old) (O.told out.new) result }
{
    match push_lines(text, out) {
        Ok(()) => close(Ending::Done, out),
        Err(_) => WRITE_FAULT,
    }
}

/// `pretc print`.
pub fn print_program<H: Shelf, O: Sink>(
    alloc: Global,
    program: &Text,
    shelf: &mut H,
    out: &mut O,
) -> u8
    ensures concludes { Concludes (SaysEnds Breaks IsPrinted program.now (H.told shelf.old) (H.told shelf.new))
        (O.told out.old) (O.told out.new) result }
{
    match printed(alloc, program, shelf) {
        Ok(text) => finish_lines(text.bytes(), out),
        Err(ending) => finish(ending, out),
    }
}
