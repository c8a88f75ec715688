ghost use Rattle.std.specs.Prelude.{◌≡◌, ◌++◌, OnOk, IfOk};
ghost use Rattle.pc_print.specs.Generated.{line, counted, head, tests, loops, thread, name};
ghost use Rattle.pc_print.specs.Generated.{declarations, shown, beside, main, generated};

use pt_base::{Memory, Text, put_number};
use std::alloc::Global;

// Puts bytes at the end.
fn put(out: &mut Vec<u8>, bytes: &[u8]) -> Result<(), Memory>
    ensures { OnOk result (out.new.items ≡ out.old.items ++ bytes.now) }
{
    out.extend_from_slice(bytes)?;
    Ok(())
}

// Puts a line at the end.
#[tactic(auto, using(crate::proofs::Joining::joined))]
fn put_line(out: &mut Vec<u8>, bytes: &[u8]) -> Result<(), Memory>
    ensures { OnOk result (out.new.items ≡ out.old.items ++ line bytes.now) }
{
    out.extend_from_slice(bytes)?;
    out.push(b'\n')?;
    Ok(())
}

// Puts the declarations at the end.
#[tactic(auto, using(crate::proofs::Joining::joined))]
fn put_declarations(out: &mut Vec<u8>) -> Result<(), Memory>
    ensures { OnOk result (out.new.items ≡ out.old.items ++ declarations) }
{
    put_line(out, b"ReactiveInput int a = 0;")?;
    put_line(out, b"ReactiveOutput int o = 0;")?;
    put_line(out, b"int s = 0;")
}

// Puts the first line of a thread at the end.
#[tactic(auto, using(crate::proofs::Joining::joined))]
fn put_head(out: &mut Vec<u8>, k: u64) -> Result<(), Memory>
    ensures { OnOk result (out.new.items ≡ out.old.items ++ head k) }
{
    put(out, b"void t")?;
    put_number(out, k)?;
    put_line(out, b"() {")
}

// Puts the loops of a thread up to the number of turns at the end.
#[tactic(auto, using(crate::proofs::Joining::joined))]
fn put_tests(out: &mut Vec<u8>, k: u64) -> Result<(), Memory>
    ensures { OnOk result (out.new.items ≡ out.old.items ++ tests k) }
{
    put(out, b"  while (1) { i = 0; while (i < ")?;
    put_number(out, k)?;
    put(out, b") #")
}

// Puts the loops of a thread at the end.
#[tactic(auto, using(crate::proofs::Joining::joined))]
fn put_loops(out: &mut Vec<u8>, k: u64) -> Result<(), Memory>
    ensures { OnOk result (out.new.items ≡ out.old.items ++ loops k) }
{
    put_tests(out, k)?;
    put_number(out, k)?;
    put_line(out, b" { i = i + 1; s = s + a; } EOT; }")
}

// Puts a thread at the end.
#[tactic(auto, using(crate::proofs::Joining::joined))]
fn put_thread(out: &mut Vec<u8>, k: u64) -> Result<(), Memory>
    ensures { OnOk result (out.new.items ≡ out.old.items ++ thread k) }
{
    put_head(out, k)?;
    put_line(out, b"  int i = 0;")?;
    put_loops(out, k)?;
    put_line(out, b"}")
}

// Puts a thread's name and what parts it from the next at the end.
#[tactic(auto, using(crate::proofs::Joining::joined))]
fn put_name(out: &mut Vec<u8>, k: u64) -> Result<(), Memory>
    ensures { OnOk result (out.new.items ≡ out.old.items ++ name k) }
{
    put(out, b"t")?;
    put_number(out, k)?;
    put(out, b", ")
}

// Puts the first threads at the end.
#[tactic(auto, using(crate::proofs::Joining::joined))]
fn put_threads(out: &mut Vec<u8>, n: u64) -> Result<(), Memory>
    ensures { OnOk result (out.new.items ≡ out.old.items ++ counted thread n) }
{
    for i in 0..n {
        put_thread(out, i + 1)?;
    }
    Ok(())
}

// Puts the names of the first threads at the end.
#[tactic(auto, using(crate::proofs::Joining::joined))]
fn put_names(out: &mut Vec<u8>, n: u64) -> Result<(), Memory>
    ensures { OnOk result (out.new.items ≡ out.old.items ++ counted name n) }
{
    for i in 0..n {
        put_name(out, i + 1)?;
    }
    Ok(())
}

// Puts the thread that shows the sum at the end.
#[tactic(auto, using(crate::proofs::Joining::joined))]
fn put_shown(out: &mut Vec<u8>) -> Result<(), Memory>
    ensures { OnOk result (out.new.items ≡ out.old.items ++ shown) }
{
    put_line(out, b"void out() {")?;
    put_line(out, b"  while (1) { o = s; EOT; }")?;
    put_line(out, b"}")
}

// Puts the line of `main` that runs the threads at the end.
#[tactic(auto, using(crate::proofs::Joining::joined))]
fn put_beside(out: &mut Vec<u8>, n: u64) -> Result<(), Memory>
    ensures { OnOk result (out.new.items ≡ out.old.items ++ beside n) }
{
    put(out, b"  while (1) { weak abort PAR(")?;
    put_names(out, n)?;
    put_line(out, b"out); when pre (a == 9); s = 0; }")
}

// Puts `main` at the end.
#[tactic(auto, using(crate::proofs::Joining::joined))]
fn put_main(out: &mut Vec<u8>, n: u64) -> Result<(), Memory>
    ensures { OnOk result (out.new.items ≡ out.old.items ++ main n) }
{
    put_line(out, b"void main() {")?;
    put_beside(out, n)?;
    put_line(out, b"}")
}

/// The text of a program of so many threads, and one more that shows their sum.
#[tactic(auto, using(crate::proofs::Joining::joined))]
pub fn generate(alloc: Global, n: u32) -> Result<Text, Memory>
    ensures { IfOk result (λ text. text ≡ generated n) }
{
    let mut out = Vec::new(alloc);
    put_declarations(&mut out)?;
    put_threads(&mut out, u64::from(n))?;
    put_shown(&mut out)?;
    put_main(&mut out, u64::from(n))?;
    Ok(Text::from_vec(out))
}
