use crate::drawing::drawn;
use crate::walking::Walk;
use pc_grammar::Typed;
use pc_lower::lower;
use pc_meaning::meaning_of;
use pc_rules::judged;
use pt_base::{Many, Memory, Refusal, Text};
use std::alloc::Global;
use std::test::Fail;

// Rows of two inputs each; a program with fewer passes over the rest.
fn rows_of(alloc: Global, inputs: &[(i32, i32)]) -> Result<Vec<Many<i32>>, Memory> {
    let mut rows = Vec::new(alloc);
    for (first, second) in inputs {
        let mut row = vec![in alloc; *first; 1]?;
        row.push(*second)?;
        rows.push(Many::of(row))?;
    }
    Ok(rows)
}

// Whether these pauses are among the outputs of a tick.
fn are_shown(pauses: &[u32], outputs: &[i32]) -> bool {
    for pause in pauses {
        if !outputs.contains(&pause.cast_signed()) {
            return false;
        }
    }
    true
}

// Whether the flow of a program shows in each tick what the program means. The pauses at which it stands after each tick are
// pushed; where each pause is `marked`, a program puts its number out before it, so the outputs of the meaning must have them.
fn agrees(
    alloc: Global,
    typed: &Typed,
    inputs: &[(i32, i32)],
    marked: bool,
    pauses: &mut Vec<u32>,
) -> Result<bool, Memory> {
    let rows = rows_of(alloc, inputs)?;
    let meant = meaning_of(alloc, typed, &rows)?;
    let flow = lower(alloc, typed)?;
    let mut walk = Walk::begin(alloc, &flow)?;
    for (row, outputs) in rows.iter().zip(&meant) {
        let shown = walk.tick(alloc, row.items())?;
        let stands = walk.pauses(alloc)?;
        if shown.as_slice() != outputs.items() || marked && !are_shown(&stands, outputs.items()) {
            return Ok(false);
        }
        pauses.extend_from_slice(&stands)?;
    }
    Ok(true)
}

// The same of a text, and whether it stands at these pauses.
fn walks(
    alloc: Global,
    text: &[u8],
    inputs: &[(i32, i32)],
    stands: &[u32],
) -> Result<bool, Refusal> {
    let accepted = judged(alloc, &Text::of(alloc, text)?)?;
    let mut pauses = Vec::new(alloc);
    let agrees = agrees(alloc, &accepted.typed, inputs, false, &mut pauses)?;
    Ok(agrees && pauses.as_slice() == stands)
}

const VALUES: &[u8] =
    b"ReactiveInput int a = 0; ReactiveInput int b = 0; ReactiveOutput int o = 0; ReactiveOutput int p = 0; int v[3];
      void main() {
        while (1) {
          v[a] = v[b] + 1; v[v[0] - 1] = a * b - (a << 2) / (b + 1); o = v[0] + v[1] * v[2];
          if (a < b && !(a == 2)) p = p + ~a; else p = -p;
          EOT;
        }
      }";

const CALLS: &[u8] =
    b"ReactiveInput int a = 0; ReactiveInput int b = 0; ReactiveOutput int o = 0; int v[2];
      int less(int x, int y) { int z = x; z = z - y; return z; }
      int twice(int x) { int y; y = less(x, -x); return y; }
      void note(int x) { v[0] = x; }
      void main() {
        int t;
        while (1) {
          t = twice(a); v[a] = less(b, t); t = less(a, b); note(v[0] + t); o = v[0] * 10 + v[1];
          EOT;
        }
      }";

const LOOPS: &[u8] = b"ReactiveInput int a = 0; ReactiveOutput int o = 0; ReactiveOutput int p = 0;
      void main() {
        int i;
        while (i < 5) {
          i = i + 1;
          while (1) #0 { o = 99; } while (1) #3 { o = o + 1; } while (p < a) #4 { p = p + 1; }
          EOT;
        }
        while (0) { EOT; }
        o = -1;
        EOT;
      }";

const ABORTS: &[u8] = b"ReactiveInput int a = 0; ReactiveInput int b = 0; ReactiveOutput int o = 0;
      void main() {
        while (1) {
          abort {
            weak abort { while (1) { o = o + 1; EOT; o = o + 10; EOT; } } when pre (b);
            o = o + 100;
            EOT;
          } when pre (a);
          o = o + 1000;
        }
      }";

const ENTERED: &[u8] = b"ReactiveOutput int o = 0; int x = 1;
      void main() { abort { o = 1; EOT; o = 2; EOT; } when pre (x); o = 3; }";

const BESIDE: &[u8] =
    b"ReactiveInput int a = 0; ReactiveOutput int o = 0; ReactiveOutput int p = 0; int x = 0;
      void f() { x = x + 1; EOT; x = x * 3; EOT; }
      void g() { p = x; x = x + 10; EOT; }
      void main() { while (1) { weak abort { PAR(g, f); o = x; EOT; } when pre (a); o = o + 1; } }";

const SAMPLER: &[u8] =
    b"ReactiveInput int reset = 0; ReactiveInput int sensor = 0; ReactiveOutput int out = 0; int cnt = 0; int buffer[4];
      void sampler() {
        int i = 0;
        while (1) { while (cnt == 4) EOT; buffer[i] = sensor; EOT; i = (i + 1) % 4; cnt = cnt + 1; }
      }
      void display() {
        int i = 0;
        while (1) { while (cnt == 0) EOT; out = buffer[i]; EOT; i = (i + 1) % 4; cnt = cnt - 1; }
      }
      void main() { while (1) { abort PAR(sampler, display); when pre (reset); cnt = 0; out = 0; } }";

// A program, its inputs tick by tick, and the pauses at which it stands, tick by tick and thread by thread.
type Case = (&'static [u8], &'static [(i32, i32)], &'static [u32]);

const CASES: [Case; 7] = [
    (
        VALUES,
        &[(0, 1), (2, 3), (1, 0), (-1, 2), (2, 2)],
        &[0, 0, 0, 0, 0],
    ),
    (CALLS, &[(0, 1), (1, 5), (1, -2), (0, 0)], &[0, 0, 0, 0]),
    (
        LOOPS,
        &[(0, 0), (6, 0), (3, 0), (9, 0), (9, 0), (9, 0), (9, 0)],
        &[0, 0, 0, 0, 0, 2],
    ),
    (
        ABORTS,
        &[(0, 0), (0, 1), (0, 0), (1, 0), (0, 1), (1, 1), (0, 0)],
        &[0, 1, 2, 0, 0, 2, 0],
    ),
    (ENTERED, &[(0, 0), (0, 0)], &[0]),
    (
        BESIDE,
        &[(0, 0), (1, 0), (0, 0), (0, 0), (0, 0)],
        &[2, 0, 1, 2, 0, 1, 3],
    ),
    (
        SAMPLER,
        &[(0, 10), (0, 20), (1, 30), (0, 40), (0, 50)],
        &[1, 2, 1, 3, 1, 3, 1, 2, 1, 3],
    ),
];

#[test]
fn programs_of_each_construct(rt: HostRuntime) -> Result<(), Fail> {
    for (text, inputs, stands) in &CASES {
        assert!(rt; walks(rt.alloc(), text, inputs, stands)?);
    }
    Ok(())
}

const INPUTS: [(i32, i32); 12] = [
    (0, 0),
    (1, 0),
    (0, 1),
    (2, -1),
    (0, 0),
    (-3, 2),
    (1, 1),
    (0, 0),
    (5, 0),
    (0, 3),
    (1, -2),
    (0, 0),
];

// The same of a drawn program; it stands somewhere.
fn drawn_agrees(alloc: Global, seed: u32) -> Result<bool, Refusal> {
    let accepted = judged(alloc, &drawn(alloc, seed)?)?;
    let mut pauses = Vec::new(alloc);
    let agrees = agrees(alloc, &accepted.typed, &INPUTS, true, &mut pauses)?;
    Ok(agrees && !pauses.is_empty())
}

#[test]
fn drawn_programs(rt: HostRuntime) -> Result<(), Fail> {
    for seed in 0..40 {
        assert!(rt; drawn_agrees(rt.alloc(), seed)?);
    }
    Ok(())
}
