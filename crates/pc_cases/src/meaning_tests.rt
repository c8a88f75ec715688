use pc_grammar::Typed;
use pc_meaning::meaning_of;
use pc_print::generate;
use pc_rules::judged;
use pt_base::{Many, Memory, Refusal, Text};
use std::alloc::Global;
use std::test::Fail;

// The outputs of an accepted program's ticks, one tick after another, for rows of inputs.
fn shown(alloc: Global, typed: &Typed, rows: &[Many<i32>]) -> Result<Vec<i32>, Memory> {
    let ticks = meaning_of(alloc, typed, rows)?;
    let mut all = Vec::new(alloc);
    for tick in &ticks {
        all.extend_from_slice(tick.items())?;
    }
    Ok(all)
}

fn shown_of(alloc: Global, text: &Text, rows: &[Many<i32>]) -> Result<Vec<i32>, Refusal> {
    let accepted = judged(alloc, text)?;
    Ok(shown(alloc, &accepted.typed, rows)?)
}

fn row_of(alloc: Global, inputs: &[i32]) -> Result<Many<i32>, Memory> {
    Ok(Many::of(inputs.to_vec(alloc)?))
}

// Rows of one input each.
fn rows_of(alloc: Global, inputs: &[i32]) -> Result<Vec<Many<i32>>, Memory> {
    let mut rows = Vec::new(alloc);
    for input in inputs {
        rows.push(row_of(alloc, &[*input])?)?;
    }
    Ok(rows)
}

// Rows of two inputs each.
fn pairs_of(alloc: Global, inputs: &[(i32, i32)]) -> Result<Vec<Many<i32>>, Memory> {
    let mut rows = Vec::new(alloc);
    for (first, second) in inputs {
        rows.push(row_of(alloc, &[*first, *second])?)?;
    }
    Ok(rows)
}

// Whether a program that is accepted shows this on these rows.
fn shows(alloc: Global, text: &[u8], rows: &[Many<i32>], outputs: &[i32]) -> Result<bool, Refusal> {
    let text = Text::of(alloc, text)?;
    Ok(shown_of(alloc, &text, rows)?.as_slice() == outputs)
}

// The same of a program with one input, or with none, which passes over the numbers.
fn shows_on(alloc: Global, text: &[u8], inputs: &[i32], outputs: &[i32]) -> Result<bool, Refusal> {
    let rows = rows_of(alloc, inputs)?;
    shows(alloc, text, &rows, outputs)
}

const SHARED: &[u8] =
    b"ReactiveOutput int o = 0; ReactiveOutput int p = 0; int x = 0; void f() { x = 1; EOT; }
void g() { p = x; x = 2; EOT; } void main() { PAR(f, g); o = x; }";

const JOINED: &[u8] =
    b"ReactiveOutput int o = 0; void f() { EOT; } void g() { EOT; EOT; } void main() { PAR(f, g); o = 1; }";

#[test]
fn threads_run_in_the_order_of_the_text(rt: HostRuntime) -> Result<(), Fail> {
    assert!(rt; shows_on(rt.alloc(), SHARED, &[0, 0, 0], &[0, 1, 2, 1, 2, 1])?);
    assert!(rt; shows_on(rt.alloc(), JOINED, &[0, 0, 0], &[0, 0, 1])?);
    Ok(())
}

const WEAK: &[u8] = b"ReactiveInput int a = 0; ReactiveOutput int o = 0;
void main() { while (1) { weak abort { o = o + 1; EOT; o = o + 2; EOT; } when pre (a); o = o + 10; } }";

const WEAK_IN_STRONG: &[u8] = b"ReactiveInput int a = 0; ReactiveOutput int o = 0;
void main() { abort { weak abort { EOT; o = o + 1; EOT; } when pre (a); o = o + 10; EOT; } when pre (a);
o = o + 100; }";

const STRONG_IN_WEAK: &[u8] = b"ReactiveInput int a = 0; ReactiveOutput int o = 0;
void main() { weak abort { abort { EOT; o = o + 1; } when pre (a); o = o + 10; EOT; o = o + 100;
} when pre (a); o = o + 1000; }";

const BEFORE: &[u8] = b"ReactiveInput int a = 0; ReactiveOutput int o = 0;
void main() { abort { while (1) { o = o + 1; EOT; } } when pre (a); o = 100; }";

#[test]
fn aborts_read_the_last_tick(rt: HostRuntime) -> Result<(), Fail> {
    assert!(rt; shows_on(rt.alloc(), WEAK, &[1, 1, 0, 0], &[1, 14, 27, 29])?);
    assert!(rt; shows_on(rt.alloc(), WEAK_IN_STRONG, &[1, 0], &[0, 100])?);
    assert!(rt; shows_on(rt.alloc(), STRONG_IN_WEAK, &[1, 0], &[0, 1010])?);
    assert!(rt; shows_on(rt.alloc(), BEFORE, &[0, 1, 0], &[1, 2, 100])?);
    Ok(())
}

const TURNS: &[u8] = b"ReactiveOutput int o = 0; ReactiveOutput int p = 0;
void main() { while (1) #0 { o = o + 1; } while (1) #3 { p = p + 1; } EOT; }";

const EDGES: &[u8] =
    b"ReactiveOutput int q = 0; ReactiveOutput int r = 0; ReactiveOutput int d = 0; ReactiveOutput int s = 0;
ReactiveOutput int b = 0; int z = 0; int v[2];
void main() { q = 7 / z; r = 7 % z; d = -2147483648 / -1; s = 1 << 33; v[2] = 5; v[0] = 6;
b = v[-1] + v[2] + v[0]; EOT; }";

const CALLS: &[u8] = b"ReactiveInput int a = 0; ReactiveOutput int o = 0; int v[2];
int twice(int x) { int y = x; y = y + x; return y; }
void main() { while (1) { v[a] = twice(a + 1); o = v[0] + v[1]; EOT; } }";

#[test]
fn values_at_their_edges(rt: HostRuntime) -> Result<(), Fail> {
    assert!(rt; shows_on(rt.alloc(), TURNS, &[0], &[0, 3])?);
    assert!(rt; shows_on(rt.alloc(), EDGES, &[0], &[0, 7, -2147483648, 2, 6])?);
    assert!(rt; shows_on(rt.alloc(), CALLS, &[0, 1, 2, 0], &[2, 6, 6, 6])?);
    Ok(())
}

const SAMPLER: &[u8] =
    b"ReactiveInput int reset = 0; ReactiveInput int sensor = 0; ReactiveOutput int out = 0; int cnt = 0;
int buffer[4];
void sampler() { int i = 0; while (1) { while (cnt == 4) EOT; buffer[i] = sensor; EOT; i = (i + 1) % 4;
cnt = cnt + 1; } }
void display() { int i = 0; while (1) { while (cnt == 0) EOT; out = buffer[i]; EOT; i = (i + 1) % 4;
cnt = cnt - 1; } }
void main() { while (1) { abort PAR(sampler, display); when pre (reset); cnt = 0; out = 0; } }";

#[test]
fn the_sampler_begins_anew_after_a_reset(rt: HostRuntime) -> Result<(), Fail> {
    let rows = pairs_of(rt.alloc(), &[(0, 10), (0, 20), (1, 30), (0, 40), (0, 50)])?;
    assert!(rt; shows(rt.alloc(), SAMPLER, &rows, &[0, 10, 20, 0, 40])?);
    Ok(())
}

// Rows of one input each: tick j has the input j modulo 10.
fn generated_rows(alloc: Global, ticks: i32) -> Result<Vec<Many<i32>>, Memory> {
    let mut rows = Vec::new(alloc);
    for tick in 0..ticks {
        rows.push(row_of(alloc, &[tick % 10])?)?;
    }
    Ok(rows)
}

fn sum_of(numbers: &[i32]) -> i32 {
    let mut sum: i32 = 0;
    for number in numbers {
        sum = sum.wrapping_add(*number);
    }
    sum
}

// The sum of the outputs of a generated program in so many ticks.
fn generated_sum(alloc: Global, threads: u32, ticks: i32) -> Result<i32, Refusal> {
    let text = generate(alloc, threads)?;
    let rows = generated_rows(alloc, ticks)?;
    Ok(sum_of(&shown_of(alloc, &text, &rows)?))
}

#[test]
fn generated_programs_sum_what_they_show(rt: HostRuntime) -> Result<(), Fail> {
    assert_eq!(rt; generated_sum(rt.alloc(), 1, 1000)?, 16500);
    assert_eq!(rt; generated_sum(rt.alloc(), 3, 1000)?, 99000);
    Ok(())
}
