use crate::calls::{Wanted, comes_so, with};
use crate::meaning_tests::{GENERATED, SHARED, STRONG, WEAK};
use pt_base::Memory;
use std::alloc::Global;
use std::test::Fail;

// A line of a report, without its cycles.
fn outputs_of(line: &str) -> &str {
    match line.split_once(" cycles ") {
        Some((outputs, _)) => outputs,
        None => match line.split_once(" worst ") {
            Some((ticks, _)) => ticks,
            None => line,
        },
    }
}

fn put_outputs(meaning: &mut String, line: &str) -> Result<(), Memory> {
    meaning.push_str(outputs_of(line))?;
    meaning.push_str("\n")?;
    Ok(())
}

// A report without its cycles.
fn meaning_of(alloc: Global, report: &str) -> Result<String, Memory> {
    let mut meaning = String::new(alloc);
    for line in report.lines() {
        put_outputs(&mut meaning, line)?;
    }
    Ok(meaning)
}

// Whether a call ends well with this report, and has read the whole input.
fn says(
    alloc: Global,
    words: &str,
    program: &str,
    input: &str,
    report: &str,
) -> Result<bool, Memory> {
    let wanted = Wanted {
        status: 0,
        written: report,
        image: None,
        cert: None,
        left: 0,
    };
    comes_so(alloc, words, with(program, input), wanted)
}

// Whether `mean` says what a report says without its cycles.
fn means(alloc: Global, program: &str, input: &str, report: &str) -> Result<bool, Memory> {
    let meaning = meaning_of(alloc, report)?;
    says(alloc, "mean p", program, input, &meaning)
}

/// Whether `go` says this report, and `mean` the same without cycles. The image is stored as `x`, which isn't looked at.
pub fn agree(alloc: Global, program: &str, input: &str, report: &str) -> Result<bool, Memory> {
    let compiled = says(alloc, "go p x", program, input, report)?;
    Ok(compiled && means(alloc, program, input, report)?)
}

#[test]
fn threads_share_a_variable(rt: HostRuntime) -> Result<(), Fail> {
    let report = "tick 0: 0 1 cycles 12
tick 1: 2 1 cycles 8
tick 2: 2 1 cycles 3
ticks 3 worst 12
";
    assert!(rt; agree(rt.alloc(), SHARED, "\n\n\n", report)?);
    Ok(())
}

// Three threads, of which the second ends last.
const THREE: &str = "ReactiveOutput int o = 0;
void f() { o = o * 10 + 1; EOT; o = o * 10 + 4; }
void g() { o = o * 10 + 2; EOT; EOT; o = o * 10 + 5; }
void h() { o = o * 10 + 3; }
void main() { PAR(f, g, h); o = -o; }";

#[test]
fn three_threads_run_in_the_order_of_the_text(rt: HostRuntime) -> Result<(), Fail> {
    let report = "tick 0: 123 cycles 24
tick 1: 1234 cycles 10
tick 2: -12345 cycles 13
tick 3: -12345 cycles 2
ticks 4 worst 24
";
    assert!(rt; agree(rt.alloc(), THREE, "\n\n\n\n", report)?);
    Ok(())
}

#[test]
fn a_weak_abort_fires(rt: HostRuntime) -> Result<(), Fail> {
    let report = "tick 0: 1 cycles 9
tick 1: 14 cycles 22
tick 2: 27 cycles 22
tick 3: 29 cycles 10
ticks 4 worst 22
";
    assert!(rt; agree(rt.alloc(), WEAK, "1\n1\n0\n0\n", report)?);
    Ok(())
}

#[test]
fn a_strong_abort_fires(rt: HostRuntime) -> Result<(), Fail> {
    let report = "tick 0: 1 cycles 9
tick 1: 2 cycles 12
tick 2: 100 cycles 8
ticks 3 worst 12
";
    assert!(rt; agree(rt.alloc(), STRONG, "0\n1\n0\n", report)?);
    Ok(())
}

// A weak abort in a strong one, which fires in the second tick: the weak one isn't looked at.
const WEAK_IN_STRONG: &str = "ReactiveInput int a = 0; ReactiveOutput int o = 0;
void main() {
  abort { weak abort { EOT; o = o + 1; EOT; } when pre (a); o = o + 10; EOT; } when pre (a);
  o = o + 100;
}";

#[test]
fn a_weak_abort_in_a_strong_one_fires(rt: HostRuntime) -> Result<(), Fail> {
    let report = "tick 0: 0 cycles 6
tick 1: 100 cycles 10
ticks 2 worst 10
";
    assert!(rt; agree(rt.alloc(), WEAK_IN_STRONG, "1\n0\n", report)?);
    Ok(())
}

// A strong abort in a weak one. Both fire in the second tick: behind the strong one, the body of the weak one runs to its pause.
const STRONG_IN_WEAK: &str = "ReactiveInput int a = 0; ReactiveOutput int o = 0;
void main() {
  weak abort { abort { EOT; o = o + 1; } when pre (a); o = o + 10; EOT; o = o + 100; } when pre (a);
  o = o + 1000;
}";

#[test]
fn a_strong_abort_in_a_weak_one_fires(rt: HostRuntime) -> Result<(), Fail> {
    let report = "tick 0: 0 cycles 6
tick 1: 1010 cycles 17
ticks 2 worst 17
";
    assert!(rt; agree(rt.alloc(), STRONG_IN_WEAK, "1\n0\n", report)?);
    Ok(())
}

// A condition is read for the first time in the tick after the entry, and before the inputs are set.
const LAST_TICK: &str = "ReactiveInput int a = 0; ReactiveOutput int o = 0;
void main() { EOT; abort while (1) { o = o + 1; EOT; } when pre (a == 0); o = o + 100; while (1) { o = o + 1; EOT; } }";

#[test]
fn a_condition_is_that_of_the_last_tick(rt: HostRuntime) -> Result<(), Fail> {
    let report = "tick 0: 0 cycles 4
tick 1: 1 cycles 9
tick 2: 102 cycles 21
tick 3: 103 cycles 10
ticks 4 worst 21
";
    assert!(rt; agree(rt.alloc(), LAST_TICK, "1\n0\n1\n0\n", report)?);
    Ok(())
}

#[test]
fn a_generated_program_runs(rt: HostRuntime) -> Result<(), Fail> {
    let report = "tick 0: 1 cycles 33
tick 1: 3 cycles 42
tick 2: 12 cycles 42
tick 3: 3 cycles 76
ticks 4 worst 76
";
    assert!(rt; agree(rt.alloc(), GENERATED, "1\n2\n9\n3\n", report)?);
    Ok(())
}

// Tests inside one another, with an `else` and without.
const TESTS: &str = "ReactiveInput int a = 0; ReactiveOutput int o = 0;
void main() { while (1) { if (a > 2) { if (a == 5) o = 7; } else o = o - a; EOT; } }";

#[test]
fn tests_choose(rt: HostRuntime) -> Result<(), Fail> {
    let report = "tick 0: -1 cycles 15
tick 1: -1 cycles 25
tick 2: 7 cycles 29
tick 3: 5 cycles 17
ticks 4 worst 29
";
    assert!(rt; agree(rt.alloc(), TESTS, "1\n3\n5\n2\n", report)?);
    Ok(())
}

// Loops that end by their test, by their number, and before a turn; one of the numbers takes an `imm`.
const LOOPS: &str =
    "ReactiveInput int a = 0; ReactiveOutput int o = 0; ReactiveOutput int p = 0; int i = 0; int z = 0;
void main() {
  while (1) {
    i = 0;
    while (i < a) #9 { i = i + 1; o = o + i; }
    while (z) #65536 ;
    while (i < a) #0 { o = 100; }
    while (1) #0 { p = 100; }
    while (1) #2 { p = p + 1; while (a) #3 p = p + 10; }
    EOT;
  }
}";

#[test]
fn loops_end_by_their_number_or_their_test(rt: HostRuntime) -> Result<(), Fail> {
    let report = "tick 0: 3 62 cycles 140
tick 1: 9 124 cycles 160
tick 2: 9 126 cycles 54
ticks 3 worst 160
";
    assert!(rt; agree(rt.alloc(), LOOPS, "2\n3\n0\n", report)?);
    Ok(())
}

// An array between two variables, with indices in it and outside of it.
const ARRAY: &str =
    "ReactiveInput int a = 0; ReactiveOutput int read = 0; ReactiveOutput int first = 0; ReactiveOutput int last = 0;
int low = 1; int v[3]; int high = 2; ReactiveOutput int beside = 0;
void main() { while (1) { v[a] = a + 10; read = v[a]; first = v[0]; last = v[2]; beside = low * 10 + high; EOT; } }";

#[test]
fn an_index_outside_of_an_array_touches_nothing(rt: HostRuntime) -> Result<(), Fail> {
    let report = "tick 0: 10 10 0 12 cycles 70
tick 1: 12 10 12 12 cycles 72
tick 2: 0 10 12 12 cycles 72
tick 3: 0 10 12 12 cycles 72
tick 4: 0 10 12 12 cycles 72
tick 5: 0 10 12 12 cycles 72
ticks 6 worst 72
";
    assert!(rt;
        agree(
            rt.alloc(),
            ARRAY,
            "0\n2\n3\n-1\n2147483647\n-2147483648\n",
            report
        )?
    );
    Ok(())
}

// Quotients, a shift and indices at the edges.
const EDGES: &str = "ReactiveOutput int q = 0; ReactiveOutput int r = 0; ReactiveOutput int d = 0;
ReactiveOutput int s = 0; ReactiveOutput int b = 0; int z = 0; int v[2]; int w = 3;
void main() { q = 7 / z; r = 7 % z; d = -2147483648 / -1; s = 1 << 33; v[2] = 5; v[0] = 6;
  b = v[-1] + v[2] + v[0]; z = w; EOT; r = z; }";

#[test]
fn values_at_the_edges(rt: HostRuntime) -> Result<(), Fail> {
    let report = "tick 0: 0 7 -2147483648 2 6 cycles 102
tick 1: 0 3 -2147483648 2 6 cycles 9
ticks 2 worst 102
";
    assert!(rt; agree(rt.alloc(), EDGES, "\n\n", report)?);
    Ok(())
}

// Routines with parameters and results, one of which calls another.
const ROUTINES: &str = "ReactiveInput int a = 0; ReactiveOutput int o = 0; int i = 0;
int twice(int n) { return n + n; }
int sum(int m, int n) { int t; t = twice(n); return m + t; }
void step(int by) { o = o + by; }
void main() { i = twice(a); step(i); EOT; step(i + 1); EOT; o = sum(o, -1); }";

#[test]
fn routines_give_their_results(rt: HostRuntime) -> Result<(), Fail> {
    let report = "tick 0: 6 cycles 20
tick 1: 13 cycles 14
tick 2: 11 cycles 25
tick 3: 11 cycles 3
ticks 4 worst 25
";
    assert!(rt; agree(rt.alloc(), ROUTINES, "3\n0\n0\n0\n", report)?);
    Ok(())
}

// The index is worked out after the call.
const CALL_FIRST: &str =
    "ReactiveOutput int first = 0; ReactiveOutput int second = 0; int i = 0; int v[2];
int f() { i = 1; return 7; }
void main() { v[i] = f(); first = v[0]; second = v[1]; }";

#[test]
fn a_call_comes_before_the_index(rt: HostRuntime) -> Result<(), Fail> {
    let report = "tick 0: 0 7 cycles 50
ticks 1 worst 50
";
    assert!(rt; agree(rt.alloc(), CALL_FIRST, "\n", report)?);
    Ok(())
}

#[test]
fn programs_of_a_line(rt: HostRuntime) -> Result<(), Fail> {
    let alloc = rt.alloc();
    let report = "tick 0: 1 cycles 6\ntick 1: 3 cycles 11\nticks 2 worst 11\n";
    assert!(rt;
        agree(
            alloc,
            "ReactiveOutput int o = 1; void main() { if (o) EOT; o = 1 + (1 + o); }",
            "\n\n",
            report
        )?
    );
    let report = "tick 0: cycles 2\ntick 1: cycles 1\nticks 2 worst 2\n";
    assert!(rt; agree(alloc, "void main() { ; }", "\n\n", report)?);
    let report = "tick 0: cycles 2\ntick 1: cycles 4\ntick 2: cycles 4\nticks 3 worst 4\n";
    assert!(rt; agree(alloc, "void main() { while (1) EOT; }", "\n\n\n", report)?);
    let report = "tick 0: cycles 3\ntick 1: cycles 3\nticks 2 worst 3\n";
    assert!(rt;
        agree(
            alloc,
            "void f() { EOT; } void main() { PAR(f); }",
            "\n\n",
            report
        )?
    );
    let report = "tick 0: cycles 2\ntick 1: cycles 2\nticks 2 worst 2\n";
    assert!(rt; agree(alloc, "void main() { EOT; } int o;", "\n\n", report)?);
    Ok(())
}
