use crate::calls::{Outside, Wanted, comes_so, with};
use pt_base::Memory;
use std::alloc::Global;
use std::test::Fail;

const FIRST: &str =
    "ReactiveInput int a = 0;\nReactiveOutput int o = 0;\nvoid main() { o = a + 1; EOT; }";

// Two threads that share a variable: the first of the text goes first, and both are gone after the pause.
pub const SHARED: &str =
    "ReactiveOutput int o = 0; ReactiveOutput int p = 0; int x = 0; void f() { x = 1; EOT; } void g() { p = x; x = 2; EOT; } void main() { PAR(f, g); o = x; }";

// A weak abort in a loop: in the tick in which it fires its body still runs to its pause, and `main` goes on behind it in the
// same tick.
pub const WEAK: &str =
    "ReactiveInput int a = 0; ReactiveOutput int o = 0; void main() { while (1) { weak abort { o = o + 1; EOT; o = o + 2; EOT; } when pre (a); o = o + 10; } }";

// A strong abort: its body isn't run in the tick in which the condition of the last tick held.
pub const STRONG: &str =
    "ReactiveInput int a = 0; ReactiveOutput int o = 0; void main() { abort { while (1) { o = o + 1; EOT; } } when pre (a); o = 100; }";

pub const GENERATED: &str =
    "ReactiveInput int a = 0;\nReactiveOutput int o = 0;\nint s = 0;\nvoid t1() {\n  int i = 0;\n  while (1) { i = 0; while (i < 1) #1 { i = i + 1; s = s + a; } EOT; }\n}\nvoid out() {\n  while (1) { o = s; EOT; }\n}\nvoid main() {\n  while (1) { weak abort PAR(t1, out); when pre (a == 9); s = 0; }\n}\n";

// Whether `mean` comes so, and leaves so many bytes of the input.
fn means(
    alloc: Global,
    outside: Outside<'_>,
    status: u8,
    written: &str,
    left: usize,
) -> Result<bool, Memory> {
    let wanted = Wanted {
        status,
        written,
        image: None,
        cert: None,
        left,
    };
    comes_so(alloc, "mean p", outside, wanted)
}

// Whether a program means this report, by three bytes a pull and by one.
fn reports(alloc: Global, program: &str, input: &str, report: &str) -> Result<bool, Memory> {
    let by_byte = Outside {
        step: 1,
        ..with(program, input)
    };
    let first = means(alloc, with(program, input), 0, report, 0)?;
    Ok(first && means(alloc, by_byte, 0, report, 0)?)
}

#[test]
fn mean_reports_the_outputs_of_each_tick(rt: HostRuntime) -> Result<(), Fail> {
    let alloc = rt.alloc();
    assert!(rt; reports(alloc, FIRST, "\t4 \r\n5", "tick 0: 5\ntick 1: 5\nticks 2\n")?);
    assert!(rt; reports(alloc, FIRST, "", "ticks 0\n")?);
    assert!(rt;
        reports(
            alloc,
            SHARED,
            "\n\n\n",
            "tick 0: 0 1\ntick 1: 2 1\ntick 2: 2 1\nticks 3\n"
        )?
    );
    assert!(rt;
        reports(
            alloc,
            WEAK,
            "1\n1\n0\n0\n",
            "tick 0: 1\ntick 1: 14\ntick 2: 27\ntick 3: 29\nticks 4\n"
        )?
    );
    assert!(rt;
        reports(
            alloc,
            STRONG,
            "0\n1\n0\n",
            "tick 0: 1\ntick 1: 2\ntick 2: 100\nticks 3\n"
        )?
    );
    Ok(())
}

#[test]
fn mean_ends_at_the_first_bad_line(rt: HostRuntime) -> Result<(), Fail> {
    let alloc = rt.alloc();
    let bad = with(FIRST, "4\n5\n2147483648\n");
    assert!(rt; means(alloc, bad, 7, "tick 0: 5\ntick 1: 5\ntrace T1 line 3\n", 0)?);
    let short = with(FIRST, "4\n\n");
    assert!(rt; means(alloc, short, 7, "tick 0: 5\ntrace T2 line 2\n", 0)?);
    let blanks = format!(in alloc; "4\n{:1025}\n", "")?;
    let long = with(FIRST, &blanks);
    assert!(rt; means(alloc, long, 7, "tick 0: 5\ntrace T4 line 2\n", 0)?);
    Ok(())
}

#[test]
fn mean_meets_faults_where_they_come(rt: HostRuntime) -> Result<(), Fail> {
    let alloc = rt.alloc();
    let broken = with("int o; void main() { o = 1x; }", "");
    assert!(rt; means(alloc, broken, 1, "refused L1 25 27\n", 0)?);
    let unloaded = Outside {
        shelf_fails: &[0],
        ..with(FIRST, "4\n5\n")
    };
    assert!(rt; means(alloc, unloaded, 3, "read fault\n", 4)?);
    let cut = Outside {
        source_fails: &[1],
        ..with(FIRST, "4\n5\n")
    };
    assert!(rt; means(alloc, cut, 3, "tick 0: 5\nread fault\n", 1)?);
    let unwritten = Outside {
        sink_fails: &[1],
        ..with(FIRST, "4\n5\n")
    };
    assert!(rt; means(alloc, unwritten, 4, "tick 0: 5\n", 0)?);
    let unsent = Outside {
        sink_fails: &[3],
        ..with(FIRST, "4\n5\n")
    };
    assert!(rt; means(alloc, unsent, 4, "tick 0: 5\ntick 1: 5\nticks 2\n", 0)?);
    Ok(())
}

// Whether a call with these words comes so, where nothing fails.
fn says(alloc: Global, words: &str, status: u8, written: &str) -> Result<bool, Memory> {
    let wanted = Wanted {
        status,
        written,
        image: None,
        cert: None,
        left: 2,
    };
    comes_so(alloc, words, with(FIRST, "4\n"), wanted)
}

#[test]
fn gen_prints_a_program_of_so_many_threads(rt: HostRuntime) -> Result<(), Fail> {
    let alloc = rt.alloc();
    assert!(rt; says(alloc, "gen 1", 0, GENERATED)?);
    assert!(rt;
        reports(
            alloc,
            GENERATED,
            "1\n2\n3\n",
            "tick 0: 1\ntick 1: 3\ntick 2: 6\nticks 3\n"
        )?
    );
    assert!(rt; says(alloc, "gen 0", 2, "usage\n")?);
    assert!(rt; says(alloc, "gen 63", 2, "usage\n")?);
    assert!(rt; says(alloc, "gen 01", 2, "usage\n")?);
    assert!(rt; says(alloc, "gen 1x", 2, "usage\n")?);
    assert!(rt; says(alloc, "gen 100", 2, "usage\n")?);
    assert!(rt; says(alloc, "mean p p", 2, "usage\n")?);
    assert!(rt; says(alloc, "mean missing", 17, "no file\n")?);
    Ok(())
}
