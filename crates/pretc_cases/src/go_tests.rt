use crate::calls::{Outside, Wanted, comes_so, with};
use pt_base::Memory;
use std::alloc::Global;
use std::test::Fail;

const FIRST: &str =
    "ReactiveInput int a = 0;\nReactiveOutput int o = 0;\nvoid main() { o = a + 1; EOT; }";

// `lwi r9, r0, 0`, `addik r10, r0, 1`, `addk r9, r9, r10`, `swi r9, r0, 4`, `eot`, `end`; behind the two cells a further word.
const FIRST_IMAGE: &str = "ARPRET 1
code 6
e9200000
31400001
11295000
f9200004
fc200000
fc400000
memory 3
0
0
0
inputs 1
0
outputs 1
1
slots 1
0
aborts 0
pauses 1
4 0 0
forks 0
";

// Whether the first program's report on an input is this.
fn reports(alloc: Global, input: &str, report: &str) -> Result<bool, Memory> {
    let wanted = Wanted {
        status: 0,
        written: report,
        image: Some(FIRST_IMAGE),
        cert: None,
        left: 0,
    };
    comes_so(alloc, "go p im", with(FIRST, input), wanted)
}

#[test]
fn go_reports_the_ticks_and_stores_the_image(rt: HostRuntime) -> Result<(), Fail> {
    let alloc = rt.alloc();
    assert!(rt;
        reports(
            alloc,
            "4\n5\n6\n",
            "tick 0: 5 cycles 8\ntick 1: 5 cycles 4\ntick 2: 5 cycles 3\nticks 3 worst 8\n"
        )?
    );
    assert!(rt; reports(alloc, "", "ticks 0 worst 0\n")?);
    assert!(rt;
        reports(
            alloc,
            "4\n5",
            "tick 0: 5 cycles 8\ntick 1: 5 cycles 4\nticks 2 worst 8\n"
        )?
    );
    assert!(rt;
        reports(
            alloc,
            "\t4 \r\n5\r\n",
            "tick 0: 5 cycles 8\ntick 1: 5 cycles 4\nticks 2 worst 8\n"
        )?
    );
    assert!(rt;
        reports(
            alloc,
            "2147483647\n",
            "tick 0: -2147483648 cycles 8\nticks 1 worst 8\n"
        )?
    );
    assert!(rt;
        reports(
            alloc,
            "-0\n007\n",
            "tick 0: 1 cycles 8\ntick 1: 1 cycles 4\nticks 2 worst 8\n"
        )?
    );
    Ok(())
}

// Whether a call on a program, with nothing stored or pulled, comes with this status and this line.
fn stops(
    alloc: Global,
    words: &str,
    program: &str,
    status: u8,
    line: &str,
) -> Result<bool, Memory> {
    let wanted = Wanted {
        status,
        written: line,
        image: None,
        cert: None,
        left: 2,
    };
    comes_so(alloc, words, with(program, "4\n"), wanted)
}

// The first line of words that isn't a usage fault.
fn first_used<'a>(alloc: Global, lines: &'a str) -> Result<&'a str, Memory> {
    for words in lines.lines() {
        if !stops(alloc, words, FIRST, 2, "usage\n")? {
            return Ok(words);
        }
    }
    Ok("none")
}

#[test]
fn other_words_are_a_usage_fault(rt: HostRuntime) -> Result<(), Fail> {
    let lines = "
go
go p
print
print p p
go p p
go p im x
gone p im
check im ce
check im ce - x
checks im ce -";
    assert_eq!(rt; first_used(rt.alloc(), lines)?, "none");
    Ok(())
}

#[test]
fn an_absent_program_is_no_file(rt: HostRuntime) -> Result<(), Fail> {
    let alloc = rt.alloc();
    assert!(rt; stops(alloc, "go missing im", FIRST, 17, "no file\n")?);
    assert!(rt; stops(alloc, "go  im", FIRST, 17, "no file\n")?);
    assert!(rt; stops(alloc, "print missing", FIRST, 17, "no file\n")?);
    assert!(rt; stops(alloc, "rules missing", FIRST, 17, "no file\n")?);
    Ok(())
}

// Whether a row `LINE <= PROGRAM` is so, of `go` and of `print`.
fn is_refused(alloc: Global, row: &str) -> Result<bool, Memory> {
    let Some((rule, program)) = row.split_once(" <= ") else {
        return Ok(false);
    };
    let line = format!(in alloc; "refused {}\n", rule)?;
    let first = stops(alloc, "go p im", program, 1, &line)?;
    Ok(first && stops(alloc, "print p", program, 1, &line)?)
}

// The first row that isn't so.
fn first_not_refused<'a>(alloc: Global, rows: &'a str) -> Result<&'a str, Memory> {
    for row in rows.lines() {
        if !is_refused(alloc, row)? {
            return Ok(row);
        }
    }
    Ok("none")
}

#[test]
fn a_program_that_breaks_a_rule_is_refused(rt: HostRuntime) -> Result<(), Fail> {
    let rows = "L2 25 35 <= int o; void main() { o = 4294967296; }
L1 4 6 <= int 1x; void main() { }
L3 16 18 <= void main() { } /* x
S1 4 9 <= int while; void main() { }
S1 17 17 <= void main() { EOT
L1 29 30 <= int o; void main() { o = 1 } $
S1 18 19 <= void main() { PAR(); }
S1 19 22 <= void main() { EOT; int i; }";
    assert_eq!(rt; first_not_refused(rt.alloc(), rows)?, "none");
    Ok(())
}

// Whether `go` on the first program ends with this status once the image is stored.
fn ends(
    alloc: Global,
    outside: Outside<'_>,
    status: u8,
    written: &str,
    left: usize,
) -> Result<bool, Memory> {
    let wanted = Wanted {
        status,
        written,
        image: Some(FIRST_IMAGE),
        cert: None,
        left,
    };
    comes_so(alloc, "go p im", outside, wanted)
}

// Whether `go` on an input ends with status 7 and this report, by three bytes a pull and by one.
fn is_bad(alloc: Global, input: &str, written: &str) -> Result<bool, Memory> {
    let by_byte = Outside {
        step: 1,
        ..with(FIRST, input)
    };
    let first = ends(alloc, with(FIRST, input), 7, written, 0)?;
    Ok(first && ends(alloc, by_byte, 7, written, 0)?)
}

#[test]
fn a_bad_line_ends_the_report_after_the_ticks_before_it(rt: HostRuntime) -> Result<(), Fail> {
    let alloc = rt.alloc();
    assert!(rt;
        is_bad(
            alloc,
            "4\n5\n2147483648\n",
            "tick 0: 5 cycles 8\ntick 1: 5 cycles 4\ntrace T1 line 3\n"
        )?
    );
    assert!(rt; is_bad(alloc, "4\n\n", "tick 0: 5 cycles 8\ntrace T2 line 2\n")?);
    assert!(rt; is_bad(alloc, "x", "trace T1 line 1\n")?);
    assert!(rt; is_bad(alloc, "4 5\n", "trace T2 line 1\n")?);
    Ok(())
}

// Whether `go` stores nothing and ends with this status, where a call of the shelf fails.
fn shelf_fails(alloc: Global, call: u64, status: u8, line: &str) -> Result<bool, Memory> {
    let fails = [call];
    let outside = Outside {
        shelf_fails: &fails,
        ..with(FIRST, "4\n5\n")
    };
    let wanted = Wanted {
        status,
        written: line,
        image: None,
        cert: None,
        left: 4,
    };
    comes_so(alloc, "go p im", outside, wanted)
}

#[test]
fn a_failed_load_or_store_has_its_status(rt: HostRuntime) -> Result<(), Fail> {
    assert!(rt; shelf_fails(rt.alloc(), 0, 3, "read fault\n")?);
    assert!(rt; shelf_fails(rt.alloc(), 1, 11, "store fault\n")?);
    Ok(())
}

// Whether a pull that fails is a read fault behind the lines of these ticks, with so many bytes left.
fn pull_fails(
    alloc: Global,
    step: usize,
    call: u64,
    ticks: &str,
    left: usize,
) -> Result<bool, Memory> {
    let fails = [call];
    let outside = Outside {
        source_fails: &fails,
        step,
        ..with(FIRST, "4\n5\n")
    };
    let written = format!(in alloc; "{}read fault\n", ticks)?;
    ends(alloc, outside, 3, &written, left)
}

#[test]
fn a_failed_pull_is_a_read_fault_after_the_ticks_before_it(rt: HostRuntime) -> Result<(), Fail> {
    let alloc = rt.alloc();
    let first = "tick 0: 5 cycles 8\n";
    let both = "tick 0: 5 cycles 8\ntick 1: 5 cycles 4\n";
    assert!(rt; pull_fails(alloc, 3, 0, "", 4)?);
    assert!(rt; pull_fails(alloc, 3, 1, first, 1)?);
    assert!(rt; pull_fails(alloc, 3, 2, both, 0)?);
    assert!(rt; pull_fails(alloc, 1, 0, "", 4)?);
    assert!(rt; pull_fails(alloc, 1, 1, "", 3)?);
    assert!(rt; pull_fails(alloc, 1, 2, first, 2)?);
    assert!(rt; pull_fails(alloc, 1, 3, first, 1)?);
    assert!(rt; pull_fails(alloc, 1, 4, both, 0)?);
    Ok(())
}

// Whether a push or a flush that fails is a write fault behind this front of the report.
fn push_fails(alloc: Global, call: u64, written: &str, left: usize) -> Result<bool, Memory> {
    let fails = [call];
    let outside = Outside {
        sink_fails: &fails,
        room: 99,
        ..with(FIRST, "4\n5\n")
    };
    ends(alloc, outside, 4, written, left)
}

#[test]
fn a_failed_push_or_flush_leaves_a_front_of_the_report(rt: HostRuntime) -> Result<(), Fail> {
    let alloc = rt.alloc();
    assert!(rt; push_fails(alloc, 0, "", 1)?);
    assert!(rt; push_fails(alloc, 1, "tick 0: 5 cycles 8\n", 0)?);
    assert!(rt; push_fails(alloc, 2, "tick 0: 5 cycles 8\ntick 1: 5 cycles 4\n", 0)?);
    assert!(rt;
        push_fails(
            alloc,
            3,
            "tick 0: 5 cycles 8\ntick 1: 5 cycles 4\nticks 2 worst 8\n",
            0
        )?
    );
    let narrow = Outside {
        room: 37,
        ..with(FIRST, "4\n5\n")
    };
    assert!(rt; ends(alloc, narrow, 4, "tick 0: 5 cycles 8\n", 0)?);
    Ok(())
}

// Whether a call of the sink that fails in a usage fault is a write fault, with this written.
fn usage_fails(alloc: Global, call: u64, written: &str) -> Result<bool, Memory> {
    let fails = [call];
    let outside = Outside {
        sink_fails: &fails,
        ..with(FIRST, "4\n")
    };
    let wanted = Wanted {
        status: 4,
        written,
        image: None,
        cert: None,
        left: 2,
    };
    comes_so(alloc, "go", outside, wanted)
}

#[test]
fn a_failed_push_of_usage_is_a_write_fault(rt: HostRuntime) -> Result<(), Fail> {
    assert!(rt; usage_fails(rt.alloc(), 0, "")?);
    assert!(rt; usage_fails(rt.alloc(), 1, "usage\n")?);
    Ok(())
}
