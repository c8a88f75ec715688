use crate::calls::{Outside, Wanted, comes_so, with};
use pt_base::Memory;
use std::alloc::Global;
use std::test::Fail;

const FIRST: &str =
    "ReactiveInput int a = 0;\nReactiveOutput int o = 0;\nvoid main() { o = a + 1; EOT; }";

// `lwi r9, r0, 0`, `addik r10, r0, 1`, `addk r9, r9, r10`, `swi r9, r0, 4`, `eot`, `end`; behind the two cells a further word.
const FIRST_IMAGE: &str = "ARPRET 1
code 6
e9200000
31400001
11295000
f9200004
fc200000
fc400000
memory 3
0
0
0
inputs 1
0
outputs 1
1
slots 1
0
aborts 0
pauses 1
4 0 0
forks 0
";

// Its certificate, where each class costs 1: five words to the pause, and one behind it, where the slot is resumed.
const FIRST_CERT: &str =
    "PRETCERT 1\nbound 8\nat 6\nT 0 0 0 5 -\nT 0 0 0 4 -\nT 0 0 0 3 -\nT 0 0 0 2 -\nT 0 0 0 1 -\nT 0 0 0 - 1\nloops 0\nslots 1\n- 1\nwalk 1\ns\nchoices 0\n\n";

const FIRST_REPORT: &str = "bound 8\ntick 0: 5 cycles 8\ntick 1: 5 cycles 4\nticks 2 worst 8\n";

// Whether `run` on the first program at unit costs ends so, with image and certificate stored.
fn runs(
    alloc: Global,
    outside: Outside<'_>,
    status: u8,
    written: &str,
    left: usize,
) -> Result<bool, Memory> {
    let wanted = Wanted {
        status,
        written,
        image: Some(FIRST_IMAGE),
        cert: Some(FIRST_CERT),
        left,
    };
    comes_so(alloc, "run p - im ce", outside, wanted)
}

#[test]
fn run_stores_image_and_certificate_and_reports(rt: HostRuntime) -> Result<(), Fail> {
    let alloc = rt.alloc();
    assert!(rt; runs(alloc, with(FIRST, "4\n5\n"), 0, FIRST_REPORT, 0)?);
    assert!(rt; runs(alloc, with(FIRST, ""), 0, "bound 8\nticks 0 worst 0\n", 0)?);
    assert!(rt;
        runs(
            alloc,
            with(FIRST, "4\nx\n"),
            7,
            "bound 8\ntick 0: 5 cycles 8\ntrace T1 line 2\n",
            0
        )?
    );
    Ok(())
}

// Whether `run` stores nothing, reads nothing of the trace, and ends with this status and this line.
fn stops(
    alloc: Global,
    words: &str,
    outside: Outside<'_>,
    status: u8,
    line: &str,
) -> Result<bool, Memory> {
    let wanted = Wanted {
        status,
        written: line,
        image: outside.image,
        cert: outside.cert,
        left: 2,
    };
    comes_so(alloc, words, outside, wanted)
}

#[test]
fn equal_words_and_other_numbers_are_a_usage_fault(rt: HostRuntime) -> Result<(), Fail> {
    let alloc = rt.alloc();
    let outside = with(FIRST, "4\n");
    for words in [
        "run p - im",
        "run p - im ce x",
        "run p p im ce",
        "run p - p ce",
        "run p - im p",
        "run p - - ce",
        "run p - im -",
        "run p - im im",
        "job",
        "job 0",
        "job 01",
        "job 63",
        "job 1 2",
    ] {
        assert!(rt; stops(alloc, words, outside, 2, "usage\n")?);
    }
    Ok(())
}

#[test]
fn a_bad_program_or_table_stores_nothing(rt: HostRuntime) -> Result<(), Fail> {
    let alloc = rt.alloc();
    let outside = with(FIRST, "4\n");
    assert!(rt; stops(alloc, "run missing - im ce", outside, 17, "no file\n")?);
    assert!(rt; stops(alloc, "run p missing im ce", outside, 17, "no file\n")?);
    let endless = with("int x = 0;\nvoid main() { while (1) { x = 1; } }", "4\n");
    assert!(rt; stops(alloc, "run p - im ce", endless, 1, "refused E1 25 30\n")?);
    let no_table = Outside {
        cert: Some("alu = "),
        ..outside
    };
    assert!(rt; stops(alloc, "run p ce im x", no_table, 6, "costs C1\n")?);
    let both = Outside {
        cert: Some("alu = "),
        ..endless
    };
    assert!(rt; stops(alloc, "run p ce im x", both, 1, "refused E1 25 30\n")?);
    Ok(())
}

// Whether `run` where a call of the shelf fails ends with this status and this line, with these files.
fn shelf_fails<'a>(
    alloc: Global,
    call: u64,
    status: u8,
    line: &'a str,
    image: Option<&'a str>,
) -> Result<bool, Memory> {
    let fails = [call];
    let outside = Outside {
        shelf_fails: &fails,
        ..with(FIRST, "4\n5\n")
    };
    let wanted = Wanted {
        status,
        written: line,
        image,
        cert: None,
        left: 4,
    };
    comes_so(alloc, "run p - im ce", outside, wanted)
}

#[test]
fn a_failed_load_or_store_of_a_run_has_its_status(rt: HostRuntime) -> Result<(), Fail> {
    let alloc = rt.alloc();
    assert!(rt; shelf_fails(alloc, 0, 3, "read fault\n", None)?);
    assert!(rt; shelf_fails(alloc, 1, 11, "store fault\n", None)?);
    assert!(rt; shelf_fails(alloc, 2, 11, "store fault\n", Some(FIRST_IMAGE))?);
    Ok(())
}

#[test]
fn a_failed_load_of_the_table_is_a_read_fault(rt: HostRuntime) -> Result<(), Fail> {
    let alloc = rt.alloc();
    let fails = [1];
    let outside = Outside {
        cert: Some("alu = "),
        shelf_fails: &fails,
        ..with(FIRST, "4\n")
    };
    assert!(rt; stops(alloc, "run p ce im x", outside, 3, "read fault\n")?);
    Ok(())
}

#[test]
fn a_failed_pull_of_a_run_is_a_read_fault_after_the_ticks_before_it(
    rt: HostRuntime,
) -> Result<(), Fail> {
    let alloc = rt.alloc();
    let first = Outside {
        source_fails: &[0],
        ..with(FIRST, "4\n5\n")
    };
    assert!(rt; runs(alloc, first, 3, "bound 8\nread fault\n", 4)?);
    let second = Outside {
        source_fails: &[1],
        ..with(FIRST, "4\n5\n")
    };
    assert!(rt;
        runs(
            alloc,
            second,
            3,
            "bound 8\ntick 0: 5 cycles 8\nread fault\n",
            1
        )?
    );
    Ok(())
}

// Whether a push or a flush of a run that fails is a write fault behind this front of the report.
fn push_fails(alloc: Global, call: u64, written: &str, left: usize) -> Result<bool, Memory> {
    let fails = [call];
    let outside = Outside {
        sink_fails: &fails,
        ..with(FIRST, "4\n5\n")
    };
    runs(alloc, outside, 4, written, left)
}

#[test]
fn a_failed_push_or_flush_of_a_run_leaves_a_front_of_the_report(
    rt: HostRuntime,
) -> Result<(), Fail> {
    let alloc = rt.alloc();
    assert!(rt; push_fails(alloc, 0, "", 4)?);
    assert!(rt; push_fails(alloc, 1, "bound 8\n", 1)?);
    assert!(rt; push_fails(alloc, 2, "bound 8\ntick 0: 5 cycles 8\n", 0)?);
    assert!(rt;
        push_fails(
            alloc,
            3,
            "bound 8\ntick 0: 5 cycles 8\ntick 1: 5 cycles 4\n",
            0
        )?
    );
    assert!(rt; push_fails(alloc, 4, FIRST_REPORT, 0)?);
    Ok(())
}

// Whether a job prints this, and touches nothing.
fn does(alloc: Global, words: &str, written: &str) -> Result<bool, Memory> {
    stops(alloc, words, with(FIRST, "4\n"), 0, written)
}

#[test]
fn a_job_prints_its_threads_its_bound_and_its_totals(rt: HostRuntime) -> Result<(), Fail> {
    let written = "threads 3\nbound 76\nticks 1000 sum 16500 worst 76\n";
    assert!(rt; does(rt.alloc(), "job 1", written)?);
    Ok(())
}

// Whether a job whose push or flush of this number fails is a write fault behind this front of its lines.
fn job_fails(alloc: Global, call: u64, written: &str) -> Result<bool, Memory> {
    let fails = [call];
    let outside = Outside {
        sink_fails: &fails,
        ..with(FIRST, "4\n")
    };
    stops(alloc, "job 1", outside, 4, written)
}

#[test]
fn a_failed_push_or_flush_of_a_job_leaves_a_front_of_its_lines(
    rt: HostRuntime,
) -> Result<(), Fail> {
    let alloc = rt.alloc();
    assert!(rt; job_fails(alloc, 0, "")?);
    assert!(rt; job_fails(alloc, 1, "threads 3\n")?);
    assert!(rt; job_fails(alloc, 2, "threads 3\nbound 76\n")?);
    assert!(rt;
        job_fails(
            alloc,
            3,
            "threads 3\nbound 76\nticks 1000 sum 16500 worst 76\n"
        )?
    );
    Ok(())
}
