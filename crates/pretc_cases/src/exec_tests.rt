use crate::calls::{Outside, Wanted, comes_so};
use crate::check_tests::{BAD_LOAD, BAD_LOAD_CERT, COUNTER, COUNTER_CERT};
use crate::checks::files;
use pt_base::Memory;
use std::alloc::Global;
use std::test::Fail;

// Whether `exec` at unit costs answers this status, writes just this, leaves the files, and so many bytes of the input.
fn execs(
    alloc: Global,
    outside: Outside<'_>,
    status: u8,
    written: &str,
    left: usize,
) -> Result<bool, Memory> {
    let wanted = Wanted {
        status,
        written,
        image: outside.image,
        cert: outside.cert,
        left,
    };
    comes_so(alloc, "exec im ce -", outside, wanted)
}

// The counter on an input.
fn counter<'a>(input: &'a str) -> Outside<'a> {
    Outside {
        input,
        ..files(COUNTER, COUNTER_CERT)
    }
}

#[test]
fn exec_reports_the_bound_and_the_ticks(rt: HostRuntime) -> Result<(), Fail> {
    let alloc = rt.alloc();
    assert!(rt;
        execs(
            alloc,
            counter("4\n5\n"),
            0,
            "bound 8\ntick 0: 5 cycles 7\ntick 1: 6 cycles 8\nticks 2 worst 8\n",
            0
        )?
    );
    assert!(rt; execs(alloc, counter(""), 0, "bound 8\nticks 0 worst 0\n", 0)?);
    assert!(rt;
        execs(
            alloc,
            counter("4\nx\n"),
            7,
            "bound 8\ntick 0: 5 cycles 7\ntrace T1 line 2\n",
            0
        )?
    );
    let bad = Outside {
        input: "\n\n",
        ..files(BAD_LOAD, BAD_LOAD_CERT)
    };
    assert!(rt; execs(alloc, bad, 10, "bound 4\ntrap BadAddress at 0 tick 0\n", 1)?);
    let narrow = files(
        COUNTER,
        "PRETCERT 1\nbound 7\nat 5\nT 0 0 0 4 -\nT 0 0 0 3 -\nT 0 0 0 2 -\nT 0 0 0 1 -\nT 0 0 0 5 -\nloops 0\nslots 1\n5 -\nwalk 1\np 3\nchoices 0\n\n",
    );
    assert!(rt; execs(alloc, narrow, 9, "no A7 at 0 level 0 needed 8 given 7\n", 2)?);
    Ok(())
}

#[test]
fn the_outside_fails_in_turn(rt: HostRuntime) -> Result<(), Fail> {
    let alloc = rt.alloc();
    let cut = Outside {
        source_fails: &[2],
        ..counter("4\n5\n")
    };
    assert!(rt;
        execs(
            alloc,
            cut,
            3,
            "bound 8\ntick 0: 5 cycles 7\nread fault\n",
            2
        )?
    );
    let unsaid = Outside {
        sink_fails: &[0],
        ..counter("4\n5\n")
    };
    assert!(rt; execs(alloc, unsaid, 4, "", 4)?);
    let unwritten = Outside {
        sink_fails: &[2],
        ..counter("4\n5\n")
    };
    assert!(rt; execs(alloc, unwritten, 4, "bound 8\ntick 0: 5 cycles 7\n", 0)?);
    let unloaded = Outside {
        shelf_fails: &[1],
        ..counter("4\n")
    };
    assert!(rt; execs(alloc, unloaded, 3, "read fault\n", 2)?);
    Ok(())
}
