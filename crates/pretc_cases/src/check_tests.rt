use crate::calls::Outside;
use crate::checks::{checks_so, files};
use pt_base::Memory;
use std::alloc::Global;
use std::test::Fail;

/// A counter: loads its input, adds 1, stores its output, pauses, and jumps back.
pub const COUNTER: &str =
    "ARPRET 1\ncode 5\ne8600000\n30630001\nf8600004\nfc200000\nb800fff0\nmemory 2\n0\n0\ninputs 1\n0\noutputs 1\n1\nslots 1\n0\naborts 0\npauses 1\n3 0 0\nforks 0\n";

/// Its certificate, where each class costs 1.
pub const COUNTER_CERT: &str =
    "PRETCERT 1\nbound 8\nat 5\nT 0 0 0 4 -\nT 0 0 0 3 -\nT 0 0 0 2 -\nT 0 0 0 1 -\nT 0 0 0 5 -\nloops 0\nslots 1\n5 -\nwalk 1\np 3\nchoices 0\n\n";

// Its certificate, where a pause costs 7 and each other class 1.
const DEAR_CERT: &str =
    "PRETCERT 1\nbound 14\nat 5\nT 0 0 0 10 -\nT 0 0 0 9 -\nT 0 0 0 8 -\nT 0 0 0 7 -\nT 0 0 0 11 -\nloops 0\nslots 1\n11 -\nwalk 1\np 3\nchoices 0\n\n";

// The same without its last byte.
const SHORT_CERT: &str =
    "PRETCERT 1\nbound 14\nat 5\nT 0 0 0 10 -\nT 0 0 0 9 -\nT 0 0 0 8 -\nT 0 0 0 7 -\nT 0 0 0 11 -\nloops 0\nslots 1\n11 -\nwalk 1\np 3\nchoices 0\n";

/// A load at a bad address, a pause, and a jump back.
pub const BAD_LOAD: &str =
    "ARPRET 1\ncode 3\ne8600008\nfc200000\nb800fff8\nmemory 2\n0\n0\ninputs 0\noutputs 0\nslots 1\n0\naborts 0\npauses 1\n1 0 0\nforks 0\n";

pub const BAD_LOAD_CERT: &str =
    "PRETCERT 1\nbound 4\nat 3\nT 0 0 0 2 -\nT 0 0 0 1 -\nT 0 0 0 3 -\nloops 0\nslots 1\n3 -\nwalk 1\np 1\nchoices 0\n\n";

// A jump to itself.
const ENDLESS: &str =
    "ARPRET 1\ncode 1\nb8000000\nmemory 0\ninputs 0\noutputs 0\nslots 1\n0\naborts 0\npauses 0\nforks 0\n";

const ENDLESS_CERT: &str =
    "PRETCERT 1\nbound 1\nat 1\nT 0 0 0 - -\nloops 0\nslots 1\n- -\nwalk 1\ns\nchoices 0\n\n";

// Two forks of one slot.
const FORKS: &str =
    "ARPRET 1\ncode 4\nfc000101\nfc000101\nfc400000\nfc400000\nmemory 0\ninputs 0\noutputs 0\nslots 2\n0\n3\naborts 0\npauses 0\nforks 2\n0 0 0\n1 0 0\n";

const FORKS_CERT: &str =
    "PRETCERT 1\nbound 6\nat 4\nT 0 0 0 - 5\nT 0 0 0 - 3\nT 0 0 0 - 1\nT 1 0 0 - 1\nloops 0\nslots 2\n- -\n- -\nwalk 2\ns\nf\nchoices 0\n\n";

// Whether a check at unit costs, where nothing fails, answers this status and this line.
fn answers(alloc: Global, image: &str, cert: &str, status: u8, line: &str) -> Result<bool, Memory> {
    checks_so(alloc, "check im ce -", files(image, cert), status, line)
}

#[test]
fn a_check_answers_yes_or_the_first_demand_that_fails(rt: HostRuntime) -> Result<(), Fail> {
    let alloc = rt.alloc();
    assert!(rt; answers(alloc, COUNTER, COUNTER_CERT, 0, "yes bound 8 reached\n")?);
    assert!(rt;
        answers(
            alloc,
            COUNTER,
            "PRETCERT 1\nbound 7\nat 5\nT 0 0 0 4 -\nT 0 0 0 3 -\nT 0 0 0 2 -\nT 0 0 0 1 -\nT 0 0 0 5 -\nloops 0\nslots 1\n5 -\nwalk 1\np 3\nchoices 0\n\n",
            9,
            "no A7 at 0 level 0 needed 8 given 7\n"
        )?
    );
    assert!(rt;
        answers(
            alloc,
            COUNTER,
            "PRETCERT 1\nbound 9\nat 5\nT 0 0 0 4 -\nT 0 0 0 3 -\nT 0 0 0 2 -\nT 0 0 0 1 -\nT 0 0 0 5 -\nloops 0\nslots 1\n5 -\nwalk 1\np 3\nchoices 0\n\n",
            0,
            "yes bound 9\n"
        )?
    );
    assert!(rt; answers(alloc, BAD_LOAD, BAD_LOAD_CERT, 0, "yes bound 4 reached\n")?);
    assert!(rt;
        answers(
            alloc,
            ENDLESS,
            ENDLESS_CERT,
            9,
            "no A1 at 0 level 0 needed 0 given 0\n"
        )?
    );
    assert!(rt; answers(alloc, COUNTER, DEAR_CERT, 0, "yes bound 14\n")?);
    assert!(rt;
        answers(
            alloc,
            COUNTER,
            "PRETCERT 1\nbound 8\nat 5\nT 0 0 0 3 -\nT 0 0 0 3 -\nT 0 0 0 2 -\nT 0 0 0 1 -\nT 0 0 0 5 -\nloops 0\nslots 1\n5 -\nwalk 1\np 3\nchoices 0\n\n",
            9,
            "no A3 at 0 level 0 needed 4 given 3\n"
        )?
    );
    assert!(rt;
        answers(
            alloc,
            COUNTER,
            "PRETCERT 1\nbound 8\nat 5\nT 0 0 0 4 -\nT 0 0 0 3 -\nT 0 0 0 2 -\nT 0 0 0 1 -\nT 0 0 0 5 -\nloops 0\nslots 1\n4 -\nwalk 1\np 3\nchoices 0\n\n",
            9,
            "no A6 at 3 level 0 needed 5 given 4\n"
        )?
    );
    Ok(())
}

#[test]
fn a_file_out_of_form_has_its_group_of_lines(rt: HostRuntime) -> Result<(), Fail> {
    let alloc = rt.alloc();
    assert!(rt; answers(alloc, COUNTER, SHORT_CERT, 8, "cert K6\n")?);
    assert!(rt;
        answers(
            alloc,
            COUNTER,
            "PRETCERT 1\nbound 14\nat 5\nT 0 0 0 10 -\nT 0 0 0 9 -\nT 0 0 0 8 -\nT 0 0 0 7 -\nT 0 0 0 11 -\nloops 0\nslots 1\n11 -\nwalk 1\np 3\nchoices 0\n\n\n",
            8,
            "cert K7\n"
        )?
    );
    assert!(rt;
        answers(
            alloc,
            "ARPRET 1\ncode 5\ne8600000\n30630001\nf8600004\nfc200000\nb800fff0\nmemory 2\n0\n0\ninputs 1\n0\noutputs 1\n1\nslots 1\n0\naborts 0\npauses 1\n3 0 0\nforks 0\n\n",
            DEAR_CERT,
            8,
            "image I10\n"
        )?
    );
    assert!(rt; answers(alloc, "", "", 8, "image I1\n")?);
    assert!(rt; answers(alloc, COUNTER, "", 8, "cert K1\n")?);
    Ok(())
}

#[test]
fn images_with_forks_aborts_loops_and_routines_are_checked(rt: HostRuntime) -> Result<(), Fail> {
    let alloc = rt.alloc();
    assert!(rt;
        answers(
            alloc,
            "ARPRET 1\ncode 7\nfc000102\n30630001\nfc200000\nfc400000\nfc200000\nfc400000\nfc400000\nmemory 0\ninputs 0\noutputs 0\nslots 3\n0\n4\n6\naborts 0\npauses 2\n2 0 0\n4 1 0\nforks 1\n0 0 0\n",
            "PRETCERT 1\nbound 4\nat 7\nT 0 0 0 3 -\nT 0 0 0 2 -\nT 0 0 0 1 -\nT 0 0 0 - 1\nT 1 0 0 1 -\nT 1 0 0 - 1\nT 2 0 0 - 1\nloops 0\nslots 3\n3 1\n- 1\n- -\nwalk 3\nw 0\np 4\ne\nchoices 0\n\n",
            0,
            "yes bound 4 reached\n"
        )?
    );
    assert!(rt;
        answers(
            alloc,
            "ARPRET 1\ncode 6\nfc600000\nfc200000\nb800fffc\nb800fff4\ne8800000\nfd440000\nmemory 1\n0\ninputs 1\n0\noutputs 0\nslots 1\n0\naborts 1\nw 4 3\npauses 1\n1 0 1 0\nforks 0\n",
            "PRETCERT 1\nbound 9\nat 6\nT 0 0 0 2 -\nT 0 1 0 0 1 - 4 -\nT 0 1 0 0 2 - 5 -\nT 0 0 0 3 -\nC 2\nC 1\nloops 0\nslots 1\n7 -\nwalk 1\np 1\nchoices 1\n1\n",
            0,
            "yes bound 9 reached\n"
        )?
    );
    assert!(rt;
        answers(
            alloc,
            "ARPRET 1\ncode 6\nfce00003\nfd000004\n30630001\nb800fff8\nfc200000\nb800ffec\nmemory 0\ninputs 0\noutputs 0\nslots 1\n0\naborts 0\npauses 1\n4 0 0\nforks 0\n",
            "PRETCERT 1\nbound 14\nat 6\nT 0 0 0 12 -\nT 0 0 1 0 2 -\nT 0 0 1 0 4 -\nT 0 0 1 0 3 -\nT 0 0 0 1 -\nT 0 0 0 13 -\nloops 1\n0 3\nslots 1\n13 -\nwalk 1\np 4\nchoices 0\n\n",
            0,
            "yes bound 14 reached\n"
        )?
    );
    assert!(rt;
        answers(
            alloc,
            "ARPRET 1\ncode 6\nfc600000\nfc000101\nfc800000\nfc400000\nfc400000\nfd400000\nmemory 0\ninputs 0\noutputs 0\nslots 2\n0\n4\naborts 1\ns 5 3\npauses 0\nforks 1\n1 0 1 0\n",
            "PRETCERT 1\nbound 6\nat 6\nT 0 0 0 - 5\nT 0 1 0 0 - 4 - 4\nT 0 1 0 0 - 2 - 2\nT 0 0 0 - 1\nT 1 0 0 - 1\nC 1\nloops 0\nslots 2\n- -\n- -\nwalk 2\ns\nf\nchoices 0\n\n",
            0,
            "yes bound 6 reached\n"
        )?
    );
    assert!(rt;
        answers(
            alloc,
            "ARPRET 1\ncode 4\nfca00002\nfc400000\nfca00002\nfcc00000\nmemory 0\ninputs 0\noutputs 0\nslots 1\n0\naborts 0\npauses 0\nforks 0\n",
            "PRETCERT 1\nbound 7\nat 4\nT 0 0 0 - 6\nT 0 0 0 - 1\nR 1 0 4\nR 1 0 1\nloops 0\nslots 1\n- -\nwalk 1\ns\nchoices 0\n\n",
            9,
            "no A1 at 2 level 0 needed 0 given 0\n"
        )?
    );
    assert!(rt;
        answers(
            alloc,
            FORKS,
            FORKS_CERT,
            9,
            "no A2 at 1 level 0 needed 0 given 0\n"
        )?
    );
    Ok(())
}

#[test]
fn words_weights_and_loops_are_looked_at(rt: HostRuntime) -> Result<(), Fail> {
    let alloc = rt.alloc();
    assert!(rt;
        answers(
            alloc,
            "ARPRET 1\ncode 5\ne8600000\nffffffff\nf8600004\nfc200000\nb800fff0\nmemory 2\n0\n0\ninputs 1\n0\noutputs 1\n1\nslots 1\n0\naborts 0\npauses 1\n3 0 0\nforks 0\n",
            COUNTER_CERT,
            9,
            "no A1 at 1 level 0 needed 0 given 0\n"
        )?
    );
    assert!(rt;
        answers(
            alloc,
            COUNTER,
            "PRETCERT 1\nbound 8\nat 5\nT 0 0 0 4 -\nT 0 0 0 3 -\nT 0 0 0 2 -\nT 0 0 0 1 -\nT 0 0 0 5 -\nloops 1\n3 1\nslots 1\n5 -\nwalk 1\np 3\nchoices 0\n\n",
            0,
            "yes bound 8 reached\n"
        )?
    );
    assert!(rt;
        answers(
            alloc,
            COUNTER,
            "PRETCERT 1\nbound 8\nat 5\nT 0 0 1 2 4 -\nT 0 0 0 3 -\nT 0 0 0 2 -\nT 0 0 0 1 -\nT 0 0 0 5 -\nloops 0\nslots 1\n5 -\nwalk 1\np 3\nchoices 0\n\n",
            9,
            "no A1 at 0 level 0 needed 0 given 0\n"
        )?
    );
    Ok(())
}

// A table where a pause costs 7 and each other class 1, without its last key.
const TABLE: &str =
    "alu = 1\nshift = 1\nmul = 1\ndiv = 1\nimm = 1\nload = 1\nstore = 1\njump = 1\ntaken = 1\nuntaken = 1\nfork = 1\neot = 7\nend = 1\nabrt = 1\nleave = 1\ncall = 1\nret = 1\nloop = 1\nnext = 1\ndrop = 1\ncend = 1\n";

// Whether a check of the counter, under the table and what comes behind it, answers this status and this line.
fn prices(alloc: Global, table: &str, rest: &str, status: u8, line: &str) -> Result<bool, Memory> {
    let text = format!(in alloc; "{}{}", table, rest)?;
    let outside = Outside {
        program: Some(&text),
        ..files(COUNTER, DEAR_CERT)
    };
    checks_so(alloc, "check im ce p", outside, status, line)
}

#[test]
fn a_table_of_costs_is_read_or_refused(rt: HostRuntime) -> Result<(), Fail> {
    let alloc = rt.alloc();
    assert!(rt; prices(alloc, TABLE, "tick = 1\n", 0, "yes bound 14 reached\n")?);
    assert!(rt;
        prices(
            alloc,
            TABLE,
            "tick = 2\n",
            9,
            "no A7 at 0 level 0 needed 17 given 14\n"
        )?
    );
    assert!(rt; prices(alloc, TABLE, "", 6, "costs C2 tick\n")?);
    assert!(rt; prices(alloc, TABLE, "tick = 256\n", 6, "costs C3 tick\n")?);
    assert!(rt; prices(alloc, TABLE, "tick = 1\ntock = 1\n", 6, "costs C4\n")?);
    assert!(rt; prices(alloc, TABLE, "tick", 6, "costs C1\n")?);
    let missing = files(COUNTER, DEAR_CERT);
    assert!(rt; checks_so(alloc, "check im ce costs", missing, 17, "no file\n")?);
    let unread = Outside {
        program: Some("x"),
        ..files(COUNTER, SHORT_CERT)
    };
    assert!(rt; checks_so(alloc, "check im ce p", unread, 8, "cert K6\n")?);
    let failed = Outside {
        program: Some("x"),
        shelf_fails: &[2],
        ..files(COUNTER, SHORT_CERT)
    };
    assert!(rt; checks_so(alloc, "check im ce p", failed, 3, "read fault\n")?);
    Ok(())
}

// Whether a check without one of its files is no file.
fn misses(alloc: Global, image: Option<&str>, cert: Option<&str>) -> Result<bool, Memory> {
    let outside = Outside {
        image,
        cert,
        ..files("", "")
    };
    checks_so(alloc, "check im ce -", outside, 17, "no file\n")
}

// Whether a load that fails is a read fault, also where there is no certificate.
fn load_fails(alloc: Global, call: u64) -> Result<bool, Memory> {
    let fails = [call];
    let outside = Outside {
        cert: None,
        shelf_fails: &fails,
        ..files(COUNTER, "")
    };
    checks_so(alloc, "check im ce -", outside, 3, "read fault\n")
}

// Whether a call of the sink that fails is a write fault, with this written.
fn sink_fails(alloc: Global, call: u64, written: &str) -> Result<bool, Memory> {
    let fails = [call];
    let outside = Outside {
        sink_fails: &fails,
        ..files(COUNTER, COUNTER_CERT)
    };
    checks_so(alloc, "check im ce -", outside, 4, written)
}

#[test]
fn the_files_and_the_sink_fail_in_turn(rt: HostRuntime) -> Result<(), Fail> {
    let alloc = rt.alloc();
    assert!(rt; misses(alloc, None, Some(COUNTER_CERT))?);
    assert!(rt; misses(alloc, Some(COUNTER), None)?);
    assert!(rt; load_fails(alloc, 0)?);
    assert!(rt; load_fails(alloc, 1)?);
    assert!(rt; sink_fails(alloc, 0, "")?);
    assert!(rt; sink_fails(alloc, 1, "yes bound 8 reached\n")?);
    Ok(())
}
