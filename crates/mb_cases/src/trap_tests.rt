use crate::runs::{all_run_so, runs_so};
use pt_base::Memory;
use std::alloc::Global;
use std::test::Fail;

// The text of an image of one slot with these code words and one weak abort line.
fn text_of(alloc: Global, code: &str) -> Result<String, Memory> {
    let words = code.split_whitespace().count();
    let mut text = format!(in alloc; "ARPRET 1\ncode {}\n", words)?;
    for word in code.split_whitespace() {
        text.push_str(word)?;
        text.push_str("\n")?;
    }
    text.push_str(
        "memory 2\n0\n0\ninputs 0\noutputs 0\nslots 1\n0\naborts 1\nw 0 0\npauses 0\nforks 0\n",
    )?;
    Ok(text)
}

// One line of a table: code words, the cycles that a tick may take, and the trap of the first tick and the next.
fn line_traps_so(alloc: Global, line: &str) -> Result<bool, Memory> {
    let mut fields = line.split(',');
    let (Some(code), Some(most), Some(told)) = (fields.next(), fields.next(), fields.next()) else {
        return Ok(false);
    };
    let Ok(most) = most.parse::<u64>() else {
        return Ok(false);
    };
    let text = text_of(alloc, code)?;
    runs_so(alloc, &text, ";", most, told)
}

// Whether each line of a table traps as it tells.
fn all_trap_so(alloc: Global, table: &str) -> Result<bool, Memory> {
    for line in table.lines() {
        if !line_traps_so(alloc, line)? {
            return Ok(false);
        }
    }
    Ok(true)
}

const EACH: &str = concat!(
    "30630001,100,OutOfCode 1;OutOfCode 1;\n",
    "ffffffff,100,BadWord 0;BadWord 0;\n",
    "b0000001 10632000,100,WrongPlace 1;WrongPlace 1;\n",
    "fd400000,100,WrongPlace 0;WrongPlace 0;\n",
    "fc200000,100,WrongPlace 0;WrongPlace 0;\n",
    "fce00001 fc400000,100,WrongPlace 1;WrongPlace 1;\n",
    "fc600001,100,WrongPlace 0;WrongPlace 0;\n",
    "fca00000,100,TableFull 0;TableFull 0;\n",
    "fcc00000,100,TableEmpty 0;TableEmpty 0;\n",
    "e8600008,100,BadAddress 0;BadAddress 0;\n",
    "b8000010,100,OutOfCode 0;OutOfCode 0;\n",
    "b8000000,5,Late 0;Late 0;\n",
    "b8000000,0,Late 0;Late 0;",
);

// Each of these meets two traps at once, or a trap behind a branch that isn't taken.
const FIRST_OF_TWO: &str = concat!(
    "b0000001 ffffffff,100,BadWord 1;BadWord 1;\n",
    "fc600000 fc600000 fc600000 fc600000 fc600000 fc600000 fc600000 fc600000 fc600000,100,TableFull 8;TableFull 8;\n",
    "fc600000 fc600000 fc600000 fc600000 fc600000 fc600000 fc600000 fc600000 fca00009 fc600000,100,WrongPlace 9;WrongPlace 9;\n",
    "fca00001 fc800000,100,WrongPlace 1;WrongPlace 1;\n",
    "fc800000,100,TableEmpty 0;TableEmpty 0;\n",
    "e8600008,1,BadAddress 0;BadAddress 0;\n",
    "b8000010,1,OutOfCode 0;OutOfCode 0;\n",
    "bc000010,1,OutOfCode 0;OutOfCode 0;\n",
    "bc200010 fc200000,2,WrongPlace 1;WrongPlace 1;",
);

// Slot 1 forks slot 2, which slot 0 has started.
const BUSY: &str = concat!(
    "ARPRET 1\ncode 4\nfc000102\nfc400000\nfc000201\nfc400000\n",
    "memory 0\ninputs 0\noutputs 0\nslots 3\n0\n2\n3\n",
    "aborts 0\npauses 0\nforks 2\n0 0 0\n2 1 0\n",
);

const BUSY_UNLISTED: &str = concat!(
    "ARPRET 1\ncode 4\nfc000102\nfc400000\nfc000201\nfc400000\n",
    "memory 0\ninputs 0\noutputs 0\nslots 3\n0\n2\n3\n",
    "aborts 0\npauses 0\nforks 1\n0 0 0\n",
);

#[test]
fn each_trap(rt: HostRuntime) -> Result<(), Fail> {
    assert!(rt; all_trap_so(rt.alloc(), EACH)?);
    assert!(rt; all_run_so(rt.alloc(), BUSY, ";,100,SlotBusy 2;SlotBusy 2;")?);
    Ok(())
}

#[test]
fn the_first_of_two_traps(rt: HostRuntime) -> Result<(), Fail> {
    assert!(rt; all_trap_so(rt.alloc(), FIRST_OF_TWO)?);
    assert!(rt; all_run_so(rt.alloc(), BUSY, ";,2,SlotBusy 2;SlotBusy 2;")?);
    assert!(rt;
        all_run_so(
            rt.alloc(),
            BUSY_UNLISTED,
            ";,100,WrongPlace 2;WrongPlace 2;"
        )?
    );
    Ok(())
}
