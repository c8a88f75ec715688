use crate::runs::all_run_so;
use std::test::Fail;

// Adds 1 to its input, tick by tick.
const COUNTER: &str = concat!(
    "ARPRET 1\ncode 5\ne8600000\n30630001\nf8600004\nfc200000\nb800fff0\n",
    "memory 2\n0\n0\ninputs 1\n0\noutputs 1\n1\nslots 1\n0\n",
    "aborts 0\npauses 1\n3 0 0\nforks 0\n",
);

// A weak abort that fires.
const WEAK: &str = concat!(
    "ARPRET 1\ncode 6\nfc600000\nfc200000\nb800fffc\nb800fff4\ne8800000\nfd440000\n",
    "memory 1\n0\ninputs 1\n0\noutputs 0\nslots 1\n0\n",
    "aborts 1\nw 4 3\npauses 1\n1 0 1 0\nforks 0\n",
);

// The same with a strong abort.
const STRONG: &str = concat!(
    "ARPRET 1\ncode 6\nfc600000\nfc200000\nb800fffc\nb800fff4\ne8800000\nfd440000\n",
    "memory 1\n0\ninputs 1\n0\noutputs 0\nslots 1\n0\n",
    "aborts 1\ns 4 3\npauses 1\n1 0 1 0\nforks 0\n",
);

// A loop of three turns.
const LOOP: &str = concat!(
    "ARPRET 1\ncode 6\nfce00003\nfd000004\n30630001\nb800fff8\nfc200000\nb800ffec\n",
    "memory 0\ninputs 0\noutputs 0\nslots 1\n0\n",
    "aborts 0\npauses 1\n4 0 0\nforks 0\n",
);

// Slot 0 waits for slots 1 and 2; slot 1 pauses once.
const JOIN: &str = concat!(
    "ARPRET 1\ncode 7\nfc000102\n30600001\nfc200000\nfc400000\nfc200000\nfc400000\nfc400000\n",
    "memory 0\ninputs 0\noutputs 0\nslots 3\n0\n4\n6\n",
    "aborts 0\npauses 2\n2 0 0\n4 1 0\nforks 1\n0 0 0\n",
);

// Slots 0, 1 and 2 are each in a weak abort and wait for the next; slot 3 pauses in each tick.
const THREE_DEEP: &str = concat!(
    "ARPRET 1\ncode 25\nfc600000\nfc000101\nfc800000\nfc400000\nfc600001\nfc000201\nfc800000\nfc400000\n",
    "fc600002\nfc000301\nfc800000\nfc400000\nfc200000\nb800fffc\nfc400000\nfc200000\nfc400000\nfc200000\n",
    "fc400000\ne8800000\nfd440000\ne8800004\nfd440000\ne8800008\nfd440000\n",
    "memory 3\n0\n0\n0\ninputs 3\n0\n1\n2\noutputs 0\nslots 4\n0\n4\n8\n12\n",
    "aborts 3\nw 19 14\nw 21 15\nw 23 17\npauses 3\n12 3 0\n15 1 0\n17 2 0\nforks 3\n1 0 1 0\n5 1 1 1\n9 2 1 2\n",
);

// Conditions that hold at one of the three, and at two of them.
const FIRES: &str = concat!(
    "0 0 0;1 0 0;0 0 0;0 0 0,100,11;12;13;4;\n",
    "0 0 0;0 1 0;0 0 0;0 0 0;0 0 0,100,11;12;13;9;4;\n",
    "0 0 0;1 0 1;0 0 0;0 0 0,100,11;12;14;4;",
);

// The children write 1 and 2 into r3, and slot 0 stores it: the last child's word stands.
const RISING: &str = concat!(
    "ARPRET 1\ncode 7\nfc000102\nf8600000\nfc400000\n30600001\nfc400000\n30600002\nfc400000\n",
    "memory 1\n0\ninputs 0\noutputs 1\n0\nslots 3\n0\n3\n5\n",
    "aborts 0\npauses 0\nforks 1\n0 0 0\n",
);

#[test]
fn rows_of_ticks(rt: HostRuntime) -> Result<(), Fail> {
    assert!(rt;
        all_run_so(
            rt.alloc(),
            COUNTER,
            "5;-1;2147483647,8,7 6;8 0;8 -2147483648;"
        )?
    );
    assert!(rt; all_run_so(rt.alloc(), WEAK, "1;0;0,100,4;9;6;")?);
    assert!(rt; all_run_so(rt.alloc(), STRONG, "1;0;0,100,4;7;6;")?);
    assert!(rt; all_run_so(rt.alloc(), LOOP, ";;,14,13;14;14;\n;,12,Late 4;Late 4;")?);
    assert!(rt; all_run_so(rt.alloc(), JOIN, ";;;,100,4;4;2;1;")?);
    assert!(rt; all_run_so(rt.alloc(), RISING, ";,100,9 2;2 2;")?);
    Ok(())
}

#[test]
fn weak_aborts_fire_round_groups(rt: HostRuntime) -> Result<(), Fail> {
    assert!(rt; all_run_so(rt.alloc(), THREE_DEEP, FIRES)?);
    Ok(())
}
