use mb_pfu::{TrapKind, Unit};
use std::test::Fail;

#[test]
fn counters_and_links_go_up_to_their_limits(rt: HostRuntime) -> Result<(), Fail> {
    let mut unit = Unit::begin(1, 0);
    assert!(rt; unit.loop_next() == Err(TrapKind::TableEmpty));
    assert!(rt; unit.drop_loop() == Err(TrapKind::TableEmpty));
    assert!(rt; unit.ret() == Err(TrapKind::TableEmpty));
    assert!(rt; unit.loop_set(2) == Ok(()));
    assert!(rt; unit.loop_next() == Ok(true) && unit.loop_next() == Ok(true));
    assert!(rt; unit.loop_next() == Ok(false));
    assert!(rt; unit.loop_next() == Err(TrapKind::TableEmpty));
    assert!(rt; unit.loop_set(0) == Ok(()) && unit.loop_set(1) == Ok(()));
    assert!(rt; unit.drop_loop() == Ok(()) && unit.loop_next() == Ok(false));
    for back in 0..16 {
        assert!(rt; unit.call(back) == Ok(()));
    }
    assert!(rt; unit.call(16) == Err(TrapKind::TableFull));
    assert!(rt; unit.ret() == Ok(15) && unit.ret() == Ok(14));
    for turns in 0..136 {
        assert!(rt; unit.loop_set(turns) == Ok(()));
    }
    assert!(rt; unit.loop_set(9) == Err(TrapKind::TableFull));
    assert!(rt; unit.loop_next() == Ok(true) && unit.drop_loop() == Ok(()));
    let mut refused = false;
    if let Some(s) = unit.next_job() {
        refused = unit.finish(s) == Err(TrapKind::WrongPlace);
    }
    assert!(rt; refused);
    Ok(())
}
