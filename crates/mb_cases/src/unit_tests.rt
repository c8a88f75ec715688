ghost use Rattle.std.specs.Prelude.{◌≡◌, ◌<◌, ◌-◌, ◌^◌};

use mb_pfu::{AbortParts, Slot, TrapKind, Unit};
use std::test::Fail;

fn pause_next(unit: &mut Unit, at: u32) -> Option<u32>
    requires { at < 2 ^ 32 - 1 }
{
    let s = unit.next_job()?;
    let _ = unit.pause(s, at);
    Some(s)
}

fn finish_next(unit: &mut Unit) -> Option<u32> {
    let s = unit.next_job()?;
    let _ = unit.finish(s);
    Some(s)
}

fn fork_next(unit: &mut Unit, at: u32, lo: u32, starts: &[u32]) -> Result<(), TrapKind>
    requires { at < 2 ^ 32 - 1 }
{
    match unit.next_job() {
        None => Ok(()),
        Some(s) => unit.fork(s, at, lo, starts),
    }
}

fn enter_next(unit: &mut Unit, weak: bool, handler: u32) -> Result<(), TrapKind> {
    match unit.next_job() {
        None => Ok(()),
        Some(s) => unit.enter(
            s,
            1,
            &AbortParts {
                weak,
                cond: 50,
                handler,
            },
        ),
    }
}

fn answer_next(unit: &mut Unit, fired: bool) -> Option<(u32, u32)> {
    let test = unit.next_test()?;
    unit.answer(fired);
    Some(test)
}

#[test]
fn a_group_rests(rt: HostRuntime) -> Result<(), Fail> {
    let mut unit = Unit::begin(8, 10);
    assert!(rt; enter_next(&mut unit, true, 90).is_ok());
    assert!(rt; fork_next(&mut unit, 20, 1, &[30, 40]).is_ok());
    assert!(rt; enter_next(&mut unit, false, 95).is_ok());
    assert!(rt; fork_next(&mut unit, 31, 3, &[50, 60]).is_ok());
    assert_eq!(rt; fork_next(&mut unit, 51, 4, &[0]), Err(TrapKind::SlotBusy));
    assert_eq!(rt; pause_next(&mut unit, 52), Some(3));
    assert_eq!(rt; finish_next(&mut unit), Some(4));
    assert_eq!(rt; pause_next(&mut unit, 41), Some(2));
    assert_eq!(rt; unit.next_job(), None);
    unit.begin_tests();
    assert_eq!(rt; answer_next(&mut unit, true), Some((0, 0)));
    assert_eq!(rt; answer_next(&mut unit, true), Some((1, 0)));
    assert_eq!(rt; unit.next_test(), None);
    assert_eq!(rt; unit.slot(1), Slot::Ready(95));
    assert_eq!(rt; unit.slot(3), Slot::Free);
    unit.wake();
    assert_eq!(rt; unit.slot(2), Slot::Ready(42));
    assert_eq!(rt; finish_next(&mut unit), Some(1));
    assert_eq!(rt; pause_next(&mut unit, 43), Some(2));
    assert_eq!(rt; unit.slot(0), Slot::Ready(90));
    assert_eq!(rt; unit.slot(2), Slot::Free);
    assert_eq!(rt; unit.depth(0), 0);
    Ok(())
}

// A group of two inside a weak abort that is fired, of which each pauses or ends.
fn fired_group(first_pauses: bool, second_pauses: bool) -> Unit {
    let mut unit = Unit::begin(3, 10);
    let _ = enter_next(&mut unit, true, 90);
    let _ = fork_next(&mut unit, 20, 1, &[30, 40]);
    let _ = pause_next(&mut unit, 31);
    let _ = pause_next(&mut unit, 41);
    unit.begin_tests();
    let _ = answer_next(&mut unit, true);
    unit.wake();
    for pauses in [first_pauses, second_pauses] {
        if pauses {
            let _ = pause_next(&mut unit, 32);
        } else {
            let _ = finish_next(&mut unit);
        }
    }
    unit
}

#[test]
fn a_fired_abort_goes_off_at_rest(rt: HostRuntime) -> Result<(), Fail> {
    for (first, second) in [(true, true), (true, false), (false, true)] {
        let mut unit = fired_group(first, second);
        assert_eq!(rt; unit.slot(0), Slot::Ready(90));
        assert_eq!(rt; unit.depth(0), 0);
        assert!(rt; fork_next(&mut unit, 91, 1, &[50]).is_ok());
        assert_eq!(rt; unit.slot(1), Slot::Ready(50));
    }
    let mut unit = fired_group(false, false);
    assert_eq!(rt; unit.slot(0), Slot::Ready(21));
    assert_eq!(rt; pause_next(&mut unit, 22), Some(0));
    assert_eq!(rt; unit.slot(0), Slot::Ready(90));
    Ok(())
}

#[test]
fn a_strong_abort_drops_the_tests_below(rt: HostRuntime) -> Result<(), Fail> {
    let mut unit = Unit::begin(64, 10);
    let _ = fork_next(&mut unit, 20, 1, &[30]);
    let _ = enter_next(&mut unit, false, 95);
    let _ = fork_next(&mut unit, 31, 2, &[40]);
    let _ = enter_next(&mut unit, false, 96);
    let _ = fork_next(&mut unit, 41, 3, &[50]);
    let _ = enter_next(&mut unit, true, 97);
    assert_eq!(rt; pause_next(&mut unit, 51), Some(3));
    unit.begin_tests();
    assert_eq!(rt; answer_next(&mut unit, true), Some((1, 0)));
    assert_eq!(rt; unit.next_test(), None);
    assert_eq!(rt; unit.slot(1), Slot::Ready(95));
    assert_eq!(rt; unit.slot(3), Slot::Free);
    assert_eq!(rt; unit.depth(3), 0);
    Ok(())
}

#[test]
fn groups_three_deep_begin_again_in_the_same_tick(rt: HostRuntime) -> Result<(), Fail> {
    let mut unit = Unit::begin(4, 10);
    assert!(rt; enter_next(&mut unit, true, 90).is_ok());
    for lo in 1..4 {
        assert!(rt; fork_next(&mut unit, 20, lo, &[30]).is_ok());
    }
    assert_eq!(rt; pause_next(&mut unit, 31), Some(3));
    unit.begin_tests();
    assert_eq!(rt; answer_next(&mut unit, true), Some((0, 0)));
    unit.wake();
    assert_eq!(rt; pause_next(&mut unit, 33), Some(3));
    assert_eq!(rt; unit.slot(0), Slot::Ready(90));
    assert_eq!(rt; unit.slot(3), Slot::Free);
    for lo in 1..4 {
        assert!(rt; fork_next(&mut unit, 91, lo, &[50]).is_ok());
    }
    for last in [3, 2, 1] {
        assert_eq!(rt; finish_next(&mut unit), Some(last));
    }
    assert_eq!(rt; unit.slot(0), Slot::Ready(92));
    assert!(rt; fork_next(&mut unit, 93, 1, &[60]).is_ok());
    assert_eq!(rt; unit.slot(1), Slot::Ready(60));
    Ok(())
}

#[test]
fn all_slots_end(rt: HostRuntime) -> Result<(), Fail> {
    let mut unit = Unit::begin(64, 10);
    assert!(rt; fork_next(&mut unit, 20, 1, &[30; 63]).is_ok());
    for s in 1..64 {
        assert_eq!(rt; finish_next(&mut unit), Some(s));
    }
    assert_eq!(rt; unit.slot(0), Slot::Ready(21));
    assert_eq!(rt; unit.slot(63), Slot::Free);
    Ok(())
}
