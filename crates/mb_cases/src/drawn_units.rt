//! The unit beside the slow one, on calls that are drawn.

ghost use Rattle.std.specs.Prelude.{◌≤◌, IsTrue};
ghost use Rattle.mb_pfu.specs.Rows.{is_ready};
ghost use Rattle.mb_pfu.specs.Tree.{slot_of};

use crate::draws::Draws;
use crate::slow_unit::SlowUnit;
use mb_pfu::{AbortParts, Slot, Unit};
use std::test::Fail;

// Both units tell the same.
fn is_same(unit: &Unit, slow: &SlowUnit) -> bool {
    for s in 0..64 {
        if unit.slot(s) != slow.state(s) || unit.depth(s) as usize != slow.depth(s) {
            return false;
        }
        for i in 0..unit.depth(s) {
            if unit.entry(s, i) != slow.entry(s, i as usize) {
                return false;
            }
        }
    }
    unit.next_job() == slow.next_job() && unit.next_test() == slow.next_test()
}

// Conditions are tested, until none is due or a draw leaves the others due.
fn test_some(unit: &mut Unit, slow: &mut SlowUnit, draws: &mut Draws) -> bool {
    unit.begin_tests();
    slow.begin_tests();
    for _ in 0..513 {
        if !is_same(unit, slow) {
            return false;
        }
        if draws.next(50) == 0 || unit.next_test().is_none() {
            return true;
        }
        let fired = draws.next(3) == 0;
        unit.answer(fired);
        slow.answer(fired);
    }
    false
}

fn new_tick(unit: &mut Unit, slow: &mut SlowUnit, draws: &mut Draws) -> bool {
    let same = test_some(unit, slow, draws);
    unit.wake();
    slow.wake();
    same
}

// The children are mostly the slots that come soon after.
fn fork(unit: &mut Unit, slow: &mut SlowUnit, s: u32, draws: &mut Draws) -> bool
    requires { IsTrue (is_ready (slot_of s unit.old.tree)) }
{
    let starts = [30, 40, 50, 60, 70, 80];
    let starts = &starts[..draws.next(7) as usize];
    let lo = if draws.next(4) == 0 {
        draws.next(64)
    } else {
        s.wrapping_add(draws.next(6))
    };
    unit.fork(s, 20, lo, starts) == slow.fork(s, 20, lo, starts)
}

fn enter(unit: &mut Unit, slow: &mut SlowUnit, s: u32, draws: &mut Draws) -> bool
    requires { IsTrue (is_ready (slot_of s unit.old.tree)) }
{
    let line = AbortParts {
        weak: draws.next(2) == 0,
        cond: draws.next(100),
        handler: draws.next(100),
    };
    let number = draws.next(10);
    unit.enter(s, number, &line) == slow.enter(s, number, &line)
}

// One call of the links or the counters: mostly one more of them, or mostly one less.
fn nest(unit: &mut Unit, slow: &mut SlowUnit, rises: bool, draws: &mut Draws) -> bool {
    let drawn = draws.next(8);
    if rises && drawn < 2 {
        let back = draws.next(1000);
        return unit.call(back) == slow.call(back);
    }
    if rises && drawn < 7 {
        let turns = draws.next(4);
        return unit.loop_set(turns) == slow.loop_set(turns);
    }
    match drawn {
        0..=2 => unit.ret() == slow.ret(),
        3..=5 => unit.loop_next() == slow.loop_next(),
        _ => unit.drop_loop() == slow.drop_loop(),
    }
}

// Many such calls: the tables get full, or empty.
fn nest_often(unit: &mut Unit, slow: &mut SlowUnit, rises: bool, draws: &mut Draws) -> bool {
    for _ in 0..draws.next(400) {
        if !nest(unit, slow, rises, draws) {
            return false;
        }
    }
    true
}

// One call at a ready slot.
fn call_at(unit: &mut Unit, slow: &mut SlowUnit, s: u32, draws: &mut Draws) -> bool
    requires { IsTrue (is_ready (slot_of s unit.old.tree)) }
{
    match draws.next(16) {
        0..=4 => fork(unit, slow, s, draws),
        5..=8 => {
            let at = draws.next(1000);
            unit.pause(s, at) == slow.pause(s, at)
        }
        9..=11 => unit.finish(s) == slow.finish(s),
        12..=13 => enter(unit, slow, s, draws),
        14 => unit.leave(s) == slow.leave(s),
        _ => nest(unit, slow, true, draws),
    }
}

// The slot that is first ready enters many aborts: its table gets full.
fn enter_often(unit: &mut Unit, slow: &mut SlowUnit, draws: &mut Draws) -> bool {
    for _ in 0..draws.next(12) {
        match unit.next_job() {
            None => return true,
            Some(s) => {
                if !enter(unit, slow, s, draws) {
                    return false;
                }
            }
        }
    }
    true
}

// Calls that are drawn, also tests in the middle of a tick, or a new tick where no slot is ready.
fn step(unit: &mut Unit, slow: &mut SlowUnit, draws: &mut Draws) -> bool {
    match draws.next(64) {
        0 => nest_often(unit, slow, true, draws),
        1..=12 => nest_often(unit, slow, false, draws),
        13 => enter_often(unit, slow, draws),
        14..=17 => test_some(unit, slow, draws),
        _ => match unit.next_job() {
            None => new_tick(unit, slow, draws),
            Some(s) => call_at(unit, slow, s, draws),
        },
    }
}

// How many of so many steps go alike.
fn alike(slots: u32, seed: u32, steps: u32) -> u32
    requires low { 1 ≤ slots }
    requires high { slots ≤ 64 }
{
    let mut unit = Unit::begin(slots, 10);
    let mut slow = SlowUnit::begin(slots, 10);
    let mut draws = Draws::from(seed);
    for done in 0..steps {
        if !step(&mut unit, &mut slow, &mut draws) {
            return done;
        }
        if !is_same(&unit, &slow) {
            return done;
        }
        if unit.slot(0) == Slot::Ended {
            unit = Unit::begin(slots, 10);
            slow = SlowUnit::begin(slots, 10);
        }
    }
    steps
}

#[test]
fn a_slow_unit_does_the_same(rt: HostRuntime) -> Result<(), Fail> {
    assert_eq!(rt; alike(64, 1, 2000), 2000);
    assert_eq!(rt; alike(64, 7, 1000), 1000);
    assert_eq!(rt; alike(20, 5, 2000), 2000);
    assert_eq!(rt; alike(9, 3, 3000), 3000);
    Ok(())
}
