//! A slow unit, by the rules as they are written: each slot with the slot that waits for it, and the links and
//! counters as lists.

ghost use Rattle.std.specs.Prelude.{◌<◌, ◌≤◌, IfSome};

use arrayvec::ArrayVec;
use mb_pfu::{AbortParts, Entry, Slot, TrapKind};

const NO_ENTRY: Entry = Entry {
    number: 0,
    weak: false,
    cond: 0,
    handler: 0,
    aged: false,
    fired: false,
};

#[derive(Clone, Copy)]
struct SlowSlot {
    state: Slot,
    above: u32,
    depth: usize,
    entries: [Entry; 8],
    due: [bool; 8],
}

const FREE: SlowSlot = SlowSlot {
    state: Slot::Free,
    above: 0,
    depth: 0,
    entries: [NO_ENTRY; 8],
    due: [false; 8],
};

#[derive(Drop)]
pub(crate) struct SlowUnit {
    slots: [SlowSlot; 64],
    count: u32,
    links: ArrayVec<u32, 16>,
    counters: ArrayVec<u32, 136>,
}

impl SlowUnit {
    pub(crate) fn begin(count: u32, entry: u32) -> SlowUnit {
        let mut slots = [FREE; 64];
        slots[0].state = Slot::Ready(entry);
        SlowUnit {
            slots,
            count,
            links: ArrayVec::new(),
            counters: ArrayVec::new(),
        }
    }

    fn at(&self, s: u32) -> &SlowSlot {
        &self.slots[(s % 64) as usize]
    }

    fn at_mut(&mut self, s: u32) -> &mut SlowSlot {
        &mut self.slots[(s % 64) as usize]
    }

    fn is_nested(&self) -> bool {
        !self.links.is_empty() || !self.counters.is_empty()
    }

    pub(crate) fn state(&self, s: u32) -> Slot {
        self.at(s).state
    }

    pub(crate) fn depth(&self, s: u32) -> usize {
        self.at(s).depth
    }

    pub(crate) fn entry(&self, s: u32, i: usize) -> Entry {
        self.at(s).entries[i % 8]
    }

    // The children of a slot, the last one first.
    fn push_children(&self, s: u32, left: &mut ArrayVec<u32, 64>) {
        if let Slot::Waiting { at: _, lo, count } = self.state(s) {
            let mut child = lo.wrapping_add(count);
            for _ in 0..count {
                child = child.wrapping_sub(1);
                let _ = left.try_push(child);
            }
        }
    }

    // These slots, the last one first, each followed by its group.
    fn in_order(&self, first: ArrayVec<u32, 64>) -> ArrayVec<u32, 64> {
        let mut left = first;
        let mut order = ArrayVec::new();
        for _ in 0..64 {
            match left.pop() {
                None => return order,
                Some(s) => {
                    let _ = order.try_push(s);
                    self.push_children(s, &mut left);
                }
            }
        }
        order
    }

    fn order(&self) -> ArrayVec<u32, 64> {
        let mut first = ArrayVec::new();
        let _ = first.try_push(0);
        self.in_order(first)
    }

    fn group(&self, s: u32) -> ArrayVec<u32, 64> {
        let mut first = ArrayVec::new();
        self.push_children(s, &mut first);
        self.in_order(first)
    }

    pub(crate) fn next_job(&self) -> Option<u32> {
        for s in self.order().iter() {
            if let Slot::Ready(_) = self.state(*s) {
                return Some(*s);
            }
        }
        None
    }

    pub(crate) fn next_test(&self) -> Option<(u32, u32)> {
        for s in self.order().iter() {
            let slot = self.at(*s);
            for i in 0..8u32 {
                if (i as usize) < slot.depth && slot.due[i as usize] {
                    return Some((*s, i));
                }
            }
        }
        None
    }

    fn free_group(&mut self, s: u32) {
        for below in self.group(s).iter() {
            *self.at_mut(*below) = FREE;
        }
    }

    // The slot goes on at the handler of its innermost fired entry.
    fn relieve(&mut self, s: u32) -> Option<u32> {
        let mut fired = None;
        let slot = self.at_mut(s);
        for i in 0..8 {
            if i < slot.depth && slot.entries[i].fired {
                fired = Some((i, slot.entries[i].handler));
            }
        }
        let (depth, handler) = fired?;
        slot.depth = depth;
        slot.state = Slot::Ready(handler);
        Some(handler)
    }

    // Whether a slot of the list is ready, or all of it have ended.
    fn any_ready(&self, slots: &[u32]) -> bool {
        for s in slots.iter() {
            if let Slot::Ready(_) = self.state(*s) {
                return true;
            }
        }
        false
    }

    fn all_ended(&self, slots: &[u32]) -> bool {
        for s in slots.iter() {
            if self.state(*s) != Slot::Ended {
                return false;
            }
        }
        true
    }

    fn settle(&mut self, s: u32) {
        let mut below = s;
        for _ in 0..64 {
            if below == 0 {
                return;
            }
            let above = self.at(below).above;
            let group = self.group(above);
            if self.any_ready(&group) {
                return;
            }
            let mut children = ArrayVec::new();
            self.push_children(above, &mut children);
            if self.all_ended(&children) {
                self.free_group(above);
                if let Slot::Waiting {
                    at,
                    lo: _,
                    count: _,
                } = self.state(above)
                {
                    self.at_mut(above).state = Slot::Ready(at.wrapping_add(1));
                }
                return;
            }
            self.rest_above(above, &group);
            below = above;
        }
    }

    fn rest_above(&mut self, above: u32, group: &[u32]) {
        if self.relieve(above).is_none() {
            return;
        }
        for s in group.iter() {
            *self.at_mut(*s) = FREE;
        }
    }

    pub(crate) fn pause(&mut self, s: u32, at: u32) -> Result<Option<u32>, TrapKind> {
        if self.is_nested() {
            return Err(TrapKind::WrongPlace);
        }
        if let Some(handler) = self.relieve(s) {
            return Ok(Some(handler));
        }
        self.at_mut(s).state = Slot::Paused(at);
        self.settle(s);
        Ok(None)
    }

    pub(crate) fn finish(&mut self, s: u32) -> Result<(), TrapKind> {
        if self.is_nested() || self.depth(s) > 0 {
            return Err(TrapKind::WrongPlace);
        }
        self.at_mut(s).state = Slot::Ended;
        self.settle(s);
        Ok(())
    }

    pub(crate) fn fork(
        &mut self,
        s: u32,
        at: u32,
        lo: u32,
        starts: &[u32],
    ) -> Result<(), TrapKind> {
        let past = lo as usize + starts.len() > self.count as usize;
        if self.is_nested() || starts.is_empty() || lo <= s || past {
            return Err(TrapKind::WrongPlace);
        }
        let mut child = lo;
        for _ in starts.iter() {
            if self.state(child) != Slot::Free {
                return Err(TrapKind::SlotBusy);
            }
            child = child.wrapping_add(1);
        }
        let mut child = lo;
        for start in starts.iter() {
            let slot = self.at_mut(child);
            slot.state = Slot::Ready(*start);
            slot.above = s;
            child = child.wrapping_add(1);
        }
        self.at_mut(s).state = Slot::Waiting {
            at,
            lo,
            count: child.wrapping_sub(lo),
        };
        Ok(())
    }

    pub(crate) fn enter(&mut self, s: u32, number: u32, line: &AbortParts) -> Result<(), TrapKind> {
        if self.is_nested() {
            return Err(TrapKind::WrongPlace);
        }
        let slot = self.at_mut(s);
        let i = slot.depth;
        if i >= 8 {
            return Err(TrapKind::TableFull);
        }
        slot.entries[i] = Entry {
            number,
            weak: line.weak,
            cond: line.cond,
            handler: line.handler,
            aged: false,
            fired: false,
        };
        slot.due[i] = false;
        slot.depth = i + 1;
        Ok(())
    }

    pub(crate) fn leave(&mut self, s: u32) -> Result<(), TrapKind> {
        if self.is_nested() {
            return Err(TrapKind::WrongPlace);
        }
        let slot = self.at_mut(s);
        if slot.depth == 0 {
            return Err(TrapKind::TableEmpty);
        }
        slot.depth -= 1;
        Ok(())
    }

    pub(crate) fn call(&mut self, back: u32) -> Result<(), TrapKind> {
        match self.links.try_push(back) {
            Ok(()) => Ok(()),
            Err(_) => Err(TrapKind::TableFull),
        }
    }

    pub(crate) fn ret(&mut self) -> Result<u32, TrapKind> {
        self.links.pop().ok_or(TrapKind::TableEmpty)
    }

    pub(crate) fn loop_set(&mut self, turns: u32) -> Result<(), TrapKind> {
        match self.counters.try_push(turns) {
            Ok(()) => Ok(()),
            Err(_) => Err(TrapKind::TableFull),
        }
    }

    pub(crate) fn loop_next(&mut self) -> Result<bool, TrapKind> {
        let turns = self.counters.pop().ok_or(TrapKind::TableEmpty)?;
        if turns == 0 {
            return Ok(false);
        }
        self.loop_set(turns - 1)?;
        Ok(true)
    }

    pub(crate) fn drop_loop(&mut self) -> Result<(), TrapKind> {
        let _ = self.counters.pop().ok_or(TrapKind::TableEmpty)?;
        Ok(())
    }

    pub(crate) fn begin_tests(&mut self) {
        for s in 0..64 {
            for i in 0..8 {
                self.slots[s].entries[i].aged = true;
                self.slots[s].entries[i].fired = false;
                self.slots[s].due[i] = true;
            }
        }
    }

    pub(crate) fn answer(&mut self, fired: bool) {
        if let Some((s, i)) = self.next_test() {
            let place = (i % 8) as usize;
            let slot = self.at_mut(s);
            slot.due[place] = false;
            let entry = slot.entries[place];
            if entry.weak || !fired {
                slot.entries[place].fired = fired;
                return;
            }
            slot.depth = place;
            self.free_group(s);
            self.at_mut(s).state = Slot::Ready(entry.handler);
        }
    }

    pub(crate) fn wake(&mut self) {
        for s in 0..64 {
            if let Slot::Paused(at) = self.slots[s].state {
                self.slots[s].state = Slot::Ready(at.wrapping_add(1));
            }
        }
    }
}
