//! The unit: the calls by which a machine asks for a move of its tables.

ghost use Rattle.std.specs.Prelude.{not, if◌then◌else◌, ◌==◌, is_some, ◌≡◌, ℕ, ◌+◌, ◌-◌, ◌^◌, ◌<◌, ◌≤◌, ◌↔◌, [], ◌∷◌, ◌++◌, List, length, OnErr, OnOk, IfOk, IfErr, IsTrue, IfSome, IfNone};
ghost use Rattle.mb_pfu.specs.Rows.{is_ready, relief, handler_of};
ghost use Rattle.mb_pfu.specs.Tree.{Leaf, Running, next_job, slot_of, watches_of, next_test, tests_begun, test_answered, all_woken, is_busy, forked, IsSound};
ghost use Rattle.mb_pfu.specs.declared.parts.Slot.TheVariants.{Free};
ghost use Rattle.mb_pfu.specs.Unit.{is_nested, State, entry_of, fresh};
ghost use Rattle.mb_pfu.specs.Calls as call;
ghost use Rattle.mb_pfu.specs.Calls.{called, valued};

use crate::parts::{AbortParts, Entry, Slot, TrapKind, Watch};
use crate::slots::Slots;
use arrayvec::ArrayVec;
use std::marker::Model;

/// The tables of a machine: the slots, each with the aborts that it is inside, at most eight; the links of
/// calls, at most 16; and the loop counters, at most 136. No call takes memory, and a call that is refused
/// leaves the unit as it was.
#[derive(Drop)]
pub struct Unit {
    slots: u32,
    tree: Slots,
    links: ArrayVec<u32, 16>,
    counters: ArrayVec<u32, 136>,
}

impl Model for Unit {
    ghost use Rattle.mb_pfu.specs.Unit.{State, IsUnit};
    ghost use Rattle.mb_pfu.specs.Stored.{state_code};

    ghost Value = { State };

    ghost coded = { state_code };

    ghost view = { λ u. record { slots = u.slots; tree = u.tree; links = u.links.items; counters = u.counters.items } };

    ghost invariant = { λ u. IsUnit (record { slots = u.slots; tree = u.tree; links = u.links.items; counters = u.counters.items }) };
}

impl Unit {
    /// A unit of 1 to 64 slots: slot 0 is ready at the code place `entry`, the other slots are free, and no
    /// abort, link or counter is there.
    pub fn begin(slots: u32, entry: u32) -> Unit
        requires low { 1 ≤ slots }
        requires high { slots ≤ 64 }
        ensures { result ≡ record { slots = slots; tree = Leaf [] (Running entry); links = []; counters = [] } }
    {
        Unit {
            slots,
            tree: Slots::begin(entry),
            links: ArrayVec::new(),
            counters: ArrayVec::new(),
        }
    }

    /// That its tree is sound: no slot stands twice, and all are below the number of slots, so the others are free.
    /// Does nothing.
    pub fn sound(&self)
        ensures tree { IsSound self.now.tree }
        ensures others { (s : ℕ) → self.now.slots ≤ s → slot_of s self.now.tree ≡ Free }
    {
        self.tree.sound();
    }

    /// Whether a link or a counter is there.
    fn is_in_call_or_loop(&self) -> bool
        ensures { result ≡ is_nested self.now }
    {
        !self.links.is_empty() || !self.counters.is_empty()
    }

    /// The first ready slot in depth-first order, and `None` exactly where no slot is ready. A slot comes
    /// before the children that it waits for; these come in rising order, each followed by its own.
    pub fn next_job(&self) -> Option<u32>
        ensures first { result ≡ next_job self.now.tree }
        ensures ready { IfSome result (λ s. IsTrue (is_ready (slot_of s self.now.tree))) }
    {
        self.tree.next_job()
    }

    /// A slot's state.
    pub fn slot(&self, s: u32) -> Slot
        ensures { result ≡ slot_of s self.now.tree }
    {
        self.tree.slot(s)
    }

    /// A ready slot pauses at the code place `at`. Where an abort that it is inside is fired, the innermost such
    /// abort and all inside it are dropped, the slot is ready at that abort's handler, and the handler is the
    /// answer; else the answer is `None`, the slot is paused, and what is above it settles.
    /// `WrongPlace` where a link or a counter is there.
    pub fn pause(&mut self, s: u32, at: u32) -> Result<Option<u32>, TrapKind>
        requires ready { IsTrue (is_ready (slot_of s self.old.tree)) }
        requires low { at < 2 ^ 32 - 1 }
        ensures call { call.pause self.old s at ≡ called result self.new }
        ensures handler { IfOk result (λ to. to ≡ handler_of (relief (watches_of s self.old.tree))) }
        ensures refused { IfErr result (λ _. self.new ≡ self.old) }
    {
        if self.is_in_call_or_loop() {
            return Err(TrapKind::WrongPlace);
        }
        Ok(self.tree.pause(s, at))
    }

    /// A ready slot ends, and what is above it settles. `WrongPlace` where a link, a counter or an abort of the
    /// slot is there.
    pub fn finish(&mut self, s: u32) -> Result<(), TrapKind>
        requires ready { IsTrue (is_ready (slot_of s self.old.tree)) }
        ensures call { call.finish self.old s ≡ called result self.new }
        ensures refused { IfErr result (λ _. self.new ≡ self.old) }
    {
        if self.is_in_call_or_loop() || self.tree.depth(s) != 0 {
            return Err(TrapKind::WrongPlace);
        }
        self.tree.finish(s);
        Ok(())
    }

    /// A ready slot waits, at the code place `at`, for the slots from `lo` on, one for each of `starts`: each is
    /// ready at its start. `WrongPlace` where a link or a counter is there, `starts` is empty, `lo` isn't over
    /// `s`, or a child would be past the last slot; else `SlotBusy` where a child isn't free.
    pub fn fork(&mut self, s: u32, at: u32, lo: u32, starts: &[u32]) -> Result<(), TrapKind>
        requires ready { IsTrue (is_ready (slot_of s self.old.tree)) }
        requires low { at < 2 ^ 32 - 1 }
        ensures call { call.fork self.old s at lo starts.now ≡ called result self.new }
        ensures refused { IfErr result (λ _. self.new ≡ self.old) }
    {
        if self.is_in_call_or_loop()
            || starts.is_empty()
            || lo <= s
            || lo as usize + starts.len() > self.slots as usize
        {
            return Err(TrapKind::WrongPlace);
        }
        if !self.tree.fork(s, at, lo, starts) {
            return Err(TrapKind::SlotBusy);
        }
        Ok(())
    }

    /// A ready slot waits, at the code place `at`, for the slots from `lo` on, one for each of `starts`, wherever
    /// `lo` stands and whatever link or counter is there: so a tree is built. False, and nothing changes, where a
    /// child isn't free.
    pub fn wait(&mut self, s: u32, at: u32, lo: u32, starts: &[u32]) -> bool
        requires ready { IsTrue (is_ready (slot_of s self.old.tree)) }
        requires low { at < 2 ^ 32 - 1 }
        requires few { lo + length starts.now ≤ self.old.slots }
        ensures free { result ≡ not (is_busy lo starts.now self.old.tree) }
        ensures tree { self.new ≡ record self.old { tree = if result then forked s at lo starts.now self.old.tree else self.old.tree } }
    {
        self.tree.fork(s, at, lo, starts)
    }

    /// How many aborts a slot is inside: at most 8.
    pub fn depth(&self, s: u32) -> u32
        ensures depth { result ≡ length (watches_of s self.now.tree) }
        ensures few { result ≤ 8 }
    {
        self.tree.depth(s)
    }

    /// Abort `i` of those that a slot is inside, counted from the outermost, which is 0.
    pub fn entry(&self, s: u32, i: u32) -> Entry
        requires { i < length (watches_of s self.now.tree) }
        ensures { result ≡ entry_of (watches_of s self.now.tree) i }
    {
        self.tree.entry(s, i)
    }

    /// A ready slot is inside one more abort, which is its innermost: neither aged nor fired, and its condition
    /// isn't due. `WrongPlace` where a link or a counter is there; else `TableFull` where the slot is inside
    /// eight aborts.
    pub fn enter(&mut self, s: u32, number: u32, line: &AbortParts) -> Result<(), TrapKind>
        requires ready { IsTrue (is_ready (slot_of s self.old.tree)) }
        ensures call { call.enter self.old s (fresh number line.now.weak line.now.cond line.now.handler) ≡ called result self.new }
        ensures ready { IsTrue (is_ready (slot_of s self.new.tree)) }
        ensures refused { IfErr result (λ _. self.new ≡ self.old) }
    {
        if self.is_in_call_or_loop() {
            return Err(TrapKind::WrongPlace);
        }
        if self.tree.depth(s) == 8 {
            return Err(TrapKind::TableFull);
        }
        self.tree.enter(
            s,
            Watch {
                entry: Entry {
                    number,
                    weak: line.weak,
                    cond: line.cond,
                    handler: line.handler,
                    aged: false,
                    fired: false,
                },
                due: false,
            },
        );
        Ok(())
    }

    /// A ready slot leaves its innermost abort. `WrongPlace` where a link or a counter is there; else
    /// `TableEmpty` where the slot is inside none.
    #[tactic(auto, using(crate::proofs::Lasts::leave_ready))]
    pub fn leave(&mut self, s: u32) -> Result<(), TrapKind>
        requires ready { IsTrue (is_ready (slot_of s self.old.tree)) }
        ensures call { call.leave self.old s ≡ called result self.new }
        ensures ready { IsTrue (is_ready (slot_of s self.new.tree)) }
        ensures refused { IfErr result (λ _. self.new ≡ self.old) }
    {
        if self.is_in_call_or_loop() {
            return Err(TrapKind::WrongPlace);
        }
        if self.tree.depth(s) == 0 {
            return Err(TrapKind::TableEmpty);
        }
        self.tree.leave(s);
        Ok(())
    }

    /// One more link, to the code place `back`. `TableFull` where 16 are there.
    pub fn call(&mut self, back: u32) -> Result<(), TrapKind>
        ensures call { call.call self.old back ≡ called result self.new }
        ensures slots { self.new.tree ≡ self.old.tree }
        ensures refused { IfErr result (λ _. self.new ≡ self.old) }
    {
        if self.links.len() == 16 {
            return Err(TrapKind::TableFull);
        }
        self.links.push(back);
        Ok(())
    }

    /// The last link, which is dropped. `TableEmpty` where none is there.
    #[tactic(auto, using(crate::proofs::Lasts::ret_gave))]
    pub fn ret(&mut self) -> Result<u32, TrapKind>
        ensures call { call.ret self.old ≡ valued result self.new }
        ensures slots { self.new.tree ≡ self.old.tree }
        ensures refused { IfErr result (λ _. self.new ≡ self.old) }
    {
        match self.links.pop() {
            None => Err(TrapKind::TableEmpty),
            Some(back) => Ok(back),
        }
    }

    /// One more counter, of so many turns. `TableFull` where 136 are there.
    pub fn loop_set(&mut self, turns: u32) -> Result<(), TrapKind>
        ensures call { call.loop_set self.old turns ≡ called result self.new }
        ensures slots { self.new.tree ≡ self.old.tree }
        ensures refused { IfErr result (λ _. self.new ≡ self.old) }
    {
        if self.counters.len() == 136 {
            return Err(TrapKind::TableFull);
        }
        self.counters.push(turns);
        Ok(())
    }

    /// True where the last counter is over 0, and it is then one less; false where it is 0, and it is then
    /// dropped. `TableEmpty` where none is there.
    #[tactic(auto, using(crate::proofs::Lasts::next_is_over, crate::proofs::Lasts::next_goes_on))]
    pub fn loop_next(&mut self) -> Result<bool, TrapKind>
        ensures call { call.loop_next self.old ≡ valued result self.new }
        ensures slots { self.new.tree ≡ self.old.tree }
        ensures refused { IfErr result (λ _. self.new ≡ self.old) }
    {
        let _within = self.counters.len();
        match self.counters.pop() {
            None => Err(TrapKind::TableEmpty),
            Some(0) => Ok(false),
            Some(turns) => {
                self.counters.push(turns - 1);
                Ok(true)
            }
        }
    }

    /// Drops the last counter. `TableEmpty` where none is there.
    #[tactic(auto, using(crate::proofs::Lasts::drop_gave))]
    pub fn drop_loop(&mut self) -> Result<(), TrapKind>
        ensures call { call.drop_loop self.old ≡ called result self.new }
        ensures slots { self.new.tree ≡ self.old.tree }
        ensures refused { IfErr result (λ _. self.new ≡ self.old) }
    {
        match self.counters.pop() {
            None => Err(TrapKind::TableEmpty),
            Some(_) => Ok(()),
        }
    }

    /// Each abort that a slot is inside is aged and not fired, and its condition is due.
    pub fn begin_tests(&mut self)
        ensures { self.new ≡ record self.old { tree = tests_begun self.old.tree } }
    {
        self.tree.begin_tests();
    }

    /// The first abort whose condition is due, as its slot and its place in `entry`: the slots in depth-first
    /// order, and the aborts of each from the outermost on. `None` exactly where none is due.
    pub fn next_test(&self) -> Option<(u32, u32)>
        ensures first { result ≡ next_test self.now.tree }
        ensures there { IfSome result (λ p. p.1 < length (watches_of p.0 self.now.tree)) }
    {
        self.tree.next_test()
    }

    /// The condition of `next_test` is no longer due, and holds where `fired`. A weak abort is then fired. A
    /// strong one is dropped where its condition holds, with all inside it; the slots below its slot are free,
    /// and its slot is ready at its handler.
    pub fn answer(&mut self, fired: bool)
        requires due { IsTrue (is_some (next_test self.old.tree)) }
        ensures { self.new ≡ record self.old { tree = test_answered fired self.old.tree } }
    {
        self.tree.answer(fired);
    }

    /// Each paused slot is ready one word on.
    pub fn wake(&mut self)
        ensures { self.new ≡ record self.old { tree = all_woken self.old.tree } }
    {
        self.tree.wake();
    }
}
