//! The slots as a tree.

ghost use Rattle.std.specs.Prelude.{◌≡◌, ℕ, ◌-◌, ◌^◌, ◌<◌, ◌+◌, ◌≤◌, [], length, is_some, IfSome, IsTrue, not, if◌then◌else◌};
ghost use Rattle.mb_pfu.specs.Rows.{is_ready, relief, handler_of};
ghost use Rattle.mb_pfu.specs.Unit.{entry_of};
ghost use Rattle.mb_pfu.specs.Tree.{Leaf, Running, next_job, slot_of, watches_of, paused, finished, forked, is_busy, entered, left, tests_begun, next_test, test_answered, all_woken, IsSound};

use crate::parts::{Entry, Slot, Watch};
use crate::row::Row;
use crate::table;
use arrayvec::ArrayVec;
use std::marker::Model;

/// The slots that are taken, in depth-first order, seen as their tree.
#[derive(Drop)]
pub(crate) struct Slots {
    rows: table::Rows,
}

impl Model for Slots {
    ghost use Rattle.mb_pfu.specs.Tree.{Tree, tree_of, IsRight};
    ghost use Rattle.mb_pfu.specs.Stored.{tree_code};

    ghost Value = { Tree };

    ghost coded = { tree_code };

    ghost view = { λ u. tree_of u.rows.items };

    ghost invariant = { λ u. IsRight u.rows.items };
}

#[tactic(auto, using(crate::proofs::Trees::tree_rules))]
impl Slots {
    /// Slot 0 alone.
    pub(crate) fn begin(entry: u32) -> Slots
        ensures { result ≡ Leaf [] (Running entry) }
    {
        let mut rows = ArrayVec::new();
        rows.push(Row::ready(0, 0, entry));
        Slots { rows }
    }

    /// That no slot stands twice; does nothing.
    pub(crate) fn sound(&self)
        ensures { IsSound self.now }
    {
        let _rows = &self.rows;
    }

    /// The first ready slot in depth-first order.
    pub(crate) fn next_job(&self) -> Option<u32>
        ensures first { result ≡ next_job self.now }
        ensures ready { IfSome result (λ s. IsTrue (is_ready (slot_of s self.now))) }
    {
        table::first_ready_of(&self.rows)
    }

    /// A slot's state.
    pub(crate) fn slot(&self, s: u32) -> Slot
        ensures { result ≡ slot_of s self.now }
    {
        table::slot_at(&self.rows, s)
    }

    /// How many aborts a slot is inside.
    pub(crate) fn depth(&self, s: u32) -> u32
        ensures depth { result ≡ length (watches_of s self.now) }
        ensures few { result ≤ 8 }
    {
        table::depth_at(&self.rows, s)
    }

    /// An abort that a slot is inside.
    pub(crate) fn entry(&self, s: u32, i: u32) -> Entry
        requires { i < length (watches_of s self.now) }
        ensures { result ≡ entry_of (watches_of s self.now) i }
    {
        match table::place_of(&self.rows, s) {
            None => unreachable!(),
            Some(j) => table::entry_at(&self.rows, j, i),
        }
    }

    /// A ready slot pauses, or goes on at its innermost fired abort's handler.
    pub(crate) fn pause(&mut self, s: u32, at: u32) -> Option<u32>
        requires ready { IsTrue (is_ready (slot_of s self.old)) }
        requires low { at < 2 ^ 32 - 1 }
        ensures tree { self.new ≡ paused s at self.old }
        ensures handler { result ≡ handler_of (relief (watches_of s self.old)) }
    {
        match table::place_of(&self.rows, s) {
            None => unreachable!(),
            Some(i) => table::pause(&mut self.rows, s, i, at),
        }
    }

    /// A ready slot ends.
    pub(crate) fn finish(&mut self, s: u32)
        requires ready { IsTrue (is_ready (slot_of s self.old)) }
        ensures { self.new ≡ finished s self.old }
    {
        match table::place_of(&self.rows, s) {
            None => unreachable!(),
            Some(i) => table::finish(&mut self.rows, s, i),
        }
    }

    /// A ready slot waits for its children, which begin; nothing where one of them is taken.
    pub(crate) fn fork(&mut self, s: u32, at: u32, lo: u32, starts: &[u32]) -> bool
        requires ready { IsTrue (is_ready (slot_of s self.old)) }
        requires low { at < 2 ^ 32 - 1 }
        requires few { lo + length starts.now ≤ 64 }
        ensures free { result ≡ not (is_busy lo starts.now self.old) }
        ensures tree { self.new ≡ (if result then forked s at lo starts.now self.old else self.old) }
    {
        if table::any_busy(&self.rows, lo, starts) {
            return false;
        }
        match table::place_of(&self.rows, s) {
            None => unreachable!(),
            Some(i) => {
                table::fork_at(&mut self.rows, i, at, lo, starts);
                true
            }
        }
    }

    /// A ready slot is inside one more abort.
    pub(crate) fn enter(&mut self, s: u32, watch: Watch)
        requires ready { IsTrue (is_ready (slot_of s self.old)) }
        requires room { length (watches_of s self.old) < 8 }
        ensures { self.new ≡ entered s watch self.old }
    {
        match table::place_of(&self.rows, s) {
            None => unreachable!(),
            Some(i) => table::enter_at(&mut self.rows, i, watch),
        }
    }

    /// A ready slot leaves its innermost abort.
    pub(crate) fn leave(&mut self, s: u32)
        requires ready { IsTrue (is_ready (slot_of s self.old)) }
        requires some { 0 < length (watches_of s self.old) }
        ensures { self.new ≡ left s self.old }
    {
        match table::place_of(&self.rows, s) {
            None => unreachable!(),
            Some(i) => table::leave_at(&mut self.rows, i),
        }
    }

    /// Every condition is due.
    pub(crate) fn begin_tests(&mut self)
        ensures { self.new ≡ tests_begun self.old }
    {
        table::renew(&mut self.rows);
    }

    /// The slot and the place of the first entry whose condition is due.
    pub(crate) fn next_test(&self) -> Option<(u32, u32)>
        ensures first { result ≡ next_test self.now }
        ensures there { IfSome result (λ p. p.1 < length (watches_of p.0 self.now)) }
    {
        table::next_test(&self.rows)
    }

    /// The next test is answered.
    pub(crate) fn answer(&mut self, fired: bool)
        requires due { IsTrue (is_some (next_test self.old)) }
        ensures { self.new ≡ test_answered fired self.old }
    {
        match table::place_due(&self.rows) {
            None => unreachable!(),
            Some(i) => table::answer_at(&mut self.rows, i, fired),
        }
    }

    /// Each paused slot is ready one word on.
    pub(crate) fn wake(&mut self)
        ensures { self.new ≡ all_woken self.old }
    {
        table::wake(&mut self.rows);
    }
}
