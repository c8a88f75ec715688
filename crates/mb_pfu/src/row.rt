//! A slot that is taken.

ghost use Rattle.std.specs.Prelude.{◌≡◌, ℕ, ◌+◌, ◌-◌, ◌^◌, ◌<◌, ◌≤◌, ◌↔◌, [], ◌∷◌, ◌++◌, List, length, take, drop, map, option_map, replicate, OnErr, OnOk, IfOk, IsTrue, IfSome, IfNone, slice_set};
ghost use Rattle.mb_pfu.specs.Rows.{SlotRow, row, row_at, is_ready, is_ended, numbered, ready, IsLow, with_state, resumed, relief, Relieves, after, runs_in, ended_in, settle_row, climbed, pause_row, finish_row, IsDoneAt, IsAt, report_in, report_at, climbs, handler_of, busy_in, started, fork_row, renewed, answered, any_due, first_due, watch_due, with_answer, answer_row, watches_row, with_last, without_last, each_row, as_it_is, as_they_are, woken, due, reported_test};
ghost use Rattle.mb_pfu.specs.Unit.{entry_of};
ghost use Rattle.mb_pfu.specs.Tree.{reported_state, reported_watches, reported_number};

use crate::parts::{Entry, Slot, Watch};
use arrayvec::ArrayVec;
use std::marker::Model;

/// A slot, how many groups it is below, what it does, and the aborts that it is inside.
#[derive(Drop)]
pub(crate) struct Row {
    slot: u32,
    level: u32,
    state: Slot,
    watches: ArrayVec<Watch, 8>,
}

impl Model for Row {
    ghost use Rattle.mb_pfu.specs.Rows.{SlotRow, IsLow};

    ghost Value = { SlotRow };

    ghost view = { λ r. record { slot = r.slot; level = r.level; state = r.state; watches = r.watches.items } };

    ghost invariant = { λ r. IsLow r.state };
}

impl Default for Row {
    fn default() -> Row {
        Row::ready(0, 0, 0)
    }
}

/// How many entries stand outside the innermost fired one, and its handler.
fn innermost_fired(watches: &[Watch]) -> Option<(usize, u32)>
    ensures found { relief watches.now ≡ option_map (λ p. (take p.0 watches.now, p.1)) result }
    ensures within { IfSome result (λ p. p.0 < length watches.now) }
{
    let mut i = watches.len();
    while i > 0 {
        i -= 1;
        let entry = watches[i].entry;
        if entry.fired {
            return Some((i, entry.handler));
        }
    }
    None
}

/// Every condition is due.
fn renew_watches(watches: &mut [Watch])
    ensures { watches.new ≡ map renewed watches.old }
{
    for watch in watches.iter_mut() {
        *watch = renewed_watch(watch);
    }
}

fn renewed_watch(watch: &Watch) -> Watch
    ensures { result ≡ renewed watch.now }
{
    Watch {
        entry: Entry {
            aged: true,
            fired: false,
            ..watch.entry
        },
        due: true,
    }
}

fn answered_watch(watch: &Watch, fired: bool) -> Watch
    ensures { result ≡ answered fired watch.now }
{
    Watch {
        entry: Entry {
            fired,
            ..watch.entry
        },
        due: false,
    }
}

/// Whether a condition is due.
fn any_due_of(watches: &[Watch]) -> bool
    ensures { result ≡ any_due watches.now }
{
    for watch in watches.iter() {
        if watch.due {
            return true;
        }
    }
    false
}

/// The place of the first entry whose condition is due.
fn first_due_of(watches: &[Watch]) -> usize
    requires { IsTrue (any_due watches.now) }
    ensures place { result ≡ first_due watches.now }
    ensures within { result < length watches.now }
{
    for (i, watch) in watches.iter().enumerate() {
        if watch.due {
            return i;
        }
    }
    watches.len()
}

/// The first entry whose condition is due is answered.
fn answer_watches(watches: &mut [Watch], fired: bool)
    requires { IsTrue (any_due watches.old) }
    ensures { watches.new ≡ with_answer fired watches.old }
{
    let i = first_due_of(watches);
    watches[i] = answered_watch(&watches[i], fired);
}

/// The first entry whose condition is due.
fn watch_due_of(watches: &[Watch]) -> Watch
    requires { IsTrue (any_due watches.now) }
    ensures { result ≡ watch_due watches.now }
{
    watches[first_due_of(watches)]
}

#[tactic(auto, using(crate::proofs::Refill::refill_whole))]
impl Row {
    /// A slot that begins.
    pub(crate) fn ready(slot: u32, level: u32, place: u32) -> Row
        ensures { result ≡ row slot level (Slot.Ready place) [] }
    {
        Row {
            slot,
            level,
            state: Slot::Ready(place),
            watches: ArrayVec::new(),
        }
    }

    pub(crate) fn slot(&self) -> u32
        ensures { result ≡ self.now.slot }
    {
        self.slot
    }

    pub(crate) fn level(&self) -> u32
        ensures { result ≡ self.now.level }
    {
        self.level
    }

    pub(crate) fn state(&self) -> Slot
        ensures { result ≡ self.now.state }
    {
        self.state
    }

    pub(crate) fn depth(&self) -> u32
        ensures depth { result ≡ length self.now.watches }
        ensures few { result ≤ 8 }
    {
        self.watches.len() as u32
    }

    pub(crate) fn is_ready(&self) -> bool
        ensures { result ≡ is_ready self.now.state }
    {
        match self.state {
            Slot::Ready(_) => true,
            _ => false,
        }
    }

    pub(crate) fn is_ended(&self) -> bool
        ensures { result ≡ is_ended self.now.state }
    {
        match self.state {
            Slot::Ended => true,
            _ => false,
        }
    }

    /// The slot does something else.
    pub(crate) fn go(&mut self, state: Slot)
        requires { IsLow state }
        ensures { self.new ≡ with_state self.old state }
    {
        self.state = state;
    }

    /// A waiting slot goes on after its fork.
    pub(crate) fn resume(&mut self)
        ensures { self.new ≡ resumed self.old self.old.state }
    {
        if let Slot::Waiting {
            at,
            lo: _,
            count: _,
        } = self.state
        {
            self.state = Slot::Ready(at + 1);
        }
    }

    /// The slot is inside one more abort.
    pub(crate) fn enter(&mut self, watch: Watch)
        requires { length self.old.watches < 8 }
        ensures { self.new ≡ row self.old.slot self.old.level self.old.state (with_last watch self.old.watches) }
    {
        self.watches.push(watch);
    }

    /// The slot leaves its innermost abort.
    pub(crate) fn leave(&mut self)
        requires { 0 < length self.old.watches }
        ensures { self.new ≡ row self.old.slot self.old.level self.old.state (without_last self.old.watches) }
    {
        let _ = self.watches.pop();
    }

    /// Every condition is due.
    pub(crate) fn renew(&mut self)
        ensures { self.new ≡ each_row (map renewed) as_it_is self.old }
    {
        renew_watches(&mut self.watches);
    }

    /// A paused slot is ready one word on.
    pub(crate) fn wake(&mut self)
        ensures { self.new ≡ each_row as_they_are woken self.old }
    {
        if let Slot::Paused(place) = self.state {
            self.state = Slot::Ready(place + 1);
        }
    }

    pub(crate) fn entry(&self, i: u32) -> Entry
        requires { i < length self.now.watches }
        ensures { result ≡ entry_of self.now.watches i }
    {
        self.watches[i as usize].entry
    }

    pub(crate) fn is_due(&self) -> bool
        ensures { result ≡ any_due self.now.watches }
    {
        any_due_of(&self.watches)
    }

    /// The place of the first entry whose condition is due.
    pub(crate) fn first_due(&self) -> usize
        requires { IsTrue (any_due self.now.watches) }
        ensures place { result ≡ first_due self.now.watches }
        ensures few { result < 8 }
    {
        first_due_of(&self.watches)
    }

    /// The first entry whose condition is due.
    pub(crate) fn watch_due(&self) -> Watch
        requires { IsTrue (any_due self.now.watches) }
        ensures { result ≡ watch_due self.now.watches }
    {
        watch_due_of(&self.watches)
    }

    /// The first entry whose condition is due is answered.
    pub(crate) fn answer(&mut self, fired: bool)
        requires { IsTrue (any_due self.old.watches) }
        ensures { self.new ≡ row self.old.slot self.old.level self.old.state (with_answer fired self.old.watches) }
    {
        answer_watches(&mut self.watches, fired);
    }

    /// The slot loses its innermost entries, down to so many, and goes on at a handler.
    pub(crate) fn abort(&mut self, depth: usize, handler: u32)
        ensures { self.new ≡ row self.old.slot self.old.level (Slot.Ready handler) (take depth self.old.watches) }
    {
        self.watches.truncate(depth);
        self.state = Slot::Ready(handler);
    }

    /// The slot goes on at the handler of its innermost fired entry, where there is one.
    pub(crate) fn relieve(&mut self) -> Option<u32>
        ensures { Relieves (relief self.old.watches) self.old result self.new }
    {
        match innermost_fired(&self.watches) {
            None => None,
            Some((depth, handler)) => {
                self.watches.truncate(depth);
                self.state = Slot::Ready(handler);
                Some(handler)
            }
        }
    }
}
