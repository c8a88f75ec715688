//! The slots that are taken, in depth-first order.

ghost use Rattle.std.specs.Prelude.{◌≡◌, ℕ, ◌+◌, ◌-◌, ◌^◌, ◌<◌, ◌≤◌, ◌↔◌, [], ◌∷◌, ◌++◌, List, length, take, drop, map, option_map, replicate, OnErr, OnOk, IfOk, IsTrue, IfSome, IfNone, slice_set};
ghost use Rattle.mb_pfu.specs.Rows.{SlotRow, row, row_at, is_ready, is_ended, numbered, ready, IsLow, with_state, resumed, relief, Relieves, after, runs_in, ended_in, settle_row, climbed, pause_row, finish_row, IsDoneAt, IsAt, report_in, report_at, climbs, handler_of, busy_in, started, fork_row, renewed, answered, any_due, first_due, watch_due, with_answer, answer_row, watches_row, with_last, without_last, each_row, as_it_is, as_they_are, woken, due, reported_test};
ghost use Rattle.mb_pfu.specs.Unit.{entry_of};
ghost use Rattle.mb_pfu.specs.Tree.{reported_state, reported_watches, reported_number};

use crate::parts::{Entry, Slot, Watch};
use crate::row::Row;
use arrayvec::ArrayVec;

/// The first ready slot.
pub(crate) fn first_ready_of(rows: &[Row]) -> Option<u32>
    ensures { result ≡ reported_number (report_in ready rows.now) }
{
    for row in rows.iter() {
        if row.is_ready() {
            return Some(row.slot());
        }
    }
    None
}

/// How many rows at the front are below this level.
fn group_size(level: u32, rows: &[Row]) -> usize
    ensures within { result ≤ length rows.now }
    ensures rest { drop result rows.now ≡ after level rows.now }
{
    let mut size = 0;
    for row in rows.iter() {
        if row.level() <= level {
            return size;
        }
        size += 1;
    }
    size
}

/// Whether a slot of the group below this level is ready.
fn runs_below(level: u32, rows: &[Row]) -> bool
    ensures { result ≡ runs_in level rows.now }
{
    for row in rows.iter() {
        if row.level() <= level {
            return false;
        }
        if row.is_ready() {
            return true;
        }
    }
    false
}

/// Whether all slots of the group below this level have ended.
fn ended_below(level: u32, rows: &[Row]) -> bool
    ensures { result ≡ ended_in level rows.now }
{
    for row in rows.iter() {
        if row.level() <= level {
            return true;
        }
        if !row.is_ended() {
            return false;
        }
    }
    true
}

/// So many rows from here on move to the end.
fn turn(rows: &mut [Row], from: usize, size: usize)
    requires { from + size ≤ length rows.old }
    ensures { rows.new ≡ take from rows.old ++ (drop (from + size) rows.old ++ take size (drop from rows.old)) }
{
    rows[from..].rotate_left(size);
}

/// The rows of the table.
pub(crate) type Rows = ArrayVec<Row, 64>;

/// So many rows from here on are dropped.
fn cut(rows: &mut Rows, from: usize, size: usize)
    requires { from + size ≤ length rows.old.items }
    ensures { rows.new.items ≡ take from rows.old.items ++ drop (from + size) rows.old.items }
{
    let left = rows.len() - size;
    turn(rows.as_mut_slice(), from, size);
    rows.truncate(left);
}

/// A row settles.
fn settle_at(rows: &mut Rows, i: usize)
    requires { i < length rows.old.items }
    ensures { IsDoneAt settle_row i rows.old.items rows.new.items }
{
    if let Slot::Waiting { .. } = rows[i].state() {
        let level = rows[i].level();
        let group = &rows[i + 1..];
        if runs_below(level, group) {
            return;
        }
        let ended = ended_below(level, group);
        let size = group_size(level, group);
        if ended {
            cut(rows, i + 1, size);
            rows[i].resume();
            return;
        }
        if rows[i].relieve().is_some() {
            cut(rows, i + 1, size);
        }
    }
}

/// The place of the slot's row.
pub(crate) fn place_of(rows: &[Row], s: u32) -> Option<usize>
    ensures found { IfSome result (λ i. IsAt (numbered s) i rows.now) }
    ensures report { report_in (numbered s) rows.now ≡ report_at rows.now result }
{
    for (i, row) in rows.iter().enumerate() {
        if row.slot() == s {
            return Some(i);
        }
    }
    None
}

/// The rows above this one settle, the innermost first.
fn climb(rows: &mut Rows, from: usize, level: u32)
    requires { from ≤ length rows.old.items }
    ensures { rows.new.items ≡ (climbs settle_row (take from rows.old.items) (drop from rows.old.items, level)).0 }
{
    let mut i = from;
    let mut level = level;
    while i > 0 {
        i -= 1;
        let above = rows[i].level();
        if above >= level {
            continue;
        }
        level = above;
        settle_at(rows, i);
    }
}

/// A ready row pauses, or goes on at the handler of its innermost fired entry.
fn pause_at(rows: &mut Rows, i: usize, at: u32) -> Option<u32>
    requires within { i < length rows.old.items }
    requires ready { IsTrue (is_ready (row_at rows.old.items i).state) }
    requires low { at < 2 ^ 32 - 1 }
    ensures done { IsDoneAt (pause_row at) i rows.old.items rows.new.items }
    ensures handler { result ≡ handler_of (relief (row_at rows.old.items i).watches) }
{
    let row = &mut rows[i];
    if let Some(handler) = row.relieve() {
        return Some(handler);
    }
    row.go(Slot::Paused(at));
    None
}

/// A ready row ends.
fn finish_at(rows: &mut Rows, i: usize)
    requires within { i < length rows.old.items }
    requires ready { IsTrue (is_ready (row_at rows.old.items i).state) }
    ensures { IsDoneAt finish_row i rows.old.items rows.new.items }
{
    rows[i].go(Slot::Ended);
}

/// A ready slot pauses, and what is above it settles.
pub(crate) fn pause(rows: &mut Rows, s: u32, i: usize, at: u32) -> Option<u32>
    requires here { IsAt (numbered s) i rows.old.items }
    requires ready { IsTrue (is_ready (row_at rows.old.items i).state) }
    requires low { at < 2 ^ 32 - 1 }
    ensures rows { rows.new.items ≡ (climbed (numbered s) (pause_row at) settle_row rows.old.items).0 }
    ensures handler { result ≡ handler_of (relief (row_at rows.old.items i).watches) }
{
    let level = rows[i].level();
    let handler = pause_at(rows, i, at);
    climb(rows, i, level);
    handler
}

/// A ready slot ends, and what is above it settles.
pub(crate) fn finish(rows: &mut Rows, s: u32, i: usize)
    requires here { IsAt (numbered s) i rows.old.items }
    requires ready { IsTrue (is_ready (row_at rows.old.items i).state) }
    ensures { rows.new.items ≡ (climbed (numbered s) finish_row settle_row rows.old.items).0 }
{
    let level = rows[i].level();
    finish_at(rows, i);
    climb(rows, i, level);
}

/// A slot's state.
pub(crate) fn slot_at(rows: &[Row], s: u32) -> Slot
    ensures { result ≡ reported_state (report_in (numbered s) rows.now) }
{
    match place_of(rows, s) {
        None => Slot::Free,
        Some(i) => rows[i].state(),
    }
}

/// How many entries a slot has.
pub(crate) fn depth_at(rows: &[Row], s: u32) -> u32
    ensures depth { result ≡ length (reported_watches (report_in (numbered s) rows.now)) }
    ensures few { result ≤ 8 }
{
    match place_of(rows, s) {
        None => 0,
        Some(i) => rows[i].depth(),
    }
}

/// Whether one of the slots from this number on, as many as there are starts, is taken.
pub(crate) fn any_busy(rows: &[Row], lo: u32, starts: &[u32]) -> bool
    requires { lo + length starts.now ≤ 64 }
    ensures { result ≡ busy_in lo starts.now rows.now }
{
    for i in 0..starts.len() {
        if place_of(rows, lo + i as u32).is_some() {
            return true;
        }
    }
    false
}

/// The children of a fork begin, before the row of this place.
fn start_children(rows: &mut Rows, from: usize, level: u32, lo: u32, starts: &[u32])
    requires within { from ≤ length rows.old.items }
    requires room { length rows.old.items + length starts.now ≤ 64 }
    requires few { lo + length starts.now ≤ 64 }
    ensures { rows.new.items ≡ take from rows.old.items ++ started level lo starts.now (drop from rows.old.items) }
{
    let mut k = starts.len();
    while k > 0 {
        k -= 1;
        rows.insert(from, Row::ready(lo + k as u32, level, starts[k]));
    }
}

/// A ready row waits for its children, which begin.
pub(crate) fn fork_at(rows: &mut Rows, i: usize, at: u32, lo: u32, starts: &[u32])
    requires within { i < length rows.old.items }
    requires ready { IsTrue (is_ready (row_at rows.old.items i).state) }
    requires low { at < 2 ^ 32 - 1 }
    requires level { (row_at rows.old.items i).level < 64 }
    requires room { length rows.old.items + length starts.now ≤ 64 }
    requires few { lo + length starts.now ≤ 64 }
    ensures { IsDoneAt (fork_row at lo starts.now) i rows.old.items rows.new.items }
{
    let level = rows[i].level();
    start_children(rows, i + 1, level + 1, lo, starts);
    rows[i].go(Slot::Waiting {
        at,
        lo,
        count: starts.len() as u32,
    });
}

/// A row is inside one more abort.
pub(crate) fn enter_at(rows: &mut Rows, i: usize, watch: Watch)
    requires within { i < length rows.old.items }
    requires room { length (row_at rows.old.items i).watches < 8 }
    ensures { IsDoneAt (watches_row (with_last watch)) i rows.old.items rows.new.items }
{
    rows[i].enter(watch);
}

/// A row leaves its innermost abort.
pub(crate) fn leave_at(rows: &mut Rows, i: usize)
    requires within { i < length rows.old.items }
    requires some { 0 < length (row_at rows.old.items i).watches }
    ensures { IsDoneAt (watches_row without_last) i rows.old.items rows.new.items }
{
    rows[i].leave();
}

/// Every condition is due.
fn renew_all(rows: &mut [Row])
    ensures { rows.new ≡ map (each_row (map renewed) as_it_is) rows.old }
{
    for row in rows.iter_mut() {
        row.renew();
    }
}

/// Each paused slot is ready one word on.
fn wake_all(rows: &mut [Row])
    ensures { rows.new ≡ map (each_row as_they_are woken) rows.old }
{
    for row in rows.iter_mut() {
        row.wake();
    }
}

/// The place of the first row with a condition that is due.
pub(crate) fn place_due(rows: &[Row]) -> Option<usize>
    ensures found { IfSome result (λ i. IsAt due i rows.now) }
    ensures report { report_in due rows.now ≡ report_at rows.now result }
{
    for (i, row) in rows.iter().enumerate() {
        if row.is_due() {
            return Some(i);
        }
    }
    None
}

/// The slot and the place of the first entry whose condition is due.
pub(crate) fn next_test(rows: &[Row]) -> Option<(u32, u32)>
    ensures { result ≡ reported_test (report_in due rows.now) }
{
    match place_due(rows) {
        None => None,
        Some(i) => Some((rows[i].slot(), rows[i].first_due() as u32)),
    }
}

/// The first condition of a row that is due is answered.
pub(crate) fn answer_at(rows: &mut Rows, i: usize, fired: bool)
    requires within { i < length rows.old.items }
    requires due { IsTrue (any_due (row_at rows.old.items i).watches) }
    ensures { IsDoneAt (answer_row fired) i rows.old.items rows.new.items }
{
    let entry = rows[i].watch_due().entry;
    if !fired || entry.weak {
        rows[i].answer(fired);
        return;
    }
    let depth = rows[i].first_due();
    let size = group_size(rows[i].level(), &rows[i + 1..]);
    cut(rows, i + 1, size);
    rows[i].abort(depth, entry.handler);
}

/// Every condition is due.
#[tactic(auto, using(crate::proofs::Refill::refill_map))]
pub(crate) fn renew(rows: &mut Rows)
    ensures { rows.new.items ≡ map (each_row (map renewed) as_it_is) rows.old.items }
{
    renew_all(rows.as_mut_slice());
}

/// Each paused slot is ready one word on.
#[tactic(auto, using(crate::proofs::Refill::refill_map))]
pub(crate) fn wake(rows: &mut Rows)
    ensures { rows.new.items ≡ map (each_row as_they_are woken) rows.old.items }
{
    wake_all(rows.as_mut_slice());
}

/// An entry of a row.
pub(crate) fn entry_at(rows: &[Row], j: usize, i: u32) -> Entry
    requires row { j < length rows.now }
    requires entry { i < length (row_at rows.now j).watches }
    ensures { result ≡ entry_of (row_at rows.now j).watches i }
{
    rows[j].entry(i)
}
