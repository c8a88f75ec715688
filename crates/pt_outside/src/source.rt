ghost use Rattle.std.specs.Prelude.{◌≡◌, ◌≤◌, ◌<◌, ◌↔◌, List, ℕ, Some, IsErr, IsOk, IfOk, Contains, [], length, take};
ghost use Rattle.std.specs.Io.{ReadsAtMost};
ghost use Rattle.std.specs.Io.KnownBytes.{ReadConsumes};
ghost use Rattle.pt_outside.specs.Counts.{HasCause, Counts, next};

use crate::traits::{Failed, Source};
use pt_base::{Many, Text};
use std::marker::Model;

// Copies a front of what is left.
fn give(rest: &[u8], into: &mut [u8], step: usize) -> usize
    requires { 1 ≤ step }
    ensures within { result ≤ length rest.now }
    ensures bound { result ≤ length into.new }
    ensures within_step { result ≤ step }
    ensures front { take result into.new ≡ take result rest.now }
    ensures some { result ≡ 0 → 0 < length into.new → rest.now ≡ [] }
{
    let count = rest.len().min(into.len()).min(step);
    into[..count].copy_from_slice(&rest[..count]);
    count
}

/// A source in memory, some of whose calls fail.
#[derive(Drop)]
pub struct MemSource {
    bytes: Text,
    at: usize,
    step: usize,
    fails: Many<u64>,
    calls: u64,
    faults: u64,
}

impl Model for MemSource {
    ghost use Rattle.std.specs.Prelude.{◌≤◌, drop, length};
    ghost use Rattle.pt_outside.specs.Kept.{Flow};

    ghost Value = { Flow };

    ghost view = { λ s. record { left = drop s.at s.bytes; step = s.step; fails = s.fails; calls = s.calls; faults = s.faults } };

    ghost invariant = { λ s. (s.at ≤ length s.bytes) × (1 ≤ s.step) };
}

impl MemSource {
    /// A source that has these bytes left, gives at most `step` of them per pull, and fails at the calls of
    /// these numbers. It takes no memory.
    pub fn of(bytes: Text, step: usize, fails: Many<u64>) -> MemSource
        requires { 1 ≤ step }
        ensures { result ≡ record { left = bytes; step = step; fails = fails; calls = 0; faults = 0 } }
    {
        MemSource {
            bytes,
            at: 0,
            step,
            fails,
            calls: 0,
            faults: 0,
        }
    }

    /// What is still to come.
    pub fn left(&self) -> &[u8]
        ensures { result.now ≡ self.now.left }
    {
        &self.bytes.bytes()[self.at..]
    }

    /// How many calls failed.
    pub fn faults(&self) -> u64
        ensures { result ≡ self.now.faults }
    {
        self.faults
    }
}

impl Source for MemSource {
    ghost told = { λ s. record { left = Some s.left; faults = s.faults } };

    fn pull(&mut self, into: &mut [u8]) -> Result<usize, Failed>
        ensures bound { ReadsAtMost result into.new }
        ensures bytes { ReadConsumes (Some self.old.left) (Some self.new.left) result into.new }
        ensures cause { HasCause self.old.faults self.new.faults result }
        ensures at_most_step { IfOk result (λ n. n ≤ self.old.step) }
        ensures failed_exactly { IsErr result ↔ Contains self.old.fails self.old.calls }
        ensures counted { Counts self.old.faults self.new.faults result }
        ensures kept { self.new ≡ record self.old { left = self.new.left; calls = next self.old.calls; faults = self.new.faults } }
    {
        let call = self.calls;
        self.calls = call.saturating_add(1);
        if self.fails.items().contains(&call) {
            self.faults = self.faults.saturating_add(1);
            return Err(Failed);
        }
        let count = give(&self.bytes.bytes()[self.at..], into, self.step);
        self.at += count;
        Ok(count)
    }
}

/// A source in memory that never fails.
#[derive(Drop)]
pub struct FirmSource {
    bytes: Text,
    at: usize,
}

impl Model for FirmSource {
    ghost use Rattle.std.specs.Prelude.{◌≤◌, ℕ, List, drop, length};

    ghost Value = { List ℕ };

    ghost view = { λ s. drop s.at s.bytes };

    ghost invariant = { λ s. s.at ≤ length s.bytes };
}

impl FirmSource {
    /// A source that has these bytes left. It takes no memory.
    pub fn of(bytes: Text) -> FirmSource
        ensures { result ≡ bytes }
    {
        FirmSource { bytes, at: 0 }
    }

    /// What is still to come.
    pub fn left(&self) -> &[u8]
        ensures { result.now ≡ self.now }
    {
        &self.bytes.bytes()[self.at..]
    }
}

impl Source for FirmSource {
    ghost told = { λ s. record { left = Some s; faults = 0 } };

    fn pull(&mut self, into: &mut [u8]) -> Result<usize, Failed>
        ensures bound { ReadsAtMost result into.new }
        ensures bytes { ReadConsumes (Some self.old) (Some self.new) result into.new }
        ensures cause { HasCause 0 0 result }
        ensures never_fails { IsOk result }
    {
        let count = give(&self.bytes.bytes()[self.at..], into, usize::MAX);
        self.at += count;
        Ok(count)
    }
}
