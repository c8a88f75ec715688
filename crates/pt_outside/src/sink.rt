ghost use Rattle.std.specs.Prelude.{◌≡◌, ◌≤◌, ◌<◌, ◌↔◌, ◌⊎◌, ◌+◌, true, false, Some, None, OnOk, OnErr, IsErr, IsOk, IsTrue, IfOk, Contains, [], length};
ghost use Rattle.std.specs.Io.KnownBytes.{Appends, Keeps};
ghost use Rattle.pt_outside.specs.Counts.{HasCause, Counts, Rose, next, last};
ghost use Rattle.pt_outside.specs.Files.{AppendsFront};

use crate::traits::{Failed, Sink};
use pt_base::{Many, Memory};
use std::alloc::Global;
use std::marker::Model;

/// A sink in memory, some of whose calls fail.
#[derive(Drop)]
pub struct MemSink {
    bytes: Vec<u8>,
    room: usize,
    pushes: u64,
    sent: bool,
    fails: Many<u64>,
    calls: u64,
    faults: u64,
}

impl Model for MemSink {
    ghost use Rattle.std.specs.Prelude.{◌≤◌, length, vec_capacity};
    ghost use Rattle.pt_outside.specs.Kept.{Drained};

    ghost Value = { Drained };

    ghost view = { λ s. record { written = s.bytes.items; room = s.room; pushes = s.pushes; sent = s.sent; fails = s.fails; calls = s.calls; faults = s.faults } };

    ghost invariant = { λ s. (length s.bytes.items ≤ s.room) × (s.room ≤ vec_capacity s.bytes) };
}

impl MemSink {
    /// A sink with room for `room` bytes, whose calls of these numbers are to fail.
    pub fn of(alloc: Global, room: usize, fails: Many<u64>) -> Result<MemSink, Memory>
        ensures { IfOk result (λ s. s ≡
            record { written = []; room = room; pushes = 0; sent = true; fails = fails; calls = 0; faults = 0 }) }
    {
        Ok(MemSink {
            bytes: Vec::with_capacity(alloc, room)?,
            room,
            pushes: 0,
            sent: true,
            fails,
            calls: 0,
            faults: 0,
        })
    }

    /// What was pushed so far.
    pub fn written(&self) -> &[u8]
        ensures { result.now ≡ self.now.written }
    {
        &self.bytes
    }

    /// How many calls failed.
    pub fn faults(&self) -> u64
        ensures { result ≡ self.now.faults }
    {
        self.faults
    }

    // Notes a call, and says whether it is to fail.
    fn is_listed(&mut self) -> bool
        ensures listed { IsTrue result ↔ Contains self.old.fails self.old.calls }
        ensures noted { self.new ≡ record self.old { calls = next self.old.calls } }
    {
        let call = self.calls;
        self.calls = call.saturating_add(1);
        self.fails.items().contains(&call)
    }

    fn fail(&mut self)
        ensures noted { self.new ≡ record self.old { faults = next self.old.faults } }
        ensures later { self.old.faults ≤ self.new.faults }
        ensures rose { Rose self.old.faults self.new.faults }
        ensures within { self.new.faults ≤ last }
    {
        self.faults = self.faults.saturating_add(1);
    }
}

impl Sink for MemSink {
    ghost told = { λ s. record { written = Some s.written; pushes = s.pushes; sent = s.sent; faults = s.faults } };

    fn push(&mut self, bytes: &[u8]) -> Result<(), Failed>
        ensures ok { OnOk result (Appends (Some self.old.written) (Some self.new.written) bytes.now) }
        ensures err { OnErr result (self.new.written ≡ self.old.written) }
        ensures pushes { OnOk result (self.new.pushes ≡ next self.old.pushes) }
        ensures cause { HasCause self.old.faults self.new.faults result }
        ensures failed_exactly { IsErr result ↔
            (Contains self.old.fails self.old.calls ⊎ (self.old.room < length self.old.written + length bytes.now)) }
        ensures counted { Counts self.old.faults self.new.faults result }
        ensures waits { OnOk result (self.new.sent ≡ false) }
        ensures failed { OnErr result (self.new ≡ record self.old { calls = next self.old.calls; faults = self.new.faults }) }
        ensures kept_room { (self.new.room ≡ self.old.room) × (self.new.fails ≡ self.old.fails) × (self.new.calls ≡ next self.old.calls) }
    {
        if self.is_listed() {
            self.fail();
            return Err(Failed);
        }
        if bytes.len() > self.room - self.bytes.len()
            || self.bytes.extend_from_slice(bytes).is_err()
        {
            self.fail();
            return Err(Failed);
        }
        self.pushes = self.pushes.saturating_add(1);
        self.sent = false;
        Ok(())
    }

    fn flush(&mut self) -> Result<(), Failed>
        ensures written { Keeps (Some self.old.written) (Some self.new.written) }
        ensures pushes { self.new.pushes ≡ self.old.pushes }
        ensures sent { OnOk result (self.new.sent ≡ true) }
        ensures cause { HasCause self.old.faults self.new.faults result }
        ensures failed_exactly { IsErr result ↔ Contains self.old.fails self.old.calls }
        ensures counted { Counts self.old.faults self.new.faults result }
        ensures kept { self.new ≡ record self.old { sent = self.new.sent; calls = next self.old.calls; faults = self.new.faults } }
    {
        if self.is_listed() {
            self.fail();
            return Err(Failed);
        }
        self.sent = true;
        Ok(())
    }
}

/// A sink that never fails and forgets what it takes.
#[derive(Drop)]
pub struct FirmSink {
    pushes: u64,
    sent: bool,
}

impl Model for FirmSink {
    ghost use Rattle.std.specs.Prelude.{ℕ, Bool};

    ghost Value = { ℕ × Bool };

    ghost view = { λ s. (s.pushes, s.sent) };
}

impl FirmSink {
    /// A sink with no push so far. It takes no memory.
    pub fn begin() -> FirmSink
        ensures { result ≡ (0, true) }
    {
        FirmSink {
            pushes: 0,
            sent: true,
        }
    }
}

impl Sink for FirmSink {
    ghost told = { λ s. record { written = None; pushes = s.0; sent = s.1; faults = 0 } };

    fn push(&mut self, _bytes: &[u8]) -> Result<(), Failed>
        ensures ok { OnOk result (Appends None None _bytes.now) }
        ensures err { OnErr result (AppendsFront None None _bytes.now) }
        ensures pushes { OnOk result (self.new.0 ≡ next self.old.0) }
        ensures cause { HasCause 0 0 result }
        ensures never_fails { IsOk result }
    {
        self.pushes = self.pushes.saturating_add(1);
        self.sent = false;
        Ok(())
    }

    fn flush(&mut self) -> Result<(), Failed>
        ensures written { Keeps None None }
        ensures pushes { self.new.0 ≡ self.old.0 }
        ensures sent { OnOk result (self.new.1 ≡ true) }
        ensures cause { HasCause 0 0 result }
        ensures never_fails { IsOk result }
    {
        self.sent = true;
        Ok(())
    }
}
