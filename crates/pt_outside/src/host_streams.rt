ghost use Rattle.std.specs.Prelude.{◌≡◌, true, None, OnOk, OnErr};
ghost use Rattle.std.specs.Io.{ReadsAtMost};
ghost use Rattle.std.specs.Io.KnownBytes.{Appends, Keeps, ReadConsumes};
ghost use Rattle.pt_outside.specs.Counts.{HasCause, Counts, next};
ghost use Rattle.pt_outside.specs.Files.{AppendsFront};

use crate::traits::{Failed, Sink, Source};
use std::io::{Read, Write};
use std::marker::Model;

/// A source over a reader. It doesn't tell what is left.
#[derive(Drop)]
pub struct HostSource<R: Read + Drop> {
    inner: R,
    faults: u64,
}

impl<R: Read + Drop> Model for HostSource<R> {
    ghost use Rattle.std.specs.Prelude.{ℕ, ◌≤◌};
    ghost use Rattle.pt_outside.specs.Counts.{last};

    ghost Value = { ℕ };

    ghost view = { λ s. s.faults };

    ghost invariant = { λ s. s.faults ≤ last };
}

impl<R: Read + Drop> HostSource<R> {
    /// A source over this reader, with no fault so far.
    pub fn over(inner: R) -> Self
        ensures { result ≡ 0 }
    {
        HostSource { inner, faults: 0 }
    }
}

impl<R: Read + Drop> Source for HostSource<R> {
    ghost told = { λ s. record { left = None; faults = s } };

    fn pull(&mut self, into: &mut [u8]) -> Result<usize, Failed>
        ensures bound { ReadsAtMost result into.new }
        ensures bytes { ReadConsumes None None result into.new }
        ensures cause { HasCause self.old self.new result }
        ensures counted { Counts self.old self.new result }
    {
        match self.inner.read(into) {
            Ok(count) => Ok(count),
            Err(_) => {
                self.faults = self.faults.saturating_add(1);
                Err(Failed)
            }
        }
    }
}

/// A sink over a writer. It doesn't tell what was written, but in how many pushes, and whether some of it
/// waits for a flush.
#[derive(Drop)]
pub struct HostSink<W: Write + Drop> {
    inner: W,
    pushes: u64,
    sent: bool,
    faults: u64,
}

impl<W: Write + Drop> Model for HostSink<W> {
    ghost use Rattle.std.specs.Prelude.{◌≤◌};
    ghost use Rattle.pt_outside.specs.Counts.{last};
    ghost use Rattle.pt_outside.specs.Sent.{Sent};

    ghost Value = { Sent };

    ghost view = { λ s. record { pushes = s.pushes; sent = s.sent; faults = s.faults } };

    ghost invariant = { λ s. s.faults ≤ last };
}

impl<W: Write + Drop> HostSink<W> {
    /// A sink over this writer, with no push and no fault so far.
    pub fn over(inner: W) -> Self
        ensures { result ≡ record { pushes = 0; sent = true; faults = 0 } }
    {
        HostSink {
            inner,
            pushes: 0,
            sent: true,
            faults: 0,
        }
    }
}

impl<W: Write + Drop> Sink for HostSink<W> {
    ghost told = { λ s. record { written = None; pushes = s.pushes; sent = s.sent; faults = s.faults } };

    fn push(&mut self, bytes: &[u8]) -> Result<(), Failed>
        ensures ok { OnOk result (Appends None None bytes.now) }
        ensures err { OnErr result (AppendsFront None None bytes.now) }
        ensures pushes { OnOk result (self.new.pushes ≡ next self.old.pushes) }
        ensures cause { HasCause self.old.faults self.new.faults result }
        ensures counted { Counts self.old.faults self.new.faults result }
    {
        match self.inner.write_all(bytes) {
            Ok(()) => {
                self.pushes = self.pushes.saturating_add(1);
                self.sent = false;
                Ok(())
            }
            Err(_) => {
                self.faults = self.faults.saturating_add(1);
                Err(Failed)
            }
        }
    }

    fn flush(&mut self) -> Result<(), Failed>
        ensures written { Keeps None None }
        ensures pushes { self.new.pushes ≡ self.old.pushes }
        ensures sent { OnOk result (self.new.sent ≡ true) }
        ensures cause { HasCause self.old.faults self.new.faults result }
        ensures counted { Counts self.old.faults self.new.faults result }
    {
        match self.inner.flush() {
            Ok(()) => {
                self.sent = true;
                Ok(())
            }
            Err(_) => {
                self.faults = self.faults.saturating_add(1);
                Err(Failed)
            }
        }
    }
}
