ghost use Rattle.std.specs.Prelude.{◌≡◌, ◌≤◌, ◌<◌, [], OnOk, length, drop};
ghost use Rattle.std.specs.Io.KnownBytes.{Keeps, prepend_known};
ghost use Rattle.pt_outside.specs.Counts.{Rose};
ghost use Rattle.pt_trace.specs.Next.{line_feed};
ghost use Rattle.pt_trace.specs.Pulling.{Pulls};

use pt_outside::{Failed, Source};
use std::marker::Model;

// Bytes that were pulled, at the front of a fixed table.
#[derive(Drop)]
pub struct KeptBytes {
    table: [u8; 2048],
    filled: usize,
}

impl Model for KeptBytes {
    ghost use Rattle.std.specs.Prelude.{◌≤◌, ℕ, List, take};

    ghost Value = { List ℕ };

    ghost view = { λ k. take k.filled k.table };

    ghost invariant = { λ k. k.filled ≤ 2048 };
}

impl KeptBytes {
    pub fn none() -> KeptBytes
        ensures { result ≡ [] }
    {
        KeptBytes {
            table: [0; 2048],
            filled: 0,
        }
    }

    pub fn bytes(&self) -> &[u8]
        ensures all { result.now ≡ self.now }
        ensures few { length result.now ≤ 2048 }
    {
        &self.table[..self.filled]
    }

    // Where the first line feed stands.
    pub fn line_feed(&self) -> Option<usize>
        ensures { result ≡ line_feed self.now }
    {
        self.bytes().iter().position(|byte| *byte == b'\n')
    }

    // Drops the first bytes.
    pub fn drop_front(&mut self, count: usize)
        requires { count ≤ length self.old }
        ensures after { self.new ≡ drop count self.old }
        ensures few { length self.new ≤ 2048 }
    {
        self.table.copy_within(count..self.filled, 0);
        self.filled -= count;
    }

    // Pulls bytes behind those that are kept; false is the end of the input.
    pub fn pull<I: Source>(&mut self, input: &mut I) -> Result<bool, Failed>
        requires { length self.old < 2048 }
        ensures unread { Keeps (prepend_known self.old (I.told input.old).left) (prepend_known self.new (I.told input.new).left) }
        ensures came { Pulls self.old self.new (I.told input.new).left (Rose (I.told input.old).faults (I.told input.new).faults) result }
        ensures later { (I.told input.old).faults ≤ (I.told input.new).faults }
        ensures stays { OnOk result ((I.told input.new).faults ≡ (I.told input.old).faults) }
        ensures few { length self.new ≤ 2048 }
    {
        match input.pull(&mut self.table[self.filled..]) {
            Ok(count) => {
                self.filled += count;
                Ok(count > 0)
            }
            Err(failed) => Err(failed),
        }
    }
}
