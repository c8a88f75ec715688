ghost use Rattle.std.specs.Prelude.{◌≡◌, ◌≤◌, OnOk, length};
ghost use Rattle.std.specs.Io.KnownBytes.{Keeps, prepend_known};
ghost use Rattle.pt_outside.specs.Counts.{Rose};
ghost use Rattle.pt_trace.specs.Gathering.{Gathers};

use crate::kept::KeptBytes;
use pt_outside::{Failed, Source};

// What is known of the next line.
#[derive(Clone, Copy)]
pub enum Found {
    // its line feed stands here
    LineFeed(usize),
    // it has more bytes than were asked for
    Long,
    // the input is at its end, and no line feed is left
    End,
}

// Pulls until the next line is kept whole, or more than `most` of its bytes are.
pub fn gather<I: Source>(kept: &mut KeptBytes, most: usize, input: &mut I) -> Result<Found, Failed>
    requires { most ≤ 1024 }
    ensures unread { Keeps (prepend_known kept.old (I.told input.old).left) (prepend_known kept.new (I.told input.new).left) }
    ensures found { Gathers kept.new most (I.told input.new).left (Rose (I.told input.old).faults (I.told input.new).faults) result }
    ensures later { (I.told input.old).faults ≤ (I.told input.new).faults }
    ensures stays { OnOk result ((I.told input.new).faults ≡ (I.told input.old).faults) }
    ensures few { length kept.old ≤ 2048 → length kept.new ≤ 2048 }
{
    loop {
        if let Some(at) = kept.line_feed() {
            return Ok(Found::LineFeed(at));
        }
        if kept.bytes().len() > most {
            return Ok(Found::Long);
        }
        match kept.pull(input) {
            Err(failed) => return Err(failed),
            Ok(false) => return Ok(Found::End),
            Ok(true) => {}
        }
    }
}
