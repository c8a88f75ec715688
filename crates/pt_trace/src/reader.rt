ghost use Rattle.std.specs.Prelude.{◌≡◌, ◌≤◌, ◌+◌, [], true, false, cond, nat_lt, IfSome, length};
ghost use Rattle.pt_trace.specs.Next as spec;
ghost use Rattle.pt_trace.specs.Next.{Stays, most_kept};

use crate::gather::{Found, gather};
use crate::kept::KeptBytes;
use crate::line::judge_line;
use pt_outside::Source;
use std::marker::Model;

/// Why a reader gives no more rows.
#[derive(Clone, Copy, Debug, PartialEq, Eq)]
pub enum TraceFault {
    /// The number of the rule that refuses a line, as 1 for T1, and that of the line, from 1.
    Refused { rule: u8, line: u64 },
    /// The source failed.
    ReadFault,
}

// A trace has no more lines than these.
const MOST_LINES: u64 = 1000000;

// A line of this number is refused where it has more bytes than these, whatever follows.
fn most_of(number: u64) -> usize
    ensures exact { result ≡ most_kept number }
    ensures few { result ≤ 1024 }
{
    if number > MOST_LINES { 0 } else { 1024 }
}

// The rule that then refuses it: T3 or T4.
fn early_rule(number: u64) -> u8
    ensures { result ≡ cond (nat_lt 1000000 number) 3 4 }
{
    if number > MOST_LINES { 3 } else { 4 }
}

/// A reader of a trace, line by line.
#[derive(Drop)]
pub struct TraceReader {
    kept: KeptBytes,
    width: u32,
    given: u64,
    ended: bool,
    fault: Option<TraceFault>,
}

impl Model for TraceReader {
    ghost use Rattle.std.specs.Prelude.{◌≡◌, ◌≤◌, ◌+◌, [], true, length};
    ghost use Rattle.pt_trace.specs.Next.{Reader};

    ghost Value = { Reader };

    ghost view = { λ r. record { width = r.width; given = r.given; kept = r.kept; ended = r.ended; fault = r.fault } };

    ghost invariant = { λ r. (length r.kept ≤ 2048) × (r.given ≤ 1000000) × (r.ended ≡ true → r.kept ≡ []) };
}

impl TraceReader {
    /// How many lines it has given.
    pub fn given(&self) -> u64
        ensures { result ≡ self.now.given }
    {
        self.given
    }

    /// A reader of rows of this width that has given no line of the input. It pulls nothing and takes no memory.
    pub fn begin<I: Source>(_input: &mut I, width: u32) -> TraceReader
        ensures reader { result ≡ record { width = width; given = 0; kept = []; ended = false; fault = None } }
        ensures input { _input.new ≡ _input.old }
    {
        TraceReader {
            kept: KeptBytes::none(),
            width,
            given: 0,
            ended: false,
            fault: None,
        }
    }

    /// Reads the next line into the row; false is the end of the input. It takes no memory.
    ///
    /// A fault is kept and answered again, and so is the end; nothing is then pulled. The row is of use
    /// after true alone. Of a line that isn't whole at most 1,024 bytes are kept, and none of line 1,000,001.
    pub fn next<I: Source>(&mut self, input: &mut I, row: &mut [i32]) -> Result<bool, TraceFault>
        requires { length row.old ≡ self.old.width }
        ensures fault_again { IfSome self.old.fault (λ f. (result ≡ Err f) × (self.new ≡ self.old) × (input.new ≡ input.old)) }
        ensures end_again { self.old.fault ≡ None → self.old.ended ≡ true →
            (result ≡ Ok false) × (self.new ≡ self.old) × (input.new ≡ input.old) }
        ensures answer { self.old.fault ≡ None → self.old.ended ≡ false
            → spec.Next self.old self.new (I.told input.old) (I.told input.new) row.new result }
        ensures stays { Stays (I.told input.old).faults (I.told input.new).faults result }
        ensures width { self.new.width ≡ self.old.width }
        ensures later { (I.told input.old).faults ≤ (I.told input.new).faults }
        ensures few_kept { length self.new.kept ≤ 2048 }
        ensures few_given { self.new.given ≤ 1000000 }
        ensures one_more { result ≡ Ok true → self.new.given ≡ self.old.given + 1 }
        ensures row_width { length row.new ≡ length row.old }
    {
        if let Some(fault) = self.fault {
            return Err(fault);
        }
        if self.ended {
            return Ok(false);
        }
        let number = self.given + 1;
        match gather(&mut self.kept, most_of(number), input) {
            Err(_) => {
                self.fault = Some(TraceFault::ReadFault);
                Err(TraceFault::ReadFault)
            }
            Ok(Found::Long) => {
                let fault = TraceFault::Refused {
                    rule: early_rule(number),
                    line: number,
                };
                self.fault = Some(fault);
                Err(fault)
            }
            Ok(Found::LineFeed(at)) => {
                if let Some(rule) = judge_line(number, &self.kept.bytes()[..at], true, row) {
                    let fault = TraceFault::Refused { rule, line: number };
                    self.fault = Some(fault);
                    return Err(fault);
                }
                self.kept.drop_front(at + 1);
                self.given = number;
                Ok(true)
            }
            Ok(Found::End) => {
                let count = self.kept.bytes().len();
                if count == 0 {
                    self.ended = true;
                    return Ok(false);
                }
                if let Some(rule) = judge_line(number, self.kept.bytes(), false, row) {
                    let fault = TraceFault::Refused { rule, line: number };
                    self.fault = Some(fault);
                    return Err(fault);
                }
                self.kept.drop_front(count);
                self.given = number;
                self.ended = true;
                Ok(true)
            }
        }
    }
}
