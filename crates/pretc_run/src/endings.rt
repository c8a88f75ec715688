ghost use Rattle.std.specs.Prelude.{◌≡◌};
ghost use Rattle.pretc_run.specs.Endings.{number_of, line_of};

use mb_isa::Class;
use pt_base::{Rule, Span};
use pt_trace::{
    LineBuffer, cert_line, cost_line, costs_line, image_line, no_line, refused_line, trace_line,
    trap_line,
};
use tk_cert::key;

/// How a call of `pretc` ends. A call whose sink fails ends with `WRITE_FAULT` instead.
#[derive(Clone, Copy)]
pub enum Ending {
    Done,
    /// The program breaks a rule.
    Refused {
        rule: Rule,
        span: Span,
    },
    Usage,
    ReadFault,
    WantOfMemory,
    /// The table of costs is refused by C1 or C4.
    BadCosts {
        rule: u8,
    },
    /// A class of the table of costs is refused, by C2 or C3.
    BadCost {
        rule: u8,
        class: Class,
    },
    /// A line of the trace is bad.
    BadTrace {
        rule: u8,
        line: u64,
    },
    BadImage {
        number: u8,
    },
    BadCert {
        number: u8,
    },
    /// A demand of the checker fails.
    NotAccepted {
        condition: u8,
        at: u32,
        level: usize,
        needed: u128,
        given: Option<u64>,
    },
    /// A tick loaded or stored outside the memory.
    Trapped {
        at: u32,
        tick: u64,
    },
    StoreFault,
    NoFile,
}

/// The exit status of a call whose sink failed.
pub const WRITE_FAULT: u8 = 4;

impl Ending {
    /// The exit status.
    pub fn number(self) -> u8
        ensures { result ≡ number_of self }
    {
        match self {
            Ending::Done => 0,
            Ending::Refused { .. } => 1,
            Ending::Usage => 2,
            Ending::ReadFault => 3,
            Ending::WantOfMemory => 5,
            Ending::BadCosts { .. } => 6,
            Ending::BadCost { .. } => 6,
            Ending::BadTrace { .. } => 7,
            Ending::BadImage { .. } => 8,
            Ending::BadCert { .. } => 8,
            Ending::NotAccepted { .. } => 9,
            Ending::Trapped { .. } => 10,
            Ending::StoreFault => 11,
            Ending::NoFile => 17,
        }
    }

    /// The line that is printed last, with its line feed; a command that is done has a line of its own.
    pub fn line(self) -> LineBuffer
        ensures { result ≡ line_of self }
    {
        let mut line = LineBuffer::empty();
        match self {
            Ending::Done => {}
            Ending::Refused { rule, span } => refused_line(rule, span, &mut line),
            Ending::BadCosts { rule } => costs_line(rule, &mut line),
            Ending::BadCost { rule, class } => cost_line(rule, key(class).as_bytes(), &mut line),
            Ending::BadTrace { rule, line: number } => trace_line(rule, number, &mut line),
            Ending::BadImage { number } => image_line(number, &mut line),
            Ending::BadCert { number } => cert_line(number, &mut line),
            Ending::NotAccepted {
                condition,
                at,
                level,
                needed,
                given,
            } => no_line(condition, at, level, needed, given, &mut line),
            Ending::Trapped { at, tick } => trap_line(at, tick, &mut line),
            Ending::Usage => line = LineBuffer::of(b"usage\n"),
            Ending::ReadFault => line = LineBuffer::of(b"read fault\n"),
            Ending::WantOfMemory => line = LineBuffer::of(b"want of memory\n"),
            Ending::StoreFault => line = LineBuffer::of(b"store fault\n"),
            Ending::NoFile => line = LineBuffer::of(b"no file\n"),
        }
        line
    }
}
