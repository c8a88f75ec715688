ghost use Rattle.std.specs.Prelude.{◌≡◌, ◌≤◌, length};
ghost use Rattle.pt_trace.specs.Refused as spec;
ghost use Rattle.pt_trace.specs.Refused.{name_of};

use crate::report::LineBuffer;
use pt_base::{Rule, Span};

// The letter and the digit of a rule.
fn rule_name(rule: Rule) -> &'static [u8]
    ensures text { result.now ≡ name_of rule }
    ensures short { length result.now ≡ 2 }
{
    match rule {
        Rule::Z1 => b"Z1",
        Rule::L1 => b"L1",
        Rule::L2 => b"L2",
        Rule::L3 => b"L3",
        Rule::S1 => b"S1",
        Rule::N1 => b"N1",
        Rule::N2 => b"N2",
        Rule::N3 => b"N3",
        Rule::N4 => b"N4",
        Rule::N5 => b"N5",
        Rule::N6 => b"N6",
        Rule::N7 => b"N7",
        Rule::N8 => b"N8",
        Rule::E1 => b"E1",
        Rule::E2 => b"E2",
        Rule::Z2 => b"Z2",
        Rule::Z3 => b"Z3",
        Rule::Z4 => b"Z4",
        Rule::Z5 => b"Z5",
        Rule::Z6 => b"Z6",
        Rule::Z7 => b"Z7",
        Rule::Z8 => b"Z8",
        Rule::Z9 => b"Z9",
    }
}

/// Leaves the line `refused RULE FROM TO` in the buffer. It takes no memory.
pub fn refused_line(rule: Rule, span: Span, into: &mut LineBuffer)
    ensures { into.new ≡ spec.refused_line rule span.from span.to }
{
    into.clear();
    into.push_bytes(b"refused ");
    into.push_bytes(rule_name(rule));
    into.push_bytes(b" ");
    into.push_decimal(u64::from(span.from));
    into.push_bytes(b" ");
    into.push_decimal(u64::from(span.to));
    into.push_bytes(b"\n");
}

/// Leaves the line `trace TN line L` in the buffer. It takes no memory.
pub fn trace_line(rule: u8, line: u64, into: &mut LineBuffer)
    ensures { into.new ≡ spec.trace_line rule line }
{
    into.clear();
    into.push_bytes(b"trace T");
    into.push_decimal(u64::from(rule));
    into.push_bytes(b" line ");
    into.push_decimal(line);
    into.push_bytes(b"\n");
}

/// Leaves the line `trap BadAddress at ADDRESS tick K` in the buffer. It takes no memory.
pub fn trap_line(at: u32, tick: u64, into: &mut LineBuffer)
    ensures { into.new ≡ spec.trap_line at tick }
{
    into.clear();
    into.push_bytes(b"trap BadAddress at ");
    into.push_decimal(u64::from(at));
    into.push_bytes(b" tick ");
    into.push_decimal(tick);
    into.push_bytes(b"\n");
}

/// Leaves the line `costs CN` in the buffer. It takes no memory.
pub fn costs_line(rule: u8, into: &mut LineBuffer)
    ensures { into.new ≡ spec.costs_line rule }
{
    into.clear();
    into.push_bytes(b"costs C");
    into.push_decimal(u64::from(rule));
    into.push_bytes(b"\n");
}

/// Leaves the line `costs CN KEY` in the buffer. It takes no memory.
pub fn cost_line(rule: u8, key: &[u8], into: &mut LineBuffer)
    requires { length key.now ≤ 7 }
    ensures { into.new ≡ spec.cost_line rule key.now }
{
    into.clear();
    into.push_bytes(b"costs C");
    into.push_decimal(u64::from(rule));
    into.push_bytes(b" ");
    into.push_bytes(key);
    into.push_bytes(b"\n");
}
