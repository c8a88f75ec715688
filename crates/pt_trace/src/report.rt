ghost use Rattle.std.specs.Prelude.{◌≡◌, ◌≤◌, ◌+◌, ◌*◌, ◌<◌, ◌++◌, ◌∷◌, [], length};
ghost use Rattle.std.specs.Fmt.{decimal, signed_decimal};
ghost use Rattle.pt_trace.specs.Report as spec;

use arrayvec::ArrayVec;
use std::marker::Model;

/// A line of at most 1,024 bytes, in a fixed table.
#[derive(Drop)]
pub struct LineBuffer {
    bytes: ArrayVec<u8, 1024>,
}

impl Model for LineBuffer {
    ghost use Rattle.std.specs.Prelude.{◌≤◌, ℕ, List, length};

    ghost Value = { List ℕ };

    ghost view = { λ b. b.bytes.items };

    ghost invariant = { λ b. length b.bytes.items ≤ 1024 };
}

impl LineBuffer {
    /// A buffer with no bytes. It takes no memory.
    pub fn empty() -> LineBuffer
        ensures { result ≡ [] }
    {
        LineBuffer {
            bytes: ArrayVec::new(),
        }
    }

    /// A buffer of these bytes. It takes no memory.
    pub fn of(bytes: &[u8]) -> LineBuffer
        requires { length bytes.now ≤ 1024 }
        ensures { result ≡ bytes.now }
    {
        let mut line = LineBuffer::empty();
        line.push_bytes(bytes);
        line
    }

    /// The bytes.
    pub fn bytes(&self) -> &[u8]
        ensures { result.now ≡ self.now }
    {
        self.bytes.as_slice()
    }

    pub(crate) fn clear(&mut self)
        ensures { self.new ≡ [] }
    {
        self.bytes.clear();
    }

    pub(crate) fn push_bytes(&mut self, bytes: &[u8])
        requires { length self.old + length bytes.now ≤ 1024 }
        ensures { self.new ≡ self.old ++ bytes.now }
    {
        if self.bytes.try_extend_from_slice(bytes).is_err() {}
    }

    fn push_byte(&mut self, byte: u8)
        requires { length self.old < 1024 }
        ensures { self.new ≡ self.old ++ byte ∷ [] }
    {
        self.bytes.push(byte);
    }

    // The digits of a number that has room.
    fn push_digits(&mut self, n: u128)
        requires { length self.old + length (decimal n) ≤ 1024 }
        ensures { self.new ≡ self.old ++ decimal n }
    {
        if n < 10 {
            self.push_byte(b'0' + n as u8);
            return;
        }
        self.push_digits(n / 10);
        self.push_byte(b'0' + (n % 10) as u8);
    }

    pub(crate) fn push_decimal(&mut self, n: u64)
        requires { length self.old + 20 ≤ 1024 }
        ensures text { self.new ≡ self.old ++ decimal n }
        ensures room { length self.new ≤ length self.old + 20 }
    {
        self.push_digits(n as u128);
    }

    pub(crate) fn push_wide(&mut self, n: u128)
        requires { length self.old + 39 ≤ 1024 }
        ensures text { self.new ≡ self.old ++ decimal n }
        ensures room { length self.new ≤ length self.old + 39 }
    {
        self.push_digits(n);
    }

    fn push_signed(&mut self, value: i32)
        requires { length self.old + 11 ≤ 1024 }
        ensures text { self.new ≡ self.old ++ signed_decimal value }
        ensures room { length self.new ≤ length self.old + 11 }
    {
        let size = value.unsigned_abs() as u128;
        if value < 0 {
            self.push_byte(b'-');
            self.push_digits(size);
            return;
        }
        self.push_digits(size);
    }

    // Each value after a blank.
    fn push_values(&mut self, values: &[i32])
        requires { length self.old + 12 * length values.now ≤ 1024 }
        ensures text { self.new ≡ self.old ++ spec.values_text values.now }
        ensures room { length self.new ≤ length self.old + 12 * length values.now }
    {
        for value in values {
            self.push_byte(b' ');
            self.push_signed(*value);
        }
    }
}

/// Leaves the line of a tick in the buffer: `tick K:`, a blank and its value for each output, then
/// ` cycles C` where the cycles are told, and a line feed. It takes no memory.
pub fn report_line(tick: u64, outputs: &[i32], cycles: Option<u64>, into: &mut LineBuffer)
    requires { length outputs.now ≤ 64 }
    ensures { into.new ≡ spec.tick_line tick outputs.now cycles }
{
    into.clear();
    into.push_bytes(b"tick ");
    into.push_decimal(tick);
    into.push_bytes(b":");
    into.push_values(outputs);
    if let Some(cycles) = cycles {
        into.push_bytes(b" cycles ");
        into.push_decimal(cycles);
    }
    into.push_bytes(b"\n");
}

/// Leaves the line `bound B` in the buffer.
pub fn bound_line(bound: u64, into: &mut LineBuffer)
    ensures { into.new ≡ spec.bound_line bound }
{
    into.clear();
    into.push_bytes(b"bound ");
    into.push_decimal(bound);
    into.push_bytes(b"\n");
}

/// Leaves the line `ticks N worst W` in the buffer.
pub fn worst_line(ticks: u64, worst: u64, into: &mut LineBuffer)
    ensures { into.new ≡ spec.worst_line ticks worst }
{
    into.clear();
    into.push_bytes(b"ticks ");
    into.push_decimal(ticks);
    into.push_bytes(b" worst ");
    into.push_decimal(worst);
    into.push_bytes(b"\n");
}

/// Leaves the line `ticks N` in the buffer.
pub fn ticks_line(ticks: u64, into: &mut LineBuffer)
    ensures { into.new ≡ spec.ticks_line ticks }
{
    into.clear();
    into.push_bytes(b"ticks ");
    into.push_decimal(ticks);
    into.push_bytes(b"\n");
}

/// Leaves the line `threads T` in the buffer.
pub fn threads_line(threads: u64, into: &mut LineBuffer)
    ensures { into.new ≡ spec.threads_line threads }
{
    into.clear();
    into.push_bytes(b"threads ");
    into.push_decimal(threads);
    into.push_bytes(b"\n");
}

/// Leaves the line `ticks N sum S worst W` in the buffer.
pub fn sum_line(ticks: u64, sum: i32, worst: u64, into: &mut LineBuffer)
    ensures { into.new ≡ spec.sum_line ticks sum worst }
{
    into.clear();
    into.push_bytes(b"ticks ");
    into.push_decimal(ticks);
    into.push_bytes(b" sum ");
    into.push_signed(sum);
    into.push_bytes(b" worst ");
    into.push_decimal(worst);
    into.push_bytes(b"\n");
}
