ghost use Rattle.std.specs.Prelude.{◌≡◌, ◌≤◌, ◌+◌, ◌++◌, length};
ghost use Rattle.pt_trace.specs.Verdict as spec;

use crate::report::LineBuffer;

/// Leaves the line `yes bound B` in the buffer, with ` reached` where the certificate's walk costs as much. It takes no
/// memory, and nor do the other calls.
pub fn yes_line(bound: u64, reached: bool, into: &mut LineBuffer)
    ensures { into.new ≡ spec.yes_line bound reached }
{
    into.clear();
    into.push_bytes(b"yes bound ");
    into.push_decimal(bound);
    if reached {
        into.push_bytes(b" reached");
    }
    into.push_bytes(b"\n");
}

// A number, or `-` for none.
fn push_number(number: Option<u64>, into: &mut LineBuffer)
    requires { length into.old + 20 ≤ 1024 }
    ensures text { into.new ≡ into.old ++ spec.number_text number }
    ensures room { length into.new ≤ length into.old + 20 }
{
    match number {
        None => into.push_bytes(b"-"),
        Some(n) => into.push_decimal(n),
    }
}

/// Leaves the line `no AN at ADDRESS level LEVEL needed NEEDED given GIVEN` in the buffer, with `-` where no number is
/// given.
pub fn no_line(
    condition: u8,
    at: u32,
    level: usize,
    needed: u128,
    given: Option<u64>,
    into: &mut LineBuffer,
)
    ensures { into.new ≡ spec.no_line condition at level needed given }
{
    into.clear();
    into.push_bytes(b"no A");
    into.push_decimal(u64::from(condition));
    into.push_bytes(b" at ");
    into.push_decimal(u64::from(at));
    into.push_bytes(b" level ");
    into.push_decimal(level as u64);
    into.push_bytes(b" needed ");
    into.push_wide(needed);
    into.push_bytes(b" given ");
    push_number(given, into);
    into.push_bytes(b"\n");
}

/// Leaves the line `image IN` in the buffer.
pub fn image_line(number: u8, into: &mut LineBuffer)
    ensures { into.new ≡ spec.image_line number }
{
    into.clear();
    into.push_bytes(b"image I");
    into.push_decimal(u64::from(number));
    into.push_bytes(b"\n");
}

/// Leaves the line `cert KN` in the buffer.
pub fn cert_line(number: u8, into: &mut LineBuffer)
    ensures { into.new ≡ spec.cert_line number }
{
    into.clear();
    into.push_bytes(b"cert K");
    into.push_decimal(u64::from(number));
    into.push_bytes(b"\n");
}
