ghost use Rattle.std.specs.Prelude.{◌≡◌};
ghost use Rattle.pt_trace.specs.Accepted as spec;

use crate::report::LineBuffer;

/// Leaves the line `accepted threads T words W weight X single Y` in the buffer. It takes no memory.
pub fn accepted_line(threads: u64, words: u64, weight: u64, single: u64, into: &mut LineBuffer)
    ensures { into.new ≡ spec.accepted_line threads words weight single }
{
    into.clear();
    into.push_bytes(b"accepted threads ");
    into.push_decimal(threads);
    into.push_bytes(b" words ");
    into.push_decimal(words);
    into.push_bytes(b" weight ");
    into.push_decimal(weight);
    into.push_bytes(b" single ");
    into.push_decimal(single);
    into.push_bytes(b"\n");
}
