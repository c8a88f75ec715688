ghost use Rattle.std.specs.Prelude.{◌≡◌, ◌+◌, ◌*◌, min};

use pt_base::MOST_PASSAGE;

/// The number that stands for itself and for every greater one.
pub const MOST_WORDS: u64 = MOST_PASSAGE as u64 + 1;

/// A sum.
pub fn plus(a: u64, b: u64) -> u64
    ensures { result ≡ min MOST_WORDS (a + b) }
{
    a.saturating_add(b).min(MOST_WORDS)
}

/// A product.
pub fn times(a: u64, b: u64) -> u64
    ensures { result ≡ min MOST_WORDS (a * b) }
{
    a.saturating_mul(b).min(MOST_WORDS)
}
