ghost use Rattle.std.specs.Prelude.{◌≡◌};
ghost use Rattle.pc_rules.specs.Known as spec;

/// What is known of a function by its number, and 0 where nothing is.
pub fn known_of(known: &[u64], function: usize) -> u64
    ensures { result ≡ spec.known_of known.now function }
{
    known.get(function).copied().unwrap_or(0)
}
