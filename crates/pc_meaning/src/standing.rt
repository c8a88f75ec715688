ghost use Rattle.std.specs.Prelude.{◌≡◌, Option};
ghost use Rattle.pc_meaning.specs.Moments.{standing_after};

use crate::lefts::Left;

/// Where `main` stands between two ticks.
#[derive(Drop)]
pub enum Standing {
    Unstarted,
    At(Left),
    Ended,
}

/// Where `main` stands, by what is left of it.
pub fn standing_after(left: Option<Left>) -> Standing
    ensures { result ≡ standing_after left }
{
    match left {
        None => Standing::Ended,
        Some(left) => Standing::At(left),
    }
}
