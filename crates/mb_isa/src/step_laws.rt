ghost use Rattle.mb_isa.specs.Laws.{TicksAreFollowed, TicksArePaid};

/// For each tick of the machine there is a list of choices with which the free tick from the same unit takes the same
/// steps at the same charges; it goes on where the machine meets a bad address.
pub fn a_tick_is_followed_freely()
    ensures { TicksAreFollowed }
{}

/// Where each good control pays for its step and for what comes after it, each tick of the machine that begins well ends,
/// or a bad address stops it, within what its beginning is worth.
pub fn a_tick_is_paid()
    ensures { TicksArePaid }
{}
