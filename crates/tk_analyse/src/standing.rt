//! What a walk says of slots.

ghost use Rattle.std.specs.Prelude.{◌≡◌};
ghost use Rattle.tk_analyse.specs.Stood.{IsSet, is_free};

use tk_cert::State;

// Whether nothing is said of a slot.
fn is_free(state: &State) -> bool
    ensures { result ≡ is_free state.now }
{
    match state {
        State::Free => true,
        State::Start => false,
        State::Paused(_) => false,
        State::Waiting(_) => false,
        State::Ended => false,
    }
}

/// A slot does this as the tick begins, if nothing is said of it.
#[tactic(auto, using(crate::proofs::StoodLaws::sets))]
pub fn stand(states: &mut Vec<State>, slot: u32, state: State)
    ensures { IsSet slot state states.old.items states.new.items }
{
    let at = slot as usize;
    if at >= states.len() {
        return;
    }
    if !is_free(&states[at]) {
        return;
    }
    states[at] = state;
}
