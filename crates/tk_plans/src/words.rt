//! The words of a thread's places, as plans read them.

ghost use Rattle.std.specs.Prelude.{◌≡◌, ◌≤◌, IfSome};
ghost use Rattle.tk_paths.specs.declared.view.View.TheVariants.{On};
ghost use Rattle.tk_paths.specs.Kinds.{line_at};
ghost use Rattle.tk_paths.specs.Acceptance.{number_in, stack_of};
ghost use Rattle.tk_paths.specs.Walks.{most_cycles};
ghost use Rattle.tk_paths.specs.Choices.{is_second};
ghost use Rattle.tk_plans.specs.Low.{AreLow};

use tk_cert::Line;
use tk_paths::{Side, number};

/// Whether of two numbers the second is the greater.
pub fn is_second(a: Option<u64>, b: Option<u64>) -> bool
    ensures { result ≡ is_second a b }
{
    match a {
        None => true,
        Some(a) => match b {
            None => false,
            Some(b) => a <= b,
        },
    }
}

/// The number of a side at a level of a place, where no line has one that is too great.
#[tactic(auto, using(crate::proofs::LowLaws::number_low))]
pub fn low_number(lines: &[Line], side: Side, level: usize, place: usize) -> Option<u64>
    requires { AreLow lines.now }
    ensures exact { result ≡ number_in (On side level) (line_at lines.now place) }
    ensures bound { IfSome result (λ n. n ≤ most_cycles) }
{
    number(lines, side, level, place)
}

/// The aborts round a place, from the outermost.
pub fn stack_at(lines: &[Line], place: usize) -> &[u32]
    ensures { result.now ≡ stack_of (line_at lines.now place) }
{
    match lines.get(place) {
        None => &[],
        Some(line) => match line {
            Line::Bare => &[],
            Line::Thread { stack, .. } => stack.items(),
            Line::Routine { .. } => &[],
            Line::Cond { .. } => &[],
        },
    }
}
