ghost use Rattle.std.specs.Prelude.{◌≡◌, ◌↔◌, IsTrue};
ghost use Rattle.tk_cert.specs.Demands.{first_failing, AllHold};
ghost use Rattle.tk_paths.specs.Acceptance.{asks};
ghost use Rattle.tk_paths.specs.Bounded.{BoundsFreeTicks, BoundsRuns};
ghost use Rattle.tk_paths.specs.Walks.{IsCostOf, IsWorst};
ghost use Rattle.tk_judge.specs.Answers.{Answers, IfYes, IsYes};

use crate::answer::Answer;
use crate::judging::judge;
use mb_isa::{Class, Costs};
use pt_image::Image;
use tk_cert::Cert;
use tk_paths::{a_reached_bound_is_worst, a_yes_bounds_free_ticks, a_yes_bounds_runs};
use tk_walk::walk_cost;

// Whether the certificate's walk costs just the bound.
fn is_reached(image: &Image, cert: &Cert, costs: &Costs) -> bool
    ensures { IsTrue result ↔ IsCostOf image.now costs.now cert.now.walk cert.now.bound }
{
    match walk_cost(image, costs, cert.walk()) {
        Some(cost) => cost == cert.bound(),
        None => false,
    }
}

// The answer by the demands of acceptance.
fn decided(image: &Image, cert: &Cert, costs: &Costs) -> Answer
    ensures verdict { Answers (first_failing (asks image.now cert.now costs.now)) result }
    ensures reached { IfYes result (λ reached. IsTrue reached ↔ IsCostOf image.now costs.now cert.now.walk cert.now.bound) }
    ensures accepted { IsYes result ↔ AllHold (asks image.now cert.now costs.now) }
{
    match judge(image, cert, costs) {
        Some(refusal) => Answer::No {
            condition: refusal.condition,
            at: refusal.at,
            level: refusal.level,
            needed: refusal.needed,
            given: refusal.given,
        },
        None => Answer::Yes {
            reached: is_reached(image, cert, costs),
        },
    }
}

/// Whether a certificate bounds the cycles of each tick of an image: yes exactly where all demands of acceptance hold, else the
/// first demand that fails. Takes no memory, and time about linear in the code, the lines, the levels and the walk.
///
/// Where it says yes, no free tick is charged more than the bound or traps, and no tick of any run is charged more than
/// the bound or traps but at a bad address, whoever made image, certificate and costs. Where the bound is reached, it is
/// the greatest cost of a free tick.
pub fn check(image: &Image, cert: &Cert, costs: &Costs) -> Answer
    ensures verdict { Answers (first_failing (asks image.now cert.now costs.now)) result }
    ensures reached { IfYes result (λ reached. IsTrue reached ↔ IsCostOf image.now costs.now cert.now.walk cert.now.bound) }
    ensures accepted { IsYes result ↔ AllHold (asks image.now cert.now costs.now) }
    ensures free_ticks { IsYes result → BoundsFreeTicks image.now costs.now cert.now.bound }
    ensures runs { IsYes result → BoundsRuns image.now costs.now cert.now.bound }
    ensures worst { IfYes result (λ reached. IsTrue reached → IsWorst image.now costs.now cert.now.bound) }
{
    image.ranges();
    cert.shape();
    let _tick = costs.cost(Class::Tick);
    a_yes_bounds_free_ticks();
    a_yes_bounds_runs();
    a_reached_bound_is_worst();
    decided(image, cert, costs)
}
