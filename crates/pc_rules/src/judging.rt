ghost use Rattle.std.specs.Prelude.{IfOk};
ghost use Rattle.pc_rules.specs.Judging.{IsJudged};
ghost use Rattle.pc_rules.specs.Sizes.{AreSizes};

use crate::limits::note_limits;
use crate::noting::{Noted, of_functions};
use crate::sizes::Sizes;
use pc_grammar::Typed;
use pt_base::Refusal;
use std::alloc::Global;

/// The sizes of a program that keeps the rules on loops and the limits, or the first that it breaks: E1 and E2 before the
/// limits, then by the start of the span, then by the rule's number.
pub fn judge(alloc: Global, typed: &Typed) -> Result<Sizes, Refusal>
    ensures verdict { IsJudged typed.now result }
    ensures sizes { IfOk result (λ sizes. AreSizes typed.now sizes) }
{
    let noted = of_functions(typed.functions(), typed, Noted::nothing());
    if let Some((rule, span)) = noted.rules.found() {
        return Err(Refusal::Broken { rule, span });
    }
    let Ok(limits) = note_limits(alloc, typed, noted.limits) else {
        return Err(Refusal::Memory);
    };
    match limits.first.found() {
        None => Ok(limits.sizes),
        Some((rule, span)) => Err(Refusal::Broken { rule, span }),
    }
}
