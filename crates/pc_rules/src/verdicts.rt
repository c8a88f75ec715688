ghost use Rattle.std.specs.Prelude.{IfOk};
ghost use Rattle.pc_rules.specs.Sizes.{AreSizes};
ghost use Rattle.pc_rules.specs.Verdicts.{IsJudgedText};

use crate::judging::judge;
use crate::sizes::Sizes;
use crate::sources::source_of;
use pc_grammar::{Program, Typed};
use pc_names::resolve;
use pt_base::{Refusal, Text};
use std::alloc::Global;

/// A program that keeps every rule: its tree, the same with numbers for names, and how large it is.
#[derive(Drop)]
pub struct Accepted {
    pub program: Program,
    pub typed: Typed,
    pub sizes: Sizes,
}

/// The program of a source that keeps every rule, or the first rule that it breaks: of size, tokens, grammar, names, loops
/// and limits in this order, and among each of these by the start of the place and then by the rule's number.
pub fn judged(alloc: Global, text: &Text) -> Result<Accepted, Refusal>
    ensures verdict { IsJudgedText text.now result }
    ensures sizes { IfOk result (λ accepted. AreSizes accepted.typed accepted.sizes) }
{
    let program = match source_of(alloc, text) {
        Ok(program) => program,
        Err(refusal) => return Err(refusal),
    };
    let typed = match resolve(alloc, &program) {
        Ok(typed) => typed,
        Err(refusal) => return Err(refusal),
    };
    match judge(alloc, &typed) {
        Ok(sizes) => Ok(Accepted {
            program,
            typed,
            sizes,
        }),
        Err(refusal) => Err(refusal),
    }
}
