ghost use Rattle.std.specs.Prelude.{◌≡◌, ◌+◌, [], ◌∷◌, ◌++◌, OnOk, IfOk, IsTrue, length, Bool};
ghost use Rattle.std.specs.List.{AllByRecursion};
ghost use Rattle.mb_isa.specs.declared.words.Instr.TheVariants.{Cend};
ghost use Rattle.pc_lower.specs.declared.nodes.Test.{Test as Tested};
ghost use Rattle.pc_lower.specs.Trees.{pairs_of};
ghost use Rattle.pc_regs.specs.Placement.{IsPlacement};
ghost use Rattle.pc_regs.specs.Words.{test_words, test_register, is_test_written, writing_of};
ghost use Rattle.pc_regs.specs.Writings.{instrs};
ghost use Rattle.pc_emit.specs.Part.{joined, just};
ghost use Rattle.pc_emit.specs.Image.{conditions_words, abort_lines};

use crate::branches::short;
use crate::draft::Draft;
use crate::sizes::sum;
use mb_isa::Instr;
use pc_lower::{Abort, Test};
use pc_regs::{Placement, count_test, register};
use pt_base::Memory;
use pt_image::AbortLine;
use std::alloc::Global;

// Puts a condition at the end, with its `cend`.
#[tactic(auto, using(crate::proofs::Places::places))]
fn put_condition(out: &mut Draft, placement: Placement, test: &Test) -> Result<(), Memory>
    requires room { IsPlacement placement }
    requires written { IsTrue (is_test_written placement test.now) }
    ensures { OnOk result (out.new ≡
        joined out.old (just (instrs (test_words placement test.now) ++ Cend (test_register placement test.now) ∷ []))) }
{
    out.push_test(placement, test)?;
    let ra = register(placement, test);
    out.push_all(&[Instr::Cend { ra }])?;
    Ok(())
}

/// Puts the conditions of aborts at the end, one behind another.
#[tactic(auto, using(crate::proofs::Places::places))]
pub fn put_conditions(out: &mut Draft, placement: Placement, aborts: &[Abort]) -> Result<(), Memory>
    requires room { IsPlacement placement }
    requires written { AllByRecursion (λ (a : Bool × Tested). IsTrue (is_test_written placement a.1)) (pairs_of aborts.now) }
    ensures { OnOk result (out.new ≡ joined out.old (just (conditions_words (writing_of placement) (pairs_of aborts.now)))) }
{
    for abort in aborts {
        put_condition(out, placement, &abort.test)?;
    }
    Ok(())
}

/// The lines of aborts, whose conditions stand from a place on.
pub fn abort_lines(
    alloc: Global,
    placement: Placement,
    aborts: &[Abort],
    start: usize,
    handlers: &[u32],
) -> Result<Vec<AbortLine>, Memory>
    requires room { IsPlacement placement }
    requires written { AllByRecursion (λ (a : Bool × Tested). IsTrue (is_test_written placement a.1)) (pairs_of aborts.now) }
    ensures { IfOk result (λ lines. lines.items ≡ abort_lines (writing_of placement) (pairs_of aborts.now) 0 start handlers.now) }
{
    let mut lines = Vec::new(alloc);
    let mut place = start;
    for (number, abort) in aborts.iter().enumerate() {
        lines.push(AbortLine {
            weak: abort.weak,
            cond: u32::from(short(place)),
            handler: handlers.get(number).copied().unwrap_or(0),
        })?;
        let words = count_test(alloc, placement, &abort.test)?;
        place = sum(place, sum(words, 1)?)?;
    }
    Ok(lines)
}
