ghost use Rattle.std.specs.Prelude.{◌≡◌, IfOk, IsTrue, length};
ghost use Rattle.pc_regs.specs.Placement.{IsPlacement};
ghost use Rattle.pc_regs.specs.Words.{are_written, is_test_written, steps_words, test_words};
ghost use Rattle.pc_emit.specs.Units.{is_half, units_in};

use mb_isa::Instr;
use pc_lower::{Step, Test};
use pc_regs::{Placement, push_steps, push_test, words_are_work};
use pt_base::Memory;
use std::alloc::Global;

// Whether a word is the upper half of what the next word has.
fn is_half(word: Instr) -> bool
    ensures { result ≡ is_half word }
{
    matches!(word, Instr::Imm { .. })
}

// How many units words make: those that are no upper half.
fn units(words: &[Instr]) -> Result<u32, Memory>
    ensures { IfOk result (λ n. n ≡ units_in words.now) }
{
    let mut count: u32 = 0;
    for word in words {
        if !is_half(*word) {
            count = count.checked_add(1).ok_or(Memory)?;
        }
    }
    Ok(count)
}

/// How many units these steps take.
pub fn count_units(alloc: Global, placement: Placement, steps: &[Step]) -> Result<u32, Memory>
    requires room { IsPlacement placement }
    requires written { IsTrue (are_written placement steps.now) }
    ensures { IfOk result (λ n. n ≡ length (steps_words placement steps.now)) }
{
    words_are_work();
    let mut words = Vec::new(alloc);
    push_steps(&mut words, placement, steps)?;
    units(&words)
}

/// How many units a test takes, without its branch.
pub fn test_units(alloc: Global, placement: Placement, test: &Test) -> Result<u32, Memory>
    requires room { IsPlacement placement }
    requires written { IsTrue (is_test_written placement test.now) }
    ensures { IfOk result (λ n. n ≡ length (test_words placement test.now)) }
{
    words_are_work();
    let mut words = Vec::new(alloc);
    push_test(&mut words, placement, test)?;
    units(&words)
}
