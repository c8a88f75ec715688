ghost use Rattle.std.specs.Prelude.{◌≡◌, ◌+◌, IfOk, IsTrue};
ghost use Rattle.pc_lower.specs.Trees.{read};
ghost use Rattle.pc_regs.specs.Placement.{IsPlacement};
ghost use Rattle.pc_regs.specs.Words.{is_test_written, writing_of};
ghost use Rattle.pc_emit.specs.Code.{loop_size, drop_size, test_size, option_size, size};
ghost use Rattle.pc_regs.specs.Writings.{OptionWritten, NodeWritten};

use pc_lower::{Node, Test};
use pc_regs::{Placement, count_steps, count_test};
use pt_base::Memory;
use std::alloc::Global;

/// The sum. No memory holds a tree of more words than 64 bits count.
pub fn sum(a: usize, b: usize) -> Result<usize, Memory>
    ensures { IfOk result (λ n. n ≡ a + b) }
{
    a.checked_add(b).ok_or(Memory)
}

/// How many words the opening of a bounded loop takes.
pub fn loop_size(most: u32) -> usize
    ensures { result ≡ loop_size most }
{
    if most < 65536 { 1 } else { 2 }
}

/// How many words stand behind a bounded loop with this test.
pub fn drop_size(test: &Option<Test>) -> usize
    ensures { result ≡ drop_size test.now }
{
    match test {
        None => 0,
        Some(_) => 1,
    }
}

/// How many words a test takes with its branch.
pub fn test_size(alloc: Global, placement: Placement, test: &Test) -> Result<usize, Memory>
    requires room { IsPlacement placement }
    requires written { IsTrue (is_test_written placement test.now) }
    ensures { IfOk result (λ n. n ≡ test_size (writing_of placement) test.now) }
{
    let words = count_test(alloc, placement, test)?;
    sum(words, 2)
}

/// How many words a test takes, if there is one.
pub fn option_size(
    alloc: Global,
    placement: Placement,
    test: &Option<Test>,
) -> Result<usize, Memory>
    requires room { IsPlacement placement }
    requires written { OptionWritten (writing_of placement) test.now }
    ensures { IfOk result (λ n. n ≡ option_size (writing_of placement) test.now) }
{
    match test {
        None => Ok(0),
        Some(test) => test_size(alloc, placement, test),
    }
}

/// How many words a node takes.
#[tactic(auto, using(pc_lower::proofs::FlowTrees::reads))]
pub fn size(alloc: Global, placement: Placement, node: &Node) -> Result<usize, Memory>
    requires room { IsPlacement placement }
    requires written { NodeWritten (writing_of placement) (read node.now) }
    ensures { IfOk result (λ n. n ≡ size (writing_of placement) (read node.now)) }
{
    match node {
        Node::Straight(steps) => count_steps(alloc, placement, steps.as_slice()),
        Node::Sequence(parts) => {
            let nodes = parts.as_slice();
            let mut all = 0;
            for node in nodes {
                all = sum(all, size(alloc, placement, node)?)?;
            }
            Ok(all)
        }
        Node::Branch {
            test,
            first,
            second,
        } => {
            let test = test_size(alloc, placement, test)?;
            let first = sum(test, size(alloc, placement, first.get())?)?;
            let jump = sum(first, 2)?;
            let all = sum(jump, size(alloc, placement, second.get())?)?;
            Ok(all)
        }
        Node::Turns { test, body } => {
            let test = option_size(alloc, placement, test)?;
            let body = sum(test, size(alloc, placement, body.get())?)?;
            let all = sum(body, 2)?;
            Ok(all)
        }
        Node::Bounded { most, test, body } => {
            let opening = sum(loop_size(*most), 1)?;
            let tested = sum(opening, option_size(alloc, placement, test)?)?;
            let body = sum(tested, size(alloc, placement, body.get())?)?;
            let jump = sum(body, 2)?;
            let all = sum(jump, drop_size(test))?;
            Ok(all)
        }
        Node::Call(_) => Ok(1),
        Node::Pause(_) => Ok(1),
        Node::Fork { .. } => Ok(1),
        Node::Guard { number: _, body } => {
            let body = sum(1, size(alloc, placement, body.get())?)?;
            let all = sum(body, 1)?;
            Ok(all)
        }
    }
}
