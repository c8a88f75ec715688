ghost use Rattle.std.specs.Prelude.{◌≡◌, ◌+◌, IfOk, IsTrue, length};
ghost use Rattle.pc_lower.specs.Trees.{read};
ghost use Rattle.pc_lower.specs.Words.{words_in};
ghost use Rattle.pc_regs.specs.Placement.{IsPlacement};
ghost use Rattle.pc_regs.specs.Words.{are_written, is_test_written, test_words, writing_of};
ghost use Rattle.pc_regs.specs.Writings.{OptionWritten, NodeWritten};
ghost use Rattle.pc_emit.specs.Made.{nowhere, made_straight, made_loop, made_calling, made_region};

use crate::counting::{count_units, test_units};
use crate::sizes::{loop_size, option_size, size, sum, test_size};
use pc_lower::{Node, Step, Test};
use pc_regs::{Placement, count_steps, count_test};
use pt_base::Memory;
use sqlite_items::{Boxed, Items};
use std::alloc::Global;
use tk_paths::Region;

/// A number in 32 bits. No memory holds an image of more words than these count.
pub fn number(n: usize) -> Result<u32, Memory>
    ensures { IfOk result (λ m. m ≡ n) }
{
    if n > u32::MAX as usize {
        return Err(Memory);
    }
    Ok(n as u32)
}

/// The units of a test at a place, and the place of its branch.
pub fn tested(
    alloc: Global,
    placement: Placement,
    test: &Test,
    at: usize,
) -> Result<(u32, u32), Memory>
    requires room { IsPlacement placement }
    requires written { IsTrue (is_test_written placement test.now) }
    ensures count { IfOk result (λ t. t.0 ≡ length (test_words placement test.now)) }
    ensures branch { IfOk result (λ t. t.1 ≡ at + words_in (test_words placement test.now)) }
{
    let count = test_units(alloc, placement, test)?;
    let branch = sum(at, count_test(alloc, placement, test)?)?;
    Ok((count, number(branch)?))
}

// No words at a place.
fn nowhere(at: usize) -> Result<Region, Memory>
    ensures { IfOk result (λ r. r ≡ nowhere at) }
{
    let place = number(at)?;
    Ok(Region::Words {
        from: place,
        count: 0,
        to: place,
    })
}

// Steps at a place.
fn straight(
    alloc: Global,
    placement: Placement,
    steps: &[Step],
    at: usize,
) -> Result<Region, Memory>
    requires room { IsPlacement placement }
    requires written { IsTrue (are_written placement steps.now) }
    ensures { IfOk result (λ r. r ≡ made_straight (writing_of placement) steps.now at) }
{
    let from = number(at)?;
    let count = count_units(alloc, placement, steps)?;
    let to = number(sum(at, count_steps(alloc, placement, steps)?)?)?;
    Ok(Region::Words { from, count, to })
}

// A loop of so many turns at a place, and the place behind its jump back.
fn bounded(
    alloc: Global,
    placement: Placement,
    most: u32,
    test: &Option<Test>,
    at: usize,
    body: Region,
    out: usize,
) -> Result<Region, Memory>
    requires room { IsPlacement placement }
    requires written { OptionWritten (writing_of placement) test.now }
    ensures { IfOk result (λ r. r ≡ made_loop (writing_of placement) most test.now at body out) }
{
    let from = number(at)?;
    let out = number(out)?;
    let turns = most.saturating_sub(1);
    match test {
        None => {
            let body = Boxed::new(alloc, body)?;
            Ok(Region::Repeated {
                from,
                turns,
                body,
                to: out,
            })
        }
        Some(test) => {
            let begin = sum(sum(at, loop_size(most))?, 1)?;
            let (count, branch) = tested(alloc, placement, test, begin)?;
            let body = Boxed::new(alloc, body)?;
            Ok(Region::Counted {
                from,
                turns,
                count,
                branch,
                body,
                drop: out,
            })
        }
    }
}

// A call at a place.
fn calling(numbers: &[u32], function: u32, at: usize) -> Result<Region, Memory>
    ensures { IfOk result (λ r. r ≡ made_calling numbers.now function at) }
{
    let place = number(at)?;
    let routine = numbers.get(function as usize).copied().unwrap_or(0);
    Ok(Region::Calling { place, routine })
}

/// The region of a node at a place: one of a routine, or of the body of a loop with a number.
#[tactic(auto, using(pc_lower::proofs::FlowTrees::reads))]
pub fn region(
    alloc: Global,
    placement: Placement,
    numbers: &[u32],
    node: &Node,
    at: usize,
) -> Result<Region, Memory>
    requires room { IsPlacement placement }
    requires written { NodeWritten (writing_of placement) (read node.now) }
    ensures { IfOk result (λ r. r ≡ made_region (writing_of placement) numbers.now (read node.now) at) }
{
    match node {
        Node::Straight(steps) => straight(alloc, placement, steps.as_slice(), at),
        Node::Sequence(nodes) => {
            let nodes = nodes.as_slice();
            let mut parts = Items::new(alloc);
            let mut place = at;
            for node in nodes {
                parts.push(region(alloc, placement, numbers, node, place)?)?;
                place = sum(place, size(alloc, placement, node)?)?;
            }
            let to = number(place)?;
            Ok(Region::Sequence { parts, to })
        }
        Node::Branch {
            test,
            first,
            second,
        } => {
            let from = number(at)?;
            let (count, branch) = tested(alloc, placement, test, at)?;
            let inner = sum(at, test_size(alloc, placement, test)?)?;
            let other = sum(sum(inner, size(alloc, placement, first.get())?)?, 2)?;
            let untaken = region(alloc, placement, numbers, first.get(), inner)?;
            let taken = region(alloc, placement, numbers, second.get(), other)?;
            Ok(Region::Choice {
                from,
                count,
                branch,
                untaken: Boxed::new(alloc, untaken)?,
                taken: Boxed::new(alloc, taken)?,
            })
        }
        Node::Turns { .. } => nowhere(at),
        Node::Bounded { most, test, body } => {
            let begin = sum(sum(at, loop_size(*most))?, 1)?;
            let inner = sum(begin, option_size(alloc, placement, test)?)?;
            let out = sum(sum(inner, size(alloc, placement, body.get())?)?, 2)?;
            let body = region(alloc, placement, numbers, body.get(), inner)?;
            bounded(alloc, placement, *most, test, at, body, out)
        }
        Node::Call(function) => calling(numbers, *function, at),
        Node::Pause(_) => nowhere(at),
        Node::Fork { .. } => nowhere(at),
        Node::Guard { .. } => nowhere(at),
    }
}
