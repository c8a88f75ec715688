ghost use Rattle.std.specs.Prelude.{◌≡◌, ◌+◌, IfOk, length};
ghost use Rattle.pc_lower.specs.Trees.{read};
ghost use Rattle.pc_lower.specs.Limits.{threads_of};
ghost use Rattle.pc_regs.specs.Placement.{IsPlacement};
ghost use Rattle.pc_regs.specs.Words.{writing_of};
ghost use Rattle.pc_regs.specs.Writings.{OptionWritten, NodeWritten};
ghost use Rattle.pc_emit.specs.Made.{made_turns, made_code};

use crate::region::{number, region, tested};
use crate::sizes::{option_size, size, sum, test_size};
use pc_lower::{Node, Test};
use pc_regs::Placement;
use pt_base::Memory;
use sqlite_items::{Boxed, Items};
use std::alloc::Global;
use tk_paths::Code;

// A loop without a number at a place, and the place behind it.
fn turning(
    alloc: Global,
    placement: Placement,
    test: &Option<Test>,
    at: usize,
    body: Code,
    out: usize,
) -> Result<Code, Memory>
    requires room { IsPlacement placement }
    requires written { OptionWritten (writing_of placement) test.now }
    ensures { IfOk result (λ c. c ≡ made_turns (writing_of placement) test.now at body out) }
{
    let to = number(out)?;
    match test {
        None => {
            let body = Boxed::new(alloc, body)?;
            Ok(Code::Forever { body, to })
        }
        Some(test) => {
            let from = number(at)?;
            let (count, branch) = tested(alloc, placement, test, at)?;
            let body = Boxed::new(alloc, body)?;
            Ok(Code::Turns {
                from,
                count,
                branch,
                body,
                to,
            })
        }
    }
}

/// The code of a thread's node at a place, and the first slot that the nodes behind it start; `child` is the first that this starts.
#[tactic(auto, using(pc_lower::proofs::FlowTrees::reads, crate::proofs::Making::making))]
pub fn code(
    alloc: Global,
    placement: Placement,
    numbers: &[u32],
    node: &Node,
    child: usize,
    at: usize,
) -> Result<(Code, usize), Memory>
    requires room { IsPlacement placement }
    requires written { NodeWritten (writing_of placement) (read node.now) }
    ensures code { IfOk result (λ c. c.0 ≡ made_code (writing_of placement) numbers.now (read node.now) child at) }
    ensures next { IfOk result (λ c. c.1 ≡ child + length (threads_of (read node.now))) }
{
    match node {
        Node::Straight(_) => {
            let region = region(alloc, placement, numbers, node, at)?;
            Ok((Code::Passed(region), child))
        }
        Node::Sequence(nodes) => {
            let nodes = nodes.as_slice();
            let mut parts = Items::new(alloc);
            let mut next = child;
            let mut place = at;
            for node in nodes {
                let (part, behind) = code(alloc, placement, numbers, node, next, place)?;
                parts.push(part)?;
                next = behind;
                place = sum(place, size(alloc, placement, node)?)?;
            }
            let to = number(place)?;
            Ok((Code::Sequence { parts, to }, next))
        }
        Node::Branch {
            test,
            first,
            second,
        } => {
            let from = number(at)?;
            let (count, branch) = tested(alloc, placement, test, at)?;
            let inner = sum(at, test_size(alloc, placement, test)?)?;
            let other = sum(sum(inner, size(alloc, placement, first.get())?)?, 2)?;
            let (untaken, middle) = code(alloc, placement, numbers, first.get(), child, inner)?;
            let (taken, next) = code(alloc, placement, numbers, second.get(), middle, other)?;
            let untaken = Boxed::new(alloc, untaken)?;
            let taken = Boxed::new(alloc, taken)?;
            Ok((
                Code::Either {
                    from,
                    count,
                    branch,
                    untaken,
                    taken,
                },
                next,
            ))
        }
        Node::Turns { test, body } => {
            let inner = sum(at, option_size(alloc, placement, test)?)?;
            let out = sum(sum(inner, size(alloc, placement, body.get())?)?, 2)?;
            let (body, next) = code(alloc, placement, numbers, body.get(), child, inner)?;
            let code = turning(alloc, placement, test, at, body, out)?;
            Ok((code, next))
        }
        Node::Bounded { .. } => {
            let region = region(alloc, placement, numbers, node, at)?;
            Ok((Code::Passed(region), child))
        }
        Node::Call(_) => {
            let region = region(alloc, placement, numbers, node, at)?;
            Ok((Code::Passed(region), child))
        }
        Node::Pause(_) => {
            let place = number(at)?;
            Ok((Code::Resting(place), child))
        }
        Node::Fork { number: _, threads } => {
            let place = number(at)?;
            let count = threads.as_slice().len();
            let next = sum(child, count)?;
            let first = number(child)?;
            let count = number(count)?;
            Ok((
                Code::Forking {
                    place,
                    first,
                    count,
                },
                next,
            ))
        }
        Node::Guard {
            number: abort,
            body,
        } => {
            let place = number(at)?;
            let (body, next) = code(alloc, placement, numbers, body.get(), child, sum(at, 1)?)?;
            let body = Boxed::new(alloc, body)?;
            Ok((
                Code::Guarded {
                    place,
                    number: *abort,
                    body,
                },
                next,
            ))
        }
    }
}
