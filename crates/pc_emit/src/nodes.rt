ghost use Rattle.std.specs.Prelude.{◌≡◌, ◌+◌, [], ◌∷◌, ◌++◌, OnOk, IfOk, IsTrue, length};
ghost use Rattle.mb_isa.specs.declared.words.Instr.TheVariants.{Bri, Next};
ghost use Rattle.pc_lower.specs.Trees.{read};
ghost use Rattle.pc_lower.specs.Limits.{threads_of};
ghost use Rattle.pc_regs.specs.Placement.{IsPlacement};
ghost use Rattle.pc_regs.specs.Words.{is_test_written, writing_of};
ghost use Rattle.pc_emit.specs.Part.{joined, just};
ghost use Rattle.pc_emit.specs.Code.{loop_size, drop_size, option_size, size, short, jump, loop_words, drop_words, tested, option_tested, point, code};
ghost use Rattle.pc_regs.specs.Writings.{OptionWritten, NodeWritten};

use crate::branches::{lower_half, short, upper_half, way};
use crate::draft::Draft;
use crate::sizes::{drop_size, loop_size, option_size, size, sum, test_size};
use mb_isa::Instr;
use pc_lower::{Node, Test};
use pc_regs::{Placement, branch};
use pt_base::{Many, Memory};
use pt_image::Point;
use std::alloc::Global;

// Puts a jump to a place at the end.
fn put_jump(out: &mut Draft, to: usize) -> Result<(), Memory>
    ensures { OnOk result (out.new ≡ joined out.old (just (jump Bri (length out.old.words) to))) }
{
    let bits = way(out.place(), to);
    let upper = upper_half(bits);
    let lower = lower_half(bits);
    out.push_all(&[Instr::Imm { imm: upper }, Instr::Bri { imm: lower }])
}

// Puts a test at the end, and the branch to where it goes on if it doesn't hold.
#[tactic(auto, using(crate::proofs::Places::places))]
fn put_test(out: &mut Draft, placement: Placement, test: &Test, to: usize) -> Result<(), Memory>
    requires room { IsPlacement placement }
    requires written { IsTrue (is_test_written placement test.now) }
    ensures { OnOk result (out.new ≡ joined out.old (tested (writing_of placement) test.now (length out.old.words) to)) }
{
    out.push_test(placement, test)?;
    let bits = way(out.place(), to);
    let upper = upper_half(bits);
    let word = branch(placement, test, lower_half(bits));
    out.push_all(&[Instr::Imm { imm: upper }, word])?;
    Ok(())
}

// Puts a test at the end, if there is one.
#[tactic(auto, using(crate::proofs::Places::places))]
fn put_option(
    out: &mut Draft,
    placement: Placement,
    test: &Option<Test>,
    to: usize,
) -> Result<(), Memory>
    requires room { IsPlacement placement }
    requires written { OptionWritten (writing_of placement) test.now }
    ensures { OnOk result (out.new ≡ joined out.old (option_tested (writing_of placement) test.now (length out.old.words) to)) }
{
    match test {
        None => Ok(()),
        Some(test) => put_test(out, placement, test, to),
    }
}

// Puts the opening of a loop with so many turns at the end.
fn put_loop(out: &mut Draft, most: u32) -> Result<(), Memory>
    ensures { OnOk result (out.new ≡ joined out.old (just (loop_words most))) }
{
    if most < 65536 {
        return out.push_all(&[Instr::Loop { turns: most as u16 }]);
    }
    let upper = upper_half(most);
    let turns = (most % 65536) as u16;
    out.push_all(&[Instr::Imm { imm: upper }, Instr::Loop { turns }])
}

// Puts the beginning of a bounded loop at the end: its opening, and the `next` that leaves it once the turns are over.
#[tactic(auto, using(crate::proofs::Places::places))]
fn put_opening(out: &mut Draft, most: u32, end: usize) -> Result<(), Memory>
    ensures { OnOk result (out.new ≡ joined out.old (joined (just (loop_words most)) (just (Next (short end) ∷ [])))) }
{
    put_loop(out, most)?;
    out.push_all(&[Instr::Next { target: short(end) }])?;
    Ok(())
}

// Puts the end of a bounded loop with this test at the end: the jump to its head, and the `drop`.
#[tactic(auto, using(crate::proofs::Places::places))]
fn put_closing(out: &mut Draft, head: usize, test: &Option<Test>) -> Result<(), Memory>
    ensures { OnOk result (out.new ≡ joined out.old (joined (just (jump Bri (length out.old.words) head)) (just (drop_words test.now)))) }
{
    put_jump(out, head)?;
    match test {
        None => Ok(()),
        Some(_) => out.push_all(&[Instr::Drop]),
    }
}

// The places of a bounded loop that begins at a place: of its `next`, behind the jump to it, and behind the loop.
fn bounded_places(
    alloc: Global,
    placement: Placement,
    at: usize,
    most: u32,
    test: &Option<Test>,
    body: &Node,
) -> Result<(usize, usize, usize), Memory>
    requires room { IsPlacement placement }
    requires test { OptionWritten (writing_of placement) test.now }
    requires body { NodeWritten (writing_of placement) (read body.now) }
    ensures head { IfOk result (λ places. places.0 ≡ at + loop_size most) }
    ensures other { IfOk result (λ places. places.1 ≡
        at + loop_size most + 1 + option_size (writing_of placement) test.now + size (writing_of placement) (read body.now) + 2) }
    ensures end { IfOk result (λ places. places.2 ≡
        at + loop_size most + 1 + option_size (writing_of placement) test.now + size (writing_of placement) (read body.now) + 2
        + drop_size test.now) }
{
    let head = sum(at, loop_size(most))?;
    let inner = sum(sum(head, 1)?, option_size(alloc, placement, test)?)?;
    let mid = sum(inner, size(alloc, placement, body)?)?;
    let other = sum(mid, 2)?;
    let end = sum(other, drop_size(test))?;
    Ok((head, other, end))
}

// The point at the end of what is there, in this slot and inside these aborts.
fn point(alloc: Global, out: &Draft, slot: u32, stack: &[u32]) -> Result<Point, Memory>
    ensures { IfOk result (λ p. p ≡ point (length out.now.words) slot stack.now) }
{
    let stack = Many::of(stack.to_vec(alloc)?);
    let at = u32::from(short(out.place()));
    Ok(Point { at, slot, stack })
}

// The aborts with one more inside.
fn deeper(alloc: Global, stack: &[u32], number: u32) -> Result<Vec<u32>, Memory>
    ensures { IfOk result (λ all. all.items ≡ stack.now ++ number ∷ []) }
{
    let mut all = stack.to_vec(alloc)?;
    all.push(number)?;
    Ok(all)
}

/// Puts a node of a slot at the end, inside these aborts. `entrances` are the places where the functions begin; `child` is the
/// first slot that the node's forks start, and the answer is the first that those behind it start.
#[tactic(auto, using(pc_lower::proofs::FlowTrees::reads, crate::proofs::Places::places))]
pub fn put_node(
    alloc: Global,
    out: &mut Draft,
    placement: Placement,
    entrances: &[usize],
    slot: u32,
    stack: &[u32],
    child: usize,
    node: &Node,
) -> Result<usize, Memory>
    requires room { IsPlacement placement }
    requires written { NodeWritten (writing_of placement) (read node.now) }
    ensures part { OnOk result (out.new ≡
        joined out.old (code (writing_of placement) entrances.now slot (read node.now) stack.now child (length out.old.words))) }
    ensures next { IfOk result (λ next. next ≡ child + length (threads_of (read node.now))) }
{
    match node {
        Node::Straight(steps) => {
            out.push_steps(placement, steps.as_slice())?;
            Ok(child)
        }
        Node::Sequence(parts) => {
            let nodes = parts.as_slice();
            let mut next = child;
            for node in nodes {
                next = put_node(alloc, out, placement, entrances, slot, stack, next, node)?;
            }
            Ok(next)
        }
        Node::Branch {
            test,
            first,
            second,
        } => {
            let inner = sum(out.place(), test_size(alloc, placement, test)?)?;
            let mid = sum(inner, size(alloc, placement, first.get())?)?;
            let other = sum(mid, 2)?;
            let end = sum(other, size(alloc, placement, second.get())?)?;
            put_test(out, placement, test, other)?;
            let next = put_node(
                alloc,
                out,
                placement,
                entrances,
                slot,
                stack,
                child,
                first.get(),
            )?;
            put_jump(out, end)?;
            let last = put_node(
                alloc,
                out,
                placement,
                entrances,
                slot,
                stack,
                next,
                second.get(),
            )?;
            Ok(last)
        }
        Node::Turns { test, body } => {
            let head = out.place();
            let inner = sum(head, option_size(alloc, placement, test)?)?;
            let mid = sum(inner, size(alloc, placement, body.get())?)?;
            let end = sum(mid, 2)?;
            put_option(out, placement, test, end)?;
            let next = put_node(
                alloc,
                out,
                placement,
                entrances,
                slot,
                stack,
                child,
                body.get(),
            )?;
            put_jump(out, head)?;
            Ok(next)
        }
        Node::Bounded { most, test, body } => {
            let at = out.place();
            let (head, other, end) = bounded_places(alloc, placement, at, *most, test, body.get())?;
            put_opening(out, *most, end)?;
            put_option(out, placement, test, other)?;
            put_node(
                alloc,
                out,
                placement,
                entrances,
                slot,
                stack,
                child,
                body.get(),
            )?;
            put_closing(out, head, test)?;
            Ok(child)
        }
        Node::Call(function) => {
            let entrance = entrances.get(*function as usize).copied().unwrap_or(0);
            out.push_all(&[Instr::Call {
                target: short(entrance),
            }])?;
            Ok(child)
        }
        Node::Pause(_) => {
            let point = point(alloc, out, slot, stack)?;
            out.push_pause(point)?;
            Ok(child)
        }
        Node::Fork { number: _, threads } => {
            let count = threads.as_slice().len();
            let next = sum(child, count)?;
            let point = point(alloc, out, slot, stack)?;
            out.push_fork((child % 256) as u8, (count % 256) as u8, point)?;
            Ok(next)
        }
        Node::Guard { number, body } => {
            let inner = deeper(alloc, stack, *number)?;
            let begin = sum(out.place(), 1)?;
            let leave = sum(begin, size(alloc, placement, body.get())?)?;
            let handler = sum(leave, 1)?;
            out.push_abort(short(*number as usize), u32::from(short(handler)))?;
            let next = put_node(
                alloc,
                out,
                placement,
                entrances,
                slot,
                &inner,
                child,
                body.get(),
            )?;
            out.push_all(&[Instr::Leave])?;
            Ok(next)
        }
    }
}
