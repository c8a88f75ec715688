ghost use Rattle.std.specs.Prelude.{◌≡◌, ◌+◌, ◌<◌, ◌≤◌, [], ◌∷◌, ◌++◌, OnOk, IfOk, IfSome, length, map, take};
ghost use Rattle.pc_lower.specs.Trees.{read, all_read};
ghost use Rattle.pc_lower.specs.Limits.{threads_of, threads_of_all, started_by};
ghost use Rattle.pc_lower.specs.Numbering.{all_started, generations};
ghost use Rattle.pc_emit.specs.Image.{slot_of};

use pc_lower::Node;
use pt_base::Memory;
use std::alloc::Global;

// Puts the threads that a node's forks start at the end.
#[cycle(put_threads)]
#[tactic(auto, using(pc_lower::proofs::FlowTrees::reads, crate::proofs::Places::places))]
fn put_threads(all: &mut Vec<u32>, node: &Node) -> Result<(), Memory>
    ensures { OnOk result (all.new.items ≡ all.old.items ++ threads_of (read node.now)) }
{
    match node {
        Node::Straight(_) => Ok(()),
        Node::Sequence(nodes) => put_all_threads(all, nodes.as_slice()),
        Node::Branch {
            test: _,
            first,
            second,
        } => {
            put_threads(all, first.get())?;
            put_threads(all, second.get())?;
            Ok(())
        }
        Node::Turns { test: _, body } => put_threads(all, body.get()),
        Node::Bounded { .. } => Ok(()),
        Node::Call(_) => Ok(()),
        Node::Pause(_) => Ok(()),
        Node::Fork { number: _, threads } => {
            all.extend_from_slice(threads.as_slice())?;
            Ok(())
        }
        Node::Guard { number: _, body } => put_threads(all, body.get()),
    }
}

// Puts the threads that nodes start at the end.
#[cycle(put_threads)]
#[tactic(auto, using(pc_lower::proofs::FlowTrees::reads, crate::proofs::Places::places))]
fn put_all_threads(all: &mut Vec<u32>, nodes: &[Node]) -> Result<(), Memory>
    ensures { OnOk result (all.new.items ≡ all.old.items ++ threads_of_all (all_read nodes.now)) }
{
    for node in nodes {
        put_threads(all, node)?;
    }
    Ok(())
}

// Puts the threads that a function starts at the end.
#[tactic(auto, using(crate::proofs::Bodies::bodies, crate::proofs::Places::places))]
fn put_started(all: &mut Vec<u32>, bodies: &[Node], function: u32) -> Result<(), Memory>
    ensures { OnOk result (all.new.items ≡ all.old.items ++ started_by (map read bodies.now) function) }
{
    match bodies.get(function as usize) {
        None => Ok(()),
        Some(node) => put_threads(all, node),
    }
}

/// What functions start, one function after another.
#[tactic(auto, using(crate::proofs::Places::places))]
pub fn all_started(alloc: Global, bodies: &[Node], functions: &[u32]) -> Result<Vec<u32>, Memory>
    ensures { IfOk result (λ all. all.items ≡ all_started (map read bodies.now) functions.now) }
{
    let mut all = Vec::new(alloc);
    for function in functions {
        put_started(&mut all, bodies, *function)?;
    }
    Ok(all)
}

/// The functions of the slots: `main`, what it starts, what these start, and so on.
#[tactic(auto, using(crate::proofs::Places::places))]
pub fn slots(alloc: Global, bodies: &[Node], main: u32) -> Result<Vec<u32>, Memory>
    ensures { IfOk result (λ slots. slots.items ≡ generations (map read bodies.now) (length bodies.now) (main ∷ [])) }
{
    let mut slots = Vec::new(alloc);
    let mut generation = vec![in alloc; main]?;
    for _turn in 0..bodies.len() {
        slots.extend_from_slice(&generation)?;
        generation = all_started(alloc, bodies, &generation)?;
    }
    Ok(slots)
}

/// The slot that runs a function, if any does.
pub fn slot_of(slots: &[u32], function: usize) -> Option<usize>
    ensures slot { result ≡ slot_of slots.now function }
    ensures within { IfSome result (λ c. c < length slots.now) }
{
    for (slot, other) in slots.iter().enumerate() {
        if *other as usize == function {
            return Some(slot);
        }
    }
    None
}

/// The first slot that a slot starts: those that lower slots start come before it.
pub fn first_started(
    alloc: Global,
    bodies: &[Node],
    slots: &[u32],
    slot: usize,
) -> Result<usize, Memory>
    requires { slot ≤ length slots.now }
    ensures { IfOk result (λ child. child ≡ length (all_started (map read bodies.now) (take slot slots.now)) + 1) }
{
    let before = all_started(alloc, bodies, &slots[..slot])?;
    before.len().checked_add(1).ok_or(Memory)
}
