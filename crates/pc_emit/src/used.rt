ghost use Rattle.std.specs.Prelude.{◌≡◌, ◌++◌, OnOk, IfOk, map};
ghost use Rattle.pc_lower.specs.Trees.{read, all_read};
ghost use Rattle.pc_emit.specs.Sections.{calls_in, calls_in_all, is_among, is_used, counted};
ghost use Rattle.pc_emit.specs.Made.{calls_from, numbers_by};

use crate::slots::slot_of;
use pc_lower::Node;
use pt_base::Memory;
use std::alloc::Global;

// Puts the functions that a node calls at the end.
#[cycle(put_calls)]
#[tactic(auto, using(pc_lower::proofs::FlowTrees::reads, crate::proofs::Callers::callers))]
fn put_calls(all: &mut Vec<u32>, node: &Node) -> Result<(), Memory>
    ensures { OnOk result (all.new.items ≡ all.old.items ++ calls_in (read node.now)) }
{
    match node {
        Node::Straight(_) => Ok(()),
        Node::Sequence(nodes) => put_all_calls(all, nodes.as_slice()),
        Node::Branch {
            test: _,
            first,
            second,
        } => {
            put_calls(all, first.get())?;
            put_calls(all, second.get())?;
            Ok(())
        }
        Node::Turns { test: _, body } => put_calls(all, body.get()),
        Node::Bounded {
            most: _,
            test: _,
            body,
        } => put_calls(all, body.get()),
        Node::Call(function) => {
            all.push(*function)?;
            Ok(())
        }
        Node::Pause(_) => Ok(()),
        Node::Fork { .. } => Ok(()),
        Node::Guard { number: _, body } => put_calls(all, body.get()),
    }
}

// Puts the functions that nodes call at the end.
#[cycle(put_calls)]
#[tactic(auto, using(pc_lower::proofs::FlowTrees::reads, crate::proofs::Callers::callers))]
fn put_all_calls(all: &mut Vec<u32>, nodes: &[Node]) -> Result<(), Memory>
    ensures { OnOk result (all.new.items ≡ all.old.items ++ calls_in_all (all_read nodes.now)) }
{
    for node in nodes {
        put_calls(all, node)?;
    }
    Ok(())
}

// Whether a number is one of these.
fn is_among(number: usize, numbers: &[u32]) -> bool
    ensures { result ≡ is_among number numbers.now }
{
    for other in numbers {
        if *other as usize == number {
            return true;
        }
    }
    false
}

// Whether a function does something for the program.
fn is_used(slot: Option<usize>, called: bool) -> bool
    ensures { result ≡ is_used slot called }
{
    match slot {
        None => called,
        Some(_) => true,
    }
}

/// Of each function whether one that does something for the program calls it.
pub fn calls(alloc: Global, slots: &[u32], bodies: &[Node]) -> Result<Vec<bool>, Memory>
    ensures { IfOk result (λ called. called.items ≡ calls_from slots.now 0 (map read bodies.now)) }
{
    let mut called = Vec::new(alloc);
    let mut calls = Vec::new(alloc);
    let mut number = bodies.len();
    while number > 0 {
        number -= 1;
        let is_called = is_among(number, &calls);
        called.push(is_called)?;
        if is_used(slot_of(slots, number), is_called) {
            put_calls(&mut calls, &bodies[number])?;
        }
    }
    called.reverse();
    Ok(called)
}

/// The numbers of routines by their functions: how many routines stand before each function.
pub fn numbers(alloc: Global, slots: &[u32], called: &[bool]) -> Result<Vec<u32>, Memory>
    ensures { IfOk result (λ numbers. numbers.items ≡ numbers_by slots.now 0 0 called.now) }
{
    let mut numbers = Vec::new(alloc);
    let mut count = 0;
    for (function, is_called) in called.iter().enumerate() {
        numbers.push(count)?;
        count = counted(slot_of(slots, function), *is_called, count)?;
    }
    Ok(numbers)
}

// One more behind a routine.
fn counted(slot: Option<usize>, called: bool, count: u32) -> Result<u32, Memory>
    ensures { IfOk result (λ n. n ≡ counted slot called count) }
{
    match slot {
        None => {
            if called {
                return count.checked_add(1).ok_or(Memory);
            }
            Ok(count)
        }
        Some(_) => Ok(count),
    }
}
