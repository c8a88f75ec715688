ghost use Rattle.std.specs.Prelude.{◌≡◌, ◌++◌, IfOk, OnOk};
ghost use Rattle.pc_meaning.specs.Lefts.{routines_of, tree, trees};
ghost use Rattle.pc_lower.specs.Lowered.{conditions_of};
ghost use Rattle.pc_lower.specs.Aborts.{aborts_in, aborts_in_all, aborts_of};
ghost use Rattle.pc_lower.specs.Trees.{pairs_of};

use crate::nodes::Abort;
use crate::steps::test;
use pc_grammar::{Function, Stmt};
use pc_meaning::Room;
use pt_base::Memory;
use std::alloc::Global;

// The aborts of a statement come behind those that are there.
#[cycle(push_aborts)]
#[tactic(auto, using(crate::proofs::Trees::conditions))]
fn push_aborts(
    alloc: Global,
    s: &Stmt<u32>,
    rooms: &[Room],
    functions: &[Function],
    aborts: &mut Vec<Abort>,
) -> Result<(), Memory>
    ensures { OnOk result (
        pairs_of aborts.new.items ≡ pairs_of aborts.old.items ++ conditions_of (aborts_in (tree rooms.now functions.now s.now))) }
{
    match s {
        Stmt::Skip => Ok(()),
        Stmt::Assign { goal: _, value: _ } => Ok(()),
        Stmt::Call {
            goal: _,
            function: _,
            arguments: _,
        } => Ok(()),
        Stmt::Block(all) => push_all(alloc, all.as_slice(), rooms, functions, aborts),
        Stmt::If { test: _, yes, no } => {
            push_aborts(alloc, yes.get(), rooms, functions, aborts)?;
            match no {
                None => Ok(()),
                Some(no) => push_aborts(alloc, no.get(), rooms, functions, aborts),
            }
        }
        Stmt::While {
            span: _,
            test: _,
            most: _,
            body,
        } => push_aborts(alloc, body.get(), rooms, functions, aborts),
        Stmt::Eot(_) => Ok(()),
        Stmt::Par {
            span: _,
            threads: _,
        } => Ok(()),
        Stmt::Abort {
            span: _,
            weak,
            body,
            test: tested,
        } => {
            let test = test(alloc, tested, rooms)?;
            aborts.push(Abort { weak: *weak, test })?;
            push_aborts(alloc, body.get(), rooms, functions, aborts)
        }
    }
}

#[cycle(push_aborts)]
#[tactic(auto, using(crate::proofs::Trees::conditions))]
fn push_all(
    alloc: Global,
    all: &[Stmt<u32>],
    rooms: &[Room],
    functions: &[Function],
    aborts: &mut Vec<Abort>,
) -> Result<(), Memory>
    ensures { OnOk result (
        pairs_of aborts.new.items
        ≡ pairs_of aborts.old.items ++ conditions_of (aborts_in_all (trees rooms.now functions.now all.now))) }
{
    for s in all {
        push_aborts(alloc, s, rooms, functions, aborts)?;
    }
    Ok(())
}

/// The aborts of a program by their numbers.
#[tactic(auto, using(crate::proofs::Trees::conditions))]
pub fn aborts(alloc: Global, rooms: &[Room], functions: &[Function]) -> Result<Vec<Abort>, Memory>
    ensures { IfOk result (λ aborts.
        pairs_of aborts.items ≡ conditions_of (aborts_of (routines_of rooms.now functions.now))) }
{
    let mut aborts = Vec::new(alloc);
    for function in functions {
        push_all(
            alloc,
            function.body.as_slice(),
            rooms,
            functions,
            &mut aborts,
        )?;
    }
    Ok(aborts)
}
