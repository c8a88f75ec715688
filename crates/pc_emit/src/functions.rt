ghost use Rattle.std.specs.Prelude.{◌≡◌, ◌+◌, ◌≤◌, [], ◌∷◌, ◌++◌, OnOk, IfOk, length, map};
ghost use Rattle.std.specs.List.{AllByRecursion};
ghost use Rattle.pc_lower.specs.Trees.{read, flow_read};
ghost use Rattle.pc_lower.specs.Numbering.{slots_of, first_started};
ghost use Rattle.pc_regs.specs.Placement.{IsPlacement};
ghost use Rattle.pc_regs.specs.Words.{writing_of};
ghost use Rattle.pc_emit.specs.Part.{joined};
ghost use Rattle.pc_emit.specs.Image.{slot_of, closing, entrances_from, function_code, functions_code};
ghost use Rattle.pc_regs.specs.Writings.{NodeWritten};

use crate::draft::Draft;
use crate::nodes::put_node;
use crate::sizes::{size, sum};
use crate::slots::{first_started, slot_of};
use mb_isa::Instr;
use pc_lower::{Flow, Node};
use pc_regs::Placement;
use pt_base::Memory;
use std::alloc::Global;

/// The places where functions begin, one behind another.
pub fn entrances(alloc: Global, placement: Placement, bodies: &[Node]) -> Result<Vec<usize>, Memory>
    requires room { IsPlacement placement }
    requires written { AllByRecursion (NodeWritten (writing_of placement)) (map read bodies.now) }
    ensures { IfOk result (λ all. all.items ≡ entrances_from (writing_of placement) (map read bodies.now) 0) }
{
    let mut all = Vec::new(alloc);
    let mut place = 0;
    for node in bodies {
        all.push(place)?;
        place = sum(sum(place, size(alloc, placement, node)?)?, 1)?;
    }
    Ok(all)
}

// The word that closes a function.
fn closing(slot: Option<usize>) -> Instr
    ensures { result ≡ closing slot }
{
    match slot {
        None => Instr::Ret,
        Some(_) => Instr::End,
    }
}

// Puts a function at the end, in the slot that runs it.
#[tactic(auto, using(crate::proofs::Places::places))]
fn put_function(
    alloc: Global,
    out: &mut Draft,
    placement: Placement,
    entrances: &[usize],
    slots: &[u32],
    flow: &Flow,
    number: usize,
    node: &Node,
) -> Result<(), Memory>
    requires room { IsPlacement placement }
    requires slots { slots.now ≡ slots_of (flow_read flow.now) }
    requires few { length slots.now ≤ 64 }
    requires written { NodeWritten (writing_of placement) (read node.now) }
    ensures { OnOk result (out.new ≡
        joined out.old (function_code (writing_of placement) entrances.now slots.now (first_started (flow_read flow.now))
        (slot_of slots.now number) (read node.now) (length out.old.words))) }
{
    let slot = slot_of(slots, number);
    let own = slot.unwrap_or(0);
    let child = first_started(alloc, &flow.bodies, slots, own)?;
    put_node(
        alloc,
        out,
        placement,
        entrances,
        own as u32,
        &[],
        child,
        node,
    )?;
    out.push_all(&[closing(slot)])?;
    Ok(())
}

/// Puts the functions of a flow at the end, in the order of the text.
#[tactic(auto, using(crate::proofs::Places::places))]
pub fn put_functions(
    alloc: Global,
    out: &mut Draft,
    placement: Placement,
    entrances: &[usize],
    slots: &[u32],
    flow: &Flow,
) -> Result<(), Memory>
    requires room { IsPlacement placement }
    requires slots { slots.now ≡ slots_of (flow_read flow.now) }
    requires few { length slots.now ≤ 64 }
    requires written { AllByRecursion (NodeWritten (writing_of placement)) (flow_read flow.now).bodies }
    ensures { OnOk result (out.new ≡
        joined out.old (functions_code (writing_of placement) entrances.now slots.now (first_started (flow_read flow.now))
        0 (flow_read flow.now).bodies (length out.old.words))) }
{
    for (number, node) in flow.bodies.iter().enumerate() {
        put_function(alloc, out, placement, entrances, slots, flow, number, node)?;
    }
    Ok(())
}
