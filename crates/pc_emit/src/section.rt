ghost use Rattle.std.specs.Prelude.{◌≡◌, ◌+◌, ◌<◌, ◌++◌, OnOk, IfOk, IfSome, IsTrue, length, Bool};
ghost use Rattle.pc_lower.specs.declared.nodes.Test.{Test as Tested};
ghost use Rattle.std.specs.List.{AllByRecursion};
ghost use Rattle.pc_lower.specs.Trees.{read, pairs_of, flow_read};
ghost use Rattle.pc_lower.specs.Numbering.{slots_of, first_started};
ghost use Rattle.pc_regs.specs.Placement.{IsPlacement};
ghost use Rattle.pc_regs.specs.Words.{is_test_written, writing_of};
ghost use Rattle.pc_regs.specs.Writings.{NodeWritten, FlowWritten};
ghost use Rattle.pc_emit.specs.Image.{functions_size};
ghost use Rattle.pc_emit.specs.Sections.{program_of};
ghost use Rattle.pc_emit.specs.Made.{calls_from, made_function, made_functions, made_conditions};
ghost use Rattle.tk_paths.specs.Trees.{read_program};

use crate::region::{number, region, tested};
use crate::sizes::{size, sum};
use crate::slots::{first_started, slot_of, slots};
use crate::thread::code;
use crate::used::{calls, numbers};
use pc_lower::{Abort, Flow, Node};
use pc_regs::{Placement, count_test};
use pt_base::Memory;
use std::alloc::Global;
use tk_paths::{Program, Section};

// A function at a place: a thread's where a slot runs it, a routine where a used function calls it.
fn function(
    alloc: Global,
    placement: Placement,
    numbers: &[u32],
    slots: &[u32],
    flow: &Flow,
    slot: Option<usize>,
    called: bool,
    node: &Node,
    at: usize,
) -> Result<Section, Memory>
    requires room { IsPlacement placement }
    requires slots { slots.now ≡ slots_of (flow_read flow.now) }
    requires within { IfSome slot (λ c. c < length slots.now) }
    requires written { NodeWritten (writing_of placement) (read node.now) }
    ensures { IfOk result (λ section. section ≡
        made_function (writing_of placement) numbers.now slots.now (first_started (flow_read flow.now)) slot called (read node.now) at) }
{
    match slot {
        None => {
            if called {
                let region = region(alloc, placement, numbers, node, at)?;
                return Ok(Section::OfRoutine(region));
            }
            let words = sum(size(alloc, placement, node)?, 1)?;
            Ok(Section::Unused(number(words)?))
        }
        Some(slot) => {
            let child = first_started(alloc, &flow.bodies, slots, slot)?;
            let (code, _next) = code(alloc, placement, numbers, node, child, at)?;
            let slot = number(slot)?;
            Ok(Section::OfThread { slot, code })
        }
    }
}

// Puts the functions of a flow at the end, in the order of the text, and gives the place behind them.
fn put_functions(
    alloc: Global,
    all: &mut Vec<Section>,
    placement: Placement,
    numbers: &[u32],
    slots: &[u32],
    called: &[bool],
    flow: &Flow,
) -> Result<usize, Memory>
    requires room { IsPlacement placement }
    requires slots { slots.now ≡ slots_of (flow_read flow.now) }
    requires called { called.now ≡ calls_from slots.now 0 (flow_read flow.now).bodies }
    requires written { AllByRecursion (NodeWritten (writing_of placement)) (flow_read flow.now).bodies }
    ensures sections { OnOk result (all.new.items ≡ all.old.items
        ++ made_functions (writing_of placement) numbers.now slots.now (first_started (flow_read flow.now))
        0 (flow_read flow.now).bodies 0) }
    ensures place { IfOk result (λ place. place ≡ functions_size (writing_of placement) (flow_read flow.now).bodies) }
{
    let mut place = 0;
    for (function_number, node) in flow.bodies.iter().enumerate() {
        let slot = slot_of(slots, function_number);
        let is_called = called.get(function_number).copied().unwrap_or(false);
        let section = function(
            alloc, placement, numbers, slots, flow, slot, is_called, node, place,
        )?;
        all.push(section)?;
        place = sum(sum(place, size(alloc, placement, node)?)?, 1)?;
    }
    Ok(place)
}

// Puts the conditions of aborts at the end, which stand from a place on.
fn put_conditions(
    alloc: Global,
    all: &mut Vec<Section>,
    placement: Placement,
    aborts: &[Abort],
    start: usize,
) -> Result<(), Memory>
    requires room { IsPlacement placement }
    requires written { AllByRecursion (λ (a : Bool × Tested). IsTrue (is_test_written placement a.1)) (pairs_of aborts.now) }
    ensures { OnOk result (all.new.items ≡ all.old.items ++ made_conditions (writing_of placement) (pairs_of aborts.now) start) }
{
    let mut place = start;
    for abort in aborts {
        let from = number(place)?;
        let (count, close) = tested(alloc, placement, &abort.test, place)?;
        all.push(Section::OfCondition { from, count, close })?;
        place = sum(sum(place, count_test(alloc, placement, &abort.test)?)?, 1)?;
    }
    Ok(())
}

/// The sections of the image of a flow: its functions in the order of the text, and behind them the conditions of its aborts.
pub fn program(alloc: Global, flow: &Flow, placement: Placement) -> Result<Program, Memory>
    requires room { IsPlacement placement }
    requires written { FlowWritten (writing_of placement) (flow_read flow.now) }
    ensures { IfOk result (λ program. read_program program ≡ program_of (writing_of placement) (flow_read flow.now)) }
{
    let slots = slots(alloc, &flow.bodies, flow.main)?;
    let called = calls(alloc, &slots, &flow.bodies)?;
    let numbers = numbers(alloc, &slots, &called)?;
    let mut all = Vec::new(alloc);
    let start = put_functions(alloc, &mut all, placement, &numbers, &slots, &called, flow)?;
    put_conditions(alloc, &mut all, placement, &flow.aborts, start)?;
    Ok(Program { sections: all })
}
