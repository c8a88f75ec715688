ghost use Rattle.std.specs.Prelude.{◌≡◌, ◌+◌, ◌-◌, ◌≤◌, pos, ◌++◌, IfOk, length, map, replicate, slice_index_or};
ghost use Rattle.mb_isa.specs.Codes.{code_of};
ghost use Rattle.pc_lower.specs.Trees.{flow_read};
ghost use Rattle.pc_lower.specs.Laid.{Placing};
ghost use Rattle.pc_lower.specs.Numbering.{slots_of};
ghost use Rattle.pc_regs.specs.Placement.{memory_words, IsPlacement};
ghost use Rattle.pc_regs.specs.Words.{writing_of};
ghost use Rattle.pc_emit.specs.Code.{short};
ghost use Rattle.pc_emit.specs.Image.{functions_size, entrances_of, whole_of, image_of};
ghost use Rattle.pc_regs.specs.Writings.{FlowWritten};
ghost use Rattle.pc_emit.specs.Fits.{CanBeEmitted};

use crate::aborts::{abort_lines, put_conditions};
use crate::branches::short;
use crate::draft::Draft;
use crate::functions::{entrances, put_functions};
use crate::slots::slots;
use mb_isa::{Instr, encode};
use pc_lower::Flow;
use pc_regs::Placement;
use pt_base::{Many, Memory};
use pt_image::{Image, Parts};
use std::alloc::Global;

// The codes of words.
fn codes(alloc: Global, words: &[Instr]) -> Result<Vec<u32>, Memory>
    ensures { IfOk result (λ codes. codes.items ≡ map code_of words.now) }
{
    let mut codes = Vec::new(alloc);
    for word in words {
        codes.push(encode(word))?;
    }
    Ok(codes)
}

// The places where the functions of the slots begin.
fn starts(alloc: Global, entrances: &[usize], slots: &[u32]) -> Result<Vec<u32>, Memory>
    ensures { IfOk result (λ starts. starts.items ≡ map (λ g. short (slice_index_or entrances.now g 0)) slots.now) }
{
    let mut starts = Vec::new(alloc);
    for function in slots {
        let entrance = entrances.get(*function as usize).copied().unwrap_or(0);
        starts.push(u32::from(short(entrance)))?;
    }
    Ok(starts)
}

// The words that the memory begins with: those of the cells, and so many zeros.
fn memory(alloc: Global, declared: &[i32], further: usize) -> Result<Vec<i32>, Memory>
    ensures { IfOk result (λ memory. memory.items ≡ declared.now ++ replicate further (pos 0)) }
{
    let mut memory = declared.to_vec(alloc)?;
    for _word in 0..further {
        memory.push(0)?;
    }
    Ok(memory)
}

// All functions, and behind them the conditions; and the place where the conditions begin.
fn whole(
    alloc: Global,
    placement: Placement,
    entrances: &[usize],
    slots: &[u32],
    flow: &Flow,
) -> Result<(Draft, usize), Memory>
    requires room { IsPlacement placement }
    requires entrances { entrances.now ≡ entrances_of (writing_of placement) (flow_read flow.now) }
    requires slots { slots.now ≡ slots_of (flow_read flow.now) }
    requires few { length slots.now ≤ 64 }
    requires written { FlowWritten (writing_of placement) (flow_read flow.now) }
    ensures whole { IfOk result (λ w. w.0 ≡ whole_of (writing_of placement) (flow_read flow.now)) }
    ensures start { IfOk result (λ w. w.1 ≡ functions_size (writing_of placement) (flow_read flow.now).bodies) }
{
    let mut out = Draft::new(alloc);
    put_functions(alloc, &mut out, placement, entrances, slots, flow)?;
    let start = out.place();
    put_conditions(&mut out, placement, &flow.aborts)?;
    Ok((out, start))
}

// The lists of the image.
fn parts(alloc: Global, flow: &Flow, placement: Placement) -> Result<Parts, Memory>
    requires room { IsPlacement placement }
    requires few { length (slots_of (flow_read flow.now)) ≤ 64 }
    requires written { FlowWritten (writing_of placement) (flow_read flow.now) }
    ensures { IfOk result (λ parts. parts ≡
        image_of (writing_of placement) (flow_read flow.now) (memory_words placement - placement.cells)) }
{
    let slots = slots(alloc, &flow.bodies, flow.main)?;
    let entrances = entrances(alloc, placement, &flow.bodies)?;
    let (out, start) = whole(alloc, placement, &entrances, &slots, flow)?;
    let code = codes(alloc, out.words())?;
    let aborts = abort_lines(alloc, placement, &flow.aborts, start, out.handlers())?;
    let starts = starts(alloc, &entrances, &slots)?;
    let further = placement.memory_words() - placement.cells;
    let memory = memory(alloc, &flow.declared, further)?;
    let inputs = flow.inputs.to_vec(alloc)?;
    let outputs = flow.outputs.to_vec(alloc)?;
    let (pauses, forks) = out.points();
    Ok(Parts {
        code: Many::of(code),
        memory: Many::of(memory),
        inputs: Many::of(inputs),
        outputs: Many::of(outputs),
        slots: Many::of(starts),
        aborts: Many::of(aborts),
        pauses,
        forks,
    })
}

/// The image of a flow: its functions in the order of the text, each with the word that closes it, and behind them the conditions
/// of its aborts. Its cells, temporaries and held words stand where the placement says.
pub fn emit(alloc: Global, flow: &Flow, placement: Placement) -> Result<Image, Memory>
    requires room { IsPlacement placement }
    requires fits { (placing : Placing)
        × CanBeEmitted (flow_read flow.now) (writing_of placement) placing (memory_words placement - placement.cells) }
    ensures { IfOk result (λ image. image ≡
        image_of (writing_of placement) (flow_read flow.now) (memory_words placement - placement.cells)) }
{
    let parts = parts(alloc, flow, placement)?;
    Ok(Image::of(parts))
}
