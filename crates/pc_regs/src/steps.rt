ghost use Rattle.std.specs.Prelude.{◌≡◌, ◌+◌, ◌≤◌, IsTrue, List, ◌++◌, OnOk, IfOk};
ghost use Rattle.mb_isa.specs.declared.words.Instr.TheVariants.{Beqi};
ghost use Rattle.pc_lower.specs.declared.nodes.Step.TheVariants.{Unary, Binary, TakeElement, PutElement};
ghost use Rattle.pc_lower.specs.Words.{words_in};
ghost use Rattle.pc_regs.specs.Placement.{IsPlacement, IsNear, is_placed};
ghost use Rattle.pc_regs.specs.Words.{moved, unary_at, binary_at, take_at, put_at, step_words, steps_words, test_words, test_register, is_step_written, are_written, is_test_written};
ghost use Rattle.pc_regs.specs.Writings.{instrs};

use crate::elements::{push_put, push_take};
use crate::operators::{push_binary, push_unary};
use crate::placement::{Location, Placement};
use crate::words::{
    push, push_constant, push_delivered, push_fetched, push_load_word, push_store_word,
    register_for,
};
use mb_isa::{Instr, Reg};
use pc_lower::{Place, Step, Test};
use pt_base::{BinOp, Memory, UnOp};
use std::alloc::Global;

// A word from a place to another.
fn push_moved(out: &mut Vec<Instr>, to: Location, by: Location) -> Result<(), Memory>
    requires to { IsNear to }
    requires by { IsNear by }
    ensures { OnOk result (out.new.items ≡ out.old.items ++ instrs (moved to by)) }
{
    match (to, by) {
        (Location::Register(rd), Location::Register(ra)) => {
            let rb = Reg::R0;
            push(out, &[Instr::Addk { rd, ra, rb }])
        }
        (Location::Register(rd), Location::Memory(word)) => push_load_word(out, rd, word),
        (Location::Memory(word), by) => {
            push_fetched(out, Reg::R4, by)?;
            push_store_word(out, register_for(Reg::R4, by), word)
        }
    }
}

// The step `to` is `op by`.
#[tactic(auto, using(crate::proofs::Flat::flat_three))]
fn push_unary_step(out: &mut Vec<Instr>, op: UnOp, to: Location, by: Location) -> Result<(), Memory>
    requires to { IsNear to }
    requires by { IsNear by }
    ensures { OnOk result (out.new.items ≡ out.old.items ++ instrs (unary_at op to by)) }
{
    push_fetched(out, Reg::R4, by)?;
    push_unary(
        out,
        op,
        register_for(Reg::R3, to),
        register_for(Reg::R4, by),
    )?;
    push_delivered(out, Reg::R3, to)
}

// The step `to` is `left op right`.
#[tactic(auto, using(crate::proofs::Flat::flat_four))]
fn push_binary_step(
    out: &mut Vec<Instr>,
    op: BinOp,
    to: Location,
    left: Location,
    right: Location,
) -> Result<(), Memory>
    requires to { IsNear to }
    requires left { IsNear left }
    requires right { IsNear right }
    ensures { OnOk result (out.new.items ≡ out.old.items ++ instrs (binary_at op to left right)) }
{
    push_fetched(out, Reg::R4, left)?;
    push_fetched(out, Reg::R5, right)?;
    let rd = register_for(Reg::R3, to);
    push_binary(
        out,
        op,
        rd,
        register_for(Reg::R4, left),
        register_for(Reg::R5, right),
    )?;
    push_delivered(out, Reg::R3, to)
}

// An element comes to a place.
#[tactic(auto, using(crate::proofs::Flat::flat_three))]
fn push_take_step(
    out: &mut Vec<Instr>,
    to: Location,
    first: u32,
    size: u32,
    index: Location,
) -> Result<(), Memory>
    requires to { IsNear to }
    requires array { first + size ≤ 16384 }
    requires index { IsNear index }
    ensures { OnOk result (out.new.items ≡ out.old.items ++ instrs (take_at to first size index)) }
{
    push_fetched(out, Reg::R4, index)?;
    push_take(
        out,
        register_for(Reg::R3, to),
        first,
        size,
        register_for(Reg::R4, index),
    )?;
    push_delivered(out, Reg::R3, to)
}

// The word of a place goes to an element.
#[tactic(auto, using(crate::proofs::Flat::flat_three))]
fn push_put_step(
    out: &mut Vec<Instr>,
    first: u32,
    size: u32,
    index: Location,
    by: Location,
) -> Result<(), Memory>
    requires array { first + size ≤ 16384 }
    requires index { IsNear index }
    requires by { IsNear by }
    ensures { OnOk result (out.new.items ≡ out.old.items ++ instrs (put_at first size index by)) }
{
    push_fetched(out, Reg::R4, index)?;
    push_fetched(out, Reg::R5, by)?;
    push_put(
        out,
        first,
        size,
        register_for(Reg::R4, index),
        register_for(Reg::R5, by),
    )
}

// The words of a step.
#[tactic(auto, using(crate::proofs::Flat::flat_two))]
fn push_step(out: &mut Vec<Instr>, placement: Placement, step: Step) -> Result<(), Memory>
    requires room { IsPlacement placement }
    requires written { IsTrue (is_step_written placement step) }
    ensures { OnOk result (out.new.items ≡ out.old.items ++ instrs (step_words placement step)) }
{
    match step {
        Step::Const { to, word } => {
            let to = placement.location(to);
            push_constant(out, register_for(Reg::R3, to), word)?;
            push_delivered(out, Reg::R3, to)
        }
        Step::Load { to, word } => {
            let to = placement.location(to);
            push_load_word(out, register_for(Reg::R3, to), word)?;
            push_delivered(out, Reg::R3, to)
        }
        Step::Save { word, by } => {
            let by = placement.location(by);
            push_fetched(out, Reg::R4, by)?;
            push_store_word(out, register_for(Reg::R4, by), word)
        }
        Step::Unary { op, to, by } => {
            push_unary_step(out, op, placement.location(to), placement.location(by))
        }
        Step::Binary {
            op,
            to,
            left,
            right,
        } => {
            let to = placement.location(to);
            let left = placement.location(left);
            push_binary_step(out, op, to, left, placement.location(right))
        }
        Step::TakeElement {
            to,
            first,
            size,
            index,
        } => {
            let to = placement.location(to);
            push_take_step(out, to, first, size, placement.location(index))
        }
        Step::PutElement {
            first,
            size,
            index,
            by,
        } => {
            let index = placement.location(index);
            push_put_step(out, first, size, index, placement.location(by))
        }
        Step::Move { to, by } => { push_moved(out, placement.location(to), placement.location(by)) }
    }
}

/// The words of steps, behind the others.
pub fn push_steps(out: &mut Vec<Instr>, placement: Placement, steps: &[Step]) -> Result<(), Memory>
    requires room { IsPlacement placement }
    requires written { IsTrue (are_written placement steps.now) }
    ensures { OnOk result (out.new.items ≡ out.old.items ++ instrs (steps_words placement steps.now)) }
{
    for step in steps {
        push_step(out, placement, *step)?;
    }
    Ok(())
}

/// The words of a test, which bring the word that is looked at to a register, behind the others.
#[tactic(auto, using(crate::proofs::Flat::flat_two))]
pub fn push_test(out: &mut Vec<Instr>, placement: Placement, test: &Test) -> Result<(), Memory>
    requires room { IsPlacement placement }
    requires written { IsTrue (is_test_written placement test.now) }
    ensures { OnOk result (out.new.items ≡ out.old.items ++ instrs (test_words placement test.now)) }
{
    push_steps(out, placement, test.steps.as_slice())?;
    push_fetched(out, Reg::R4, placement.location(test.by))
}

/// The register in which a test's word is looked at.
pub fn register(placement: Placement, test: &Test) -> Reg
    requires room { IsPlacement placement }
    requires written { IsTrue (is_test_written placement test.now) }
    ensures { result ≡ test_register placement test.now }
{
    register_for(Reg::R4, placement.location(test.by))
}

/// The branch that is taken where a test doesn't hold, with an imm.
pub fn branch(placement: Placement, test: &Test, imm: i16) -> Instr
    requires room { IsPlacement placement }
    requires written { IsTrue (is_test_written placement test.now) }
    ensures { result ≡ Beqi (test_register placement test.now) imm }
{
    Instr::Beqi {
        ra: register(placement, test),
        imm,
    }
}

/// How many words these steps take.
#[tactic(auto, using(crate::proofs::Flat::count_from))]
pub fn count_steps(alloc: Global, placement: Placement, steps: &[Step]) -> Result<usize, Memory>
    requires room { IsPlacement placement }
    requires written { IsTrue (are_written placement steps.now) }
    ensures { IfOk result (λ n. n ≡ words_in (steps_words placement steps.now)) }
{
    let mut out = Vec::new(alloc);
    push_steps(&mut out, placement, steps)?;
    Ok(out.len())
}

/// How many words a test takes, without its branch.
#[tactic(auto, using(crate::proofs::Flat::count_from))]
pub fn count_test(alloc: Global, placement: Placement, test: &Test) -> Result<usize, Memory>
    requires room { IsPlacement placement }
    requires written { IsTrue (is_test_written placement test.now) }
    ensures { IfOk result (λ n. n ≡ words_in (test_words placement test.now)) }
{
    let mut out = Vec::new(alloc);
    push_test(&mut out, placement, test)?;
    Ok(out.len())
}
