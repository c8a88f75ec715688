//! From a program to an image, and to the program that certificates see in it.
//!
//! Its contract: the image that `compile` gives never traps, its outputs are those of the program's meaning, no tick of it is
//! charged more than 1,000,000,000,000, and after each tick its slots stand where the program stands, on every list of input rows
//! and under every cost table; and the program beside it is the one that the image holds, no number of whose certificates is
//! greater than 1,000,000,000,000. It is a composition: `lower` of `pc_lower` gives the flow, `assign` of `pc_regs` the places of
//! its words, `emit` of `pc_emit` the image and `program` what it holds; `proofs/Whole.antt` joins their contracts and laws with
//! those of `pc_lower`.
#![tactic(auto)]

ghost use Rattle.std.specs.Prelude.{IfOk};
ghost use Rattle.pc_rules.specs.Judging.{IsWithin};
ghost use Rattle.tk_paths.specs.Counts.{AreSmall};
ghost use Rattle.tk_paths.specs.Programs.{IsProgram};
ghost use Rattle.tk_paths.specs.Trees.{read_program};
ghost use Rattle.pc_compile.specs.Compiled.{Compiles};

use pc_emit::{
    a_flow_is_laid_out, a_flow_is_small, a_laid_flow_is_a_program, a_laid_flow_is_in_its_ranges,
    a_laid_flow_lists_all, emit, program,
};
use pc_grammar::Typed;
use pc_lower::lower;
use pc_regs::{assign, words_are_few, words_are_work, words_do_the_steps};
use pt_base::Memory;
use pt_image::Image;
use std::alloc::Global;
use tk_paths::Program;

/// An image, and the program that it holds.
#[derive(Drop)]
pub struct Compiled {
    pub image: Image,
    pub program: Program,
}

/// The image of a program that keeps all rules, and the program that certificates see in it.
pub fn compile(alloc: Global, typed: &Typed) -> Result<Compiled, Memory>
    requires within { IsWithin typed.now }
    ensures compiled { IfOk result (λ c. Compiles typed.now c.image) }
    ensures program { IfOk result (λ c. IsProgram c.image (read_program c.program)) }
    ensures small { IfOk result (λ c. AreSmall c.image (read_program c.program)) }
{
    // that the program keeps the rules on names
    typed.functions();
    words_do_the_steps();
    words_are_work();
    words_are_few();
    a_flow_is_laid_out();
    a_laid_flow_is_in_its_ranges();
    a_laid_flow_lists_all();
    a_laid_flow_is_a_program();
    a_flow_is_small();
    let flow = lower(alloc, typed)?;
    let placement = assign(&flow);
    let image = emit(alloc, &flow, placement)?;
    let held = program(alloc, &flow, placement)?;
    Ok(Compiled {
        image,
        program: held,
    })
}
