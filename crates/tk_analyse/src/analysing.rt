ghost use Rattle.std.specs.Prelude.{◌≡◌, ◌≤◌, IfOk};
ghost use Rattle.tk_cert.specs.Form.{IsWalk, IsInForm};
ghost use Rattle.tk_paths.specs.Walks.{most_cycles};
ghost use Rattle.tk_paths.specs.Programs.{IsProgram, certificate};
ghost use Rattle.tk_paths.specs.Counts.{AreSmall};
ghost use Rattle.tk_paths.specs.Dearest.{walk_of};
ghost use Rattle.tk_paths.specs.Trees.{read_program};
ghost use Rattle.tk_paths.specs.declared.fault.Fault.{Fault};
ghost use Rattle.tk_paths.specs.Faults.{OnlyMemory};
ghost use Rattle.tk_analyse.specs.Certified.{Certifies};

use crate::walks::dearest_walk;
use mb_isa::{Class, Costs};
use pt_base::{Many, Memory};
use pt_image::Image;
use std::alloc::Global;
use tk_cert::{Cert, CertParts};
use tk_numbers::{all_links, values_of};
use tk_paths::{
    Fault, Program, a_program_bound_is_worst, a_program_is_accepted,
    a_program_walk_costs_the_bound, a_program_walk_is_in_form, a_small_program_is_in_form,
    a_yes_bounds_free_ticks, a_yes_bounds_runs, bound_of, slot_bounds,
};
use tk_threads::{made_of, starts_of};

// The lists of the certificate of a program: just those of the definition, with the walk that is told of it. No number is too large, since
// the counts of the program are small.
//
// Takes time linear in the words but for loops without a number of turns, whose bodies are gone through once more for each that they are
// inside, and for bounded loops and calls, which the walk looks up in the order of the code.
fn parts_of(
    alloc: Global,
    image: &Image,
    program: &Program,
    costs: &Costs,
) -> Result<CertParts, Fault>
    requires program { IsProgram image.now (read_program program.now) }
    requires small { AreSmall image.now (read_program program.now) }
    ensures exact { IfOk result (λ parts. parts ≡ certificate image.now costs.now (read_program program.now) parts.walk) }
    ensures within { IfOk result (λ parts. parts.bound ≤ most_cycles) }
    ensures walk { IfOk result (λ parts. parts.walk ≡ walk_of image.now costs.now (read_program program.now)) }
    ensures only { OnlyMemory result }
{
    image.ranges();
    let _tick = costs.cost(Class::Tick);
    let sections = program.sections.as_slice();
    let values = values_of(alloc, image, costs, sections)?;
    let links = all_links(alloc, sections)?;
    let starts = starts_of(alloc, image, costs, sections, values.as_slice())?;
    let made = made_of(
        alloc,
        image,
        costs,
        sections,
        values.as_slice(),
        links.as_slice(),
        starts.as_slice(),
    )?;
    let (lines, weights) = made.into_lists();
    let bounds = slot_bounds(alloc, image, costs, lines.as_slice())?;
    let bound = bound_of(image, costs, lines.as_slice(), bounds.as_slice())?;
    let walk = dearest_walk(
        alloc,
        image,
        costs,
        lines.as_slice(),
        bounds.as_slice(),
        program,
        values.as_slice(),
        bound,
    )?;
    Ok(CertParts {
        bound,
        lines: Many::of(lines),
        weights: Many::of(weights),
        slot_bounds: Many::of(bounds),
        walk,
    })
}

// Why there is no certificate, where that is for want of memory alone.
fn want(fault: Fault) -> Memory
    requires { fault ≡ Fault.Memory }
{
    match fault {
        Fault::Memory => Memory,
        Fault::TooLarge => unreachable!(),
    }
}

/// The certificate of an image's program for a table of costs: it is accepted, its bound is the worst of the image, and its walk costs
/// just the bound.
pub fn analyse(
    alloc: Global,
    image: &Image,
    program: &Program,
    costs: &Costs,
) -> Result<Cert, Memory>
    requires program { IsProgram image.now (read_program program.now) }
    requires small { AreSmall image.now (read_program program.now) }
    ensures exact { IfOk result (λ cert. cert ≡ certificate image.now costs.now (read_program program.now) cert.walk) }
    ensures told { IfOk result (λ cert. cert.walk ≡ walk_of image.now costs.now (read_program program.now)) }
    ensures walk { IfOk result (λ cert. IsWalk cert.walk) }
    ensures certifies { IfOk result (λ cert. Certifies image.now costs.now cert) }
    ensures in_form { IfOk result (λ cert. IsInForm cert) }
{
    image.ranges();
    let _tick = costs.cost(Class::Tick);
    a_program_is_accepted();
    a_program_bound_is_worst();
    a_yes_bounds_free_ticks();
    a_yes_bounds_runs();
    a_small_program_is_in_form();
    a_program_walk_costs_the_bound();
    a_program_walk_is_in_form();
    match parts_of(alloc, image, program, costs) {
        Ok(parts) => Ok(Cert::of(parts)),
        Err(fault) => Err(want(fault)),
    }
}
