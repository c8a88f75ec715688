//! The lines and weights of all sections, from the last to the first.

ghost use Rattle.std.specs.Prelude.{◌≡◌, ◌≤◌, ◌<◌, ◌+◌, ◌++◌, [], ◌∷◌, replicate, length, take, IfOk};
ghost use Rattle.std.specs.List.{AllByRecursion, flat_map};
ghost use Rattle.mb_isa.specs.declared.Class.TheVariants.{Cend, Ret};
ghost use Rattle.tk_cert.specs.declared.cert.Line.TheVariants.{Bare};
ghost use Rattle.tk_paths.specs.Numbers.{cost, just as the_just, code_weights, region_weights};
ghost use Rattle.tk_paths.specs.Programs.{OfRoutine, ended as the_ended, pair_from};
ghost use Rattle.tk_paths.specs.Regions.{through, units_cost};
ghost use Rattle.tk_paths.specs.Trees.{read_region, read_code, read_sections};
ghost use Rattle.tk_paths.specs.Faults.{OnlyMemory, HasRoom};
ghost use Rattle.tk_numbers.specs.Charges.{IsValued, routines_in};
ghost use Rattle.tk_threads.specs.Rooms.{IsSmallCode, IsSmallSection};
ghost use Rattle.tk_numbers.specs.Routines.{IsShallow};
ghost use Rattle.tk_threads.specs.Sections.{routine_lines, condition_lines, thread_lines, lines_of, weights_of};
ghost use Rattle.tk_numbers.specs.Routines.{AreLinks, read_section};

use crate::codes::code_lines;
use crate::rests::in_thread;
use crate::starts::ended;
use mb_isa::{Class, Costs};
use pt_base::Many;
use pt_image::Image;
use std::alloc::Global;
use tk_cert::Line;
use tk_numbers::{links_before, links_in, put_line, region_lines, units_lines, values_before};
use tk_paths::{Code, Fault, Kind, Made, Pair, Region, Section, just};

// Puts the lines and weights of a thread's code and its `end` in front.
#[tactic(auto, using(tk_numbers::proofs::Before::and_one))]
fn put_thread(
    alloc: Global,
    image: &Image,
    costs: &Costs,
    before: &[Section],
    values: &[u64],
    starts: &[Pair],
    slot: u32,
    code: &Code,
    made: &mut Made,
) -> Result<(), Fault>
    requires { IsValued image.now costs.now values.now before.now }
    ensures lines { IfOk result (λ done. made.new.lines ≡
        thread_lines image.now costs.now (pair_from 0 starts.now) slot (read_code (routines_in before.now) code.now) ++ made.old.lines) }
    ensures weights { IfOk result (λ done. made.new.weights ≡
        code_weights image.now costs.now (read_code (routines_in before.now) code.now) ++ made.old.weights) }
    ensures fits { IsSmallCode image.now costs.now (pair_from 0 starts.now) [] (read_code (routines_in before.now) code.now)
        (the_ended image.now costs.now) → OnlyMemory result }
{
    let end = ended(alloc, image, costs)?;
    let kind = in_thread(alloc, slot, &[])?;
    put_line(alloc, &kind, &end, made)?;
    code_lines(
        alloc,
        image,
        costs,
        before,
        values,
        0,
        starts,
        slot,
        &[],
        code,
        &end,
        made,
    )?;
    Ok(())
}

// Puts the lines and weights of a routine and its `ret` in front.
#[tactic(auto, using(tk_numbers::proofs::Before::and_one))]
fn put_routine(
    alloc: Global,
    image: &Image,
    costs: &Costs,
    before: &[Section],
    values: &[u64],
    links: &[u32],
    region: &Region,
    made: &mut Made,
) -> Result<(), Fault>
    requires values { IsValued image.now costs.now values.now before.now }
    requires links { AreLinks links.now before.now }
    ensures lines { IfOk result (λ done. made.new.lines ≡
        routine_lines image.now costs.now (read_region (routines_in before.now) region.now) ++ made.old.lines) }
    ensures weights { IfOk result (λ done. made.new.weights ≡
        region_weights image.now costs.now (read_region (routines_in before.now) region.now) ++ made.old.weights) }
    ensures fits { let tree = read_region (routines_in before.now) region.now in
        HasRoom (through image.now costs.now tree) (the_just (cost image.now costs.now Ret)) → IsShallow (OfRoutine tree) →
        OnlyMemory result }
{
    let inner = links_in(before, links, region)?;
    let height = match inner.checked_add(1) {
        None => return Err(Fault::TooLarge),
        Some(height) => height,
    };
    let kind = Kind::Routine {
        height,
        loops: Many::of(Vec::new(alloc)),
    };
    let end = just(alloc, costs.cost(Class::Ret))?;
    put_line(alloc, &kind, &end, made)?;
    region_lines(
        alloc, image, costs, before, values, &kind, region, &end, made,
    )?;
    Ok(())
}

// Puts the lines of a condition and its `cend` in front.
#[tactic(auto, using(tk_numbers::proofs::Before::and_one))]
fn put_condition(
    alloc: Global,
    image: &Image,
    costs: &Costs,
    from: u32,
    count: u32,
    made: &mut Made,
) -> Result<(), Fault>
    ensures lines { IfOk result (λ done. made.new.lines ≡ condition_lines image.now costs.now from count ++ made.old.lines) }
    ensures weights { IfOk result (λ done. made.new.weights ≡ made.old.weights) }
    ensures fits { HasRoom (units_cost image.now costs.now from count) (the_just (cost image.now costs.now Cend)) → OnlyMemory result }
{
    let kind = Kind::Condition;
    let end = just(alloc, costs.cost(Class::Cend))?;
    put_line(alloc, &kind, &end, made)?;
    units_lines(alloc, image, costs, &kind, from as usize, count, &end, made)?;
    Ok(())
}

// Puts so many lines that say nothing in front.
fn put_bare(count: u32, made: &mut Made) -> Result<(), Fault>
    ensures lines { IfOk result (λ done. made.new.lines ≡ replicate count Bare ++ made.old.lines) }
    ensures weights { IfOk result (λ done. made.new.weights ≡ made.old.weights) }
    ensures fits { OnlyMemory result }
{
    for _ in 0..count {
        made.put_line(Line::Bare)?;
    }
    Ok(())
}

// Puts the lines and weights of a section in front.
fn put_section(
    alloc: Global,
    image: &Image,
    costs: &Costs,
    before: &[Section],
    values: &[u64],
    links: &[u32],
    starts: &[Pair],
    section: &Section,
    made: &mut Made,
) -> Result<(), Fault>
    requires values { IsValued image.now costs.now values.now before.now }
    requires links { AreLinks links.now before.now }
    ensures lines { IfOk result (λ done. made.new.lines ≡
        lines_of image.now costs.now (pair_from 0 starts.now) (read_section (routines_in before.now) section.now) ++ made.old.lines) }
    ensures weights { IfOk result (λ done. made.new.weights ≡
        weights_of image.now costs.now (read_section (routines_in before.now) section.now) ++ made.old.weights) }
    ensures fits { IsSmallSection image.now costs.now (pair_from 0 starts.now) (read_section (routines_in before.now) section.now)
        → OnlyMemory result }
{
    match section {
        Section::OfThread { slot, code } => put_thread(
            alloc, image, costs, before, values, starts, *slot, code, made,
        ),
        Section::OfRoutine(region) => put_routine(
            alloc, image, costs, before, values, links, region, made,
        ),
        Section::OfCondition { from, count, .. } => {
            put_condition(alloc, image, costs, *from, *count, made)
        }
        Section::Unused(count) => put_bare(*count, made),
    }
}

/// The lines and weights of all sections, whose routines have these costs and links, where slots start with these numbers.
#[tactic(auto, using(tk_numbers::proofs::Before::in_none))]
pub fn made_of(
    alloc: Global,
    image: &Image,
    costs: &Costs,
    sections: &[Section],
    values: &[u64],
    links: &[u32],
    starts: &[Pair],
) -> Result<Made, Fault>
    requires values { IsValued image.now costs.now values.now sections.now }
    requires links { AreLinks links.now sections.now }
    ensures lines { IfOk result (λ made. made.lines ≡
        flat_map (lines_of image.now costs.now (pair_from 0 starts.now)) (read_sections [] sections.now)) }
    ensures weights { IfOk result (λ made. made.weights ≡ flat_map (weights_of image.now costs.now) (read_sections [] sections.now)) }
    ensures fits { AllByRecursion (IsSmallSection image.now costs.now (pair_from 0 starts.now)) (read_sections [] sections.now)
        → OnlyMemory result }
{
    let mut made = Made::new(alloc);
    let mut i = sections.len();
    while i > 0 {
        i -= 1;
        let known = values_before(image, costs, sections, values, i);
        let inner = links_before(sections, links, i);
        put_section(
            alloc,
            image,
            costs,
            &sections[..i],
            known,
            inner,
            starts,
            &sections[i],
            &mut made,
        )?;
    }
    Ok(made)
}
