//! The numbers with which slots start.

ghost use Rattle.std.specs.Prelude.{◌≡◌, ◌≤◌, ◌<◌, ◌+◌, [], length, take, IfOk};
ghost use Rattle.tk_paths.specs.Numbers.{level, entered as the_entered};
ghost use Rattle.tk_paths.specs.Programs.{pair_from, ended as the_ended, starts_from};
ghost use Rattle.tk_paths.specs.Trees.{read_code, read_sections, threads_in, code_of, codes_of};
ghost use Rattle.tk_numbers.specs.Charges.{IsValued, routines_in};
ghost use Rattle.tk_paths.specs.Levels.{numbers_of};
ghost use Rattle.tk_paths.specs.Faults.{OnlyMemory};
ghost use Rattle.tk_threads.specs.Rooms.{IsSmallEntry, AreSmallStarts};
ghost use Rattle.tk_threads.specs.Sections.{is_own, is_thread, own_code};

use crate::entrances::entered;
use mb_isa::{Class, Costs};
use pt_base::Many;
use pt_image::Image;
use std::alloc::Global;
use tk_numbers::values_before;
use tk_paths::{Code, Fault, Levels, Pair, Section, level_at};

// The most slots that an image has.
const MOST_SLOTS: usize = 64;

/// The numbers of a thread's `end`.
pub fn ended(alloc: Global, image: &Image, costs: &Costs) -> Result<Levels, Fault>
    ensures exact { IfOk result (λ l. numbers_of l ≡ the_ended image.now costs.now) }
    ensures fits { OnlyMemory result }
{
    let mut levels = Vec::new(alloc);
    levels.push((None, Some(costs.cost(Class::End))))?;
    Ok(Levels {
        value: None,
        levels: Many::of(levels),
    })
}

// Whether a section is the code of a slot.
fn is_own(section: &Section, slot: u32) -> bool
    ensures { result ≡ is_own slot section.now }
{
    match section {
        Section::OfThread { slot: other, .. } => *other == slot,
        Section::OfRoutine(_) => false,
        Section::OfCondition { .. } => false,
        Section::Unused(_) => false,
    }
}

// The numbers with which a slot starts that has this code, where later ones start with these.
fn begun(
    alloc: Global,
    image: &Image,
    costs: &Costs,
    before: &[Section],
    values: &[u64],
    first: u32,
    later: &[Pair],
    code: &Code,
) -> Result<Pair, Fault>
    requires { IsValued image.now costs.now values.now before.now }
    ensures exact { IfOk result (λ p. p ≡
        level (the_entered image.now costs.now (pair_from first later.now) [] (read_code (routines_in before.now) code.now)
        (the_ended image.now costs.now)) 0) }
    ensures fits { IsSmallEntry image.now costs.now (pair_from first later.now) [] (read_code (routines_in before.now) code.now)
        (the_ended image.now costs.now) → OnlyMemory result }
{
    let end = ended(alloc, image, costs)?;
    let levels = entered(
        alloc,
        image,
        costs,
        before,
        values,
        first,
        later,
        &[],
        code,
        &end,
    )?;
    Ok(level_at(&levels, 0))
}

// The numbers with which a slot starts whose code a section is, where later ones start with these.
fn section_start(
    alloc: Global,
    image: &Image,
    costs: &Costs,
    before: &[Section],
    values: &[u64],
    first: u32,
    later: &[Pair],
    section: &Section,
) -> Result<Pair, Fault>
    requires { IsValued image.now costs.now values.now before.now }
    ensures exact { IfOk result (λ p. p ≡
        level (the_entered image.now costs.now (pair_from first later.now) [] (own_code (routines_in before.now) section.now)
        (the_ended image.now costs.now)) 0) }
    ensures fits { IsSmallEntry image.now costs.now (pair_from first later.now) [] (own_code (routines_in before.now) section.now)
        (the_ended image.now costs.now) → OnlyMemory result }
{
    match section {
        Section::OfThread { code, .. } => {
            let numbers = begun(alloc, image, costs, before, values, first, later, code)?;
            Ok(numbers)
        }
        Section::OfRoutine(_) => Ok((None, Some(costs.cost(Class::End)))),
        Section::OfCondition { .. } => Ok((None, Some(costs.cost(Class::End)))),
        Section::Unused(_) => Ok((None, Some(costs.cost(Class::End)))),
    }
}

// The numbers with which a slot starts, where those behind it start with these.
#[tactic(auto, using(tk_numbers::proofs::Before::in_none, crate::proofs::Begun::code_here, crate::proofs::Begun::code_past))]
fn slot_start(
    alloc: Global,
    image: &Image,
    costs: &Costs,
    sections: &[Section],
    values: &[u64],
    slot: u32,
    later: &[Pair],
) -> Result<Pair, Fault>
    requires values { IsValued image.now costs.now values.now sections.now }
    requires low { slot < 64 }
    ensures exact { IfOk result (λ p. p ≡
        level (the_entered image.now costs.now (pair_from (slot + 1) later.now) [] (code_of slot (read_sections [] sections.now))
        (the_ended image.now costs.now)) 0) }
    ensures fits { IsSmallEntry image.now costs.now (pair_from (slot + 1) later.now) [] (code_of slot (read_sections [] sections.now))
        (the_ended image.now costs.now) → OnlyMemory result }
{
    for i in 0..sections.len() {
        if is_own(&sections[i], slot) {
            let known = values_before(image, costs, sections, values, i);
            let numbers = section_start(
                alloc,
                image,
                costs,
                &sections[..i],
                known,
                slot + 1,
                later,
                &sections[i],
            )?;
            return Ok(numbers);
        }
    }
    Ok((None, Some(costs.cost(Class::End))))
}

// Whether a section is the code of a thread.
fn is_thread(section: &Section) -> bool
    ensures { result ≡ is_thread section.now }
{
    match section {
        Section::OfThread { .. } => true,
        Section::OfRoutine(_) => false,
        Section::OfCondition { .. } => false,
        Section::Unused(_) => false,
    }
}

// How many threads there are.
#[tactic(auto, using(tk_numbers::proofs::Before::in_none, crate::proofs::Begun::thread_there, crate::proofs::Begun::thread_past))]
fn threads_in(sections: &[Section]) -> usize
    ensures { result ≡ threads_in (read_sections [] sections.now) }
{
    let mut count = 0;
    for i in 0..sections.len() {
        if is_thread(&sections[i]) {
            count += 1;
        }
    }
    count
}

/// The numbers with which each slot starts: a slot starts later ones alone.
pub fn starts_of(
    alloc: Global,
    image: &Image,
    costs: &Costs,
    sections: &[Section],
    values: &[u64],
) -> Result<Vec<Pair>, Fault>
    requires { IsValued image.now costs.now values.now sections.now }
    ensures exact { IfOk result (λ starts. starts.items ≡ starts_from image.now costs.now 0 (codes_of (read_sections [] sections.now))) }
    ensures fits { threads_in (read_sections [] sections.now) ≤ 64
        → AreSmallStarts image.now costs.now 0 (codes_of (read_sections [] sections.now)) → OnlyMemory result }
{
    let mut starts = Vec::new(alloc);
    let count = threads_in(sections);
    if count > MOST_SLOTS {
        return Err(Fault::TooLarge);
    }
    let mut slot = count as u32;
    while slot > 0 {
        slot -= 1;
        let numbers = slot_start(
            alloc,
            image,
            costs,
            sections,
            values,
            slot,
            starts.as_slice(),
        )?;
        starts.insert(0, numbers)?;
    }
    Ok(starts)
}
