//! What the routines of a program cost, and how many links are inside each, by their numbers.

ghost use Rattle.std.specs.Prelude.{◌≡◌, ◌≤◌, ◌<◌, ◌^◌, [], map, length, take, IfOk};
ghost use Rattle.std.specs.List.{AllByRecursion};
ghost use Rattle.tk_paths.specs.Regions.{links_in as the_links_in, through as the_through};
ghost use Rattle.tk_paths.specs.Trees.{read_region, read_sections, routine_at};
ghost use Rattle.tk_paths.specs.Faults.{OnlyMemory};
ghost use Rattle.tk_numbers.specs.Charges.{IsValued, routines_in};
ghost use Rattle.tk_numbers.specs.Routines.{IsShallow, IsSmallRoutine};
ghost use Rattle.tk_numbers.specs.Routines.{AreLinks, is_routine, read_section, routines_after};

use crate::regions::through;
use mb_isa::Costs;
use pt_image::Image;
use std::alloc::Global;
use tk_paths::{Fault, Region, Section};

// The links inside a routine, 0 where there is none of its number.
#[tactic(auto, using(crate::proofs::Before::links_at))]
fn links_of(before: &[Section], links: &[u32], place: u32, routine: u32) -> u32
    requires { AreLinks links.now before.now }
    ensures { result ≡ the_links_in (routine_at (routines_in before.now) place routine) }
{
    match links.get(routine as usize) {
        None => 0,
        Some(links) => *links,
    }
}

/// How many links are there at once inside a region, where the sections before have routines with these.
#[tactic(auto, using(tk_paths::proofs::Readings::region_reads))]
pub fn links_in(before: &[Section], links: &[u32], region: &Region) -> Result<u32, Fault>
    requires { AreLinks links.now before.now }
    ensures exact { IfOk result (λ n. n ≡ the_links_in (read_region (routines_in before.now) region.now)) }
    ensures fits { the_links_in (read_region (routines_in before.now) region.now) < 2 ^ 32 → OnlyMemory result }
{
    match region {
        Region::Words { .. } => Ok(0),
        Region::Sequence { parts, .. } => {
            let parts = parts.as_slice();
            let mut most = 0;
            for part in parts {
                let here = links_in(before, links, part)?;
                most = most.max(here);
            }
            Ok(most)
        }
        Region::Choice { untaken, taken, .. } => {
            let first = links_in(before, links, untaken.get())?;
            let second = links_in(before, links, taken.get())?;
            Ok(first.max(second))
        }
        Region::Counted { body, .. } => {
            let inner = links_in(before, links, body.get())?;
            Ok(inner)
        }
        Region::Repeated { body, .. } => {
            let inner = links_in(before, links, body.get())?;
            Ok(inner)
        }
        Region::Calling { place, routine } => {
            let inner = links_of(before, links, *place, *routine);
            match inner.checked_add(1) {
                None => Err(Fault::TooLarge),
                Some(n) => Ok(n),
            }
        }
    }
}

// Adds what the routine of a section costs, if it is one.
fn add_value(
    image: &Image,
    costs: &Costs,
    before: &[Section],
    section: &Section,
    values: &mut Vec<u64>,
) -> Result<(), Fault>
    requires { IsValued image.now costs.now values.old.items before.now }
    ensures exact { IfOk result (λ done. values.new.items ≡
        map (the_through image.now costs.now) (routines_after (routines_in before.now) section.now)) }
    ensures fits { IsSmallRoutine image.now costs.now (read_section (routines_in before.now) section.now) → OnlyMemory result }
{
    match section {
        Section::OfThread { .. } => Ok(()),
        Section::OfRoutine(region) => {
            let value = through(image, costs, before, values.as_slice(), region)?;
            values.push(value)?;
            Ok(())
        }
        Section::OfCondition { .. } => Ok(()),
        Section::Unused(_) => Ok(()),
    }
}

// Adds the links inside the routine of a section, if it is one.
fn add_links(before: &[Section], section: &Section, links: &mut Vec<u32>) -> Result<(), Fault>
    requires { AreLinks links.old.items before.now }
    ensures exact { IfOk result (λ done. links.new.items ≡ map the_links_in (routines_after (routines_in before.now) section.now)) }
    ensures fits { IsShallow (read_section (routines_in before.now) section.now) → OnlyMemory result }
{
    match section {
        Section::OfThread { .. } => Ok(()),
        Section::OfRoutine(region) => {
            let inner = links_in(before, links.as_slice(), region)?;
            links.push(inner)?;
            Ok(())
        }
        Section::OfCondition { .. } => Ok(()),
        Section::Unused(_) => Ok(()),
    }
}

/// What each routine costs.
#[tactic(auto, using(crate::proofs::Before::in_none, crate::proofs::Before::in_more))]
pub fn values_of(
    alloc: Global,
    image: &Image,
    costs: &Costs,
    sections: &[Section],
) -> Result<Vec<u64>, Fault>
    ensures exact { IfOk result (λ values. IsValued image.now costs.now values.items sections.now) }
    ensures fits { AllByRecursion (IsSmallRoutine image.now costs.now) (read_sections [] sections.now) → OnlyMemory result }
{
    let mut values = Vec::new(alloc);
    for i in 0..sections.len() {
        add_value(image, costs, &sections[..i], &sections[i], &mut values)?;
    }
    Ok(values)
}

/// The links inside each routine.
#[tactic(auto, using(crate::proofs::Before::in_none, crate::proofs::Before::in_more))]
pub fn all_links(alloc: Global, sections: &[Section]) -> Result<Vec<u32>, Fault>
    ensures exact { IfOk result (λ links. AreLinks links.items sections.now) }
    ensures fits { AllByRecursion IsShallow (read_sections [] sections.now) → OnlyMemory result }
{
    let mut links = Vec::new(alloc);
    for i in 0..sections.len() {
        add_links(&sections[..i], &sections[i], &mut links)?;
    }
    Ok(links)
}

// Whether a section is a routine.
fn is_routine(section: &Section) -> bool
    ensures { result ≡ is_routine section.now }
{
    match section {
        Section::OfThread { .. } => false,
        Section::OfRoutine(_) => true,
        Section::OfCondition { .. } => false,
        Section::Unused(_) => false,
    }
}

// How many routines are among these sections.
#[tactic(auto, using(crate::proofs::Before::in_none, crate::proofs::Before::size_there, crate::proofs::Before::size_past))]
fn routines_among(before: &[Section]) -> usize
    ensures { result ≡ length (routines_in before.now) }
{
    let mut count = 0;
    for i in 0..before.len() {
        if is_routine(&before[i]) {
            count += 1;
        }
    }
    count
}

/// The costs of the routines of the sections before one, from those of all.
#[tactic(auto, using(crate::proofs::Before::values_known, crate::proofs::Before::values_fit))]
pub fn values_before<'a>(
    image: &Image,
    costs: &Costs,
    sections: &[Section],
    values: &'a [u64],
    i: usize,
) -> &'a [u64]
    requires values { IsValued image.now costs.now values.now sections.now }
    requires within { i ≤ length sections.now }
    ensures { IsValued image.now costs.now result.now (take i sections.now) }
{
    let known = routines_among(&sections[..i]);
    &values[..known]
}

/// The links inside the routines of the sections before one, from those of all.
#[tactic(auto, using(crate::proofs::Before::links_known, crate::proofs::Before::links_fit))]
pub fn links_before<'a>(sections: &[Section], links: &'a [u32], i: usize) -> &'a [u32]
    requires links { AreLinks links.now sections.now }
    requires within { i ≤ length sections.now }
    ensures { AreLinks result.now (take i sections.now) }
{
    let known = routines_among(&sections[..i]);
    &links[..known]
}
