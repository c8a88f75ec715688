ghost use Rattle.std.specs.Prelude.{◌≡◌, None, [], IfOk, find};
ghost use Rattle.std.specs.List.{list_any};
ghost use Rattle.pc_grammar.specs.Breaking as breaking;
ghost use Rattle.pc_names.specs.Started.{started};
ghost use Rattle.pt_base.specs.First.{first_of};
ghost use Rattle.pc_names.specs.Faults.{repeats, site_faults, sites_faults, pause_faults, faults};

use crate::faults::{note_items_twice, note_own_twice, note_repeats};
use crate::sites::{Site, all_sites, name_of};
use crate::threads::{Threads, is_main, started_words};
use pc_grammar::{Item, hold_pauses};
use pt_base::{First, Memory, Rule, Span};
use std::alloc::Global;

/// Notes what is broken at a place.
fn note_site(first: First, threads: &Threads<'_>, site: &Site<'_>) -> First
    ensures { result ≡ first_of first (site_faults threads.now site.now) }
{
    let span = site.word().span;
    first
        .note_if(site.is_unknown(), Rule::N2, span)
        .note_if(site.is_wrong(threads), Rule::N3, span)
        .note_if(site.writes_input(), Rule::N4, span)
        .note_if(site.is_miscounted(), Rule::N5, span)
        .note_if(site.starts() && is_main(site.word()), Rule::N7, span)
}

fn note_sites(first: First, threads: &Threads<'_>, sites: &[Site<'_>]) -> First
    ensures { result ≡ first_of first (sites_faults threads.now sites.now) }
{
    let mut so_far = first;
    for site in sites {
        so_far = note_site(so_far, threads, site);
    }
    so_far
}

/// Notes the names that stand in `PAR`s again.
fn note_started_twice(alloc: Global, first: First, sites: &[Site<'_>]) -> Result<First, Memory>
    ensures { IfOk result (λ found. found ≡ first_of first (repeats Rule.N7 [] (started sites.now))) }
{
    let words = started_words(alloc, sites)?;
    note_repeats(alloc, first, Rule::N7, &words)
}

/// Whether the item is `void main` without parameters.
pub fn is_main_item(item: &Item) -> bool
    ensures { result ≡ breaking.is_main_item item.now }
{
    match item {
        Item::Function {
            name,
            gives: false,
            parameters,
            ..
        } => parameters.is_empty() && is_main(name),
        _ => false,
    }
}

/// The name of the first item `main`, or the end.
fn main_place(items: &[Item], length: u32) -> Span
    ensures { result ≡ breaking.main_place length (find breaking.is_named_main items.now) }
{
    for item in items {
        let name = name_of(item);
        if is_main(name) {
            return name.span;
        }
    }
    Span::at_end(length)
}

fn has_main(items: &[Item]) -> bool
    ensures { result ≡ list_any breaking.is_main_item items.now }
{
    for item in items {
        if is_main_item(item) {
            return true;
        }
    }
    false
}

fn holds_pause(item: &Item) -> bool
    ensures { result ≡ breaking.holds_some_pause item.now }
{
    match item {
        Item::Function { body, .. } => hold_pauses(body.as_slice()),
        _ => false,
    }
}

/// Notes the functions that are no threads and hold a pause.
fn note_pauses(first: First, threads: &Threads<'_>, items: &[Item]) -> First
    ensures { result ≡ first_of first (pause_faults threads.now items.now) }
{
    let mut so_far = first;
    for item in items {
        let name = name_of(item);
        let broken = !threads.is_thread(name) && holds_pause(item);
        so_far = so_far.note_if(broken, Rule::N8, name.span);
    }
    so_far
}

/// The first of all faults, and the threads that were found for it.
#[derive(Drop)]
pub struct FirstFault<'a> {
    pub first: First,
    pub threads: Threads<'a>,
}

/// The first of all faults of the items, and the threads that were found.
#[tactic(auto, unfolding(crate::specs::Faults::faults))]
pub fn first_fault<'a>(
    alloc: Global,
    items: &'a [Item],
    length: u32,
) -> Result<FirstFault<'a>, Memory>
    ensures found { IfOk result (λ fault. fault.first ≡ first_of None (faults items.now length)) }
    ensures threads { IfOk result (λ fault. fault.threads ≡ items.now) }
{
    let sites = all_sites(alloc, items)?;
    let threads = Threads::of(alloc, items, &sites)?;
    let items_twice = note_items_twice(alloc, First::nothing(), items)?;
    let own_twice = note_own_twice(alloc, items_twice, items)?;
    let at_sites = note_sites(own_twice, &threads, &sites);
    let started_twice = note_started_twice(alloc, at_sites, &sites)?;
    let with_main = started_twice.note_if(!has_main(items), Rule::N6, main_place(items, length));
    let first = note_pauses(with_main, &threads, items);
    Ok(FirstFault { first, threads })
}
