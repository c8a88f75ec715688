ghost use Rattle.std.specs.Prelude.{◌≡◌, ◌+◌, ◌++◌, min, not, ◌&&◌, nat_lt, count_by, sum_by, IfOk};
ghost use Rattle.pc_rules.specs.Nests.{heights};
ghost use Rattle.pc_rules.specs.Judging.{is_input, is_output};
ghost use Rattle.pt_base.specs.First.{first_of};
ghost use Rattle.pc_rules.specs.Faults.{is_thread, tall_faults, whole_faults};
ghost use Rattle.pc_rules.specs.Sizes.{AreCounted};

use crate::heights::height_of_each;
use crate::known::known_of;
use crate::sizes::Sizes;
use crate::weights::{passage, weight};
use pc_grammar::{Cell, CellKind, Function, Typed};
use pt_base::{
    First, MOST_CELL_WORDS, MOST_HEIGHT, MOST_PASSAGE, MOST_PORTS, MOST_THREADS, MOST_WEIGHT,
    Memory, Rule, Span,
};
use std::alloc::Global;

fn input(cell: &Cell) -> bool
    ensures { result ≡ is_input cell.now }
{
    match cell.kind {
        CellKind::Input => true,
        _ => false,
    }
}

fn output(cell: &Cell) -> bool
    ensures { result ≡ is_output cell.now }
{
    match cell.kind {
        CellKind::Output => true,
        _ => false,
    }
}

fn inputs(cells: &[Cell]) -> usize
    ensures { result ≡ count_by is_input cells.now }
{
    cells.iter().filter(|cell| input(*cell)).count()
}

fn outputs(cells: &[Cell]) -> usize
    ensures { result ≡ count_by is_output cells.now }
{
    cells.iter().filter(|cell| output(*cell)).count()
}

/// How many functions are threads.
pub fn threads(functions: &[Function]) -> usize
    ensures { result ≡ count_by is_thread functions.now }
{
    let mut total: usize = 0;
    for f in functions {
        total += usize::from(f.thread);
    }
    total
}

/// The words of all cells, and one more than the most for every greater number.
pub fn cell_words(cells: &[Cell]) -> u64
    ensures { result ≡ min (MOST_CELL_WORDS + 1) (sum_by (λ cell. cell.size) cells.now) }
{
    let mut total: u64 = 0;
    for cell in cells {
        total = total
            .saturating_add(u64::from(cell.size))
            .min(u64::from(MOST_CELL_WORDS) + 1);
    }
    total
}

fn is_tall(f: &Function, height: u64) -> bool
    ensures { result ≡ (not f.now.thread && nat_lt MOST_HEIGHT height) }
{
    !f.thread && height > u64::from(MOST_HEIGHT)
}

/// Notes the routines that are too high.
fn note_tall(first: First, functions: &[Function], heights: &[u64]) -> First
    ensures { result ≡ first_of first (tall_faults functions.now heights.now) }
{
    let mut so_far = first;
    for i in 0..functions.len() {
        let f = &functions[i];
        so_far = so_far.note_if(is_tall(f, known_of(heights, i)), Rule::Z6, f.name.span);
    }
    so_far
}

/// The sizes of a program, each up to one more than its limit.
fn counted_sizes(alloc: Global, typed: &Typed) -> Result<Sizes, Memory>
    ensures { IfOk result (λ sizes. AreCounted typed.now sizes) }
{
    let passage = passage(alloc, typed)?;
    Ok(Sizes {
        threads: threads(typed.functions()) as u64,
        cell_words: cell_words(typed.cells()),
        weight: weight(typed),
        passage,
    })
}

fn note_whole(first: First, typed: &Typed, sizes: Sizes) -> First
    requires { AreCounted typed.now sizes }
    ensures { result ≡ first_of first (whole_faults typed.now) }
{
    let end = Span::at_end(typed.length());
    first
        .note_if(sizes.threads > u64::from(MOST_THREADS), Rule::Z2, end)
        .note_if(sizes.cell_words > u64::from(MOST_CELL_WORDS), Rule::Z3, end)
        .note_if(sizes.weight > u64::from(MOST_WEIGHT), Rule::Z7, end)
        .note_if(sizes.passage > u64::from(MOST_PASSAGE), Rule::Z8, end)
        .note_if(inputs(typed.cells()) > MOST_PORTS as usize, Rule::Z9, end)
        .note_if(outputs(typed.cells()) > MOST_PORTS as usize, Rule::Z9, end)
}

/// The first fault of all limits, and the sizes that were counted for it.
#[derive(Clone, Copy)]
pub struct Judged {
    pub first: First,
    pub sizes: Sizes,
}

/// Notes the limits on functions and on the whole program.
pub fn note_limits(alloc: Global, typed: &Typed, first: First) -> Result<Judged, Memory>
    ensures found { IfOk result (λ judged. judged.first ≡
        first_of first (tall_faults typed.now.functions (heights typed.now.functions) ++ whole_faults typed.now)) }
    ensures sizes { IfOk result (λ judged. AreCounted typed.now judged.sizes) }
{
    let sizes = counted_sizes(alloc, typed)?;
    let heights = height_of_each(alloc, typed.functions())?;
    let tall = note_tall(first, typed.functions(), &heights);
    Ok(Judged {
        first: note_whole(tall, typed, sizes),
        sizes,
    })
}
