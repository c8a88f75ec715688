//! The bounded loops and the calls of a program's threads, and the choices by which each is crossed.

ghost use Rattle.std.specs.Prelude.{◌≡◌, ◌≤◌, ◌++◌, ◌∷◌, [], map, IfOk};
ghost use Rattle.std.specs.List.{AllByRecursion};
ghost use Rattle.std.specs.Option.{option_copied};
ghost use Rattle.tk_paths.specs.Walks.{most_cycles};
ghost use Rattle.tk_paths.specs.Regions.{dearest_way, through};
ghost use Rattle.tk_paths.specs.Choices.{pieces as the_pieces, code_pieces as the_code_pieces, section_pieces as the_section_pieces};
ghost use Rattle.tk_paths.specs.Dearest.{find_piece};
ghost use Rattle.tk_paths.specs.Faults.{OnlyMemory};
ghost use Rattle.tk_paths.specs.Trees.{read_code, read_program, read_region, read_sections};
ghost use Rattle.tk_numbers.specs.Charges.{IsValued, routines_in};
ghost use Rattle.tk_numbers.specs.Routines.{read_section, routines_after};
ghost use Rattle.tk_plans.specs.Parts.{crossed, crossed_way};
ghost use Rattle.tk_plans.specs.Small.{HasSmallWays, HasSmallWaysIn};
ghost use Rattle.tk_plans.specs.Ways.{ArePieces, AreWays, crossed_by, crossing, piece_among, way_by};

use crate::parts::Next;
use crate::ways::push_way;
use mb_isa::Costs;
use pt_base::Many;
use pt_image::Image;
use std::alloc::Global;
use tk_numbers::{end_of, values_before};
use tk_paths::{Code, Fault, Program, Region, Section};

/// A bounded loop or a call of a thread: its place, the place behind it, and the choices of its dearest way.
#[derive(Drop)]
pub struct Piece {
    pub place: u32,
    pub to: usize,
    pub way: Many<bool>,
}

// Adds a bounded loop or a call at a place.
fn push_piece(
    alloc: Global,
    image: &Image,
    costs: &Costs,
    before: &[Section],
    values: &[u64],
    ways: &[Many<bool>],
    place: u32,
    region: &Region,
    pieces: &mut Vec<Piece>,
) -> Result<(), Fault>
    requires values { IsValued image.now costs.now values.now before.now }
    requires ways { AreWays image.now costs.now ways.now before.now }
    ensures exact { IfOk result (λ done. pieces.new.items ≡
        pieces.old.items ++ crossing image.now costs.now (place, read_region (routines_in before.now) region.now) ∷ []) }
    ensures fits { through image.now costs.now (read_region (routines_in before.now) region.now) ≤ most_cycles → OnlyMemory result }
{
    let mut way = Vec::new(alloc);
    push_way(alloc, image, costs, before, values, ways, region, &mut way)?;
    let to = end_of(before, region);
    pieces.push(Piece {
        place,
        to,
        way: Many::of(way),
    })?;
    Ok(())
}

// Adds those of a region.
#[tactic(auto, using(tk_paths::proofs::Readings::region_reads))]
fn region_pieces(
    alloc: Global,
    image: &Image,
    costs: &Costs,
    before: &[Section],
    values: &[u64],
    ways: &[Many<bool>],
    region: &Region,
    pieces: &mut Vec<Piece>,
) -> Result<(), Fault>
    requires values { IsValued image.now costs.now values.now before.now }
    requires ways { AreWays image.now costs.now ways.now before.now }
    ensures exact { IfOk result (λ done. pieces.new.items ≡
        pieces.old.items ++ map (crossing image.now costs.now) (the_pieces (read_region (routines_in before.now) region.now))) }
    ensures fits { through image.now costs.now (read_region (routines_in before.now) region.now) ≤ most_cycles → OnlyMemory result }
{
    match region {
        Region::Words { .. } => Ok(()),
        Region::Sequence { parts, .. } => {
            let parts = parts.as_slice();
            for part in parts {
                region_pieces(alloc, image, costs, before, values, ways, part, pieces)?;
            }
            Ok(())
        }
        Region::Choice { untaken, taken, .. } => {
            region_pieces(
                alloc,
                image,
                costs,
                before,
                values,
                ways,
                untaken.get(),
                pieces,
            )?;
            region_pieces(
                alloc,
                image,
                costs,
                before,
                values,
                ways,
                taken.get(),
                pieces,
            )?;
            Ok(())
        }
        Region::Counted { from, .. } => push_piece(
            alloc, image, costs, before, values, ways, *from, region, pieces,
        ),
        Region::Repeated { from, .. } => push_piece(
            alloc, image, costs, before, values, ways, *from, region, pieces,
        ),
        Region::Calling { place, .. } => push_piece(
            alloc, image, costs, before, values, ways, *place, region, pieces,
        ),
    }
}

// Adds those of a thread's code.
#[tactic(auto, using(tk_paths::proofs::Readings::code_reads))]
fn code_pieces(
    alloc: Global,
    image: &Image,
    costs: &Costs,
    before: &[Section],
    values: &[u64],
    ways: &[Many<bool>],
    code: &Code,
    pieces: &mut Vec<Piece>,
) -> Result<(), Fault>
    requires values { IsValued image.now costs.now values.now before.now }
    requires ways { AreWays image.now costs.now ways.now before.now }
    ensures exact { IfOk result (λ done. pieces.new.items ≡
        pieces.old.items ++ map (crossing image.now costs.now) (the_code_pieces (read_code (routines_in before.now) code.now))) }
    ensures fits { HasSmallWays image.now costs.now (read_code (routines_in before.now) code.now) → OnlyMemory result }
{
    match code {
        Code::Passed(region) => region_pieces(
            alloc, image, costs, before, values, ways, region, pieces,
        ),
        Code::Sequence { parts, to: _ } => {
            let codes = parts.as_slice();
            for part in codes {
                code_pieces(alloc, image, costs, before, values, ways, part, pieces)?;
            }
            Ok(())
        }
        Code::Either { untaken, taken, .. } => {
            code_pieces(
                alloc,
                image,
                costs,
                before,
                values,
                ways,
                untaken.get(),
                pieces,
            )?;
            code_pieces(
                alloc,
                image,
                costs,
                before,
                values,
                ways,
                taken.get(),
                pieces,
            )?;
            Ok(())
        }
        Code::Turns { body, .. } => {
            code_pieces(
                alloc,
                image,
                costs,
                before,
                values,
                ways,
                body.get(),
                pieces,
            )?;
            Ok(())
        }
        Code::Forever { body, .. } => {
            code_pieces(
                alloc,
                image,
                costs,
                before,
                values,
                ways,
                body.get(),
                pieces,
            )?;
            Ok(())
        }
        Code::Resting(_) => Ok(()),
        Code::Forking { .. } => Ok(()),
        Code::Guarded { body, .. } => {
            code_pieces(
                alloc,
                image,
                costs,
                before,
                values,
                ways,
                body.get(),
                pieces,
            )?;
            Ok(())
        }
    }
}

// Adds those of a section.
#[tactic(auto, using(crate::proofs::PieceLaws::no_piece))]
fn section_pieces(
    alloc: Global,
    image: &Image,
    costs: &Costs,
    before: &[Section],
    values: &[u64],
    ways: &[Many<bool>],
    section: &Section,
    pieces: &mut Vec<Piece>,
) -> Result<(), Fault>
    requires values { IsValued image.now costs.now values.now before.now }
    requires ways { AreWays image.now costs.now ways.now before.now }
    ensures exact { IfOk result (λ done. pieces.new.items ≡
        pieces.old.items ++ map (crossing image.now costs.now) (the_section_pieces (read_section (routines_in before.now) section.now))) }
    ensures fits { HasSmallWaysIn image.now costs.now (read_section (routines_in before.now) section.now) → OnlyMemory result }
{
    match section {
        Section::OfThread { code, .. } => code_pieces(
            alloc, image, costs, before, values, ways, code, pieces,
        ),
        Section::OfRoutine(_) => Ok(()),
        Section::OfCondition { .. } => Ok(()),
        Section::Unused(_) => Ok(()),
    }
}

// Adds the way of the routine of a section, if it is one.
fn add_way(
    alloc: Global,
    image: &Image,
    costs: &Costs,
    before: &[Section],
    values: &[u64],
    section: &Section,
    ways: &mut Vec<Many<bool>>,
) -> Result<(), Fault>
    requires values { IsValued image.now costs.now values.now before.now }
    requires ways { AreWays image.now costs.now ways.old.items before.now }
    ensures exact { IfOk result (λ done. ways.new.items ≡
        map (dearest_way image.now costs.now) (routines_after (routines_in before.now) section.now)) }
    ensures fits { HasSmallWaysIn image.now costs.now (read_section (routines_in before.now) section.now) → OnlyMemory result }
{
    match section {
        Section::OfThread { .. } => Ok(()),
        Section::OfRoutine(region) => {
            let mut way = Vec::new(alloc);
            push_way(
                alloc,
                image,
                costs,
                before,
                values,
                ways.as_slice(),
                region,
                &mut way,
            )?;
            ways.push(Many::of(way))?;
            Ok(())
        }
        Section::OfCondition { .. } => Ok(()),
        Section::Unused(_) => Ok(()),
    }
}

/// The bounded loops and the calls of all threads, in the order of the code.
#[tactic(auto, using(tk_numbers::proofs::Before::in_none, tk_numbers::proofs::Before::in_more))]
pub fn pieces_of(
    alloc: Global,
    image: &Image,
    costs: &Costs,
    program: &Program,
    values: &[u64],
) -> Result<Vec<Piece>, Fault>
    requires { IsValued image.now costs.now values.now program.now.sections.items }
    ensures exact { IfOk result (λ pieces. ArePieces image.now costs.now pieces.items (read_program program.now)) }
    ensures fits { AllByRecursion (HasSmallWaysIn image.now costs.now) (read_sections [] program.now.sections.items) → OnlyMemory result }
{
    let sections = program.sections.as_slice();
    let mut ways = Vec::new(alloc);
    let mut pieces = Vec::new(alloc);
    for i in 0..sections.len() {
        let known = values_before(image, costs, sections, values, i);
        section_pieces(
            alloc,
            image,
            costs,
            &sections[..i],
            known,
            ways.as_slice(),
            &sections[i],
            &mut pieces,
        )?;
        add_way(
            alloc,
            image,
            costs,
            &sections[..i],
            known,
            &sections[i],
            &mut ways,
        )?;
    }
    Ok(pieces)
}

// The one at a place.
#[tactic(auto, using(crate::proofs::PieceLaws::piece_here, crate::proofs::PieceLaws::piece_past))]
fn piece_at<'a>(pieces: &'a [Piece], place: usize) -> Option<&'a Piece>
    ensures { option_copied result ≡ piece_among pieces.now place }
{
    for piece in pieces {
        if piece.place as usize == place {
            return Some(piece);
        }
    }
    None
}

// Where a slot goes behind the one at a place, whose choices are added.
#[tactic(auto, using(crate::proofs::PartLaws::no_choice))]
fn cross_by(pieces: &[Piece], place: usize, choices: &mut Vec<bool>) -> Result<Next, Fault>
    ensures next { IfOk result (λ n. n ≡ crossed_by (piece_among pieces.now place)) }
    ensures choices { IfOk result (λ n. choices.new.items ≡ choices.old.items ++ way_by (piece_among pieces.now place)) }
    ensures only { OnlyMemory result }
{
    match piece_at(pieces, place) {
        None => Ok(Next::Nowhere),
        Some(piece) => {
            choices.extend_from_slice(piece.way.items())?;
            Ok(Next::On(piece.to))
        }
    }
}

/// Where a slot goes behind the bounded loop or the call at a place, whose choices are added.
pub fn cross(
    image: &Image,
    costs: &Costs,
    program: &Program,
    pieces: &[Piece],
    place: usize,
    choices: &mut Vec<bool>,
) -> Result<Next, Fault>
    requires { ArePieces image.now costs.now pieces.now (read_program program.now) }
    ensures next { IfOk result (λ n. n ≡ crossed (find_piece (read_program program.now) place)) }
    ensures choices { IfOk result (λ n. choices.new.items ≡
        choices.old.items ++ crossed_way image.now costs.now (find_piece (read_program program.now) place)) }
    ensures only { OnlyMemory result }
{
    let next = cross_by(pieces, place, choices)?;
    Ok(next)
}
