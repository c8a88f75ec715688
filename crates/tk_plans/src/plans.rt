//! The plans of places: which conditions are to hold, and which way each branch goes, up to the rest.

ghost use Rattle.std.specs.Prelude.{◌≡◌, ◌≤◌, ◌<◌, ◌+◌, ◌-◌, ◌++◌, ◌^◌, IfOk};
ghost use Rattle.tk_paths.specs.Faults.{OnlyMemory};
ghost use Rattle.tk_paths.specs.Trees.{read_program};
ghost use Rattle.tk_plans.specs.Parts.{IsPart, goes};
ghost use Rattle.tk_plans.specs.Plans.{children_choices, plans};
ghost use Rattle.tk_plans.specs.Ways.{ArePieces};
ghost use Rattle.tk_plans.specs.Low.{AreLow};

use crate::children::{behind_child, child_ends, count_in, first_in, group_of, joined_at, side_by};
use crate::nexts::next_at;
use crate::parts::{Group, Next, Part};
use crate::pieces::Piece;
use crate::rests::fitted;
use mb_isa::Costs;
use pt_image::Image;
use std::alloc::Global;
use tk_cert::Line;
use tk_paths::{Fault, Pair, Program, Side, start_of};

// The choices of children, which are added.
#[cycle(plan)]
#[tactic(auto, using(crate::proofs::ChildLaws::children))]
fn children(
    alloc: Global,
    image: &Image,
    costs: &Costs,
    lines: &[Line],
    bounds: &[Pair],
    program: &Program,
    pieces: &[Piece],
    most: u64,
    group: Group,
    child: u32,
    count: u32,
    choices: &mut Vec<bool>,
) -> Result<(), Fault>
    requires pieces { ArePieces image.now costs.now pieces.now (read_program program.now) }
    requires low { AreLow lines.now }
    requires few { count < 256 }
    requires slots { child + count ≤ 2 ^ 20 }
    ensures exact { IfOk result (λ done. choices.new.items ≡
        choices.old.items ++ children_choices image.now lines.now bounds.now costs.now program.now most group child count) }
    ensures only { OnlyMemory result }
{
    if count == 0 {
        return Ok(());
    }
    let ends = child_ends(image, costs, lines, bounds, group, child, count - 1);
    let place = start_of(image, child);
    let side = side_by(ends);
    plan(
        alloc, image, costs, lines, bounds, program, pieces, most, place, side, 0, choices,
    )?;
    let others = behind_child(group, ends);
    children(
        alloc,
        image,
        costs,
        lines,
        bounds,
        program,
        pieces,
        most,
        others,
        child + 1,
        count - 1,
        choices,
    )?;
    Ok(())
}

// The plan of where a slot goes.
#[cycle(plan)]
fn follow(
    alloc: Global,
    image: &Image,
    costs: &Costs,
    lines: &[Line],
    bounds: &[Pair],
    program: &Program,
    pieces: &[Piece],
    most: u64,
    next: Next,
    side: Side,
    level: usize,
    choices: &mut Vec<bool>,
) -> Result<Part, Fault>
    requires pieces { ArePieces image.now costs.now pieces.now (read_program program.now) }
    requires low { AreLow lines.now }
    ensures exact { IfOk result (λ part. IsPart (plans image.now lines.now bounds.now costs.now program.now most) side level
        (goes (plans image.now lines.now bounds.now costs.now program.now most) side level next)
        part choices.old.items choices.new.items) }
    ensures only { OnlyMemory result }
{
    match next {
        Next::On(place) => Ok(Part::Open(place)),
        Next::Out {
            place,
            level: outside,
        } => {
            let answers = plan(
                alloc, image, costs, lines, bounds, program, pieces, most, place, side, outside,
                choices,
            )?;
            let all = fitted(alloc, level, answers.as_slice())?;
            Ok(Part::Whole(all))
        }
        Next::Handler {
            place,
            level: outside,
        } => {
            let mut answers = plan(
                alloc, image, costs, lines, bounds, program, pieces, most, place, side, outside,
                choices,
            )?;
            answers.push(true)?;
            let all = fitted(alloc, level, answers.as_slice())?;
            Ok(Part::Whole(all))
        }
        Next::Stays => {
            let all = fitted(alloc, level, &[])?;
            Ok(Part::Whole(all))
        }
        Next::Nowhere => Ok(Part::Whole(Vec::new(alloc))),
    }
}

// The first part of a place's plan, whose choices are added.
#[cycle(plan)]
fn part(
    alloc: Global,
    image: &Image,
    costs: &Costs,
    lines: &[Line],
    bounds: &[Pair],
    program: &Program,
    pieces: &[Piece],
    most: u64,
    place: usize,
    side: Side,
    level: usize,
    choices: &mut Vec<bool>,
) -> Result<Part, Fault>
    requires pieces { ArePieces image.now costs.now pieces.now (read_program program.now) }
    requires low { AreLow lines.now }
    requires some { 1 ≤ most }
    ensures exact { IfOk result (λ part. IsPart (plans image.now lines.now bounds.now costs.now program.now (most - 1)) side level
        (plans image.now lines.now bounds.now costs.now program.now most place side level)
        part choices.old.items choices.new.items) }
    ensures only { OnlyMemory result }
{
    let joined = joined_at(image, costs, lines, bounds, place, side, level);
    children(
        alloc,
        image,
        costs,
        lines,
        bounds,
        program,
        pieces,
        most - 1,
        group_of(joined),
        first_in(image, place),
        count_in(image, place),
        choices,
    )?;
    let next = next_at(
        image, costs, lines, bounds, program, pieces, place, side, level, joined, choices,
    )?;
    let all = follow(
        alloc,
        image,
        costs,
        lines,
        bounds,
        program,
        pieces,
        most - 1,
        next,
        side,
        level,
        choices,
    )?;
    Ok(all)
}

/// The plan of a place, where its number is at most so much: the answers that it wants, and its choices, which are added.
#[cycle(plan)]
pub fn plan(
    alloc: Global,
    image: &Image,
    costs: &Costs,
    lines: &[Line],
    bounds: &[Pair],
    program: &Program,
    pieces: &[Piece],
    most: u64,
    place: usize,
    side: Side,
    level: usize,
    choices: &mut Vec<bool>,
) -> Result<Vec<bool>, Fault>
    requires pieces { ArePieces image.now costs.now pieces.now (read_program program.now) }
    requires low { AreLow lines.now }
    ensures answers { IfOk result (λ v. v.items ≡
        (plans image.now lines.now bounds.now costs.now program.now most place side level).0) }
    ensures choices { IfOk result (λ v. choices.new.items ≡
        choices.old.items ++ (plans image.now lines.now bounds.now costs.now program.now most place side level).1) }
    ensures only { OnlyMemory result }
{
    let mut left = most;
    let mut at = place;
    while left > 0 {
        match part(
            alloc, image, costs, lines, bounds, program, pieces, left, at, side, level, choices,
        )? {
            Part::Whole(answers) => return Ok(answers),
            Part::Open(next) => {
                at = next;
                left -= 1;
            }
        }
    }
    Ok(Vec::new(alloc))
}

/// The plan of where a slot goes, where the numbers of places are at most so much: its answers, and its choices, which are added.
pub fn gone(
    alloc: Global,
    image: &Image,
    costs: &Costs,
    lines: &[Line],
    bounds: &[Pair],
    program: &Program,
    pieces: &[Piece],
    most: u64,
    next: Next,
    side: Side,
    level: usize,
    choices: &mut Vec<bool>,
) -> Result<Vec<bool>, Fault>
    requires pieces { ArePieces image.now costs.now pieces.now (read_program program.now) }
    requires low { AreLow lines.now }
    ensures answers { IfOk result (λ v. v.items ≡
        (goes (plans image.now lines.now bounds.now costs.now program.now most) side level next).0) }
    ensures choices { IfOk result (λ v. choices.new.items ≡
        choices.old.items ++ (goes (plans image.now lines.now bounds.now costs.now program.now most) side level next).1) }
    ensures only { OnlyMemory result }
{
    match follow(
        alloc, image, costs, lines, bounds, program, pieces, most, next, side, level, choices,
    )? {
        Part::Whole(answers) => Ok(answers),
        Part::Open(place) => {
            let answers = plan(
                alloc, image, costs, lines, bounds, program, pieces, most, place, side, level,
                choices,
            )?;
            Ok(answers)
        }
    }
}
