//! The walk of a certificate.

ghost use Rattle.std.specs.Prelude.{◌≡◌, ◌++◌, [], IfOk};
ghost use Rattle.std.specs.List.{AllByRecursion};
ghost use Rattle.tk_paths.specs.Dearest.{dearest_walk};
ghost use Rattle.tk_paths.specs.Faults.{OnlyMemory};
ghost use Rattle.tk_paths.specs.Trees.{read_program, read_sections};
ghost use Rattle.tk_paths.specs.Told.{told_by};
ghost use Rattle.tk_numbers.specs.Charges.{IsValued};
ghost use Rattle.tk_analyse.specs.Begun.{beginning, begun_by};
ghost use Rattle.tk_plans.specs.Plans.{plans};
ghost use Rattle.tk_analyse.specs.Points.{HasSmallPoints};
ghost use Rattle.tk_analyse.specs.Stood.{IsStood};
ghost use Rattle.tk_plans.specs.Low.{AreLow};
ghost use Rattle.tk_plans.specs.Small.{HasSmallWaysIn};
ghost use Rattle.tk_plans.specs.Ways.{ArePieces};

use crate::slots::slot;
use crate::standing::stand;
use mb_isa::Costs;
use pt_base::Many;
use pt_image::Image;
use std::alloc::Global;
use tk_cert::{Line, State, Walk};
use tk_paths::{Fault, Pair, Program, Side, greatest_of, number, pair_at, start_of};
use tk_plans::{Piece, is_second, pieces_of, plan};

// How a tick begins for slot 0.
#[derive(Clone, Copy)]
enum Beginning {
    /// At its start, to a side.
    Starts(Side),
    /// It is resumed, to a side.
    Resumes(Side),
    /// It had ended.
    HasEnded,
}

// How the tick of a certificate begins.
fn beginning_of(image: &Image, costs: &Costs, lines: &[Line], bounds: &[Pair]) -> Beginning
    ensures { result ≡ beginning image.now (told_by lines.now bounds.now) costs.now }
{
    let _costs = costs;
    let start = start_of(image, 0);
    let pausing = number(lines, Side::ToPause, 0, start);
    let ending = number(lines, Side::ToEnd, 0, start);
    let paused = pair_at(bounds, Side::ToPause, 0);
    let ended = pair_at(bounds, Side::ToEnd, 0);
    if !is_second(pausing, Some(greatest_of(&[ending, paused, ended]))) {
        return Beginning::Starts(Side::ToPause);
    }
    if !is_second(ending, Some(greatest_of(&[paused, ended]))) {
        return Beginning::Starts(Side::ToEnd);
    }
    if !is_second(paused, Some(greatest_of(&[ended]))) {
        return Beginning::Resumes(Side::ToPause);
    }
    if !is_second(ended, Some(0)) {
        return Beginning::Resumes(Side::ToEnd);
    }
    Beginning::HasEnded
}

// Slot 0 and those below it, as the tick begins.
#[tactic(auto, using(crate::proofs::BegunLaws::ending))]
fn begun(
    alloc: Global,
    image: &Image,
    costs: &Costs,
    lines: &[Line],
    bounds: &[Pair],
    program: &Program,
    pieces: &[Piece],
    most: u64,
    beginning: Beginning,
    states: &mut Vec<State>,
    answers: &mut Vec<bool>,
    choices: &mut Vec<bool>,
) -> Result<(), Fault>
    requires pieces { ArePieces image.now costs.now pieces.now (read_program program.now) }
    requires low { AreLow lines.now }
    requires points { HasSmallPoints image.now lines.now bounds.now costs.now }
    ensures states { IfOk result (λ done. IsStood 0
        (begun_by image.now lines.now bounds.now costs.now program.now most beginning).0
        states.old.items states.new.items) }
    ensures answers { IfOk result (λ done. answers.new.items ≡ answers.old.items
        ++ (begun_by image.now lines.now bounds.now costs.now program.now most beginning).1.0) }
    ensures choices { IfOk result (λ done. choices.new.items ≡ choices.old.items
        ++ (begun_by image.now lines.now bounds.now costs.now program.now most beginning).1.1) }
    ensures only { OnlyMemory result }
{
    match beginning {
        Beginning::Starts(side) => {
            stand(states, 0, State::Start);
            plan(
                alloc,
                image,
                costs,
                lines,
                bounds,
                program,
                pieces,
                most,
                start_of(image, 0),
                side,
                0,
                choices,
            )?;
            Ok(())
        }
        Beginning::Resumes(side) => {
            let deep = image.slots().len();
            slot(
                alloc, image, costs, lines, bounds, program, pieces, most, deep, side, 0, states,
                answers, choices,
            )?;
            Ok(())
        }
        Beginning::HasEnded => {
            stand(states, 0, State::Ended);
            Ok(())
        }
    }
}

// The walk of a certificate with these lines, numbers of slots and bound, with the bounded loops and the calls of its program.
fn walk_by(
    alloc: Global,
    image: &Image,
    costs: &Costs,
    lines: &[Line],
    bounds: &[Pair],
    program: &Program,
    pieces: &[Piece],
    most: u64,
) -> Result<Walk, Fault>
    requires pieces { ArePieces image.now costs.now pieces.now (read_program program.now) }
    requires low { AreLow lines.now }
    requires points { HasSmallPoints image.now lines.now bounds.now costs.now }
    ensures exact { IfOk result (λ walk. walk ≡ dearest_walk image.now (told_by lines.now bounds.now) costs.now
        (plans image.now lines.now bounds.now costs.now program.now most)) }
    ensures only { OnlyMemory result }
{
    let mut states = Vec::new(alloc);
    let count = image.slots().len();
    for _ in 0..count {
        states.push(State::Free)?;
    }
    let mut answers = Vec::new(alloc);
    let mut choices = Vec::new(alloc);
    let how = beginning_of(image, costs, lines, bounds);
    begun(
        alloc,
        image,
        costs,
        lines,
        bounds,
        program,
        pieces,
        most,
        how,
        &mut states,
        &mut answers,
        &mut choices,
    )?;
    answers.extend_from_slice(choices.as_slice())?;
    Ok(Walk {
        states: Many::of(states),
        choices: Many::of(answers),
    })
}

/// The walk of a certificate with these lines, numbers of slots and bound, as it is told of its program.
pub fn dearest_walk(
    alloc: Global,
    image: &Image,
    costs: &Costs,
    lines: &[Line],
    bounds: &[Pair],
    program: &Program,
    values: &[u64],
    bound: u64,
) -> Result<Walk, Fault>
    requires values { IsValued image.now costs.now values.now program.now.sections.items }
    requires low { AreLow lines.now }
    requires points { HasSmallPoints image.now lines.now bounds.now costs.now }
    requires ways { AllByRecursion (HasSmallWaysIn image.now costs.now) (read_sections [] program.now.sections.items) }
    ensures exact { IfOk result (λ walk. walk ≡
        dearest_walk image.now (told_by lines.now bounds.now) costs.now
        (plans image.now lines.now bounds.now costs.now program.now bound)) }
    ensures only { OnlyMemory result }
{
    let pieces = pieces_of(alloc, image, costs, program, values)?;
    let walk = walk_by(
        alloc,
        image,
        costs,
        lines,
        bounds,
        program,
        pieces.as_slice(),
        bound,
    )?;
    Ok(walk)
}
