//! Where a slot goes from a place, and the choices of the place.

ghost use Rattle.std.specs.Prelude.{◌≡◌, ◌<◌, ◌+◌, ◌-◌, ◌++◌, if◌then◌else◌, min, length, IfOk};
ghost use Rattle.tk_paths.specs.Kinds.{line_at};
ghost use Rattle.tk_paths.specs.Acceptance.{stack_of};
ghost use Rattle.tk_paths.specs.Dearest.{find_piece};
ghost use Rattle.tk_paths.specs.Trees.{read_program};
ghost use Rattle.tk_paths.specs.Faults.{OnlyMemory};
ghost use Rattle.tk_paths.specs.Told.{told_by};
ghost use Rattle.tk_plans.specs.Parts.{branch_taken, rest_next};
ghost use Rattle.tk_plans.specs.Plans.{choices_at, next_at, straight_at, straight_choices_at};
ghost use Rattle.tk_plans.specs.Ways.{ArePieces};
ghost use Rattle.tk_plans.specs.Low.{AreLow};

use crate::parts::Next;
use crate::pieces::{Piece, cross};
use crate::rests::rest_next;
use crate::sums::more;
use crate::units::{instr_in, unit_word};
use crate::words::{is_second, low_number, stack_at};
use mb_isa::{Class, Costs, Instr};
use pt_image::Image;
use tk_cert::Line;
use tk_numbers::{behind, extra};
use tk_paths::{Fault, Pair, Program, Side, Word};

// Whether the branch at a place is taken, which leads to a goal.
fn branch_taken(
    image: &Image,
    costs: &Costs,
    lines: &[Line],
    bounds: &[Pair],
    place: usize,
    goal: usize,
    side: Side,
    level: usize,
) -> bool
    requires low { AreLow lines.now }
    requires inside { place < 65536 }
    ensures { result ≡ branch_taken image.now (told_by lines.now bounds.now) costs.now place goal side level }
{
    let _bounds = bounds;
    let half = extra(image, costs, place);
    let untaken = more(
        half + costs.cost(Class::Untaken),
        low_number(lines, side, level, behind(image, place)),
    );
    let taken = more(
        half + costs.cost(Class::Taken),
        low_number(lines, side, level, goal),
    );
    is_second(untaken, taken)
}

// One of two places.
fn either(first: bool, a: usize, b: usize) -> usize
    ensures { result ≡ (if first then a else b) }
{
    if first {
        return a;
    }
    b
}

// Where a slot goes on by its unit, whose choices are added.
#[tactic(auto, using(crate::proofs::PartLaws::no_choice))]
fn straight_next(
    image: &Image,
    costs: &Costs,
    lines: &[Line],
    bounds: &[Pair],
    program: &Program,
    pieces: &[Piece],
    place: usize,
    side: Side,
    level: usize,
    choices: &mut Vec<bool>,
) -> Result<Next, Fault>
    requires pieces { ArePieces image.now costs.now pieces.now (read_program program.now) }
    requires low { AreLow lines.now }
    ensures next { IfOk result (λ n. n ≡ straight_at image.now lines.now bounds.now costs.now program.now place side level) }
    ensures choices { IfOk result (λ n. choices.new.items ≡
        choices.old.items ++ straight_choices_at image.now lines.now bounds.now costs.now program.now place side level) }
    ensures only { OnlyMemory result }
{
    match unit_word(image, place) {
        Some(Word::Jump { to: Some(goal) }) => Ok(Next::On(goal as usize)),
        Some(Word::Branch { to: Some(goal) }) => {
            let goal = goal as usize;
            let taken = branch_taken(image, costs, lines, bounds, place, goal, side, level);
            choices.push(taken)?;
            Ok(Next::On(either(taken, goal, behind(image, place))))
        }
        Some(Word::Does { .. }) => Ok(Next::On(behind(image, place))),
        Some(Word::Loop { .. }) => cross(image, costs, program, pieces, place, choices),
        Some(Word::Call { .. }) => cross(image, costs, program, pieces, place, choices),
        _ => Ok(Next::Nowhere),
    }
}

// Out of an abort at a place.
fn out_of(lines: &[Line], place: usize, level: usize) -> Next
    requires { place < 65536 }
    ensures { result ≡ Next.Out (place + 1) (min level (length (stack_of (line_at lines.now place)) - 1)) }
{
    let around = stack_at(lines, place).len();
    Next::Out {
        place: place + 1,
        level: level.min(around.saturating_sub(1)),
    }
}

// Where a slot goes from a rest.
fn rest_at(
    image: &Image,
    costs: &Costs,
    lines: &[Line],
    bounds: &[Pair],
    place: usize,
    side: Side,
    level: usize,
) -> Next
    ensures { result ≡ rest_next image.now (told_by lines.now bounds.now) costs.now (stack_of (line_at lines.now place)) level side }
{
    rest_next(
        image,
        costs,
        lines,
        bounds,
        stack_at(lines, place),
        level,
        side,
    )
}

/// Where a slot goes from a place, and its choices there, which are added. If a fork stands there, its children came before: they all
/// end, or they don't.
#[tactic(auto, using(crate::proofs::PartLaws::no_choice))]
pub fn next_at(
    image: &Image,
    costs: &Costs,
    lines: &[Line],
    bounds: &[Pair],
    program: &Program,
    pieces: &[Piece],
    place: usize,
    side: Side,
    level: usize,
    joined: bool,
    choices: &mut Vec<bool>,
) -> Result<Next, Fault>
    requires pieces { ArePieces image.now costs.now pieces.now (read_program program.now) }
    requires low { AreLow lines.now }
    ensures next { IfOk result (λ n. n ≡ next_at image.now lines.now bounds.now costs.now program.now place side level joined) }
    ensures choices { IfOk result (λ n. choices.new.items ≡
        choices.old.items ++ choices_at image.now lines.now bounds.now costs.now program.now place side level) }
    ensures only { OnlyMemory result }
{
    match instr_in(image, place) {
        Some(Instr::Abrt { .. }) => Ok(Next::On(place + 1)),
        Some(Instr::Leave) => Ok(out_of(lines, place, level)),
        Some(Instr::Eot) => Ok(rest_at(image, costs, lines, bounds, place, side, level)),
        Some(Instr::Fork { .. }) => {
            if joined {
                return Ok(Next::On(place + 1));
            }
            Ok(rest_at(image, costs, lines, bounds, place, side, level))
        }
        Some(Instr::End) => Ok(Next::Stays),
        _ => straight_next(
            image, costs, lines, bounds, program, pieces, place, side, level, choices,
        ),
    }
}
