ghost use Rattle.std.specs.Prelude.{◌≡◌, ◌++◌, map, IfOk, OnOk};
ghost use Rattle.pc_meaning.specs.Programs as programs;
ghost use Rattle.pc_meaning.specs.Programs.{place_of, expression_of, target_of, optional, locals_of};
ghost use Rattle.pc_lower.specs.Lowered.{steps_of, operands_of, test_of, loop_test, taken, passed, steps_or_zero, locals_steps};

use crate::nodes::{Place, Step, Test};
use pc_grammar::{Expr, Goal};
use pc_meaning::{Room, room};
use pt_base::{BinOp, Memory};
use sqlite_items::Items;
use std::alloc::Global;

/// The steps of an expression come behind others: its word comes into the temporary `to`, by those from there on.
#[cycle(push_value)]
#[tactic(auto, using(crate::proofs::Trees::values))]
pub fn push_value(
    e: &Expr<u32>,
    rooms: &[Room],
    to: u32,
    steps: &mut Items<Step>,
) -> Result<(), Memory>
    ensures { OnOk result (steps.new ≡ steps.old ++ steps_of (expression_of rooms.now e.now) to) }
{
    let place = Place::Temp(to);
    match e {
        Expr::Number(n) => {
            steps.push(Step::Const {
                to: place,
                word: n.cast_signed(),
            })?;
            Ok(())
        }
        Expr::Var(cell) => {
            let word = room(rooms, *cell).first;
            steps.push(Step::Load { to: place, word })?;
            Ok(())
        }
        Expr::Elem(array, index) => {
            push_value(index.get(), rooms, to, steps)?;
            let Room { first, size } = room(rooms, *array);
            steps.push(Step::TakeElement {
                to: place,
                first,
                size,
                index: place,
            })?;
            Ok(())
        }
        Expr::Unary(op, e) => {
            push_value(e.get(), rooms, to, steps)?;
            steps.push(Step::Unary {
                op: *op,
                to: place,
                by: place,
            })?;
            Ok(())
        }
        Expr::Chain(first, rest) => {
            push_value(first.get(), rooms, to, steps)?;
            push_operands(rest.as_slice(), rooms, to, steps)
        }
    }
}

// Each operand of a chain goes to the temporary behind that of the chain.
#[cycle(push_value)]
#[tactic(auto, using(crate::proofs::Trees::values))]
fn push_operands(
    rest: &[(BinOp, Expr<u32>)],
    rooms: &[Room],
    to: u32,
    steps: &mut Items<Step>,
) -> Result<(), Memory>
    ensures { OnOk result (steps.new ≡ steps.old ++ operands_of (programs.operands_of rooms.now rest.now) to) }
{
    let Some(next) = to.checked_add(1) else {
        return Err(Memory);
    };
    for (op, e) in rest {
        push_value(e, rooms, next, steps)?;
        steps.push(Step::Binary {
            op: *op,
            to: Place::Temp(to),
            left: Place::Temp(to),
            right: Place::Temp(next),
        })?;
    }
    Ok(())
}

/// The test that an expression is.
pub fn test(alloc: Global, e: &Expr<u32>, rooms: &[Room]) -> Result<Test, Memory>
    ensures { IfOk result (λ t. t ≡ test_of (expression_of rooms.now e.now)) }
{
    let mut steps = Items::new(alloc);
    push_value(e, rooms, 0, &mut steps)?;
    Ok(Test {
        steps,
        by: Place::Temp(0),
    })
}

/// The test of a loop. A number that isn't 0 has none.
#[tactic(auto, using(crate::proofs::Trees::values))]
pub fn test_of_loop(alloc: Global, e: &Expr<u32>, rooms: &[Room]) -> Result<Option<Test>, Memory>
    ensures { IfOk result (λ t. t ≡ loop_test (expression_of rooms.now e.now)) }
{
    if let Expr::Number(n) = e
        && *n != 0
    {
        return Ok(None);
    }
    let test = test(alloc, e, rooms)?;
    Ok(Some(test))
}

/// Temporary 0 goes to a goal.
#[tactic(auto, using(crate::proofs::Trees::values))]
pub fn push_taken(goal: &Goal<u32>, rooms: &[Room], steps: &mut Items<Step>) -> Result<(), Memory>
    ensures { OnOk result (steps.new ≡ steps.old ++ taken (target_of rooms.now goal.now)) }
{
    match goal {
        Goal::Nothing => Ok(()),
        Goal::Var(cell) => {
            let word = room(rooms, *cell).first;
            steps.push(Step::Save {
                word,
                by: Place::Temp(0),
            })?;
            Ok(())
        }
        Goal::Elem(array, index) => {
            push_value(index, rooms, 1, steps)?;
            let Room { first, size } = room(rooms, *array);
            steps.push(Step::PutElement {
                first,
                size,
                index: Place::Temp(1),
                by: Place::Temp(0),
            })?;
            Ok(())
        }
    }
}

/// The steps of the arguments of a call: each parameter is saved as soon as its argument is there.
#[tactic(auto, using(crate::proofs::Trees::values))]
pub fn passed(
    alloc: Global,
    parameters: &[u32],
    arguments: &[Expr<u32>],
    rooms: &[Room],
) -> Result<Items<Step>, Memory>
    ensures { IfOk result (λ steps.
        steps ≡ passed (map (place_of rooms.now) parameters.now) (map (expression_of rooms.now) arguments.now)) }
{
    let mut steps = Items::new(alloc);
    for (i, parameter) in parameters.iter().enumerate() {
        let Some(argument) = arguments.get(i) else {
            return Ok(steps);
        };
        push_value(argument, rooms, 0, &mut steps)?;
        steps.push(Step::Save {
            word: room(rooms, *parameter).first,
            by: Place::Temp(0),
        })?;
    }
    Ok(steps)
}

// The word of a value, and 0 where there is none, comes to temporary 0.
fn push_value_or_zero(
    value: &Option<Expr<u32>>,
    rooms: &[Room],
    steps: &mut Items<Step>,
) -> Result<(), Memory>
    ensures { OnOk result (steps.new ≡ steps.old ++ steps_or_zero (optional rooms.now value.now)) }
{
    match value {
        None => {
            steps.push(Step::Const {
                to: Place::Temp(0),
                word: 0,
            })?;
            Ok(())
        }
        Some(e) => push_value(e, rooms, 0, steps),
    }
}

/// The steps that set the locals of a function.
#[tactic(auto, using(crate::proofs::Trees::values))]
pub fn locals(
    alloc: Global,
    locals: &[(u32, Option<Expr<u32>>)],
    rooms: &[Room],
) -> Result<Items<Step>, Memory>
    ensures { IfOk result (λ steps. steps ≡ locals_steps (locals_of rooms.now locals.now)) }
{
    let mut steps = Items::new(alloc);
    for (local, value) in locals {
        push_value_or_zero(value, rooms, &mut steps)?;
        steps.push(Step::Save {
            word: room(rooms, *local).first,
            by: Place::Temp(0),
        })?;
    }
    Ok(steps)
}
