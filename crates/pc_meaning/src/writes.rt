ghost use Rattle.std.specs.Prelude.{◌≡◌, OnOk, map};
ghost use Rattle.pc_meaning.specs.Values.{with_element, values, put, set_all, set_locals};
ghost use Rattle.pc_meaning.specs.Statements.{returned};
ghost use Rattle.pc_meaning.specs.Programs.{Numbering, place_of, expression_of, target_of, locals_of, routine_of};

use crate::cells::Cells;
use crate::places::Room;
use crate::values::{room, value_of, value_or_zero, values_of};
use pc_grammar::{Expr, Function, Goal};
use pt_base::Memory;
use std::alloc::Global;

// The element of an array is set, and nothing outside of it.
fn set_element(cells: &mut Cells, room: Room, index: i32, word: i32) -> Result<(), Memory>
    ensures current { OnOk result (cells.new.current ≡ with_element cells.old.current room.first room.size index word) }
    ensures before { cells.new.before ≡ cells.old.before }
{
    if index < 0 {
        return Ok(());
    }
    let index = index.cast_unsigned();
    if index < room.size {
        cells.set(room.first as usize + index as usize, word)
    } else {
        Ok(())
    }
}

/// A word goes to its goal.
pub fn assign(goal: &Goal<u32>, word: i32, rooms: &[Room], cells: &mut Cells) -> Result<(), Memory>
    ensures current { OnOk result (cells.new.current ≡ put (target_of rooms.now goal.now) word cells.old.current) }
    ensures before { cells.new.before ≡ cells.old.before }
{
    match goal {
        Goal::Nothing => Ok(()),
        Goal::Var(cell) => cells.set(room(rooms, *cell).first as usize, word),
        Goal::Elem(array, index) => {
            let index = value_of(index, rooms, cells.current());
            set_element(cells, room(rooms, *array), index, word)
        }
    }
}

// Words go to cells, one after another.
fn set_parameters(
    parameters: &[u32],
    words: &[i32],
    rooms: &[Room],
    cells: &mut Cells,
) -> Result<(), Memory>
    ensures current { OnOk result (cells.new.current ≡ set_all (map (place_of rooms.now) parameters.now) words.now cells.old.current) }
    ensures before { cells.new.before ≡ cells.old.before }
{
    for (i, parameter) in parameters.iter().enumerate() {
        let Some(word) = words.get(i) else {
            return Ok(());
        };
        cells.set(room(rooms, *parameter).first as usize, *word)?;
    }
    Ok(())
}

/// Locals are set in their order, one without a value to 0.
pub fn set_locals(
    locals: &[(u32, Option<Expr<u32>>)],
    rooms: &[Room],
    cells: &mut Cells,
) -> Result<(), Memory>
    ensures current { OnOk result (cells.new.current ≡ set_locals (locals_of rooms.now locals.now) cells.old.current) }
    ensures before { cells.new.before ≡ cells.old.before }
{
    for (local, value) in locals {
        let word = value_or_zero(value, rooms, cells.current());
        cells.set(room(rooms, *local).first as usize, word)?;
    }
    Ok(())
}

/// The values of a call's arguments go to the parameters of its function.
pub fn set_arguments(
    alloc: Global,
    function: &Function,
    arguments: &[Expr<u32>],
    rooms: &[Room],
    cells: &mut Cells,
) -> Result<(), Memory>
    ensures current { OnOk result (cells.new.current
        ≡ set_all (map (place_of rooms.now) function.now.parameters)
        (values (map (expression_of rooms.now) arguments.now) cells.old.current) cells.old.current) }
    ensures before { cells.new.before ≡ cells.old.before }
{
    let words = values_of(alloc, arguments, rooms, cells.current())?;
    set_parameters(function.parameters.as_slice(), &words, rooms, cells)
}

/// The result of a function goes to the goal of its call.
pub fn put_result(
    function: &Function,
    goal: &Goal<u32>,
    rooms: &[Room],
    cells: &mut Cells,
) -> Result<(), Memory>
    ensures current { (n : Numbering) →
        OnOk result (cells.new.current
        ≡ returned (routine_of rooms.now n function.now) (target_of rooms.now goal.now) cells.old.current) }
    ensures before { cells.new.before ≡ cells.old.before }
{
    let word = value_or_zero(&function.result, rooms, cells.current());
    assign(goal, word, rooms, cells)
}
