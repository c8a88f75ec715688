ghost use Rattle.std.specs.Prelude.{◌≡◌, ◌++◌, replicate, IfOk, OnOk};
ghost use Rattle.pc_meaning.specs.Programs.{rooms_of, declared_of, wanted, chosen};

use crate::places::Room;
use pc_grammar::{Cell, CellKind};
use pt_base::Memory;
use sqlite_items::at;
use std::alloc::Global;

/// The rooms of cells, one cell after another. More words than a `u32` counts are more than memory holds.
pub fn rooms(alloc: Global, cells: &[Cell]) -> Result<Vec<Room>, Memory>
    ensures { IfOk result (λ rooms. rooms.items ≡ rooms_of cells.now) }
{
    let mut rooms = Vec::new(alloc);
    let mut place: u32 = 0;
    for cell in cells {
        rooms.push(Room {
            first: place,
            size: cell.size,
        })?;
        let Some(next) = place.checked_add(cell.size) else {
            return Err(Memory);
        };
        place = next;
    }
    Ok(rooms)
}

// So many times a word behind others.
fn push_words(words: &mut Vec<i32>, count: u32, word: i32) -> Result<(), Memory>
    ensures { OnOk result (words.new.items ≡ words.old.items ++ replicate count word) }
{
    for _turn in 0..count {
        words.push(word)?;
    }
    Ok(())
}

/// The words that cells are declared with.
pub fn declared(alloc: Global, cells: &[Cell]) -> Result<Vec<i32>, Memory>
    ensures { IfOk result (λ words. words.items ≡ declared_of cells.now) }
{
    let mut words = Vec::new(alloc);
    for cell in cells {
        push_words(&mut words, cell.size, cell.start)?;
    }
    Ok(words)
}

// Whether a cell is an input, or an output.
fn is_wanted(kind: CellKind, input: bool) -> bool
    ensures { result ≡ wanted input kind }
{
    match kind {
        CellKind::Input => input,
        CellKind::Output => !input,
        _ => false,
    }
}

/// The places of the inputs, or of the outputs.
pub fn places(
    alloc: Global,
    cells: &[Cell],
    rooms: &[Room],
    input: bool,
) -> Result<Vec<u32>, Memory>
    ensures { IfOk result (λ places. places.items ≡ chosen (wanted input) cells.now rooms.now) }
{
    let mut places = Vec::new(alloc);
    for (i, cell) in cells.iter().enumerate() {
        let Some(room) = at(rooms, i) else {
            return Ok(places);
        };
        if is_wanted(cell.kind, input) {
            places.push(room.first)?;
        }
    }
    Ok(places)
}
