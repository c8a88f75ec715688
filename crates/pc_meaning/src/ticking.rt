ghost use Rattle.std.specs.Prelude.{◌≡◌, length, IfOk, OnOk};
ghost use Rattle.pc_meaning.specs.Values.{set_all};
ghost use Rattle.pc_meaning.specs.Runs.{words_at};
ghost use Rattle.pc_meaning.specs.Programs.{program_of, rooms_of};
ghost use Rattle.pc_meaning.specs.Moments.{Goes, Steps};

use crate::cells::{Cells, word};
use crate::places::Room;
use crate::resuming::resume_function;
use crate::standing::{Standing, standing_after};
use crate::starting::start_function;
use pc_grammar::Typed;
use pt_base::Memory;
use std::alloc::Global;

// Words go to places, one after another.
fn sample(places: &[u32], row: &[i32], cells: &mut Cells) -> Result<(), Memory>
    ensures current { OnOk result (cells.new.current ≡ set_all places.now row.now cells.old.current) }
    ensures before { cells.new.before ≡ cells.old.before }
{
    for (i, place) in places.iter().enumerate() {
        let Some(word) = row.get(i) else {
            return Ok(());
        };
        cells.set(*place as usize, *word)?;
    }
    Ok(())
}

// `main` starts or goes on, unless it has ended.
fn go(
    alloc: Global,
    standing: &Standing,
    typed: &Typed,
    rooms: &[Room],
    cells: &mut Cells,
) -> Result<Standing, Memory>
    requires { rooms.now ≡ rooms_of typed.now.cells }
    ensures went { IfOk result (λ after.
        Goes (program_of typed.now) standing.now after cells.old.before cells.old.current cells.new.current) }
    ensures before { cells.new.before ≡ cells.old.before }
{
    let main = typed.main() as usize;
    let functions = typed.functions();
    match standing {
        Standing::Unstarted => {
            let left = start_function(alloc, main, rooms, functions, functions.len(), cells)?;
            Ok(standing_after(left))
        }
        Standing::At(left) => {
            let left = resume_function(alloc, left, main, rooms, functions, cells)?;
            Ok(standing_after(left))
        }
        Standing::Ended => Ok(Standing::Ended),
    }
}

/// A tick: the inputs are set, and `main` starts or goes on.
pub fn step(
    alloc: Global,
    standing: &Standing,
    typed: &Typed,
    rooms: &[Room],
    inputs: &[u32],
    row: &[i32],
    cells: &mut Cells,
) -> Result<Standing, Memory>
    requires rooms { rooms.now ≡ rooms_of typed.now.cells }
    requires inputs { inputs.now ≡ (program_of typed.now).inputs }
    requires rest { cells.old.current ≡ cells.old.before }
    ensures stepped { IfOk result (λ after.
        Steps (program_of typed.now) row.now standing.now after cells.old.current cells.new.current) }
    ensures before { cells.new.before ≡ cells.old.before }
{
    sample(inputs, row, cells)?;
    go(alloc, standing, typed, rooms, cells)
}

/// The words at places go into `out`, in order.
pub fn show(places: &[u32], store: &[i32], out: &mut [i32])
    requires { length out.old ≡ length places.now }
    ensures { out.new ≡ words_at places.now store.now }
{
    for (i, place) in places.iter().enumerate() {
        out[i] = word(store, *place as usize);
    }
}
