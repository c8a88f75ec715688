ghost use Rattle.std.specs.Prelude.{◌≡◌, length, map, IfOk, OnOk, OnErr};
ghost use Rattle.pc_meaning.specs.Runs.{before_ticks, ticked, outputs_at, meaning_of};
ghost use Rattle.pc_meaning.specs.Programs.{program_of};
ghost use Rattle.pc_meaning.specs.Moments.{moment};

use crate::cells::Cells;
use crate::layout::{declared, places, rooms};
use crate::places::Room;
use crate::standing::Standing;
use crate::ticking::{show, step};
use pc_grammar::Typed;
use pt_base::{Many, Memory};
use std::alloc::Global;
use std::marker::Model;

/// A program between two ticks.
#[derive(Drop)]
pub struct Meaning<'a> {
    typed: &'a Typed,
    rooms: Vec<Room>,
    /// The places of the inputs, and of the outputs.
    inputs: Vec<u32>,
    outputs: Vec<u32>,
    standing: Standing,
    cells: Cells,
}

impl<'a> Model for Meaning<'a> {
    ghost use Rattle.pc_meaning.specs.Moments.{State, IsLaidOut};
    ghost use Rattle.std.specs.Coded.{codes};
    ghost use denote.Builtin.{u32};
    ghost use Rattle.pc_grammar.specs.contracts.expressions.Expr as e;
    ghost use Rattle.pc_grammar.specs.contracts.statements.Stmt as s;
    ghost use Rattle.pc_meaning.specs.contracts.lefts.Left as l;

    ghost coded = { Prim.hlevel (codes, (e.the_row u32).coded, (s.the_row u32).coded, l.the_row.coded) };

    ghost Value = { State };

    ghost view = { λ m. record { typing = m.typed.now; standing = m.standing; store = m.cells.current } };

    ghost invariant = { λ m. IsLaidOut m.typed.now m.rooms.items m.inputs.items m.outputs.items m.cells };
}

impl<'a> Meaning<'a> {
    /// A program before its first tick.
    pub fn begin(alloc: Global, typed: &'a Typed) -> Result<Meaning<'a>, Memory>
        ensures typing { IfOk result (λ m. m.typing ≡ typed.now) }
        ensures moment { IfOk result (λ m. moment m ≡ before_ticks (program_of typed.now)) }
    {
        let rooms = rooms(alloc, typed.cells())?;
        let inputs = places(alloc, typed.cells(), &rooms, true)?;
        let outputs = places(alloc, typed.cells(), &rooms, false)?;
        let words = declared(alloc, typed.cells())?;
        let cells = Cells::of(alloc, words)?;
        Ok(Meaning {
            typed,
            rooms,
            inputs,
            outputs,
            standing: Standing::Unstarted,
            cells,
        })
    }

    /// How many outputs the program has.
    pub fn width(&self) -> usize
        ensures { result ≡ length (program_of self.now.typing).outputs }
    {
        self.outputs.len()
    }

    /// The next tick: the inputs get the words of `row`, and `out` those of the outputs at its end. Where no memory is
    /// found, all is as before.
    pub fn tick(&mut self, alloc: Global, row: &[i32], out: &mut [i32]) -> Result<(), Memory>
        requires { length out.old ≡ length (program_of self.old.typing).outputs }
        ensures typing { self.new.typing ≡ self.old.typing }
        ensures ticked { OnOk result (moment self.new ≡ ticked (program_of self.old.typing) (moment self.old) row.now) }
        ensures outputs { OnOk result (out.new ≡ outputs_at (program_of self.old.typing) (moment self.new)) }
        ensures kept { OnErr result (self.new ≡ self.old) }
        ensures out_kept { OnErr result (out.new ≡ out.old) }
    {
        let stepped = step(
            alloc,
            &self.standing,
            self.typed,
            &self.rooms,
            &self.inputs,
            row,
            &mut self.cells,
        );
        match stepped {
            Ok(standing) => {
                self.standing = standing;
                self.cells.keep();
                show(&self.outputs, self.cells.current(), out);
                Ok(())
            }
            Err(memory) => {
                self.cells.take_back();
                Err(memory)
            }
        }
    }
}

/// The outputs of each tick, for a list of input rows.
pub fn meaning_of(
    alloc: Global,
    typed: &Typed,
    rows: &[Many<i32>],
) -> Result<Vec<Many<i32>>, Memory>
    ensures { IfOk result (λ ticks. ticks.items ≡ meaning_of (program_of typed.now) rows.now) }
{
    let mut meaning = Meaning::begin(alloc, typed)?;
    let mut ticks = Vec::new(alloc);
    for row in rows {
        let mut out = vec![in alloc; 0; meaning.width()]?;
        meaning.tick(alloc, row.items(), &mut out)?;
        ticks.push(Many::of(out))?;
    }
    Ok(ticks)
}
