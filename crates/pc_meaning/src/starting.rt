ghost use Rattle.std.specs.Prelude.{◌≡◌, ◌≤◌, length, map, drop, IfOk, OnOk};
ghost use Rattle.pc_meaning.specs.Tree.{block, loop};
ghost use Rattle.pc_meaning.specs.Outcomes.{beside};
ghost use Rattle.pc_meaning.specs.Statements.{turning, routine_at, known_at, called, starting};
ghost use Rattle.pc_meaning.specs.Programs.{expression_of, target_of};
ghost use Rattle.pc_meaning.specs.Lefts.{routines_of, known_of, tree, trees, starts, ends, Started, FunctionStarted, ThreadsStarted};

use crate::cells::Cells;
use crate::lefts::{Left, beside, inside};
use crate::places::Room;
use crate::values::{holds, value_of};
use crate::writes::{assign, put_result, set_arguments, set_locals};
use pc_grammar::{Expr, Function, Goal, Stmt};
use pt_base::Memory;
use sqlite_items::{Boxed, Items, at};
use std::alloc::Global;

/// A statement starts; it may call and start the first `known` functions. Answers what is left of it, if anything.
#[cycle(start)]
#[tactic(auto, using(crate::proofs::Rolled::statements))]
pub fn start(
    alloc: Global,
    s: &Stmt<u32>,
    rooms: &[Room],
    functions: &[Function],
    known: usize,
    cells: &mut Cells,
) -> Result<Option<Left>, Memory>
    requires { known ≤ length functions.now }
    ensures started { IfOk result (λ left.
        Started rooms.now functions.now known (tree rooms.now functions.now s.now) left cells.old.current cells.new.current) }
    ensures before { cells.new.before ≡ cells.old.before }
{
    match s {
        Stmt::Skip => Ok(None),
        Stmt::Assign { goal, value } => {
            let word = value_of(value, rooms, cells.current());
            assign(goal, word, rooms, cells)?;
            Ok(None)
        }
        Stmt::Call {
            goal,
            function,
            arguments,
        } => {
            call(
                alloc,
                *function as usize,
                goal,
                arguments.as_slice(),
                rooms,
                functions,
                known,
                cells,
            )?;
            Ok(None)
        }
        Stmt::Block(all) => start_from(alloc, all.as_slice(), 0, rooms, functions, known, cells),
        Stmt::If { test, yes, no } => {
            if holds(test, rooms, cells.current()) {
                let left = start(alloc, yes.get(), rooms, functions, known, cells)?;
                return inside(alloc, 0, left);
            }
            match no {
                None => Ok(None),
                Some(no) => {
                    let left = start(alloc, no.get(), rooms, functions, known, cells)?;
                    inside(alloc, 1, left)
                }
            }
        }
        Stmt::While {
            span: _,
            test,
            most,
            body,
        } => {
            match most {
                None => start_loop(alloc, body.get(), test, rooms, functions, known, cells),
                Some(most) => {
                    repeat(
                        alloc,
                        body.get(),
                        *most,
                        test,
                        rooms,
                        functions,
                        known,
                        cells,
                    )?;
                    Ok(None)
                }
            }
        }
        Stmt::Eot(_) => Ok(Some(Left::Here)),
        Stmt::Par { span: _, threads } => {
            let lefts = start_threads(alloc, threads.as_slice(), rooms, functions, known, cells)?;
            Ok(beside(lefts))
        }
        Stmt::Abort {
            span: _,
            weak: _,
            body,
            test: _,
        } => {
            let paused = start(alloc, body.get(), rooms, functions, known, cells)?;
            inside(alloc, 0, paused)
        }
    }
}

/// The statements of a list start, one after another, from one of them on.
#[cycle(start)]
#[tactic(auto, using(crate::proofs::Rolled::statements))]
pub fn start_from(
    alloc: Global,
    all: &[Stmt<u32>],
    from: usize,
    rooms: &[Room],
    functions: &[Function],
    known: usize,
    cells: &mut Cells,
) -> Result<Option<Left>, Memory>
    requires { known ≤ length functions.now }
    ensures started { IfOk result (λ left.
        ends rooms.now functions.now (block (trees rooms.now functions.now all.now)) left cells.new.current
        ≡ starts rooms.now functions.now known (block (trees rooms.now functions.now (drop from all.now))) cells.old.current) }
    ensures before { cells.new.before ≡ cells.old.before }
{
    for i in from..all.len() {
        match start(alloc, &all[i], rooms, functions, known, cells)? {
            None => {}
            Some(left) => return Ok(Some(Left::Inside(i, Boxed::new(alloc, left)?))),
        }
    }
    Ok(None)
}

/// A loop without a bound starts.
#[cycle(start)]
#[tactic(auto, using(crate::proofs::Rolled::statements))]
pub fn start_loop(
    alloc: Global,
    body: &Stmt<u32>,
    test: &Expr<u32>,
    rooms: &[Room],
    functions: &[Function],
    known: usize,
    cells: &mut Cells,
) -> Result<Option<Left>, Memory>
    requires { known ≤ length functions.now }
    ensures started { let s = loop (expression_of rooms.now test.now) (tree rooms.now functions.now body.now) in
        IfOk result (λ left. Started rooms.now functions.now known s left cells.old.current cells.new.current) }
    ensures before { cells.new.before ≡ cells.old.before }
{
    if !holds(test, rooms, cells.current()) {
        return Ok(None);
    }
    let left = start(alloc, body, rooms, functions, known, cells)?;
    inside(alloc, 0, left)
}

// A loop makes at most so many turns.
#[cycle(start)]
#[tactic(auto, using(crate::proofs::Rolled::statements))]
fn repeat(
    alloc: Global,
    body: &Stmt<u32>,
    most: u32,
    test: &Expr<u32>,
    rooms: &[Room],
    functions: &[Function],
    known: usize,
    cells: &mut Cells,
) -> Result<(), Memory>
    requires { known ≤ length functions.now }
    ensures turned { let go = starts rooms.now functions.now known (tree rooms.now functions.now body.now) in
        OnOk result (cells.new.current ≡ turning most (expression_of rooms.now test.now) go cells.old.current) }
    ensures before { cells.new.before ≡ cells.old.before }
{
    for turn in 0..most {
        if !holds(test, rooms, cells.current()) {
            return Ok(());
        }
        start(alloc, body, rooms, functions, known, cells)?;
    }
    Ok(())
}

// A function is called: its parameters are set, it runs, and its result goes to the goal.
#[cycle(start)]
fn call(
    alloc: Global,
    function: usize,
    goal: &Goal<u32>,
    arguments: &[Expr<u32>],
    rooms: &[Room],
    functions: &[Function],
    known: usize,
    cells: &mut Cells,
) -> Result<(), Memory>
    requires { known ≤ length functions.now }
    ensures called { let routine = routine_at (routines_of rooms.now functions.now) function in
        let go = known_at (known_of rooms.now functions.now known) function in
        OnOk result (cells.new.current
        ≡ called routine go (target_of rooms.now goal.now) (map (expression_of rooms.now) arguments.now) cells.old.current) }
    ensures before { cells.new.before ≡ cells.old.before }
{
    let Some(called) = at(functions, function) else {
        return assign(goal, 0, rooms, cells);
    };
    set_arguments(alloc, called, arguments, rooms, cells)?;
    start_function(alloc, function, rooms, functions, known, cells)?;
    put_result(called, goal, rooms, cells)
}

/// A function starts, where it is one of the first `known`: its locals are set, and its body starts.
#[cycle(start)]
pub fn start_function(
    alloc: Global,
    function: usize,
    rooms: &[Room],
    functions: &[Function],
    known: usize,
    cells: &mut Cells,
) -> Result<Option<Left>, Memory>
    requires { known ≤ length functions.now }
    ensures started { IfOk result (λ left.
        FunctionStarted rooms.now functions.now known function left cells.old.current cells.new.current) }
    ensures before { cells.new.before ≡ cells.old.before }
{
    if function >= known {
        return Ok(None);
    }
    let started = &functions[function];
    set_locals(started.locals.as_slice(), rooms, cells)?;
    start_from(
        alloc,
        started.body.as_slice(),
        0,
        rooms,
        functions,
        function,
        cells,
    )
}

// Threads start, one after another.
#[cycle(start)]
fn start_threads(
    alloc: Global,
    threads: &[u32],
    rooms: &[Room],
    functions: &[Function],
    known: usize,
    cells: &mut Cells,
) -> Result<Items<Option<Left>>, Memory>
    requires { known ≤ length functions.now }
    ensures started { IfOk result (λ lefts.
        ThreadsStarted rooms.now functions.now known threads.now lefts cells.old.current cells.new.current) }
    ensures before { cells.new.before ≡ cells.old.before }
{
    let mut lefts = Items::new(alloc);
    for thread in threads {
        let left = start_function(alloc, *thread as usize, rooms, functions, known, cells)?;
        lefts.push(left)?;
    }
    Ok(lefts)
}
