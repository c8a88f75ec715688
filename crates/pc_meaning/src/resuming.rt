ghost use Rattle.std.specs.Prelude.{◌≡◌, IfOk, slice_get};
ghost use Rattle.pc_meaning.specs.Tree.{block};
ghost use Rattle.pc_meaning.specs.Lefts.{left_of, routines_of, body_of, tree, trees, ends, resumes, resumes_thread};
ghost use Rattle.pc_meaning.specs.Lefts.{Resumed, ThreadsResumed};
ghost use Rattle.pc_meaning.specs.declared.lefts.Left.TheVariants.{Inside};

use crate::cells::Cells;
use crate::lefts::{Left, beside, inside};
use crate::places::Room;
use crate::starting::{start_from, start_loop};
use crate::values::holds;
use pc_grammar::{Function, Stmt};
use pt_base::Memory;
use sqlite_items::{Boxed, Items, at};
use std::alloc::Global;

/// What is left of a statement goes on. Answers what is left of it then, if anything.
#[cycle(resume)]
#[tactic(auto, using(crate::proofs::Rolled::statements, crate::proofs::Leaving::lefts))]
fn resume(
    alloc: Global,
    left: &Left,
    s: &Stmt<u32>,
    rooms: &[Room],
    functions: &[Function],
    cells: &mut Cells,
) -> Result<Option<Left>, Memory>
    ensures resumed { IfOk result (λ o.
        Resumed rooms.now functions.now cells.old.before (tree rooms.now functions.now s.now) left.now o
        cells.old.current cells.new.current) }
    ensures before { cells.new.before ≡ cells.old.before }
{
    match left {
        Left::Here => Ok(None),
        Left::Beside(lefts) => {
            match s {
                Stmt::Par { span: _, threads } => {
                    let lefts = resume_threads(
                        alloc,
                        lefts.as_slice(),
                        threads.as_slice(),
                        rooms,
                        functions,
                        cells,
                    )?;
                    Ok(beside(lefts))
                }
                _ => Ok(None),
            }
        }
        Left::Inside(part, left) => {
            match s {
                Stmt::Block(all) => {
                    resume_from(
                        alloc,
                        left.get(),
                        all.as_slice(),
                        *part,
                        rooms,
                        functions,
                        cells,
                    )
                }
                Stmt::If { test: _, yes, no } => {
                    if *part == 0 {
                        let left = resume(alloc, left.get(), yes.get(), rooms, functions, cells)?;
                        return inside(alloc, 0, left);
                    }
                    match no {
                        None => Ok(None),
                        Some(no) => {
                            let left = resume(
                                alloc,
                                left.get(),
                                no.get(),
                                rooms,
                                functions,
                                cells,
                            )?;
                            inside(alloc, 1, left)
                        }
                    }
                }
                Stmt::While {
                    span: _,
                    test,
                    most,
                    body,
                } => {
                    if most.is_some() {
                        return Ok(None);
                    }
                    match resume(alloc, left.get(), body.get(), rooms, functions, cells)? {
                        None => {
                            start_loop(
                                alloc,
                                body.get(),
                                test,
                                rooms,
                                functions,
                                functions.len(),
                                cells,
                            )
                        }
                        Some(left) => Ok(Some(Left::Inside(0, Boxed::new(alloc, left)?))),
                    }
                }
                Stmt::Abort {
                    span: _,
                    weak,
                    body,
                    test,
                } => {
                    let fires = holds(test, rooms, cells.before());
                    if !*weak && fires {
                        return Ok(None);
                    }
                    let left = resume(alloc, left.get(), body.get(), rooms, functions, cells)?;
                    if fires {
                        return Ok(None);
                    }
                    inside(alloc, 0, left)
                }
                _ => Ok(None),
            }
        }
    }
}

// What is left of a statement of a list goes on, and then come those behind it.
#[cycle(resume)]
#[tactic(auto, using(crate::proofs::Rolled::statements, crate::proofs::Leaving::lefts))]
fn resume_from(
    alloc: Global,
    left: &Left,
    all: &[Stmt<u32>],
    part: usize,
    rooms: &[Room],
    functions: &[Function],
    cells: &mut Cells,
) -> Result<Option<Left>, Memory>
    ensures resumed { let s = block (trees rooms.now functions.now all.now) in
        IfOk result (λ o.
        ends rooms.now functions.now s o cells.new.current
        ≡ resumes rooms.now functions.now cells.old.before
        (left_of (routines_of rooms.now functions.now) (Inside part left.now) s) cells.old.current) }
    ensures before { cells.new.before ≡ cells.old.before }
{
    if part >= all.len() {
        return Ok(None);
    }
    match resume(alloc, left, &all[part], rooms, functions, cells)? {
        None => start_from(
            alloc,
            all,
            part + 1,
            rooms,
            functions,
            functions.len(),
            cells,
        ),
        Some(left) => Ok(Some(Left::Inside(part, Boxed::new(alloc, left)?))),
    }
}

/// What is left of a function goes on.
#[cycle(resume)]
#[tactic(auto, using(crate::proofs::Leaving::lefts))]
pub fn resume_function(
    alloc: Global,
    left: &Left,
    function: usize,
    rooms: &[Room],
    functions: &[Function],
    cells: &mut Cells,
) -> Result<Option<Left>, Memory>
    ensures resumed { IfOk result (λ o.
        Resumed rooms.now functions.now cells.old.before
        (body_of (routines_of rooms.now functions.now) function) left.now o
        cells.old.current cells.new.current) }
    ensures before { cells.new.before ≡ cells.old.before }
{
    let Left::Inside(part, left) = left else {
        return Ok(None);
    };
    let Some(resumed) = at(functions, function) else {
        return Ok(None);
    };
    resume_from(
        alloc,
        left.get(),
        resumed.body.as_slice(),
        *part,
        rooms,
        functions,
        cells,
    )
}

// What is left of a thread goes on, if anything is.
#[cycle(resume)]
fn resume_thread(
    alloc: Global,
    left: &Option<Left>,
    thread: u32,
    rooms: &[Room],
    functions: &[Function],
    cells: &mut Cells,
) -> Result<Option<Left>, Memory>
    ensures resumed { IfOk result (λ o.
        ends rooms.now functions.now (body_of (routines_of rooms.now functions.now) thread) o cells.new.current
        ≡ resumes_thread rooms.now functions.now cells.old.before left.now thread cells.old.current) }
    ensures before { cells.new.before ≡ cells.old.before }
{
    match left {
        None => Ok(None),
        Some(left) => resume_function(alloc, left, thread as usize, rooms, functions, cells),
    }
}

// A number of a list, where there is one.
fn number_at(numbers: &[u32], place: usize) -> Option<u32>
    ensures { result ≡ slice_get numbers.now place }
{
    match numbers.get(place) {
        Some(number) => Some(*number),
        None => None,
    }
}

// What is left of threads goes on, one after another.
#[cycle(resume)]
fn resume_threads(
    alloc: Global,
    lefts: &[Option<Left>],
    threads: &[u32],
    rooms: &[Room],
    functions: &[Function],
    cells: &mut Cells,
) -> Result<Items<Option<Left>>, Memory>
    ensures resumed { IfOk result (λ next.
        ThreadsResumed rooms.now functions.now cells.old.before threads.now lefts.now next cells.old.current cells.new.current) }
    ensures before { cells.new.before ≡ cells.old.before }
{
    let mut next = Items::new(alloc);
    for (i, left) in lefts.iter().enumerate() {
        let Some(thread) = number_at(threads, i) else {
            return Ok(next);
        };
        let state = resume_thread(alloc, left, thread, rooms, functions, cells)?;
        next.push(state)?;
    }
    Ok(next)
}
