ghost use Rattle.std.specs.Prelude.{◌≡◌, [], map, IfOk};
ghost use Rattle.pc_meaning.specs.Programs.{expression_of, target_of, routine_of, numbering_of};
ghost use Rattle.pc_meaning.specs.Tree.{assign, call_of};
ghost use Rattle.pc_meaning.specs.Statements.{routine_at};
ghost use Rattle.pc_meaning.specs.Lefts.{routines_of, tree, trees};
ghost use Rattle.pc_lower.specs.Trees.{read, all_read};
ghost use Rattle.pc_lower.specs.Lowered.{passed, bounded_of, node_of, nodes_of, body_of};
ghost use Rattle.pc_lower.specs.Marks.{AreMarks};

use crate::marks::{Marks, number};
use crate::nodes::{Node, Step, Test};
use crate::steps::{locals, passed, push_taken, push_value, test, test_of_loop};
use pc_grammar::{Expr, Function, Goal, Stmt};
use pc_meaning::Room;
use pt_base::Memory;
use sqlite_items::{Boxed, Items, at};
use std::alloc::Global;

// An assignment.
#[tactic(auto, using(crate::proofs::Trees::nodes))]
fn assigned(
    alloc: Global,
    goal: &Goal<u32>,
    value: &Expr<u32>,
    rooms: &[Room],
) -> Result<Node, Memory>
    ensures { IfOk result (λ node.
        read node ≡ node_of [] (assign (target_of rooms.now goal.now) (expression_of rooms.now value.now))) }
{
    let mut steps = Items::new(alloc);
    push_value(value, rooms, 0, &mut steps)?;
    push_taken(goal, rooms, &mut steps)?;
    Ok(Node::Straight(steps))
}

// The steps of the arguments of a call of the function with this number.
fn arguments_of(
    alloc: Global,
    function: u32,
    arguments: &[Expr<u32>],
    rooms: &[Room],
    functions: &[Function],
) -> Result<Items<Step>, Memory>
    ensures { IfOk result (λ steps.
        let routine = routine_at (routines_of rooms.now functions.now) function in
        steps ≡ passed routine.parameters (map (expression_of rooms.now) arguments.now)) }
{
    let Some(called) = at(functions, function as usize) else {
        return Ok(Items::new(alloc));
    };
    let steps = passed(alloc, called.parameters.as_slice(), arguments, rooms)?;
    Ok(steps)
}

// A call: the arguments go to the parameters, the function runs, and its result goes to the goal.
#[tactic(auto, using(crate::proofs::Trees::nodes))]
fn called(
    alloc: Global,
    goal: &Goal<u32>,
    function: u32,
    arguments: &[Expr<u32>],
    rooms: &[Room],
    functions: &[Function],
) -> Result<Node, Memory>
    ensures { IfOk result (λ node.
        let routines = routines_of rooms.now functions.now in
        let arguments = map (expression_of rooms.now) arguments.now in
        read node ≡ node_of routines (call_of (target_of rooms.now goal.now) function arguments)) }
{
    let before = arguments_of(alloc, function, arguments, rooms, functions)?;
    let mut after = Items::new(alloc);
    push_taken(goal, rooms, &mut after)?;
    let mut parts = Items::new(alloc);
    parts.push(Node::Straight(before))?;
    parts.push(Node::Call(function))?;
    parts.push(Node::Straight(after))?;
    Ok(Node::Sequence(parts))
}

// A loop with a bound; one that makes no turn is nothing.
#[tactic(auto, using(crate::proofs::Trees::nodes))]
fn bounded(alloc: Global, most: u32, test: Option<Test>, body: Node) -> Result<Node, Memory>
    ensures { IfOk result (λ node. read node ≡ bounded_of most test (read body)) }
{
    if most == 0 {
        return Ok(Node::Sequence(Items::new(alloc)));
    }
    Ok(Node::Bounded {
        most,
        test,
        body: Boxed::new(alloc, body)?,
    })
}

/// The node of a statement.
#[cycle(node)]
#[tactic(auto, using(crate::proofs::Trees::nodes))]
pub fn node(
    alloc: Global,
    s: &Stmt<u32>,
    rooms: &[Room],
    functions: &[Function],
    marks: &Marks,
) -> Result<Node, Memory>
    requires { AreMarks marks.now functions.now }
    ensures { IfOk result (λ node.
        read node ≡ node_of (routines_of rooms.now functions.now) (tree rooms.now functions.now s.now)) }
{
    match s {
        Stmt::Skip => Ok(Node::Sequence(Items::new(alloc))),
        Stmt::Assign { goal, value } => assigned(alloc, goal, value, rooms),
        Stmt::Call {
            goal,
            function,
            arguments,
        } => called(
            alloc,
            goal,
            *function,
            arguments.as_slice(),
            rooms,
            functions,
        ),
        Stmt::Block(all) => {
            let parts = nodes(alloc, all.as_slice(), rooms, functions, marks)?;
            Ok(Node::Sequence(parts))
        }
        Stmt::If {
            test: tested,
            yes,
            no,
        } => {
            let test = test(alloc, tested, rooms)?;
            let first = node(alloc, yes.get(), rooms, functions, marks)?;
            let first = Boxed::new(alloc, first)?;
            match no {
                None => {
                    let second = Boxed::new(alloc, Node::Sequence(Items::new(alloc)))?;
                    Ok(Node::Branch {
                        test,
                        first,
                        second,
                    })
                }
                Some(no) => {
                    let second = node(alloc, no.get(), rooms, functions, marks)?;
                    let second = Boxed::new(alloc, second)?;
                    Ok(Node::Branch {
                        test,
                        first,
                        second,
                    })
                }
            }
        }
        Stmt::While {
            span: _,
            test: tested,
            most,
            body,
        } => {
            let test = test_of_loop(alloc, tested, rooms)?;
            let body = node(alloc, body.get(), rooms, functions, marks)?;
            match most {
                None => {
                    let body = Boxed::new(alloc, body)?;
                    Ok(Node::Turns { test, body })
                }
                Some(most) => bounded(alloc, *most, test, body),
            }
        }
        Stmt::Eot(span) => {
            let number = number(&marks.eots, *span)?;
            Ok(Node::Pause(number))
        }
        Stmt::Par { span, threads } => {
            let number = number(&marks.pars, *span)?;
            let threads = Items::from_slice(alloc, threads.as_slice())?;
            Ok(Node::Fork { number, threads })
        }
        Stmt::Abort {
            span,
            weak: _,
            body,
            test: _,
        } => {
            let number = number(&marks.aborts, *span)?;
            let body = node(alloc, body.get(), rooms, functions, marks)?;
            let body = Boxed::new(alloc, body)?;
            Ok(Node::Guard { number, body })
        }
    }
}

/// The nodes of statements.
#[cycle(node)]
#[tactic(auto, using(crate::proofs::Trees::nodes))]
pub fn nodes(
    alloc: Global,
    all: &[Stmt<u32>],
    rooms: &[Room],
    functions: &[Function],
    marks: &Marks,
) -> Result<Items<Node>, Memory>
    requires { AreMarks marks.now functions.now }
    ensures { IfOk result (λ nodes.
        all_read nodes ≡ nodes_of (routines_of rooms.now functions.now) (trees rooms.now functions.now all.now)) }
{
    let mut nodes = Items::new(alloc);
    for s in all {
        let node = node(alloc, s, rooms, functions, marks)?;
        nodes.push(node)?;
    }
    Ok(nodes)
}

/// The node of a function: its locals are set, then comes its body; a result stays in temporary 0.
#[tactic(auto, using(crate::proofs::Trees::nodes))]
pub fn body(
    alloc: Global,
    function: &Function,
    rooms: &[Room],
    functions: &[Function],
    marks: &Marks,
) -> Result<Node, Memory>
    requires { AreMarks marks.now functions.now }
    ensures { IfOk result (λ node.
        read node ≡ body_of (routines_of rooms.now functions.now) (routine_of rooms.now (numbering_of functions.now) function.now)) }
{
    let set = locals(alloc, function.locals.as_slice(), rooms)?;
    let body = nodes(alloc, function.body.as_slice(), rooms, functions, marks)?;
    let mut parts = Items::new(alloc);
    parts.push(Node::Straight(set))?;
    match &function.result {
        None => {
            parts.append(body)?;
            Ok(Node::Sequence(parts))
        }
        Some(e) => {
            let mut steps = Items::new(alloc);
            push_value(e, rooms, 0, &mut steps)?;
            parts.push(Node::Sequence(body))?;
            parts.push(Node::Straight(steps))?;
            Ok(Node::Sequence(parts))
        }
    }
}
