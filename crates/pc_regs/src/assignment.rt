ghost use Rattle.std.specs.Prelude.{◌≡◌, max, map};
ghost use Rattle.pc_lower.specs.Trees.{read, all_read, pairs_of, flow_read};
ghost use Rattle.pc_regs.specs.Assignment.{used_by_place, used_by_step, used_by_steps, used_by_test, used_by_option, used_by, used_by_all, used_by_bodies, used_by_aborts, placement_of};

use crate::placement::Placement;
use pc_lower::{Abort, Flow, Node, Place, Step, Test};

// Temporaries are used from 0 on, and up to this one.
fn used_by_place(place: Place) -> usize
    ensures { result ≡ used_by_place place }
{
    match place {
        Place::Temp(k) => k as usize + 1,
        Place::Held(_) => 0,
    }
}

fn used_by_step(step: &Step) -> usize
    ensures { result ≡ used_by_step step.now }
{
    match *step {
        Step::Const { to, .. } => used_by_place(to),
        Step::Load { to, .. } => used_by_place(to),
        Step::Save { by, .. } => used_by_place(by),
        Step::Unary { to, by, .. } => used_by_place(to).max(used_by_place(by)),
        Step::Binary {
            to,
            left,
            right,
            ..
        } => used_by_place(to).max(used_by_place(left).max(used_by_place(right))),
        Step::TakeElement { to, index, .. } => used_by_place(to).max(used_by_place(index)),
        Step::PutElement { index, by, .. } => used_by_place(index).max(used_by_place(by)),
        Step::Move { to, by } => used_by_place(to).max(used_by_place(by)),
    }
}

fn used_by_steps(steps: &[Step]) -> usize
    ensures { result ≡ used_by_steps steps.now }
{
    let mut most = 0;
    for step in steps {
        most = most.max(used_by_step(step));
    }
    most
}

fn used_by_test(test: &Test) -> usize
    ensures { result ≡ used_by_test test.now }
{
    used_by_steps(test.steps.as_slice()).max(used_by_place(test.by))
}

fn used_by_option(test: &Option<Test>) -> usize
    ensures { result ≡ used_by_option test.now }
{
    match test {
        None => 0,
        Some(test) => used_by_test(test),
    }
}

#[cycle(used_by)]
#[tactic(auto, using(pc_lower::proofs::FlowTrees::reads))]
fn used_by(node: &Node) -> usize
    ensures { result ≡ used_by (read node.now) }
{
    match node {
        Node::Straight(steps) => used_by_steps(steps.as_slice()),
        Node::Sequence(nodes) => used_by_all(nodes.as_slice()),
        Node::Branch {
            test,
            first,
            second,
        } => used_by_test(test).max(used_by(first.get()).max(used_by(second.get()))),
        Node::Turns { test, body } => used_by_option(test).max(used_by(body.get())),
        Node::Bounded { test, body, .. } => used_by_option(test).max(used_by(body.get())),
        Node::Call(_) => 0,
        Node::Pause(_) => 0,
        Node::Fork { .. } => 0,
        Node::Guard { body, .. } => used_by(body.get()),
    }
}

#[cycle(used_by)]
fn used_by_all(nodes: &[Node]) -> usize
    ensures { result ≡ used_by_all (all_read nodes.now) }
{
    let mut most = 0;
    for node in nodes {
        most = most.max(used_by(node));
    }
    most
}

fn used_by_bodies(bodies: &[Node]) -> usize
    ensures { result ≡ used_by_bodies (map read bodies.now) }
{
    let mut most = 0;
    for body in bodies {
        most = most.max(used_by(body));
    }
    most
}

fn used_by_aborts(aborts: &[Abort]) -> usize
    ensures { result ≡ used_by_aborts (pairs_of aborts.now) }
{
    let mut most = 0;
    for abort in aborts {
        most = most.max(used_by_test(&abort.test));
    }
    most
}

/// Where the words of a flow stand: there is room for its declared words and for the temporaries that it uses.
pub fn assign(flow: &Flow) -> Placement
    ensures { result ≡ placement_of (flow_read flow.now) }
{
    Placement {
        cells: flow.declared.len(),
        temporaries: used_by_bodies(&flow.bodies).max(used_by_aborts(&flow.aborts)),
        held: 0,
    }
}
