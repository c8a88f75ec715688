ghost use Rattle.std.specs.Prelude.{◌≡◌, min, map, IfOk};
ghost use Rattle.pc_rules.specs.Nests.{greatest, called_height, function_height, heights};

use crate::known::known_of;
use pc_grammar::{Function, Stmt};
use pt_base::{MOST_HEIGHT, Memory};
use std::alloc::Global;

/// The height that stands for itself and for every greater one.
const TALL: u64 = MOST_HEIGHT as u64 + 1;

#[cycle(called)]
fn called(s: &Stmt<u32>, known: &[u64]) -> u64
    ensures { result ≡ called_height known.now s.now }
{
    match s {
        Stmt::Skip => 0,
        Stmt::Assign { .. } => 0,
        Stmt::Call {
            goal: _,
            function,
            arguments: _,
        } => known_of(known, *function as usize),
        Stmt::Block(all) => all_called(all.as_slice(), known),
        Stmt::If { test: _, yes, no } => {
            let first = called(yes.get(), known);
            match no {
                None => first,
                Some(no) => first.max(called(no.get(), known)),
            }
        }
        Stmt::While {
            span: _,
            test: _,
            most: _,
            body,
        } => called(body.get(), known),
        Stmt::Eot(_) => 0,
        Stmt::Par { .. } => 0,
        Stmt::Abort {
            span: _,
            weak: _,
            body,
            test: _,
        } => called(body.get(), known),
    }
}

#[cycle(called)]
fn all_called(all: &[Stmt<u32>], known: &[u64]) -> u64
    ensures { result ≡ greatest (map (called_height known.now) all.now) }
{
    let mut most = 0;
    for s in all {
        most = most.max(called(s, known));
    }
    most
}

fn height(f: &Function, known: &[u64]) -> u64
    ensures { result ≡ min TALL (function_height known.now f.now) }
{
    all_called(f.body.as_slice(), known)
        .saturating_add(1)
        .min(TALL)
}

/// The height of each function, each from those before it.
pub fn height_of_each(alloc: Global, functions: &[Function]) -> Result<Vec<u64>, Memory>
    ensures { IfOk result (λ known. known.items ≡ map (min TALL) (heights functions.now)) }
{
    let mut known: Vec<u64> = Vec::new(alloc);
    for f in functions {
        let one = height(f, &known);
        known.push(one)?;
    }
    Ok(known)
}
