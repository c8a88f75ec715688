ghost use Rattle.std.specs.Prelude.{◌≡◌, ◌++◌, map, IfOk, OnOk};
ghost use Rattle.pc_meaning.specs.Values.{element_at, value, operated, holds, value_or_zero, values, put};
ghost use Rattle.pc_meaning.specs.Programs.{room_at, expression_of, operands_of, optional, target_of};

use crate::cells::{Cells, word};
use crate::places::Room;
use pc_grammar::{Expr, Goal};
use pt_base::{BinOp, Memory, binary, unary};
use std::alloc::Global;

/// The words of a cell.
pub fn room(rooms: &[Room], cell: u32) -> Room
    ensures { result ≡ room_at rooms.now cell }
{
    match rooms.get(cell as usize) {
        Some(room) => *room,
        None => Room { first: 0, size: 0 },
    }
}

// The element of an array, and 0 outside of it.
fn element(store: &[i32], room: Room, index: i32) -> i32
    ensures { result ≡ element_at store.now room.first room.size index }
{
    if index < 0 {
        return 0;
    }
    let index = index.cast_unsigned();
    if index < room.size {
        word(store, room.first as usize + index as usize)
    } else {
        0
    }
}

/// The value of an expression.
#[cycle(value)]
#[tactic(auto, using(crate::proofs::Rolled::values))]
pub fn value_of(e: &Expr<u32>, rooms: &[Room], store: &[i32]) -> i32
    ensures { result ≡ value (expression_of rooms.now e.now) store.now }
{
    match e {
        Expr::Number(n) => n.cast_signed(),
        Expr::Var(cell) => word(store, room(rooms, *cell).first as usize),
        Expr::Elem(array, index) => {
            let index = value_of(index.get(), rooms, store);
            element(store, room(rooms, *array), index)
        }
        Expr::Unary(op, e) => unary(*op, value_of(e.get(), rooms, store)),
        Expr::Chain(first, rest) => {
            let first = value_of(first.get(), rooms, store);
            chain(first, rest.as_slice(), rooms, store)
        }
    }
}

#[cycle(value)]
fn chain(first: i32, rest: &[(BinOp, Expr<u32>)], rooms: &[Room], store: &[i32]) -> i32
    ensures { result ≡ operated (operands_of rooms.now rest.now) first store.now }
{
    let mut word = first;
    for (op, e) in rest {
        let next = value_of(e, rooms, store);
        word = binary(*op, word, next);
    }
    word
}

/// Whether a test holds.
pub fn holds(test: &Expr<u32>, rooms: &[Room], store: &[i32]) -> bool
    ensures { result ≡ holds (expression_of rooms.now test.now) store.now }
{
    value_of(test, rooms, store) != 0
}

/// The value of an expression, and 0 where there is none.
pub fn value_or_zero(e: &Option<Expr<u32>>, rooms: &[Room], store: &[i32]) -> i32
    ensures { result ≡ value_or_zero (optional rooms.now e.now) store.now }
{
    match e {
        Some(e) => value_of(e, rooms, store),
        None => 0,
    }
}

/// The values of expressions, from left to right.
pub fn values_of(
    alloc: Global,
    es: &[Expr<u32>],
    rooms: &[Room],
    store: &[i32],
) -> Result<Vec<i32>, Memory>
    ensures { IfOk result (λ words. words.items ≡ values (map (expression_of rooms.now) es.now) store.now) }
{
    let mut words = Vec::new(alloc);
    for e in es {
        words.push(value_of(e, rooms, store))?;
    }
    Ok(words)
}
