ghost use Rattle.std.specs.Prelude.{◌<◌, IsTrue};
ghost use Rattle.pc_regs.specs.Placement.{is_placed};
ghost use Rattle.pc_lower_cases.specs.declared.operator_tests.TheConstants.{PLACEMENT};

use crate::runs::{comes_of, machine_of};
use pc_lower::{Place, Step};
use pc_regs::Placement;
use pt_base::{BinOp, Memory, UnOp, binary, unary};
use std::alloc::Global;
use std::test::Fail;

// Values at the edges of what operators tell apart.
const EDGES: [i32; 8] = [0, 1, -1, 31, 32, 33, i32::MIN, i32::MAX];

const UNARY: [UnOp; 3] = [UnOp::Neg, UnOp::Not, UnOp::Flip];

const BINARY: [BinOp; 18] = [
    BinOp::Or,
    BinOp::And,
    BinOp::BitOr,
    BinOp::BitXor,
    BinOp::BitAnd,
    BinOp::Equal,
    BinOp::NotEqual,
    BinOp::Less,
    BinOp::LessEqual,
    BinOp::Greater,
    BinOp::GreaterEqual,
    BinOp::ShiftLeft,
    BinOp::ShiftRight,
    BinOp::Add,
    BinOp::Sub,
    BinOp::Mul,
    BinOp::Div,
    BinOp::Rem,
];

// Room for three cells, and for ten temporaries in registers and three in the memory.
const PLACEMENT: Placement = Placement {
    cells: 3,
    temporaries: 13,
    held: 0,
};

const MEMORY: [i32; 6] = [0; 6];

// A temporary in the memory or in a register.
fn temporary(in_memory: bool, number: u32) -> Place
    requires { number < 3 }
    ensures { IsTrue (is_placed PLACEMENT result) }
{
    if in_memory {
        return Place::Temp(10 + number);
    }
    Place::Temp(number)
}

// Whether the words of an operator on two words give what it gives, with its result and operands in these places.
fn binary_so(alloc: Global, op: BinOp, to: Place, left: Place, right: Place) -> Result<bool, Memory>
    requires to { IsTrue (is_placed PLACEMENT to) }
    requires left { IsTrue (is_placed PLACEMENT left) }
    requires right { IsTrue (is_placed PLACEMENT right) }
{
    let steps = [
        Step::Load { to: left, word: 0 },
        Step::Load { to: right, word: 1 },
        Step::Binary {
            op,
            to,
            left,
            right,
        },
        Step::Save { word: 2, by: to },
    ];
    let Some(mut machine) = machine_of(alloc, PLACEMENT, &steps, &MEMORY)? else {
        return Ok(false);
    };
    for a in &EDGES {
        for b in &EDGES {
            if comes_of(&mut machine, *a, *b) != Some(binary(op, *a, *b)) {
                return Ok(false);
            }
        }
    }
    Ok(true)
}

// Whether the words of an operator on one word give what it gives, with its result and operand in these places.
fn unary_so(alloc: Global, op: UnOp, to: Place, by: Place) -> Result<bool, Memory>
    requires to { IsTrue (is_placed PLACEMENT to) }
    requires by { IsTrue (is_placed PLACEMENT by) }
{
    let steps = [
        Step::Load { to: by, word: 0 },
        Step::Unary { op, to, by },
        Step::Save { word: 2, by: to },
    ];
    let Some(mut machine) = machine_of(alloc, PLACEMENT, &steps, &MEMORY)? else {
        return Ok(false);
    };
    for a in &EDGES {
        if comes_of(&mut machine, *a, 0) != Some(unary(op, *a)) {
            return Ok(false);
        }
    }
    Ok(true)
}

#[test]
fn words_of_operators_on_two_words(rt: HostRuntime) -> Result<(), Fail> {
    for op in &BINARY {
        for to in [false, true] {
            for left in [false, true] {
                for right in [false, true] {
                    let to = temporary(to, 0);
                    let left = temporary(left, 1);
                    let right = temporary(right, 2);
                    assert!(rt; binary_so(rt.alloc(), *op, to, left, right)?);
                    // the result where an operand stood
                    assert!(rt; binary_so(rt.alloc(), *op, left, left, right)?);
                    assert!(rt; binary_so(rt.alloc(), *op, right, left, right)?);
                }
            }
        }
    }
    Ok(())
}

#[test]
fn words_of_operators_on_one_word(rt: HostRuntime) -> Result<(), Fail> {
    for op in &UNARY {
        for to in [false, true] {
            for by in [false, true] {
                let to = temporary(to, 0);
                let by = temporary(by, 1);
                assert!(rt; unary_so(rt.alloc(), *op, to, by)?);
                assert!(rt; unary_so(rt.alloc(), *op, by, by)?);
            }
        }
    }
    Ok(())
}
