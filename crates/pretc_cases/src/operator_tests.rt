use crate::compiled_tests::agree;
use pt_base::{BinOp, UnOp, binary, unary};
use std::test::Fail;

fn gives(op: BinOp, a: i32, b: i32, value: i32) -> bool {
    binary(op, a, b) == value
}

fn gives_alone(op: UnOp, a: i32, value: i32) -> bool {
    unary(op, a) == value
}

#[test]
fn operators_give_their_values(rt: HostRuntime) {
    assert!(rt; gives(BinOp::Div, 7, 0, 0));
    assert!(rt; gives(BinOp::Rem, 7, 0, 7));
    assert!(rt; gives(BinOp::Div, i32::MIN, -1, i32::MIN));
    assert!(rt; gives(BinOp::Rem, i32::MIN, -1, 0));
    assert!(rt; gives(BinOp::Div, -7, 2, -3));
    assert!(rt; gives(BinOp::Rem, -7, 2, -1));
    assert!(rt; gives(BinOp::ShiftLeft, 1, 33, 2));
    assert!(rt; gives(BinOp::ShiftLeft, 1, -1, i32::MIN));
    assert!(rt; gives(BinOp::ShiftRight, -8, 1, -4));
    assert!(rt; gives(BinOp::ShiftRight, -8, 32, -8));
    assert!(rt; gives(BinOp::Mul, 65536, 65536, 0));
    assert!(rt; gives(BinOp::Sub, i32::MIN, 1, 2147483647));
    assert!(rt; gives(BinOp::And, 2, 4, 1));
    assert!(rt; gives(BinOp::Or, 0, 0, 0));
    assert!(rt; gives(BinOp::BitXor, 6, 3, 5));
    assert!(rt; gives(BinOp::Less, i32::MIN, 0, 1));
    assert!(rt; gives(BinOp::GreaterEqual, 3, 3, 1));
    assert!(rt; gives_alone(UnOp::Neg, i32::MIN, i32::MIN));
    assert!(rt; gives_alone(UnOp::Not, 5, 0));
    assert!(rt; gives_alone(UnOp::Flip, 0, -1));
}

// Each operator on the two inputs, and each of one operand on the first.
const OPERATORS: &str = "ReactiveInput int a = 0; ReactiveInput int b = 0;
ReactiveOutput int o0 = 0; ReactiveOutput int o1 = 0; ReactiveOutput int o2 = 0; ReactiveOutput int o3 = 0;
ReactiveOutput int o4 = 0; ReactiveOutput int o5 = 0; ReactiveOutput int o6 = 0; ReactiveOutput int o7 = 0;
ReactiveOutput int o8 = 0; ReactiveOutput int o9 = 0; ReactiveOutput int o10 = 0; ReactiveOutput int o11 = 0;
ReactiveOutput int o12 = 0; ReactiveOutput int o13 = 0; ReactiveOutput int o14 = 0; ReactiveOutput int o15 = 0;
ReactiveOutput int o16 = 0; ReactiveOutput int o17 = 0; ReactiveOutput int o18 = 0; ReactiveOutput int o19 = 0;
ReactiveOutput int o20 = 0;
void main() {
  while (1) {
    o0 = a + b; o1 = a - b; o2 = a * b; o3 = a / b; o4 = a % b; o5 = a << b; o6 = a >> b;
    o7 = a < b; o8 = a <= b; o9 = a > b; o10 = a >= b; o11 = a == b; o12 = a != b; o13 = a & b;
    o14 = a ^ b; o15 = a | b; o16 = a && b; o17 = a || b; o18 = -a; o19 = !a; o20 = ~a;
    EOT;
  }
}";

#[test]
fn operators_of_a_compiled_program_give_their_values(rt: HostRuntime) -> Result<(), Fail> {
    let input = "7 0
-2147483648 -1
-7 2
1 33
-8 1
65536 65536
2 4
-5 -7
0 0
6 3
-8 32
1 -1
";
    let report = "tick 0: 7 7 0 0 7 7 7 0 0 1 1 0 1 0 7 7 0 1 -7 0 -8 cycles 143
tick 1: 2147483647 -2147483647 -2147483648 -2147483648 0 0 -1 1 1 0 0 0 1 -2147483648 2147483647 -1 1 1 -2147483648 0 2147483647 cycles 145
tick 2: -5 -9 -14 -3 -1 -28 -2 1 1 0 0 0 1 0 -5 -5 1 1 7 0 6 cycles 145
tick 3: 34 -32 33 0 1 2 0 1 1 0 0 0 1 1 32 33 1 1 -1 0 -2 cycles 145
tick 4: -7 -9 -8 -8 0 -16 -4 1 1 0 0 0 1 0 -7 -7 1 1 8 0 7 cycles 145
tick 5: 131072 0 0 1 0 65536 65536 0 1 0 1 1 0 65536 0 65536 1 1 -65536 0 -65537 cycles 145
tick 6: 6 -2 8 0 2 32 0 1 1 0 0 0 1 0 6 6 1 1 -2 0 -3 cycles 145
tick 7: -12 2 35 0 -5 -167772160 -1 0 0 1 1 0 1 -7 2 -5 1 1 5 0 4 cycles 145
tick 8: 0 0 0 0 0 0 0 0 1 0 1 1 0 0 0 0 0 0 0 1 -1 cycles 145
tick 9: 9 3 18 2 0 48 0 0 0 1 1 0 1 2 5 7 1 1 -6 0 -7 cycles 145
tick 10: 24 -40 -256 0 -8 -8 -8 1 1 0 0 0 1 32 -40 -8 1 1 8 0 7 cycles 145
tick 11: 0 2 -1 -1 0 -2147483648 0 0 0 1 1 0 1 1 -2 -1 1 1 -1 0 -2 cycles 145
ticks 12 worst 145
";
    assert!(rt; agree(rt.alloc(), OPERATORS, input, report)?);
    Ok(())
}
