ghost use Rattle.std.specs.Prelude.{◌≡◌};
ghost use Rattle.pt_base.specs.Operators.{unary_of, binary_of};

/// An operator before its operand: `-`, `!`, `~`.
#[derive(Clone, Copy, Debug, PartialEq, Eq)]
pub enum UnOp {
    Neg,
    Not,
    Flip,
}

/// An operator between two operands, loosest level first:
/// `||`; `&&`; `|`; `^`; `&`; `== !=`; `< <= > >=`; `<< >>`; `+ -`; `* / %`.
#[derive(Clone, Copy, Debug, PartialEq, Eq)]
pub enum BinOp {
    Or,
    And,
    BitOr,
    BitXor,
    BitAnd,
    Equal,
    NotEqual,
    Less,
    LessEqual,
    Greater,
    GreaterEqual,
    ShiftLeft,
    ShiftRight,
    Add,
    Sub,
    Mul,
    Div,
    Rem,
}

/// The word that an operator gives for a word.
pub fn unary(op: UnOp, a: i32) -> i32
    ensures { result ≡ unary_of op a }
{
    match op {
        UnOp::Neg => a.wrapping_neg(),
        UnOp::Not => i32::from(a == 0),
        UnOp::Flip => !a,
    }
}

/// The word that an operator gives for two words.
pub fn binary(op: BinOp, a: i32, b: i32) -> i32
    ensures { result ≡ binary_of op a b }
{
    match op {
        BinOp::Or => i32::from(a != 0 || b != 0),
        BinOp::And => i32::from(a != 0 && b != 0),
        BinOp::BitOr => a | b,
        BinOp::BitXor => a ^ b,
        BinOp::BitAnd => a & b,
        BinOp::Equal => i32::from(a == b),
        BinOp::NotEqual => i32::from(a != b),
        BinOp::Less => i32::from(a < b),
        BinOp::LessEqual => i32::from(a <= b),
        BinOp::Greater => i32::from(a > b),
        BinOp::GreaterEqual => i32::from(a >= b),
        BinOp::ShiftLeft => a.wrapping_shl(b.cast_unsigned()),
        BinOp::ShiftRight => a.wrapping_shr(b.cast_unsigned()),
        BinOp::Add => a.wrapping_add(b),
        BinOp::Sub => a.wrapping_sub(b),
        BinOp::Mul => a.wrapping_mul(b),
        BinOp::Div => { if b == 0 { 0 } else { a.wrapping_div(b) } }
        BinOp::Rem => { if b == 0 { a } else { a.wrapping_rem(b) } }
    }
}
