ghost use Rattle.std.specs.Prelude.{◌≡◌, [], ◌∷◌, ◌++◌, OnOk};
ghost use Rattle.pc_grammar.specs.Spelling.{spelling_of};
ghost use Rattle.pc_print.specs.Parts.{text};
ghost use Rattle.pc_print.specs.Canonical.{signed, unary_sign, binary_sign};

use pc_grammar::{Sort, Word, spelling};
use pt_base::{BinOp, Memory, UnOp, put_number};

/// Puts a keyword or a sign at the end.
pub fn put_mark(out: &mut Vec<u8>, sort: Sort) -> Result<(), Memory>
    ensures { OnOk result (out.new.items ≡ out.old.items ++ spelling_of sort) }
{
    out.extend_from_slice(spelling(sort))?;
    Ok(())
}

/// Puts a blank at the end.
pub fn put_blank(out: &mut Vec<u8>) -> Result<(), Memory>
    ensures { OnOk result (out.new.items ≡ out.old.items ++ 32 ∷ []) }
{
    out.push(b' ')?;
    Ok(())
}

/// Puts a name at the end.
pub fn put_word(out: &mut Vec<u8>, word: &Word) -> Result<(), Memory>
    ensures { OnOk result (out.new.items ≡ out.old.items ++ word.now.text) }
{
    out.extend_from_slice(word.text.bytes())?;
    Ok(())
}

/// Puts a word with its sign at the end.
#[tactic(auto, using(crate::proofs::Pieces::pieces_are))]
pub fn put_signed(out: &mut Vec<u8>, value: i32) -> Result<(), Memory>
    ensures { OnOk result (out.new.items ≡ out.old.items ++ text (signed value)) }
{
    if value < 0 {
        put_mark(out, Sort::Minus)?;
        put_number(out, u64::from(value.unsigned_abs()))?;
        return Ok(());
    }
    put_number(out, value as u64)?;
    Ok(())
}

/// The sign of an operator before its operand.
pub fn unary_sort(op: UnOp) -> Sort
    ensures { result ≡ unary_sign op }
{
    match op {
        UnOp::Neg => Sort::Minus,
        UnOp::Not => Sort::Bang,
        UnOp::Flip => Sort::Tilde,
    }
}

/// The sign of an operator between two operands.
pub fn binary_sort(op: BinOp) -> Sort
    ensures { result ≡ binary_sign op }
{
    match op {
        BinOp::Or => Sort::DoubleBar,
        BinOp::And => Sort::DoubleAmpersand,
        BinOp::BitOr => Sort::Bar,
        BinOp::BitXor => Sort::Caret,
        BinOp::BitAnd => Sort::Ampersand,
        BinOp::Equal => Sort::DoubleEquals,
        BinOp::NotEqual => Sort::BangEquals,
        BinOp::Less => Sort::LeftAngle,
        BinOp::LessEqual => Sort::LeftAngleEquals,
        BinOp::Greater => Sort::RightAngle,
        BinOp::GreaterEqual => Sort::RightAngleEquals,
        BinOp::ShiftLeft => Sort::DoubleLeftAngle,
        BinOp::ShiftRight => Sort::DoubleRightAngle,
        BinOp::Add => Sort::Plus,
        BinOp::Sub => Sort::Minus,
        BinOp::Mul => Sort::Star,
        BinOp::Div => Sort::Slash,
        BinOp::Rem => Sort::Percent,
    }
}
