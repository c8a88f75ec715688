ghost use Rattle.std.specs.Prelude.{◌≡◌, IsTrue, ◌↔◌};
ghost use Rattle.pc_grammar.specs.Signs.{sort_of, opens_of, closes_of, opening_of, binary_in, unary_in, level_of};

use crate::tokens::Sort;
use pt_base::{BinOp, UnOp};

/// How many levels of operators there are.
pub const LEVELS: u32 = 10;

/// A token that the grammar asks for at a place.
#[derive(Clone, Copy)]
pub enum Mark {
    OpenParenthesis,
    CloseParenthesis,
    OpenBracket,
    CloseBracket,
    OpenBrace,
    CloseBrace,
    Equals,
    Semicolon,
    Comma,
    Hash,
    IntWord,
    ElseWord,
    ReturnWord,
    AbortWord,
    WhenWord,
    PreWord,
}

/// Two tokens between which an expression stands: `( )`, `[ ]`, `= ;` and `return ;`.
#[derive(Clone, Copy)]
pub enum Pair {
    Parentheses,
    Brackets,
    Assignment,
    Result,
}

/// What an operand begins with.
#[derive(Clone, Copy)]
pub enum OperandOpening {
    Number(u32),
    Name,
    Unary(UnOp),
    Parenthesis,
    Nothing,
}

/// Whether a token of this sort is the mark.
pub fn is_mark(sort: Sort, mark: Mark) -> bool
    ensures { IsTrue result ↔ sort ≡ sort_of mark }
{
    match mark {
        Mark::OpenParenthesis => matches!(sort, Sort::OpenParenthesis),
        Mark::CloseParenthesis => matches!(sort, Sort::CloseParenthesis),
        Mark::OpenBracket => matches!(sort, Sort::OpenBracket),
        Mark::CloseBracket => matches!(sort, Sort::CloseBracket),
        Mark::OpenBrace => matches!(sort, Sort::OpenBrace),
        Mark::CloseBrace => matches!(sort, Sort::CloseBrace),
        Mark::Equals => matches!(sort, Sort::Equals),
        Mark::Semicolon => matches!(sort, Sort::Semicolon),
        Mark::Comma => matches!(sort, Sort::Comma),
        Mark::Hash => matches!(sort, Sort::Hash),
        Mark::IntWord => matches!(sort, Sort::IntWord),
        Mark::ElseWord => matches!(sort, Sort::ElseWord),
        Mark::ReturnWord => matches!(sort, Sort::ReturnWord),
        Mark::AbortWord => matches!(sort, Sort::AbortWord),
        Mark::WhenWord => matches!(sort, Sort::WhenWord),
        Mark::PreWord => matches!(sort, Sort::PreWord),
    }
}

/// The first of the two tokens.
pub fn opens(pair: Pair) -> Mark
    ensures { sort_of result ≡ opens_of pair }
{
    match pair {
        Pair::Parentheses => Mark::OpenParenthesis,
        Pair::Brackets => Mark::OpenBracket,
        Pair::Assignment => Mark::Equals,
        Pair::Result => Mark::ReturnWord,
    }
}

/// The last of the two tokens.
pub fn closes(pair: Pair) -> Mark
    ensures { sort_of result ≡ closes_of pair }
{
    match pair {
        Pair::Parentheses => Mark::CloseParenthesis,
        Pair::Brackets => Mark::CloseBracket,
        Pair::Assignment | Pair::Result => Mark::Semicolon,
    }
}

/// The operator that a token is before its operand.
#[tactic(auto, unfolding(crate::specs::Signs::unary_in))]
fn unary_operator(sort: Sort) -> Option<UnOp>
    ensures { result ≡ unary_in sort }
{
    match sort {
        Sort::Minus => Some(UnOp::Neg),
        Sort::Bang => Some(UnOp::Not),
        Sort::Tilde => Some(UnOp::Flip),
        _ => None,
    }
}

/// What an operand is that begins with a token of this sort.
#[tactic(auto, unfolding(crate::specs::Signs::opening_of))]
pub fn operand_opening(sort: Sort) -> OperandOpening
    ensures { result ≡ opening_of sort }
{
    match sort {
        Sort::Number(value) => OperandOpening::Number(value),
        Sort::Name => OperandOpening::Name,
        Sort::OpenParenthesis => OperandOpening::Parenthesis,
        _ => {
            match unary_operator(sort) {
                Some(op) => OperandOpening::Unary(op),
                None => OperandOpening::Nothing,
            }
        }
    }
}

/// The operator that a token is between two operands.
#[tactic(auto, unfolding(crate::specs::Signs::binary_in))]
pub fn binary_operator(sort: Sort) -> Option<BinOp>
    ensures { result ≡ binary_in sort }
{
    match sort {
        Sort::DoubleBar => Some(BinOp::Or),
        Sort::DoubleAmpersand => Some(BinOp::And),
        Sort::Bar => Some(BinOp::BitOr),
        Sort::Caret => Some(BinOp::BitXor),
        Sort::Ampersand => Some(BinOp::BitAnd),
        Sort::DoubleEquals => Some(BinOp::Equal),
        Sort::BangEquals => Some(BinOp::NotEqual),
        Sort::LeftAngle => Some(BinOp::Less),
        Sort::LeftAngleEquals => Some(BinOp::LessEqual),
        Sort::RightAngle => Some(BinOp::Greater),
        Sort::RightAngleEquals => Some(BinOp::GreaterEqual),
        Sort::DoubleLeftAngle => Some(BinOp::ShiftLeft),
        Sort::DoubleRightAngle => Some(BinOp::ShiftRight),
        Sort::Plus => Some(BinOp::Add),
        Sort::Minus => Some(BinOp::Sub),
        Sort::Star => Some(BinOp::Mul),
        Sort::Slash => Some(BinOp::Div),
        Sort::Percent => Some(BinOp::Rem),
        _ => None,
    }
}

/// The level of an operator, from the tightest, 1, to the loosest, 10.
#[tactic(auto, unfolding(crate::specs::Signs::level_of))]
pub fn level_number(op: BinOp) -> u32
    ensures { result ≡ level_of op }
{
    match op {
        BinOp::Mul | BinOp::Div | BinOp::Rem => 1,
        BinOp::Add | BinOp::Sub => 2,
        BinOp::ShiftLeft | BinOp::ShiftRight => 3,
        BinOp::Less | BinOp::LessEqual | BinOp::Greater | BinOp::GreaterEqual => 4,
        BinOp::Equal | BinOp::NotEqual => 5,
        BinOp::BitAnd => 6,
        BinOp::BitXor => 7,
        BinOp::BitOr => 8,
        BinOp::And => 9,
        BinOp::Or => 10,
    }
}
