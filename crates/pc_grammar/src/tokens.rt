ghost use Rattle.std.specs.Prelude.{◌≡◌};
ghost use Rattle.pc_grammar.specs.Spelling.{spelling_of, keywords, signs};

use pt_base::{Many, Span};

/// What a token is: a name, a number, a keyword (`..Word`) or a sign, named by its look.
#[derive(Clone, Copy)]
pub enum Sort {
    Name,
    Number(u32),
    IntWord,
    VoidWord,
    IfWord,
    ElseWord,
    WhileWord,
    ReturnWord,
    ParWord,
    EotWord,
    AbortWord,
    WeakWord,
    WhenWord,
    PreWord,
    ReactiveInputWord,
    ReactiveOutputWord,
    DoubleLeftAngle,
    DoubleRightAngle,
    LeftAngleEquals,
    RightAngleEquals,
    DoubleEquals,
    BangEquals,
    DoubleAmpersand,
    DoubleBar,
    OpenParenthesis,
    CloseParenthesis,
    OpenBrace,
    CloseBrace,
    OpenBracket,
    CloseBracket,
    Semicolon,
    Comma,
    Equals,
    Plus,
    Minus,
    Star,
    Slash,
    Percent,
    LeftAngle,
    RightAngle,
    Bang,
    Tilde,
    Ampersand,
    Bar,
    Caret,
    Hash,
}

/// A token and its place in the source.
#[derive(Clone, Copy)]
pub struct Token {
    pub sort: Sort,
    pub span: Span,
}

/// The tokens of a source in order, and the number of its bytes.
#[derive(Drop)]
pub struct Tokens {
    pub tokens: Many<Token>,
    pub length: u32,
}

/// The keywords.
const KEYWORDS: [Sort; 14] = [
    Sort::IntWord,
    Sort::VoidWord,
    Sort::IfWord,
    Sort::ElseWord,
    Sort::WhileWord,
    Sort::ReturnWord,
    Sort::ParWord,
    Sort::EotWord,
    Sort::AbortWord,
    Sort::WeakWord,
    Sort::WhenWord,
    Sort::PreWord,
    Sort::ReactiveInputWord,
    Sort::ReactiveOutputWord,
];

/// The signs, longest first.
const SIGNS: [Sort; 30] = [
    Sort::DoubleLeftAngle,
    Sort::DoubleRightAngle,
    Sort::LeftAngleEquals,
    Sort::RightAngleEquals,
    Sort::DoubleEquals,
    Sort::BangEquals,
    Sort::DoubleAmpersand,
    Sort::DoubleBar,
    Sort::OpenParenthesis,
    Sort::CloseParenthesis,
    Sort::OpenBrace,
    Sort::CloseBrace,
    Sort::OpenBracket,
    Sort::CloseBracket,
    Sort::Semicolon,
    Sort::Comma,
    Sort::Equals,
    Sort::Plus,
    Sort::Minus,
    Sort::Star,
    Sort::Slash,
    Sort::Percent,
    Sort::LeftAngle,
    Sort::RightAngle,
    Sort::Bang,
    Sort::Tilde,
    Sort::Ampersand,
    Sort::Bar,
    Sort::Caret,
    Sort::Hash,
];

/// The keywords, in the order of the table.
#[tactic(auto, unfolding(crate::specs::Spelling::keywords))]
pub fn keyword_sorts() -> &'static [Sort]
    ensures { result.now ≡ keywords }
{
    &KEYWORDS
}

/// The signs, longest first.
#[tactic(auto, unfolding(crate::specs::Spelling::signs))]
pub fn sign_sorts() -> &'static [Sort]
    ensures { result.now ≡ signs }
{
    &SIGNS
}

/// The bytes of a keyword or a sign, and none for a name or a number: the one table of what tokens look like.
#[tactic(auto, unfolding(crate::specs::Spelling::spelling_of))]
pub fn spelling(sort: Sort) -> &'static [u8]
    ensures { result.now ≡ spelling_of sort }
{
    match sort {
        Sort::Name | Sort::Number(_) => b"",
        Sort::IntWord => b"int",
        Sort::VoidWord => b"void",
        Sort::IfWord => b"if",
        Sort::ElseWord => b"else",
        Sort::WhileWord => b"while",
        Sort::ReturnWord => b"return",
        Sort::ParWord => b"PAR",
        Sort::EotWord => b"EOT",
        Sort::AbortWord => b"abort",
        Sort::WeakWord => b"weak",
        Sort::WhenWord => b"when",
        Sort::PreWord => b"pre",
        Sort::ReactiveInputWord => b"ReactiveInput",
        Sort::ReactiveOutputWord => b"ReactiveOutput",
        Sort::DoubleLeftAngle => b"<<",
        Sort::DoubleRightAngle => b">>",
        Sort::LeftAngleEquals => b"<=",
        Sort::RightAngleEquals => b">=",
        Sort::DoubleEquals => b"==",
        Sort::BangEquals => b"!=",
        Sort::DoubleAmpersand => b"&&",
        Sort::DoubleBar => b"||",
        Sort::OpenParenthesis => b"(",
        Sort::CloseParenthesis => b")",
        Sort::OpenBrace => b"{",
        Sort::CloseBrace => b"}",
        Sort::OpenBracket => b"[",
        Sort::CloseBracket => b"]",
        Sort::Semicolon => b";",
        Sort::Comma => b",",
        Sort::Equals => b"=",
        Sort::Plus => b"+",
        Sort::Minus => b"-",
        Sort::Star => b"*",
        Sort::Slash => b"/",
        Sort::Percent => b"%",
        Sort::LeftAngle => b"<",
        Sort::RightAngle => b">",
        Sort::Bang => b"!",
        Sort::Tilde => b"~",
        Sort::Ampersand => b"&",
        Sort::Bar => b"|",
        Sort::Caret => b"^",
        Sort::Hash => b"#",
    }
}
