ghost use Rattle.std.specs.Prelude.{◌≡◌, ◌≤◌, ◌&&◌};
ghost use Rattle.std.specs.List.{list_all};
ghost use Rattle.pt_base.specs.Bytes.{is_digit as digit_test};
ghost use Rattle.pc_grammar.specs.Numbers.{is_word, is_hexadecimal, digit_value, value_of, number_of, decimal_of, hexadecimal_of, has_no_leading_zero, is_some_digits, within_32_bits};
ghost use Rattle.pc_grammar.specs.Lexing.{number_front};

use crate::fronts::Front;
use crate::tokens::Sort;
use pt_base::{Rule, is_digit};

/// Whether the byte is a letter, a digit or `_`.
pub fn word_byte(b: u8) -> bool
    ensures { result ≡ is_word b }
{
    is_digit(b) || (64 < b && b < 91) || (96 < b && b < 123) || b == 95
}

fn hexadecimal_digit(b: u8) -> bool
    ensures { result ≡ is_hexadecimal b }
{
    is_digit(b) || (64 < b && b < 71) || (96 < b && b < 103)
}

/// What a digit counts, where it is one; 255 at most in any case.
fn count_of(b: u8) -> u8
    ensures { result ≡ digit_value b }
{
    if b < 58 {
        b.saturating_sub(48)
    } else if b < 71 {
        b - 55
    } else {
        b.saturating_sub(87)
    }
}

/// What the digits spell in the base, where it is a number of 32 bits.
#[tactic(auto, using(crate::proofs::Values::value_steps))]
fn number_in(base: u64, digits: &[u8]) -> Option<u32>
    requires low { 1 ≤ base }
    requires high { base ≤ 16 }
    ensures { result ≡ within_32_bits (Some (value_of base digits.now)) }
{
    let mut value = 0u64;
    for digit in digits {
        value = value * base + u64::from(count_of(*digit));
        if 4_294_967_295 < value {
            return None;
        }
    }
    Some(value as u32)
}

fn all_decimal(digits: &[u8]) -> bool
    ensures { result ≡ list_all digit_test digits.now }
{
    digits.iter().all(|d| is_digit(*d))
}

fn is_decimal(digits: &[u8]) -> bool
    ensures { result ≡ (list_all digit_test digits.now && has_no_leading_zero digits.now) }
{
    all_decimal(digits) && no_leading_zero(digits)
}

fn no_leading_zero(digits: &[u8]) -> bool
    ensures { result ≡ has_no_leading_zero digits.now }
{
    match digits {
        [] => false,
        [_] => true,
        [first, ..] => *first != 48,
    }
}

fn all_hexadecimal(digits: &[u8]) -> bool
    ensures { result ≡ list_all is_hexadecimal digits.now }
{
    digits.iter().all(|d| hexadecimal_digit(*d))
}

fn some_digits(digits: &[u8]) -> bool
    ensures { result ≡ is_some_digits digits.now }
{
    match digits {
        [] => false,
        _ => true,
    }
}

fn is_hexadecimal_digits(digits: &[u8]) -> bool
    ensures { result ≡ (list_all is_hexadecimal digits.now && is_some_digits digits.now) }
{
    all_hexadecimal(digits) && some_digits(digits)
}

#[tactic(auto, unfolding(crate::specs::Numbers::decimal_of))]
fn decimal(digits: &[u8]) -> Front
    ensures { result ≡ number_front (decimal_of digits.now) }
{
    if !is_decimal(digits) {
        return Front::Fault(Rule::L1);
    }
    match number_in(10, digits) {
        Some(value) => Front::Piece(Sort::Number(value)),
        None => Front::Fault(Rule::L2),
    }
}

#[tactic(auto, unfolding(crate::specs::Numbers::hexadecimal_of))]
fn hexadecimal(digits: &[u8]) -> Front
    ensures { result ≡ number_front (hexadecimal_of digits.now) }
{
    if !is_hexadecimal_digits(digits) {
        return Front::Fault(Rule::L1);
    }
    match number_in(16, digits) {
        Some(value) => Front::Piece(Sort::Number(value)),
        None => Front::Fault(Rule::L2),
    }
}

/// The number that a run spells, or the rule that it breaks.
#[tactic(auto, unfolding(crate::specs::Numbers::number_of))]
pub fn number(run: &[u8]) -> Front
    ensures { result ≡ number_front (number_of run.now) }
{
    if run.starts_with(b"0x") {
        hexadecimal(&run[2..])
    } else {
        decimal(run)
    }
}
