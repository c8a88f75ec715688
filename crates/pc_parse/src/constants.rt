ghost use Rattle.std.specs.Prelude.{◌≡◌, pos, neg_ℤ, Some, MatchOption, IfOk, IfErr};
ghost use Rattle.pt_base.specs.Operators.{word_of};
ghost use Rattle.pc_grammar.specs.Refusing.{first};
ghost use Rattle.pc_parse.specs.Reading.{Comes, Refuses};
ghost use Rattle.pc_parse.specs.Constants.{EndedTakes, EndedFails, StartTakes, StartFails};

use crate::reading::{Failure, after, split};
use crate::settings::number_at;
use pc_grammar::{Mark, Sort, Token};

/// The tokens after a `-`, where one comes next.
fn after_minus(tokens: &[Token]) -> Option<&[Token]>
    ensures { MatchOption result (first tokens.now ≡ Some Sort.Minus → ⊥) (λ rest. Comes Sort.Minus tokens.now rest.now) }
{
    let (token, rest) = split(tokens)?;
    if let Sort::Minus = token.sort {
        return Some(rest);
    }
    None
}

/// A number and the semicolon behind it.
#[tactic(auto, using(crate::proofs::Starts::ended_steps))]
fn ended_number(tokens: &[Token]) -> Result<(u32, &[Token]), Failure>
    ensures ok { IfOk result (λ x. EndedTakes tokens.now x.0 x.1.now) }
    ensures err { IfErr result (λ f. Refuses EndedFails tokens.now f) }
{
    let Some((value, rest)) = number_at(tokens) else {
        return Err(Failure::Broken(tokens.len()));
    };
    let Some(last) = after(rest, Mark::Semicolon) else {
        return Err(Failure::Broken(rest.len()));
    };
    Ok((value, last))
}

/// The word of a number.
fn positive_word(value: u32) -> i32
    ensures { result ≡ word_of (pos value) }
{
    0i32.wrapping_add_unsigned(value)
}

/// The word of a number with `-` before it.
fn negative_word(value: u32) -> i32
    ensures { result ≡ word_of (neg_ℤ (pos value)) }
{
    0i32.wrapping_sub_unsigned(value)
}

/// The word that a cell starts with: `= n ;` or `= - n ;`, modulo 2^32.
#[tactic(auto, using(crate::proofs::Starts::start_steps))]
pub fn start(tokens: &[Token]) -> Result<(i32, &[Token]), Failure>
    ensures ok { IfOk result (λ x. StartTakes tokens.now x.0 x.1.now) }
    ensures err { IfErr result (λ f. Refuses StartFails tokens.now f) }
{
    let Some(constant) = after(tokens, Mark::Equals) else {
        return Err(Failure::Broken(tokens.len()));
    };
    if let Some(number) = after_minus(constant) {
        let (value, last) = ended_number(number)?;
        return Ok((negative_word(value), last));
    }
    let (value, last) = ended_number(constant)?;
    Ok((positive_word(value), last))
}
