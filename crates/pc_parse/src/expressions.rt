ghost use Rattle.std.specs.Prelude.{◌≡◌, ◌<◌, ◌≤◌, ◌∷◌, Some, MatchOption, IfOk, IfErr};
ghost use Rattle.pc_grammar.specs.Refusing.{first, IsRefused};
ghost use Rattle.pc_parse.specs.Reading.{Refuses};
ghost use Rattle.pc_grammar.specs.Expressions.{grown, IsExpression, OneTree};
ghost use Rattle.pc_parse.specs.Expressions.{NoneNext, ComesNext, OperandTakes, OperandFails, BetweenTakes, BetweenFails, LevelTakes, LevelFails};

use crate::reading::{Failure, after, comes, split, word};
use pc_grammar::{
    Expr, LEVELS, Mark, OperandOpening, Pair, Sort, Token, Word, binary_operator, closes,
    level_number, opens, operand_opening,
};
use pt_base::{BinOp, MOST_EXPRESSION_LEVELS, Text};
use sqlite_items::{Boxed, Items};
use std::alloc::{AllocError, Global};

/// The operator of the level that comes next, and the tokens after it.
#[tactic(auto, using(crate::proofs::Holds::next_steps))]
fn operator_at(tokens: &[Token], level: u32) -> Option<(BinOp, &[Token])>
    requires { 0 < level }
    ensures { MatchOption result (NoneNext level tokens.now) (λ p. ComesNext level tokens.now p.0 p.1.now) }
{
    let (token, rest) = split(tokens)?;
    let Some(op) = binary_operator(token.sort) else {
        return None;
    };
    if level_number(op) != level {
        return None;
    }
    Some((op, rest))
}

/// One operand alone is its own tree.
fn chain_of(
    alloc: Global,
    head: Expr<Word>,
    rest: Items<(BinOp, Expr<Word>)>,
) -> Result<Expr<Word>, AllocError>
    ensures { IfOk result (λ e. e ≡ grown head rest) }
{
    if rest.is_empty() {
        return Ok(head);
    }
    Ok(Expr::Chain(Boxed::new(alloc, head)?, rest))
}

/// The expression of a level at the front of the tokens, and the tokens after it. `room` is how many levels of nesting are
/// left. Level 0 is an operand, and level 10 has the loosest operators.
#[cycle(expression)]
#[tactic(auto, using(crate::proofs::Chains::chain_steps))]
fn chain_at<'a>(
    alloc: Global,
    source: &Text,
    tokens: &'a [Token],
    room: u32,
    level: u32,
) -> Result<(Expr<Word>, &'a [Token]), Failure>
    requires { level ≤ 10 }
    ensures ok { IfOk result (λ x. LevelTakes source.now room level tokens.now x.0 x.1.now) }
    ensures err { IfErr result (λ f. Refuses (LevelFails source.now room level) tokens.now f) }
{
    if level == 0 {
        return operand(alloc, source, tokens, room);
    }
    let (head, mut left) = chain_at(alloc, source, tokens, room, level - 1)?;
    let mut rest = Items::new(alloc);
    while let Some((op, after)) = operator_at(left, level) {
        let (e, after) = chain_at(alloc, source, after, room, level - 1)?;
        rest.push((op, e))?;
        left = after;
    }
    Ok((chain_of(alloc, head, rest)?, left))
}

/// The expression between two tokens at the front, and the tokens after both.
#[cycle(expression)]
#[tactic(auto, using(crate::proofs::Pairs::between_steps))]
pub fn between<'a>(
    alloc: Global,
    source: &Text,
    tokens: &'a [Token],
    room: u32,
    pair: Pair,
) -> Result<(Expr<Word>, &'a [Token]), Failure>
    ensures ok { IfOk result (λ x. BetweenTakes source.now room pair tokens.now x.0 x.1.now) }
    ensures err { IfErr result (λ f. Refuses (BetweenFails source.now room pair) tokens.now f) }
{
    let Some(rest) = after(tokens, opens(pair)) else {
        return Err(Failure::Broken(tokens.len()));
    };
    let (e, rest) = chain_at(alloc, source, rest, room, LEVELS)?;
    let Some(last) = after(rest, closes(pair)) else {
        return Err(Failure::Broken(rest.len()));
    };
    Ok((e, last))
}

/// The operand at the front of the tokens, and the tokens after it. An index stands behind a name alone, so a bracket
/// behind another operand is refused.
#[cycle(expression)]
#[tactic(auto, using(crate::proofs::Operands::operand_steps))]
fn operand<'a>(
    alloc: Global,
    source: &Text,
    tokens: &'a [Token],
    room: u32,
) -> Result<(Expr<Word>, &'a [Token]), Failure>
    ensures ok { IfOk result (λ x. OperandTakes source.now room tokens.now x.0 x.1.now) }
    ensures err { IfErr result (λ f. Refuses (OperandFails source.now room) tokens.now f) }
{
    let Some((token, rest)) = split(tokens) else {
        return Err(Failure::Broken(tokens.len()));
    };
    match operand_opening(token.sort) {
        OperandOpening::Number(value) => {
            if comes(rest, Mark::OpenBracket) {
                return Err(Failure::Broken(rest.len()));
            }
            Ok((Expr::Number(value), rest))
        }
        OperandOpening::Name => {
            if comes(rest, Mark::OpenBracket) {
                return element(alloc, source, token, rest, room);
            }
            Ok((Expr::Var(word(alloc, source, token)?), rest))
        }
        OperandOpening::Unary(op) => {
            if room == 0 {
                return Err(Failure::Broken(tokens.len()));
            }
            let (e, last) = operand(alloc, source, rest, room - 1)?;
            Ok((Expr::Unary(op, Boxed::new(alloc, e)?), last))
        }
        OperandOpening::Parenthesis => {
            if room == 0 {
                return Err(Failure::Broken(tokens.len()));
            }
            let (e, last) = between(alloc, source, tokens, room - 1, Pair::Parentheses)?;
            if comes(last, Mark::OpenBracket) {
                return Err(Failure::Broken(last.len()));
            }
            Ok((e, last))
        }
        OperandOpening::Nothing => Err(Failure::Broken(tokens.len())),
    }
}

/// The element that a name and the index behind it are, and the tokens after it.
#[cycle(expression)]
#[tactic(auto, using(crate::proofs::Operands::element_steps))]
fn element<'a>(
    alloc: Global,
    source: &Text,
    token: Token,
    rest: &'a [Token],
    room: u32,
) -> Result<(Expr<Word>, &'a [Token]), Failure>
    requires name { token.sort ≡ Sort.Name }
    requires index { first rest.now ≡ Some Sort.OpenBracket }
    ensures ok { IfOk result (λ x. OperandTakes source.now room (token ∷ rest.now) x.0 x.1.now) }
    ensures err { IfErr result (λ f. Refuses (OperandFails source.now room) (token ∷ rest.now) f) }
{
    if room == 0 {
        return Err(Failure::Broken(rest.len()));
    }
    let (index, last) = between(alloc, source, rest, room - 1, Pair::Brackets)?;
    if comes(last, Mark::OpenBracket) {
        return Err(Failure::Broken(last.len()));
    }
    let name = word(alloc, source, token)?;
    Ok((Expr::Elem(name, Boxed::new(alloc, index)?), last))
}

/// The expression at the front of the tokens, and the tokens after it.
pub fn expression<'a>(
    alloc: Global,
    source: &Text,
    tokens: &'a [Token],
) -> Result<(Expr<Word>, &'a [Token]), Failure>
    ensures ok { IfOk result (λ x. LevelTakes source.now MOST_EXPRESSION_LEVELS LEVELS tokens.now x.0 x.1.now) }
    ensures err { IfErr result (λ f. Refuses (LevelFails source.now MOST_EXPRESSION_LEVELS LEVELS) tokens.now f) }
{
    chain_at(alloc, source, tokens, MOST_EXPRESSION_LEVELS, LEVELS)
}

/// The expression that all the tokens spell.
#[tactic(auto, using(crate::proofs::WholeExpression::whole_steps))]
pub fn whole_expression(
    alloc: Global,
    source: &Text,
    tokens: &[Token],
) -> Result<Expr<Word>, Failure>
    ensures ok { IfOk result (λ e. IsExpression source.now tokens.now e) }
    ensures err { IfErr result (λ f. Refuses (IsRefused (IsExpression source.now)) tokens.now f) }
{
    let (e, rest) = expression(alloc, source, tokens)?;
    if rest.len() == 0 {
        return Ok(e);
    }
    Err(Failure::Broken(rest.len()))
}

/// No list of tokens spells two trees.
pub fn one_tree()
    ensures { OneTree }
{}
