ghost use Rattle.std.specs.Prelude.{◌≡◌, ◌∷◌, Some, MatchOption, IfOk, IfErr};
ghost use Rattle.pc_parse.specs.Reading.{Refuses};
ghost use Rattle.pc_parse.specs.Settings.{CallComes, NoCall, NumberComes, NoNumber, SettingTakes, SettingFails, LoopTakes, LoopFails, TestTakes, TestFails};

use crate::expressions::between;
use crate::lists::arguments;
use crate::reading::{Failure, after, comes, split, word};
use pc_grammar::{Expr, Goal, Mark, Pair, Sort, Stmt, Token, Word};
use pt_base::{MOST_EXPRESSION_LEVELS, Text};
use std::alloc::Global;

/// The function that `= name (` calls, and the tokens from the parenthesis on.
#[tactic(auto, using(crate::proofs::Calls::called_steps))]
fn called(tokens: &[Token]) -> Option<(Token, &[Token])>
    ensures { MatchOption result (NoCall tokens.now) (λ p. CallComes tokens.now p.0 p.1.now) }
{
    let Some(value) = after(tokens, Mark::Equals) else {
        return None;
    };
    let Some((function, rest)) = split(value) else {
        return None;
    };
    let Sort::Name = function.sort else {
        return None;
    };
    if comes(rest, Mark::OpenParenthesis) {
        return Some((function, rest));
    }
    None
}

/// What a goal is set to: `= e ;` or `= f ( .. ) ;`.
#[tactic(auto, using(crate::proofs::Calls::setting_steps))]
pub fn setting<'a>(
    alloc: Global,
    source: &Text,
    goal: Goal<Word>,
    tokens: &'a [Token],
) -> Result<(Stmt<Word>, &'a [Token]), Failure>
    ensures ok { IfOk result (λ x. SettingTakes source.now goal tokens.now x.0 x.1.now) }
    ensures err { IfErr result (λ f. Refuses (SettingFails source.now goal) tokens.now f) }
{
    let Some((token, rest)) = called(tokens) else {
        let (value, last) = between(
            alloc,
            source,
            tokens,
            MOST_EXPRESSION_LEVELS,
            Pair::Assignment,
        )?;
        return Ok((Stmt::Assign { goal, value }, last));
    };
    let (arguments, rest) = arguments(alloc, source, rest)?;
    let Some(last) = after(rest, Mark::Semicolon) else {
        return Err(Failure::Broken(rest.len()));
    };
    let function = word(alloc, source, token)?;
    Ok((
        Stmt::Call {
            goal,
            function,
            arguments,
        },
        last,
    ))
}

/// The number that comes next, and the tokens after it.
pub fn number_at(tokens: &[Token]) -> Option<(u32, &[Token])>
    ensures { MatchOption result (NoNumber tokens.now) (λ p. NumberComes tokens.now p.0 p.1.now) }
{
    let Some((token, rest)) = split(tokens) else {
        return None;
    };
    let Sort::Number(value) = token.sort else {
        return None;
    };
    Some((value, rest))
}

/// The test of a loop, and its bound where it has one: `( e )` or `( e ) # n`.
#[tactic(auto, using(crate::proofs::Loops::loop_steps))]
pub fn loop_head<'a>(
    alloc: Global,
    source: &Text,
    tokens: &'a [Token],
) -> Result<(Expr<Word>, Option<u32>, &'a [Token]), Failure>
    ensures ok { IfOk result (λ x. LoopTakes source.now tokens.now (x.0, x.1) x.2.now) }
    ensures err { IfErr result (λ f. Refuses (LoopFails source.now) tokens.now f) }
{
    let (test, rest) = between(
        alloc,
        source,
        tokens,
        MOST_EXPRESSION_LEVELS,
        Pair::Parentheses,
    )?;
    let Some(bound) = after(rest, Mark::Hash) else {
        return Ok((test, None, rest));
    };
    let Some((most, last)) = number_at(bound) else {
        return Err(Failure::Broken(bound.len()));
    };
    Ok((test, Some(most), last))
}

/// The condition of an abort: `when pre ( e ) ;`.
#[tactic(auto, using(crate::proofs::Loops::test_steps))]
pub fn abort_test<'a>(
    alloc: Global,
    source: &Text,
    tokens: &'a [Token],
) -> Result<(Expr<Word>, &'a [Token]), Failure>
    ensures ok { IfOk result (λ x. TestTakes source.now tokens.now x.0 x.1.now) }
    ensures err { IfErr result (λ f. Refuses (TestFails source.now) tokens.now f) }
{
    let Some(pre) = after(tokens, Mark::WhenWord) else {
        return Err(Failure::Broken(tokens.len()));
    };
    let Some(rest) = after(pre, Mark::PreWord) else {
        return Err(Failure::Broken(pre.len()));
    };
    let (test, rest) = between(
        alloc,
        source,
        rest,
        MOST_EXPRESSION_LEVELS,
        Pair::Parentheses,
    )?;
    let Some(last) = after(rest, Mark::Semicolon) else {
        return Err(Failure::Broken(rest.len()));
    };
    Ok((test, last))
}
