ghost use Rattle.std.specs.Prelude.{◌≡◌, IfOk, IfErr};
ghost use Rattle.pc_parse.specs.Reading.{Refuses};
ghost use Rattle.pc_grammar.specs.Expressions.{IsExpression};
ghost use Rattle.pc_grammar.specs.Lists.{SpellsName};
ghost use Rattle.pc_parse.specs.Lists.{ListTakes, ListFails, ListedTakes, ListedFails, ArgumentsTakes, ArgumentsFails, NameTakes, NameFails, AfterExpression, AfterName};

use crate::expressions::expression;
use crate::reading::{Failure, after, split, word};
use pc_grammar::{Expr, Mark, Sort, Token, Word};
use pt_base::Text;
use sqlite_items::Items;
use std::alloc::Global;

/// One or more expressions with commas between them.
#[tactic(auto, using(crate::proofs::Rows::expression_steps))]
fn expressions<'a>(
    alloc: Global,
    source: &Text,
    tokens: &'a [Token],
) -> Result<(Items<Expr<Word>>, &'a [Token]), Failure>
    ensures ok { IfOk result (λ x. ListTakes (IsExpression source.now) AfterExpression tokens.now x.0 x.1.now) }
    ensures err { IfErr result (λ f. Refuses (ListFails (IsExpression source.now) AfterExpression) tokens.now f) }
{
    let (e, mut left) = expression(alloc, source, tokens)?;
    let mut all = Items::new(alloc);
    all.push(e)?;
    while let Some(next) = after(left, Mark::Comma) {
        let (e, next) = expression(alloc, source, next)?;
        all.push(e)?;
        left = next;
    }
    Ok((all, left))
}

/// The arguments of a call, in their parentheses.
#[tactic(auto, using(crate::proofs::Listed::arguments_steps))]
pub fn arguments<'a>(
    alloc: Global,
    source: &Text,
    tokens: &'a [Token],
) -> Result<(Items<Expr<Word>>, &'a [Token]), Failure>
    ensures ok { IfOk result (λ x. ArgumentsTakes source.now tokens.now x.0 x.1.now) }
    ensures err { IfErr result (λ f. Refuses (ArgumentsFails source.now) tokens.now f) }
{
    let Some(rest) = after(tokens, Mark::OpenParenthesis) else {
        return Err(Failure::Broken(tokens.len()));
    };
    if let Some(last) = after(rest, Mark::CloseParenthesis) {
        return Ok((Items::new(alloc), last));
    }
    let (all, rest) = expressions(alloc, source, rest)?;
    let Some(last) = after(rest, Mark::CloseParenthesis) else {
        return Err(Failure::Broken(rest.len()));
    };
    Ok((all, last))
}

/// The name that comes next.
#[tactic(auto, using(crate::proofs::Rows::name_steps))]
fn name<'a>(
    alloc: Global,
    source: &Text,
    tokens: &'a [Token],
) -> Result<(Word, &'a [Token]), Failure>
    ensures ok { IfOk result (λ x. NameTakes source.now tokens.now x.0 x.1.now) }
    ensures err { IfErr result (λ f. Refuses (NameFails source.now) tokens.now f) }
{
    let Some((token, rest)) = split(tokens) else {
        return Err(Failure::Broken(tokens.len()));
    };
    if let Sort::Name = token.sort {
        return Ok((word(alloc, source, token)?, rest));
    }
    Err(Failure::Broken(tokens.len()))
}

/// One or more names with commas between them, in parentheses.
#[tactic(auto, using(crate::proofs::Listed::names_steps))]
pub fn names<'a>(
    alloc: Global,
    source: &Text,
    tokens: &'a [Token],
) -> Result<(Items<Word>, &'a [Token]), Failure>
    ensures ok { IfOk result (λ x. ListedTakes (SpellsName source.now) tokens.now x.0 x.1.now) }
    ensures err { IfErr result (λ f. Refuses (ListedFails (SpellsName source.now)) tokens.now f) }
{
    let Some(rest) = after(tokens, Mark::OpenParenthesis) else {
        return Err(Failure::Broken(tokens.len()));
    };
    let (all, rest) = name_list(alloc, source, rest)?;
    let Some(last) = after(rest, Mark::CloseParenthesis) else {
        return Err(Failure::Broken(rest.len()));
    };
    Ok((all, last))
}

/// One or more names with commas between them.
#[tactic(auto, using(crate::proofs::Rows::name_list_steps))]
fn name_list<'a>(
    alloc: Global,
    source: &Text,
    tokens: &'a [Token],
) -> Result<(Items<Word>, &'a [Token]), Failure>
    ensures ok { IfOk result (λ x. ListTakes (SpellsName source.now) AfterName tokens.now x.0 x.1.now) }
    ensures err { IfErr result (λ f. Refuses (ListFails (SpellsName source.now) AfterName) tokens.now f) }
{
    let (word, mut left) = name(alloc, source, tokens)?;
    let mut all = Items::new(alloc);
    all.push(word)?;
    while let Some(next) = after(left, Mark::Comma) {
        let (word, next) = name(alloc, source, next)?;
        all.push(word)?;
        left = next;
    }
    Ok((all, left))
}
