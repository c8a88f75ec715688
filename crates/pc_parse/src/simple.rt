ghost use Rattle.std.specs.Prelude.{◌≡◌, IfOk, IfErr};
ghost use Rattle.pc_parse.specs.Reading.{Refuses};
ghost use Rattle.pc_parse.specs.Simple.{beginning_of, NamedTakes, NamedFails, SimpleTakes, SimpleFails};

use crate::expressions::between;
use crate::lists::{arguments, names};
use crate::reading::{Failure, after, comes, split, word};
use crate::settings::setting;
use pc_grammar::{Goal, Mark, Pair, Sort, Stmt, Token, Word};
use pt_base::{MOST_EXPRESSION_LEVELS, Text};
use std::alloc::Global;

/// What a statement begins with.
#[derive(Clone, Copy)]
pub enum StatementOpening {
    Skip,
    Name,
    Eot,
    Par,
    Block,
    If,
    While,
    Abort,
    Weak,
    Nothing,
}

/// What a statement is that begins with a token of this sort.
#[tactic(auto, unfolding(crate::specs::Simple::beginning_of))]
pub fn statement_beginning(sort: Sort) -> StatementOpening
    ensures { result ≡ beginning_of sort }
{
    match sort {
        Sort::Semicolon => StatementOpening::Skip,
        Sort::Name => StatementOpening::Name,
        Sort::EotWord => StatementOpening::Eot,
        Sort::ParWord => StatementOpening::Par,
        Sort::OpenBrace => StatementOpening::Block,
        Sort::IfWord => StatementOpening::If,
        Sort::WhileWord => StatementOpening::While,
        Sort::AbortWord => StatementOpening::Abort,
        Sort::WeakWord => StatementOpening::Weak,
        _ => StatementOpening::Nothing,
    }
}

/// What stands behind a name that begins a statement: `= ..`, `[ .. ] = ..` or `( .. ) ;`.
#[tactic(auto, using(crate::proofs::Named::named_steps))]
fn named<'a>(
    alloc: Global,
    source: &Text,
    name: Word,
    tokens: &'a [Token],
) -> Result<(Stmt<Word>, &'a [Token]), Failure>
    ensures ok { IfOk result (λ x. NamedTakes source.now name tokens.now x.0 x.1.now) }
    ensures err { IfErr result (λ f. Refuses (NamedFails source.now name) tokens.now f) }
{
    if comes(tokens, Mark::OpenParenthesis) {
        let (arguments, rest) = arguments(alloc, source, tokens)?;
        let Some(last) = after(rest, Mark::Semicolon) else {
            return Err(Failure::Broken(rest.len()));
        };
        return Ok((
            Stmt::Call {
                goal: Goal::Nothing,
                function: name,
                arguments,
            },
            last,
        ));
    }
    if comes(tokens, Mark::OpenBracket) {
        let (index, rest) = between(
            alloc,
            source,
            tokens,
            MOST_EXPRESSION_LEVELS,
            Pair::Brackets,
        )?;
        return setting(alloc, source, Goal::Elem(name, index), rest);
    }
    setting(alloc, source, Goal::Var(name), tokens)
}

/// A statement that holds no statement: `;`, one that begins with a name, `EOT ;` or `PAR ( .. ) ;`.
#[tactic(auto, using(crate::proofs::Plain::simple_steps))]
pub fn simple_statement<'a>(
    alloc: Global,
    source: &Text,
    tokens: &'a [Token],
) -> Result<(Stmt<Word>, &'a [Token]), Failure>
    ensures ok { IfOk result (λ x. SimpleTakes source.now tokens.now x.0 x.1.now) }
    ensures err { IfErr result (λ f. Refuses (SimpleFails source.now) tokens.now f) }
{
    let Some((token, rest)) = split(tokens) else {
        return Err(Failure::Broken(tokens.len()));
    };
    match statement_beginning(token.sort) {
        StatementOpening::Skip => Ok((Stmt::Skip, rest)),
        StatementOpening::Name => {
            let name = word(alloc, source, token)?;
            named(alloc, source, name, rest)
        }
        StatementOpening::Eot => {
            let Some(last) = after(rest, Mark::Semicolon) else {
                return Err(Failure::Broken(rest.len()));
            };
            Ok((Stmt::Eot(token.span), last))
        }
        StatementOpening::Par => {
            let (threads, rest) = names(alloc, source, rest)?;
            let Some(last) = after(rest, Mark::Semicolon) else {
                return Err(Failure::Broken(rest.len()));
            };
            Ok((
                Stmt::Par {
                    span: token.span,
                    threads,
                },
                last,
            ))
        }
        _ => Err(Failure::Broken(tokens.len())),
    }
}
