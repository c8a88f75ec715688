ghost use Rattle.std.specs.Prelude.{◌≡◌, Some, MatchOption, IfOk, IfErr};
ghost use Rattle.pc_grammar.specs.Refusing.{first};
ghost use Rattle.pc_parse.specs.Reading.{Comes, Refuses};
ghost use Rattle.pc_parse.specs.Lists.{ListTakes, ListFails, AfterName};
ghost use Rattle.pc_grammar.specs.Frames.{SpellsParameter};
ghost use Rattle.pc_parse.specs.Frames.{ParameterTakes, ParameterFails, ParametersTakes, ParametersFails, LocalTakes, LocalFails, LocalsTakes, LocalsFails, FrameTakes, FrameFails};

use crate::bodies::statements;
use crate::expressions::between;
use crate::reading::{Failure, after, comes, split, word};
use pc_grammar::{Expr, Frame, Mark, Pair, Sort, Stmt, Token, Word};
use pt_base::{MOST_EXPRESSION_LEVELS, MOST_STATEMENT_LEVELS, Text};
use sqlite_items::Items;
use std::alloc::Global;

/// The name that `int` and a name give.
#[tactic(auto, using(crate::proofs::Parameters::parameter_steps))]
pub fn int_name<'a>(
    alloc: Global,
    source: &Text,
    tokens: &'a [Token],
) -> Result<(Word, &'a [Token]), Failure>
    ensures ok { IfOk result (λ x. ParameterTakes source.now tokens.now x.0 x.1.now) }
    ensures err { IfErr result (λ f. Refuses (ParameterFails source.now) tokens.now f) }
{
    let Some(named) = after(tokens, Mark::IntWord) else {
        return Err(Failure::Broken(tokens.len()));
    };
    let Some((token, rest)) = split(named) else {
        return Err(Failure::Broken(named.len()));
    };
    if let Sort::Name = token.sort {
        return Ok((word(alloc, source, token)?, rest));
    }
    Err(Failure::Broken(named.len()))
}

/// One or more parameters with commas between them.
#[tactic(auto, using(crate::proofs::Parameters::list_steps))]
fn parameter_list<'a>(
    alloc: Global,
    source: &Text,
    tokens: &'a [Token],
) -> Result<(Items<Word>, &'a [Token]), Failure>
    ensures ok { IfOk result (λ x. ListTakes (SpellsParameter source.now) AfterName tokens.now x.0 x.1.now) }
    ensures err { IfErr result (λ f. Refuses (ListFails (SpellsParameter source.now) AfterName) tokens.now f) }
{
    let (word, mut left) = int_name(alloc, source, tokens)?;
    let mut all = Items::new(alloc);
    all.push(word)?;
    while let Some(next) = after(left, Mark::Comma) {
        let (word, next) = int_name(alloc, source, next)?;
        all.push(word)?;
        left = next;
    }
    Ok((all, left))
}

/// The tokens after `void`, where it comes next.
fn after_void(tokens: &[Token]) -> Option<&[Token]>
    ensures { MatchOption result (first tokens.now ≡ Some Sort.VoidWord → ⊥) (λ rest. Comes Sort.VoidWord tokens.now rest.now) }
{
    let (token, rest) = split(tokens)?;
    if let Sort::VoidWord = token.sort {
        return Some(rest);
    }
    None
}

/// The parameters of a function: `( )`, `( void )` or a list in parentheses.
#[tactic(auto, using(crate::proofs::Parameters::parameters_steps))]
fn parameters<'a>(
    alloc: Global,
    source: &Text,
    tokens: &'a [Token],
) -> Result<(Items<Word>, &'a [Token]), Failure>
    ensures ok { IfOk result (λ x. ParametersTakes source.now tokens.now x.0 x.1.now) }
    ensures err { IfErr result (λ f. Refuses (ParametersFails source.now) tokens.now f) }
{
    let Some(inner) = after(tokens, Mark::OpenParenthesis) else {
        return Err(Failure::Broken(tokens.len()));
    };
    if let Some(last) = after(inner, Mark::CloseParenthesis) {
        return Ok((Items::new(alloc), last));
    }
    if let Some(rest) = after_void(inner) {
        let Some(last) = after(rest, Mark::CloseParenthesis) else {
            return Err(Failure::Broken(rest.len()));
        };
        return Ok((Items::new(alloc), last));
    }
    let (all, rest) = parameter_list(alloc, source, inner)?;
    let Some(last) = after(rest, Mark::CloseParenthesis) else {
        return Err(Failure::Broken(rest.len()));
    };
    Ok((all, last))
}

/// A local: `int` and a name, and its value where it has one.
#[tactic(auto, using(crate::proofs::Locals::local_steps))]
fn local<'a>(
    alloc: Global,
    source: &Text,
    tokens: &'a [Token],
) -> Result<((Word, Option<Expr<Word>>), &'a [Token]), Failure>
    ensures ok { IfOk result (λ x. LocalTakes source.now tokens.now x.0 x.1.now) }
    ensures err { IfErr result (λ f. Refuses (LocalFails source.now) tokens.now f) }
{
    let (name, rest) = int_name(alloc, source, tokens)?;
    if let Some(last) = after(rest, Mark::Semicolon) {
        return Ok(((name, None), last));
    }
    let (value, last) = between(
        alloc,
        source,
        rest,
        MOST_EXPRESSION_LEVELS,
        Pair::Assignment,
    )?;
    Ok(((name, Some(value)), last))
}

/// The locals up to the first statement.
#[tactic(auto, using(crate::proofs::Locals::locals_steps))]
fn locals<'a>(
    alloc: Global,
    source: &Text,
    tokens: &'a [Token],
) -> Result<(Items<(Word, Option<Expr<Word>>)>, &'a [Token]), Failure>
    ensures ok { IfOk result (λ x. LocalsTakes source.now tokens.now x.0 x.1.now) }
    ensures err { IfErr result (λ f. Refuses (LocalsFails source.now) tokens.now f) }
{
    let mut all = Items::new(alloc);
    let mut left = tokens;
    'reading: while comes(left, Mark::IntWord) {
        let (one, next) = local(alloc, source, left)?;
        all.push(one)?;
        left = next;
    }
    Ok((all, left))
}

/// The frame of a function: parameters, an opening brace, locals and statements.
#[tactic(auto, using(crate::proofs::Framed::frame_steps))]
pub fn function_frame<'a>(
    alloc: Global,
    source: &Text,
    tokens: &'a [Token],
) -> Result<(Frame, &'a [Token]), Failure>
    ensures ok { IfOk result (λ x. FrameTakes source.now tokens.now x.0 x.1.now) }
    ensures err { IfErr result (λ f. Refuses (FrameFails source.now) tokens.now f) }
{
    let (parameters, rest) = parameters(alloc, source, tokens)?;
    let Some(inner) = after(rest, Mark::OpenBrace) else {
        return Err(Failure::Broken(rest.len()));
    };
    let (locals, rest) = locals(alloc, source, inner)?;
    let (body, last) = statements(alloc, source, rest, MOST_STATEMENT_LEVELS)?;
    Ok((
        Frame {
            parameters,
            locals,
            body,
        },
        last,
    ))
}
