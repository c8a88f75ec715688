ghost use Rattle.std.specs.Prelude.{◌≡◌, ◌∷◌, IfOk, IfErr, IsTrue, ◌↔◌};
ghost use Rattle.pc_grammar.specs.Refusing.{first};
ghost use Rattle.pc_parse.specs.Reading.{Refuses};
ghost use Rattle.pc_grammar.specs.Statements.{OneBody};
ghost use Rattle.pc_parse.specs.Statements.{Closes, SomeTakes, StmtFails, PartsTakes, PartsFails, AbortedTakes, AbortedFails};

use crate::expressions::between;
use crate::reading::{Failure, after, comes, split};
use crate::settings::{abort_test, loop_head};
use crate::simple::{StatementOpening, simple_statement, statement_beginning};
use pc_grammar::{Expr, Mark, Pair, Sort, Stmt, Token, Word};
use pt_base::{MOST_EXPRESSION_LEVELS, Text};
use sqlite_items::{Boxed, Items};
use std::alloc::Global;

/// Statements end at a closing brace, a `return` or the end.
#[tactic(auto, using(crate::proofs::Ends::closing_steps))]
fn is_closing(tokens: &[Token]) -> bool
    ensures { IsTrue result ↔ Closes (first tokens.now) }
{
    if tokens.len() == 0 {
        return true;
    }
    if comes(tokens, Mark::CloseBrace) {
        return true;
    }
    comes(tokens, Mark::ReturnWord)
}

/// The statement at the front of the tokens, and the tokens after it. `room` is how many levels of nesting are left.
#[cycle(statement)]
#[tactic(auto, using(crate::proofs::Steps::stmt_steps))]
fn statement<'a>(
    alloc: Global,
    source: &Text,
    tokens: &'a [Token],
    room: u32,
) -> Result<(Stmt<Word>, &'a [Token]), Failure>
    ensures ok { IfOk result (λ x. SomeTakes source.now room tokens.now x.0 x.1.now) }
    ensures err { IfErr result (λ f. Refuses (StmtFails source.now room) tokens.now f) }
{
    let Some((token, rest)) = split(tokens) else {
        return Err(Failure::Broken(tokens.len()));
    };
    match statement_beginning(token.sort) {
        StatementOpening::Block => {
            let (all, rest) = statements(alloc, source, rest, room)?;
            let Some(last) = after(rest, Mark::CloseBrace) else {
                return Err(Failure::Broken(rest.len()));
            };
            Ok((Stmt::Block(all), last))
        }
        StatementOpening::If => branch(alloc, source, token, rest, room),
        StatementOpening::While => repetition(alloc, source, token, rest, room),
        StatementOpening::Abort => strong_abort(alloc, source, token, rest, room),
        StatementOpening::Weak => weak_abort(alloc, source, token, rest, room),
        _ => simple_statement(alloc, source, tokens),
    }
}

/// The `if` whose word is the token, with its `else` where one comes next.
#[cycle(statement)]
#[tactic(auto, using(crate::proofs::Branches::branch_steps))]
fn branch<'a>(
    alloc: Global,
    source: &Text,
    token: Token,
    rest: &'a [Token],
    room: u32,
) -> Result<(Stmt<Word>, &'a [Token]), Failure>
    requires { token.sort ≡ Sort.IfWord }
    ensures ok { IfOk result (λ x. SomeTakes source.now room (token ∷ rest.now) x.0 x.1.now) }
    ensures err { IfErr result (λ f. Refuses (StmtFails source.now room) (token ∷ rest.now) f) }
{
    if room == 0 {
        return Err(Failure::Broken(rest.len() + 1));
    }
    let (test, rest) = between(
        alloc,
        source,
        rest,
        MOST_EXPRESSION_LEVELS,
        Pair::Parentheses,
    )?;
    let (yes, rest) = statement(alloc, source, rest, room - 1)?;
    let yes = Boxed::new(alloc, yes)?;
    let Some(other) = after(rest, Mark::ElseWord) else {
        return Ok((
            Stmt::If {
                test,
                yes,
                no: None,
            },
            rest,
        ));
    };
    let (no, last) = statement(alloc, source, other, room - 1)?;
    let no = Some(Boxed::new(alloc, no)?);
    Ok((Stmt::If { test, yes, no }, last))
}

/// The `while` whose word is the token.
#[cycle(statement)]
#[tactic(auto, using(crate::proofs::Steps::repetition_steps))]
fn repetition<'a>(
    alloc: Global,
    source: &Text,
    token: Token,
    rest: &'a [Token],
    room: u32,
) -> Result<(Stmt<Word>, &'a [Token]), Failure>
    requires { token.sort ≡ Sort.WhileWord }
    ensures ok { IfOk result (λ x. SomeTakes source.now room (token ∷ rest.now) x.0 x.1.now) }
    ensures err { IfErr result (λ f. Refuses (StmtFails source.now room) (token ∷ rest.now) f) }
{
    if room == 0 {
        return Err(Failure::Broken(rest.len() + 1));
    }
    let (test, most, rest) = loop_head(alloc, source, rest)?;
    let (body, last) = statement(alloc, source, rest, room - 1)?;
    Ok((
        Stmt::While {
            span: token.span,
            test,
            most,
            body: Boxed::new(alloc, body)?,
        },
        last,
    ))
}

/// The body of an abort and its condition: a statement and `when pre ( e ) ;`.
#[cycle(statement)]
#[tactic(auto, using(crate::proofs::Steps::aborted_steps))]
fn aborted<'a>(
    alloc: Global,
    source: &Text,
    tokens: &'a [Token],
    room: u32,
) -> Result<(Stmt<Word>, Expr<Word>, &'a [Token]), Failure>
    ensures ok { IfOk result (λ x. AbortedTakes source.now room tokens.now (x.0, x.1) x.2.now) }
    ensures err { IfErr result (λ f. Refuses (AbortedFails source.now room) tokens.now f) }
{
    let (body, rest) = statement(alloc, source, tokens, room)?;
    let (test, last) = abort_test(alloc, source, rest)?;
    Ok((body, test, last))
}

/// The abort whose word is the token.
#[cycle(statement)]
#[tactic(auto, using(crate::proofs::Steps::abort_steps))]
fn strong_abort<'a>(
    alloc: Global,
    source: &Text,
    token: Token,
    rest: &'a [Token],
    room: u32,
) -> Result<(Stmt<Word>, &'a [Token]), Failure>
    requires { token.sort ≡ Sort.AbortWord }
    ensures ok { IfOk result (λ x. SomeTakes source.now room (token ∷ rest.now) x.0 x.1.now) }
    ensures err { IfErr result (λ f. Refuses (StmtFails source.now room) (token ∷ rest.now) f) }
{
    if room == 0 {
        return Err(Failure::Broken(rest.len() + 1));
    }
    let (body, test, last) = aborted(alloc, source, rest, room - 1)?;
    Ok((
        Stmt::Abort {
            span: token.span,
            weak: false,
            body: Boxed::new(alloc, body)?,
            test,
        },
        last,
    ))
}

/// The weak abort whose first word is the token.
#[cycle(statement)]
#[tactic(auto, using(crate::proofs::Steps::weak_steps))]
fn weak_abort<'a>(
    alloc: Global,
    source: &Text,
    token: Token,
    rest: &'a [Token],
    room: u32,
) -> Result<(Stmt<Word>, &'a [Token]), Failure>
    requires { token.sort ≡ Sort.WeakWord }
    ensures ok { IfOk result (λ x. SomeTakes source.now room (token ∷ rest.now) x.0 x.1.now) }
    ensures err { IfErr result (λ f. Refuses (StmtFails source.now room) (token ∷ rest.now) f) }
{
    if room == 0 {
        return Err(Failure::Broken(rest.len() + 1));
    }
    let Some(inner) = after(rest, Mark::AbortWord) else {
        return Err(Failure::Broken(rest.len()));
    };
    let (body, test, last) = aborted(alloc, source, inner, room - 1)?;
    Ok((
        Stmt::Abort {
            span: token.span,
            weak: true,
            body: Boxed::new(alloc, body)?,
            test,
        },
        last,
    ))
}

/// The statements up to a closing brace, a `return` or the end. `room` is one more than the levels left below them.
#[cycle(statement)]
#[tactic(auto, using(crate::proofs::Parts::parts_steps))]
pub fn statements<'a>(
    alloc: Global,
    source: &Text,
    tokens: &'a [Token],
    room: u32,
) -> Result<(Items<Stmt<Word>>, &'a [Token]), Failure>
    ensures ok { IfOk result (λ x. PartsTakes source.now room tokens.now x.0 x.1.now) }
    ensures err { IfErr result (λ f. Refuses (PartsFails source.now room) tokens.now f) }
{
    let mut all = Items::new(alloc);
    let mut left = tokens;
    'reading: while !is_closing(left) {
        if room == 0 {
            return Err(Failure::Broken(left.len()));
        }
        let (s, next) = statement(alloc, source, left, room - 1)?;
        all.push(s)?;
        left = next;
    }
    Ok((all, left))
}

/// No list of tokens spells two lists of statements.
pub fn one_body()
    ensures { OneBody }
{}
