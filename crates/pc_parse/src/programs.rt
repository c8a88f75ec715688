ghost use Rattle.std.specs.Prelude.{◌≡◌, ◌-◌, ◌≤◌, length, drop, IfOk, IfErr};
ghost use Rattle.pc_grammar.specs.Lexing.{Lexes, whole};
ghost use Rattle.pc_parse.specs.Reading.{Refuses};
ghost use Rattle.pc_grammar.specs.Programs.{IsProgram, span_at, RefusedIn, OneProgram};
ghost use Rattle.pc_parse.specs.Programs.{ProgramFails};

use crate::items::item;
use crate::reading::{Failure, split};
use pc_grammar::{Item, Program, Token, Tokens};
use pt_base::{Refusal, Rule, Span, Text};
use sqlite_items::Items;
use std::alloc::Global;

/// The items that all the tokens spell.
#[tactic(auto, using(crate::proofs::Whole::items_steps))]
fn all_items(alloc: Global, source: &Text, tokens: &[Token]) -> Result<Items<Item>, Failure>
    ensures ok { IfOk result (λ all. IsProgram source.now tokens.now all) }
    ensures err { IfErr result (λ f. Refuses (ProgramFails source.now) tokens.now f) }
{
    let mut all = Items::new(alloc);
    let mut left = tokens;
    'reading: while 0 < left.len() {
        let (one, next) = item(alloc, source, left)?;
        all.push(one)?;
        left = next;
    }
    Ok(all)
}

/// The last tokens, so many as are left.
fn last_tokens(tokens: &[Token], left: usize) -> &[Token]
    requires { left ≤ length tokens.now }
    ensures { result.now ≡ drop (length tokens.now - left) tokens.now }
{
    &tokens[tokens.len() - left..]
}

/// The span of the first of the tokens, or the end of the text.
fn place(rest: &[Token], length: u32) -> Span
    ensures { result ≡ span_at length rest.now }
{
    match split(rest) {
        Some((token, _)) => token.span,
        None => Span::at_end(length),
    }
}

/// The program that the tokens of a text spell, or the exact place of `S1`.
#[tactic(auto, using(crate::proofs::Whole::parse_steps))]
pub fn parse(alloc: Global, text: &Text, tokens: &Tokens) -> Result<Program, Refusal>
    requires cut { Lexes 0 text.now tokens.now.tokens whole }
    requires length { tokens.now.length ≡ length text.now }
    ensures program { IfOk result (λ p. IsProgram text.now tokens.now.tokens p.items) }
    ensures length { IfOk result (λ p. p.length ≡ tokens.now.length) }
    ensures refused { IfErr result (λ f. RefusedIn text.now tokens.now.tokens tokens.now.length f) }
{
    let list = tokens.tokens.items();
    match all_items(alloc, text, list) {
        Ok(items) => Ok(Program::of(items, tokens.length)),
        Err(Failure::Broken(left)) => {
            let span = place(last_tokens(list, left), tokens.length);
            Err(Refusal::Broken {
                rule: Rule::S1,
                span,
            })
        }
        Err(Failure::Memory) => Err(Refusal::Memory),
    }
}

/// No list of tokens spells two programs.
pub fn one_program()
    ensures { OneProgram }
{}
