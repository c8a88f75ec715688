//! What the front gives of a source, as bytes, and tables of rows `SOURCE => SHOWN`.

use crate::shown;
use crate::shown::Written;
use pc_grammar::{Token, Tokens, lex};
use pc_parse::{Failure, whole_expression};
use pc_print::put_expression;
use pc_rules::source_of;
use pt_base::{MOST_SOURCE_BYTES, Refusal, Rule, Span, Text};
use std::alloc::Global;

/// What is seen of a source.
#[derive(Clone, Copy)]
pub enum Seen {
    /// The tree of a program.
    Program,
    /// The place at which S1 is broken, as `FROM TO`; `none` where it isn't.
    Place,
    /// The tree of an expression, or `refused at` and a letter: `a` for the first token.
    Expression,
    /// The canonical text of an expression, with `?` behind it where it isn't its own; `refused` where it is none.
    Canonical,
}

pub fn tokens_of(alloc: Global, text: &Text) -> Result<Tokens, Refusal> {
    if text.bytes().len() > MOST_SOURCE_BYTES as usize {
        return Err(Refusal::Memory);
    }
    lex(alloc, text)
}

fn put_program(alloc: Global, out: &mut Written, text: &Text) -> Result<(), Refusal> {
    let program = source_of(alloc, text)?;
    for item in program.items() {
        shown::item(out, item);
    }
    Ok(())
}

/// The place at which S1 is broken.
pub fn place_of(alloc: Global, text: &Text) -> Result<Option<Span>, Refusal> {
    match source_of(alloc, text) {
        Err(
            Refusal::Broken {
                rule: Rule::S1,
                span,
            },
        ) => Ok(Some(span)),
        Err(Refusal::Memory) => Err(Refusal::Memory),
        _ => Ok(None),
    }
}

fn put_place(alloc: Global, out: &mut Written, text: &Text) -> Result<(), Refusal> {
    match place_of(alloc, text)? {
        None => out.text(b"none"),
        Some(span) => shown::place(out, span, b' '),
    }
    Ok(())
}

fn put_refused(out: &mut Written, tokens: usize, left: usize) {
    let place = tokens.saturating_sub(left);
    out.text(b"refused at ");
    out.byte(b'a' + (place % 26) as u8);
    if place == tokens {
        out.text(b", the end");
    }
}

fn put_tree(alloc: Global, out: &mut Written, text: &Text, tokens: &[Token]) {
    match whole_expression(alloc, text, tokens) {
        Ok(e) => shown::expression(out, &e),
        Err(Failure::Broken(left)) => put_refused(out, tokens.len(), left),
        Err(Failure::Memory) => out.text(b"memory"),
    }
}

fn put_expression_of(alloc: Global, out: &mut Written, text: &Text) -> Result<(), Refusal> {
    let tokens = tokens_of(alloc, text)?;
    put_tree(alloc, out, text, tokens.tokens.items());
    Ok(())
}

fn put_canonical(
    alloc: Global,
    out: &mut Vec<u8>,
    text: &Text,
    tokens: &[Token],
) -> Result<(), Refusal> {
    match whole_expression(alloc, text, tokens) {
        Ok(e) => put_expression(out, &e)?,
        Err(Failure::Broken(_)) => out.extend_from_slice(b"refused")?,
        Err(Failure::Memory) => return Err(Refusal::Memory),
    }
    Ok(())
}

fn put_canonical_of(alloc: Global, out: &mut Vec<u8>, text: &Text) -> Result<(), Refusal> {
    let tokens = tokens_of(alloc, text)?;
    put_canonical(alloc, out, text, tokens.tokens.items())
}

fn canonical(alloc: Global, text: &Text) -> Result<Text, Refusal> {
    let mut out = Vec::new(alloc);
    put_canonical_of(alloc, &mut out, text)?;
    Ok(Text::from_vec(out))
}

fn put_twice(alloc: Global, out: &mut Written, text: &Text) -> Result<(), Refusal> {
    let once = canonical(alloc, text)?;
    let twice = canonical(alloc, &once)?;
    out.text(once.bytes());
    if once.bytes() != twice.bytes() {
        out.byte(b'?');
    }
    Ok(())
}

fn put(alloc: Global, out: &mut Written, what: Seen, text: &Text) -> Result<(), Refusal> {
    match what {
        Seen::Program => put_program(alloc, out, text),
        Seen::Place => put_place(alloc, out, text),
        Seen::Expression => put_expression_of(alloc, out, text),
        Seen::Canonical => put_twice(alloc, out, text),
    }
}

/// What is seen of a source.
pub fn shown(alloc: Global, what: Seen, source: &[u8]) -> Result<Vec<u8>, Refusal> {
    let text = Text::of(alloc, source)?;
    let mut out = Written::nothing(alloc);
    put(alloc, &mut out, what, &text)?;
    Ok(out.bytes()?)
}

/// Whether this is shown of a source.
pub fn shows(alloc: Global, what: Seen, source: &[u8], wanted: &[u8]) -> Result<bool, Refusal> {
    Ok(shown(alloc, what, source)?.as_slice() == wanted)
}

/// The first row `SOURCE => SHOWN` that isn't so, or an empty text.
pub fn first_other<'a>(alloc: Global, what: Seen, rows: &'a str) -> Result<&'a str, Refusal> {
    for row in rows.lines() {
        let Some((source, wanted)) = row.split_once(" => ") else {
            return Ok(row);
        };
        if !shows(alloc, what, source.as_bytes(), wanted.as_bytes())? {
            return Ok(row);
        }
    }
    Ok("")
}
