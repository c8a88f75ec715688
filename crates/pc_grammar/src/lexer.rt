ghost use Rattle.std.specs.Prelude.{◌≡◌, ◌≤◌, length, IfOk, IfErr, drop};
ghost use Rattle.pc_grammar.specs.Lexing.{whole, Lexes, RefusedIn, InOrder, AreSlices, OneCut, LongestSign};

use crate::fronts::{Front, look};
use crate::tokens::{Token, Tokens};
use pt_base::{MOST_SOURCE_BYTES, Many, Refusal, Span, Text};
use std::alloc::Global;

/// The bytes after the first n.
fn skip(bytes: &[u8], n: usize) -> &[u8]
    requires { n ≤ length bytes.now }
    ensures { result.now ≡ drop n bytes.now }
{
    &bytes[n..]
}

/// The tokens of a source, or the first rule of `L1`, `L2`, `L3` that it breaks, from the left, with its place.
#[tactic(auto, using(crate::proofs::Cuts::cut_steps))]
pub fn lex(alloc: Global, text: &Text) -> Result<Tokens, Refusal>
    requires { length text.now ≤ MOST_SOURCE_BYTES }
    ensures tokens { IfOk result (λ ts. Lexes 0 text.now ts.tokens whole) }
    ensures length { IfOk result (λ ts. ts.length ≡ length text.now) }
    ensures in_order { IfOk result (λ ts. InOrder 0 ts.tokens ts.length) }
    ensures slices { IfOk result (λ ts. AreSlices text.now ts.tokens) }
    ensures refused { IfErr result (λ f. RefusedIn text.now f) }
{
    let mut tokens = Vec::new(alloc);
    let mut rest = text.bytes();
    let mut at = 0u32;
    'cutting: while 0 < rest.len() {
        let (front, n) = look(rest);
        let to = at + n as u32;
        match front {
            Front::Blank => {}
            Front::Piece(sort) => {
                let span = Span { from: at, to };
                tokens.push(Token { sort, span })?;
            }
            Front::Fault(rule) => {
                return Err(Refusal::Broken {
                    rule,
                    span: Span { from: at, to },
                });
            }
        }
        at = to;
        rest = skip(rest, n);
    }
    Ok(Tokens {
        tokens: Many::of(tokens),
        length: at,
    })
}

/// No text is cut in two ways.
pub fn one_cut()
    ensures { OneCut }
{}

/// A sign is the longest of the table that stands there.
pub fn longest_sign()
    ensures { LongestSign }
{}
