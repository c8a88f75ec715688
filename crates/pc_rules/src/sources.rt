ghost use Rattle.std.specs.Prelude.{◌≡◌};
ghost use Rattle.pc_rules.specs.Sources.{IsRead};

use pc_grammar::{Program, lex};
use pc_parse::parse;
use pt_base::{MOST_SOURCE_BYTES, Refusal, Rule, Span, Text};
use std::alloc::Global;

/// The program of a source, or the first rule that it breaks of Z1 (more than 1,048,576 bytes), L1 to L3 (tokens) and S1
/// (grammar), with its place.
pub fn source_of(alloc: Global, text: &Text) -> Result<Program, Refusal>
    ensures { IsRead text.now result }
{
    if text.bytes().len() > MOST_SOURCE_BYTES as usize {
        return Err(Refusal::Broken {
            rule: Rule::Z1,
            span: Span::at_end(MOST_SOURCE_BYTES),
        });
    }
    match lex(alloc, text) {
        Ok(tokens) => parse(alloc, text, &tokens),
        Err(refusal) => Err(refusal),
    }
}
