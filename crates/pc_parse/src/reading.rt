ghost use Rattle.std.specs.Prelude.{◌≡◌, [], ◌∷◌, length, slice_range, Some, IfOk, MatchOption, IsTrue, ◌↔◌};
ghost use Rattle.pc_grammar.specs.Signs.{sort_of};
ghost use Rattle.pc_grammar.specs.Refusing.{first};
ghost use Rattle.pc_parse.specs.Reading.{Comes};
ghost use Rattle.pc_grammar.specs.Expressions.{word_at};

use pc_grammar::{Mark, Sort, Token, Word, is_mark};
use pt_base::{Memory, Span, Text};
use std::alloc::{AllocError, Global};

/// Why no tree was read. `Broken` says how many tokens are left from the refused one on, so 0 is the end.
#[derive(Drop)]
pub enum Failure {
    Broken(usize),
    Memory,
}

impl From<AllocError> for Failure {
    ghost use Rattle.std.specs.Prelude.{◌≡◌};
    ghost use Rattle.pc_parse.specs.declared.reading.Failure.{Failure};

    ghost from_gives = { λ e f. f ≡ Failure.Memory };

    fn from(_error: AllocError) -> Failure {
        Failure::Memory
    }
}

impl From<Memory> for Failure {
    ghost use Rattle.std.specs.Prelude.{◌≡◌};
    ghost use Rattle.pc_parse.specs.declared.reading.Failure.{Failure};

    ghost from_gives = { λ e f. f ≡ Failure.Memory };

    fn from(_memory: Memory) -> Failure {
        Failure::Memory
    }
}

/// The first token, and those after it.
pub fn split(tokens: &[Token]) -> Option<(Token, &[Token])>
    ensures { MatchOption result (tokens.now ≡ []) (λ p. tokens.now ≡ p.0 ∷ p.1.now) }
{
    if tokens.len() == 0 {
        None
    } else {
        Some((tokens[0], &tokens[1..]))
    }
}

/// The tokens after the mark, where it comes next.
pub fn after(tokens: &[Token], mark: Mark) -> Option<&[Token]>
    ensures { MatchOption result (first tokens.now ≡ Some (sort_of mark) → ⊥) (λ rest. Comes (sort_of mark) tokens.now rest.now) }
{
    let (token, rest) = split(tokens)?;
    if is_mark(token.sort, mark) {
        Some(rest)
    } else {
        None
    }
}

/// Whether the mark comes next.
pub fn comes(tokens: &[Token], mark: Mark) -> bool
    ensures { IsTrue result ↔ first tokens.now ≡ Some (sort_of mark) }
{
    match split(tokens) {
        Some((token, _)) => is_mark(token.sort, mark),
        None => false,
    }
}

/// The bytes of the source in a span, as far as the source reaches.
fn cut(source: &[u8], span: Span) -> &[u8]
    ensures { result.now ≡ slice_range source.now span.from span.to }
{
    let to = source.len().min(span.to as usize);
    let from = to.min(span.from as usize);
    &source[from..to]
}

/// The name that a token is.
pub fn word(alloc: Global, source: &Text, token: Token) -> Result<Word, Memory>
    ensures { IfOk result (λ w. w ≡ word_at source.now token) }
{
    let text = Text::of(alloc, cut(source.bytes(), token.span))?;
    Ok(Word {
        text,
        span: token.span,
    })
}
