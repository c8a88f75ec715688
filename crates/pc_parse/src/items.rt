ghost use Rattle.std.specs.Prelude.{◌≡◌, ◌∷◌, Some, IfOk, IfErr};
ghost use Rattle.pc_grammar.specs.Refusing.{first};
ghost use Rattle.pc_parse.specs.Reading.{Refuses};
ghost use Rattle.pc_parse.specs.Items.{item_opening_of, SizeTakes, SizeFails, ReactiveTakes, ReactiveFails, FunctionTakes, FunctionFails, NamedItemTakes, NamedItemFails, ItemTakes, ItemFails};

use crate::constants::start;
use crate::expressions::between;
use crate::frames::{function_frame, int_name};
use crate::reading::{Failure, after, comes, split, word};
use crate::settings::number_at;
use pc_grammar::{CellKind, Item, Mark, Pair, Sort, Token, Word};
use pt_base::{MOST_EXPRESSION_LEVELS, Text};
use std::alloc::Global;

/// What an item begins with.
#[derive(Clone, Copy)]
pub enum ItemOpening {
    Input,
    Output,
    Int,
    Void,
    Nothing,
}

/// What an item is that begins with a token of this sort.
#[tactic(auto, unfolding(crate::specs::Items::item_opening_of))]
fn opens_item(sort: Sort) -> ItemOpening
    ensures { result ≡ item_opening_of sort }
{
    match sort {
        Sort::ReactiveInputWord => ItemOpening::Input,
        Sort::ReactiveOutputWord => ItemOpening::Output,
        Sort::IntWord => ItemOpening::Int,
        Sort::VoidWord => ItemOpening::Void,
        _ => ItemOpening::Nothing,
    }
}

/// The size of an array: `[ n ] ;`.
#[tactic(auto, using(crate::proofs::Sizes::size_steps))]
fn array_size(tokens: &[Token]) -> Result<(u32, &[Token]), Failure>
    ensures ok { IfOk result (λ x. SizeTakes tokens.now x.0 x.1.now) }
    ensures err { IfErr result (λ f. Refuses SizeFails tokens.now f) }
{
    let Some(inner) = after(tokens, Mark::OpenBracket) else {
        return Err(Failure::Broken(tokens.len()));
    };
    let Some((size, rest)) = number_at(inner) else {
        return Err(Failure::Broken(inner.len()));
    };
    let Some(closed) = after(rest, Mark::CloseBracket) else {
        return Err(Failure::Broken(rest.len()));
    };
    let Some(last) = after(closed, Mark::Semicolon) else {
        return Err(Failure::Broken(closed.len()));
    };
    Ok((size, last))
}

/// An input or an output, behind its first word: `int name = const ;`.
#[tactic(auto, using(crate::proofs::Sizes::reactive_steps))]
fn reactive<'a>(
    alloc: Global,
    source: &Text,
    kind: CellKind,
    tokens: &'a [Token],
) -> Result<(Item, &'a [Token]), Failure>
    ensures ok { IfOk result (λ x. ReactiveTakes source.now kind tokens.now x.0 x.1.now) }
    ensures err { IfErr result (λ f. Refuses (ReactiveFails source.now kind) tokens.now f) }
{
    let (name, rest) = int_name(alloc, source, tokens)?;
    let (start, last) = start(rest)?;
    Ok((Item::Scalar { kind, name, start }, last))
}

/// A function with a result, behind its name.
#[tactic(auto, using(crate::proofs::Functions::function_steps))]
fn function<'a>(
    alloc: Global,
    source: &Text,
    name: Word,
    tokens: &'a [Token],
) -> Result<(Item, &'a [Token]), Failure>
    ensures ok { IfOk result (λ x. FunctionTakes source.now name tokens.now x.0 x.1.now) }
    ensures err { IfErr result (λ f. Refuses (FunctionFails source.now name) tokens.now f) }
{
    let (frame, rest) = function_frame(alloc, source, tokens)?;
    let (value, rest) = between(alloc, source, rest, MOST_EXPRESSION_LEVELS, Pair::Result)?;
    let Some(last) = after(rest, Mark::CloseBrace) else {
        return Err(Failure::Broken(rest.len()));
    };
    Ok((
        Item::Function {
            name,
            gives: true,
            parameters: frame.parameters,
            locals: frame.locals,
            body: frame.body,
            result: Some(value),
        },
        last,
    ))
}

/// What stands behind `int` and a name: a variable, an array, or a function with a result.
#[tactic(auto, using(crate::proofs::NamedItems::named_steps))]
fn named_item<'a>(
    alloc: Global,
    source: &Text,
    name: Word,
    tokens: &'a [Token],
) -> Result<(Item, &'a [Token]), Failure>
    ensures ok { IfOk result (λ x. NamedItemTakes source.now name tokens.now x.0 x.1.now) }
    ensures err { IfErr result (λ f. Refuses (NamedItemFails source.now name) tokens.now f) }
{
    if let Some(last) = after(tokens, Mark::Semicolon) {
        return Ok((
            Item::Scalar {
                kind: CellKind::Plain,
                name,
                start: 0,
            },
            last,
        ));
    }
    if comes(tokens, Mark::OpenBracket) {
        let (size, last) = array_size(tokens)?;
        return Ok((Item::Array { name, size }, last));
    }
    if comes(tokens, Mark::OpenParenthesis) {
        return function(alloc, source, name, tokens);
    }
    let (start, last) = start(tokens)?;
    Ok((
        Item::Scalar {
            kind: CellKind::Plain,
            name,
            start,
        },
        last,
    ))
}

/// A function without a result, whose first word is the token.
#[tactic(auto, using(crate::proofs::Functions::routine_steps))]
fn routine<'a>(
    alloc: Global,
    source: &Text,
    token: Token,
    rest: &'a [Token],
) -> Result<(Item, &'a [Token]), Failure>
    requires { token.sort ≡ Sort.VoidWord }
    ensures ok { IfOk result (λ x. ItemTakes source.now (token ∷ rest.now) x.0 x.1.now) }
    ensures err { IfErr result (λ f. Refuses (ItemFails source.now) (token ∷ rest.now) f) }
{
    let Some((named, behind)) = split(rest) else {
        return Err(Failure::Broken(rest.len()));
    };
    let Sort::Name = named.sort else {
        return Err(Failure::Broken(rest.len()));
    };
    let name = word(alloc, source, named)?;
    let (frame, body_end) = function_frame(alloc, source, behind)?;
    let Some(last) = after(body_end, Mark::CloseBrace) else {
        return Err(Failure::Broken(body_end.len()));
    };
    Ok((
        Item::Function {
            name,
            gives: false,
            parameters: frame.parameters,
            locals: frame.locals,
            body: frame.body,
            result: None,
        },
        last,
    ))
}

/// The item at the front of the tokens, and the tokens after it.
#[tactic(auto, using(crate::proofs::ItemSteps::item_steps))]
pub fn item<'a>(
    alloc: Global,
    source: &Text,
    tokens: &'a [Token],
) -> Result<(Item, &'a [Token]), Failure>
    ensures ok { IfOk result (λ x. ItemTakes source.now tokens.now x.0 x.1.now) }
    ensures err { IfErr result (λ f. Refuses (ItemFails source.now) tokens.now f) }
{
    let Some((token, rest)) = split(tokens) else {
        return Err(Failure::Broken(tokens.len()));
    };
    match opens_item(token.sort) {
        ItemOpening::Input => reactive(alloc, source, CellKind::Input, rest),
        ItemOpening::Output => reactive(alloc, source, CellKind::Output, rest),
        ItemOpening::Int => {
            let (name, behind) = int_name(alloc, source, tokens)?;
            named_item(alloc, source, name, behind)
        }
        ItemOpening::Void => routine(alloc, source, token, rest),
        ItemOpening::Nothing => Err(Failure::Broken(tokens.len())),
    }
}
