ghost use Rattle.std.specs.Prelude.{◌≡◌, ◌++◌, [], IfOk, map};
ghost use Rattle.pc_grammar.specs.Breaking.{own_of};
ghost use Rattle.pc_grammar.specs.Places.{word_of, names_of};
ghost use Rattle.pt_base.specs.First.{first_of};
ghost use Rattle.pc_names.specs.Faults.{repeats, own_faults};

use crate::names::Names;
use crate::sites::name_of;
use pc_grammar::{Expr, Item, Word};
use pt_base::{First, Memory, Rule};
use std::alloc::Global;

/// Notes each word that stands there again.
pub fn note_repeats<'a>(
    alloc: Global,
    first: First,
    rule: Rule,
    words: &[&'a Word],
) -> Result<First, Memory>
    ensures { IfOk result (λ found. found ≡ first_of first (repeats rule [] (map (λ w. w.now) words.now))) }
{
    let mut before = Names::new(alloc);
    let mut so_far = first;
    for word in words {
        let is_new = before.insert(word)?;
        so_far = so_far.note_if(!is_new, rule, word.span);
    }
    Ok(so_far)
}

fn item_words<'a>(alloc: Global, items: &'a [Item]) -> Result<Vec<&'a Word>, Memory>
    ensures { IfOk result (λ words. map (λ w. w.now) words.items ≡ map word_of items.now) }
{
    let mut words = Vec::new(alloc);
    for item in items {
        words.push(name_of(item))?;
    }
    Ok(words)
}

fn declared_words<'a>(
    alloc: Global,
    parameters: &'a [Word],
    locals: &'a [(Word, Option<Expr<Word>>)],
) -> Result<Vec<&'a Word>, Memory>
    ensures { IfOk result (λ words. map (λ w. w.now) words.items ≡ parameters.now ++ names_of locals.now) }
{
    let mut words = Vec::new(alloc);
    for word in parameters {
        words.push(word)?;
    }
    for (word, _) in locals {
        words.push(word)?;
    }
    Ok(words)
}

fn own_words<'a>(alloc: Global, item: &'a Item) -> Result<Vec<&'a Word>, Memory>
    ensures { IfOk result (λ words. map (λ w. w.now) words.items ≡ own_of item.now) }
{
    match item {
        Item::Function {
            parameters,
            locals,
            ..
        } => declared_words(alloc, parameters.as_slice(), locals.as_slice()),
        _ => Ok(Vec::new(alloc)),
    }
}

/// Notes the items that are declared again.
pub fn note_items_twice(alloc: Global, first: First, items: &[Item]) -> Result<First, Memory>
    ensures { IfOk result (λ found. found ≡ first_of first (repeats Rule.N1 [] (map word_of items.now))) }
{
    let words = item_words(alloc, items)?;
    note_repeats(alloc, first, Rule::N1, &words)
}

/// Notes the parameters and locals that are declared again in their function.
pub fn note_own_twice(alloc: Global, first: First, items: &[Item]) -> Result<First, Memory>
    ensures { IfOk result (λ found. found ≡ first_of first (own_faults items.now)) }
{
    let mut so_far = first;
    for item in items {
        let words = own_words(alloc, item)?;
        so_far = note_repeats(alloc, so_far, Rule::N1, &words)?;
    }
    Ok(so_far)
}
