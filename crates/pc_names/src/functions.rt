ghost use Rattle.std.specs.Prelude.{◌≡◌, ◌+◌, ◌<◌, ◌^◌, ◌++◌, [], OnOk, IfOk, length};
ghost use Rattle.pc_grammar.specs.Places as places;
ghost use Rattle.pc_grammar.specs.Breaking.{own_of};
ghost use Rattle.pc_grammar.specs.Typing.{cells_of, numbers_from, typed_locals, typed_item, typed_from};
ghost use Rattle.pc_names.specs.Names.{AreOnce, CanBeNumbered};

use crate::known::Known;
use crate::names::Names;
use crate::scopes::Scope;
use crate::threads::Threads;
use crate::trees::{statements, value};
use pc_grammar::{Expr, Function, Item, Word};
use pt_base::{Memory, Text};
use sqlite_items::Items;
use std::alloc::Global;

fn copy(alloc: Global, word: &Word) -> Result<Word, Memory>
    ensures { IfOk result (λ copy. copy ≡ word.now) }
{
    Ok(Word {
        text: Text::of(alloc, word.text.bytes())?,
        span: word.span,
    })
}

fn parameter_cells(alloc: Global, first: u32, parameters: &[Word]) -> Result<Items<u32>, Memory>
    requires { first + length parameters.now < 2 ^ 32 }
    ensures { IfOk result (λ all. all ≡ numbers_from first parameters.now) }
{
    let mut all = Items::new(alloc);
    let mut next = first;
    for _word in parameters {
        all.push(next)?;
        next += 1;
    }
    Ok(all)
}

/// The names of parameters.
fn parameter_names<'a>(alloc: Global, parameters: &'a [Word]) -> Result<Names<'a>, Memory>
    requires { AreOnce parameters.now }
    ensures { IfOk result (λ names. names ≡ parameters.now) }
{
    let mut names = Names::new(alloc);
    for word in parameters {
        names = names.with(word)?;
    }
    Ok(names)
}

/// The names that a function declares.
fn own_names<'a>(
    alloc: Global,
    parameters: &'a [Word],
    locals: &'a [(Word, Option<Expr<Word>>)],
) -> Result<Names<'a>, Memory>
    requires { AreOnce (parameters.now ++ places.names_of locals.now) }
    ensures { IfOk result (λ names. names ≡ parameters.now ++ places.names_of locals.now) }
{
    let mut names = parameter_names(alloc, parameters)?;
    for (word, _) in locals {
        names = names.with(word)?;
    }
    Ok(names)
}

fn local_cells(
    alloc: Global,
    known: &Known<'_>,
    parameters: &[Word],
    locals: &[(Word, Option<Expr<Word>>)],
) -> Result<Items<(u32, Option<Expr<u32>>)>, Memory>
    requires once { AreOnce (parameters.now ++ places.names_of locals.now) }
    requires fit { length (cells_of known.now) + length (parameters.now ++ places.names_of locals.now) < 2 ^ 32 }
    ensures { IfOk result (λ all. all ≡ typed_locals known.now parameters.now locals.now) }
{
    let mut all = Items::new(alloc);
    let mut own = parameter_names(alloc, parameters)?;
    let mut next = known.cell_count() + parameters.len() as u32;
    for (name, of) in locals {
        let of = value(alloc, &Scope::of(known, &own), of)?;
        all.push((next, of))?;
        own = own.with(name)?;
        next += 1;
    }
    Ok(all)
}

fn add_function(
    alloc: Global,
    functions: &mut Vec<Function>,
    threads: &Threads<'_>,
    known: &Known<'_>,
    item: &Item,
) -> Result<(), Memory>
    requires once { AreOnce (own_of item.now) }
    requires fit { length (cells_of known.now) + length (own_of item.now) < 2 ^ 32 }
    ensures { OnOk result (functions.new.items ≡ functions.old.items ++ typed_item threads.now known.now item.now) }
{
    let Item::Function {
        name,
        gives,
        parameters,
        locals,
        body,
        result,
    } = item
    else {
        return Ok(());
    };
    let parameters = parameters.as_slice();
    let locals = locals.as_slice();
    let own = own_names(alloc, parameters, locals)?;
    let scope = Scope::of(known, &own);
    functions.push(Function {
        name: copy(alloc, name)?,
        thread: threads.is_thread(name),
        gives: *gives,
        parameters: parameter_cells(alloc, known.cell_count(), parameters)?,
        locals: local_cells(alloc, known, parameters, locals)?,
        body: statements(alloc, &scope, body.as_slice())?,
        result: value(alloc, &scope, result)?,
    })?;
    Ok(())
}

/// The functions of the items, in the order of the text.
pub fn functions(
    alloc: Global,
    items: &[Item],
    threads: &Threads<'_>,
) -> Result<Vec<Function>, Memory>
    requires threads { threads.now ≡ items.now }
    requires numbered { CanBeNumbered items.now }
    ensures { IfOk result (λ functions. functions.items ≡ typed_from items.now [] items.now) }
{
    let mut functions = Vec::new(alloc);
    let mut known = Known::none(alloc, items);
    for (place, item) in items.iter().enumerate() {
        add_function(alloc, &mut functions, threads, &known, item)?;
        known = known.with(items, place)?;
    }
    Ok(functions)
}
