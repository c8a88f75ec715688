ghost use Rattle.std.specs.Prelude.{◌≡◌, ◌++◌, OnOk, IfOk};
ghost use Rattle.pc_print.specs.Parts.{text};
ghost use Rattle.pc_print.specs.Canonical.{reactive, type_name, declared, listed, more_listed, behind_comma, in_parentheses, start_value, local, locals, returned, scalar_line, array_line, typed, head_line, item, items, item_text, program_text};

use crate::expressions::put_expression;
use crate::lines::{put_equals, put_line_end, put_margin, put_mark_line, put_stop};
use crate::marks::{put_blank, put_mark, put_signed, put_word};
use crate::statements::put_statements;
use pc_grammar::{CellKind, Expr, Item, Program, Sort, Word};
use pt_base::{Memory, Text, put_number};
use std::alloc::Global;

/// Puts what stands before an input's or an output's type at the end.
#[tactic(auto, using(crate::proofs::Pieces::pieces_are))]
fn put_reactive(out: &mut Vec<u8>, kind: CellKind) -> Result<(), Memory>
    ensures { OnOk result (out.new.items ≡ out.old.items ++ text (reactive kind)) }
{
    match kind {
        CellKind::Input => {
            put_mark(out, Sort::ReactiveInputWord)?;
            put_blank(out)
        }
        CellKind::Output => {
            put_mark(out, Sort::ReactiveOutputWord)?;
            put_blank(out)
        }
        _ => Ok(()),
    }
}

/// Puts `int` and a name at the end.
#[tactic(auto, using(crate::proofs::Pieces::pieces_are))]
fn put_declared(out: &mut Vec<u8>, name: &Word) -> Result<(), Memory>
    ensures { OnOk result (out.new.items ≡ out.old.items ++ text (declared name.now)) }
{
    put_mark(out, Sort::IntWord)?;
    put_blank(out)?;
    put_word(out, name)
}

/// Puts the line of an input, an output or a variable at the end.
#[tactic(auto, using(crate::proofs::Pieces::pieces_are))]
fn put_scalar(out: &mut Vec<u8>, kind: CellKind, name: &Word, start: i32) -> Result<(), Memory>
    ensures { OnOk result (out.new.items ≡ out.old.items ++ text (scalar_line kind name.now start)) }
{
    put_reactive(out, kind)?;
    put_declared(out, name)?;
    put_equals(out)?;
    put_signed(out, start)?;
    put_stop(out)
}

/// Puts the line of an array at the end.
#[tactic(auto, using(crate::proofs::Pieces::pieces_are))]
fn put_array(out: &mut Vec<u8>, name: &Word, size: u32) -> Result<(), Memory>
    ensures { OnOk result (out.new.items ≡ out.old.items ++ text (array_line name.now size)) }
{
    put_declared(out, name)?;
    put_mark(out, Sort::OpenBracket)?;
    put_number(out, u64::from(size))?;
    put_mark(out, Sort::CloseBracket)?;
    put_stop(out)
}

/// Puts a parameter behind a comma at the end.
#[tactic(auto, using(crate::proofs::Pieces::pieces_are))]
fn put_further_parameter(out: &mut Vec<u8>, name: &Word) -> Result<(), Memory>
    ensures { OnOk result (out.new.items ≡ out.old.items ++ text (behind_comma (declared name.now))) }
{
    put_mark(out, Sort::Comma)?;
    put_blank(out)?;
    put_declared(out, name)
}

/// Puts parameters at the end, each behind a comma.
#[tactic(auto, using(crate::proofs::Pieces::pieces_are))]
fn put_more_parameters(out: &mut Vec<u8>, rest: &[Word]) -> Result<(), Memory>
    ensures { OnOk result (out.new.items ≡ out.old.items ++ text (more_listed declared rest.now)) }
{
    for name in rest {
        put_further_parameter(out, name)?;
    }
    Ok(())
}

/// Puts parameters with commas between them at the end.
#[tactic(auto, using(crate::proofs::Pieces::pieces_are))]
fn put_parameters(out: &mut Vec<u8>, parameters: &[Word]) -> Result<(), Memory>
    ensures { OnOk result (out.new.items ≡ out.old.items ++ text (listed declared parameters.now)) }
{
    let Some((head, rest)) = parameters.split_first() else {
        return Ok(());
    };
    put_declared(out, head)?;
    put_more_parameters(out, rest)
}

/// Puts the sort of a function's result, its name and a blank at the end.
#[tactic(auto, using(crate::proofs::Pieces::pieces_are))]
fn put_type_and_name(out: &mut Vec<u8>, name: &Word, gives: bool) -> Result<(), Memory>
    ensures { OnOk result (out.new.items ≡ out.old.items ++ text (typed name.now gives)) }
{
    if gives {
        put_mark(out, Sort::IntWord)?;
    } else {
        put_mark(out, Sort::VoidWord)?;
    }
    put_blank(out)?;
    put_word(out, name)
}

/// Puts the first line of a function at the end.
#[tactic(auto, using(crate::proofs::Pieces::pieces_are))]
fn put_head(out: &mut Vec<u8>, name: &Word, gives: bool, parameters: &[Word]) -> Result<(), Memory>
    ensures { OnOk result (out.new.items ≡ out.old.items ++ text (head_line name.now gives parameters.now)) }
{
    put_type_and_name(out, name, gives)?;
    put_mark(out, Sort::OpenParenthesis)?;
    put_parameters(out, parameters)?;
    put_mark(out, Sort::CloseParenthesis)?;
    put_blank(out)?;
    put_mark_line(out, 0, Sort::OpenBrace)
}

/// Puts the value that a local starts with and its `=` at the end.
#[tactic(auto, using(crate::proofs::Pieces::pieces_are))]
fn put_start(out: &mut Vec<u8>, value: &Option<Expr<Word>>) -> Result<(), Memory>
    ensures { OnOk result (out.new.items ≡ out.old.items ++ text (start_value value.now)) }
{
    match value {
        None => Ok(()),
        Some(e) => {
            put_equals(out)?;
            put_expression(out, e)
        }
    }
}

/// Puts the line of a local at the end.
#[tactic(auto, using(crate::proofs::Pieces::pieces_are))]
fn put_local(out: &mut Vec<u8>, name: &Word, value: &Option<Expr<Word>>) -> Result<(), Memory>
    ensures { OnOk result (out.new.items ≡ out.old.items ++ text (local (name.now, value.now))) }
{
    put_margin(out, 1)?;
    put_declared(out, name)?;
    put_start(out, value)?;
    put_stop(out)
}

/// Puts the lines of locals at the end.
#[tactic(auto, using(crate::proofs::Pieces::pieces_are))]
fn put_locals(out: &mut Vec<u8>, all: &[(Word, Option<Expr<Word>>)]) -> Result<(), Memory>
    ensures { OnOk result (out.new.items ≡ out.old.items ++ text (locals all.now)) }
{
    for (name, value) in all {
        put_local(out, name, value)?;
    }
    Ok(())
}

/// Puts the line of a `return` at the end, where there is one.
#[tactic(auto, using(crate::proofs::Pieces::pieces_are))]
fn put_returned(out: &mut Vec<u8>, value: &Option<Expr<Word>>) -> Result<(), Memory>
    ensures { OnOk result (out.new.items ≡ out.old.items ++ text (returned value.now)) }
{
    match value {
        None => Ok(()),
        Some(e) => {
            put_margin(out, 1)?;
            put_mark(out, Sort::ReturnWord)?;
            put_blank(out)?;
            put_expression(out, e)?;
            put_stop(out)
        }
    }
}

/// Puts the lines of an item at the end.
#[tactic(auto, using(crate::proofs::Levels::lines_are))]
pub fn put_item(out: &mut Vec<u8>, i: &Item) -> Result<(), Memory>
    ensures { OnOk result (out.new.items ≡ out.old.items ++ item_text i.now) }
{
    match i {
        Item::Scalar { kind, name, start } => put_scalar(out, *kind, name, *start),
        Item::Array { name, size } => put_array(out, name, *size),
        Item::Function {
            name,
            gives,
            parameters,
            locals,
            body,
            result,
        } => {
            put_head(out, name, *gives, parameters.as_slice())?;
            put_locals(out, locals.as_slice())?;
            put_statements(out, 1, body.as_slice())?;
            put_returned(out, result)?;
            put_mark_line(out, 0, Sort::CloseBrace)
        }
    }
}

/// Puts the lines of items at the end.
#[tactic(auto, using(crate::proofs::Levels::lines_are))]
fn put_items(out: &mut Vec<u8>, all: &[Item]) -> Result<(), Memory>
    ensures { OnOk result (out.new.items ≡ out.old.items ++ text (items all.now)) }
{
    for i in all {
        put_item(out, i)?;
    }
    Ok(())
}

/// The canonical text of items.
pub fn print_items(alloc: Global, all: &[Item]) -> Result<Text, Memory>
    ensures { IfOk result (λ shown. shown ≡ text (items all.now)) }
{
    let mut out = Vec::new(alloc);
    put_items(&mut out, all)?;
    Ok(Text::from_vec(out))
}

/// The canonical text of a program.
pub fn print(alloc: Global, program: &Program) -> Result<Text, Memory>
    ensures { IfOk result (λ text. text ≡ program_text program.now) }
{
    print_items(alloc, program.items())
}
