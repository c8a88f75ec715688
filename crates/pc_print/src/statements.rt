ghost use Rattle.std.specs.Prelude.{◌≡◌, ◌++◌, OnOk};
ghost use Rattle.pc_print.specs.Parts.{text};
ghost use Rattle.pc_print.specs.Canonical.{statements, statement_text};

use crate::lines::{
    deeper, put_abort, put_assignment, put_call, put_if, put_mark_line, put_pause, put_threads,
    put_when, put_while,
};
use pc_grammar::{Sort, Stmt, Word};
use pt_base::Memory;

/// Puts the lines of a statement at a level at the end.
#[cycle(put_statement)]
#[tactic(auto, using(crate::proofs::Levels::lines_are))]
pub fn put_statement(out: &mut Vec<u8>, level: u64, s: &Stmt<Word>) -> Result<(), Memory>
    ensures { OnOk result (out.new.items ≡ out.old.items ++ statement_text level s.now) }
{
    match s {
        Stmt::Skip => put_mark_line(out, level, Sort::Semicolon),
        Stmt::Assign { goal, value } => put_assignment(out, level, goal, value),
        Stmt::Call {
            goal,
            function,
            arguments,
        } => put_call(out, level, goal, function, arguments.as_slice()),
        Stmt::Block(all) => {
            let inner = deeper(level)?;
            put_mark_line(out, level, Sort::OpenBrace)?;
            put_statements(out, inner, all.as_slice())?;
            put_mark_line(out, level, Sort::CloseBrace)
        }
        Stmt::If { test, yes, no } => {
            let inner = deeper(level)?;
            put_if(out, level, test)?;
            put_statement(out, inner, yes.get())?;
            match no {
                None => Ok(()),
                Some(no) => {
                    put_mark_line(out, level, Sort::ElseWord)?;
                    put_statement(out, inner, no.get())
                }
            }
        }
        Stmt::While {
            span: _,
            test,
            most,
            body,
        } => {
            let inner = deeper(level)?;
            put_while(out, level, test, *most)?;
            put_statement(out, inner, body.get())
        }
        Stmt::Eot(_) => put_pause(out, level),
        Stmt::Par { span: _, threads } => put_threads(out, level, threads.as_slice()),
        Stmt::Abort {
            span: _,
            weak,
            body,
            test,
        } => {
            let inner = deeper(level)?;
            put_abort(out, level, *weak)?;
            put_statement(out, inner, body.get())?;
            put_when(out, level, test)
        }
    }
}

/// Puts the lines of statements at a level at the end.
#[cycle(put_statement)]
#[tactic(auto, using(crate::proofs::Levels::lines_are))]
pub fn put_statements(out: &mut Vec<u8>, level: u64, all: &[Stmt<Word>]) -> Result<(), Memory>
    ensures { OnOk result (out.new.items ≡ out.old.items ++ text (statements level all.now)) }
{
    for s in all {
        put_statement(out, level, s)?;
    }
    Ok(())
}
