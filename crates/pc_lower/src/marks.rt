ghost use Rattle.std.specs.Prelude.{◌≡◌, ◌++◌, [], map, IfOk, OnOk};
ghost use Rattle.pc_meaning.specs.Programs.{joined, eots_step, pars_step, aborts_step, spans_of, number_of};
ghost use Rattle.pc_lower.specs.Marks.{eots_in, pars_in, aborts_of_text};

use pc_grammar::{Function, Stmt};
use pt_base::{Memory, Span};
use std::alloc::Global;

/// The spans of the `EOT`s, of the `PAR`s and of the aborts, each in the order of the text.
#[derive(Drop)]
pub struct Marks {
    pub eots: Vec<Span>,
    pub pars: Vec<Span>,
    pub aborts: Vec<Span>,
}

/// The number of a span: how many of these begin earlier in the text.
pub fn number(spans: &[Span], span: Span) -> Result<u32, Memory>
    ensures { IfOk result (λ n. n ≡ number_of spans.now span) }
{
    let mut count: u32 = 0;
    for other in spans {
        if other.from < span.from {
            let Some(more) = count.checked_add(1) else {
                return Err(Memory);
            };
            count = more;
        }
    }
    Ok(count)
}

// The marks of a statement come behind those that are there.
#[cycle(mark)]
#[tactic(auto, using(crate::proofs::Marked::marked))]
fn mark(s: &Stmt<u32>, marks: &mut Marks) -> Result<(), Memory>
    ensures eots { OnOk result (marks.new.eots.items ≡ marks.old.eots.items ++ eots_in s.now) }
    ensures pars { OnOk result (marks.new.pars.items ≡ marks.old.pars.items ++ pars_in s.now) }
    ensures aborts { OnOk result (marks.new.aborts.items ≡ marks.old.aborts.items ++ aborts_of_text s.now) }
{
    match s {
        Stmt::Skip => Ok(()),
        Stmt::Assign { goal: _, value: _ } => Ok(()),
        Stmt::Call {
            goal: _,
            function: _,
            arguments: _,
        } => Ok(()),
        Stmt::Block(all) => mark_all(all.as_slice(), marks),
        Stmt::If { test: _, yes, no } => {
            mark(yes.get(), marks)?;
            match no {
                None => Ok(()),
                Some(no) => mark(no.get(), marks),
            }
        }
        Stmt::While {
            span: _,
            test: _,
            most: _,
            body,
        } => mark(body.get(), marks),
        Stmt::Eot(span) => {
            marks.eots.push(*span)?;
            Ok(())
        }
        Stmt::Par { span, threads: _ } => {
            marks.pars.push(*span)?;
            Ok(())
        }
        Stmt::Abort {
            span,
            weak: _,
            body,
            test: _,
        } => {
            marks.aborts.push(*span)?;
            mark(body.get(), marks)
        }
    }
}

#[cycle(mark)]
#[tactic(auto, using(crate::proofs::Marked::marked))]
fn mark_all(all: &[Stmt<u32>], marks: &mut Marks) -> Result<(), Memory>
    ensures eots { OnOk result (marks.new.eots.items ≡ marks.old.eots.items ++ joined (map eots_in all.now)) }
    ensures pars { OnOk result (marks.new.pars.items ≡ marks.old.pars.items ++ joined (map pars_in all.now)) }
    ensures aborts { OnOk result (marks.new.aborts.items ≡ marks.old.aborts.items ++ joined (map aborts_of_text all.now)) }
{
    for s in all {
        mark(s, marks)?;
    }
    Ok(())
}

/// The marks of a program.
#[tactic(auto, using(crate::proofs::Marked::marked))]
pub fn marks_of(alloc: Global, functions: &[Function]) -> Result<Marks, Memory>
    ensures eots { IfOk result (λ m. m.eots.items ≡ spans_of eots_step functions.now) }
    ensures pars { IfOk result (λ m. m.pars.items ≡ spans_of pars_step functions.now) }
    ensures aborts { IfOk result (λ m. m.aborts.items ≡ spans_of aborts_step functions.now) }
{
    let mut marks = Marks {
        eots: Vec::new(alloc),
        pars: Vec::new(alloc),
        aborts: Vec::new(alloc),
    };
    for function in functions {
        mark_all(function.body.as_slice(), &mut marks)?;
    }
    Ok(marks)
}
