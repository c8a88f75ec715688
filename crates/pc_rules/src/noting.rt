ghost use Rattle.std.specs.Prelude.{◌≡◌, ◌+◌, min, fold, map, None};
ghost use Rattle.pc_grammar.specs.Finishing.{finishing};
ghost use Rattle.pc_grammar.specs.Uses.{joined};
ghost use Rattle.pc_rules.specs.Nests.{Loop, Aborted, one_more, nests, function_nests};
ghost use Rattle.pt_base.specs.First.{first_of};
ghost use Rattle.pc_rules.specs.Faults.{nesting_faults_at, note_nest};

use pc_grammar::{Function, Stmt, Typed, holds_pause, may_finish};
use pt_base::{First, MOST_NESTED, Rule, Span};

/// The first fault of the rules on loops, and the first of the limits.
#[derive(Clone, Copy)]
pub struct Noted {
    pub rules: First,
    pub limits: First,
}

impl Noted {
    /// Nothing was noted.
    pub fn nothing() -> Noted
        ensures { result ≡ record { rules = None; limits = None } }
    {
        Noted {
            rules: First::nothing(),
            limits: First::nothing(),
        }
    }

    fn at_loop(
        self,
        typed: &Typed,
        span: Span,
        most: Option<u32>,
        body: &Stmt<u32>,
        loops: u32,
    ) -> Noted
        ensures { result ≡ note_nest (finishing typed.now.functions) self (Loop span most body.now loops) }
    {
        match most {
            None => Noted {
                rules: self.rules.note_if(may_finish(typed, body), Rule::E1, span),
                limits: self.limits,
            },
            Some(_) => Noted {
                rules: self.rules.note_if(holds_pause(body), Rule::E2, span),
                limits: self.limits.note_if(loops >= MOST_NESTED, Rule::Z5, span),
            },
        }
    }

    fn at_abort(self, span: Span, aborts: u32) -> Noted
        ensures { result ≡ record { rules = self.rules; limits = first_of self.limits (nesting_faults_at (Aborted span aborts)) } }
    {
        Noted {
            rules: self.rules,
            limits: self.limits.note_if(aborts >= MOST_NESTED, Rule::Z4, span),
        }
    }
}

fn deeper(n: u32) -> u32
    ensures { result ≡ min MOST_NESTED (n + 1) }
{
    n.saturating_add(1).min(MOST_NESTED)
}

fn within(most: Option<u32>, loops: u32) -> u32
    ensures { result ≡ min MOST_NESTED (one_more most loops) }
{
    match most {
        None => loops.min(MOST_NESTED),
        Some(_) => deeper(loops),
    }
}

/// The loops and aborts of a statement that stands in so many aborts and loops with `#n`.
#[cycle(walk)]
#[tactic(auto, using(crate::proofs::Walks::walk_steps))]
fn walk(s: &Stmt<u32>, typed: &Typed, noted: Noted, aborts: u32, loops: u32) -> Noted
    ensures { result ≡ fold (note_nest (finishing typed.now.functions)) noted (nests s.now aborts loops) }
{
    match s {
        Stmt::Skip => noted,
        Stmt::Assign { .. } => noted,
        Stmt::Call { .. } => noted,
        Stmt::Block(all) => walk_all(all.as_slice(), typed, noted, aborts, loops),
        Stmt::If { test: _, yes, no } => {
            let first = walk(yes.get(), typed, noted, aborts, loops);
            match no {
                None => first,
                Some(no) => walk(no.get(), typed, first, aborts, loops),
            }
        }
        Stmt::While {
            span,
            test: _,
            most,
            body,
        } => {
            let here = noted.at_loop(typed, *span, *most, body.get(), loops);
            walk(body.get(), typed, here, aborts, within(*most, loops))
        }
        Stmt::Eot(_) => noted,
        Stmt::Par { .. } => noted,
        Stmt::Abort {
            span,
            weak: _,
            body,
            test: _,
        } => {
            let here = noted.at_abort(*span, aborts);
            walk(body.get(), typed, here, deeper(aborts), loops)
        }
    }
}

#[cycle(walk)]
fn walk_all(all: &[Stmt<u32>], typed: &Typed, noted: Noted, aborts: u32, loops: u32) -> Noted
    ensures { result ≡ fold (note_nest (finishing typed.now.functions)) noted (joined (map (λ s. nests s aborts loops) all.now)) }
{
    let mut total = noted;
    for s in all {
        total = walk(s, typed, total, aborts, loops);
    }
    total
}

fn of_function(f: &Function, typed: &Typed, noted: Noted) -> Noted
    ensures { result ≡ fold (note_nest (finishing typed.now.functions)) noted (function_nests f.now) }
{
    walk_all(f.body.as_slice(), typed, noted, 0, 0)
}

/// The loops and aborts of functions of a program.
pub fn of_functions(functions: &[Function], typed: &Typed, noted: Noted) -> Noted
    ensures { result ≡ fold (note_nest (finishing typed.now.functions)) noted (joined (map function_nests functions.now)) }
{
    let mut total = noted;
    for f in functions {
        total = of_function(f, typed, total);
    }
    total
}
