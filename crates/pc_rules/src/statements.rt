ghost use Rattle.std.specs.Prelude.{◌≡◌, ◌+◌, min, sum_by, None, Some};
ghost use Rattle.pc_rules.specs.Weights.{called_words, loop_words, statement_words, function_words};

use crate::expressions;
use crate::frames::frame;
use crate::known::known_of;
use crate::sums::{MOST_WORDS, plus, times};
use pc_grammar::{Function, Stmt};
use std::marker::Model;

/// What is counted: the words of the code, or those of one passage, given those of each function. The two differ at calls
/// and loops alone.
#[derive(Drop)]
pub struct Counting<'a> {
    passages: Option<&'a [u64]>,
}

impl<'a> Model for Counting<'a> {
    ghost use Rattle.std.specs.Prelude.{List, Option, ℕ};
    ghost use Rattle.std.specs.Option.{option_map};

    ghost Value = { Option (List ℕ) };

    ghost view = { λ c. option_map (λ known. known.now) c.passages };
}

impl<'a> Counting<'a> {
    /// The words of the code.
    pub fn code() -> Counting<'a>
        ensures { result ≡ None }
    {
        Counting { passages: None }
    }

    /// The words of one passage, given those of each function.
    pub fn passage(known: &'a [u64]) -> Counting<'a>
        ensures { result ≡ Some known.now }
    {
        Counting {
            passages: Some(known),
        }
    }

    /// What a call of a function adds.
    fn called(&self, function: u32) -> u64
        ensures { result ≡ called_words self.now function }
    {
        match self.passages {
            None => 0,
            Some(known) => known_of(known, function as usize),
        }
    }

    /// A loop, given the words of its test and those of its body.
    fn turns(&self, most: Option<u32>, test: u64, body: u64) -> u64
        ensures { result ≡ min MOST_WORDS (loop_words self.now most test body) }
    {
        let turn = plus(plus(8, test), body);
        let Some(most) = most else {
            return turn;
        };
        match self.passages {
            None => plus(4, turn),
            Some(_) => plus(12, times(u64::from(most) + 1, turn)),
        }
    }
}

#[cycle(statement)]
fn statement(s: &Stmt<u32>, counting: &Counting<'_>) -> u64
    ensures { result ≡ min MOST_WORDS (statement_words counting.now s.now) }
{
    match s {
        Stmt::Skip => 0,
        Stmt::Assign { goal, value } => {
            let target = expressions::goal(goal);
            plus(target, expressions::expression(value))
        }
        Stmt::Call {
            goal,
            function,
            arguments,
        } => {
            let called = counting.called(*function);
            plus(expressions::call(goal, arguments.as_slice()), called)
        }
        Stmt::Block(all) => statements(all.as_slice(), counting),
        Stmt::If { test, yes, no } => {
            let tested = plus(8, expressions::expression(test));
            let both = plus(tested, statement(yes.get(), counting));
            match no {
                None => both,
                Some(no) => plus(both, statement(no.get(), counting)),
            }
        }
        Stmt::While {
            span: _,
            test,
            most,
            body,
        } => {
            let tested = expressions::expression(test);
            counting.turns(*most, tested, statement(body.get(), counting))
        }
        Stmt::Eot(_) => 4,
        Stmt::Par {
            span: _,
            threads: _,
        } => 4,
        Stmt::Abort {
            span: _,
            weak: _,
            body,
            test,
        } => {
            let tested = plus(8, expressions::expression(test));
            plus(tested, statement(body.get(), counting))
        }
    }
}

#[cycle(statement)]
fn statements(all: &[Stmt<u32>], counting: &Counting<'_>) -> u64
    ensures { result ≡ min MOST_WORDS (sum_by (statement_words counting.now) all.now) }
{
    let mut total = 0;
    for s in all {
        total = plus(total, statement(s, counting));
    }
    total
}

/// A function.
pub fn function(f: &Function, counting: &Counting<'_>) -> u64
    ensures { result ≡ min MOST_WORDS (function_words counting.now f.now) }
{
    plus(frame(f), statements(f.body.as_slice(), counting))
}
