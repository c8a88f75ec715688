ghost use Rattle.std.specs.Prelude.{◌≡◌, ◌+◌, min, map, sum_by, IfOk, if◌then◌else◌};
ghost use Rattle.pc_rules.specs.Weights.{function_weight, function_passage, program_weight, passages, thread_sum, program_passage};

use crate::known::known_of;
use crate::statements::{Counting, function};
use crate::sums::{MOST_WORDS, plus};
use pc_grammar::{Function, Typed};
use pt_base::{MOST_PASSAGE, MOST_WEIGHT, Memory};
use std::alloc::Global;

/// The most words of a function's code.
fn code_of(f: &Function) -> u64
    ensures { result ≡ min MOST_WORDS (function_weight f.now) }
{
    function(f, &Counting::code())
}

fn code_words(all: &[Function]) -> u64
    ensures { result ≡ min MOST_WORDS (sum_by function_weight all.now) }
{
    let mut total = 0;
    for f in all {
        total = plus(total, code_of(f));
    }
    total
}

/// The most words of a program's code, and one more than the limit for every greater number.
pub fn weight(typed: &Typed) -> u64
    ensures { result ≡ min (MOST_WEIGHT + 1) (program_weight typed.now) }
{
    code_words(typed.functions()).min(u64::from(MOST_WEIGHT) + 1)
}

/// The most words of one passage of a function, given those of the functions before it.
fn passage_of(f: &Function, known: &[u64]) -> u64
    ensures { result ≡ min MOST_WORDS (function_passage known.now f.now) }
{
    function(f, &Counting::passage(known))
}

/// Of each function the most words of one passage, each from those before it.
fn passage_of_each(alloc: Global, functions: &[Function]) -> Result<Vec<u64>, Memory>
    ensures { IfOk result (λ known. known.items ≡ map (min MOST_WORDS) (passages functions.now)) }
{
    let mut known: Vec<u64> = Vec::new(alloc);
    for f in functions {
        let words = passage_of(f, &known);
        known.push(words)?;
    }
    Ok(known)
}

fn thread_words(f: &Function, words: u64) -> u64
    ensures { result ≡ if f.now.thread then words else 0 }
{
    if f.thread { words } else { 0 }
}

/// The sum over the threads.
fn thread_passages(functions: &[Function], sizes: &[u64]) -> u64
    ensures { result ≡ min MOST_WORDS (thread_sum functions.now sizes.now) }
{
    let mut total = 0;
    for i in 0..functions.len() {
        total = plus(total, thread_words(&functions[i], known_of(sizes, i)));
    }
    total
}

/// The most words of one passage of all threads, and one more than the limit for every greater number.
pub fn passage(alloc: Global, typed: &Typed) -> Result<u64, Memory>
    ensures { IfOk result (λ words. words ≡ min (MOST_PASSAGE + 1) (program_passage typed.now)) }
{
    let sizes = passage_of_each(alloc, typed.functions())?;
    Ok(thread_passages(typed.functions(), &sizes))
}
