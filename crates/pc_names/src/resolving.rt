ghost use Rattle.std.specs.Prelude.{◌≡◌, ◌<◌, ◌^◌, IfOk, take, position, unwrap_or};
ghost use Rattle.pc_grammar.specs.Breaking as breaking;
ghost use Rattle.pc_grammar.specs.Typing.{functions_in, typing_of};
ghost use Rattle.pc_names.specs.Resolving.{IsResolved};
ghost use Rattle.pt_base.specs.declared.Rule.{Rule};
ghost use Rattle.pt_base.specs.declared.Span.{Span};

use crate::cells::cells;
use crate::finding::{first_fault, is_main_item};
use crate::functions::functions;
use crate::known::functions_with;
use crate::threads::Threads;
use pc_grammar::{Item, Program, Typed};
use pt_base::{Memory, Refusal};
use std::alloc::Global;

#[tactic(auto, using(crate::proofs::Starts::one_function))]
fn count_functions(items: &[Item]) -> u32
    requires { functions_in items.now < 2 ^ 32 }
    ensures { result ≡ functions_in items.now }
{
    let mut count = 0;
    for item in items {
        count = functions_with(count, item);
    }
    count
}

fn main_place(items: &[Item]) -> Option<usize>
    ensures { result ≡ position breaking.is_main_item items.now }
{
    items.iter().position(|item| is_main_item(item))
}

/// The number of the function `main`.
fn main_number(items: &[Item]) -> u32
    requires { functions_in items.now < 2 ^ 32 }
    ensures { result ≡ functions_in (take (unwrap_or (position breaking.is_main_item items.now) 0) items.now) }
{
    match main_place(items) {
        Some(place) => count_functions(&items[..place]),
        None => 0,
    }
}

/// The program with numbers for names, where no rule on names is broken.
#[tactic(auto, unfolding(pc_grammar::specs::Typing::typing_of))]
fn typed(alloc: Global, program: &Program, threads: &Threads<'_>) -> Result<Typed, Memory>
    requires threads { threads.now ≡ program.now.items }
    requires unbroken { (rule : Rule) (span : Span) → breaking.Breaks program.now.items program.now.length rule span → ⊥ }
    ensures { IfOk result (λ typed. typed ≡ typing_of program.now.items program.now.length) }
{
    let items = program.items();
    let length = program.length();
    let cells = cells(alloc, items)?;
    let functions = functions(alloc, items, threads)?;
    let main = main_number(items);
    Typed::of(alloc, cells, functions, main, length)
}

/// The program with numbers for names, or the first rule of N1 to N8 that it breaks: by the start of the span, then by the
/// rule's number.
pub fn resolve(alloc: Global, program: &Program) -> Result<Typed, Refusal>
    ensures { IsResolved program.now result }
{
    let Ok(fault) = first_fault(alloc, program.items(), program.length()) else {
        return Err(Refusal::Memory);
    };
    if let Some((rule, span)) = fault.first.found() {
        return Err(Refusal::Broken { rule, span });
    }
    match typed(alloc, program, &fault.threads) {
        Ok(typed) => Ok(typed),
        Err(Memory) => Err(Refusal::Memory),
    }
}
