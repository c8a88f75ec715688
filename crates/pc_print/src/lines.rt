ghost use Rattle.std.specs.Prelude.{◌≡◌, ◌+◌, [], ◌∷◌, ◌++◌, OnOk, IfOk};
ghost use Rattle.pc_grammar.specs.Spelling.{spelling_of};
ghost use Rattle.pc_print.specs.Parts.{text, mark, blanks};
ghost use Rattle.pc_print.specs.Canonical.{expression, in_parentheses, listed, more_listed, behind_comma, named, line, goal, equals, most_turns, weakly, pause_line, assignment_line, call_line, threads_line, if_line, while_line, abort_line, when_line};

use crate::expressions::put_expression;
use crate::marks::{put_blank, put_mark, put_word};
use pc_grammar::{Expr, Goal, Sort, Word};
use pt_base::{Memory, put_number};

/// The next level. No memory holds a tree whose levels go beyond 64 bits.
pub fn deeper(level: u64) -> Result<u64, Memory>
    ensures { IfOk result (λ n. n ≡ level + 1) }
{
    level.checked_add(1).ok_or(Memory)
}

/// Puts two blanks for each level at the end.
#[tactic(auto, using(crate::proofs::Pieces::pieces_are))]
pub fn put_margin(out: &mut Vec<u8>, level: u64) -> Result<(), Memory>
    ensures { OnOk result (out.new.items ≡ out.old.items ++ blanks level) }
{
    for _turn in 0..level {
        out.extend_from_slice(b"  ")?;
    }
    Ok(())
}

/// Puts a line's end at the end.
pub fn put_line_end(out: &mut Vec<u8>) -> Result<(), Memory>
    ensures { OnOk result (out.new.items ≡ out.old.items ++ 10 ∷ []) }
{
    out.push(b'\n')?;
    Ok(())
}

/// Puts `;` and the line's end at the end.
#[tactic(auto, using(crate::proofs::Pieces::pieces_are))]
pub fn put_stop(out: &mut Vec<u8>) -> Result<(), Memory>
    ensures { OnOk result (out.new.items ≡ out.old.items ++ (spelling_of Sort.Semicolon ++ 10 ∷ [])) }
{
    put_mark(out, Sort::Semicolon)?;
    put_line_end(out)
}

/// Puts a line of one keyword or sign at the end.
#[tactic(auto, using(crate::proofs::Pieces::pieces_are))]
pub fn put_mark_line(out: &mut Vec<u8>, level: u64, sort: Sort) -> Result<(), Memory>
    ensures { OnOk result (out.new.items ≡ out.old.items ++ text (line level (mark sort ∷ []))) }
{
    put_margin(out, level)?;
    put_mark(out, sort)?;
    put_line_end(out)
}

/// Puts an expression in parentheses at the end.
#[tactic(auto, using(crate::proofs::Pieces::pieces_are))]
fn put_condition(out: &mut Vec<u8>, test: &Expr<Word>) -> Result<(), Memory>
    ensures { OnOk result (out.new.items ≡ out.old.items ++ text (in_parentheses (expression test.now))) }
{
    put_mark(out, Sort::OpenParenthesis)?;
    put_expression(out, test)?;
    put_mark(out, Sort::CloseParenthesis)
}

/// Puts an assignment's goal and its `=` at the end.
#[tactic(auto, using(crate::proofs::Pieces::pieces_are))]
fn put_goal(out: &mut Vec<u8>, target: &Goal<Word>) -> Result<(), Memory>
    ensures { OnOk result (out.new.items ≡ out.old.items ++ text (goal target.now)) }
{
    match target {
        Goal::Nothing => Ok(()),
        Goal::Var(name) => {
            put_word(out, name)?;
            put_equals(out)
        }
        Goal::Elem(name, index) => {
            put_word(out, name)?;
            put_mark(out, Sort::OpenBracket)?;
            put_expression(out, index)?;
            put_mark(out, Sort::CloseBracket)?;
            put_equals(out)
        }
    }
}

/// Puts `=` with a blank on each side at the end.
#[tactic(auto, using(crate::proofs::Pieces::pieces_are))]
pub fn put_equals(out: &mut Vec<u8>) -> Result<(), Memory>
    ensures { OnOk result (out.new.items ≡ out.old.items ++ text equals) }
{
    put_blank(out)?;
    put_mark(out, Sort::Equals)?;
    put_blank(out)
}

/// Puts an argument behind a comma at the end.
#[tactic(auto, using(crate::proofs::Pieces::pieces_are))]
fn put_further_argument(out: &mut Vec<u8>, e: &Expr<Word>) -> Result<(), Memory>
    ensures { OnOk result (out.new.items ≡ out.old.items ++ text (behind_comma (expression e.now))) }
{
    put_mark(out, Sort::Comma)?;
    put_blank(out)?;
    put_expression(out, e)
}

/// Puts arguments with commas between them at the end.
#[tactic(auto, using(crate::proofs::Pieces::pieces_are))]
fn put_arguments(out: &mut Vec<u8>, arguments: &[Expr<Word>]) -> Result<(), Memory>
    ensures { OnOk result (out.new.items ≡ out.old.items ++ text (listed expression arguments.now)) }
{
    let Some((head, rest)) = arguments.split_first() else {
        return Ok(());
    };
    put_expression(out, head)?;
    put_more_arguments(out, rest)
}

/// Puts arguments at the end, each behind a comma.
fn put_more_arguments(out: &mut Vec<u8>, rest: &[Expr<Word>]) -> Result<(), Memory>
    ensures { OnOk result (out.new.items ≡ out.old.items ++ text (more_listed expression rest.now)) }
{
    for e in rest {
        put_further_argument(out, e)?;
    }
    Ok(())
}

/// Puts a name behind a comma at the end.
#[tactic(auto, using(crate::proofs::Pieces::pieces_are))]
fn put_further_name(out: &mut Vec<u8>, name: &Word) -> Result<(), Memory>
    ensures { OnOk result (out.new.items ≡ out.old.items ++ text (behind_comma (named name.now))) }
{
    put_mark(out, Sort::Comma)?;
    put_blank(out)?;
    put_word(out, name)
}

/// Puts names with commas between them at the end.
#[tactic(auto, using(crate::proofs::Pieces::pieces_are))]
fn put_names(out: &mut Vec<u8>, names: &[Word]) -> Result<(), Memory>
    ensures { OnOk result (out.new.items ≡ out.old.items ++ text (listed named names.now)) }
{
    let Some((head, rest)) = names.split_first() else {
        return Ok(());
    };
    put_word(out, head)?;
    put_more_names(out, rest)
}

/// Puts names at the end, each behind a comma.
#[tactic(auto, using(crate::proofs::Pieces::pieces_are))]
fn put_more_names(out: &mut Vec<u8>, rest: &[Word]) -> Result<(), Memory>
    ensures { OnOk result (out.new.items ≡ out.old.items ++ text (more_listed named rest.now)) }
{
    for name in rest {
        put_further_name(out, name)?;
    }
    Ok(())
}

/// Puts arguments in parentheses at the end.
#[tactic(auto, using(crate::proofs::Pieces::pieces_are))]
fn put_all_arguments(out: &mut Vec<u8>, arguments: &[Expr<Word>]) -> Result<(), Memory>
    ensures { OnOk result (out.new.items ≡ out.old.items ++ text (in_parentheses (listed expression arguments.now))) }
{
    put_mark(out, Sort::OpenParenthesis)?;
    put_arguments(out, arguments)?;
    put_mark(out, Sort::CloseParenthesis)
}

/// Puts names in parentheses at the end.
#[tactic(auto, using(crate::proofs::Pieces::pieces_are))]
fn put_all_names(out: &mut Vec<u8>, names: &[Word]) -> Result<(), Memory>
    ensures { OnOk result (out.new.items ≡ out.old.items ++ text (in_parentheses (listed named names.now))) }
{
    put_mark(out, Sort::OpenParenthesis)?;
    put_names(out, names)?;
    put_mark(out, Sort::CloseParenthesis)
}

/// Puts the line of an assignment at the end.
#[tactic(auto, using(crate::proofs::Pieces::pieces_are))]
pub fn put_assignment(
    out: &mut Vec<u8>,
    level: u64,
    target: &Goal<Word>,
    value: &Expr<Word>,
) -> Result<(), Memory>
    ensures { OnOk result (out.new.items ≡ out.old.items ++ text (assignment_line level target.now value.now)) }
{
    put_margin(out, level)?;
    put_goal(out, target)?;
    put_expression(out, value)?;
    put_stop(out)
}

/// Puts the line of a call at the end.
#[tactic(auto, using(crate::proofs::Pieces::pieces_are))]
pub fn put_call(
    out: &mut Vec<u8>,
    level: u64,
    target: &Goal<Word>,
    function: &Word,
    arguments: &[Expr<Word>],
) -> Result<(), Memory>
    ensures { OnOk result (out.new.items ≡ out.old.items ++ text (call_line level target.now function.now arguments.now)) }
{
    put_margin(out, level)?;
    put_goal(out, target)?;
    put_word(out, function)?;
    put_all_arguments(out, arguments)?;
    put_stop(out)
}

/// Puts the line of a `PAR` at the end.
#[tactic(auto, using(crate::proofs::Pieces::pieces_are))]
pub fn put_threads(out: &mut Vec<u8>, level: u64, threads: &[Word]) -> Result<(), Memory>
    ensures { OnOk result (out.new.items ≡ out.old.items ++ text (threads_line level threads.now)) }
{
    put_margin(out, level)?;
    put_mark(out, Sort::ParWord)?;
    put_all_names(out, threads)?;
    put_stop(out)
}

/// Puts the line `EOT;` at the end.
#[tactic(auto, using(crate::proofs::Pieces::pieces_are))]
pub fn put_pause(out: &mut Vec<u8>, level: u64) -> Result<(), Memory>
    ensures { OnOk result (out.new.items ≡ out.old.items ++ text (pause_line level)) }
{
    put_margin(out, level)?;
    put_mark(out, Sort::EotWord)?;
    put_stop(out)
}

/// Puts the line of an `if` at the end.
#[tactic(auto, using(crate::proofs::Pieces::pieces_are))]
pub fn put_if(out: &mut Vec<u8>, level: u64, test: &Expr<Word>) -> Result<(), Memory>
    ensures { OnOk result (out.new.items ≡ out.old.items ++ text (if_line level test.now)) }
{
    put_margin(out, level)?;
    put_mark(out, Sort::IfWord)?;
    put_blank(out)?;
    put_condition(out, test)?;
    put_line_end(out)
}

/// Puts ` #n` at the end, where a loop has it.
#[tactic(auto, using(crate::proofs::Pieces::pieces_are))]
fn put_most_turns(out: &mut Vec<u8>, most: Option<u32>) -> Result<(), Memory>
    ensures { OnOk result (out.new.items ≡ out.old.items ++ text (most_turns most)) }
{
    let Some(turns) = most else {
        return Ok(());
    };
    put_blank(out)?;
    put_mark(out, Sort::Hash)?;
    put_number(out, u64::from(turns))?;
    Ok(())
}

/// Puts the line of a `while` at the end.
#[tactic(auto, using(crate::proofs::Pieces::pieces_are))]
pub fn put_while(
    out: &mut Vec<u8>,
    level: u64,
    test: &Expr<Word>,
    most: Option<u32>,
) -> Result<(), Memory>
    ensures { OnOk result (out.new.items ≡ out.old.items ++ text (while_line level test.now most)) }
{
    put_margin(out, level)?;
    put_mark(out, Sort::WhileWord)?;
    put_blank(out)?;
    put_condition(out, test)?;
    put_most_turns(out, most)?;
    put_line_end(out)
}

/// Puts `weak` and a blank at the end, where an abort is weak.
#[tactic(auto, using(crate::proofs::Pieces::pieces_are))]
fn put_weakly(out: &mut Vec<u8>, weak: bool) -> Result<(), Memory>
    ensures { OnOk result (out.new.items ≡ out.old.items ++ text (weakly weak)) }
{
    if weak {
        put_mark(out, Sort::WeakWord)?;
        put_blank(out)?;
    }
    Ok(())
}

/// Puts the line before an abort's body at the end.
#[tactic(auto, using(crate::proofs::Pieces::pieces_are))]
pub fn put_abort(out: &mut Vec<u8>, level: u64, weak: bool) -> Result<(), Memory>
    ensures { OnOk result (out.new.items ≡ out.old.items ++ text (abort_line level weak)) }
{
    put_margin(out, level)?;
    put_weakly(out, weak)?;
    put_mark(out, Sort::AbortWord)?;
    put_line_end(out)
}

/// Puts the line after an abort's body at the end.
#[tactic(auto, using(crate::proofs::Pieces::pieces_are))]
pub fn put_when(out: &mut Vec<u8>, level: u64, test: &Expr<Word>) -> Result<(), Memory>
    ensures { OnOk result (out.new.items ≡ out.old.items ++ text (when_line level test.now)) }
{
    put_margin(out, level)?;
    put_mark(out, Sort::WhenWord)?;
    put_blank(out)?;
    put_mark(out, Sort::PreWord)?;
    put_blank(out)?;
    put_condition(out, test)?;
    put_stop(out)
}
