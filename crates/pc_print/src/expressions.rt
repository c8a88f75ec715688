ghost use Rattle.std.specs.Prelude.{◌≡◌, ◌++◌, OnOk};
ghost use Rattle.pc_print.specs.Parts.{text};
ghost use Rattle.pc_print.specs.Canonical.{written, pieces, chain_level, gap, is_neg, tighter, further, operands, expression_text};

use crate::marks::{binary_sort, put_blank, put_mark, put_word, unary_sort};
use pc_grammar::{Expr, Sort, Word, level_number};
use pt_base::{BinOp, Memory, UnOp, put_number};

/// Whether the expression is a unary `-`.
#[tactic(auto, using(crate::proofs::Pieces::pieces_are))]
fn negates(e: &Expr<Word>) -> bool
    ensures { result ≡ (written e.now).negates }
{
    match e {
        Expr::Unary(UnOp::Neg, _) => true,
        _ => false,
    }
}

/// The level of a chain's operators.
fn level_of_chain(rest: &[(BinOp, Expr<Word>)]) -> u32
    ensures { result ≡ chain_level rest.now }
{
    match rest {
        [] => 1,
        [(op, _), ..] => level_number(*op),
    }
}

/// The level of the chain that an expression is, 0 where it is none.
#[tactic(auto, using(crate::proofs::Pieces::pieces_are))]
fn level(e: &Expr<Word>) -> u32
    ensures { result ≡ (written e.now).level }
{
    match e {
        Expr::Chain(_, rest) => level_of_chain(rest.as_slice()),
        _ => 0,
    }
}

/// Puts a blank at the end where it stands between two unary `-`.
fn put_gap(out: &mut Vec<u8>, op: UnOp, e: &Expr<Word>) -> Result<(), Memory>
    ensures { OnOk result (out.new.items ≡ out.old.items ++ text (gap op (written e.now).negates)) }
{
    if matches!(op, UnOp::Neg) && negates(e) {
        put_blank(out)?;
    }
    Ok(())
}

/// Puts an expression at the end.
#[cycle(put_expression)]
#[tactic(auto, using(crate::proofs::Pieces::pieces_are))]
pub fn put_expression(out: &mut Vec<u8>, e: &Expr<Word>) -> Result<(), Memory>
    ensures { OnOk result (out.new.items ≡ out.old.items ++ expression_text e.now) }
{
    match e {
        Expr::Number(value) => {
            put_number(out, u64::from(*value))?;
            Ok(())
        }
        Expr::Var(name) => put_word(out, name),
        Expr::Elem(name, index) => {
            put_word(out, name)?;
            put_mark(out, Sort::OpenBracket)?;
            put_expression(out, index.get())?;
            put_mark(out, Sort::CloseBracket)
        }
        Expr::Unary(op, e) => {
            put_mark(out, unary_sort(*op))?;
            put_gap(out, *op, e.get())?;
            put_tighter(out, e.get(), 1)
        }
        Expr::Chain(head, rest) => {
            let level = level_of_chain(rest.as_slice());
            put_tighter(out, head.get(), level)?;
            put_operands(out, rest.as_slice(), level)
        }
    }
}

/// Puts an expression at the end, in parentheses where it is a chain of this level or of a looser one.
#[cycle(put_expression)]
#[tactic(auto, using(crate::proofs::Pieces::pieces_are))]
fn put_tighter(out: &mut Vec<u8>, e: &Expr<Word>, limit: u32) -> Result<(), Memory>
    ensures { OnOk result (out.new.items ≡ out.old.items ++ text (tighter limit (written e.now))) }
{
    if level(e) < limit {
        return put_expression(out, e);
    }
    put_mark(out, Sort::OpenParenthesis)?;
    put_expression(out, e)?;
    put_mark(out, Sort::CloseParenthesis)
}

/// Puts each operator and its operand at the end.
#[cycle(put_expression)]
#[tactic(auto, using(crate::proofs::Pieces::pieces_are))]
fn put_operands(out: &mut Vec<u8>, rest: &[(BinOp, Expr<Word>)], level: u32) -> Result<(), Memory>
    ensures { OnOk result (out.new.items ≡ out.old.items ++ text (operands level (pieces rest.now))) }
{
    for (op, e) in rest {
        put_further(out, *op, e, level)?;
    }
    Ok(())
}

/// Puts an operator of this level and its operand at the end.
#[cycle(put_expression)]
#[tactic(auto, using(crate::proofs::Pieces::pieces_are))]
fn put_further(out: &mut Vec<u8>, op: BinOp, e: &Expr<Word>, level: u32) -> Result<(), Memory>
    ensures { OnOk result (out.new.items ≡ out.old.items ++ text (further level (op, written e.now))) }
{
    put_blank(out)?;
    put_mark(out, binary_sort(op))?;
    put_blank(out)?;
    put_tighter(out, e, level)
}
