ghost use Rattle.std.specs.Prelude.{◌≡◌, List, ◌++◌, OnOk};
ghost use Rattle.mb_isa.specs.declared.words.Instr.TheVariants.{Cmp, Or, And};
ghost use Rattle.pc_regs.specs.Words.{unary_words, binary_words, sign, no_sign, unequal, unequal_zero, both_unequal_zero};
ghost use Rattle.pc_regs.specs.Writings.{instrs};

use crate::words::push;
use mb_isa::{Instr, Reg};
use pt_base::{BinOp, Memory, UnOp};

// 1 into a register where r6 is negative, and 0 elsewhere.
fn sign(to: Reg) -> [Instr; 2]
    ensures { result ≡ instrs (sign to) }
{
    [
        Instr::Addik {
            rd: Reg::R7,
            ra: Reg::R0,
            imm: 31,
        },
        Instr::Bsrl {
            rd: to,
            ra: Reg::R6,
            rb: Reg::R7,
        },
    ]
}

// 0 into a register where r6 is negative, and 1 elsewhere.
fn no_sign(to: Reg) -> [Instr; 3]
    ensures { result ≡ instrs (no_sign to) }
{
    [
        Instr::Addik {
            rd: Reg::R7,
            ra: Reg::R0,
            imm: 31,
        },
        Instr::Bsrl {
            rd: Reg::R6,
            ra: Reg::R6,
            rb: Reg::R7,
        },
        Instr::Xori {
            rd: to,
            ra: Reg::R6,
            imm: 1,
        },
    ]
}

// r6 negative where a word isn't 0.
fn unequal_zero(by: Reg) -> [Instr; 2]
    ensures { result ≡ instrs (unequal_zero by) }
{
    [
        Instr::Cmp {
            rd: Reg::R6,
            ra: by,
            rb: Reg::R0,
        },
        Instr::Or {
            rd: Reg::R6,
            ra: Reg::R6,
            rb: by,
        },
    ]
}

// r6 negative where two words differ.
fn unequal(left: Reg, right: Reg) -> [Instr; 3]
    ensures { result ≡ instrs (unequal left right) }
{
    [
        Instr::Cmp {
            rd: Reg::R6,
            ra: right,
            rb: left,
        },
        Instr::Cmp {
            rd: Reg::R7,
            ra: left,
            rb: right,
        },
        Instr::Or {
            rd: Reg::R6,
            ra: Reg::R6,
            rb: Reg::R7,
        },
    ]
}

// r6 and r7 negative where the words aren't 0.
fn both_unequal_zero(left: Reg, right: Reg) -> [Instr; 4]
    ensures { result ≡ instrs (both_unequal_zero left right) }
{
    let [compared, joined] = unequal_zero(left);
    [
        compared,
        joined,
        Instr::Cmp {
            rd: Reg::R7,
            ra: right,
            rb: Reg::R0,
        },
        Instr::Or {
            rd: Reg::R7,
            ra: Reg::R7,
            rb: right,
        },
    ]
}

// r6 negative where the word of one register is above that of another.
fn compared(ra: Reg, rb: Reg) -> Instr
    ensures { result ≡ Cmp Reg.R6 ra rb }
{
    Instr::Cmp {
        rd: Reg::R6,
        ra,
        rb,
    }
}

// r6 negative where r6 or r7 is.
fn r6_or_r7() -> Instr
    ensures { result ≡ Or Reg.R6 Reg.R6 Reg.R7 }
{
    Instr::Or {
        rd: Reg::R6,
        ra: Reg::R6,
        rb: Reg::R7,
    }
}

// r6 negative where r6 and r7 both are.
fn r6_and_r7() -> Instr
    ensures { result ≡ And Reg.R6 Reg.R6 Reg.R7 }
{
    Instr::And {
        rd: Reg::R6,
        ra: Reg::R6,
        rb: Reg::R7,
    }
}

/// The words of an operator on one word.
pub fn push_unary(out: &mut Vec<Instr>, op: UnOp, to: Reg, by: Reg) -> Result<(), Memory>
    ensures { OnOk result (out.new.items ≡ out.old.items ++ instrs (unary_words op to by)) }
{
    match op {
        UnOp::Neg => push(
            out,
            &[Instr::Rsubk {
                rd: to,
                ra: by,
                rb: Reg::R0,
            }],
        ),
        UnOp::Not => {
            push(out, &unequal_zero(by))?;
            push(out, &no_sign(to))
        }
        UnOp::Flip => push(
            out,
            &[Instr::Xori {
                rd: to,
                ra: by,
                imm: -1,
            }],
        ),
    }
}

/// The words of an operator on two words.
pub fn push_binary(
    out: &mut Vec<Instr>,
    op: BinOp,
    to: Reg,
    left: Reg,
    right: Reg,
) -> Result<(), Memory>
    ensures { OnOk result (out.new.items ≡ out.old.items ++ instrs (binary_words op to left right)) }
{
    match op {
        BinOp::Or => {
            push(out, &both_unequal_zero(left, right))?;
            push(out, &[r6_or_r7()])?;
            push(out, &sign(to))
        }
        BinOp::And => {
            push(out, &both_unequal_zero(left, right))?;
            push(out, &[r6_and_r7()])?;
            push(out, &sign(to))
        }
        BinOp::BitOr => push(
            out,
            &[Instr::Or {
                rd: to,
                ra: left,
                rb: right,
            }],
        ),
        BinOp::BitXor => push(
            out,
            &[Instr::Xor {
                rd: to,
                ra: left,
                rb: right,
            }],
        ),
        BinOp::BitAnd => push(
            out,
            &[Instr::And {
                rd: to,
                ra: left,
                rb: right,
            }],
        ),
        BinOp::Equal => {
            push(out, &unequal(left, right))?;
            push(out, &no_sign(to))
        }
        BinOp::NotEqual => {
            push(out, &unequal(left, right))?;
            push(out, &sign(to))
        }
        BinOp::Less => {
            push(out, &[compared(right, left)])?;
            push(out, &sign(to))
        }
        BinOp::LessEqual => {
            push(out, &[compared(left, right)])?;
            push(out, &no_sign(to))
        }
        BinOp::Greater => {
            push(out, &[compared(left, right)])?;
            push(out, &sign(to))
        }
        BinOp::GreaterEqual => {
            push(out, &[compared(right, left)])?;
            push(out, &no_sign(to))
        }
        BinOp::ShiftLeft => push(
            out,
            &[Instr::Bsll {
                rd: to,
                ra: left,
                rb: right,
            }],
        ),
        BinOp::ShiftRight => push(
            out,
            &[Instr::Bsra {
                rd: to,
                ra: left,
                rb: right,
            }],
        ),
        BinOp::Add => push(
            out,
            &[Instr::Addk {
                rd: to,
                ra: left,
                rb: right,
            }],
        ),
        BinOp::Sub => push(
            out,
            &[Instr::Rsubk {
                rd: to,
                ra: right,
                rb: left,
            }],
        ),
        BinOp::Mul => push(
            out,
            &[Instr::Mul {
                rd: to,
                ra: left,
                rb: right,
            }],
        ),
        BinOp::Div => push(
            out,
            &[Instr::Idiv {
                rd: to,
                ra: right,
                rb: left,
            }],
        ),
        BinOp::Rem => push(
            out,
            &[
                Instr::Idiv {
                    rd: Reg::R6,
                    ra: right,
                    rb: left,
                },
                Instr::Mul {
                    rd: Reg::R6,
                    ra: Reg::R6,
                    rb: right,
                },
                Instr::Rsubk {
                    rd: to,
                    ra: Reg::R6,
                    rb: left,
                },
            ],
        ),
    }
}
