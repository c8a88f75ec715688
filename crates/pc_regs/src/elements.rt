ghost use Rattle.std.specs.Prelude.{◌≡◌, ◌+◌, ◌≤◌, List, ◌++◌, OnOk};
ghost use Rattle.pc_regs.specs.Words.{last_index, outside, masked, replaced, take_words, put_words};
ghost use Rattle.pc_regs.specs.Writings.{instrs};

use crate::words::{push, push_load, push_store};
use mb_isa::{Instr, Reg};
use pt_base::Memory;

// The index of the last of so many words, and -1 where there are none.
fn last_index(size: u32) -> i16
    requires { size ≤ 16384 }
    ensures { result ≡ last_index size }
{
    if size == 0 {
        return -1;
    }
    (size - 1) as i16
}

// -1 into r6 where the index is outside of an array of so many words, and 0 within.
fn outside(size: u32, index: Reg) -> [Instr; 5]
    requires { size ≤ 16384 }
    ensures { result ≡ instrs (outside size index) }
{
    [
        Instr::Addik {
            rd: Reg::R6,
            ra: Reg::R0,
            imm: last_index(size),
        },
        Instr::Cmp {
            rd: Reg::R6,
            ra: index,
            rb: Reg::R6,
        },
        Instr::Or {
            rd: Reg::R6,
            ra: Reg::R6,
            rb: index,
        },
        Instr::Addik {
            rd: Reg::R7,
            ra: Reg::R0,
            imm: 31,
        },
        Instr::Bsra {
            rd: Reg::R6,
            ra: Reg::R6,
            rb: Reg::R7,
        },
    ]
}

// The index under the mask that r6 turned gives, four times, into a register; the mask comes to another.
fn masked(mask: Reg, to: Reg, index: Reg) -> [Instr; 4]
    ensures { result ≡ instrs (masked mask to index) }
{
    let doubled = Instr::Addk {
        rd: to,
        ra: to,
        rb: to,
    };
    [
        Instr::Xori {
            rd: mask,
            ra: Reg::R6,
            imm: -1,
        },
        Instr::And {
            rd: to,
            ra: index,
            rb: mask,
        },
        doubled,
        doubled,
    ]
}

/// The words that read an element, or give 0 where the index is outside.
pub fn push_take(
    out: &mut Vec<Instr>,
    to: Reg,
    first: u32,
    size: u32,
    index: Reg,
) -> Result<(), Memory>
    requires { first + size ≤ 16384 }
    ensures { OnOk result (out.new.items ≡ out.old.items ++ instrs (take_words to first size index)) }
{
    push(out, &outside(size, index))?;
    push(out, &masked(Reg::R6, Reg::R7, index))?;
    push_load(out, Reg::R7, Reg::R7, first)?;
    push(
        out,
        &[Instr::And {
            rd: to,
            ra: Reg::R7,
            rb: Reg::R6,
        }],
    )
}

// The memory word that stands so many words behind a first one, under the mask r6, and a word under the mask r7 go there.
fn push_replaced(out: &mut Vec<Instr>, first: u32, by: Reg) -> Result<(), Memory>
    requires { first ≤ 16384 }
    ensures { OnOk result (out.new.items ≡ out.old.items ++ instrs (replaced first by)) }
{
    push(
        out,
        &[Instr::And {
            rd: Reg::R8,
            ra: by,
            rb: Reg::R7,
        }],
    )?;
    push_load(out, Reg::R7, Reg::R3, first)?;
    push(
        out,
        &[
            Instr::And {
                rd: Reg::R7,
                ra: Reg::R7,
                rb: Reg::R6,
            },
            Instr::Or {
                rd: Reg::R7,
                ra: Reg::R7,
                rb: Reg::R8,
            },
        ],
    )?;
    push_store(out, Reg::R7, Reg::R3, first)
}

/// The words that write an element, or nothing where the index is outside.
pub fn push_put(
    out: &mut Vec<Instr>,
    first: u32,
    size: u32,
    index: Reg,
    by: Reg,
) -> Result<(), Memory>
    requires { first + size ≤ 16384 }
    ensures { OnOk result (out.new.items ≡ out.old.items ++ instrs (put_words first size index by)) }
{
    push(out, &outside(size, index))?;
    push(out, &masked(Reg::R7, Reg::R3, index))?;
    push_replaced(out, first, by)
}
