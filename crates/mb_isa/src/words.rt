ghost use Rattle.std.specs.Prelude.{◌≡◌};
ghost use Rattle.mb_isa.specs.Classes.{class_of, branch_class, takes_upper};

use crate::costs::Class;
use crate::registers::Reg;

/// An instruction word with its parts, in the order of the table of `docs/machine.md`.
#[derive(Clone, Copy)]
pub enum Instr {
    /// `rd = ra + rb`.
    Addk { rd: Reg, ra: Reg, rb: Reg },
    /// `rd = rb - ra`.
    Rsubk { rd: Reg, ra: Reg, rb: Reg },
    /// `rd = rb - ra` with the top bit set exactly where `rb < ra`, signed.
    Cmp { rd: Reg, ra: Reg, rb: Reg },
    /// Bitwise.
    Or { rd: Reg, ra: Reg, rb: Reg },
    /// Bitwise.
    And { rd: Reg, ra: Reg, rb: Reg },
    /// Bitwise.
    Xor { rd: Reg, ra: Reg, rb: Reg },
    /// The low 32 bits of the product.
    Mul { rd: Reg, ra: Reg, rb: Reg },
    /// `rd = rb / ra`.
    Idiv { rd: Reg, ra: Reg, rb: Reg },
    /// `ra` shifted right by `rb` modulo 32, filled with zeros.
    Bsrl { rd: Reg, ra: Reg, rb: Reg },
    /// `ra` shifted right by `rb` modulo 32, filled with its sign.
    Bsra { rd: Reg, ra: Reg, rb: Reg },
    /// `ra` shifted left by `rb` modulo 32.
    Bsll { rd: Reg, ra: Reg, rb: Reg },
    /// `rd = ra + imm`.
    Addik { rd: Reg, ra: Reg, imm: i16 },
    /// Bitwise with `imm`.
    Ori { rd: Reg, ra: Reg, imm: i16 },
    /// Bitwise with `imm`.
    Andi { rd: Reg, ra: Reg, imm: i16 },
    /// Bitwise with `imm`.
    Xori { rd: Reg, ra: Reg, imm: i16 },
    /// Gives the upper half of the next word's immediate.
    Imm { imm: i16 },
    /// Goes to byte `4 * place + imm`.
    Bri { imm: i16 },
    /// The same where `ra = 0`.
    Beqi { ra: Reg, imm: i16 },
    /// Where `ra != 0`.
    Bnei { ra: Reg, imm: i16 },
    /// Where `ra < 0`.
    Blti { ra: Reg, imm: i16 },
    /// Where `ra <= 0`.
    Blei { ra: Reg, imm: i16 },
    /// Where `ra > 0`.
    Bgti { ra: Reg, imm: i16 },
    /// Where `ra >= 0`.
    Bgei { ra: Reg, imm: i16 },
    /// `rd` from byte `ra + rb`.
    Lw { rd: Reg, ra: Reg, rb: Reg },
    /// `rd` to byte `ra + rb`.
    Sw { rd: Reg, ra: Reg, rb: Reg },
    /// `rd` from byte `ra + imm`.
    Lwi { rd: Reg, ra: Reg, imm: i16 },
    /// `rd` to byte `ra + imm`.
    Swi { rd: Reg, ra: Reg, imm: i16 },
    /// Starts the slots `lo` to `lo + count - 1`.
    Fork { lo: u8, count: u8 },
    /// Pauses.
    Eot,
    /// Ends its slot.
    End,
    /// Enters an abort by its number.
    Abrt { number: u16 },
    /// Leaves the innermost abort.
    Leave,
    /// Keeps the next place as a link and goes to a place.
    Call { target: u16 },
    /// Goes to the last link.
    Ret,
    /// Begins a loop of so many turns.
    Loop { turns: u16 },
    /// Takes one turn of the last loop, or drops it and goes to a place.
    Next { target: u16 },
    /// Drops the last loop.
    Drop,
    /// Ends a condition, which holds where `ra` is not 0.
    Cend { ra: Reg },
}

// The class of a conditional branch.
fn branch_class(taken: bool) -> Class
    ensures { result ≡ branch_class taken }
{
    if taken { Class::Taken } else { Class::Untaken }
}

/// The cost class of an instruction word; of a conditional branch, where it is taken or not.
pub fn class(i: &Instr, taken: bool) -> Class
    ensures { result ≡ class_of taken i.now }
{
    match i {
        Instr::Addk { .. } => Class::Alu,
        Instr::Rsubk { .. } => Class::Alu,
        Instr::Cmp { .. } => Class::Alu,
        Instr::Or { .. } => Class::Alu,
        Instr::And { .. } => Class::Alu,
        Instr::Xor { .. } => Class::Alu,
        Instr::Mul { .. } => Class::Mul,
        Instr::Idiv { .. } => Class::Div,
        Instr::Bsrl { .. } => Class::Shift,
        Instr::Bsra { .. } => Class::Shift,
        Instr::Bsll { .. } => Class::Shift,
        Instr::Addik { .. } => Class::Alu,
        Instr::Ori { .. } => Class::Alu,
        Instr::Andi { .. } => Class::Alu,
        Instr::Xori { .. } => Class::Alu,
        Instr::Imm { .. } => Class::Imm,
        Instr::Bri { .. } => Class::Jump,
        Instr::Beqi { .. } => branch_class(taken),
        Instr::Bnei { .. } => branch_class(taken),
        Instr::Blti { .. } => branch_class(taken),
        Instr::Blei { .. } => branch_class(taken),
        Instr::Bgti { .. } => branch_class(taken),
        Instr::Bgei { .. } => branch_class(taken),
        Instr::Lw { .. } => Class::Load,
        Instr::Sw { .. } => Class::Store,
        Instr::Lwi { .. } => Class::Load,
        Instr::Swi { .. } => Class::Store,
        Instr::Fork { .. } => Class::Fork,
        Instr::Eot => Class::Eot,
        Instr::End => Class::End,
        Instr::Abrt { .. } => Class::Abrt,
        Instr::Leave => Class::Leave,
        Instr::Call { .. } => Class::Call,
        Instr::Ret => Class::Ret,
        Instr::Loop { .. } => Class::Loop,
        Instr::Next { .. } => Class::Next,
        Instr::Drop => Class::Drop,
        Instr::Cend { .. } => Class::Cend,
    }
}

/// The word may stand after an `imm`, which then gives its upper half.
pub fn takes_upper(i: &Instr) -> bool
    ensures { result ≡ takes_upper i.now }
{
    matches!(
        i,
        Instr::Addik { .. }
            | Instr::Ori { .. }
            | Instr::Andi { .. }
            | Instr::Xori { .. }
            | Instr::Bri { .. }
            | Instr::Beqi { .. }
            | Instr::Bnei { .. }
            | Instr::Blti { .. }
            | Instr::Blei { .. }
            | Instr::Bgti { .. }
            | Instr::Bgei { .. }
            | Instr::Lwi { .. }
            | Instr::Swi { .. }
            | Instr::Loop { .. }
    )
}
