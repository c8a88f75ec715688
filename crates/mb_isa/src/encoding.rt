ghost use Rattle.std.specs.Prelude.{◌≡◌, ◌+◌, ◌*◌, ◌<◌};
ghost use Rattle.std.specs.Int.{w16, cast_unsigned};
ghost use Rattle.mb_isa.specs.Registers.{number};
ghost use Rattle.mb_isa.specs.Codes.{word_of, code_of, IsInstr};

use crate::registers::Reg;
use crate::words::Instr;

fn word(op: u8, rd: u8, ra: u8, low: u16) -> u32
    requires op { op < 64 }
    requires rd { rd < 32 }
    requires ra { ra < 32 }
    ensures { result ≡ word_of op rd ra low }
{
    ((u32::from(op) * 32 + u32::from(rd)) * 32 + u32::from(ra)) * 65536 + u32::from(low)
}

fn three(op: u8, rd: Reg, ra: Reg, rb: Reg, low: u16) -> u32
    requires op { op < 64 }
    requires low { low < 2048 }
    ensures { result ≡ word_of op (number rd) (number ra) (number rb * 2048 + low) }
{
    word(
        op,
        rd.number(),
        ra.number(),
        u16::from(rb.number()) * 2048 + low,
    )
}

fn two(op: u8, rd: Reg, ra: Reg, imm: i16) -> u32
    requires { op < 64 }
    ensures { result ≡ word_of op (number rd) (number ra) (cast_unsigned w16 imm) }
{
    word(op, rd.number(), ra.number(), imm.cast_unsigned())
}

fn unit(function: u8, ra: Reg, low: u16) -> u32
    requires { function < 32 }
    ensures { result ≡ word_of 63 function (number ra) low }
{
    word(63, function, ra.number(), low)
}

fn branch(test: u8, ra: Reg, imm: i16) -> u32
    requires { test < 32 }
    ensures { result ≡ word_of 47 test (number ra) (cast_unsigned w16 imm) }
{
    word(47, test, ra.number(), imm.cast_unsigned())
}

/// The code of an instruction word.
pub fn encode(i: &Instr) -> u32
    ensures code { result ≡ code_of i.now }
    ensures parts { IsInstr i.now }
{
    match i {
        Instr::Addk { rd, ra, rb } => three(4, *rd, *ra, *rb, 0),
        Instr::Rsubk { rd, ra, rb } => three(5, *rd, *ra, *rb, 0),
        Instr::Cmp { rd, ra, rb } => three(5, *rd, *ra, *rb, 1),
        Instr::Or { rd, ra, rb } => three(32, *rd, *ra, *rb, 0),
        Instr::And { rd, ra, rb } => three(33, *rd, *ra, *rb, 0),
        Instr::Xor { rd, ra, rb } => three(34, *rd, *ra, *rb, 0),
        Instr::Mul { rd, ra, rb } => three(16, *rd, *ra, *rb, 0),
        Instr::Idiv { rd, ra, rb } => three(18, *rd, *ra, *rb, 0),
        Instr::Bsrl { rd, ra, rb } => three(17, *rd, *ra, *rb, 0),
        Instr::Bsra { rd, ra, rb } => three(17, *rd, *ra, *rb, 512),
        Instr::Bsll { rd, ra, rb } => three(17, *rd, *ra, *rb, 1024),
        Instr::Addik { rd, ra, imm } => two(12, *rd, *ra, *imm),
        Instr::Ori { rd, ra, imm } => two(40, *rd, *ra, *imm),
        Instr::Andi { rd, ra, imm } => two(41, *rd, *ra, *imm),
        Instr::Xori { rd, ra, imm } => two(42, *rd, *ra, *imm),
        Instr::Imm { imm } => two(44, Reg::R0, Reg::R0, *imm),
        Instr::Bri { imm } => two(46, Reg::R0, Reg::R0, *imm),
        Instr::Beqi { ra, imm } => branch(0, *ra, *imm),
        Instr::Bnei { ra, imm } => branch(1, *ra, *imm),
        Instr::Blti { ra, imm } => branch(2, *ra, *imm),
        Instr::Blei { ra, imm } => branch(3, *ra, *imm),
        Instr::Bgti { ra, imm } => branch(4, *ra, *imm),
        Instr::Bgei { ra, imm } => branch(5, *ra, *imm),
        Instr::Lw { rd, ra, rb } => three(50, *rd, *ra, *rb, 0),
        Instr::Sw { rd, ra, rb } => three(54, *rd, *ra, *rb, 0),
        Instr::Lwi { rd, ra, imm } => two(58, *rd, *ra, *imm),
        Instr::Swi { rd, ra, imm } => two(62, *rd, *ra, *imm),
        Instr::Fork { lo, count } => unit(0, Reg::R0, u16::from(*lo) * 256 + u16::from(*count)),
        Instr::Eot => unit(1, Reg::R0, 0),
        Instr::End => unit(2, Reg::R0, 0),
        Instr::Abrt { number } => unit(3, Reg::R0, *number),
        Instr::Leave => unit(4, Reg::R0, 0),
        Instr::Call { target } => unit(5, Reg::R0, *target),
        Instr::Ret => unit(6, Reg::R0, 0),
        Instr::Loop { turns } => unit(7, Reg::R0, *turns),
        Instr::Next { target } => unit(8, Reg::R0, *target),
        Instr::Drop => unit(9, Reg::R0, 0),
        Instr::Cend { ra } => unit(10, *ra, 0),
    }
}
