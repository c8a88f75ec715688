ghost use Rattle.std.specs.Prelude.{◌≡◌, ◌<◌, Some, IfSome};
ghost use Rattle.std.specs.Int.{w16, cast_signed};
ghost use Rattle.mb_isa.specs.Codes.{code_of, IsInstr};
ghost use Rattle.mb_isa.specs.Candidates.{decoded, shift_candidate, branch_candidate, unit_candidate, candidate_at};

use crate::encoding::encode;
use crate::registers::Reg;
use crate::words::Instr;

fn shift(d: Reg, a: Reg, b: Reg, low: u16) -> Option<Instr>
    ensures { result ≡ shift_candidate d a b low }
{
    match low {
        0 => Some(Instr::Bsrl {
            rd: d,
            ra: a,
            rb: b,
        }),
        512 => Some(Instr::Bsra {
            rd: d,
            ra: a,
            rb: b,
        }),
        1024 => Some(Instr::Bsll {
            rd: d,
            ra: a,
            rb: b,
        }),
        _ => None,
    }
}

fn branch_candidate_of(test: u8, a: Reg, imm: i16) -> Option<Instr>
    ensures { result ≡ branch_candidate test a imm }
{
    match test {
        0 => Some(Instr::Beqi { ra: a, imm }),
        1 => Some(Instr::Bnei { ra: a, imm }),
        2 => Some(Instr::Blti { ra: a, imm }),
        3 => Some(Instr::Blei { ra: a, imm }),
        4 => Some(Instr::Bgti { ra: a, imm }),
        5 => Some(Instr::Bgei { ra: a, imm }),
        _ => None,
    }
}

fn unit_candidate_of(function: u8, a: Reg, low: u16) -> Option<Instr>
    ensures { result ≡ unit_candidate function a low }
{
    match function {
        0 => Some(Instr::Fork {
            lo: (low / 256) as u8,
            count: (low % 256) as u8,
        }),
        1 => Some(Instr::Eot),
        2 => Some(Instr::End),
        3 => Some(Instr::Abrt { number: low }),
        4 => Some(Instr::Leave),
        5 => Some(Instr::Call { target: low }),
        6 => Some(Instr::Ret),
        7 => Some(Instr::Loop { turns: low }),
        8 => Some(Instr::Next { target: low }),
        9 => Some(Instr::Drop),
        10 => Some(Instr::Cend { ra: a }),
        _ => None,
    }
}

// The only instruction that may have these fields.
fn candidate(op: u8, rd: u8, ra: u8, low: u16) -> Option<Instr>
    requires rd { rd < 32 }
    requires ra { ra < 32 }
    ensures { result ≡ candidate_at op rd ra low }
{
    let d = Reg::at(rd);
    let a = Reg::at(ra);
    let b = Reg::at((low / 2048) as u8);
    let imm = low.cast_signed();
    match op {
        4 => Some(Instr::Addk {
            rd: d,
            ra: a,
            rb: b,
        }),
        32 => Some(Instr::Or {
            rd: d,
            ra: a,
            rb: b,
        }),
        33 => Some(Instr::And {
            rd: d,
            ra: a,
            rb: b,
        }),
        34 => Some(Instr::Xor {
            rd: d,
            ra: a,
            rb: b,
        }),
        16 => Some(Instr::Mul {
            rd: d,
            ra: a,
            rb: b,
        }),
        18 => Some(Instr::Idiv {
            rd: d,
            ra: a,
            rb: b,
        }),
        50 => Some(Instr::Lw {
            rd: d,
            ra: a,
            rb: b,
        }),
        54 => Some(Instr::Sw {
            rd: d,
            ra: a,
            rb: b,
        }),
        12 => Some(Instr::Addik { rd: d, ra: a, imm }),
        40 => Some(Instr::Ori { rd: d, ra: a, imm }),
        41 => Some(Instr::Andi { rd: d, ra: a, imm }),
        42 => Some(Instr::Xori { rd: d, ra: a, imm }),
        44 => Some(Instr::Imm { imm }),
        46 => Some(Instr::Bri { imm }),
        58 => Some(Instr::Lwi { rd: d, ra: a, imm }),
        62 => Some(Instr::Swi { rd: d, ra: a, imm }),
        5 => if low % 2048 == 1 {
            Some(Instr::Cmp {
                rd: d,
                ra: a,
                rb: b,
            })
        } else {
            Some(Instr::Rsubk {
                rd: d,
                ra: a,
                rb: b,
            })
        },
        17 => shift(d, a, b, low % 2048),
        47 => branch_candidate_of(rd, a, imm),
        63 => unit_candidate_of(rd, a, low),
        _ => None,
    }
}

/// The instruction word with this code. `None` exactly where no instruction word has it.
pub fn decode(word: u32) -> Option<Instr>
    ensures exact { result ≡ decoded word }
    ensures found { IfSome result (λ i. code_of i ≡ word) }
    ensures every { (i : Instr) → IsInstr i → code_of i ≡ word → result ≡ Some i }
{
    let op = (word / 67108864) as u8;
    let rd = (word / 2097152 % 32) as u8;
    let ra = (word / 65536 % 32) as u8;
    let low = (word % 65536) as u16;
    let found = candidate(op, rd, ra, low)?;
    if encode(&found) == word {
        Some(found)
    } else {
        None
    }
}

/// Decoding undoes encoding.
pub fn decode_encoded(i: &Instr) -> Option<Instr>
    ensures { result ≡ Some i.now }
{
    decode(encode(i))
}
