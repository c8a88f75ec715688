ghost use Rattle.std.specs.Prelude.{◌≡◌, ◌+◌, ◌<◌, ◌≤◌, ℤ, pos, IsTrue, List, [], ◌∷◌, ◌++◌, OnOk, IfOk, if◌then◌else◌};
ghost use Rattle.mb_isa.specs.declared.words.Instr.TheVariants.{Imm, Lwi, Swi};
ghost use Rattle.pc_regs.specs.Placement.{IsNear};
ghost use Rattle.pc_regs.specs.Words.{is_short, upper_half, lower_half, byte_of, constant, load_word, store_word, register_for, fetched, delivered, wide};
ghost use Rattle.pc_regs.specs.Writings.{instrs};

use crate::placement::Location;
use mb_isa::{Instr, Reg};
use pt_base::Memory;

/// Words behind the others.
pub fn push(out: &mut Vec<Instr>, words: &[Instr]) -> Result<(), Memory>
    ensures { OnOk result (out.new.items ≡ out.old.items ++ words.now) }
{
    out.extend_from_slice(words)?;
    Ok(())
}

// Whether a number fits the 16 bits of a word's imm.
fn is_short(number: i32) -> bool
    ensures { result ≡ is_short number }
{
    -32768 <= number && number < 32768
}

// Puts an `imm` with a number's upper half behind the other words, where 16 bits don't hold the number, and gives the imm of the
// word that has to follow.
fn push_upper(out: &mut Vec<Instr>, number: i32) -> Result<i16, Memory>
    ensures upper { OnOk result (out.new.items ≡ out.old.items ++ (if is_short number then [] else Imm (upper_half number) ∷ [])) }
    ensures lower { IfOk result (λ imm. imm ≡ (if is_short number then number else lower_half number)) }
{
    if is_short(number) {
        return Ok(number as i16);
    }
    let bits = number.cast_unsigned();
    let imm = ((bits / 65536) as u16).cast_signed();
    push(out, &[Instr::Imm { imm }])?;
    Ok(((bits % 65536) as u16).cast_signed())
}

// The byte of a memory word.
fn byte_of(word: u32) -> i32
    requires { word ≤ 16384 }
    ensures { result ≡ byte_of word }
{
    (4 * word) as i32
}

// A number into a register.
pub fn push_constant(out: &mut Vec<Instr>, rd: Reg, number: i32) -> Result<(), Memory>
    ensures { OnOk result (out.new.items ≡ out.old.items ++ instrs (constant rd number)) }
{
    let imm = push_upper(out, number)?;
    let ra = Reg::R0;
    push(out, &[Instr::Addik { rd, ra, imm }])
}

/// The memory word that stands so many words behind one whose byte a register has, into a register.
pub fn push_load(out: &mut Vec<Instr>, rd: Reg, ra: Reg, word: u32) -> Result<(), Memory>
    requires { word ≤ 16384 }
    ensures { OnOk result (out.new.items ≡ out.old.items ++ instrs (wide (byte_of word) (Lwi rd ra) ∷ [])) }
{
    let imm = push_upper(out, byte_of(word))?;
    push(out, &[Instr::Lwi { rd, ra, imm }])
}

/// A register into that memory word.
pub fn push_store(out: &mut Vec<Instr>, rd: Reg, ra: Reg, word: u32) -> Result<(), Memory>
    requires { word ≤ 16384 }
    ensures { OnOk result (out.new.items ≡ out.old.items ++ instrs (wide (byte_of word) (Swi rd ra) ∷ [])) }
{
    let imm = push_upper(out, byte_of(word))?;
    push(out, &[Instr::Swi { rd, ra, imm }])
}

/// A memory word into a register.
pub fn push_load_word(out: &mut Vec<Instr>, rd: Reg, word: u32) -> Result<(), Memory>
    requires { word ≤ 16384 }
    ensures { OnOk result (out.new.items ≡ out.old.items ++ instrs (load_word rd word)) }
{
    push_load(out, rd, Reg::R0, word)
}

/// A register into a memory word.
pub fn push_store_word(out: &mut Vec<Instr>, rd: Reg, word: u32) -> Result<(), Memory>
    requires { word ≤ 16384 }
    ensures { OnOk result (out.new.items ≡ out.old.items ++ instrs (store_word rd word)) }
{
    push_store(out, rd, Reg::R0, word)
}

/// The register in which a word is used: its own, or this one where it stands in the memory.
pub fn register_for(scratch: Reg, at: Location) -> Reg
    ensures { result ≡ register_for scratch at }
{
    match at {
        Location::Register(register) => register,
        Location::Memory(_) => scratch,
    }
}

/// What brings a word to the register in which it is used.
pub fn push_fetched(out: &mut Vec<Instr>, scratch: Reg, at: Location) -> Result<(), Memory>
    requires { IsNear at }
    ensures { OnOk result (out.new.items ≡ out.old.items ++ instrs (fetched scratch at)) }
{
    match at {
        Location::Register(_) => Ok(()),
        Location::Memory(word) => push_load_word(out, scratch, word),
    }
}

/// What brings a result from there to its place.
pub fn push_delivered(out: &mut Vec<Instr>, scratch: Reg, at: Location) -> Result<(), Memory>
    requires { IsNear at }
    ensures { OnOk result (out.new.items ≡ out.old.items ++ instrs (delivered scratch at)) }
{
    match at {
        Location::Register(_) => Ok(()),
        Location::Memory(word) => push_store_word(out, scratch, word),
    }
}
