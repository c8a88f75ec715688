//! The units of a thread's places, as plans read them.

ghost use Rattle.std.specs.Prelude.{◌≡◌, ◌<◌, Some, IfSome};
ghost use Rattle.tk_paths.specs.Words.{instr_at, goal_of, word_of, read_instr};
ghost use Rattle.tk_paths.specs.Regions.{unit_word};

use mb_isa::{Instr, branch_place, class, decode, immediate, takes_upper, turns};
use pt_image::Image;
use tk_numbers::{half, word_place};
use tk_paths::Word;

// The place to which a branch leads, if that is a place of the code.
fn goal(image: &Image, place: u32, upper: Option<i16>, imm: i16) -> Option<u32>
    requires { place < 65536 }
    ensures { result ≡ goal_of image.now place upper imm }
{
    branch_place(image.code().len(), place, immediate(upper, imm))
}

/// What an instruction at a place comes to, read with this upper half.
fn word_of(image: &Image, place: u32, upper: Option<i16>, i: Instr) -> Word
    requires { place < 65536 }
    ensures { result ≡ word_of image.now place upper i }
{
    match i {
        Instr::Addk { .. }
        | Instr::Rsubk { .. }
        | Instr::Cmp { .. }
        | Instr::Or { .. }
        | Instr::And { .. }
        | Instr::Xor { .. }
        | Instr::Mul { .. }
        | Instr::Idiv { .. }
        | Instr::Bsrl { .. }
        | Instr::Bsra { .. }
        | Instr::Bsll { .. }
        | Instr::Addik { .. }
        | Instr::Ori { .. }
        | Instr::Andi { .. }
        | Instr::Xori { .. }
        | Instr::Lw { .. }
        | Instr::Sw { .. }
        | Instr::Lwi { .. }
        | Instr::Swi { .. } => Word::Does {
            class: class(&i, false),
        },
        Instr::Imm { imm } => Word::Imm { upper: imm },
        Instr::Bri { imm } => Word::Jump {
            to: goal(image, place, upper, imm),
        },
        Instr::Beqi { imm, .. } => Word::Branch {
            to: goal(image, place, upper, imm),
        },
        Instr::Bnei { imm, .. } => Word::Branch {
            to: goal(image, place, upper, imm),
        },
        Instr::Blti { imm, .. } => Word::Branch {
            to: goal(image, place, upper, imm),
        },
        Instr::Blei { imm, .. } => Word::Branch {
            to: goal(image, place, upper, imm),
        },
        Instr::Bgti { imm, .. } => Word::Branch {
            to: goal(image, place, upper, imm),
        },
        Instr::Bgei { imm, .. } => Word::Branch {
            to: goal(image, place, upper, imm),
        },
        Instr::Fork { lo, count } => Word::Fork { lo, count },
        Instr::Eot => Word::Eot,
        Instr::End => Word::End,
        Instr::Abrt { number } => Word::Abrt { number },
        Instr::Leave => Word::Leave,
        Instr::Call { target } => Word::Call { to: target },
        Instr::Ret => Word::Ret,
        Instr::Loop { turns: low } => Word::Loop {
            turns: turns(upper, low),
        },
        Instr::Next { target } => Word::Next { to: target },
        Instr::Drop => Word::Drop,
        Instr::Cend { .. } => Word::Cend,
    }
}

// What an instruction comes to, if it may follow the upper half that stands.
fn read(image: &Image, place: u32, upper: Option<i16>, i: Instr) -> Option<Word>
    requires { place < 65536 }
    ensures { result ≡ read_instr image.now place upper (Some i) }
{
    if upper.is_some() && !takes_upper(&i) {
        return None;
    }
    Some(word_of(image, place, upper, i))
}

/// The instruction at a place, if there is one.
pub fn instr_in(image: &Image, place: usize) -> Option<Instr>
    ensures instr { result ≡ instr_at image.now place }
    ensures inside { IfSome result (λ i. place < 65536) }
{
    image.ranges();
    decode(*image.code().get(place)?)
}

/// The word of the unit at a place.
pub fn unit_word(image: &Image, place: usize) -> Option<Word>
    ensures word { result ≡ unit_word image.now place }
    ensures inside { IfSome result (λ w. place < 65536) }
{
    let word = word_place(image, place);
    let i = instr_in(image, word)?;
    read(image, word as u32, half(image, place), i)
}
