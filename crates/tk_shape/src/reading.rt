//! What the words of an image come to.

ghost use Rattle.std.specs.Prelude.{◌≡◌, ◌<◌, Some};
ghost use Rattle.tk_paths.specs.Words.{instr_at, goal_of, word_of, read_instr};
ghost use Rattle.tk_paths.specs.Kinds.{line_at, imm_in, upper_behind, upper_at, word_in, word_at};

use mb_isa::{Instr, branch_place, class, decode, immediate, takes_upper, turns};
use pt_image::Image;
use tk_cert::{Cert, Line};
use tk_paths::Word;

/// The instruction at a place, if there is one.
pub fn instr_at(image: &Image, place: usize) -> Option<Instr>
    ensures { result ≡ instr_at image.now place }
{
    decode(*image.code().get(place)?)
}

// The imm of an `imm` word.
fn imm_in(word: Option<Instr>) -> Option<i16>
    ensures { result ≡ imm_in word }
{
    match word? {
        Instr::Imm { imm } => Some(imm),
        _ => None,
    }
}

// The upper half behind a place.
fn upper_behind(image: &Image, cert: &Cert, place: usize) -> Option<i16>
    ensures { result ≡ upper_behind (line_at cert.now.lines place) (instr_at image.now place) }
{
    match cert.lines().get(place)? {
        Line::Bare => None,
        Line::Thread { .. } => imm_in(instr_at(image, place)),
        Line::Routine { .. } => imm_in(instr_at(image, place)),
        Line::Cond { .. } => imm_in(instr_at(image, place)),
    }
}

/// The upper half with which the word of a place is read.
pub fn upper_at(image: &Image, cert: &Cert, place: usize) -> Option<i16>
    ensures { result ≡ upper_at image.now cert.now.lines place }
{
    if place == 0 {
        return None;
    }
    upper_behind(image, cert, place - 1)
}

// The place to which a branch leads, if that is a place of the code.
fn goal(image: &Image, place: u32, upper: Option<i16>, imm: i16) -> Option<u32>
    requires { place < 65536 }
    ensures { result ≡ goal_of image.now place upper imm }
{
    branch_place(image.code().len(), place, immediate(upper, imm))
}

/// What an instruction at a place comes to, read with this upper half.
pub fn word_of(image: &Image, place: u32, upper: Option<i16>, i: Instr) -> Word
    requires { place < 65536 }
    ensures { result ≡ word_of image.now place upper i }
{
    match i {
        Instr::Addk { .. }
        | Instr::Rsubk { .. }
        | Instr::Cmp { .. }
        | Instr::Or { .. }
        | Instr::And { .. }
        | Instr::Xor { .. }
        | Instr::Mul { .. }
        | Instr::Idiv { .. }
        | Instr::Bsrl { .. }
        | Instr::Bsra { .. }
        | Instr::Bsll { .. }
        | Instr::Addik { .. }
        | Instr::Ori { .. }
        | Instr::Andi { .. }
        | Instr::Xori { .. }
        | Instr::Lw { .. }
        | Instr::Sw { .. }
        | Instr::Lwi { .. }
        | Instr::Swi { .. } => Word::Does {
            class: class(&i, false),
        },
        Instr::Imm { imm } => Word::Imm { upper: imm },
        Instr::Bri { imm } => Word::Jump {
            to: goal(image, place, upper, imm),
        },
        Instr::Beqi { imm, .. } => Word::Branch {
            to: goal(image, place, upper, imm),
        },
        Instr::Bnei { imm, .. } => Word::Branch {
            to: goal(image, place, upper, imm),
        },
        Instr::Blti { imm, .. } => Word::Branch {
            to: goal(image, place, upper, imm),
        },
        Instr::Blei { imm, .. } => Word::Branch {
            to: goal(image, place, upper, imm),
        },
        Instr::Bgti { imm, .. } => Word::Branch {
            to: goal(image, place, upper, imm),
        },
        Instr::Bgei { imm, .. } => Word::Branch {
            to: goal(image, place, upper, imm),
        },
        Instr::Fork { lo, count } => Word::Fork { lo, count },
        Instr::Eot => Word::Eot,
        Instr::End => Word::End,
        Instr::Abrt { number } => Word::Abrt { number },
        Instr::Leave => Word::Leave,
        Instr::Call { target } => Word::Call { to: target },
        Instr::Ret => Word::Ret,
        Instr::Loop { turns: low } => Word::Loop {
            turns: turns(upper, low),
        },
        Instr::Next { target } => Word::Next { to: target },
        Instr::Drop => Word::Drop,
        Instr::Cend { .. } => Word::Cend,
    }
}

// What an instruction comes to, if it may follow the upper half that stands.
fn read(image: &Image, place: u32, upper: Option<i16>, i: Instr) -> Option<Word>
    requires { place < 65536 }
    ensures { result ≡ read_instr image.now place upper (Some i) }
{
    if upper.is_some() && !takes_upper(&i) {
        return None;
    }
    Some(word_of(image, place, upper, i))
}

/// What the word of a place comes to; none where it can't be read so.
pub fn word_at(image: &Image, cert: &Cert, place: usize) -> Option<Word>
    requires { place < 65536 }
    ensures { result ≡ word_at image.now cert.now.lines place }
{
    let i = instr_at(image, place)?;
    read(image, place as u32, upper_at(image, cert, place), i)
}

/// What the instruction of a place comes to, whether or not it may follow the word before it.
pub fn word_in(image: &Image, cert: &Cert, place: usize) -> Option<Word>
    requires { place < 65536 }
    ensures { result ≡ word_in image.now cert.now.lines place }
{
    let i = instr_at(image, place)?;
    Some(word_of(image, place as u32, upper_at(image, cert, place), i))
}
