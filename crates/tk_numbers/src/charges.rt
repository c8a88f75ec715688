//! What the words of units are charged.

ghost use Rattle.std.specs.Prelude.{◌≡◌, ◌≤◌, ◌<◌, ◌+◌, ◌*◌, ◌^◌, Some, IfOk};
ghost use Rattle.tk_paths.specs.Walks.{most_cycles};
ghost use Rattle.tk_paths.specs.Words.{instr_at, read_instr, word_of};
ghost use Rattle.tk_paths.specs.Faults.{OnlyMemory};
ghost use Rattle.tk_paths.specs.Regions.{half, half_cost, word_place, behind, unit_word, extra, word_cost, units_cost};

use mb_isa::{Class, Costs, Instr, class, decode, takes_upper};
use pt_image::Image;
use tk_paths::{Fault, sum};

// The instruction at a place, if there is one.
fn instr_at(image: &Image, place: usize) -> Option<Instr>
    ensures { result ≡ instr_at image.now place }
{
    decode(*image.code().get(place)?)
}

/// The upper half that the unit at a place begins with.
pub fn half(image: &Image, place: usize) -> Option<i16>
    ensures { result ≡ half image.now place }
{
    match instr_at(image, place)? {
        Instr::Imm { imm } => Some(imm),
        _ => None,
    }
}

/// The place of the word of the unit at a place.
pub fn word_place(image: &Image, place: usize) -> usize
    ensures place { result ≡ word_place image.now place }
    ensures near { result ≤ place + 1 }
    ensures low { place < 2 ^ 32 → result < 2 ^ 32 }
{
    image.ranges();
    if place >= image.code().len() {
        return place;
    }
    match half(image, place) {
        None => place,
        Some(_) => place + 1,
    }
}

/// The place behind the unit at a place.
pub fn behind(image: &Image, place: usize) -> usize
    requires { place < 2 ^ 40 }
    ensures place { result ≡ behind image.now place }
    ensures near { result ≤ place + 2 }
{
    word_place(image, place) + 1
}

/// What the upper half of the unit at a place is charged.
pub fn extra(image: &Image, costs: &Costs, place: usize) -> u64
    ensures exact { result ≡ extra image.now costs.now place }
    ensures byte { result < 256 }
{
    match half(image, place) {
        None => 0,
        Some(_) => costs.cost(Class::Imm),
    }
}

// What an instruction is charged, where it just goes on.
fn instr_cost(image: &Image, costs: &Costs, place: usize, upper: Option<i16>, i: Instr) -> u64
    ensures exact { result ≡ word_cost image.now costs.now (Some (word_of image.now place upper i)) }
    ensures byte { result < 256 }
{
    match i {
        Instr::Addk { .. }
        | Instr::Rsubk { .. }
        | Instr::Cmp { .. }
        | Instr::Or { .. }
        | Instr::And { .. }
        | Instr::Xor { .. }
        | Instr::Mul { .. }
        | Instr::Idiv { .. }
        | Instr::Bsrl { .. }
        | Instr::Bsra { .. }
        | Instr::Bsll { .. }
        | Instr::Addik { .. }
        | Instr::Ori { .. }
        | Instr::Andi { .. }
        | Instr::Xori { .. }
        | Instr::Lw { .. }
        | Instr::Sw { .. }
        | Instr::Lwi { .. }
        | Instr::Swi { .. } => costs.cost(class(&i, false)),
        Instr::Imm { .. }
        | Instr::Bri { .. }
        | Instr::Beqi { .. }
        | Instr::Bnei { .. }
        | Instr::Blti { .. }
        | Instr::Blei { .. }
        | Instr::Bgti { .. }
        | Instr::Bgei { .. }
        | Instr::Fork { .. }
        | Instr::Eot
        | Instr::End
        | Instr::Abrt { .. }
        | Instr::Leave
        | Instr::Call { .. }
        | Instr::Ret
        | Instr::Loop { .. }
        | Instr::Next { .. }
        | Instr::Drop
        | Instr::Cend { .. } => 0,
    }
}

// The same, read with this upper half, which it may have to take.
fn read_cost(image: &Image, costs: &Costs, place: usize, upper: Option<i16>, i: Instr) -> u64
    ensures exact { result ≡ word_cost image.now costs.now (read_instr image.now place upper (Some i)) }
    ensures byte { result < 256 }
{
    if upper.is_some() && !takes_upper(&i) {
        return 0;
    }
    instr_cost(image, costs, place, upper, i)
}

/// What the word of the unit at a place is charged, where it just goes on.
pub fn unit_cost(image: &Image, costs: &Costs, place: usize) -> u64
    ensures exact { result ≡ word_cost image.now costs.now (unit_word image.now place) }
    ensures byte { result < 256 }
{
    let word = word_place(image, place);
    match instr_at(image, word) {
        None => 0,
        Some(i) => read_cost(image, costs, word, half(image, place), i),
    }
}

/// What so many units from a place on are charged.
pub fn units_cost(image: &Image, costs: &Costs, place: usize, count: u32) -> Result<u64, Fault>
    requires { place < 2 ^ 36 }
    ensures exact { IfOk result (λ n. n ≡ units_cost image.now costs.now place count) }
    ensures fits { units_cost image.now costs.now place count ≤ most_cycles → OnlyMemory result }
{
    let mut total = 0;
    let mut at = place;
    for _ in 0..count {
        let unit = extra(image, costs, at) + unit_cost(image, costs, at);
        total = sum(total, unit)?;
        at = behind(image, at);
    }
    Ok(total)
}
