//! What the numbers in a word come to.

ghost use Rattle.std.specs.Prelude.{◌≡◌, ◌<◌, ◌^◌, IfSome};
ghost use Rattle.mb_isa.specs.Operands.{immediate, turns_of, word_at_byte, branch_place};

/// A word's imm, of 32 bits where an upper half stands.
pub fn immediate(upper: Option<i16>, imm: i16) -> i32
    ensures { result ≡ immediate upper imm }
{
    match upper {
        None => i32::from(imm),
        Some(upper) => i32::from(upper) * 65536 + i32::from(imm.cast_unsigned()),
    }
}

/// The number of turns of a `loop` word.
pub fn turns(upper: Option<i16>, low: u16) -> u32
    ensures { result ≡ turns_of upper low }
{
    match upper {
        None => u32::from(low),
        Some(upper) => u32::from(upper.cast_unsigned()) * 65536 + u32::from(low),
    }
}

/// The word that begins at a byte, if it is one of so many words.
pub fn word_at_byte(words: usize, byte: u32) -> Option<u32>
    ensures word { result ≡ word_at_byte words byte }
    ensures within { IfSome result (λ i. i < words) }
{
    if byte % 4 == 0 && ((byte / 4) as usize) < words {
        return Some(byte / 4);
    }
    None
}

/// The place to which a branch leads, if it is one of so many code words.
pub fn branch_place(words: usize, place: u32, imm: i32) -> Option<u32>
    requires { place < 2 ^ 20 }
    ensures { result ≡ branch_place words place imm }
{
    word_at_byte(words, (4 * place).wrapping_add(imm.cast_unsigned()))
}
