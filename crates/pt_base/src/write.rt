ghost use Rattle.std.specs.Prelude.{◌≡◌, ◌<◌, ◌++◌, ◌∷◌, [], OnOk, length, false};
ghost use Rattle.std.specs.Fmt.{decimal, signed_decimal, digit_glyph};
ghost use Rattle.pt_base.specs.Spelling.{each, number_text, blank_number, numbers_text, four_digits, word_text, signed_text, count_text};

use std::alloc::AllocError;

/// Puts a number at the end.
#[tactic(auto, using(crate::proofs::Putting::spelled))]
pub fn put_number(out: &mut Vec<u8>, value: u64) -> Result<(), AllocError>
    ensures { OnOk result (out.new.items ≡ out.old.items ++ decimal value) }
{
    if value < 10 {
        out.push(48 + value as u8)?;
        return Ok(());
    }
    put_number(out, value / 10)?;
    out.push(48 + (value % 10) as u8)?;
    Ok(())
}

/// Puts a number and the byte that ends it at the end.
#[tactic(auto, using(crate::proofs::Putting::spelled))]
pub fn put_number_then(out: &mut Vec<u8>, value: u64, ends: u8) -> Result<(), AllocError>
    ensures { OnOk result (out.new.items ≡ out.old.items ++ number_text ends value) }
{
    put_number(out, value)?;
    out.push(ends)?;
    Ok(())
}

/// Puts a signed number on a line of its own at the end.
#[tactic(auto, using(crate::proofs::Putting::spelled))]
pub fn put_signed_line(out: &mut Vec<u8>, value: i32) -> Result<(), AllocError>
    ensures { OnOk result (out.new.items ≡ out.old.items ++ signed_text value) }
{
    if value < 0 {
        out.push(45)?;
        return put_number_then(out, u64::from(value.unsigned_abs()), 10);
    }
    put_number_then(out, value as u64, 10)
}

// The lower-case hexadecimal digit of a value.
fn digit_of(value: u32) -> u8
    requires { value < 16 }
    ensures { result ≡ digit_glyph false value }
{
    if value < 10 {
        48 + value as u8
    } else {
        87 + value as u8
    }
}

// Puts four hexadecimal digits at the end.
#[tactic(auto, unfolding(crate::specs::Spelling::four_digits))]
fn put_four(out: &mut Vec<u8>, value: u32) -> Result<(), AllocError>
    requires { value < 65536 }
    ensures { OnOk result (out.new.items ≡ out.old.items ++ four_digits value) }
{
    out.extend_from_slice(&[
        digit_of(value / 4096 % 16),
        digit_of(value / 256 % 16),
        digit_of(value / 16 % 16),
        digit_of(value % 16),
    ])
}

/// Puts a word of eight hexadecimal digits on a line of its own at the end.
#[tactic(auto, unfolding(crate::specs::Spelling::word_text))]
pub fn put_word_line(out: &mut Vec<u8>, value: u32) -> Result<(), AllocError>
    ensures { OnOk result (out.new.items ≡ out.old.items ++ word_text value) }
{
    put_four(out, value / 65536)?;
    put_four(out, value % 65536)?;
    out.push(10)?;
    Ok(())
}

/// Puts a line of a name and a count at the end.
#[tactic(auto, using(crate::proofs::Putting::spelled))]
pub fn put_count(out: &mut Vec<u8>, name: &[u8], count: u64) -> Result<(), AllocError>
    ensures { OnOk result (out.new.items ≡ out.old.items ++ count_text name.now count) }
{
    out.extend_from_slice(name)?;
    put_number_then(out, count, 10)
}
