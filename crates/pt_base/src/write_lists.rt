ghost use Rattle.std.specs.Prelude.{◌≡◌, ◌<◌, ◌++◌, OnOk, length};
ghost use Rattle.std.specs.Fmt.{decimal};
ghost use Rattle.pt_base.specs.Spelling.{each, number_text, blank_number, list_text, numbers_text, word_text, signed_text};

use crate::write::{put_number, put_number_then, put_signed_line, put_word_line};
use std::alloc::AllocError;

/// Puts each number on a line of its own at the end.
#[tactic(auto, using(crate::proofs::Putting::spelled))]
pub fn put_number_lines(out: &mut Vec<u8>, values: &[u32]) -> Result<(), AllocError>
    ensures { OnOk result (out.new.items ≡ out.old.items ++ each (number_text 10) values.now) }
{
    for value in values {
        put_number_then(out, u64::from(*value), 10)?;
    }
    Ok(())
}

/// Puts each word on a line of its own at the end.
#[tactic(auto, using(crate::proofs::Putting::spelled))]
pub fn put_word_lines(out: &mut Vec<u8>, values: &[u32]) -> Result<(), AllocError>
    ensures { OnOk result (out.new.items ≡ out.old.items ++ each word_text values.now) }
{
    for value in values {
        put_word_line(out, *value)?;
    }
    Ok(())
}

/// Puts each signed number on a line of its own at the end.
#[tactic(auto, using(crate::proofs::Putting::spelled))]
pub fn put_signed_lines(out: &mut Vec<u8>, values: &[i32]) -> Result<(), AllocError>
    ensures { OnOk result (out.new.items ≡ out.old.items ++ each signed_text values.now) }
{
    for value in values {
        put_signed_line(out, *value)?;
    }
    Ok(())
}

// Puts each number behind a blank at the end.
#[tactic(auto, using(crate::proofs::Putting::spelled))]
fn put_blank_numbers(out: &mut Vec<u8>, values: &[u32]) -> Result<(), AllocError>
    ensures { OnOk result (out.new.items ≡ out.old.items ++ each blank_number values.now) }
{
    for value in values {
        out.push(32)?;
        put_number(out, u64::from(*value))?;
    }
    Ok(())
}

/// Puts the numbers behind their count at the end.
#[tactic(auto, using(crate::proofs::Putting::spelled))]
pub fn put_list(out: &mut Vec<u8>, values: &[u32]) -> Result<(), AllocError>
    ensures { OnOk result (out.new.items ≡ out.old.items ++ list_text values.now) }
{
    put_number(out, values.len() as u64)?;
    put_blank_numbers(out, values)
}

/// Puts the numbers behind their count, and the byte that ends them, at the end.
#[tactic(auto, using(crate::proofs::Putting::spelled))]
pub fn put_numbers(out: &mut Vec<u8>, values: &[u32], ends: u8) -> Result<(), AllocError>
    ensures { OnOk result (out.new.items ≡ out.old.items ++ numbers_text ends values.now) }
{
    put_list(out, values)?;
    out.push(ends)?;
    Ok(())
}
