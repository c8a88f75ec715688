ghost use Rattle.std.specs.Prelude.{◌≡◌, ◌++◌, OnOk};
ghost use Rattle.pt_base.specs.Spelling.{each, number_text, lines_text, word_text, signed_text};
ghost use Rattle.pt_image.specs.Text.{abort_text, point_text};

use crate::image::{AbortLine, Point};
use pt_base::{
    put_count, put_number_lines, put_number_then, put_numbers, put_signed_lines, put_word_lines,
};
use std::alloc::AllocError;

/// Puts how many words there are and their lines at the end.
#[tactic(auto, using(crate::proofs::Putting::in_order))]
pub fn put_words(out: &mut Vec<u8>, name: &[u8], words: &[u32]) -> Result<(), AllocError>
    ensures { OnOk result (out.new.items ≡ out.old.items ++ lines_text name.now word_text words.now) }
{
    put_count(out, name, words.len() as u64)?;
    put_word_lines(out, words)
}

/// Puts how many signed numbers there are and their lines at the end.
#[tactic(auto, using(crate::proofs::Putting::in_order))]
pub fn put_signed(out: &mut Vec<u8>, name: &[u8], values: &[i32]) -> Result<(), AllocError>
    ensures { OnOk result (out.new.items ≡ out.old.items ++ lines_text name.now signed_text values.now) }
{
    put_count(out, name, values.len() as u64)?;
    put_signed_lines(out, values)
}

/// Puts how many numbers there are and their lines at the end.
#[tactic(auto, using(crate::proofs::Putting::in_order))]
pub fn put_places(out: &mut Vec<u8>, name: &[u8], places: &[u32]) -> Result<(), AllocError>
    ensures { OnOk result (out.new.items ≡ out.old.items ++ lines_text name.now (number_text 10) places.now) }
{
    put_count(out, name, places.len() as u64)?;
    put_number_lines(out, places)
}

// Puts an abort line at the end.
#[tactic(auto, using(crate::proofs::Putting::in_order))]
fn put_abort(out: &mut Vec<u8>, line: &AbortLine) -> Result<(), AllocError>
    ensures { OnOk result (out.new.items ≡ out.old.items ++ abort_text line.now) }
{
    out.push(if line.weak { b'w' } else { b's' })?;
    out.push(32)?;
    put_number_then(out, u64::from(line.cond), 32)?;
    put_number_then(out, u64::from(line.handler), 10)
}

// Puts a listed pause or fork at the end.
#[tactic(auto, using(crate::proofs::Putting::in_order))]
fn put_point(out: &mut Vec<u8>, point: &Point) -> Result<(), AllocError>
    ensures { OnOk result (out.new.items ≡ out.old.items ++ point_text point.now) }
{
    put_number_then(out, u64::from(point.at), 32)?;
    put_number_then(out, u64::from(point.slot), 32)?;
    put_numbers(out, point.stack.items(), 10)
}

// Puts each abort line at the end.
#[tactic(auto, using(crate::proofs::Putting::in_order))]
fn put_abort_lines(out: &mut Vec<u8>, lines: &[AbortLine]) -> Result<(), AllocError>
    ensures { OnOk result (out.new.items ≡ out.old.items ++ each abort_text lines.now) }
{
    for line in lines {
        put_abort(out, line)?;
    }
    Ok(())
}

// Puts each listed pause or fork at the end.
#[tactic(auto, using(crate::proofs::Putting::in_order))]
fn put_point_lines(out: &mut Vec<u8>, points: &[Point]) -> Result<(), AllocError>
    ensures { OnOk result (out.new.items ≡ out.old.items ++ each point_text points.now) }
{
    for point in points {
        put_point(out, point)?;
    }
    Ok(())
}

/// Puts how many abort lines there are and their lines at the end.
#[tactic(auto, using(crate::proofs::Putting::in_order))]
pub fn put_aborts(out: &mut Vec<u8>, name: &[u8], lines: &[AbortLine]) -> Result<(), AllocError>
    ensures { OnOk result (out.new.items ≡ out.old.items ++ lines_text name.now abort_text lines.now) }
{
    put_count(out, name, lines.len() as u64)?;
    put_abort_lines(out, lines)
}

/// Puts how many pauses or forks there are and their lines at the end.
#[tactic(auto, using(crate::proofs::Putting::in_order))]
pub fn put_points(out: &mut Vec<u8>, name: &[u8], points: &[Point]) -> Result<(), AllocError>
    ensures { OnOk result (out.new.items ≡ out.old.items ++ lines_text name.now point_text points.now) }
{
    put_count(out, name, points.len() as u64)?;
    put_point_lines(out, points)
}
