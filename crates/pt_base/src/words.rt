ghost use Rattle.std.specs.Prelude.{◌≡◌, ◌≤◌, ◌<◌, ◌^◌, ◌+◌, Option, option_map, IfSome};
ghost use Rattle.pt_base.specs.Reading.{digit_at, four_digits_at, word_line_at, signed_at, signed_line_at};

use crate::bytes::is_digit;
use crate::read::{number, past};

// The value of the lower-case hexadecimal digit at the front.
fn digit(bytes: &[u8]) -> Option<(u32, &[u8])>
    ensures exact { option_map (λ x. (x.0, x.1.now)) result ≡ digit_at bytes.now }
    ensures below { IfSome result (λ x. x.0 < 16) }
{
    match bytes {
        [] => None,
        [first, rest @ ..] => {
            if is_digit(*first) {
                Some((u32::from(*first - 48), rest))
            } else if *first >= 97 && *first <= 102 {
                Some((u32::from(*first - 87), rest))
            } else {
                None
            }
        }
    }
}

// The number of four hexadecimal digits at the front.
#[tactic(auto, unfolding(crate::specs::Reading::four_digits_at))]
fn four_digits(bytes: &[u8]) -> Option<(u32, &[u8])>
    ensures exact { option_map (λ x. (x.0, x.1.now)) result ≡ four_digits_at bytes.now }
    ensures below { IfSome result (λ x. x.0 < 65536) }
{
    let (a, rest) = digit(bytes)?;
    let (b, rest) = digit(rest)?;
    let (c, rest) = digit(rest)?;
    let (d, rest) = digit(rest)?;
    Some((4096 * a + 256 * b + 16 * c + d, rest))
}

/// The word of eight hexadecimal digits on the line at the front, and what follows the line.
#[tactic(auto, unfolding(crate::specs::Reading::word_line_at))]
pub fn word_line(bytes: &[u8]) -> Option<(u32, &[u8])>
    ensures { option_map (λ x. (x.0, x.1.now)) result ≡ word_line_at bytes.now }
{
    let (high, rest) = four_digits(bytes)?;
    let (low, rest) = four_digits(rest)?;
    let rest = past(rest, 10)?;
    Some((65536 * high + low, rest))
}

// The signed number at the front.
#[tactic(auto, unfolding(crate::specs::Reading::signed_at))]
fn signed(bytes: &[u8]) -> Option<(i32, &[u8])>
    ensures { option_map (λ x. (x.0, x.1.now)) result ≡ signed_at bytes.now }
{
    match past(bytes, 45) {
        None => {
            let (value, rest) = number(bytes, 0x8000_0000)?;
            Some((value as i32, rest))
        }
        Some(rest) => {
            let (value, rest) = number(rest, 0x8000_0001)?;
            if value == 0 {
                return None;
            }
            Some((-1 - (value - 1) as i32, rest))
        }
    }
}

/// The signed number on the line at the front, and what follows the line.
#[tactic(auto, unfolding(crate::specs::Reading::signed_line_at))]
pub fn signed_line(bytes: &[u8]) -> Option<(i32, &[u8])>
    ensures { option_map (λ x. (x.0, x.1.now)) result ≡ signed_line_at bytes.now }
{
    let (value, rest) = signed(bytes)?;
    let rest = past(rest, 10)?;
    Some((value, rest))
}
