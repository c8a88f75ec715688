ghost use Rattle.std.specs.Prelude.{◌≡◌, ◌≤◌, ◌<◌, ◌^◌, ◌+◌, Option, option_map, IfSome};
ghost use Rattle.pt_base.specs.Reading.{past_at, past_all_at, digits_at, number_at, number_then_at, blank_number_at, count_at};

use crate::bytes::is_digit;

/// What follows one byte.
pub fn past(bytes: &[u8], byte: u8) -> Option<&[u8]>
    ensures { option_map (λ x. x.now) result ≡ past_at byte bytes.now }
{
    match bytes {
        [first, rest @ ..] => if *first == byte { Some(rest) } else { None },
        [] => None,
    }
}

/// What follows these bytes.
pub fn past_all<'a>(bytes: &'a [u8], front: &[u8]) -> Option<&'a [u8]>
    ensures { option_map (λ x. x.now) result ≡ past_all_at front.now bytes.now }
{
    let mut rest = bytes;
    for byte in front {
        rest = past(rest, *byte)?;
    }
    Some(rest)
}

// The digits at the front.
fn digits(bytes: &[u8], limit: u64) -> Option<(u64, &[u8])>
    requires some { 0 < limit }
    requires fits { limit ≤ 2 ^ 56 }
    ensures exact { option_map (λ x. (x.0, x.1.now)) result ≡ digits_at limit 0 bytes.now }
    ensures below { IfSome result (λ x. x.0 < limit) }
{
    let mut value = 0;
    let mut rest = bytes;
    while let [first, after @ ..] = rest {
        if !is_digit(*first) {
            return Some((value, rest));
        }
        let next = 10 * value + u64::from(*first - 48);
        if next >= limit {
            return None;
        }
        value = next;
        rest = after;
    }
    Some((value, rest))
}

/// The number at the front, which is below the limit and has no leading 0, and what follows it.
#[tactic(auto, unfolding(crate::specs::Reading::number_at))]
pub fn number(bytes: &[u8], limit: u64) -> Option<(u64, &[u8])>
    requires { limit ≤ 2 ^ 56 }
    ensures exact { option_map (λ x. (x.0, x.1.now)) result ≡ number_at limit bytes.now }
    ensures below { IfSome result (λ x. x.0 < limit) }
{
    match bytes {
        [] => None,
        [first, rest @ ..] => {
            if is_digit(*first) && 0 < limit {
                if *first == 48 {
                    Some((0, rest))
                } else {
                    digits(bytes, limit)
                }
            } else {
                None
            }
        }
    }
}

/// The number at the front, which is below the limit, with the byte that ends it, and what follows them.
#[tactic(auto, unfolding(crate::specs::Reading::number_then_at))]
pub fn number_then(bytes: &[u8], ends: u8, limit: u64) -> Option<(u64, &[u8])>
    requires { limit ≤ 2 ^ 56 }
    ensures exact { option_map (λ x. (x.0, x.1.now)) result ≡ number_then_at ends limit bytes.now }
    ensures below { IfSome result (λ x. x.0 < limit) }
{
    let (value, rest) = number(bytes, limit)?;
    let rest = past(rest, ends)?;
    Some((value, rest))
}

/// A number behind a blank, which is below the limit, and what follows it.
#[tactic(auto, unfolding(crate::specs::Reading::blank_number_at))]
pub fn blank_number(bytes: &[u8], limit: u64) -> Option<(u64, &[u8])>
    requires { limit ≤ 2 ^ 56 }
    ensures exact { option_map (λ x. (x.0, x.1.now)) result ≡ blank_number_at limit bytes.now }
    ensures below { IfSome result (λ x. x.0 < limit) }
{
    let rest = past(bytes, 32)?;
    number(rest, limit)
}

/// A line of a name with its blank, and a number from `least` on and below the limit, and what follows it.
#[tactic(auto, unfolding(crate::specs::Reading::count_at))]
pub fn count_line<'a>(
    bytes: &'a [u8],
    name: &[u8],
    least: u64,
    limit: u64,
) -> Option<(u64, &'a [u8])>
    requires { limit ≤ 2 ^ 56 }
    ensures exact { option_map (λ x. (x.0, x.1.now)) result ≡ count_at name.now least limit bytes.now }
    ensures below { IfSome result (λ x. x.0 < limit) }
{
    let rest = past_all(bytes, name)?;
    let (count, rest) = number_then(rest, 10, limit)?;
    if count < least {
        return None;
    }
    Some((count, rest))
}
