//! A demand that fails.

ghost use Rattle.std.specs.Prelude.{◌≡◌, ◌≤◌, ◌^◌, IfSome};
ghost use Rattle.tk_cert.specs.Demands.{at_least, shape_demand};
ghost use Rattle.tk_paths.specs.Sums.{lowered};
ghost use Rattle.tk_paths.specs.Acceptance.{more};
ghost use Rattle.tk_shape.specs.Refused.{refused};

/// The demand that fails: the number of its condition, the place, the level, what is needed, and the number that is given,
/// or none.
#[derive(Clone, Copy, Debug, PartialEq, Eq)]
pub struct Refusal {
    pub condition: u8,
    pub at: u32,
    pub level: usize,
    pub needed: u128,
    pub given: Option<u64>,
}

/// The refusal where a number is to reach another that is there, and doesn't.
pub fn at_least(
    condition: u8,
    at: u32,
    level: usize,
    given: Option<u64>,
    needed: Option<u128>,
) -> Option<Refusal>
    ensures { result ≡ refused (at_least condition at level given needed) }
{
    let needed = needed?;
    if let Some(given) = given {
        if u128::from(given) >= needed {
            return None;
        }
    }
    Some(Refusal {
        condition,
        at,
        level,
        needed,
        given,
    })
}

/// So much more than a number, where that is there.
pub fn more(charge: u128, number: Option<u64>) -> Option<u128>
    requires { charge ≤ 2 ^ 120 }
    ensures { result ≡ more charge number }
{
    Some(charge + u128::from(number?))
}

/// So much less, and not below 0.
pub fn lowered(less: u64, number: Option<u128>) -> Option<u128>
    ensures { result ≡ lowered less number }
{
    Some(number?.saturating_sub(u128::from(less)))
}
