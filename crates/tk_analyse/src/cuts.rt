//! Where a slot stands that is resumed, and which of its conditions lead elsewhere; to which side its children are resumed.

ghost use Rattle.std.specs.Prelude.{◌≡◌, ◌≤◌, ◌+◌, ◌^◌, length, IfOk, IfSome};
ghost use Rattle.std.specs.Option.{option_copied};
ghost use Rattle.tk_paths.specs.Sums.{resumed_most};
ghost use Rattle.tk_paths.specs.Walks.{most_cycles};
ghost use Rattle.tk_paths.specs.Greatest.{paused, tested, waited};
ghost use Rattle.tk_paths.specs.Faults.{IsSmall, OnlyMemory};
ghost use Rattle.tk_paths.specs.Told.{pair_at, strong_handler, told_by};
ghost use Rattle.tk_paths.specs.Waits.{IsSmallWait};
ghost use Rattle.tk_analyse.specs.Points.{HasSmallForks, HasSmallPauses, HasSmallWaits, IsSmallSum};
ghost use Rattle.tk_analyse.specs.Begun.{best_point, cut_in, resumed_ends_first, resumed_side, side_where};

use mb_isa::Costs;
use pt_image::{Image, Point};
use tk_cert::Line;
use tk_paths::{
    Fault, Pair, Side, abort_at, greater, number, or_zero, pair_at, paused, plus, resumed_most,
    resumed_paused, tested_by, waited,
};
use tk_plans::{Group, is_second, side_by};

// The number of the handler of an abort, where it is strong.
fn strong_handler(image: &Image, lines: &[Line], side: Side, level: usize, j: u32) -> Option<u64>
    ensures { result ≡ strong_handler image.now lines.now side level j }
{
    let line = abort_at(image, j);
    if line.weak {
        return None;
    }
    number(lines, side, level, line.handler as usize)
}

/// The handler of the strong abort that is dearer than what is behind all conditions, and its level; the first abort has this one.
pub fn cut_in(
    image: &Image,
    costs: &Costs,
    lines: &[Line],
    bounds: &[Pair],
    side: Side,
    level: usize,
    stack: &[u32],
    inner: Option<u64>,
) -> Result<Option<(usize, usize)>, Fault>
    requires { level + length stack.now ≤ 8 }
    ensures exact { IfOk result (λ cut. cut ≡ cut_in image.now (told_by lines.now bounds.now) costs.now side level stack.now inner) }
    ensures fits { IsSmall (tested image.now (told_by lines.now bounds.now) costs.now side level stack.now inner) → OnlyMemory result }
{
    match stack {
        [] => Ok(None),
        [j, rest @ ..] => {
            let others = tested_by(image, costs, lines, bounds, side, level + 1, rest, inner)?;
            if is_second(strong_handler(image, lines, side, level, *j), others) {
                let cut = cut_in(image, costs, lines, bounds, side, level + 1, rest, inner)?;
                return Ok(cut);
            }
            Ok(Some((abort_at(image, *j).handler as usize, level)))
        }
    }
}

/// The pause of a slot that gives its number.
#[tactic(auto, using(crate::proofs::PointLaws::points, tk_paths::proofs::Bests::few_at))]
pub fn best_pause<'a>(
    image: &'a Image,
    costs: &Costs,
    lines: &[Line],
    bounds: &[Pair],
    side: Side,
    slot: u32,
) -> Result<Option<&'a Point>, Fault>
    ensures best { IfOk result (λ p. option_copied p ≡
        best_point (paused image.now (told_by lines.now bounds.now) costs.now side) slot image.now.pauses) }
    ensures few { IfOk result (λ p. IfSome p (λ p. length p.now.stack ≤ 8)) }
    ensures small { HasSmallPauses image.now lines.now bounds.now costs.now side →
        IfOk result (λ p. IfSome p (λ p. IsSmall (paused image.now (told_by lines.now bounds.now) costs.now side p.now))) }
    ensures fits { HasSmallPauses image.now lines.now bounds.now costs.now side → OnlyMemory result }
{
    image.ranges();
    let points = image.pauses();
    let mut most = None;
    let mut best = None;
    let mut rest = points.len();
    while rest > 0 {
        rest -= 1;
        let p = &points[rest];
        if p.slot == slot {
            let given = paused(image, costs, lines, bounds, side, p)?;
            if !is_second(given, most) {
                most = given;
                best = Some(p);
            }
        }
    }
    Ok(best)
}

/// The fork of a slot that gives its number.
#[tactic(auto, using(crate::proofs::PointLaws::points, tk_paths::proofs::Bests::few_at))]
pub fn best_fork<'a>(
    image: &'a Image,
    costs: &Costs,
    lines: &[Line],
    bounds: &[Pair],
    side: Side,
    slot: u32,
) -> Result<Option<&'a Point>, Fault>
    ensures best { IfOk result (λ p. option_copied p ≡
        best_point (waited image.now (told_by lines.now bounds.now) costs.now side) slot image.now.forks) }
    ensures few { IfOk result (λ p. IfSome p (λ p. length p.now.stack ≤ 8)) }
    ensures small { HasSmallForks image.now lines.now bounds.now costs.now side →
        IfOk result (λ p. IfSome p (λ p. IsSmallSum (waited image.now (told_by lines.now bounds.now) costs.now side p.now))) }
    ensures waits { HasSmallWaits image.now bounds.now → IfOk result (λ p. IfSome p (λ p. IsSmallWait image.now bounds.now p.now)) }
    ensures fits { HasSmallForks image.now lines.now bounds.now costs.now side → HasSmallWaits image.now bounds.now → OnlyMemory result }
{
    image.ranges();
    let points = image.forks();
    let mut most = None;
    let mut best = None;
    let mut rest = points.len();
    while rest > 0 {
        rest -= 1;
        let p = &points[rest];
        if p.slot == slot {
            let given = waited(image, costs, lines, bounds, side, p)?;
            if !is_second(given, most) {
                most = given;
                best = Some(p);
            }
        }
    }
    Ok(best)
}

// Whether a child ends, where one at least pauses of it and the others.
fn pausing_first(
    image: &Image,
    costs: &Costs,
    lines: &[Line],
    bounds: &[Pair],
    child: u32,
    others: u32,
) -> Result<bool, Fault>
    requires { (child + 1) + others ≤ 2 ^ 20 }
    ensures exact { IfOk result (λ b. b ≡
        resumed_ends_first image.now (told_by lines.now bounds.now) costs.now Group.Pausing child others) }
    ensures fits { resumed_most (pair_at bounds.now) child (others + 1) ≤ most_cycles → OnlyMemory result }
{
    let _image = image;
    let _costs = costs;
    let _lines = lines;
    let most = resumed_most(bounds, child + 1, others)?;
    let pausing = plus(pair_at(bounds, Side::ToPause, child as usize), Some(most))?;
    let rest = resumed_paused(bounds, child + 1, others)?;
    let ending = plus(
        Some(or_zero(pair_at(bounds, Side::ToEnd, child as usize))),
        rest,
    )?;
    Ok(is_second(pausing, ending))
}

/// Whether a child of a group ends that is resumed, behind which stand so many others.
pub fn resumed_first(
    image: &Image,
    costs: &Costs,
    lines: &[Line],
    bounds: &[Pair],
    group: Group,
    child: u32,
    others: u32,
) -> Result<bool, Fault>
    requires { (child + 1) + others ≤ 2 ^ 20 }
    ensures exact { IfOk result (λ b. b ≡ resumed_ends_first image.now (told_by lines.now bounds.now) costs.now group child others) }
    ensures fits { resumed_most (pair_at bounds.now) child (others + 1) ≤ most_cycles → OnlyMemory result }
{
    match group {
        Group::Ending => Ok(true),
        Group::Resting => Ok(is_second(
            pair_at(bounds, Side::ToPause, child as usize),
            pair_at(bounds, Side::ToEnd, child as usize),
        )),
        Group::Pausing => pausing_first(image, costs, lines, bounds, child, others),
    }
}

// A side, where the number is there.
fn side_where(number: Option<u64>, side: Side) -> Option<Side>
    ensures { result ≡ side_where number side }
{
    match number {
        None => None,
        Some(_) => Some(side),
    }
}

/// The side to which a child of a group is resumed, which ends or doesn't; none, where it had ended.
pub fn resumed_side(
    image: &Image,
    costs: &Costs,
    lines: &[Line],
    bounds: &[Pair],
    group: Group,
    ends: bool,
    child: u32,
) -> Option<Side>
    ensures { result ≡ resumed_side image.now (told_by lines.now bounds.now) costs.now group ends child }
{
    let _image = image;
    let _costs = costs;
    let _lines = lines;
    let pausing = pair_at(bounds, Side::ToPause, child as usize);
    let ending = pair_at(bounds, Side::ToEnd, child as usize);
    match group {
        Group::Ending => side_where(ending, Side::ToEnd),
        Group::Resting => side_where(greater(pausing, ending), side_by(ends)),
        Group::Pausing => {
            if ends {
                return side_where(ending, Side::ToEnd);
            }
            Some(Side::ToPause)
        }
    }
}
