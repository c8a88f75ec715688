//! The children that a fork starts: sums over them, and how they come to rest.

ghost use Rattle.std.specs.Prelude.{◌≡◌, ◌≤◌, ◌<◌, ◌+◌, ◌*◌, ◌^◌, IfSome};
ghost use Rattle.tk_paths.specs.Words.{instr_at};
ghost use Rattle.tk_paths.specs.Kinds.{line_at};
ghost use Rattle.tk_paths.specs.Sums.{all_ends, most, most_paused};
ghost use Rattle.tk_paths.specs.Walks.{most_cycles};
ghost use Rattle.tk_paths.specs.Acceptance.{begins, stack_of};
ghost use Rattle.tk_paths.specs.Told.{told_by};
ghost use Rattle.tk_plans.specs.Parts.{behind_child, child_ends, count_in, first_in, group_of, joins, side_by};
ghost use Rattle.tk_plans.specs.Plans.{joined_at};
ghost use Rattle.tk_plans.specs.Low.{AreLow};

use crate::parts::Group;
use crate::rests::resting_at;
use crate::sums::plus;
use crate::units::instr_in;
use crate::words::{is_second, low_number, stack_at};
use mb_isa::{Costs, Instr};
use pt_image::Image;
use tk_cert::Line;
use tk_paths::{Pair, Side, greater, start_of};

// The number with which a slot starts.
fn begins(
    image: &Image,
    costs: &Costs,
    lines: &[Line],
    bounds: &[Pair],
    side: Side,
    slot: u32,
) -> Option<u64>
    requires { AreLow lines.now }
    ensures exact { result ≡ begins image.now (told_by lines.now bounds.now) costs.now side slot }
    ensures bound { IfSome result (λ n. n ≤ most_cycles) }
{
    let _costs = costs;
    let _bounds = bounds;
    low_number(lines, side, 0, start_of(image, slot))
}

// The sum of the numbers to the end, where all are there.
#[tactic(auto, using(crate::proofs::ChildLaws::all_ends_step))]
fn ends_begun(
    image: &Image,
    costs: &Costs,
    lines: &[Line],
    bounds: &[Pair],
    child: u32,
    count: u32,
) -> Option<u64>
    requires low { AreLow lines.now }
    requires slots { child + count ≤ 2 ^ 20 }
    ensures exact { result ≡ all_ends (begins image.now (told_by lines.now bounds.now) costs.now) child count }
    ensures bound { IfSome result (λ n. n ≤ count * most_cycles) }
{
    if count == 0 {
        return Some(0);
    }
    plus(
        begins(image, costs, lines, bounds, Side::ToEnd, child),
        ends_begun(image, costs, lines, bounds, child + 1, count - 1),
    )
}

// The greatest sum of one number a child.
#[tactic(auto, using(crate::proofs::ChildLaws::most_begun_step))]
fn most_begun(
    image: &Image,
    costs: &Costs,
    lines: &[Line],
    bounds: &[Pair],
    child: u32,
    count: u32,
) -> Option<u64>
    requires low { AreLow lines.now }
    requires slots { child + count ≤ 2 ^ 20 }
    ensures exact { result ≡ most (begins image.now (told_by lines.now bounds.now) costs.now) child count }
    ensures bound { IfSome result (λ n. n ≤ count * most_cycles) }
{
    if count == 0 {
        return Some(0);
    }
    let here = greater(
        begins(image, costs, lines, bounds, Side::ToPause, child),
        begins(image, costs, lines, bounds, Side::ToEnd, child),
    );
    plus(
        here,
        most_begun(image, costs, lines, bounds, child + 1, count - 1),
    )
}

// The same with at least one of them up to a pause.
#[tactic(auto, using(crate::proofs::ChildLaws::paused_begun_step))]
fn paused_begun(
    image: &Image,
    costs: &Costs,
    lines: &[Line],
    bounds: &[Pair],
    child: u32,
    count: u32,
) -> Option<u64>
    requires low { AreLow lines.now }
    requires slots { child + count ≤ 2 ^ 20 }
    ensures exact { result ≡ most_paused (begins image.now (told_by lines.now bounds.now) costs.now) child count }
    ensures bound { IfSome result (λ n. n ≤ count * most_cycles) }
{
    if count == 0 {
        return None;
    }
    let pausing = plus(
        begins(image, costs, lines, bounds, Side::ToPause, child),
        most_begun(image, costs, lines, bounds, child + 1, count - 1),
    );
    let ending = plus(
        begins(image, costs, lines, bounds, Side::ToEnd, child),
        paused_begun(image, costs, lines, bounds, child + 1, count - 1),
    );
    greater(pausing, ending)
}

// Whether a slot goes on behind its fork, since all its children end.
fn joins(
    image: &Image,
    costs: &Costs,
    lines: &[Line],
    bounds: &[Pair],
    place: usize,
    child: u32,
    count: u32,
    side: Side,
    level: usize,
) -> bool
    requires low { AreLow lines.now }
    requires near { place < 2 ^ 40 }
    requires slots { child + count ≤ 2 ^ 20 }
    ensures { result ≡
        joins image.now (told_by lines.now bounds.now) costs.now place child count (stack_of (line_at lines.now place)) level side }
{
    let stack = stack_at(lines, place);
    let pausing = plus(
        paused_begun(image, costs, lines, bounds, child, count),
        resting_at(image, costs, lines, bounds, stack, level, side),
    );
    let ending = plus(
        ends_begun(image, costs, lines, bounds, child, count),
        low_number(lines, side, level, place + 1),
    );
    is_second(pausing, ending)
}

/// Whether a fork stands at a place whose children all end.
pub fn joined_at(
    image: &Image,
    costs: &Costs,
    lines: &[Line],
    bounds: &[Pair],
    place: usize,
    side: Side,
    level: usize,
) -> bool
    requires low { AreLow lines.now }
    ensures { result ≡ joined_at image.now lines.now bounds.now costs.now place side level }
{
    match instr_in(image, place) {
        Some(Instr::Fork { lo, count }) => {
            let first = u32::from(lo);
            let count = u32::from(count);
            joins(
                image, costs, lines, bounds, place, first, count, side, level,
            )
        }
        _ => false,
    }
}

/// The first child of the fork at a place, if one stands there.
pub fn first_in(image: &Image, place: usize) -> u32
    ensures exact { result ≡ first_in (instr_at image.now place) }
    ensures byte { result < 256 }
{
    match instr_in(image, place) {
        Some(Instr::Fork { lo, .. }) => u32::from(lo),
        _ => 0,
    }
}

/// How many children it has.
pub fn count_in(image: &Image, place: usize) -> u32
    ensures exact { result ≡ count_in (instr_at image.now place) }
    ensures byte { result < 256 }
{
    match instr_in(image, place) {
        Some(Instr::Fork { count, .. }) => u32::from(count),
        _ => 0,
    }
}

/// How the children of a fork go, which is joined or not.
pub fn group_of(joined: bool) -> Group
    ensures { result ≡ group_of joined }
{
    if joined {
        return Group::Ending;
    }
    Group::Pausing
}

/// The side to which a child goes that ends or doesn't.
pub fn side_by(ends: bool) -> Side
    ensures { result ≡ side_by ends }
{
    if ends {
        return Side::ToEnd;
    }
    Side::ToPause
}

/// How the children behind one go, which ends or doesn't.
pub fn behind_child(group: Group, ends: bool) -> Group
    ensures { result ≡ behind_child group ends }
{
    match group {
        Group::Ending => Group::Ending,
        Group::Resting => Group::Resting,
        Group::Pausing => {
            if ends {
                return Group::Pausing;
            }
            Group::Resting
        }
    }
}

// Whether a child ends, where one at least pauses of it and the others.
fn pausing_ends(
    image: &Image,
    costs: &Costs,
    lines: &[Line],
    bounds: &[Pair],
    child: u32,
    others: u32,
) -> bool
    requires low { AreLow lines.now }
    requires slots { (child + 1) + others ≤ 2 ^ 20 }
    ensures { result ≡ child_ends image.now (told_by lines.now bounds.now) costs.now Group.Pausing child others }
{
    let pausing = plus(
        begins(image, costs, lines, bounds, Side::ToPause, child),
        most_begun(image, costs, lines, bounds, child + 1, others),
    );
    let ending = plus(
        begins(image, costs, lines, bounds, Side::ToEnd, child),
        paused_begun(image, costs, lines, bounds, child + 1, others),
    );
    is_second(pausing, ending)
}

/// Whether a child of a group ends, behind which stand so many others.
pub fn child_ends(
    image: &Image,
    costs: &Costs,
    lines: &[Line],
    bounds: &[Pair],
    group: Group,
    child: u32,
    others: u32,
) -> bool
    requires low { AreLow lines.now }
    requires slots { (child + 1) + others ≤ 2 ^ 20 }
    ensures { result ≡ child_ends image.now (told_by lines.now bounds.now) costs.now group child others }
{
    match group {
        Group::Ending => true,
        Group::Resting => is_second(
            begins(image, costs, lines, bounds, Side::ToPause, child),
            begins(image, costs, lines, bounds, Side::ToEnd, child),
        ),
        Group::Pausing => pausing_ends(image, costs, lines, bounds, child, others),
    }
}
