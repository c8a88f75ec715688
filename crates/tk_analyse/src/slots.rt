//! The slots that are resumed as a tick begins: what each does, the answers of its conditions, and its choices.

ghost use Rattle.std.specs.Prelude.{◌≡◌, ◌≤◌, ◌<◌, ◌+◌, ◌++◌, ◌^◌, length, IfOk, IfSome};
ghost use Rattle.std.specs.Option.{option_copied};
ghost use Rattle.tk_paths.specs.Sums.{resumed_most};
ghost use Rattle.tk_paths.specs.Walks.{most_cycles};
ghost use Rattle.tk_paths.specs.Greatest.{joined, paused, tested, waited};
ghost use Rattle.tk_paths.specs.Faults.{IsSmall, OnlyMemory};
ghost use Rattle.tk_paths.specs.Told.{pair_at, told_by};
ghost use Rattle.tk_paths.specs.Trees.{read_program};
ghost use Rattle.tk_paths.specs.Waits.{IsSmallWait};
ghost use Rattle.tk_analyse.specs.Begun.{at_point, child_slot, fork_own, groups, paused_slot, slots, tested_plan};
ghost use Rattle.tk_analyse.specs.Begun.{waited_cut, waited_joined, waiting_slot, waiting_where};
ghost use Rattle.tk_analyse.specs.Points.{HasSmallPoints, IsSmallSum};
ghost use Rattle.tk_analyse.specs.Stood.{IsGroupStood, IsStood};
ghost use Rattle.tk_plans.specs.Low.{AreLow};
ghost use Rattle.tk_plans.specs.Ways.{ArePieces};

use crate::cuts::{best_fork, best_pause, cut_in, resumed_first, resumed_side};
use crate::standing::stand;
use mb_isa::{Costs, Instr};
use pt_image::{Image, Point};
use std::alloc::Global;
use tk_cert::{Line, State};
use tk_paths::{
    Fault, Pair, Program, Side, best_paused, best_waited, greater, joined_ended, joined_paused,
    number, resumed_ends, resumed_paused,
};
use tk_plans::{Group, Piece, behind_child, gone, group_of, instr_in, is_second, plan, rest_next};

// The plan of a slot behind its conditions, of which that of a strong abort may be the last.
fn behind_tests(
    alloc: Global,
    image: &Image,
    costs: &Costs,
    lines: &[Line],
    bounds: &[Pair],
    program: &Program,
    pieces: &[Piece],
    most: u64,
    cut: Option<(usize, usize)>,
    place: usize,
    side: Side,
    level: usize,
    choices: &mut Vec<bool>,
) -> Result<Vec<bool>, Fault>
    requires pieces { ArePieces image.now costs.now pieces.now (read_program program.now) }
    requires low { AreLow lines.now }
    ensures answers { IfOk result (λ v. v.items ≡
        (tested_plan image.now lines.now bounds.now costs.now program.now most cut place side level).0) }
    ensures choices { IfOk result (λ v. choices.new.items ≡
        choices.old.items ++ (tested_plan image.now lines.now bounds.now costs.now program.now most cut place side level).1) }
    ensures only { OnlyMemory result }
{
    match cut {
        None => {
            let own = plan(
                alloc, image, costs, lines, bounds, program, pieces, most, place, side, level,
                choices,
            )?;
            Ok(own)
        }
        Some((handler, outside)) => {
            let mut own = plan(
                alloc, image, costs, lines, bounds, program, pieces, most, handler, side, outside,
                choices,
            )?;
            own.push(true)?;
            Ok(own)
        }
    }
}

// A slot that is paused at a point.
fn pause_slot(
    alloc: Global,
    image: &Image,
    costs: &Costs,
    lines: &[Line],
    bounds: &[Pair],
    program: &Program,
    pieces: &[Piece],
    most: u64,
    side: Side,
    slot: u32,
    p: &Point,
    states: &mut Vec<State>,
    answers: &mut Vec<bool>,
    choices: &mut Vec<bool>,
) -> Result<(), Fault>
    requires pieces { ArePieces image.now costs.now pieces.now (read_program program.now) }
    requires low { AreLow lines.now }
    requires few { length p.now.stack ≤ 8 }
    requires small { IsSmall (paused image.now (told_by lines.now bounds.now) costs.now side p.now) }
    ensures states { IfOk result (λ done. IsStood slot
        (paused_slot image.now lines.now bounds.now costs.now program.now most side p.now).0
        states.old.items states.new.items) }
    ensures answers { IfOk result (λ done. answers.new.items ≡ answers.old.items
        ++ (paused_slot image.now lines.now bounds.now costs.now program.now most side p.now).1.0) }
    ensures choices { IfOk result (λ done. choices.new.items ≡ choices.old.items
        ++ (paused_slot image.now lines.now bounds.now costs.now program.now most side p.now).1.1) }
    ensures only { OnlyMemory result }
{
    stand(states, slot, State::Paused(p.at));
    let stack = p.stack.items();
    let level = stack.len();
    let place = p.at as usize + 1;
    let behind = number(lines, side, level, place);
    let cut = cut_in(image, costs, lines, bounds, side, 0, stack, behind)?;
    let own = behind_tests(
        alloc, image, costs, lines, bounds, program, pieces, most, cut, place, side, level, choices,
    )?;
    answers.extend_from_slice(own.as_slice())?;
    Ok(())
}

// The plan of a slot behind its fork: its children all end, or it rests.
fn behind_fork(
    alloc: Global,
    image: &Image,
    costs: &Costs,
    lines: &[Line],
    bounds: &[Pair],
    program: &Program,
    pieces: &[Piece],
    most: u64,
    joined: bool,
    p: &Point,
    side: Side,
    choices: &mut Vec<bool>,
) -> Result<Vec<bool>, Fault>
    requires pieces { ArePieces image.now costs.now pieces.now (read_program program.now) }
    requires low { AreLow lines.now }
    ensures answers { IfOk result (λ v. v.items ≡
        (fork_own image.now lines.now bounds.now costs.now program.now most joined side p.now).0) }
    ensures choices { IfOk result (λ v. choices.new.items ≡
        choices.old.items ++ (fork_own image.now lines.now bounds.now costs.now program.now most joined side p.now).1) }
    ensures only { OnlyMemory result }
{
    let stack = p.stack.items();
    let level = stack.len();
    if joined {
        let place = p.at as usize + 1;
        let own = plan(
            alloc, image, costs, lines, bounds, program, pieces, most, place, side, level, choices,
        )?;
        return Ok(own);
    }
    let next = rest_next(image, costs, lines, bounds, stack, level, side);
    let own = gone(
        alloc, image, costs, lines, bounds, program, pieces, most, next, side, level, choices,
    )?;
    Ok(own)
}

// Children of a fork, one after another.
#[cycle(slot)]
#[tactic(auto, using(crate::proofs::BegunLaws::grouping))]
fn group(
    alloc: Global,
    image: &Image,
    costs: &Costs,
    lines: &[Line],
    bounds: &[Pair],
    program: &Program,
    pieces: &[Piece],
    most: u64,
    deep: usize,
    how: Group,
    child: u32,
    count: u32,
    states: &mut Vec<State>,
    answers: &mut Vec<bool>,
    choices: &mut Vec<bool>,
) -> Result<(), Fault>
    requires pieces { ArePieces image.now costs.now pieces.now (read_program program.now) }
    requires low { AreLow lines.now }
    requires points { HasSmallPoints image.now lines.now bounds.now costs.now }
    requires few { count < 256 }
    requires slots { child + count ≤ 2 ^ 20 }
    requires waits { resumed_most (pair_at bounds.now) child count ≤ most_cycles }
    ensures states { IfOk result (λ done. IsGroupStood child
        (groups image.now lines.now bounds.now costs.now program.now most deep how child count).0
        states.old.items states.new.items) }
    ensures answers { IfOk result (λ done. answers.new.items ≡ answers.old.items
        ++ (groups image.now lines.now bounds.now costs.now program.now most deep how child count).1.0) }
    ensures choices { IfOk result (λ done. choices.new.items ≡ choices.old.items
        ++ (groups image.now lines.now bounds.now costs.now program.now most deep how child count).1.1) }
    ensures only { OnlyMemory result }
{
    if count == 0 {
        return Ok(());
    }
    let ends = resumed_first(image, costs, lines, bounds, how, child, count - 1)?;
    let side = resumed_side(image, costs, lines, bounds, how, ends, child);
    child_slot(
        alloc, image, costs, lines, bounds, program, pieces, most, deep, child, side, states,
        answers, choices,
    )?;
    let others = behind_child(how, ends);
    group(
        alloc,
        image,
        costs,
        lines,
        bounds,
        program,
        pieces,
        most,
        deep,
        others,
        child + 1,
        count - 1,
        states,
        answers,
        choices,
    )?;
    Ok(())
}

// A child that is resumed to a side, or had ended.
#[cycle(slot)]
#[tactic(auto, using(crate::proofs::BegunLaws::ending))]
fn child_slot(
    alloc: Global,
    image: &Image,
    costs: &Costs,
    lines: &[Line],
    bounds: &[Pair],
    program: &Program,
    pieces: &[Piece],
    most: u64,
    deep: usize,
    child: u32,
    side: Option<Side>,
    states: &mut Vec<State>,
    answers: &mut Vec<bool>,
    choices: &mut Vec<bool>,
) -> Result<(), Fault>
    requires pieces { ArePieces image.now costs.now pieces.now (read_program program.now) }
    requires low { AreLow lines.now }
    requires points { HasSmallPoints image.now lines.now bounds.now costs.now }
    ensures states { IfOk result (λ done. IsStood child
        (child_slot image.now lines.now bounds.now costs.now program.now most deep child side).0
        states.old.items states.new.items) }
    ensures answers { IfOk result (λ done. answers.new.items ≡ answers.old.items
        ++ (child_slot image.now lines.now bounds.now costs.now program.now most deep child side).1.0) }
    ensures choices { IfOk result (λ done. choices.new.items ≡ choices.old.items
        ++ (child_slot image.now lines.now bounds.now costs.now program.now most deep child side).1.1) }
    ensures only { OnlyMemory result }
{
    match side {
        None => {
            stand(states, child, State::Ended);
            Ok(())
        }
        Some(side) => {
            slot(
                alloc, image, costs, lines, bounds, program, pieces, most, deep, side, child,
                states, answers, choices,
            )?;
            Ok(())
        }
    }
}

// A slot that waits for so many children, which all end or don't.
#[cycle(slot)]
fn joined_slot(
    alloc: Global,
    image: &Image,
    costs: &Costs,
    lines: &[Line],
    bounds: &[Pair],
    program: &Program,
    pieces: &[Piece],
    most: u64,
    deep: usize,
    side: Side,
    slot: u32,
    p: &Point,
    first: u32,
    count: u32,
    joined: bool,
    states: &mut Vec<State>,
    answers: &mut Vec<bool>,
    choices: &mut Vec<bool>,
) -> Result<(), Fault>
    requires pieces { ArePieces image.now costs.now pieces.now (read_program program.now) }
    requires low { AreLow lines.now }
    requires points { HasSmallPoints image.now lines.now bounds.now costs.now }
    requires few { count < 256 }
    requires slots { first + count ≤ 2 ^ 20 }
    requires waits { resumed_most (pair_at bounds.now) first count ≤ most_cycles }
    ensures states { IfOk result (λ done. IsStood slot
        (waited_joined image.now lines.now bounds.now costs.now program.now most deep side p.now first count joined).0
        states.old.items states.new.items) }
    ensures answers { IfOk result (λ done. answers.new.items ≡ answers.old.items
        ++ (waited_joined image.now lines.now bounds.now costs.now program.now most deep side p.now first count joined).1.0) }
    ensures choices { IfOk result (λ done. choices.new.items ≡ choices.old.items
        ++ (waited_joined image.now lines.now bounds.now costs.now program.now most deep side p.now first count joined).1.1) }
    ensures only { OnlyMemory result }
{
    stand(states, slot, State::Waiting(p.at));
    let mut mine = Vec::new(alloc);
    let own = behind_fork(
        alloc, image, costs, lines, bounds, program, pieces, most, joined, p, side, &mut mine,
    )?;
    answers.extend_from_slice(own.as_slice())?;
    let how = group_of(joined);
    group(
        alloc, image, costs, lines, bounds, program, pieces, most, deep, how, first, count, states,
        answers, choices,
    )?;
    choices.extend_from_slice(mine.as_slice())?;
    Ok(())
}

// A slot that waits for so many children until a strong abort cuts its wait, and goes on at the handler.
#[cycle(slot)]
fn cut_slot(
    alloc: Global,
    image: &Image,
    costs: &Costs,
    lines: &[Line],
    bounds: &[Pair],
    program: &Program,
    pieces: &[Piece],
    most: u64,
    deep: usize,
    side: Side,
    slot: u32,
    p: &Point,
    first: u32,
    count: u32,
    handler: usize,
    level: usize,
    states: &mut Vec<State>,
    answers: &mut Vec<bool>,
    choices: &mut Vec<bool>,
) -> Result<(), Fault>
    requires pieces { ArePieces image.now costs.now pieces.now (read_program program.now) }
    requires low { AreLow lines.now }
    requires points { HasSmallPoints image.now lines.now bounds.now costs.now }
    requires few { count < 256 }
    requires slots { first + count ≤ 2 ^ 20 }
    requires waits { resumed_most (pair_at bounds.now) first count ≤ most_cycles }
    ensures states { IfOk result (λ done. IsStood slot
        (waited_cut image.now lines.now bounds.now costs.now program.now most deep side p.now first count handler level).0
        states.old.items states.new.items) }
    ensures answers { IfOk result (λ done. answers.new.items ≡ answers.old.items
        ++ (waited_cut image.now lines.now bounds.now costs.now program.now most deep side p.now first count handler level).1.0) }
    ensures choices { IfOk result (λ done. choices.new.items ≡ choices.old.items
        ++ (waited_cut image.now lines.now bounds.now costs.now program.now most deep side p.now first count handler level).1.1) }
    ensures only { OnlyMemory result }
{
    stand(states, slot, State::Waiting(p.at));
    let all_end = resumed_ends(bounds, first, count)?;
    let one_pauses = resumed_paused(bounds, first, count)?;
    let how = group_of(!is_second(all_end, one_pauses));
    // what the children do is neither tested nor goes on
    let mut no_answers = Vec::new(alloc);
    let mut no_choices = Vec::new(alloc);
    group(
        alloc,
        image,
        costs,
        lines,
        bounds,
        program,
        pieces,
        most,
        deep,
        how,
        first,
        count,
        states,
        &mut no_answers,
        &mut no_choices,
    )?;
    let own = plan(
        alloc, image, costs, lines, bounds, program, pieces, most, handler, side, level, choices,
    )?;
    answers.extend_from_slice(own.as_slice())?;
    answers.push(true)?;
    Ok(())
}

// A slot that waits for so many children.
#[cycle(slot)]
fn waiting_slot(
    alloc: Global,
    image: &Image,
    costs: &Costs,
    lines: &[Line],
    bounds: &[Pair],
    program: &Program,
    pieces: &[Piece],
    most: u64,
    deep: usize,
    side: Side,
    slot: u32,
    p: &Point,
    lo: u8,
    count: u8,
    states: &mut Vec<State>,
    answers: &mut Vec<bool>,
    choices: &mut Vec<bool>,
) -> Result<(), Fault>
    requires pieces { ArePieces image.now costs.now pieces.now (read_program program.now) }
    requires low { AreLow lines.now }
    requires points { HasSmallPoints image.now lines.now bounds.now costs.now }
    requires few { length p.now.stack ≤ 8 }
    requires waits { resumed_most (pair_at bounds.now) lo count ≤ most_cycles }
    requires small { let told = told_by lines.now bounds.now in
        IsSmall (tested image.now told costs.now side 0 p.now.stack (joined image.now told costs.now side p.now lo count)) }
    ensures states { IfOk result (λ done. IsStood slot
        (waiting_where image.now lines.now bounds.now costs.now program.now most deep side p.now lo count).0
        states.old.items states.new.items) }
    ensures answers { IfOk result (λ done. answers.new.items ≡ answers.old.items
        ++ (waiting_where image.now lines.now bounds.now costs.now program.now most deep side p.now lo count).1.0) }
    ensures choices { IfOk result (λ done. choices.new.items ≡ choices.old.items
        ++ (waiting_where image.now lines.now bounds.now costs.now program.now most deep side p.now lo count).1.1) }
    ensures only { OnlyMemory result }
{
    let first = u32::from(lo);
    let children = u32::from(count);
    let pausing = joined_paused(image, costs, lines, bounds, side, p, lo, count)?;
    let ending = joined_ended(image, costs, lines, bounds, side, p, lo, count)?;
    let stack = p.stack.items();
    let inner = greater(pausing, ending);
    let cut = cut_in(image, costs, lines, bounds, side, 0, stack, inner)?;
    match cut {
        None => {
            let joined = is_second(pausing, ending);
            joined_slot(
                alloc, image, costs, lines, bounds, program, pieces, most, deep, side, slot, p,
                first, children, joined, states, answers, choices,
            )?;
            Ok(())
        }
        Some((handler, level)) => {
            cut_slot(
                alloc, image, costs, lines, bounds, program, pieces, most, deep, side, slot, p,
                first, children, handler, level, states, answers, choices,
            )?;
            Ok(())
        }
    }
}

// A slot that waits at a point.
#[cycle(slot)]
#[tactic(auto, using(crate::proofs::BegunLaws::ending))]
fn fork_slot(
    alloc: Global,
    image: &Image,
    costs: &Costs,
    lines: &[Line],
    bounds: &[Pair],
    program: &Program,
    pieces: &[Piece],
    most: u64,
    deep: usize,
    side: Side,
    slot: u32,
    p: &Point,
    states: &mut Vec<State>,
    answers: &mut Vec<bool>,
    choices: &mut Vec<bool>,
) -> Result<(), Fault>
    requires pieces { ArePieces image.now costs.now pieces.now (read_program program.now) }
    requires low { AreLow lines.now }
    requires points { HasSmallPoints image.now lines.now bounds.now costs.now }
    requires few { length p.now.stack ≤ 8 }
    requires waits { IsSmallWait image.now bounds.now p.now }
    requires small { IsSmallSum (waited image.now (told_by lines.now bounds.now) costs.now side p.now) }
    ensures states { IfOk result (λ done. IsStood slot
        (waiting_slot image.now lines.now bounds.now costs.now program.now most deep side p.now).0
        states.old.items states.new.items) }
    ensures answers { IfOk result (λ done. answers.new.items ≡ answers.old.items
        ++ (waiting_slot image.now lines.now bounds.now costs.now program.now most deep side p.now).1.0) }
    ensures choices { IfOk result (λ done. choices.new.items ≡ choices.old.items
        ++ (waiting_slot image.now lines.now bounds.now costs.now program.now most deep side p.now).1.1) }
    ensures only { OnlyMemory result }
{
    match instr_in(image, p.at as usize) {
        Some(Instr::Fork { lo, count }) => {
            waiting_slot(
                alloc, image, costs, lines, bounds, program, pieces, most, deep, side, slot, p, lo,
                count, states, answers, choices,
            )?;
            Ok(())
        }
        _ => {
            stand(states, slot, State::Ended);
            Ok(())
        }
    }
}

// A slot that waits at a point, or has ended where there is none.
#[cycle(slot)]
#[tactic(auto, using(crate::proofs::BegunLaws::ending))]
fn fork_at(
    alloc: Global,
    image: &Image,
    costs: &Costs,
    lines: &[Line],
    bounds: &[Pair],
    program: &Program,
    pieces: &[Piece],
    most: u64,
    deep: usize,
    side: Side,
    slot: u32,
    p: Option<&Point>,
    states: &mut Vec<State>,
    answers: &mut Vec<bool>,
    choices: &mut Vec<bool>,
) -> Result<(), Fault>
    requires pieces { ArePieces image.now costs.now pieces.now (read_program program.now) }
    requires low { AreLow lines.now }
    requires points { HasSmallPoints image.now lines.now bounds.now costs.now }
    requires few { IfSome p (λ p. length p.now.stack ≤ 8) }
    requires waits { IfSome p (λ p. IsSmallWait image.now bounds.now p.now) }
    requires small { IfSome p (λ p. IsSmallSum (waited image.now (told_by lines.now bounds.now) costs.now side p.now)) }
    ensures states { IfOk result (λ done. IsStood slot
        (at_point (waiting_slot image.now lines.now bounds.now costs.now program.now most deep side) (option_copied p.entry)).0
        states.old.items states.new.items) }
    ensures answers { IfOk result (λ done. answers.new.items ≡ answers.old.items
        ++ (at_point (waiting_slot image.now lines.now bounds.now costs.now program.now most deep side) (option_copied p.entry)).1.0) }
    ensures choices { IfOk result (λ done. choices.new.items ≡ choices.old.items
        ++ (at_point (waiting_slot image.now lines.now bounds.now costs.now program.now most deep side) (option_copied p.entry)).1.1) }
    ensures only { OnlyMemory result }
{
    match p {
        None => {
            stand(states, slot, State::Ended);
            Ok(())
        }
        Some(p) => {
            fork_slot(
                alloc, image, costs, lines, bounds, program, pieces, most, deep, side, slot, p,
                states, answers, choices,
            )?;
            Ok(())
        }
    }
}

// A slot that is paused at a point, or has ended where there is none.
#[tactic(auto, using(crate::proofs::BegunLaws::ending))]
fn pause_at(
    alloc: Global,
    image: &Image,
    costs: &Costs,
    lines: &[Line],
    bounds: &[Pair],
    program: &Program,
    pieces: &[Piece],
    most: u64,
    side: Side,
    slot: u32,
    p: Option<&Point>,
    states: &mut Vec<State>,
    answers: &mut Vec<bool>,
    choices: &mut Vec<bool>,
) -> Result<(), Fault>
    requires pieces { ArePieces image.now costs.now pieces.now (read_program program.now) }
    requires low { AreLow lines.now }
    requires few { IfSome p (λ p. length p.now.stack ≤ 8) }
    requires small { IfSome p (λ p. IsSmall (paused image.now (told_by lines.now bounds.now) costs.now side p.now)) }
    ensures states { IfOk result (λ done. IsStood slot
        (at_point (paused_slot image.now lines.now bounds.now costs.now program.now most side) (option_copied p.entry)).0
        states.old.items states.new.items) }
    ensures answers { IfOk result (λ done. answers.new.items ≡ answers.old.items
        ++ (at_point (paused_slot image.now lines.now bounds.now costs.now program.now most side) (option_copied p.entry)).1.0) }
    ensures choices { IfOk result (λ done. choices.new.items ≡ choices.old.items
        ++ (at_point (paused_slot image.now lines.now bounds.now costs.now program.now most side) (option_copied p.entry)).1.1) }
    ensures only { OnlyMemory result }
{
    match p {
        None => {
            stand(states, slot, State::Ended);
            Ok(())
        }
        Some(p) => {
            pause_slot(
                alloc, image, costs, lines, bounds, program, pieces, most, side, slot, p, states,
                answers, choices,
            )?;
            Ok(())
        }
    }
}

/// A slot that is resumed to a side, below which so many stand below one another at most.
#[cycle(slot)]
#[tactic(auto, using(crate::proofs::BegunLaws::ending))]
pub fn slot(
    alloc: Global,
    image: &Image,
    costs: &Costs,
    lines: &[Line],
    bounds: &[Pair],
    program: &Program,
    pieces: &[Piece],
    most: u64,
    deep: usize,
    side: Side,
    slot: u32,
    states: &mut Vec<State>,
    answers: &mut Vec<bool>,
    choices: &mut Vec<bool>,
) -> Result<(), Fault>
    requires pieces { ArePieces image.now costs.now pieces.now (read_program program.now) }
    requires low { AreLow lines.now }
    requires points { HasSmallPoints image.now lines.now bounds.now costs.now }
    ensures states { IfOk result (λ done. IsStood slot
        (slots image.now lines.now bounds.now costs.now program.now most deep side slot).0
        states.old.items states.new.items) }
    ensures answers { IfOk result (λ done. answers.new.items ≡ answers.old.items
        ++ (slots image.now lines.now bounds.now costs.now program.now most deep side slot).1.0) }
    ensures choices { IfOk result (λ done. choices.new.items ≡ choices.old.items
        ++ (slots image.now lines.now bounds.now costs.now program.now most deep side slot).1.1) }
    ensures only { OnlyMemory result }
{
    if deep == 0 {
        stand(states, slot, State::Ended);
        return Ok(());
    }
    let pausing = best_paused(image, costs, lines, bounds, side, slot)?;
    let waiting = best_waited(image, costs, lines, bounds, side, slot)?;
    let waits = is_second(pausing, waiting);
    if waits {
        let fork = best_fork(image, costs, lines, bounds, side, slot)?;
        fork_at(
            alloc,
            image,
            costs,
            lines,
            bounds,
            program,
            pieces,
            most,
            deep - 1,
            side,
            slot,
            fork,
            states,
            answers,
            choices,
        )?;
        return Ok(());
    }
    let pause = best_pause(image, costs, lines, bounds, side, slot)?;
    pause_at(
        alloc, image, costs, lines, bounds, program, pieces, most, side, slot, pause, states,
        answers, choices,
    )?;
    Ok(())
}
