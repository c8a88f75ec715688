//! Words that stand and lead as they may.

ghost use Rattle.std.specs.Prelude.{◌≡◌, ◌≤◌, ◌<◌, ◌+◌, ◌^◌, ◌++◌, ◌&&◌, nat_lt, nat_le, not, [], ◌∷◌, Some, None, length, option_map};
ghost use Rattle.tk_paths.specs.declared.word.Word.TheVariants.{Imm, Eot, Fork, End, Abrt, Leave, Call, Ret, Loop, Next, Drop};
ghost use Rattle.tk_paths.specs.Kinds.{line_at, is_thread, is_routine, is_cond, is_inside, loops_of, is_asked};
ghost use Rattle.tk_paths.specs.Shape.{may_follow, may_return, may_loop, leads, children_start, word_is_shaped};
ghost use Rattle.tk_paths.specs.Words.{instr_at};
ghost use Rattle.tk_shape.specs.Calling.{callable, may_have};
ghost use Rattle.tk_shape.specs.Looking.{is_from, AreTables};
ghost use Rattle.std.specs.List.{list_any};
ghost use Rattle.std.specs.Option.{option_to_list};
ghost use Rattle.pt_image.specs.Listed.{is_listed};

use crate::index::weight_at;
use crate::kinds::{
    is_cond, is_inside, is_thread, keeps_kind, last, loops_of, same_and_last, same_numbers,
    start_of,
};
use crate::reading::instr_at;
use crate::tables::{Tables, fork_at, pause_at};
use mb_isa::{Instr, takes_upper};
use pt_image::{Image, Point};
use tk_cert::{Cert, Line};
use tk_paths::Word;

// Whether a place that is there has the kind of a line.
fn leads(image: &Image, cert: &Cert, line: &Line, to: Option<u32>) -> bool
    ensures { result ≡ leads image.now cert.now line.now to }
{
    match to {
        None => false,
        Some(to) => keeps_kind(cert, line, to as usize),
    }
}

// Whether an instruction may follow an upper half.
fn may_follow(word: Option<Instr>) -> bool
    ensures { result ≡ may_follow word }
{
    match word {
        None => false,
        Some(i) => takes_upper(&i),
    }
}

// Whether what stands behind an `imm` word may follow it, and nothing else asks the kind of its place.
fn follows(image: &Image, cert: &Cert, tables: &Tables, place: usize) -> bool
    requires { AreTables image.now cert.now tables.now }
    ensures { result ≡ (may_follow (instr_at image.now place) && not (is_asked image.now cert.now.lines place)) }
{
    image.ranges();
    if place >= image.code().len() {
        return false;
    }
    may_follow(instr_at(image, place)) && !tables.asked.is_marked(place)
}

// Whether a `imm` word may stand.
fn may_prefix(
    image: &Image,
    cert: &Cert,
    tables: &Tables,
    place: usize,
    line: &Line,
    upper: i16,
) -> bool
    requires tables { AreTables image.now cert.now tables.now }
    requires place { place < 65536 }
    ensures { result ≡ word_is_shaped image.now cert.now place line.now (Some (Imm upper)) }
{
    keeps_kind(cert, line, place + 1) && follows(image, cert, tables, place + 1)
}

// Whether a point, if there is one, is of a slot inside these aborts.
fn is_of(point: Option<&Point>, slot: u32, stack: &[u32]) -> bool
    ensures { result ≡ list_any (is_from slot stack.now) (option_to_list (option_map (λ p. p.now) point.entry)) }
{
    match point {
        None => false,
        Some(p) => p.slot == slot && same_numbers(p.stack.items(), stack),
    }
}

// Whether a pause is listed for a place, a slot and its aborts.
#[tactic(auto, using(crate::proofs::Listings::listed_at))]
fn is_listed_pause(
    image: &Image,
    cert: &Cert,
    tables: &Tables,
    place: usize,
    slot: u32,
    stack: &[u32],
) -> bool
    requires tables { AreTables image.now cert.now tables.now }
    requires place { place < 65536 }
    ensures { result ≡ is_listed image.now.pauses place slot stack.now }
{
    is_of(pause_at(image, cert, tables, place), slot, stack)
}

// Whether a fork is listed for a place, a slot and its aborts.
#[tactic(auto, using(crate::proofs::Listings::listed_at))]
fn is_listed_fork(
    image: &Image,
    cert: &Cert,
    tables: &Tables,
    place: usize,
    slot: u32,
    stack: &[u32],
) -> bool
    requires tables { AreTables image.now cert.now tables.now }
    requires place { place < 65536 }
    ensures { result ≡ is_listed image.now.forks place slot stack.now }
{
    is_of(fork_at(image, cert, tables, place), slot, stack)
}

// Whether each of so many slots starts in a thread of its own.
#[tactic(auto, using(crate::proofs::Ranges::all_range))]
fn children_start(image: &Image, cert: &Cert, child: u32, count: u32) -> bool
    requires { child + count ≤ 65536 }
    ensures { result ≡ children_start image.now cert.now child count }
{
    if count == 0 {
        return true;
    }
    is_thread(cert, start_of(image, child as usize), child, &[], &[])
        && children_start(image, cert, child + 1, count - 1)
}

// Whether a pause may stand.
fn may_pause(image: &Image, cert: &Cert, tables: &Tables, place: usize, line: &Line) -> bool
    requires tables { AreTables image.now cert.now tables.now }
    requires place { place < 65536 }
    ensures { result ≡ word_is_shaped image.now cert.now place line.now (Some Eot) }
{
    match line {
        Line::Bare => false,
        Line::Thread {
            slot,
            stack,
            loops,
            ..
        } => {
            loops.items().is_empty()
                && is_listed_pause(image, cert, tables, place, *slot, stack.items())
                && keeps_kind(cert, line, place + 1)
        }
        Line::Routine { .. } => false,
        Line::Cond { .. } => false,
    }
}

// Whether the children of a fork may be those of a slot.
fn may_have(image: &Image, cert: &Cert, slot: u32, lo: u8, count: u8) -> bool
    ensures { result ≡ may_have image.now cert.now slot lo count }
{
    slot < u32::from(lo)
        && 0 < count
        && usize::from(lo) + usize::from(count) <= image.slots().len()
        && children_start(image, cert, u32::from(lo), u32::from(count))
}

// Whether a fork may stand.
#[tactic(auto, using(crate::proofs::Ranges::six_ands))]
fn may_fork(
    image: &Image,
    cert: &Cert,
    tables: &Tables,
    place: usize,
    line: &Line,
    lo: u8,
    count: u8,
) -> bool
    requires tables { AreTables image.now cert.now tables.now }
    requires place { place < 65536 }
    ensures { result ≡ word_is_shaped image.now cert.now place line.now (Some (Fork lo count)) }
{
    match line {
        Line::Bare => false,
        Line::Thread {
            slot,
            stack,
            loops,
            ..
        } => {
            loops.items().is_empty()
                && is_listed_fork(image, cert, tables, place, *slot, stack.items())
                && may_have(image, cert, *slot, lo, count)
                && keeps_kind(cert, line, place + 1)
        }
        Line::Routine { .. } => false,
        Line::Cond { .. } => false,
    }
}

// Whether an end may stand.
fn may_end(image: &Image, cert: &Cert, place: usize, line: &Line) -> bool
    ensures { result ≡ word_is_shaped image.now cert.now place line.now (Some End) }
{
    match line {
        Line::Bare => false,
        Line::Thread { stack, loops, .. } => loops.items().is_empty() && stack.items().is_empty(),
        Line::Routine { .. } => false,
        Line::Cond { .. } => false,
    }
}

// Whether the line of a place is that of a thread inside one more abort.
fn is_entered(cert: &Cert, place: usize, slot: u32, stack: &[u32], j: u32) -> bool
    ensures { result ≡ is_thread slot (stack.now ++ j ∷ []) [] (line_at cert.now.lines place) }
{
    match cert.lines().get(place) {
        None => false,
        Some(line) => match line {
            Line::Bare => false,
            Line::Thread {
                slot: s,
                stack: a,
                loops: l,
                ..
            } => *s == slot && same_and_last(a.items(), stack, j) && same_numbers(l.items(), &[]),
            Line::Routine { .. } => false,
            Line::Cond { .. } => false,
        },
    }
}

// Whether an abort may be entered.
fn may_enter(image: &Image, cert: &Cert, place: usize, line: &Line, j: u16) -> bool
    requires { place < 65536 }
    ensures { result ≡ word_is_shaped image.now cert.now place line.now (Some (Abrt j)) }
{
    match line {
        Line::Bare => false,
        Line::Thread {
            slot,
            stack,
            loops,
            ..
        } => {
            loops.items().is_empty()
                && usize::from(j) < image.aborts().len()
                && stack.items().len() < 8
                && is_entered(cert, place + 1, *slot, stack.items(), u32::from(j))
        }
        Line::Routine { .. } => false,
        Line::Cond { .. } => false,
    }
}

// Whether an abort may be left.
fn may_leave(image: &Image, cert: &Cert, place: usize, line: &Line) -> bool
    requires { place < 65536 }
    ensures { result ≡ word_is_shaped image.now cert.now place line.now (Some Leave) }
{
    match line {
        Line::Bare => false,
        Line::Thread {
            slot,
            stack,
            loops,
            ..
        } => {
            loops.items().is_empty()
                && match last(stack.items()) {
                    None => false,
                    Some((outside, _)) => is_thread(cert, place + 1, *slot, outside, &[]),
                }
        }
        Line::Routine { .. } => false,
        Line::Cond { .. } => false,
    }
}

// Whether a routine at a place may be called from a thread, or from a routine of a height.
fn is_callable(cert: &Cert, place: usize, height: Option<u32>) -> bool
    ensures { result ≡ callable height (line_at cert.now.lines place) }
{
    match cert.lines().get(place) {
        None => false,
        Some(line) => match line {
            Line::Bare => false,
            Line::Thread { .. } => false,
            Line::Routine {
                height: h,
                loops: l,
                ..
            } => {
                l.items().is_empty()
                    && match height {
                        None => true,
                        Some(height) => *h < height,
                    }
            }
            Line::Cond { .. } => false,
        },
    }
}

// Whether a call may stand.
fn may_call(image: &Image, cert: &Cert, place: usize, line: &Line, to: u16) -> bool
    requires { place < 65536 }
    ensures { result ≡ word_is_shaped image.now cert.now place line.now (Some (Call to)) }
{
    let goal = usize::from(to);
    match line {
        Line::Bare => false,
        Line::Thread { .. } => is_callable(cert, goal, None) && keeps_kind(cert, line, place + 1),
        Line::Routine { height, .. } => is_callable(cert, goal, Some(*height))
            && keeps_kind(cert, line, place + 1),
        Line::Cond { .. } => false,
    }
}

// Whether a routine may return.
fn may_return(line: &Line) -> bool
    ensures { result ≡ may_return line.now }
{
    match line {
        Line::Bare => false,
        Line::Thread { .. } => false,
        Line::Routine { loops, .. } => loops.items().is_empty(),
        Line::Cond { .. } => false,
    }
}

// Whether a place has the kind of a line, inside one more loop.
fn is_looped(cert: &Cert, line: &Line, place: usize, a: u32) -> bool
    ensures { result ≡ is_inside line.now (loops_of line.now ++ a ∷ []) (line_at cert.now.lines place) }
{
    match line {
        Line::Bare => false,
        Line::Thread {
            slot,
            stack,
            loops,
            ..
        } => is_thread_looped(cert, place, *slot, stack.items(), loops.items(), a),
        Line::Routine { height, loops, .. } => is_routine_looped(
            cert,
            place,
            *height,
            loops.items(),
            a,
        ),
        Line::Cond { .. } => is_cond(cert, place),
    }
}

// Whether the line of a place is that of a thread, inside one more loop.
fn is_thread_looped(
    cert: &Cert,
    place: usize,
    slot: u32,
    stack: &[u32],
    loops: &[u32],
    a: u32,
) -> bool
    ensures { result ≡ is_thread slot stack.now (loops.now ++ a ∷ []) (line_at cert.now.lines place) }
{
    match cert.lines().get(place) {
        None => false,
        Some(line) => match line {
            Line::Bare => false,
            Line::Thread {
                slot: s,
                stack: t,
                loops: l,
                ..
            } => *s == slot && same_numbers(t.items(), stack) && same_and_last(l.items(), loops, a),
            Line::Routine { .. } => false,
            Line::Cond { .. } => false,
        },
    }
}

// Whether the line of a place is that of a routine, inside one more loop.
fn is_routine_looped(cert: &Cert, place: usize, height: u32, loops: &[u32], a: u32) -> bool
    ensures { result ≡ is_routine height (loops.now ++ a ∷ []) (line_at cert.now.lines place) }
{
    match cert.lines().get(place) {
        None => false,
        Some(line) => match line {
            Line::Bare => false,
            Line::Thread { .. } => false,
            Line::Routine {
                height: h,
                loops: l,
                ..
            } => *h == height && same_and_last(l.items(), loops, a),
            Line::Cond { .. } => false,
        },
    }
}

// Whether a line is inside few loops.
fn may_loop(line: &Line) -> bool
    ensures { result ≡ may_loop line.now }
{
    match line {
        Line::Bare => false,
        Line::Thread { loops, .. } => loops.items().len() < 8,
        Line::Routine { loops, .. } => loops.items().len() < 8,
        Line::Cond { .. } => false,
    }
}

// Whether a loop may be entered.
fn may_enter_loop(
    image: &Image,
    cert: &Cert,
    tables: &Tables,
    place: usize,
    line: &Line,
    turns: u32,
) -> bool
    requires tables { AreTables image.now cert.now tables.now }
    requires place { place < 65536 }
    ensures { result ≡ word_is_shaped image.now cert.now place line.now (Some (Loop turns)) }
{
    may_loop(line)
        && weight_at(cert.weights(), &tables.weights, place).is_some()
        && is_looped(cert, line, place + 1, place as u32)
}

// Whether a turn of a loop may be taken.
fn may_turn(image: &Image, cert: &Cert, tables: &Tables, place: usize, line: &Line, to: u16) -> bool
    requires tables { AreTables image.now cert.now tables.now }
    requires place { place < 65536 }
    ensures { result ≡ word_is_shaped image.now cert.now place line.now (Some (Next to)) }
{
    match last(loops_of(line)) {
        None => false,
        Some((outside, a)) => {
            weight_at(cert.weights(), &tables.weights, a as usize).is_some()
                && keeps_kind(cert, line, place + 1)
                && is_inside(cert, line, outside, usize::from(to))
        }
    }
}

// Whether a loop may be dropped.
fn may_drop(image: &Image, cert: &Cert, place: usize, line: &Line) -> bool
    requires { place < 65536 }
    ensures { result ≡ word_is_shaped image.now cert.now place line.now (Some Drop) }
{
    match last(loops_of(line)) {
        None => false,
        Some((outside, _)) => is_inside(cert, line, outside, place + 1),
    }
}

// Whether a condition may end.
fn may_conclude(line: &Line) -> bool
    ensures { result ≡ is_cond line.now }
{
    matches!(line, Line::Cond { .. })
}

/// Whether the word of a line stands and leads as it may.
pub fn word_is_shaped(
    image: &Image,
    cert: &Cert,
    tables: &Tables,
    place: usize,
    line: &Line,
    word: Option<Word>,
) -> bool
    requires tables { AreTables image.now cert.now tables.now }
    requires place { place < 65536 }
    ensures { result ≡ word_is_shaped image.now cert.now place line.now word }
{
    match word {
        None => false,
        Some(word) => match word {
            Word::Does { .. } => keeps_kind(cert, line, place + 1),
            Word::Imm { upper } => may_prefix(image, cert, tables, place, line, upper),
            Word::Jump { to } => leads(image, cert, line, to),
            Word::Branch { to } => keeps_kind(cert, line, place + 1)
                && leads(image, cert, line, to),
            Word::Fork { lo, count } => may_fork(image, cert, tables, place, line, lo, count),
            Word::Eot => may_pause(image, cert, tables, place, line),
            Word::End => may_end(image, cert, place, line),
            Word::Abrt { number } => may_enter(image, cert, place, line, number),
            Word::Leave => may_leave(image, cert, place, line),
            Word::Call { to } => may_call(image, cert, place, line, to),
            Word::Ret => may_return(line),
            Word::Loop { turns } => may_enter_loop(image, cert, tables, place, line, turns),
            Word::Next { to } => may_turn(image, cert, tables, place, line, to),
            Word::Drop => may_drop(image, cert, place, line),
            Word::Cend => may_conclude(line),
        },
    }
}
