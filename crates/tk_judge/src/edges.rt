//! A3, edges.

ghost use Rattle.std.specs.Prelude.{◌≡◌, ◌≤◌, ◌<◌, ◌^◌, ◌++◌, Some, None, length};
ghost use Rattle.mb_pfu.specs.Calls.{last_of};
ghost use Rattle.mb_isa.specs.Costs.{cost_of};
ghost use Rattle.tk_paths.specs.declared.word.Word.TheVariants.{Jump, Branch, Leave, Next};
ghost use Rattle.std.specs.List.{flat_map, range_with_len};
ghost use Rattle.tk_paths.specs.Kinds.{line_at, loops_of};
ghost use Rattle.tk_paths.specs.Shape.{weight_in};
ghost use Rattle.tk_paths.specs.Acceptance.{edge, ending, closing, left_view, word_edges, stack_of, weight, inner_weight, line_edges};
ghost use Rattle.tk_paths.specs.Acceptance.{edges, more, number, level_of};
ghost use Rattle.tk_shape.specs.Looking.{AreTables};
ghost use Rattle.tk_shape.specs.Refused.{refused};
ghost use Rattle.tk_judge.specs.Asks.{level_edges, edges_at};

use mb_isa::{Class, Costs};
use pt_image::Image;
use tk_cert::{Cert, Line};
use tk_paths::{Side, View, Word};
use tk_shape::{
    Refusal, Tables, at_least, last, level_of, loops_of, lowered, more, number, stack_of, value_at,
    weight_at, word_at,
};

// What an edge asks of a number.
fn edge(
    image: &Image,
    cert: &Cert,
    costs: &Costs,
    place: usize,
    view: View,
    charge: u128,
    next: usize,
) -> Option<Refusal>
    requires place { place < 65536 }
    requires charge { charge ≤ 2 ^ 120 }
    ensures { result ≡ refused (edge image.now cert.now costs.now place view charge next) }
{
    let needed = more(charge, number(cert, view, next));
    at_least(
        3,
        place as u32,
        level_of(view),
        number(cert, view, place),
        needed,
    )
}

// The edge of a class.
fn edge_of(
    image: &Image,
    cert: &Cert,
    costs: &Costs,
    place: usize,
    view: View,
    class: Class,
    next: usize,
) -> Option<Refusal>
    requires { place < 65536 }
    ensures { result ≡ refused (edge image.now cert.now costs.now place view (cost_of costs.now class) next) }
{
    edge(
        image,
        cert,
        costs,
        place,
        view,
        u128::from(costs.cost(class)),
        next,
    )
}

// A thread ends.
fn ending(image: &Image, cert: &Cert, costs: &Costs, place: usize, view: View) -> Option<Refusal>
    requires { place < 65536 }
    ensures { result ≡ refused (ending image.now cert.now costs.now place view) }
{
    match view {
        View::On { side, level } => match side {
            Side::ToPause => None,
            Side::ToEnd => {
                let cost = u128::from(costs.cost(Class::End));
                at_least(
                    3,
                    place as u32,
                    level,
                    number(cert, view, place),
                    Some(cost),
                )
            }
        },
        View::Value => None,
    }
}

// A routine or a condition is over.
fn closing(
    image: &Image,
    cert: &Cert,
    costs: &Costs,
    place: usize,
    class: Class,
    view: View,
) -> Option<Refusal>
    requires { place < 65536 }
    ensures { result ≡ refused (closing image.now cert.now costs.now place class view) }
{
    match view {
        View::On { .. } => None,
        View::Value => {
            let cost = u128::from(costs.cost(class));
            at_least(3, place as u32, 0, number(cert, view, place), Some(cost))
        }
    }
}

// Where a jump leads.
fn jumps(
    image: &Image,
    cert: &Cert,
    costs: &Costs,
    place: usize,
    line: &Line,
    view: View,
    to: Option<u32>,
) -> Option<Refusal>
    requires { place < 65536 }
    ensures { result ≡ refused (word_edges image.now cert.now costs.now place line.now view (Some (Jump to))) }
{
    match to {
        None => None,
        Some(to) => edge_of(image, cert, costs, place, view, Class::Jump, to as usize),
    }
}

// Where a branch leads.
#[tactic(auto, using(tk_shape::proofs::Refusals::refused_append))]
fn branches(
    image: &Image,
    cert: &Cert,
    costs: &Costs,
    place: usize,
    line: &Line,
    view: View,
    to: Option<u32>,
) -> Option<Refusal>
    requires { place < 65536 }
    ensures { result ≡ refused (word_edges image.now cert.now costs.now place line.now view (Some (Branch to))) }
{
    match to {
        None => None,
        Some(to) => {
            let untaken = edge_of(image, cert, costs, place, view, Class::Untaken, place + 1);
            if let Some(refusal) = untaken {
                return Some(refusal);
            }
            edge_of(image, cert, costs, place, view, Class::Taken, to as usize)
        }
    }
}

// The weight of a loop, or 0.
fn weight(image: &Image, cert: &Cert, costs: &Costs, tables: &Tables, place: usize) -> u64
    requires { AreTables image.now cert.now tables.now }
    ensures { result ≡ weight image.now cert.now costs.now place }
{
    match weight_at(cert.weights(), &tables.weights, place) {
        None => 0,
        Some(weight) => weight,
    }
}

// The weight of the innermost loop, or 0.
fn inner_weight(image: &Image, cert: &Cert, costs: &Costs, tables: &Tables, line: &Line) -> u64
    requires { AreTables image.now cert.now tables.now }
    ensures { result ≡ inner_weight image.now cert.now costs.now (last_of (loops_of line.now)) }
{
    match last(loops_of(line)) {
        None => 0,
        Some((_, place)) => weight(image, cert, costs, tables, place as usize),
    }
}

// What a turn of a loop asks, and its end.
#[tactic(auto, using(tk_shape::proofs::Refusals::refused_append))]
fn turns(
    image: &Image,
    cert: &Cert,
    costs: &Costs,
    tables: &Tables,
    place: usize,
    line: &Line,
    view: View,
    to: u16,
) -> Option<Refusal>
    requires tables { AreTables image.now cert.now tables.now }
    requires place { place < 65536 }
    ensures { result ≡ refused (word_edges image.now cert.now costs.now place line.now view (Some (Next to))) }
{
    let charge = u128::from(costs.cost(Class::Next));
    let needed = lowered(
        inner_weight(image, cert, costs, tables, line),
        more(charge, number(cert, view, place + 1)),
    );
    let turn = at_least(
        3,
        place as u32,
        level_of(view),
        number(cert, view, place),
        needed,
    );
    if let Some(refusal) = turn {
        return Some(refusal);
    }
    edge(image, cert, costs, place, view, charge, usize::from(to))
}

// The view outside the innermost abort.
fn left_view(image: &Image, cert: &Cert, costs: &Costs, aborts: usize, view: View) -> View
    ensures { result ≡ left_view image.now cert.now costs.now aborts view }
{
    match view {
        View::On { side, level } => View::On {
            side,
            level: level.min(aborts.saturating_sub(1)),
        },
        View::Value => View::Value,
    }
}

// A thread leaves its innermost abort.
fn leaving(
    image: &Image,
    cert: &Cert,
    costs: &Costs,
    place: usize,
    line: &Line,
    view: View,
) -> Option<Refusal>
    requires { place < 65536 }
    ensures { result ≡ refused (word_edges image.now cert.now costs.now place line.now view (Some Leave)) }
{
    let charge = u128::from(costs.cost(Class::Leave));
    let outside = left_view(image, cert, costs, stack_of(line).len(), view);
    let needed = more(charge, number(cert, outside, place + 1));
    at_least(
        3,
        place as u32,
        level_of(view),
        number(cert, view, place),
        needed,
    )
}

// What a word asks of a number of its line.
fn word_edges(
    image: &Image,
    cert: &Cert,
    costs: &Costs,
    tables: &Tables,
    place: usize,
    line: &Line,
    view: View,
    word: Option<Word>,
) -> Option<Refusal>
    requires tables { AreTables image.now cert.now tables.now }
    requires place { place < 65536 }
    ensures { result ≡ refused (word_edges image.now cert.now costs.now place line.now view word) }
{
    let next = place + 1;
    match word? {
        Word::Does { class } => edge_of(image, cert, costs, place, view, class, next),
        Word::Imm { .. } => edge_of(image, cert, costs, place, view, Class::Imm, next),
        Word::Jump { to } => jumps(image, cert, costs, place, line, view, to),
        Word::Branch { to } => branches(image, cert, costs, place, line, view, to),
        Word::Fork { .. } => None,
        Word::Eot => None,
        Word::End => ending(image, cert, costs, place, view),
        Word::Abrt { .. } => edge_of(image, cert, costs, place, view, Class::Abrt, next),
        Word::Leave => leaving(image, cert, costs, place, line, view),
        Word::Call { to } => {
            let charge = u128::from(costs.cost(Class::Call));
            let value = u128::from(value_at(cert, usize::from(to)));
            edge(image, cert, costs, place, view, charge + value, next)
        }
        Word::Ret => closing(image, cert, costs, place, Class::Ret, view),
        Word::Loop { turns } => {
            let charge = u128::from(costs.cost(Class::Loop));
            let weight = u128::from(weight(image, cert, costs, tables, place));
            edge(
                image,
                cert,
                costs,
                place,
                view,
                charge + u128::from(turns) * weight,
                next,
            )
        }
        Word::Next { to } => turns(image, cert, costs, tables, place, line, view, to),
        Word::Drop => edge_of(image, cert, costs, place, view, Class::Drop, next),
        Word::Cend => closing(image, cert, costs, place, Class::Cend, view),
    }
}

// What a word asks of both numbers of a level.
#[tactic(auto, using(tk_shape::proofs::Refusals::refused_append))]
fn level_edges(
    image: &Image,
    cert: &Cert,
    costs: &Costs,
    tables: &Tables,
    place: usize,
    line: &Line,
    word: Option<Word>,
    level: usize,
) -> Option<Refusal>
    requires tables { AreTables image.now cert.now tables.now }
    requires place { place < 65536 }
    ensures { result ≡ refused (level_edges image.now cert.now costs.now place line.now word level) }
{
    let to_pause = View::On {
        side: Side::ToPause,
        level,
    };
    if let Some(refusal) = word_edges(image, cert, costs, tables, place, line, to_pause, word) {
        return Some(refusal);
    }
    let to_end = View::On {
        side: Side::ToEnd,
        level,
    };
    word_edges(image, cert, costs, tables, place, line, to_end, word)
}

// What a word asks of all levels.
fn levels_edges(
    image: &Image,
    cert: &Cert,
    costs: &Costs,
    tables: &Tables,
    place: usize,
    line: &Line,
    word: Option<Word>,
    levels: usize,
) -> Option<Refusal>
    requires tables { AreTables image.now cert.now tables.now }
    requires place { place < 65536 }
    ensures { result ≡ refused (flat_map (level_edges image.now cert.now costs.now place line.now word) (range_with_len 0 levels)) }
{
    for level in 0..levels {
        if let Some(refusal) = level_edges(image, cert, costs, tables, place, line, word, level) {
            return Some(refusal);
        }
    }
    None
}

// What the word of a line asks of all its numbers.
#[tactic(auto, using(crate::proofs::Levels::threads, crate::proofs::Levels::routines, crate::proofs::Levels::conds))]
fn line_edges(
    image: &Image,
    cert: &Cert,
    costs: &Costs,
    tables: &Tables,
    place: usize,
    line: &Line,
) -> Option<Refusal>
    requires tables { AreTables image.now cert.now tables.now }
    requires place { place < 65536 }
    ensures { result ≡ refused (line_edges image.now cert.now costs.now place line.now) }
{
    let word = word_at(image, cert, place);
    match line {
        Line::Bare => None,
        Line::Thread { levels, .. } => levels_edges(
            image,
            cert,
            costs,
            tables,
            place,
            line,
            word,
            levels.items().len(),
        ),
        Line::Routine { .. } => word_edges(
            image,
            cert,
            costs,
            tables,
            place,
            line,
            View::Value,
            word,
        ),
        Line::Cond { .. } => word_edges(image, cert, costs, tables, place, line, View::Value, word),
    }
}

// What the word of a place asks.
fn edges_at(
    image: &Image,
    cert: &Cert,
    costs: &Costs,
    tables: &Tables,
    place: usize,
) -> Option<Refusal>
    requires tables { AreTables image.now cert.now tables.now }
    requires place { place < 65536 }
    ensures { result ≡ refused (edges_at image.now cert.now costs.now place) }
{
    match cert.lines().get(place) {
        None => None,
        Some(line) => line_edges(image, cert, costs, tables, place, line),
    }
}

/// The first refusal of an edge.
pub fn edges(image: &Image, cert: &Cert, costs: &Costs, tables: &Tables) -> Option<Refusal>
    requires { AreTables image.now cert.now tables.now }
    ensures { result ≡ refused (edges image.now cert.now costs.now) }
{
    image.ranges();
    for place in 0..image.code().len() {
        if let Some(refusal) = edges_at(image, cert, costs, tables, place) {
            return Some(refusal);
        }
    }
    None
}
