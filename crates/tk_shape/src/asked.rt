//! Whose kind is asked.

ghost use Rattle.std.specs.Prelude.{◌≡◌, ◌≤◌, ◌<◌, ◌++◌, ◌+◌, ◌^◌, ◌==◌, ℕ, map, slice_get, Some, None, length, [], ◌∷◌};
ghost use Rattle.std.specs.List.{list_any, flat_map, range_with_len};
ghost use Rattle.tk_paths.specs.declared.word.Word.TheVariants.{Next};
ghost use Rattle.tk_paths.specs.Kinds.{line_at, place_in, places_of, word_in, places_of_abort, asked_by_aborts, asked_by_word};
ghost use Rattle.tk_paths.specs.Kinds.{asked_from, is_asked};
ghost use Rattle.tk_shape.specs.Asking.{asked_by_line};
ghost use Rattle.tk_shape.specs.Marked.{is_marked, IsMore};

use crate::kinds::{loops_of, start_of};
use crate::marks::Marks;
use crate::reading::word_in;
use pt_image::{Image, Point};
use tk_cert::{Cert, Line};
use tk_paths::Word;

// Marks the condition and the handler of an abort, if it stands in the table.
fn mark_abort(marks: &mut Marks, image: &Image, j: u32)
    ensures { IsMore marks.old marks.new (places_of_abort (slice_get image.now.aborts j)) }
{
    match image.aborts().get(j as usize) {
        None => {}
        Some(line) => {
            marks.mark(line.cond as usize);
            marks.mark(line.handler as usize);
        }
    }
}

// Marks what the aborts of a stack ask for.
fn mark_aborts(marks: &mut Marks, image: &Image, stack: &[u32])
    ensures { IsMore marks.old marks.new (flat_map (λ j. places_of_abort (slice_get image.now.aborts j)) stack.now) }
{
    for j in stack {
        mark_abort(marks, image, *j);
    }
}

// Marks the start of a slot, if it is one of the image.
fn mark_start(marks: &mut Marks, image: &Image, slot: usize)
    ensures { IsMore marks.old marks.new (place_in (slice_get image.now.slots slot)) }
{
    match image.slots().get(slot) {
        None => {}
        Some(start) => marks.mark(*start as usize),
    }
}

// Marks the starts of so many children.
fn mark_starts(marks: &mut Marks, image: &Image, lo: usize, count: usize)
    requires { lo + count ≤ 65536 }
    ensures { IsMore marks.old marks.new (flat_map (λ child. place_in (slice_get image.now.slots child)) (range_with_len lo count)) }
{
    for number in 0..count {
        mark_start(marks, image, lo + number);
    }
}

// Marks a place, if there is one.
fn mark_goal(marks: &mut Marks, place: Option<u32>)
    ensures { IsMore marks.old marks.new (place_in place) }
{
    match place {
        None => {}
        Some(place) => marks.mark(place as usize),
    }
}

// Marks where the innermost loop of a line ends, if it is inside one.
fn mark_next(marks: &mut Marks, image: &Image, line: &Line, to: u16)
    ensures { IsMore marks.old marks.new (asked_by_word image.now line.now (Some (Next to))) }
{
    if !loops_of(line).is_empty() {
        marks.mark(usize::from(to));
    }
}

// Marks what the word of a line asks for.
fn mark_word(marks: &mut Marks, image: &Image, line: &Line, word: Option<Word>)
    ensures { IsMore marks.old marks.new (asked_by_word image.now line.now word) }
{
    match word {
        None => {}
        Some(word) => match word {
            Word::Jump { to } => mark_goal(marks, to),
            Word::Branch { to } => mark_goal(marks, to),
            Word::Fork { lo, count } => mark_starts(
                marks,
                image,
                usize::from(lo),
                usize::from(count),
            ),
            Word::Call { to } => marks.mark(usize::from(to)),
            Word::Next { to } => mark_next(marks, image, line, to),
            Word::Does { .. } => {}
            Word::Imm { .. } => {}
            Word::Eot => {}
            Word::End => {}
            Word::Abrt { .. } => {}
            Word::Leave => {}
            Word::Ret => {}
            Word::Loop { .. } => {}
            Word::Drop => {}
            Word::Cend => {}
        },
    }
}

// Marks what the aborts of a line ask for.
fn mark_line_aborts(marks: &mut Marks, image: &Image, line: &Line)
    ensures { IsMore marks.old marks.new (asked_by_aborts image.now line.now) }
{
    match line {
        Line::Bare => {}
        Line::Thread { stack, .. } => mark_aborts(marks, image, stack.items()),
        Line::Routine { .. } => {}
        Line::Cond { .. } => {}
    }
}

// Marks what a line that says something asks for.
fn mark_line(marks: &mut Marks, image: &Image, cert: &Cert, place: usize, line: &Line)
    requires { place < 65536 }
    ensures { IsMore marks.old marks.new (asked_by_line image.now cert.now.lines place line.now) }
{
    mark_line_aborts(marks, image, line);
    mark_word(marks, image, line, word_in(image, cert, place));
}

// Marks what a place asks for.
fn mark_place(marks: &mut Marks, image: &Image, cert: &Cert, place: usize)
    requires { place < 65536 }
    ensures { IsMore marks.old marks.new (asked_from image.now cert.now.lines place) }
{
    match cert.lines().get(place) {
        None => {}
        Some(line) => match line {
            Line::Bare => {}
            Line::Thread { .. } => mark_line(marks, image, cert, place, line),
            Line::Routine { .. } => mark_line(marks, image, cert, place, line),
            Line::Cond { .. } => mark_line(marks, image, cert, place, line),
        },
    }
}

// Marks what all places ask for.
fn mark_places(marks: &mut Marks, image: &Image, cert: &Cert)
    ensures { IsMore marks.old marks.new (flat_map (asked_from image.now cert.now.lines) (places_of image.now)) }
{
    image.ranges();
    for place in 0..image.code().len() {
        mark_place(marks, image, cert, place);
    }
}

// Marks the places of points.
fn mark_points(marks: &mut Marks, points: &[Point])
    ensures { IsMore marks.old marks.new (map (λ p. p.at) points.now) }
{
    for p in points {
        marks.mark(p.at as usize);
    }
}

/// The places whose kind is asked, but by the places before them: by slot 0's start, a listed point, or a place.
pub fn asked(image: &Image, cert: &Cert) -> Marks
    ensures { (place : ℕ) → place < 65536 → is_marked result place ≡ is_asked image.now cert.now.lines place }
{
    let mut marks = Marks::none();
    marks.mark(start_of(image, 0));
    mark_points(&mut marks, image.pauses());
    mark_points(&mut marks, image.forks());
    mark_places(&mut marks, image, cert);
    marks
}
