ghost use Rattle.std.specs.Prelude.{◌≡◌, ℕ, ◌+◌, ◌^◌, ◌≤◌, ◌<◌, length, Some, None, MatchOption, IfSome, [], ◌∷◌, List, find, position, not, nat_eq, ◌&&◌, true, false};
ghost use Rattle.std.specs.List.{starts_with};
ghost use Rattle.pc_grammar.specs.Spelling.{spelling_of};
ghost use Rattle.pc_grammar.specs.Numbers.{is_word};
ghost use Rattle.pc_grammar.specs.Lexing.{is_white, run_of, line_of, begins, closed_in, word_sort, run_front, sign_front, sign_of, comment_front, front_of};
ghost use lib.Pointwise.{pointwise};

use crate::numbers::{number, word_byte};
use crate::tokens::{Sort, keyword_sorts, sign_sorts, spelling};
use pt_base::{Rule, is_digit};

/// What a text begins with.
#[derive(Clone, Copy)]
pub enum Front {
    /// White space or a comment.
    Blank,
    /// A token of this sort.
    Piece(Sort),
    /// No token, by this rule.
    Fault(Rule),
}

/// Whether the byte is white space: 9 to 13 or 32.
pub fn white_byte(b: u8) -> bool
    ensures { result ≡ is_white b }
{
    b == 32 || (8 < b && b < 14)
}

fn end_of_run(bytes: &[u8]) -> Option<usize>
    ensures { result ≡ position (λ b. not (is_word b)) bytes.now }
{
    bytes.iter().position(|b| !word_byte(*b))
}

/// The letters, digits and `_` at the front.
#[tactic(auto, using(crate::proofs::Lengths::front_steps))]
fn run(bytes: &[u8]) -> usize
    ensures value { result ≡ run_of bytes.now }
    ensures within { result ≤ length bytes.now }
{
    match end_of_run(bytes) {
        Some(n) => n,
        None => bytes.len(),
    }
}

fn end_of_line(bytes: &[u8]) -> Option<usize>
    ensures { result ≡ position (λ b. nat_eq b 10) bytes.now }
{
    bytes.iter().position(|b| *b == 10)
}

/// The bytes before the line's end.
fn line(bytes: &[u8]) -> usize
    ensures { result ≡ line_of bytes.now }
{
    match end_of_line(bytes) {
        Some(n) => n,
        None => bytes.len(),
    }
}

fn begins_with(bytes: &[u8], b: u8) -> bool
    ensures { result ≡ begins b bytes.now }
{
    if bytes.len() == 0 {
        false
    } else {
        bytes[0] == b
    }
}

fn closes(b: u8, tail: &[u8]) -> bool
    ensures { result ≡ (nat_eq b 42 && begins 47 tail.now) }
{
    b == 42 && begins_with(tail, 47)
}

/// The bytes up to the first `*/`, with it.
#[tactic(auto, using(crate::proofs::Closing::closing_steps))]
fn closed(bytes: &[u8]) -> Option<usize>
    ensures value { result ≡ closed_in bytes.now }
    ensures within { IfSome result (λ n. n ≤ length bytes.now) }
{
    let mut count = 0;
    let mut rest = bytes;
    while let Some((b, tail)) = rest.split_first() {
        if closes(*b, tail) {
            return Some(count + 2);
        }
        count += 1;
        rest = tail;
    }
    None
}

fn is_spelled(sort: Sort, run: &[u8]) -> bool
    ensures { result ≡ pointwise nat_eq (spelling_of sort) run.now }
{
    spelling(sort) == run
}

fn begins_as(bytes: &[u8], sort: Sort) -> bool
    ensures { result ≡ starts_with nat_eq bytes.now (spelling_of sort) }
{
    bytes.starts_with(spelling(sort))
}

/// The first of these sorts that is spelled so.
fn spelled(sorts: &[Sort], run: &[u8]) -> Option<Sort>
    ensures { result ≡ find (λ s. pointwise nat_eq (spelling_of s) run.now) sorts.now }
{
    sorts.iter().copied().find(|s| is_spelled(*s, run))
}

/// The first of these sorts whose spelling the text begins with.
fn begun(sorts: &[Sort], bytes: &[u8]) -> Option<Sort>
    ensures { result ≡ find (λ s. starts_with nat_eq bytes.now (spelling_of s)) sorts.now }
{
    sorts.iter().copied().find(|s| begins_as(bytes, *s))
}

#[tactic(auto, unfolding(crate::specs::Lexing::word_sort))]
fn keyword_or_name_of(run: &[u8]) -> Sort
    ensures { result ≡ word_sort run.now }
{
    match spelled(keyword_sorts(), run) {
        Some(keyword) => keyword,
        None => Sort::Name,
    }
}

#[tactic(auto, unfolding(crate::specs::Lexing::run_front))]
fn front_of_run(run: &[u8]) -> Front
    ensures { result ≡ run_front run.now }
{
    if run.len() == 0 {
        return Front::Fault(Rule::L1);
    }
    if is_digit(run[0]) {
        number(run)
    } else {
        Front::Piece(keyword_or_name_of(run))
    }
}

#[tactic(auto, unfolding(crate::specs::Lexing::sign_of))]
fn front_of_sign(bytes: &[u8]) -> (Front, usize)
    ensures { result ≡ sign_front (sign_of bytes.now) }
{
    match begun(sign_sorts(), bytes) {
        Some(sign) => (Front::Piece(sign), spelling(sign).len()),
        None => (Front::Fault(Rule::L1), 1),
    }
}

fn front_of_comment(body: &[u8]) -> (Front, usize)
    requires { length body.now < 2 ^ 63 }
    ensures { result ≡ comment_front (closed_in body.now) }
{
    match closed(body) {
        Some(n) => (Front::Blank, n + 2),
        None => (Front::Fault(Rule::L3), 2),
    }
}

#[tactic(auto, unfolding(crate::specs::Lexing::front_of))]
fn read_front(bytes: &[u8]) -> (Front, usize)
    ensures { result ≡ front_of bytes.now }
{
    let Some((b, rest)) = bytes.split_first() else {
        return (Front::Fault(Rule::L1), 0);
    };
    if white_byte(*b) {
        return (Front::Blank, 1);
    }
    if word_byte(*b) {
        let n = run(bytes);
        return (front_of_run(&bytes[..n]), n);
    }
    if *b == 47 && begins_with(rest, 47) {
        return (Front::Blank, line(bytes));
    }
    if *b == 47 && begins_with(rest, 42) {
        return front_of_comment(&rest[1..]);
    }
    front_of_sign(bytes)
}

/// What a text begins with, and how many bytes it has.
pub fn look(bytes: &[u8]) -> (Front, usize)
    requires { 0 < length bytes.now }
    ensures value { result ≡ front_of bytes.now }
    ensures some { 0 < result.1 }
    ensures within { result.1 ≤ length bytes.now }
{
    read_front(bytes)
}
