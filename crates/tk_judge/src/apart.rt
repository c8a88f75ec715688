//! A2: no slot is forked at two places.

ghost use Rattle.std.specs.Prelude.{◌≡◌, ◌<◌, map, option_map};
ghost use Rattle.std.specs.Option.{option_to_list};
ghost use Rattle.tk_cert.specs.Demands.{shape_demand};
ghost use Rattle.std.specs.List.{list_all};
ghost use Rattle.tk_paths.specs.Shape.{children_at, meet, earlier, is_apart, apart};
ghost use Rattle.tk_shape.specs.Looking.{AreTables};
ghost use Rattle.tk_shape.specs.Refused.{refused};
ghost use Rattle.tk_judge.specs.Asks.{is_clear, apart_at};

use mb_isa::Instr;
use pt_image::{Image, Point};
use tk_cert::Cert;
use tk_shape::{Refusal, Tables, fork_at, instr_at, shaped};

/// The first of a fork's children and how many they are.
pub fn children_at(image: &Image, place: usize) -> (u8, u8)
    ensures { result ≡ children_at image.now place }
{
    match instr_at(image, place) {
        Some(Instr::Fork { lo, count }) => (lo, count),
        _ => (0, 0),
    }
}

// Whether two ranges of slots have one in common.
fn meet(a: (u8, u8), b: (u8, u8)) -> bool
    ensures { result ≡ meet a b }
{
    u16::from(a.0) < u16::from(b.0) + u16::from(b.1)
        && u16::from(b.0) < u16::from(a.0) + u16::from(a.1)
}

// Whether no fork before that of a place has one of these children.
fn are_apart(image: &Image, place: usize, children: (u8, u8)) -> bool
    ensures { result ≡ list_all (is_clear image.now children) (earlier image.now.forks place) }
{
    for p in image.forks() {
        if p.at as usize == place {
            return true;
        }
        if meet(children, children_at(image, p.at as usize)) {
            return false;
        }
    }
    true
}

// Whether the children of the fork at a place are none of an earlier fork, nor slot 0.
fn is_apart(image: &Image, place: usize) -> bool
    ensures { result ≡ is_apart image.now place }
{
    let children = children_at(image, place);
    0 < children.0 && are_apart(image, place, children)
}

// What a place asks, if this fork is listed for it.
fn apart_if(image: &Image, place: usize, point: Option<&Point>) -> Option<Refusal>
    requires { place < 65536 }
    ensures { result ≡ refused (map (λ p. shape_demand 2 place (is_apart image.now place)) (option_to_list (option_map (λ p. p.now) point.entry))) }
{
    match point {
        None => None,
        Some(_) => shaped(2, place, is_apart(image, place)),
    }
}

// What a place asks, if a fork is listed for it.
fn apart_at(image: &Image, cert: &Cert, tables: &Tables, place: usize) -> Option<Refusal>
    requires tables { AreTables image.now cert.now tables.now }
    requires place { place < 65536 }
    ensures { result ≡ refused (apart_at image.now place) }
{
    apart_if(image, place, fork_at(image, cert, tables, place))
}

/// The first refusal of a fork whose children are those of another.
pub fn apart(image: &Image, cert: &Cert, tables: &Tables) -> Option<Refusal>
    requires { AreTables image.now cert.now tables.now }
    ensures { result ≡ refused (apart image.now) }
{
    image.ranges();
    for place in 0..image.code().len() {
        if let Some(refusal) = apart_at(image, cert, tables, place) {
            return Some(refusal);
        }
    }
    None
}
