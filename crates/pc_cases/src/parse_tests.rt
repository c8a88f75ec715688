use crate::reading::{Seen, first_other, place_of, shown, tokens_of};
use crate::sources::nested;
use pt_base::{Refusal, Span, Text};
use std::alloc::{AllocError, Global};
use std::test::Fail;

const TREES: &str = "ReactiveInput int a = 0; ReactiveOutput int o = -1; => >a0<o-1
int x; int y = 4294967295; int z = - 4294967295; int v[15000]; => .x0.y-1.z1v[15000]
int a = - 0; int b = 2147483648; int c = 2147483647; => .a0.b-2147483648.c2147483647
void f() {} void g(void) {} void h(int a, int b) {} => void f{}void g{}void h a b{}
int f(int a) { int b; int c = a + 1; ; return b; } => int f a{b|c=(a+1)|;return b}
void f() { x = 1; v[i] = x; } => void f{x=1;v[i]=x;}
void f() { x = g(); v[0] = g(1, a+b); g(); g(x); } => void f{x=g();v[0]=g(1,(a+b),);g();g(x,);}
void f() { { } {;} EOT; PAR(g, h); PAR(g); } => void f{{}{;}EOT@19-22;PAR@24-27 g h;PAR@35-38 g;}
void f() { abort EOT; when pre (a); weak abort { } when pre (!a); } => void f{abort@11-16<EOT@17-20;>a;weak abort@36-40<{}>!a;}
void f() { while (1) #300 ; while (a) { } } => void f{while@11-16 1#300<;>while@28-33 a<{}>}
void f() { if (a) ; if (b) x = 1; else y = 2; } => void f{if a<;>if b<x=1;>else<y=2;>}
void f() { if (a) if (b) ; else EOT; } => void f{if a<if b<;>else<EOT@32-35;>>}
void f() { if (a) if (b) ; else ; else EOT; } => void f{if a<if b<;>else<;>>else<EOT@39-42;>}
void f() { if (a) while (b) if (c) ; else EOT; } => void f{if a<while@18-23 b<if c<;>else<EOT@42-45;>>>}
void f() { if (a) while (b) ; else EOT; } => void f{if a<while@18-23 b<;>>else<EOT@35-38;>}
void f() { while (a) if (b) ; else EOT; } => void f{while@11-16 a<if b<;>else<EOT@35-38;>>}
void f() { if (a) { if (b) ; } else EOT; } => void f{if a<{if b<;>}>else<EOT@36-39;>}
void f() { if (a) abort if (b) ; when pre (c); else EOT; } => void f{if a<abort@18-23<if b<;>>c;>else<EOT@52-55;>}
void f() { if (a) ; else if (b) ; else EOT; } => void f{if a<;>else<if b<;>else<EOT@39-42;>>}
void f() { x = (g); x = -v[i]; x = ~!a<<2|b%16; } => void f{x=g;x=-v[i];x=((~!a<<2)|(b%16));}";

#[test]
fn trees_of_each_rule(rt: HostRuntime) -> Result<(), Fail> {
    assert_eq!(rt; first_other(rt.alloc(), Seen::Program, TREES)?, "");
    assert!(rt; shown(rt.alloc(), Seen::Program, b"")?.is_empty());
    Ok(())
}

const PLACES: &str = "void main() { EOT => 17 17
EOT; => 0 3
int main() { } => 13 14
void f() { return 1; } => 11 17
void f() { x = 1 } => 17 18
void f() { PAR(); } => 15 16
void f() { PAR(1); } => 15 16
void f() { x; } => 12 13
void f() { ; int y; } => 13 16
void f(int a, void) { } => 14 18
void f(void, int a) { } => 11 12
int v[x]; => 6 7
int v[1] = 2; => 9 10
int x = 1 + 2; => 10 11
int x = - - 2; => 10 11
ReactiveInput int a; => 19 20
void f() { else ; } => 11 15
void f() { while (a) # b ; } => 23 24
void f() { weak EOT; } => 16 19
void f() { abort EOT; when (a); } => 27 28
void f() { abort EOT; when pre (a) } => 35 36
void f() { x = g(1,); } => 19 20";

#[test]
fn places_of_refusal(rt: HostRuntime) -> Result<(), Fail> {
    assert_eq!(rt; first_other(rt.alloc(), Seen::Place, PLACES)?, "");
    Ok(())
}

/// The place at which S1 is broken.
fn place(alloc: Global, source: &[u8]) -> Result<Option<Span>, Refusal> {
    let text = Text::of(alloc, source)?;
    place_of(alloc, &text)
}

/// Whether S1 is broken there.
fn is_refused_at(alloc: Global, source: &[u8], from: usize, to: usize) -> Result<bool, Refusal> {
    match place(alloc, source)? {
        None => Ok(false),
        Some(span) => Ok(span.from as usize == from && span.to as usize == to),
    }
}

/// The source with a bracket at this place.
fn put_wrong(out: &mut Vec<u8>, source: &[u8], at: usize) -> Result<(), AllocError> {
    let at = source.len().min(at);
    out.extend_from_slice(&source[..at])?;
    out.push(b']')?;
    out.extend_from_slice(&source[at..])
}

/// Whether a bracket there is refused.
fn is_wrong(alloc: Global, source: &[u8], at: usize) -> Result<bool, Refusal> {
    let mut wrong = Vec::new(alloc);
    put_wrong(&mut wrong, source, at)?;
    is_refused_at(alloc, &wrong, at, at.saturating_add(1))
}

/// Whether the front before a token is refused at its end, and a bracket before the token is refused.
fn is_needed(alloc: Global, source: &[u8], from: usize) -> Result<bool, Refusal> {
    let from = source.len().min(from);
    let cut = from == 0 || is_refused_at(alloc, &source[..from], from, from)?;
    Ok(cut && is_wrong(alloc, source, from)?)
}

/// Whether each token of the source is needed.
fn is_tight(alloc: Global, source: &[u8]) -> Result<bool, Refusal> {
    let text = Text::of(alloc, source)?;
    let tokens = tokens_of(alloc, &text)?;
    for token in tokens.tokens.items() {
        if !is_needed(alloc, source, token.span.from as usize)? {
            return Ok(false);
        }
    }
    Ok(true)
}

/// The first source with a token that isn't needed, or an empty text.
fn first_loose<'a>(alloc: Global, sources: &'a str) -> Result<&'a str, Refusal> {
    for source in sources.lines() {
        if !is_tight(alloc, source.as_bytes())? {
            return Ok(source);
        }
    }
    Ok("")
}

const TIGHT: &str = "ReactiveInput int a = - 1;
ReactiveOutput int a = 0;
int f(int a, int b) { int c; int d = a * (b - 1); c = f(d, 1); return c; }
void f(void) { x = 1; g(); { ; } if (a) ; else x = 2; while (a + 1) # 3 EOT; PAR(f, g); }
void f() { weak abort if (a) EOT; when pre (a); abort { } when pre (!a); }
int x;";

/// Each front of a program that ends inside an item is refused at its end, and a bracket before each token is.
#[test]
fn refused_at_each_token(rt: HostRuntime) -> Result<(), Fail> {
    assert_eq!(rt; first_loose(rt.alloc(), TIGHT)?, "");
    Ok(())
}

/// The place at which S1 is broken in `void f(){}` with the middle inside so many fronts and backs as its body.
fn place_in(alloc: Global, count: u32, parts: [&str; 3]) -> Result<Option<Span>, Refusal> {
    let [front, middle, back] = parts;
    let source = nested(alloc, count, ["void f(){", front, middle, back, "}"])?;
    place(alloc, source.as_bytes())
}

/// Whether 31 such statements in one another are taken, and the front of the 32nd is refused.
fn nests_31(alloc: Global, front: &str, back: &str) -> Result<bool, Refusal> {
    let taken = place_in(alloc, 31, [front, ";", back])?;
    let deeper = place_in(alloc, 32, [front, ";", back])?;
    let from = 9usize.saturating_add(31usize.saturating_mul(front.len()));
    match (taken, deeper) {
        (None, Some(span)) => Ok(span.from as usize == from),
        _ => Ok(false),
    }
}

#[test]
fn nesting_of_statements_has_its_limit(rt: HostRuntime) -> Result<(), Fail> {
    let alloc = rt.alloc();
    assert!(rt; nests_31(alloc, "if(a)", "")?);
    assert!(rt; nests_31(alloc, "if(a);else ", "")?);
    assert!(rt; nests_31(alloc, "while(a)", "")?);
    assert!(rt; nests_31(alloc, "abort ", "when pre(a);")?);
    assert!(rt; nests_31(alloc, "weak abort ", "when pre(a);")?);
    Ok(())
}

#[test]
fn nesting_of_blocks_has_its_limit(rt: HostRuntime) -> Result<(), Fail> {
    let refused = Span { from: 41, to: 42 };
    assert!(rt; place_in(rt.alloc(), 32, ["{", "", "}"])?.is_none());
    assert!(rt; place_in(rt.alloc(), 33, ["{", "", "}"])? == Some(refused));
    Ok(())
}

/// How many bytes the tree of so many assignments has.
fn length_of_tree(alloc: Global, count: u32) -> Result<usize, Refusal> {
    let source = nested(alloc, count, ["void f(){", "x=1;", "", "", "}"])?;
    Ok(shown(alloc, Seen::Program, source.as_bytes())?.len())
}

#[test]
fn long_lists_are_loops(rt: HostRuntime) -> Result<(), Fail> {
    assert_eq!(rt; length_of_tree(rt.alloc(), 20_000)?, 80_008);
    assert!(rt; place_in(rt.alloc(), 20_000, ["", "f(1", ",1"])?.is_some());
    Ok(())
}
