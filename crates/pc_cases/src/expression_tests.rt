use crate::reading::{Seen, first_other, shows};
use crate::sources::{LEVELS, nested};
use pt_base::Refusal;
use std::alloc::{AllocError, Global};
use std::test::Fail;

const EXPRESSIONS: &str = "((x)) => x
0x1F => 31
0xFFFFFFFF => 4294967295
0 => 0
(1+2)*x => (1 + 2) * x
1+(2*x) => 1 + 2 * x
x--x => x - -x
-(-x) => - -x
- -x => - -x
- - -x => - - -x
-!-x => -!-x
-~!x => -~!x
-(x-y) => -(x - y)
-(-x-y) => -(-x - y)
!(a&&b) => !(a && b)
!a&&b => !a && b
a-(b-c)-d => a - (b - c) - d
(a-b)-c => (a - b) - c
a-b-c => a - b - c
a<<b+c<<d => a << b + c << d
a<(b<c) => a < (b < c)
v[ (i+1) ] => v[i + 1]
-v[-i] => -v[-i]
a/ *b => refused
a/ /**/ b => a / b
~(v[a|b]^c) => ~(v[a | b] ^ c)";

#[test]
fn expressions_have_one_text(rt: HostRuntime) -> Result<(), Fail> {
    assert_eq!(rt; first_other(rt.alloc(), Seen::Canonical, EXPRESSIONS)?, "");
    Ok(())
}

/// The text, without its brackets where they go.
fn put_text(out: &mut Vec<u8>, text: &str, go: bool) -> Result<(), AllocError> {
    for byte in text.as_bytes() {
        if !go || (*byte != b'(' && *byte != b')') {
            out.push(*byte)?;
        }
    }
    Ok(())
}

/// Whether a text is printed as it stands, or without its brackets.
fn is_printed(alloc: Global, text: &str, bare: bool) -> Result<bool, Refusal> {
    let mut wanted = Vec::new(alloc);
    put_text(&mut wanted, text, bare)?;
    shows(alloc, Seen::Canonical, text.as_bytes(), &wanted)
}

/// Whether `a ONE (b TWO c)` and `(a TWO b) ONE c` lose their brackets where TWO is tighter, and else keep them.
fn nests(alloc: Global, one: &str, two: &str, tighter: bool) -> Result<bool, Refusal> {
    let behind = format!(in alloc; "a {one} (b {two} c)")?;
    let before = format!(in alloc; "(a {two} b) {one} c")?;
    Ok(is_printed(alloc, &behind, tighter)? && is_printed(alloc, &before, tighter)?)
}

/// Whether an operator of this level nests with each as it should.
fn nests_with_each(alloc: Global, level: usize, one: &str) -> Result<bool, Refusal> {
    for (other, operators) in LEVELS.lines().enumerate() {
        for two in operators.split_whitespace() {
            if !nests(alloc, one, two, level < other)? {
                return Ok(false);
            }
        }
    }
    Ok(true)
}

/// How many operators nest with each as they should.
fn nesting(alloc: Global) -> Result<u32, Refusal> {
    let mut count = 0u32;
    for (level, operators) in LEVELS.lines().enumerate() {
        for one in operators.split_whitespace() {
            if nests_with_each(alloc, level, one)? {
                count = count.saturating_add(1);
            }
        }
    }
    Ok(count)
}

#[test]
fn each_operator_in_each_other(rt: HostRuntime) -> Result<(), Fail> {
    assert_eq!(rt; nesting(rt.alloc())?, 18);
    Ok(())
}

/// Whether so deep a text is its own canonical text.
fn is_canonical(
    alloc: Global,
    count: u32,
    front: &str,
    middle: &str,
    back: &str,
) -> Result<bool, Refusal> {
    let text = nested(alloc, count, ["", front, middle, back, ""])?;
    shows(alloc, Seen::Canonical, text.as_bytes(), text.as_bytes())
}

#[test]
fn the_deepest_expressions(rt: HostRuntime) -> Result<(), Fail> {
    let alloc = rt.alloc();
    assert!(rt; is_canonical(alloc, 63, "- ", "-x", "")?);
    assert!(rt; is_canonical(alloc, 64, "!", "x", "")?);
    assert!(rt; is_canonical(alloc, 64, "v[", "x", "]")?);
    assert!(rt; is_canonical(alloc, 64, "x * (x + ", "x", ")")?);
    Ok(())
}
