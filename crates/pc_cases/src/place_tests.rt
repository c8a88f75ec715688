use crate::reading::{Seen, first_other, shown, shows};
use crate::sources::{LEVELS, nested};
use pt_base::Refusal;
use std::alloc::{AllocError, Global};
use std::cmp::Ordering;
use std::test::Fail;

/// The tree of `aONEb TWOc`, where the levels of the operators stand in this order.
fn chained(alloc: Global, one: &str, two: &str, levels: Ordering) -> Result<String, AllocError> {
    match levels {
        Ordering::Equal => format!(in alloc; "(a{one}b{two}c)"),
        Ordering::Less => format!(in alloc; "(a{one}(b{two}c))"),
        Ordering::Greater => format!(in alloc; "((a{one}b){two}c)"),
    }
}

fn chains(alloc: Global, one: &str, two: &str, levels: Ordering) -> Result<bool, Refusal> {
    let text = format!(in alloc; "a{one}b {two}c")?;
    let wanted = chained(alloc, one, two, levels)?;
    shows(alloc, Seen::Expression, text.as_bytes(), wanted.as_bytes())
}

/// Whether an operator of this level chains with each as it should.
fn chains_with_each(alloc: Global, level: usize, one: &str) -> Result<bool, Refusal> {
    for (other, operators) in LEVELS.lines().enumerate() {
        for two in operators.split_whitespace() {
            if !chains(alloc, one, two, level.cmp(&other))? {
                return Ok(false);
            }
        }
    }
    Ok(true)
}

/// How many operators chain with each as they should.
fn chaining(alloc: Global) -> Result<u32, Refusal> {
    let mut count = 0u32;
    for (level, operators) in LEVELS.lines().enumerate() {
        for one in operators.split_whitespace() {
            if chains_with_each(alloc, level, one)? {
                count = count.saturating_add(1);
            }
        }
    }
    Ok(count)
}

#[test]
fn each_operator_against_each_other(rt: HostRuntime) -> Result<(), Fail> {
    assert_eq!(rt; chaining(rt.alloc())?, 18);
    Ok(())
}

const OPERANDS: &str = "((x)) => x
(x)+(1) => (x+1)
a - (b - c) - d => (a-(b-c)-d)
-a*b => (-a*b)
-(a*b) => -(a*b)
!~- -x => !~--x
a--b => (a--b)
!v[i+1][ => refused at h
!v[i+1]==0 => (!v[(i+1)]==0)
 => refused at a, the end
- => refused at b, the end
-( => refused at c, the end
-(a => refused at d, the end
-(a[ => refused at e, the end
-(a[1 => refused at f, the end
-(a[1+ => refused at g, the end
-(a[1+b => refused at h, the end
-(a[1+b] => refused at i, the end
-(a[1+b]* => refused at j, the end
-(a[1+b]*c => refused at k, the end
-(a[1+b]*c) => -(a[(1+b)]*c)
a b => refused at b
a + * b => refused at c
a ! b => refused at b
+a => refused at a
f(x) => refused at b
1[0] => refused at b
(a)[0] => refused at d
a[] => refused at c
() => refused at b
(a => refused at c, the end
(a] => refused at c
a[0) => refused at d
a = b => refused at b";

#[test]
fn operands_and_places(rt: HostRuntime) -> Result<(), Fail> {
    assert_eq!(rt; first_other(rt.alloc(), Seen::Expression, OPERANDS)?, "");
    Ok(())
}

/// What is shown of the middle inside so many fronts and backs.
fn shown_in(alloc: Global, count: u32, parts: [&str; 3]) -> Result<Vec<u8>, Refusal> {
    let [front, middle, back] = parts;
    let text = nested(alloc, count, ["", front, middle, back, ""])?;
    shown(alloc, Seen::Expression, text.as_bytes())
}

/// Whether 64 fronts are taken, and 65 refused so.
fn nests_64(alloc: Global, front: &str, back: &str, refused: &[u8]) -> Result<bool, Refusal> {
    let taken = !shown_in(alloc, 64, [front, "x", back])?.starts_with(b"refused");
    Ok(taken && shown_in(alloc, 65, [front, "x", back])?.as_slice() == refused)
}

/// Whether what is shown of the middle inside 21 minus signs, brackets and indices begins so.
fn begins(alloc: Global, middle: &str, start: &[u8]) -> Result<bool, Refusal> {
    Ok(shown_in(alloc, 21, ["-(v[", middle, "])"])?.starts_with(start))
}

#[test]
fn nesting_has_its_limit(rt: HostRuntime) -> Result<(), Fail> {
    let alloc = rt.alloc();
    // The letter of the 65th level's token: the 64th, the 129th, and for the mixed one the 85th place, modulo 26.
    assert!(rt; nests_64(alloc, "(", ")", b"refused at m")?);
    assert!(rt; nests_64(alloc, "v[", "]", b"refused at z")?);
    assert!(rt; nests_64(alloc, "- ", "", b"refused at m")?);
    assert!(rt; begins(alloc, "-x", b"-")?);
    assert!(rt; begins(alloc, "(-x)", b"refused at h")?);
    assert!(rt; begins(alloc, "~v[0]", b"refused at i")?);
    assert!(rt; begins(alloc, "x", b"-")?);
    Ok(())
}

/// How many bytes the tree of a chain of so many operators of each of two levels has.
fn length_of_chain(alloc: Global, count: u32) -> Result<usize, Refusal> {
    let text = nested(alloc, count, ["", "a+", "b", "*c", ""])?;
    Ok(shown(alloc, Seen::Expression, text.as_bytes())?.len())
}

#[test]
fn long_chains_are_loops(rt: HostRuntime) -> Result<(), Fail> {
    assert_eq!(rt; length_of_chain(rt.alloc(), 20_000)?, 80_005);
    Ok(())
}
