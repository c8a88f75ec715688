//! Sources that are put together of parts.

use std::alloc::{AllocError, Global};

fn put_times(out: &mut String, count: u32, part: &str) -> Result<(), AllocError> {
    for _ in 0..count {
        out.push_str(part)?;
    }
    Ok(())
}

fn put_nested(out: &mut String, count: u32, parts: [&str; 5]) -> Result<(), AllocError> {
    let [head, front, middle, back, tail] = parts;
    out.push_str(head)?;
    put_times(out, count, front)?;
    out.push_str(middle)?;
    put_times(out, count, back)?;
    out.push_str(tail)
}

/// The first part, the second so many times, the third, the fourth so many times, and the last.
pub fn nested(alloc: Global, count: u32, parts: [&str; 5]) -> Result<String, AllocError> {
    let mut all = String::new(alloc);
    put_nested(&mut all, count, parts)?;
    Ok(all)
}

/// The front, a number and the back, for each number below the count.
pub fn put_numbered(
    out: &mut String,
    count: u32,
    front: &str,
    back: &str,
) -> Result<(), AllocError> {
    for number in 0..count {
        write!(out, "{}{}{}", front, number, back)?;
    }
    Ok(())
}

/// The operators, a line for each level, the loosest first.
pub const LEVELS: &str = "||
&&
|
^
&
== !=
< <= > >=
<< >>
+ -
* / %";
