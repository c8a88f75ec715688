use crate::sources::{nested, put_numbered};
use pc_rules::judged;
use pt_base::{Refusal, Rule, Span, Text};
use std::alloc::{AllocError, Global};
use std::test::Fail;

/// The rule that a source breaks first, and its place; nothing where it keeps every rule.
fn broken(alloc: Global, source: &[u8]) -> Result<Option<(Rule, Span)>, Refusal> {
    match judged(alloc, &Text::of(alloc, source)?) {
        Ok(_) => Ok(None),
        Err(Refusal::Broken { rule, span }) => Ok(Some((rule, span))),
        Err(Refusal::Memory) => Err(Refusal::Memory),
    }
}

/// Whether a source keeps every rule.
fn keeps(alloc: Global, source: &[u8]) -> Result<bool, Refusal> {
    Ok(broken(alloc, source)?.is_none())
}

/// Whether a source breaks this rule first, there.
fn breaks(alloc: Global, source: &[u8], rule: Rule, from: u32, to: u32) -> Result<bool, Refusal> {
    Ok(broken(alloc, source)? == Some((rule, Span { from, to })))
}

/// So many aborts in one another, before these statements.
fn aborts(alloc: Global, count: u32, behind: &str) -> Result<String, AllocError> {
    let parts = [
        "void main() { ",
        "abort ",
        "EOT; ",
        "when pre (1); ",
        behind,
    ];
    nested(alloc, count, parts)
}

/// Whether the source with nine aborts in one another, before these statements, breaks this rule first, there.
fn nine_break(alloc: Global, behind: &str, rule: Rule, from: u32) -> Result<bool, Refusal> {
    let source = aborts(alloc, 9, behind)?;
    breaks(alloc, source.as_bytes(), rule, from, from.saturating_add(5))
}

fn eight_keep(alloc: Global) -> Result<bool, Refusal> {
    let source = aborts(alloc, 8, "}")?;
    keeps(alloc, source.as_bytes())
}

#[test]
fn rules_on_loops_come_before_limits(rt: HostRuntime) -> Result<(), Fail> {
    assert!(rt; eight_keep(rt.alloc())?);
    assert!(rt; nine_break(rt.alloc(), "}", Rule::Z4, 62)?);
    assert!(rt; nine_break(rt.alloc(), "while (0) ; }", Rule::E1, 199)?);
    Ok(())
}

fn put_threads(out: &mut String, count: u32) -> Result<(), AllocError> {
    put_numbered(out, count, "void t", "(){}")?;
    out.push_str("void main(){")?;
    put_numbered(out, count, "PAR(t", ");")?;
    out.push_str("}")
}

/// A program with so many threads beside `main`.
fn threads(alloc: Global, count: u32) -> Result<String, AllocError> {
    let mut source = String::new(alloc);
    put_threads(&mut source, count)?;
    Ok(source)
}

/// A program with so many of these items.
fn items(alloc: Global, count: u32, front: &str) -> Result<String, AllocError> {
    let mut source = String::new(alloc);
    put_numbered(&mut source, count, front, "=0;")?;
    source.push_str("void main(){}")?;
    Ok(source)
}

/// Whether 63 threads beside `main` are kept, and one more is refused.
fn threads_are_64(alloc: Global) -> Result<bool, Refusal> {
    let kept = keeps(alloc, threads(alloc, 63)?.as_bytes())?;
    Ok(kept && breaks(alloc, threads(alloc, 64)?.as_bytes(), Rule::Z2, 1337, 1337)?)
}

/// Whether 64 of these items are kept, and one more is refused at the end of the source.
fn items_are_64(alloc: Global, front: &str, end: u32) -> Result<bool, Refusal> {
    let kept = keeps(alloc, items(alloc, 64, front)?.as_bytes())?;
    Ok(
        kept && breaks(
            alloc,
            items(alloc, 65, front)?.as_bytes(),
            Rule::Z9,
            end,
            end,
        )?,
    )
}

#[test]
fn threads_inputs_and_outputs_have_their_limit(rt: HostRuntime) -> Result<(), Fail> {
    assert!(rt; threads_are_64(rt.alloc())?);
    assert!(rt; items_are_64(rt.alloc(), "ReactiveInput int a", 1563)?);
    assert!(rt; items_are_64(rt.alloc(), "ReactiveOutput int a", 1628)?);
    Ok(())
}

/// An empty `main` behind so many blanks.
fn blanks(alloc: Global, count: u32) -> Result<String, AllocError> {
    nested(alloc, count, ["", " ", "void main(){}", "", ""])
}

/// Whether a source of 1,048,576 bytes is kept, and one more byte is refused.
fn bytes_are_limited(alloc: Global) -> Result<bool, Refusal> {
    let kept = keeps(alloc, blanks(alloc, 1_048_563)?.as_bytes())?;
    let end = 1_048_576;
    Ok(
        kept && breaks(
            alloc,
            blanks(alloc, 1_048_564)?.as_bytes(),
            Rule::Z1,
            end,
            end,
        )?,
    )
}

#[test]
fn sources_have_their_limit(rt: HostRuntime) -> Result<(), Fail> {
    assert!(rt; bytes_are_limited(rt.alloc())?);
    Ok(())
}

#[test]
fn tokens_and_grammar_come_first(rt: HostRuntime) -> Result<(), Fail> {
    let alloc = rt.alloc();
    assert!(rt; breaks(alloc, b"void main() { EOT", Rule::S1, 17, 17)?);
    assert!(rt; breaks(alloc, b"void main() { EOT $", Rule::L1, 18, 19)?);
    assert!(rt; breaks(alloc, b"int 4294967296;", Rule::L2, 4, 14)?);
    assert!(rt; breaks(alloc, b"/* int x;", Rule::L3, 0, 2)?);
    Ok(())
}
