use crate::{Sort, Tokens, lex, spelling};
use pt_base::{MOST_SOURCE_BYTES, Refusal, Rule, Text};
use std::alloc::{AllocError, Global};
use std::test::Fail;

fn tokens_of(alloc: Global, bytes: &[u8]) -> Result<Tokens, Refusal> {
    if bytes.len() > MOST_SOURCE_BYTES as usize {
        return Err(Refusal::Memory);
    }
    let text = Text::of(alloc, bytes)?;
    lex(alloc, &text)
}

/// The spellings of the tokens, `name` and `number` for those, with a blank behind each.
fn shown(alloc: Global, tokens: &Tokens) -> Result<Vec<u8>, AllocError> {
    let mut all = Vec::new(alloc);
    for token in tokens.tokens.items() {
        let text: &[u8] = match token.sort {
            Sort::Name => b"name",
            Sort::Number(_) => b"number",
            sort => spelling(sort),
        };
        all.extend_from_slice(text)?;
        all.push(b' ')?;
    }
    Ok(all)
}

#[test]
fn reads_longest_tokens(rt: HostRuntime) -> Result<(), Fail> {
    let cases: [(&[u8], &[u8]); 10] = [
        (
            b"int void if else while return PAR EOT abort weak when pre ReactiveInput ReactiveOutput",
            b"int void if else while return PAR EOT abort weak when pre ReactiveInput ReactiveOutput ",
        ),
        (
            b"( ) { } [ ] ; , = + - * / % < > ! ~ & | ^ # << >> <= >= == != && ||",
            b"( ) { } [ ] ; , = + - * / % < > ! ~ & | ^ # << >> <= >= == != && || ",
        ),
        (b"integer _int EOT1 eot main", b"name name name name name "),
        (b"a--b", b"name - - name "),
        (b"<<= <<< >>> <<=> <>", b"<< = << < >> > << = > < > "),
        (b"=== !== ==! &&& ||| |&", b"== = != = == ! && & || | | & "),
        (b"a/b//c\r(*d/*e*/\nf", b"name / name name "),
        (b"/***/x/*/*/y/**/", b"name name "),
        (b"\x09\x0a\x0b\x0c\x0d 0//", b"number "),
        (b"/* \x00\x7f\x80\xff */// \x00\xff", b""),
    ];
    for (text, want) in cases {
        let tokens = tokens_of(rt.alloc(), text)?;
        assert_eq!(rt; shown(rt.alloc(), &tokens)?.as_slice(), want);
    }
    Ok(())
}

#[test]
fn reads_numbers(rt: HostRuntime) -> Result<(), Fail> {
    let cases: [(&[u8], u32); 7] = [
        (b"0", 0),
        (b"10", 10),
        (b"4294967295", 4294967295),
        (b"0x0", 0),
        (b"0x0000000000Ab", 171),
        (b"0xFFFFffff", 4294967295),
        (b"987654321", 987654321),
    ];
    for (text, want) in cases {
        let tokens = tokens_of(rt.alloc(), text)?;
        let mut value = None;
        for token in tokens.tokens.items() {
            if let Sort::Number(number) = token.sort {
                value = Some(number);
            }
        }
        assert_eq!(rt; value, Some(want));
    }
    Ok(())
}

#[test]
fn refuses_the_first_fault(rt: HostRuntime) -> Result<(), Fail> {
    let cases: [(&[u8], Rule, u32, u32); 18] = [
        (b"@", Rule::L1, 0, 1),
        (b"a \x00 b", Rule::L1, 2, 3),
        (b"a\x7f", Rule::L1, 1, 2),
        (b"a \x80", Rule::L1, 2, 3),
        (b"\xff", Rule::L1, 0, 1),
        (b"x = 1a_;", Rule::L1, 4, 7),
        (b"007", Rule::L1, 0, 3),
        (b"00", Rule::L1, 0, 2),
        (b"0x", Rule::L1, 0, 2),
        (b"0X1", Rule::L1, 0, 3),
        (b"0xg", Rule::L1, 0, 3),
        (b"3u;", Rule::L1, 0, 2),
        (b"4294967296", Rule::L2, 0, 10),
        (b"- 99999999999999999999999999 @", Rule::L2, 2, 28),
        (b"0x100000000", Rule::L2, 0, 11),
        (b"a /* b @", Rule::L3, 2, 4),
        (b"/*/", Rule::L3, 0, 2),
        (b"// @\n'", Rule::L1, 5, 6),
    ];
    for (text, want, from, to) in cases {
        let refused = match tokens_of(rt.alloc(), text) {
            Err(Refusal::Broken { rule, span }) => rule == want
                && span.from == from
                && span.to == to,
            _ => false,
        };
        assert!(rt; refused, "at {from}");
    }
    Ok(())
}

#[test]
fn reads_the_longest_sources(rt: HostRuntime) -> Result<(), Fail> {
    for (first, rest, count) in [(b'a', b'a', 1), (b';', b';', 1_048_576), (b'/', b'/', 0)] {
        let mut bytes = Vec::new(rt.alloc());
        bytes.push(first)?;
        for _ in 1..1_048_576 {
            bytes.push(rest)?;
        }
        let tokens = tokens_of(rt.alloc(), &bytes)?;
        assert_eq!(rt; tokens.tokens.items().len(), count);
        assert_eq!(rt; tokens.length, 1_048_576);
    }
    Ok(())
}
