use crate::{
    LineBuffer, TraceFault, TraceReader, bound_line, cert_line, image_line, no_line, refused_line,
    report_line, ticks_line, worst_line, yes_line,
};
use pt_base::{Many, Rule, Span, Text};
use pt_outside::MemSource;
use std::test::Fail;

#[test]
fn report_lines(rt: HostRuntime) -> Result<(), Fail> {
    let mut line = LineBuffer::empty();
    report_line(0, &[], Some(4), &mut line);
    assert_eq!(rt; line.bytes(), b"tick 0: cycles 4\n".as_slice());
    report_line(10, &[5, -2147483648, 0], None, &mut line);
    assert_eq!(rt; line.bytes(), b"tick 10: 5 -2147483648 0\n".as_slice());
    report_line(u64::MAX, &[-2147483648; 64], Some(u64::MAX), &mut line);
    assert_eq!(rt; line.bytes().len(), 823);
    worst_line(3, 14, &mut line);
    assert_eq!(rt; line.bytes(), b"ticks 3 worst 14\n".as_slice());
    bound_line(1000000000000, &mut line);
    assert_eq!(rt; line.bytes(), b"bound 1000000000000\n".as_slice());
    ticks_line(0, &mut line);
    assert_eq!(rt; line.bytes(), b"ticks 0\n".as_slice());
    Ok(())
}

#[test]
fn check_lines(rt: HostRuntime) -> Result<(), Fail> {
    let mut line = LineBuffer::empty();
    yes_line(14, true, &mut line);
    assert_eq!(rt; line.bytes(), b"yes bound 14 reached\n".as_slice());
    yes_line(0, false, &mut line);
    assert_eq!(rt; line.bytes(), b"yes bound 0\n".as_slice());
    no_line(7, 0, 0, 14, Some(13), &mut line);
    assert_eq!(rt;
        line.bytes(),
        b"no A7 at 0 level 0 needed 14 given 13\n".as_slice()
    );
    no_line(3, 65535, 8, u128::MAX, None, &mut line);
    assert_eq!(rt;
        line.bytes(),
        b"no A3 at 65535 level 8 needed 340282366920938463463374607431768211455 given -\n".as_slice()
    );
    image_line(10, &mut line);
    assert_eq!(rt; line.bytes(), b"image I10\n".as_slice());
    cert_line(7, &mut line);
    assert_eq!(rt; line.bytes(), b"cert K7\n".as_slice());
    Ok(())
}

#[test]
fn refusal_lines(rt: HostRuntime) -> Result<(), Fail> {
    let mut line = LineBuffer::empty();
    refused_line(Rule::S1, Span { from: 17, to: 17 }, &mut line);
    assert_eq!(rt; line.bytes(), b"refused S1 17 17\n".as_slice());
    let size = Span {
        from: 1048576,
        to: 1048576,
    };
    refused_line(Rule::Z1, size, &mut line);
    assert_eq!(rt; line.bytes(), b"refused Z1 1048576 1048576\n".as_slice());
    Ok(())
}

#[test]
fn a_line_that_is_refused_is_refused_again(rt: HostRuntime) -> Result<(), Fail> {
    let alloc = rt.alloc();
    let text = Text::of(alloc, b"-2147483648\n4\r")?;
    let mut input = MemSource::of(text, 1, Many::of(Vec::new(alloc)));
    let mut reader = TraceReader::begin(&mut input, 1);
    let mut row = [0; 1];
    let bad = TraceFault::Refused { rule: 1, line: 2 };
    assert!(rt; reader.next(&mut input, &mut row) == Ok(true) && row[0] == -2147483648);
    assert!(rt; reader.next(&mut input, &mut row) == Err(bad));
    assert!(rt; reader.next(&mut input, &mut row) == Err(bad));
    Ok(())
}
