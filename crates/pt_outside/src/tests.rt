use crate::{
    Failed, FirmSink, FirmSource, MemShelf, MemSink, MemSource, Shelf, ShelfFault, Sink, Source,
    StoreFault,
};
use pt_base::{Many, Text};
use std::test::Fail;

#[test]
fn a_shelf_fails_at_the_listed_calls(rt: HostRuntime) -> Result<(), Fail> {
    let alloc = rt.alloc();
    let image = Text::of(alloc, b"im")?;
    let cert = Text::of(alloc, b"ce")?;
    let files = vec![in alloc;
        (Text::of(alloc, b"im")?, Text::of(alloc, b"abc")?),
        (Text::of(alloc, b"x")?, Text::of(alloc, b"")?),
    ]?;
    let mut shelf = MemShelf::of(Many::of(files), Many::of(vec![in alloc; 1, 5]?));
    assert_eq!(rt; shelf.load(alloc, &image, 2)?.bytes(), b"ab".as_slice());
    assert!(rt;
        shelf
            .load(alloc, &image, 2)
            .is_err_and(|e| e == ShelfFault::Failed)
    );
    assert!(rt;
        shelf
            .load(alloc, &cert, 2)
            .is_err_and(|e| e == ShelfFault::Absent)
    );
    shelf.store(alloc, &cert, &image)?;
    assert_eq!(rt; shelf.load(alloc, &cert, 9)?.bytes(), b"im".as_slice());
    assert!(rt; shelf.store(alloc, &image, &cert) == Err(StoreFault::Failed));
    shelf.store(alloc, &image, &cert)?;
    assert_eq!(rt; shelf.load(alloc, &image, 9)?.bytes(), b"ce".as_slice());
    assert!(rt; shelf.faults() == (1, 1));
    assert!(rt; shelf.file(&image).is_some());
    Ok(())
}

#[test]
fn a_source_gives_its_steps_and_fails_when_told(rt: HostRuntime) -> Result<(), Fail> {
    let alloc = rt.alloc();
    let bytes = Text::of(alloc, b"hello")?;
    let mut source = MemSource::of(bytes, 3, Many::of(vec![in alloc; 1]?));
    let mut buffer = [0u8; 4];
    assert!(rt; source.pull(&mut buffer) == Ok(3));
    assert!(rt; source.pull(&mut buffer) == Err(Failed));
    assert_eq!(rt; source.left(), b"lo".as_slice());
    assert!(rt; source.pull(&mut buffer) == Ok(2));
    assert!(rt; source.pull(&mut buffer) == Ok(0));
    assert!(rt; source.faults() == 1);
    let mut firm = FirmSource::of(Text::of(alloc, b"hello")?);
    assert!(rt; firm.pull(&mut buffer) == Ok(4));
    assert_eq!(rt; firm.left(), b"o".as_slice());
    Ok(())
}

#[test]
fn a_sink_fails_when_told_and_past_its_room(rt: HostRuntime) -> Result<(), Fail> {
    let alloc = rt.alloc();
    let mut sink = MemSink::of(alloc, 5, Many::of(vec![in alloc; 2]?))?;
    assert!(rt; sink.push(b"abc") == Ok(()));
    assert!(rt; sink.push(b"def") == Err(Failed));
    assert!(rt; sink.flush() == Err(Failed));
    assert!(rt; sink.push(b"de") == Ok(()));
    assert!(rt; sink.flush() == Ok(()));
    assert_eq!(rt; sink.written(), b"abcde".as_slice());
    assert!(rt; sink.faults() == 2);
    let mut firm = FirmSink::begin();
    assert!(rt; firm.push(b"abc") == Ok(()) && firm.flush() == Ok(()));
    Ok(())
}
