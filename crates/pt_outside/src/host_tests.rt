use crate::traits::{Shelf, ShelfFault, Sink, Source, StoreFault};
use crate::{HostShelf, HostSink, HostSource};
use pt_base::Text;
use std::fs;
use std::test::Fail;

#[test]
fn a_shelf_of_files(rt: HostRuntime) -> Result<(), Fail> {
    let alloc = rt.alloc();
    let name = Text::of(alloc, b"image")?;
    let other = Text::of(alloc, &[255])?;
    let mut shelf = HostShelf::over(&rt);
    assert!(rt;
        shelf
            .load(alloc, &name, 9)
            .is_err_and(|e| e == ShelfFault::Absent)
    );
    shelf.store(alloc, &name, &Text::of(alloc, b"abcdef")?)?;
    assert_eq!(rt; shelf.load(alloc, &name, 9)?.bytes(), b"abcdef".as_slice());
    shelf.store(alloc, &name, &Text::of(alloc, b"xyz")?)?;
    assert_eq!(rt; shelf.load(alloc, &name, 2)?.bytes(), b"xy".as_slice());
    assert!(rt;
        shelf
            .load(alloc, &other, 9)
            .is_err_and(|e| e == ShelfFault::Failed)
    );
    assert!(rt; shelf.store(alloc, &other, &name) == Err(StoreFault::Failed));
    Ok(())
}

#[test]
fn a_source_over_a_file(rt: HostRuntime) -> Result<(), Fail> {
    fs::write(&rt, "trace", "4\n")?;
    let mut source = HostSource::over(fs::open(&rt, "trace")?);
    let mut buffer = [0u8; 4];
    assert!(rt; source.pull(&mut buffer) == Ok(2));
    assert_eq!(rt; &buffer[..2], b"4\n".as_slice());
    assert!(rt; source.pull(&mut buffer) == Ok(0));
    Ok(())
}

#[test]
fn a_sink_over_a_file(rt: HostRuntime) -> Result<(), Fail> {
    let mut sink = HostSink::over(fs::create(&rt, "report")?);
    assert!(rt; sink.push(b"tick 0:\n") == Ok(()) && sink.flush() == Ok(()));
    let mut shelf = HostShelf::over(&rt);
    let name = Text::of(rt.alloc(), b"report")?;
    assert_eq!(rt;
        shelf.load(rt.alloc(), &name, 99)?.bytes(),
        b"tick 0:\n".as_slice()
    );
    Ok(())
}
