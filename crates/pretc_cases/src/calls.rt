use pretc_top::pretc;
use pt_base::{Many, Memory, Text};
use pt_outside::{MemShelf, MemSink, MemSource, Shelf, Sink, Source};
use std::alloc::Global;

/// What lies outside a call: the files `p`, `im` and `ce` where they are there, the bytes of the input, the numbers of
/// the calls of each object that are to fail, how many bytes a pull gives at most, and the room of the sink.
#[derive(Clone, Copy)]
pub struct Outside<'a> {
    pub program: Option<&'a str>,
    pub image: Option<&'a str>,
    pub cert: Option<&'a str>,
    pub input: &'a str,
    pub shelf_fails: &'a [u64],
    pub source_fails: &'a [u64],
    pub sink_fails: &'a [u64],
    pub step: usize,
    pub room: usize,
}

/// A program and an input, where nothing fails.
pub fn with<'a>(program: &'a str, input: &'a str) -> Outside<'a> {
    Outside {
        program: Some(program),
        image: None,
        cert: None,
        input,
        shelf_fails: &[],
        source_fails: &[],
        sink_fails: &[],
        step: 3,
        room: 4096,
    }
}

/// How a call is to come out: its status, all that was written, the files `im` and `ce` where they are there, and how
/// many bytes the input has left.
#[derive(Clone, Copy)]
pub struct Wanted<'a> {
    pub status: u8,
    pub written: &'a str,
    pub image: Option<&'a str>,
    pub cert: Option<&'a str>,
    pub left: usize,
}

// The words of a line, with one blank between two of them.
fn words_of(alloc: Global, line: &str) -> Result<Vec<Text>, Memory> {
    let mut words = Vec::new(alloc);
    if line.is_empty() {
        return Ok(words);
    }
    for word in line.split(' ') {
        words.push(Text::of(alloc, word.as_bytes())?)?;
    }
    Ok(words)
}

// `pretc`, of which no more is said.
fn status_of<H: Shelf, I: Source, O: Sink>(
    alloc: Global,
    words: &Vec<Text>,
    shelf: &mut H,
    source: &mut I,
    sink: &mut O,
) -> u8 {
    pretc(alloc, words, shelf, source, sink)
}

// The numbers of calls behind so many others.
fn numbers(alloc: Global, calls: &[u64], others: u64) -> Result<Many<u64>, Memory> {
    let mut numbers = Vec::new(alloc);
    for call in calls {
        numbers.push(call.saturating_add(others))?;
    }
    Ok(Many::of(numbers))
}

// A shelf without files, whose calls of these numbers are to fail.
fn empty_shelf(alloc: Global, fails: Many<u64>) -> MemShelf {
    MemShelf::of(Many::of(Vec::new(alloc)), fails)
}

// Puts a file on the shelf, by one call of it.
fn put_file(alloc: Global, shelf: &mut MemShelf, name: &str, bytes: &str) -> Result<(), Memory> {
    let name = Text::of(alloc, name.as_bytes())?;
    let bytes = Text::of(alloc, bytes.as_bytes())?;
    match shelf.store(alloc, &name, &bytes) {
        Ok(()) => Ok(()),
        Err(_) => Err(Memory),
    }
}

// Puts the files on the shelf that are there.
fn put_files(alloc: Global, shelf: &mut MemShelf, outside: Outside<'_>) -> Result<(), Memory> {
    if let Some(program) = outside.program {
        put_file(alloc, shelf, "p", program)?;
    }
    if let Some(image) = outside.image {
        put_file(alloc, shelf, "im", image)?;
    }
    if let Some(cert) = outside.cert {
        put_file(alloc, shelf, "ce", cert)?;
    }
    Ok(())
}

// How many files are there.
fn count_files(outside: Outside<'_>) -> u64 {
    let program = u64::from(outside.program.is_some());
    let image = u64::from(outside.image.is_some());
    let cert = u64::from(outside.cert.is_some());
    program.saturating_add(image).saturating_add(cert)
}

fn source_of(alloc: Global, outside: Outside<'_>) -> Result<MemSource, Memory> {
    let input = Text::of(alloc, outside.input.as_bytes())?;
    let fails = numbers(alloc, outside.source_fails, 0)?;
    Ok(MemSource::of(input, outside.step.max(1), fails))
}

fn sink_of(alloc: Global, outside: Outside<'_>) -> Result<MemSink, Memory> {
    MemSink::of(alloc, outside.room, numbers(alloc, outside.sink_fails, 0)?)
}

// Whether the shelf has just these bytes under a name, or no such file.
fn is_held(
    alloc: Global,
    shelf: &MemShelf,
    name: &str,
    bytes: Option<&str>,
) -> Result<bool, Memory> {
    let name = Text::of(alloc, name.as_bytes())?;
    match (shelf.file(&name), bytes) {
        (None, None) => Ok(true),
        (Some(text), Some(bytes)) => Ok(text.bytes() == bytes.as_bytes()),
        _ => Ok(false),
    }
}

// Whether both files are as wanted.
fn are_held(alloc: Global, shelf: &MemShelf, wanted: Wanted<'_>) -> Result<bool, Memory> {
    let image = is_held(alloc, shelf, "im", wanted.image)?;
    Ok(image && is_held(alloc, shelf, "ce", wanted.cert)?)
}

// The call on these objects. Each of the functions below makes one more of them.
fn comes_on(
    alloc: Global,
    words: &Vec<Text>,
    shelf: &mut MemShelf,
    source: &mut MemSource,
    sink: &mut MemSink,
    wanted: Wanted<'_>,
) -> Result<bool, Memory> {
    let status = status_of(alloc, words, shelf, source, sink);
    let written = sink.written() == wanted.written.as_bytes();
    let left = source.left().len() == wanted.left;
    let files = are_held(alloc, shelf, wanted)?;
    Ok(status == wanted.status && written && left && files)
}

fn comes_from(
    alloc: Global,
    words: &Vec<Text>,
    shelf: &mut MemShelf,
    source: &mut MemSource,
    outside: Outside<'_>,
    wanted: Wanted<'_>,
) -> Result<bool, Memory> {
    let mut sink = sink_of(alloc, outside)?;
    comes_on(alloc, words, shelf, source, &mut sink, wanted)
}

fn comes_by(
    alloc: Global,
    words: &Vec<Text>,
    shelf: &mut MemShelf,
    outside: Outside<'_>,
    wanted: Wanted<'_>,
) -> Result<bool, Memory> {
    put_files(alloc, shelf, outside)?;
    let mut source = source_of(alloc, outside)?;
    comes_from(alloc, words, shelf, &mut source, outside, wanted)
}

fn comes_with(
    alloc: Global,
    words: &Vec<Text>,
    outside: Outside<'_>,
    wanted: Wanted<'_>,
) -> Result<bool, Memory> {
    let fails = numbers(alloc, outside.shelf_fails, count_files(outside))?;
    let mut shelf = empty_shelf(alloc, fails);
    comes_by(alloc, words, &mut shelf, outside, wanted)
}

/// Whether a call with these words comes out as wanted.
pub fn comes_so(
    alloc: Global,
    words: &str,
    outside: Outside<'_>,
    wanted: Wanted<'_>,
) -> Result<bool, Memory> {
    let words = words_of(alloc, words)?;
    comes_with(alloc, &words, outside, wanted)
}
