use crate::calls::{Outside, Wanted, comes_so};
use pt_base::Memory;
use std::alloc::Global;

/// An image and a certificate, where nothing fails.
pub fn files<'a>(image: &'a str, cert: &'a str) -> Outside<'a> {
    Outside {
        program: None,
        image: Some(image),
        cert: Some(cert),
        input: "4\n",
        shelf_fails: &[],
        source_fails: &[],
        sink_fails: &[],
        step: 1,
        room: 4096,
    }
}

/// Whether a check answers this status, writes just this, and leaves files and source as they were.
pub fn checks_so(
    alloc: Global,
    words: &str,
    outside: Outside<'_>,
    status: u8,
    written: &str,
) -> Result<bool, Memory> {
    let wanted = Wanted {
        status,
        written,
        image: outside.image,
        cert: outside.cert,
        left: 2,
    };
    comes_so(alloc, words, outside, wanted)
}
