//! The program `pretc`: the words of the command line, the real files, standard input and standard output,
//! handed to the top call of `pretc_top`, whose answer is the exit status.
#![tactic(auto)]

use pretc_top::pretc;
use pt_base::{Memory, Text};
use pt_outside::{HostShelf, HostSink, HostSource, Sink};
use std::alloc::Global;
use std::env::FillError;
use std::io;
use std::process::ExitCode;
use std::rt::Env;

// The exit status of a call without memory, and that of one whose output couldn't be written.
const WANT_OF_MEMORY: u8 = 5;

const WRITE_FAULT: u8 = 4;

// The bytes of an argument, whatever they are; none behind the last one.
fn argument(alloc: Global, env: &impl Env, number: usize) -> Result<Option<Text>, Memory> {
    let mut room = 256;
    for _ in 0..usize::BITS {
        let mut buffer = vec![in alloc; 0u8; room]?;
        match env.arg(number, &mut buffer) {
            Ok(count) => return Ok(Some(Text::of(alloc, &buffer[..count])?)),
            Err(FillError::NotPresent) => return Ok(None),
            Err(FillError::TooLong) => room = room.saturating_mul(2),
        }
    }
    Err(Memory)
}

// The words after the program's name.
fn words(alloc: Global, env: &impl Env) -> Result<Vec<Text>, Memory> {
    let mut words = Vec::new(alloc);
    for number in 1..usize::MAX {
        match argument(alloc, env, number)? {
            Some(word) => {
                if words.push(word).is_err() {
                    return Err(Memory);
                }
            }
            None => break,
        }
    }
    Ok(words)
}

// The end of a call that found no memory for its words.
fn without_words<O: Sink>(out: &mut O) -> u8 {
    if out.push(b"want of memory\n").is_err() || out.flush().is_err() {
        return WRITE_FAULT;
    }
    WANT_OF_MEMORY
}

fn main(rt: HostRuntime) -> ExitCode {
    let mut shelf = HostShelf::over(&rt);
    let mut input = HostSource::over(rt.reader());
    let mut out = HostSink::over(io::writer(&rt));
    let status = match words(rt.alloc(), &rt) {
        Ok(words) => pretc(rt.alloc(), &words, &mut shelf, &mut input, &mut out),
        Err(_) => without_words(&mut out),
    };
    ExitCode::from(status)
}
