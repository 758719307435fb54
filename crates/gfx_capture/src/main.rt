//! `gfx_capture record`: plays the scene on standard input, and writes the capture of its pictures to standard output, its notes to
//! standard error. `gfx_capture show`: shows the pictures of the capture on standard input, as joined picture texts on standard output.
//!
//! The exit status is the number of the run's status: 0 done, 1 refused words, 2 no scene, 3 a read failed, 4 a write failed, 5 a write of
//! the notes failed, 6 an input that is too long, 8 memory ran out, 9 pictures that are too large, 10 no capture.
#![tactic(auto)]

use capture_running::{CaptureStatus, capture};
use io_edge::{NoGate, StdSink, StdSource};
use std::alloc::{Alloc, Global};
use std::env::{self, Env};
use std::io::{self, ErrorKind};
use std::process::ExitCode;

/// The words after the program's name. A word that is no text is an error, and so is want of memory.
fn command_words<R: Env + Alloc<A = Global>>(rt: &R) -> io::Result<Vec<String>> {
    let mut words = Vec::new(rt.alloc());
    for word in env::args(rt)?.skip(1) {
        words.push(word)?;
    }
    Ok(words)
}

fn main(rt: HostRuntime) -> ExitCode {
    let words = match command_words(&rt) {
        Ok(words) => words,
        Err(fault) if fault.kind() == ErrorKind::OutOfMemory => {
            return ExitCode::from(CaptureStatus::OutOfMemory.number());
        }
        // A word that is no text is a faulty command line, as no word is.
        Err(_) => Vec::new(rt.alloc()),
    };
    let mut source = StdSource::new(rt.stdin());
    let mut sink = StdSink::new(rt.stdout());
    let mut notes = StdSink::new(rt.stderr());
    let captured = capture(
        &rt,
        rt.alloc(),
        &words,
        &mut source,
        &mut sink,
        &mut notes,
        &NoGate,
    );
    ExitCode::from(captured.status.number())
}
