//! `gfx_diff [--near N] [--frames K]`: compares two streams of P6 pictures that stand behind each other on standard input, and writes a
//! line for each frame to standard output.
//!
//! The first half of the pictures is the one stream, the second half the other; `--frames K` says how many pictures each has to have.
//! A difference of up to N in a channel is let pass, 0 where the word is left out.
//!
//! The exit status is the number of the run's status: 0 no pixel differs, 1 some do, 2 no two streams of pictures, which standard error
//! tells, 3 a read failed, 4 a write to standard output failed, 5 one to standard error failed, 6 an input that is too long, 8 memory ran
//! out, 64 refused words.
#![tactic(auto)]

use diff_running::{DiffStatus, diff};
use io_edge::{StdSink, StdSource};
use std::alloc::{Alloc, Global};
use std::env::{self, Env};
use std::io::{self, ErrorKind};
use std::process::ExitCode;

/// The words after the program's name. A word that is no text is an error, and so is want of memory.
fn command_words<R: Env + Alloc<A = Global>>(rt: &R) -> io::Result<Vec<String>> {
    let mut words = Vec::new(rt.alloc());
    for word in env::args(rt)?.skip(1) {
        words.push(word)?;
    }
    Ok(words)
}

fn main(rt: HostRuntime) -> ExitCode {
    let words = match command_words(&rt) {
        Ok(words) => words,
        Err(fault) if fault.kind() == ErrorKind::OutOfMemory => {
            return ExitCode::from(DiffStatus::OutOfMemory.number());
        }
        // A word that is no text is a faulty command line.
        Err(_) => return ExitCode::from(DiffStatus::Usage.number()),
    };
    let mut source = StdSource::new(rt.stdin());
    let mut lines = StdSink::new(rt.stdout());
    let mut notes = StdSink::new(rt.stderr());
    let status = diff(rt.alloc(), &words, &mut source, &mut lines, &mut notes);
    ExitCode::from(status.number())
}
