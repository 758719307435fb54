//! `gfx_shares`: reads the scene on standard input, and writes to standard output in which views of which frames two encoders share a key,
//! so that the pictures can depend on the threads' schedule. `gfx_shares pairs` writes with each the least pair of items that share one, with
//! their lines. `gfx_shares harmless` leaves out the views of which no pixel cares.
//!
//! The exit status is the number of the run's status: 0 done, 1 refused words, 2 no scene, 3 a read failed, 5 a write failed, 6 an input that
//! is too long, 8 memory ran out.
#![tactic(auto)]

use io_edge::{StdSink, StdSource};
use shares_running::{SharesStatus, shares};
use std::alloc::{Alloc, Global};
use std::env::{self, Env};
use std::io::{self, ErrorKind};
use std::process::ExitCode;

/// The words after the program's name. A word that is no text is an error, and so is want of memory.
fn command_words<R: Env + Alloc<A = Global>>(rt: &R) -> io::Result<Vec<String>> {
    let mut words = Vec::new(rt.alloc());
    for word in env::args(rt)?.skip(1) {
        words.push(word)?;
    }
    Ok(words)
}

fn main(rt: HostRuntime) -> ExitCode {
    let words = match command_words(&rt) {
        Ok(words) => words,
        Err(fault) if fault.kind() == ErrorKind::OutOfMemory => {
            return ExitCode::from(SharesStatus::OutOfMemory.number());
        }
        // A word that is no text asks for nothing that there is.
        Err(_) => return ExitCode::from(SharesStatus::Usage.number()),
    };
    let mut source = StdSource::new(rt.stdin());
    let mut notes = StdSink::new(rt.stdout());
    let status = shares(&rt, rt.alloc(), &words, &mut source, &mut notes);
    ExitCode::from(status.number())
}
