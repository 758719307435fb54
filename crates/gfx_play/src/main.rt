//! `gfx_play MODE [--journal] [--count N]`: shows the scene on standard input (`play`), by the journal that follows it (`replay`), or draws
//! a generated scene of N frames (`make`). The pictures go to standard output, the notes to standard error.
//!
//! The exit status is the number of the run's status: 0 done, 1 refused words, 2 no scene, 3 a read failed, 4 a write of the pictures
//! failed, 5 a write of the notes failed, 6 an input that is too long, 7 no lawful journal, 8 memory ran out.
#![tactic(auto)]

use io_edge::{NoGate, StdSink, StdSource};
use scene_player::{Played, Status, play};
use std::alloc::{Alloc, Global};
use std::env::{self, Env};
use std::io::{self, ErrorKind};
use std::process::ExitCode;

/// The words after the program's name. A word that is no text is an error, and so is want of memory.
fn command_words<R: Env + Alloc<A = Global>>(rt: &R) -> io::Result<Vec<String>> {
    let mut words = Vec::new(rt.alloc());
    for word in env::args(rt)?.skip(1) {
        words.push(word)?;
    }
    Ok(words)
}

fn main(rt: HostRuntime) -> ExitCode {
    let words = match command_words(&rt) {
        Ok(words) => words,
        Err(fault) if fault.kind() == ErrorKind::OutOfMemory => {
            return ExitCode::from(Status::OutOfMemory.number());
        }
        // A word that is no text is a faulty command line, as no word is.
        Err(_) => Vec::new(rt.alloc()),
    };
    let mut source = StdSource::new(rt.stdin());
    let pictures = StdSink::new(rt.stdout());
    let mut notes = StdSink::new(rt.stderr());
    let played = play(
        &rt,
        rt.alloc(),
        &words,
        &mut source,
        pictures,
        &mut notes,
        &NoGate,
    );
    ExitCode::from(played.status.number())
}
