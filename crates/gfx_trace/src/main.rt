//! `gfx_trace pixel F X Y`: what the pixel in column X and row Y of frame F of the scene on standard input goes through, a line for each
//! clear and each fragment, to standard output. `gfx_trace pixel F X Y --target NAME`: the same of the frame buffer that the name stands for in the
//! frame, and a line for each other deed that changes the pixel. `gfx_trace steps F`: the pictures of frame F before its first deed and after each, to standard
//! output, and a line for each deed, to standard error. `gfx_trace blame F`: a picture whose pixels are numbers in three bytes, to standard
//! output: of each pixel of frame F that of the deed that gave it its colour last, counted from 1; 0 where none did. A journal may stand behind
//! the scene; else its items come as on one thread.
//!
//! What is refused is told on standard error. The exit status is the number of the run's status: 0 done, 1 refused words, 2 no scene, 3 a
//! read failed, 4 a write to standard output failed, 5 one to standard error, 6 an input that is too long, 7 a journal that is refused, 8
//! memory ran out, 9 no such frame, 10 no such pixel.
#![tactic(auto)]

mod asked;
mod blame;
mod frame_buffer;
mod numbers;
mod refusing;
mod status;
mod steps;
mod tracing;
mod words;

pub use crate::status::{TraceStatus, Traced};
pub use crate::tracing::trace;
pub use crate::words::{Job, NamedPlace, Place};
use io_edge::{StdSink, StdSource};
use std::alloc::{Alloc, Global};
use std::env::{self, Env};
use std::io::{self, ErrorKind};
use std::process::ExitCode;

/// The words after the program's name. A word that is no text is an error, and so is want of memory.
fn command_words<R: Env + Alloc<A = Global>>(rt: &R) -> io::Result<Vec<String>> {
    let mut words = Vec::new(rt.alloc());
    for word in env::args(rt)?.skip(1) {
        words.push(word)?;
    }
    Ok(words)
}

fn main(rt: HostRuntime) -> ExitCode {
    let words = match command_words(&rt) {
        Ok(words) => words,
        Err(fault) if fault.kind() == ErrorKind::OutOfMemory => {
            return ExitCode::from(TraceStatus::OutOfMemory.number());
        }
        // A word that is no text is a faulty command line, as no word is.
        Err(_) => Vec::new(rt.alloc()),
    };
    let mut source = StdSource::new(rt.stdin());
    let sink = StdSink::new(rt.stdout());
    let mut notes = StdSink::new(rt.stderr());
    let traced = trace(&rt, rt.alloc(), &words, &mut source, sink, &mut notes);
    ExitCode::from(traced.status.number())
}
