//! `gfx_check`: reads the scene on standard input, and writes to standard output which of its lines a play drops, and why.
//!
//! It reads no words. A text that is no scene, or too long, is told on standard error. The exit status is the number of the run's status:
//! 0 done, 2 no scene, 3 a read failed, 4 a write to standard output failed, 5 one to standard error failed, 6 an input that is too long,
//! 8 memory ran out.
#![tactic(auto)]

use check_running::check;
use io_edge::{StdSink, StdSource};
use std::alloc::{Alloc, Global};
use std::process::ExitCode;

fn main(rt: HostRuntime) -> ExitCode {
    let mut source = StdSource::new(rt.stdin());
    let mut lines = StdSink::new(rt.stdout());
    let mut notes = StdSink::new(rt.stderr());
    let status = check(rt.alloc(), &mut source, &mut lines, &mut notes);
    ExitCode::from(status.number())
}
