//! `gfx_load`: runs the load on standard input, each caller's calls in a thread of its own on one context behind a lock, and writes the
//! history of the calls to standard output.
//!
//! It reads no words. The exit status is the number of the load's status: 0 done, 2 no load, 3 a read failed, 5 a write failed, 6 an input
//! that is too long, 8 memory ran out.
#![tactic(auto)]

use io_edge::{NoGate, StdSink, StdSource};
use load_running::load;
use std::alloc::{Alloc, Global};
use std::process::ExitCode;

fn main(rt: HostRuntime) -> ExitCode {
    let mut source = StdSource::new(rt.stdin());
    let mut notes = StdSink::new(rt.stdout());
    let status = load(&rt, rt.alloc(), &mut source, &mut notes, &NoGate);
    ExitCode::from(status.number())
}
