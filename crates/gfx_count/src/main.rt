//! `gfx_count`: runs the query script on standard input, and writes to standard output how many fragments each query's draws let through
//! in each frame.
//!
//! It reads no words. The exit status is the number of the run's status: 0 done, 2 no script, 3 a read failed, 5 a write failed, 6 an input
//! that is too long, 8 memory ran out.
#![tactic(auto)]

use gfx_query::run_queries;
use io_edge::{StdSink, StdSource};
use std::alloc::{Alloc, Global};
use std::process::ExitCode;

fn main(rt: HostRuntime) -> ExitCode {
    let mut source = StdSource::new(rt.stdin());
    let mut notes = StdSink::new(rt.stdout());
    let status = run_queries(rt.alloc(), &mut source, &mut notes);
    ExitCode::from(status.number())
}
