//! `gfx_example`: a ring of sixteen small triangles that turns, without scene text, as an engine draws it. The pictures of sixteen frames
//! go to standard output, one behind the other, in the P6 format.
//!
//! The exit status is 0 where all pictures were written, 4 where a write failed, and 8 where a call was refused, as for want of memory.
#![tactic(auto)]

use io_edge::StdSink;
use ring_turning::spin;
use std::process::ExitCode;

/// How many frames a whole turn has.
const FRAMES: u16 = 16;

fn main(rt: HostRuntime) -> ExitCode {
    let pictures = StdSink::new(rt.stdout());
    let spun = spin(&rt, rt.alloc(), FRAMES, pictures);
    ExitCode::from(spun.end.number())
}
