//! `worked_cases`: plays the cases on standard input, and tells of each on standard output whether it left what the case wants.
//!
//! A case is a run of the player, of a script of queries or of a program beside them, or a look into a frame of a scene: its words, the bytes
//! that it reads, the calls of its streams that fail, where a gate holds its threads, and what the run has to leave: a status, how many frames
//! ended, the pictures and the notes. README.md has the forms of the lines.
//!
//! Each case has a line: its name and `same`, or its name and what the run left. A line that is none of a case has a line too. The last
//! line counts the cases and those that left something else.
#![tactic(auto)]

mod case;
mod desk;
mod gate;
mod judging;
mod looking;
mod programs;
mod reading;
mod running;

use crate::desk::Desk;
pub use crate::judging::{Ending, Outcome, is_same};
use std::io;
use std::sync::Wait;
use std::thread::Threads;

fn play_all<R: Input + Print + AllocGlobal + Threads + Wait + Sync>(
    rt: &R,
    desk: &mut Desk,
) -> io::Result<()> {
    for line in rt.lines(rt.alloc()) {
        let line = line?;
        if let Some(told) = desk.take_line(rt, rt.alloc(), line.as_str())? {
            rt.println(told)?;
        }
    }
    if let Some(told) = desk.run_case(rt, rt.alloc())? {
        rt.println(told)?;
    }
    rt.println(desk.count(rt.alloc())?)
}

fn main(rt: HostRuntime) -> io::Result<()> {
    let mut desk = Desk::new();
    play_all(&rt, &mut desk)
}
