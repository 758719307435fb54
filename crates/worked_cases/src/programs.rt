// Runs of the programs beside the player.
use crate::case::{Case, Program};
use crate::gate::CaseGate;
use crate::judging::Ending;
use crate::running::{Left, sink, sinks};
use capture_running::{CaptureStatus, capture};
use check_running::{CheckStatus, check};
use diff_running::{DiffStatus, diff};
use io_edge::{MemSink, MemSource};
use load_running::{LoadStatus, load};
use ring_turning::{Spun, spin};
use shares_running::{SharesStatus, shares};
use std::alloc::{AllocError, Global};
use std::sync::Wait;
use std::thread::Threads;

fn ending_of_capture(status: CaptureStatus) -> Ending {
    let (at, cause) = match status {
        CaptureStatus::Scene { line, cause } => (line, u32::from(cause)),
        CaptureStatus::Capture { frame, cause } => (frame, u32::from(cause)),
        _ => (0, 0),
    };
    Ending {
        status: status.number(),
        at,
        cause,
    }
}

fn ending_of_shares(status: SharesStatus) -> Ending {
    let (at, cause) = match status {
        SharesStatus::Scene { line, cause } => (line, u32::from(cause)),
        _ => (0, 0),
    };
    Ending {
        status: status.number(),
        at,
        cause,
    }
}

fn ending_of_check(status: CheckStatus) -> Ending {
    let (at, cause) = match status {
        CheckStatus::Scene { line, cause } => (line, u32::from(cause)),
        _ => (0, 0),
    };
    Ending {
        status: status.number(),
        at,
        cause,
    }
}

fn ending_of_load(status: LoadStatus) -> Ending {
    let at = match status {
        LoadStatus::Text { line } => line,
        _ => 0,
    };
    Ending {
        status: status.number(),
        at,
        cause: 0,
    }
}

// A number of 32 bits, or the greatest.
fn narrow(number: usize) -> u32 {
    u32::try_from(number).unwrap_or(u32::MAX)
}

fn ending_of_diff(status: DiffStatus) -> Ending {
    let (at, cause) = match status {
        DiffStatus::NoPicture { pictures, at } => (pictures, at),
        DiffStatus::Count { pictures } => (pictures, 0),
        DiffStatus::Sides { frame } => (frame, 0),
        _ => (0, 0),
    };
    Ending {
        status: status.number(),
        at: narrow(at),
        cause: narrow(cause),
    }
}

// What a run of a program is given: its source, its standard output, and its standard error.
#[derive(Drop)]
struct Streams {
    source: MemSource,
    output: MemSink,
    notes: MemSink,
}

// How a capture ended, and how many frames did.
fn captured<R: Threads + Wait + Sync>(
    rt: &R,
    alloc: Global,
    words: &[String],
    streams: &mut Streams,
    gate: &CaseGate,
) -> (Ending, usize) {
    let captured = capture(
        rt,
        alloc,
        words,
        &mut streams.source,
        &mut streams.output,
        &mut streams.notes,
        gate,
    );
    (
        ending_of_capture(captured.status),
        captured.journal.frames.as_slice().len(),
    )
}

// The lines of shared keys are the notes.
fn shared<R: Threads + Wait + Sync>(
    rt: &R,
    alloc: Global,
    words: &[String],
    streams: &mut Streams,
) -> Ending {
    ending_of_shares(shares(rt, alloc, words, &mut streams.source, &mut streams.notes))
}

// The history of the calls is the notes.
fn loaded<R: Threads + Wait + Sync>(
    rt: &R,
    alloc: Global,
    streams: &mut Streams,
    gate: &CaseGate,
) -> Ending {
    ending_of_load(load(rt, alloc, &mut streams.source, &mut streams.notes, gate))
}

fn checked(alloc: Global, streams: &mut Streams) -> Ending {
    ending_of_check(check(
        alloc,
        &mut streams.source,
        &mut streams.output,
        &mut streams.notes,
    ))
}

fn compared(alloc: Global, words: &[String], streams: &mut Streams) -> Ending {
    ending_of_diff(diff(
        alloc,
        words,
        &mut streams.source,
        &mut streams.output,
        &mut streams.notes,
    ))
}

// How a program ended, and how many frames did.
fn ended<R: Threads + Wait + Sync>(
    rt: &R,
    alloc: Global,
    case: &Case,
    program: Program,
    streams: &mut Streams,
    gate: &CaseGate,
) -> (Ending, usize) {
    let words = case.words.as_slice();
    match program {
        Program::Capture => captured(rt, alloc, words, streams, gate),
        Program::Shares => (shared(rt, alloc, words, streams), 0),
        Program::Check => (checked(alloc, streams), 0),
        Program::Diff => (compared(alloc, words, streams), 0),
        Program::Load => (loaded(rt, alloc, streams, gate), 0),
    }
}

fn streams_of(alloc: Global, case: &Case) -> Result<Streams, AllocError> {
    let reads = case.trouble.reads.to_vec(alloc)?;
    let text = case.text.to_vec(alloc)?;
    let (output, notes) = sinks(alloc, &case.trouble)?;
    Ok(Streams {
        source: MemSource::new(text, reads),
        output,
        notes,
    })
}

fn left_in(
    alloc: Global,
    (ending, frames): (Ending, usize),
    streams: &Streams,
    is_held: bool,
) -> Result<Left, AllocError> {
    let pictures = streams.output.bytes().to_vec(alloc)?;
    let notes = streams.notes.bytes().to_vec(alloc)?;
    Ok(Left {
        ending,
        frames,
        pictures,
        notes,
        is_held,
    })
}

/// A run of a program by a case's words and bytes at the case's gate. What it writes to standard output counts as its pictures, but for the
/// lines of shared keys and the history of a load, which are its notes.
pub(crate) fn run_program<R: Threads + Wait + Sync>(
    rt: &R,
    alloc: Global,
    case: &Case,
    program: Program,
) -> Result<Left, AllocError> {
    let mut streams = streams_of(alloc, case)?;
    let gate = CaseGate::new(alloc, &case.trouble.holds, case.trouble.seed)?;
    let end = ended(rt, alloc, case, program, &mut streams, &gate);
    left_in(alloc, end, &streams, gate.has_held(case.trouble.items))
}

/// So many frames of the ring of `gfx_example`, with their pictures in a case's sink.
pub(crate) fn turn_ring<R: Threads + Wait + Sync>(
    rt: &R,
    alloc: Global,
    case: &Case,
    frames: u16,
) -> Result<Left, AllocError> {
    let pictures = sink(alloc, &case.trouble.pictures)?;
    let spun = spin(rt, alloc, frames, pictures);
    left_by_spin(alloc, &spun)
}

fn left_by_spin(alloc: Global, spun: &Spun<MemSink>) -> Result<Left, AllocError> {
    let pictures = spun.sink.bytes().to_vec(alloc)?;
    Ok(Left {
        ending: Ending::plain(spun.end.number()),
        frames: 0,
        pictures,
        notes: Vec::new(alloc),
        is_held: true,
    })
}
