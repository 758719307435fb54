// Runs of a case.
use crate::case::{Case, Takes, Trouble, Wanted, Way};
use crate::gate::CaseGate;
use crate::judging::{Ending, Outcome, is_same};
use crate::looking::look_into;
use crate::programs::{run_program, turn_ring};
use gfx_query::{QueryStatus, run_queries};
use io_edge::{MemSink, MemSource};
use io_whole::LONGEST_INPUT;
use scene_player::{Played, Status, play, play_bytes_here};
use std::alloc::{AllocError, Global};
use std::sync::Wait;
use std::thread::Threads;

/// What a run left, and whether its threads were held as the case says.
#[derive(Drop)]
pub(crate) struct Left {
    pub ending: Ending,
    pub frames: usize,
    pub pictures: Vec<u8>,
    pub notes: Vec<u8>,
    pub is_held: bool,
}

impl Left {
    fn outcome(&self) -> Outcome<'_> {
        Outcome {
            ending: self.ending,
            frames: self.frames,
            pictures: &self.pictures,
            notes: &self.notes,
        }
    }
}

fn ending_of(status: Status) -> Ending {
    let (at, cause) = match status {
        Status::Scene { line, cause } => (line, u32::from(cause)),
        Status::Journal { place } => (place, 0),
        _ => (0, 0),
    };
    Ending {
        status: status.number(),
        at,
        cause,
    }
}

fn ending_of_queries(status: QueryStatus) -> Ending {
    let at = match status {
        QueryStatus::Text { line } => line,
        _ => 0,
    };
    Ending {
        status: status.number(),
        at,
        cause: 0,
    }
}

pub(crate) fn sink(alloc: Global, takes: &Takes) -> Result<MemSink, AllocError> {
    let fails = takes.fails.to_vec(alloc)?;
    MemSink::new(alloc, takes.capacity, takes.most.max(1), fails)
}

// The sinks of the pictures and of the notes.
pub(crate) fn sinks(alloc: Global, trouble: &Trouble) -> Result<(MemSink, MemSink), AllocError> {
    let notes = sink(alloc, &trouble.notes)?;
    match sink(alloc, &trouble.pictures) {
        Ok(pictures) => Ok((pictures, notes)),
        Err(fault) => Err(fault),
    }
}

fn left_by(alloc: Global, played: &Played<MemSink>, notes: &MemSink) -> Result<Left, AllocError> {
    let pictures = played.pictures.bytes().to_vec(alloc)?;
    let notes = notes.bytes().to_vec(alloc)?;
    Ok(Left {
        ending: ending_of(played.status),
        frames: played.journal.frames.as_slice().len(),
        pictures,
        notes,
        is_held: true,
    })
}

// A run on one thread.
fn run_here(alloc: Global, case: &Case, with_journal: bool) -> Result<Left, AllocError> {
    let bytes = &case.text[..case.text.len().min(LONGEST_INPUT)];
    let (pictures, mut notes) = sinks(alloc, &case.trouble)?;
    let played = play_bytes_here(alloc, with_journal, bytes, pictures, &mut notes);
    left_by(alloc, &played, &notes)
}

// A run of a script of queries.
fn run_script(alloc: Global, case: &Case) -> Result<Left, AllocError> {
    let fails = case.trouble.reads.to_vec(alloc)?;
    let text = case.text.to_vec(alloc)?;
    let mut notes = sink(alloc, &case.trouble.notes)?;
    let mut source = MemSource::new(text, fails);
    let status = run_queries(alloc, &mut source, &mut notes);
    left_by_queries(alloc, status, &notes)
}

fn left_by_queries(
    alloc: Global,
    status: QueryStatus,
    notes: &MemSink,
) -> Result<Left, AllocError> {
    Ok(Left {
        ending: ending_of_queries(status),
        frames: 0,
        pictures: Vec::new(alloc),
        notes: notes.bytes().to_vec(alloc)?,
        is_held: true,
    })
}

// A run of words on a source at a gate.
fn played_by<R: Threads + Wait + Sync>(
    rt: &R,
    alloc: Global,
    words: &[String],
    mut source: MemSource,
    sinks: (MemSink, MemSink),
    gate: &CaseGate,
) -> Result<Left, AllocError> {
    let (pictures, mut notes) = sinks;
    let played = play(rt, alloc, words, &mut source, pictures, &mut notes, gate);
    left_by(alloc, &played, &notes)
}

// A run of words on a text at a gate.
fn run_words<R: Threads + Wait + Sync>(
    rt: &R,
    alloc: Global,
    trouble: &Trouble,
    words: &[String],
    text: Vec<u8>,
    gate: &CaseGate,
) -> Result<Left, AllocError> {
    let reads = trouble.reads.to_vec(alloc)?;
    let both = sinks(alloc, trouble)?;
    played_by(rt, alloc, words, MemSource::new(text, reads), both, gate)
}

// The run of a case.
fn run<R: Threads + Wait + Sync>(rt: &R, alloc: Global, case: &Case) -> Result<Left, AllocError> {
    match case.way {
        Way::Here { with_journal } => run_here(alloc, case, with_journal),
        Way::Queries => run_script(alloc, case),
        Way::Look { frame, look } => look_into(alloc, case, frame, look),
        Way::Program(program) => run_program(rt, alloc, case, program),
        Way::Ring { frames } => turn_ring(rt, alloc, case, frames),
        Way::Words | Way::Again => run_at_gate(rt, alloc, case),
    }
}

// The run of a case's words at its gate.
fn run_at_gate<R: Threads + Wait + Sync>(
    rt: &R,
    alloc: Global,
    case: &Case,
) -> Result<Left, AllocError> {
    let text = case.text.to_vec(alloc)?;
    let gate = CaseGate::new(alloc, &case.trouble.holds, case.trouble.seed)?;
    run_held(rt, alloc, case, text, &gate)
}

fn run_held<R: Threads + Wait + Sync>(
    rt: &R,
    alloc: Global,
    case: &Case,
    text: Vec<u8>,
    gate: &CaseGate,
) -> Result<Left, AllocError> {
    let mut left = run_words(rt, alloc, &case.trouble, &case.words, text, gate)?;
    left.is_held = gate.has_held(case.trouble.items);
    Ok(left)
}

fn replay_words(alloc: Global) -> Result<Vec<String>, AllocError> {
    let mut words = Vec::new(alloc);
    words.push("replay".to_string(alloc)?)?;
    words.push("--journal".to_string(alloc)?)?;
    Ok(words)
}

// The run by the journal that a run noted behind its report.
fn run_again<R: Threads + Wait + Sync>(
    rt: &R,
    alloc: Global,
    case: &Case,
    journal: &[u8],
) -> Result<Left, AllocError> {
    let words = replay_words(alloc)?;
    let mut text = case.text.to_vec(alloc)?;
    text.extend_from_slice(journal)?;
    let gate = CaseGate::new(alloc, &[], None)?;
    run_words(rt, alloc, &Trouble::none(alloc), &words, text, &gate)
}

// Whether a run ended as the case wants, with the wanted notes and a journal, and left what a replay of that journal leaves.
fn is_replayed<R: Threads + Wait + Sync>(
    rt: &R,
    alloc: Global,
    case: &Case,
    left: &Left,
) -> Result<bool, AllocError> {
    let Some(journal) = left
        .notes
        .as_slice()
        .strip_prefix(case.wanted.notes.as_slice())
    else {
        return Ok(false);
    };
    let again = run_again(rt, alloc, case, journal)?;
    let ends = left.ending == case.wanted.ending && left.frames == case.wanted.frames;
    Ok(ends && is_same(&again.outcome(), &left.outcome()))
}

// Whether a run left this.
fn is_left_by(case: &Case, wanted: &Wanted, left: &Left) -> bool {
    is_same(&wanted.outcome(case.trouble.put), &left.outcome())
}

// Whether a run left one of what the case may leave as well.
fn is_one_left(case: &Case, left: &Left) -> bool {
    for other in &case.others {
        if is_left_by(case, other, left) {
            return true;
        }
    }
    false
}

// Whether a run left what the case wants.
fn is_wanted<R: Threads + Wait + Sync>(
    rt: &R,
    alloc: Global,
    case: &Case,
    left: &Left,
) -> Result<bool, AllocError> {
    if case.way == Way::Again {
        return is_replayed(rt, alloc, case, left);
    }
    Ok(is_left_by(case, &case.wanted, left) || is_one_left(case, left))
}

/// Runs a case. Whether it left what it wants, and its line.
pub(crate) fn verdict<R: Threads + Wait + Sync>(
    rt: &R,
    alloc: Global,
    case: &Case,
) -> Result<(bool, String), AllocError> {
    let left = run(rt, alloc, case)?;
    judged(rt, alloc, case, &left)
}

fn judged<R: Threads + Wait + Sync>(
    rt: &R,
    alloc: Global,
    case: &Case,
    left: &Left,
) -> Result<(bool, String), AllocError> {
    let same = left.is_held && is_wanted(rt, alloc, case, left)?;
    let line = told(alloc, case.name.as_str(), same, left)?;
    Ok((same, line))
}

// The line of a case.
fn told(alloc: Global, name: &str, same: bool, left: &Left) -> Result<String, AllocError> {
    if same {
        return format!(in alloc; "{name}: same");
    }
    let (frames, pictures, notes) = (left.frames, left.pictures.len(), left.notes.len());
    let held = if left.is_held { "held" } else { "not held" };
    format!(in alloc;
        "{name}: {:?}, frames {frames}, bytes of pictures {pictures} and of notes {notes}, {held}",
        left.ending
    )
}
