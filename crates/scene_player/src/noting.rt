// What is noted of a scene that was shown.
ghost use Rattle.std.specs.Prelude.{◌≡◌, ◌≤◌, map, length};
ghost use Rattle.scene_text.specs.Seen.{journal_seen};
ghost use Rattle.scene_playing.specs.Frames.{note_seen};
ghost use Rattle.io_whole.specs.Runs.{putting};
ghost use Rattle.scene_player.specs.Noted.{IsNoted, items_of, made_line, notes_text};

use crate::notes::{made_notes, scene_notes};
use crate::played::Played;
use crate::status::Status;
use io_edge::Sink;
use io_whole::put_all;
use scene_playing::FrameNote;
use scene_showing::{End, Showing};
use scene_text::Journal;
use std::alloc::Global;

/// Puts the notes of a scene that was shown whole.
fn put_notes<N: Sink>(text: &[u8], notes: &mut N) -> Status
    ensures noted { IsNoted result End.Done text.now (putting (N.held notes.old) (N.held notes.new) (N.faults notes.old) (N.faults notes.new)) }
    ensures sure { N.sure notes.new ≡ N.sure notes.old }
    ensures no_fewer { N.faults notes.old ≤ N.faults notes.new }
{
    match put_all(notes, text) {
        Ok(()) => Status::Done,
        Err(_) => Status::NoteFault,
    }
}

/// The status of a scene by how it was shown, and its notes where it was shown whole.
fn note_scene<N: Sink>(
    alloc: Global,
    end: End,
    frames: &[FrameNote],
    journal: &Journal,
    with_journal: bool,
    notes: &mut N,
) -> Status
    ensures noted { IsNoted result end (notes_text (map note_seen frames.now) (journal_seen journal.now) with_journal)
        (putting (N.held notes.old) (N.held notes.new) (N.faults notes.old) (N.faults notes.new)) }
    ensures sure { N.sure notes.new ≡ N.sure notes.old }
    ensures no_fewer { N.faults notes.old ≤ N.faults notes.new }
{
    match end {
        End::Done => match scene_notes(alloc, frames, journal, with_journal) {
            Ok(text) => put_notes(&text, notes),
            Err(_) => Status::OutOfMemory,
        },
        End::PictureFault => Status::PictureFault,
        End::OutOfMemory => Status::OutOfMemory,
    }
}

/// The status of a generated scene, and its line where it was drawn whole.
pub(crate) fn note_made<N: Sink>(
    alloc: Global,
    end: End,
    frames: &[FrameNote],
    sum: u32,
    notes: &mut N,
) -> Status
    ensures noted { IsNoted result end (made_line (length frames.now) (items_of (map note_seen frames.now)) sum)
        (putting (N.held notes.old) (N.held notes.new) (N.faults notes.old) (N.faults notes.new)) }
    ensures sure { N.sure notes.new ≡ N.sure notes.old }
    ensures no_fewer { N.faults notes.old ≤ N.faults notes.new }
{
    match end {
        End::Done => match made_notes(alloc, frames, sum) {
            Ok(text) => put_notes(&text, notes),
            Err(_) => Status::OutOfMemory,
        },
        End::PictureFault => Status::PictureFault,
        End::OutOfMemory => Status::OutOfMemory,
    }
}

/// The end of a run whose scene was shown.
pub(crate) fn finish<P: Drop, N: Sink>(
    alloc: Global,
    with_journal: bool,
    showing: Showing<P>,
    notes: &mut N,
) -> Played<P>
    ensures noted { IsNoted result.status showing.end (notes_text (map note_seen showing.notes.items) (journal_seen showing.journal) with_journal)
        (putting (N.held notes.old) (N.held notes.new) (N.faults notes.old) (N.faults notes.new)) }
    ensures journal { journal_seen result.journal ≡ journal_seen showing.journal }
    ensures pictures { result.pictures ≡ showing.sink }
    ensures sure { N.sure notes.new ≡ N.sure notes.old }
    ensures no_fewer { N.faults notes.old ≤ N.faults notes.new }
{
    let status = note_scene(
        alloc,
        showing.end,
        &showing.notes,
        &showing.journal,
        with_journal,
        notes,
    );
    Played {
        status,
        journal: showing.journal,
        pictures: showing.sink,
    }
}
