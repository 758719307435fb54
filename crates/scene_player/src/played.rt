// What a run leaves, and runs that show nothing.
ghost use Rattle.std.specs.Prelude.{◌≡◌, ◌≤◌, []};
ghost use Rattle.scene_model.specs.Output.{scene_line, journal_refusal_line};
ghost use Rattle.scene_text.specs.Seen.{journal_seen};
ghost use Rattle.io_whole.specs.Runs.{putting};
ghost use Rattle.scene_player.specs.Parts.{IsRefusedWith, MayRefuse};

use crate::notes::{journal_refused, scene_refused};
use crate::status::Status;
use io_edge::Sink;
use io_whole::put_all;
use scene_text::{Journal, Sequence};
use std::alloc::Global;

/// What a run leaves: how it ended, the items of each frame that ended, in a lawful order, and the sink of the pictures.
#[derive(Drop)]
pub struct Played<P: Drop> {
    pub status: Status,
    pub journal: Journal,
    pub pictures: P,
}

/// A run in which no frame ended.
pub(crate) fn blank<P: Drop>(alloc: Global, status: Status, pictures: P) -> Played<P>
    ensures status { result.status ≡ status }
    ensures journal { journal_seen result.journal ≡ [] }
    ensures pictures { result.pictures ≡ pictures }
{
    Played {
        status,
        journal: Journal {
            frames: Sequence::new(alloc),
        },
        pictures,
    }
}

/// A run that is refused: its line is put into the notes, as far as they take it.
pub(crate) fn refuse<P: Sink + Drop, N: Sink>(
    alloc: Global,
    status: Status,
    line: &[u8],
    pictures: P,
    notes: &mut N,
) -> Played<P>
    ensures refused { IsRefusedWith status result.status line.now (journal_seen result.journal)
        (putting (P.held pictures) (P.held result.pictures) (P.faults pictures) (P.faults result.pictures))
        (putting (N.held notes.old) (N.held notes.new) (N.faults notes.old) (N.faults notes.new)) }
    ensures sure { (P.sure result.pictures ≡ P.sure pictures) × (N.sure notes.new ≡ N.sure notes.old) }
    ensures no_fewer { (P.faults pictures ≤ P.faults result.pictures) × (N.faults notes.old ≤ N.faults notes.new) }
{
    let _ = put_all(notes, line);
    blank(alloc, status, pictures)
}

/// The refusal of a text that is no scene.
pub(crate) fn refuse_scene<P: Sink + Drop, N: Sink>(
    alloc: Global,
    line: u32,
    cause: u8,
    pictures: P,
    notes: &mut N,
) -> Played<P>
    ensures refused { MayRefuse (Status.Scene line cause) result.status (scene_line line cause) (journal_seen result.journal)
        (putting (P.held pictures) (P.held result.pictures) (P.faults pictures) (P.faults result.pictures))
        (putting (N.held notes.old) (N.held notes.new) (N.faults notes.old) (N.faults notes.new)) }
    ensures sure { (P.sure result.pictures ≡ P.sure pictures) × (N.sure notes.new ≡ N.sure notes.old) }
    ensures no_fewer { (P.faults pictures ≤ P.faults result.pictures) × (N.faults notes.old ≤ N.faults notes.new) }
{
    match scene_refused(alloc, line, cause) {
        Ok(text) => refuse(alloc, Status::Scene { line, cause }, &text, pictures, notes),
        Err(_) => blank(alloc, Status::OutOfMemory, pictures),
    }
}

/// The refusal of a journal.
pub(crate) fn refuse_journal<P: Sink + Drop, N: Sink>(
    alloc: Global,
    place: u32,
    pictures: P,
    notes: &mut N,
) -> Played<P>
    ensures refused { MayRefuse (Status.Journal place) result.status (journal_refusal_line place) (journal_seen result.journal)
        (putting (P.held pictures) (P.held result.pictures) (P.faults pictures) (P.faults result.pictures))
        (putting (N.held notes.old) (N.held notes.new) (N.faults notes.old) (N.faults notes.new)) }
    ensures sure { (P.sure result.pictures ≡ P.sure pictures) × (N.sure notes.new ≡ N.sure notes.old) }
    ensures no_fewer { (P.faults pictures ≤ P.faults result.pictures) × (N.faults notes.old ≤ N.faults notes.new) }
{
    match journal_refused(alloc, place) {
        Ok(text) => refuse(alloc, Status::Journal { place }, &text, pictures, notes),
        Err(_) => blank(alloc, Status::OutOfMemory, pictures),
    }
}
