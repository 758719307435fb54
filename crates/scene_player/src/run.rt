// The top call.
ghost use Rattle.std.specs.Prelude.{◌≡◌, ◌≤◌, false, ℕ, List, Some, map, string_bytes, Bool};
ghost use Rattle.scene_model.specs.Scene as model;
ghost use Rattle.scene_model.specs.Journal as journals;
ghost use Rattle.scene_model.specs.Run.{all_done};
ghost use Rattle.scene_text.specs.Seen.{journal_seen};
ghost use Rattle.command_line_model.specs.Taken.{Command, taken};
ghost use Rattle.command_line_model.specs.Answer.{answer};
ghost use Rattle.scene_player.specs.Ended.{AreTaken, CountsPictures, Ends, EndsAs, IsGiven, IsReadAndAnswered, IsSceneOf, IsToldIn, ReadsAndShows};
ghost use Rattle.io_whole.specs.Runs.{putting, reading};
ghost use Rattle.scene_player.specs.Parts.{showing_command};

use crate::notes::{TOO_LONG, USAGE};
use crate::played::{Played, blank, refuse};
use crate::showing::{make, play_bytes, replay_bytes};
use crate::status::Status;
use crate::words::{Mode, read_words};
use io_edge::{Gate, Sink, Source};
use io_whole::{InputError, LONGEST_INPUT, read_all};
use std::alloc::Global;
use std::sync::Wait;
use std::thread::Threads;

/// Reads the source, and shows the scene that it gives, by its own journal or by the one that follows it.
fn show_source<R: Threads + Wait + Sync, S: Source, P: Sink + Send + Drop, N: Sink, G: Gate + Sync>(
    rt: &R,
    gate: &G,
    alloc: Global,
    is_replay: bool,
    with_journal: bool,
    source: &mut S,
    pictures: P,
    notes: &mut N,
) -> Played<P>
    ensures answered { (count : ℕ) → IsReadAndAnswered result.status (showing_command is_replay with_journal count)
        (reading (S.left source.old) (S.left source.new) (S.faults source.old) (S.faults source.new))
        (journal_seen result.journal)
        (putting (P.held pictures) (P.held result.pictures) (P.faults pictures) (P.faults result.pictures))
        (putting (N.held notes.old) (N.held notes.new) (N.faults notes.old) (N.faults notes.new)) }
    ensures counted { (count : ℕ) (bytes : List ℕ) (s : model.Scene) → S.left source.old ≡ Some bytes → IsSceneOf (showing_command is_replay with_journal count) bytes s
        → CountsPictures result.status s (journal_seen result.journal) (P.tally pictures) (P.tally result.pictures) }
    ensures sure { (P.sure result.pictures ≡ P.sure pictures) × (N.sure notes.new ≡ N.sure notes.old) }
    ensures no_fewer { (S.faults source.old ≤ S.faults source.new) × (P.faults pictures ≤ P.faults result.pictures) × (N.faults notes.old ≤ N.faults notes.new) }
{
    match read_all(alloc, source, LONGEST_INPUT) {
        Ok(bytes) => {
            if is_replay {
                return replay_bytes(rt, gate, alloc, with_journal, &bytes, pictures, notes);
            }
            play_bytes(rt, gate, alloc, with_journal, &bytes, pictures, notes)
        }
        Err(InputError::Fault) => blank(alloc, Status::ReadFault, pictures),
        Err(InputError::TooLong) => refuse(alloc, Status::TooLong, TOO_LONG, pictures, notes),
        Err(InputError::OutOfMemory) => blank(alloc, Status::OutOfMemory, pictures),
    }
}

/// Does what the words say.
fn run<R: Threads + Wait + Sync, S: Source, P: Sink + Send + Drop, N: Sink, G: Gate + Sync>(
    rt: &R,
    gate: &G,
    alloc: Global,
    words: &[String],
    source: &mut S,
    pictures: P,
    notes: &mut N,
) -> Played<P>
    ensures ends { Ends result.status (taken (map string_bytes words.now))
        (reading (S.left source.old) (S.left source.new) (S.faults source.old) (S.faults source.new))
        (journal_seen result.journal)
        (putting (P.held pictures) (P.held result.pictures) (P.faults pictures) (P.faults result.pictures))
        (putting (N.held notes.old) (N.held notes.new) (N.faults notes.old) (N.faults notes.new)) }
    ensures counted { (c : Command) (bytes : List ℕ) (s : model.Scene) → taken (map string_bytes words.now) ≡ Some c → ReadsAndShows c.mode
        → IsToldIn c.mode (reading (S.left source.old) (S.left source.new) (S.faults source.old) (S.faults source.new)) bytes
        → IsSceneOf c bytes s
        → CountsPictures result.status s (journal_seen result.journal) (P.tally pictures) (P.tally result.pictures) }
    ensures sure { (P.sure result.pictures ≡ P.sure pictures) × (N.sure notes.new ≡ N.sure notes.old) }
    ensures no_fewer { (S.faults source.old ≤ S.faults source.new) × (P.faults pictures ≤ P.faults result.pictures) × (N.faults notes.old ≤ N.faults notes.new) }
{
    let command = match read_words(alloc, words) {
        Ok(Some(command)) => command,
        Ok(None) => return refuse(alloc, Status::Usage, USAGE, pictures, notes),
        Err(_) => return blank(alloc, Status::OutOfMemory, pictures),
    };
    let journal = command.journal;
    match command.mode {
        Mode::Play => show_source(rt, gate, alloc, false, journal, source, pictures, notes),
        Mode::Replay => show_source(rt, gate, alloc, true, journal, source, pictures, notes),
        Mode::Make => make(rt, gate, alloc, command.count, pictures, notes),
    }
}

/// Does what the words say: `play` shows the scene that the source gives, with recorder threads and a thread that renders; `replay`
/// shows it by the journal that follows it; `make` draws the generated scene and shows nothing. With `--journal` the journal is
/// noted behind the report.
///
/// The order is: the words; the source, which is read to its end, at most 16,777,216 bytes; the scene; the journal of `replay`; the
/// pictures frame by frame; the notes. A line whose call is refused is dropped and counted, and the run goes on. The gate is a hook for
/// tests: in `play` and `make` it is called before each item's line with its encoder's number, and before each frame that is rendered
/// beside the play; no clause says so.
///
/// The status says how it ended. `Usage`, `Scene`, `TooLong` and `Journal` come exactly by the words and the bytes; `ReadFault`,
/// `PictureFault` and `NoteFault` only where that object's count of faults rose in this call; `OutOfMemory` is free. After a fault
/// of the pictures a front of the defined text was put, and no notes; after `OutOfMemory` whole pictures of the first frames; after
/// the others but `Done` and `NoteFault` no picture. It may wait for its own threads.
pub fn play<R: Threads + Wait + Sync, S: Source, P: Sink + Send + Drop, N: Sink, G: Gate + Sync>(
    rt: &R,
    alloc: Global,
    words: &[String],
    source: &mut S,
    pictures: P,
    notes: &mut N,
    gate: &G,
) -> Played<P>
    // What the pictures, the journal and the notes are after each status, and its cause.
    ensures ends { Ends result.status (taken (map string_bytes words.now))
        (reading (S.left source.old) (S.left source.new) (S.faults source.old) (S.faults source.new))
        (journal_seen result.journal)
        (putting (P.held pictures) (P.held result.pictures) (P.faults pictures) (P.faults result.pictures))
        (putting (N.held notes.old) (N.held notes.new) (N.faults notes.old) (N.faults notes.new)) }
    // The sinks keep their sure lengths, and no count of faults falls.
    ensures sure { (P.sure result.pictures ≡ P.sure pictures) × (N.sure notes.new ≡ N.sure notes.old) }
    ensures no_fewer { (S.faults source.old ≤ S.faults source.new) × (P.faults pictures ≤ P.faults result.pictures) × (N.faults notes.old ≤ N.faults notes.new) }
    // Where no key is shared between encoders, the pictures are those of one thread.
    ensures one_thread { (c : Command) (bytes : List ℕ) (s : model.Scene) → taken (map string_bytes words.now) ≡ Some c
        → IsToldIn c.mode (reading (S.left source.old) (S.left source.new) (S.faults source.old) (S.faults source.new)) bytes
        → IsSceneOf c bytes s → result.status ≡ Status.Done → journals.shares_key s ≡ false
        → journals.pictures s (journal_seen result.journal) ≡ journals.pictures s (journals.serial s) }
    // Where all pictures were put, the sink that counts has counted them, whether or not it tells what it holds.
    ensures counted { (c : Command) (bytes : List ℕ) (s : model.Scene) → taken (map string_bytes words.now) ≡ Some c → ReadsAndShows c.mode
        → IsToldIn c.mode (reading (S.left source.old) (S.left source.new) (S.faults source.old) (S.faults source.new)) bytes
        → IsSceneOf c bytes s
        → CountsPictures result.status s (journal_seen result.journal) (P.tally pictures) (P.tally result.pictures) }
    // Where the definition refuses the run and the source does not fail, the run ends so, or for want of memory.
    ensures refused { (bytes : List ℕ)
        → IsGiven (taken (map string_bytes words.now)) (reading (S.left source.old) (S.left source.new) (S.faults source.old) (S.faults source.new)) bytes
        → ¬ ((answer (map string_bytes words.now) (λ s. journal_seen result.journal) bytes).ending ≡ all_done)
        → EndsAs (answer (map string_bytes words.now) (λ s. journal_seen result.journal) bytes).ending result.status }
    // Where nothing fails, the run ends as the definition says, or for want of memory.
    ensures complete { (bytes : List ℕ)
        → IsGiven (taken (map string_bytes words.now)) (reading (S.left source.old) (S.left source.new) (S.faults source.old) (S.faults source.new)) bytes
        → AreTaken (taken (map string_bytes words.now))
        (putting (P.held pictures) (P.held result.pictures) (P.faults pictures) (P.faults result.pictures))
        (putting (N.held notes.old) (N.held notes.new) (N.faults notes.old) (N.faults notes.new))
        → EndsAs (answer (map string_bytes words.now) (λ s. journal_seen result.journal) bytes).ending result.status }
{
    run(rt, gate, alloc, words, source, pictures, notes)
}
