// The three modes, each over what it shows.
ghost use Rattle.std.specs.Prelude.{◌≡◌, ◌≤◌, true, false, ℕ, Bool, [], length, take, Ok};
ghost use Rattle.scene_model.specs.Grammar.{scene_of, whole_language};
ghost use Rattle.scene_model.specs.Journal.{serial};
ghost use Rattle.scene_model.specs.JournalText.{journal_of};
ghost use Rattle.scene_model.specs.Run.{all_done};
ghost use Rattle.scene_model.specs.Scene as model;
ghost use Rattle.spelling_model.specs.Readable.{IsReadable};
ghost use Rattle.scene_text.specs.Bounds.{IsBounded};
ghost use Rattle.scene_text.specs.Seen.{journal_seen, scene_seen};
ghost use Rattle.scene_player.specs.Ended.{CountsPictures, EndsAs, IsAnswered, IsSceneOf, answer_of};
ghost use Rattle.io_whole.specs.Runs.{HasFailedToTake, putting};
ghost use Rattle.scene_player.specs.Parts.{ReadsLawful, making_command, showing_command};
ghost use Rattle.scene_player.specs.Words.{IsCount};

use crate::noting::{finish, note_made};
use crate::played::{Played, blank, refuse_journal, refuse_scene};
use crate::status::Status;
use generated_scene::laws::generated_law;
use generated_scene::make_scene;
use io_edge::{Gate, Sink, SureSink};
use scene_progress::plan_law;
use scene_showing::{item_counts, replay_scene, show_here, show_scene};
use scene_text::{
    Journal, JournalFault, Scene, SceneFault, fault_place, read, read_front, read_journal,
};
use std::alloc::Global;
use std::sync::Wait;
use std::thread::Threads;

/// Shows the scene that the bytes are.
pub(crate) fn play_bytes<R: Threads + Wait + Sync, P: Sink + Send + Drop, N: Sink, G: Gate + Sync>(
    rt: &R,
    gate: &G,
    alloc: Global,
    with_journal: bool,
    bytes: &[u8],
    pictures: P,
    notes: &mut N,
) -> Played<P>
    requires { length bytes.now ≤ 16777216 }
    ensures answered { (count : ℕ) → IsAnswered result.status (showing_command false with_journal count) bytes.now (journal_seen result.journal)
        (putting (P.held pictures) (P.held result.pictures) (P.faults pictures) (P.faults result.pictures))
        (putting (N.held notes.old) (N.held notes.new) (N.faults notes.old) (N.faults notes.new)) }
    ensures counted { (count : ℕ) (s : model.Scene) → IsSceneOf (showing_command false with_journal count) bytes.now s
        → CountsPictures result.status s (journal_seen result.journal) (P.tally pictures) (P.tally result.pictures) }
    ensures sure { (P.sure result.pictures ≡ P.sure pictures) × (N.sure notes.new ≡ N.sure notes.old) }
    ensures no_fewer { (P.faults pictures ≤ P.faults result.pictures) × (N.faults notes.old ≤ N.faults notes.new) }
{
    match read(alloc, bytes) {
        Ok(scene) => {
            let showing = show_scene(rt, gate, alloc, &scene, pictures);
            finish(alloc, with_journal, showing, notes)
        }
        Err(SceneFault::At { line, cause }) => refuse_scene(alloc, line, cause, pictures, notes),
        Err(SceneFault::OutOfMemory) => blank(alloc, Status::OutOfMemory, pictures),
    }
}

/// Shows the scene that the bytes are, on this thread alone.
fn show_bytes_here<P: Sink + Drop, N: Sink>(
    alloc: Global,
    with_journal: bool,
    bytes: &[u8],
    pictures: P,
    notes: &mut N,
) -> Played<P>
    requires { length bytes.now ≤ 16777216 }
    ensures answered { (count : ℕ) → IsAnswered result.status (showing_command false with_journal count) bytes.now (journal_seen result.journal)
        (putting (P.held pictures) (P.held result.pictures) (P.faults pictures) (P.faults result.pictures))
        (putting (N.held notes.old) (N.held notes.new) (N.faults notes.old) (N.faults notes.new)) }
    ensures counted { (count : ℕ) (s : model.Scene) → IsSceneOf (showing_command false with_journal count) bytes.now s
        → CountsPictures result.status s (journal_seen result.journal) (P.tally pictures) (P.tally result.pictures) }
    ensures sure { (P.sure result.pictures ≡ P.sure pictures) × (N.sure notes.new ≡ N.sure notes.old) }
    ensures no_fewer { (P.faults pictures ≤ P.faults result.pictures) × (N.faults notes.old ≤ N.faults notes.new) }
    ensures front { (s : model.Scene) → scene_of whole_language bytes.now ≡ Ok s → journal_seen result.journal ≡ take (length (journal_seen result.journal)) (serial s) }
{
    match read(alloc, bytes) {
        Ok(scene) => {
            let showing = show_here(alloc, &scene, pictures);
            finish(alloc, with_journal, showing, notes)
        }
        Err(SceneFault::At { line, cause }) => refuse_scene(alloc, line, cause, pictures, notes),
        Err(SceneFault::OutOfMemory) => blank(alloc, Status::OutOfMemory, pictures),
    }
}

/// Shows the scene that the bytes are as `play` does, on this thread alone. It asks for no leave: it starts no thread, and waits for
/// none.
///
/// There are at most 16,777,216 bytes. The order is: the scene; the pictures frame by frame; the notes, with the text of the journal
/// behind the report where it is asked for. One encoder records after another, so that a scene has one journal: it is the scene's
/// journal of one thread where all was shown, and else a front of it. A line whose call is refused is dropped and counted, and the
/// play goes on.
///
/// The status says how it ended, as of `play`: `Scene` comes only where the bytes are no scene, `PictureFault` and `NoteFault` only where that
/// sink's count of faults rose in this call, `OutOfMemory` is free, and the others but `Done` never come.
pub fn play_bytes_here<P: Sink + Drop, N: Sink>(
    alloc: Global,
    with_journal: bool,
    bytes: &[u8],
    pictures: P,
    notes: &mut N,
) -> Played<P>
    requires { length bytes.now ≤ 16777216 }
    ensures answered { (count : ℕ) → IsAnswered result.status (showing_command false with_journal count) bytes.now (journal_seen result.journal)
        (putting (P.held pictures) (P.held result.pictures) (P.faults pictures) (P.faults result.pictures))
        (putting (N.held notes.old) (N.held notes.new) (N.faults notes.old) (N.faults notes.new)) }
    ensures counted { (count : ℕ) (s : model.Scene) → IsSceneOf (showing_command false with_journal count) bytes.now s
        → CountsPictures result.status s (journal_seen result.journal) (P.tally pictures) (P.tally result.pictures) }
    ensures sure { (P.sure result.pictures ≡ P.sure pictures) × (N.sure notes.new ≡ N.sure notes.old) }
    ensures no_fewer { (P.faults pictures ≤ P.faults result.pictures) × (N.faults notes.old ≤ N.faults notes.new) }
    // Where the definition refuses the bytes, the play ends so, or for want of memory.
    ensures refused { (count : ℕ) → ¬ ((answer_of (showing_command false with_journal count) bytes.now (journal_seen result.journal)).ending ≡ all_done)
        → EndsAs (answer_of (showing_command false with_journal count) bytes.now (journal_seen result.journal)).ending result.status }
    // Where no sink fails, the play ends as the definition says, or for want of memory.
    ensures complete { (count : ℕ) → ¬ HasFailedToTake (putting (P.held pictures) (P.held result.pictures) (P.faults pictures) (P.faults result.pictures))
        → ¬ HasFailedToTake (putting (N.held notes.old) (N.held notes.new) (N.faults notes.old) (N.faults notes.new))
        → EndsAs (answer_of (showing_command false with_journal count) bytes.now (journal_seen result.journal)).ending result.status }
    // The journal is that of one thread, or a front of it.
    ensures whole { (s : model.Scene) → scene_of whole_language bytes.now ≡ Ok s → result.status ≡ Status.Done → journal_seen result.journal ≡ serial s }
    ensures front { (s : model.Scene) → scene_of whole_language bytes.now ≡ Ok s → journal_seen result.journal ≡ take (length (journal_seen result.journal)) (serial s) }
{
    plan_law();
    show_bytes_here(alloc, with_journal, bytes, pictures, notes)
}

/// The journal that follows a scene, which is lawful for it.
fn read_lawful<R: Threads + Wait + Sync>(
    rt: &R,
    alloc: Global,
    scene: &Scene,
    bytes: &[u8],
) -> Result<Journal, JournalFault>
    requires readable { IsReadable (scene_seen scene.now) }
    requires bounded { IsBounded (scene_seen scene.now) }
    requires few { length bytes.now ≤ 16777216 }
    ensures { ReadsLawful result (scene_seen scene.now) (journal_of bytes.now (length (scene_seen scene.now).frames)) }
{
    let journal = read_journal(alloc, bytes, scene.frames.as_slice().len() as u32)?;
    let counts = item_counts(rt, alloc, scene)?;
    match fault_place(&journal, &counts) {
        Some(place) => Err(JournalFault::At { place }),
        None => Ok(journal),
    }
}

/// Shows the scene at the front of the bytes by the journal that follows it.
pub(crate) fn replay_bytes<
    R: Threads + Wait + Sync,
    P: Sink + Send + Drop,
    N: Sink,
    G: Gate + Sync,
>(
    rt: &R,
    gate: &G,
    alloc: Global,
    with_journal: bool,
    bytes: &[u8],
    pictures: P,
    notes: &mut N,
) -> Played<P>
    requires { length bytes.now ≤ 16777216 }
    ensures answered { (count : ℕ) → IsAnswered result.status (showing_command true with_journal count) bytes.now (journal_seen result.journal)
        (putting (P.held pictures) (P.held result.pictures) (P.faults pictures) (P.faults result.pictures))
        (putting (N.held notes.old) (N.held notes.new) (N.faults notes.old) (N.faults notes.new)) }
    ensures counted { (count : ℕ) (s : model.Scene) → IsSceneOf (showing_command true with_journal count) bytes.now s
        → CountsPictures result.status s (journal_seen result.journal) (P.tally pictures) (P.tally result.pictures) }
    ensures sure { (P.sure result.pictures ≡ P.sure pictures) × (N.sure notes.new ≡ N.sure notes.old) }
    ensures no_fewer { (P.faults pictures ≤ P.faults result.pictures) × (N.faults notes.old ≤ N.faults notes.new) }
{
    let (scene, end) = match read_front(alloc, bytes) {
        Ok(front) => front,
        Err(SceneFault::At { line, cause }) => {
            return refuse_scene(alloc, line, cause, pictures, notes);
        }
        Err(SceneFault::OutOfMemory) => return blank(alloc, Status::OutOfMemory, pictures),
    };
    match read_lawful(rt, alloc, &scene, &bytes[end..]) {
        Ok(journal) => {
            let showing = replay_scene(rt, gate, alloc, &scene, &journal, pictures);
            finish(alloc, with_journal, showing, notes)
        }
        Err(JournalFault::At { place }) => refuse_journal(alloc, place, pictures, notes),
        Err(JournalFault::OutOfMemory) => blank(alloc, Status::OutOfMemory, pictures),
    }
}

/// Draws the generated scene and shows nothing.
pub(crate) fn make<R: Threads + Wait + Sync, P: Sink + Send + Drop, N: Sink, G: Gate + Sync>(
    rt: &R,
    gate: &G,
    alloc: Global,
    count: u32,
    pictures: P,
    notes: &mut N,
) -> Played<P>
    requires { IsCount count }
    ensures answered { (with_journal : Bool) → IsAnswered result.status (making_command with_journal count) [] (journal_seen result.journal)
        (putting (P.held pictures) (P.held result.pictures) (P.faults pictures) (P.faults result.pictures))
        (putting (N.held notes.old) (N.held notes.new) (N.faults notes.old) (N.faults notes.new)) }
    ensures sure { (P.sure result.pictures ≡ P.sure pictures) × (N.sure notes.new ≡ N.sure notes.old) }
    ensures no_fewer { (P.faults pictures ≤ P.faults result.pictures) × (N.faults notes.old ≤ N.faults notes.new) }
{
    let Ok(scene) = make_scene(rt, alloc, count) else {
        return blank(alloc, Status::OutOfMemory, pictures);
    };
    generated_law();
    let showing = show_scene(rt, gate, alloc, &scene, SureSink::new());
    let status = note_made(
        alloc,
        showing.end,
        &showing.notes,
        showing.sink.sum(),
        notes,
    );
    Played {
        status,
        journal: showing.journal,
        pictures,
    }
}
