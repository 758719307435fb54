// Records the pictures of a scene.
ghost use Rattle.std.specs.Prelude.{◌≡◌, ◌≢◌, ◌≤◌, ◌∷◌, ℕ, List, [], Ok, codes, length, map, string_bytes, IfOk, OnErr};
ghost use Rattle.io_edge.specs.Edge.{Rose};
ghost use Rattle.scene_model.specs.Scene as model;
ghost use Rattle.scene_model.specs.Grammar.{scene_of, whole_language};
ghost use Rattle.scene_text.specs.Seen.{journal_seen};
ghost use Rattle.io_whole.specs.Runs.{Reading, putting, reading};
ghost use Rattle.frame_capture.specs.Film.{Film};
ghost use Rattle.frame_capture.specs.Spelling.{AreTexts, AreTextsOf, film};
ghost use Rattle.capture_running.specs.Measured.{Measures};
ghost use Rattle.capture_running.specs.PlayedInto.{IsPlayedInto, IsPut};
ghost use Rattle.capture_running.specs.Ended.{EndsRecord, IsRead};

use crate::captured::{Captured, blank};
use crate::given::Given;
use crate::size::{Size, measure};
use crate::status::CaptureStatus;
use frame_capture::encode;
use io_edge::{Gate, MemSink, Sink, Source};
use io_whole::{InputError, LONGEST_INPUT, put_all, read_all};
use scene_player::{Played, Status, play};
use std::alloc::{AllocError, Global};
use std::sync::Wait;
use std::thread::Threads;

/// The words with which a scene is played.
fn play_words(alloc: Global) -> Result<Vec<String>, AllocError>
    ensures { IfOk result (λ ws. map string_bytes ws.items ≡ codes "play" ∷ []) }
{
    let mut words = Vec::new(alloc);
    words.push("play".to_string(alloc)?)?;
    Ok(words)
}

/// Plays the scene of a text into memory, where all of its picture texts fit.
fn play_into<R: Threads + Wait + Sync, N: Sink, G: Gate + Sync>(
    rt: &R,
    alloc: Global,
    text: Vec<u8>,
    size: Size,
    notes: &mut N,
    gate: &G,
) -> Result<Played<MemSink>, AllocError>
    requires short { length text.items ≤ 16777216 }
    requires measured { Measures (Ok size) (scene_of whole_language text.items) }
    ensures played { (s : model.Scene) → scene_of whole_language text.items ≡ Ok s
        → IfOk result (λ p. IsPlayedInto p.status s (journal_seen p.journal) p.pictures.bytes.items
        (putting (N.held notes.old) (N.held notes.new) (N.faults notes.old) (N.faults notes.new))) }
    ensures quiet { OnErr result (N.held notes.new ≡ N.held notes.old) }
    ensures sure { N.sure notes.new ≡ N.sure notes.old }
    ensures no_fewer { N.faults notes.old ≤ N.faults notes.new }
{
    let words = play_words(alloc)?;
    let pictures = MemSink::new(alloc, size.texts_len + 1, usize::MAX, Vec::new(alloc))?;
    let mut source = Given::new(text);
    let played = play(rt, alloc, &words, &mut source, pictures, notes, gate);
    Ok(played)
}

/// Puts the capture of pictures, from their joined texts.
fn put_capture<P: Sink>(alloc: Global, size: Size, texts: &[u8], sink: &mut P) -> CaptureStatus
    requires { AreTexts size.width size.height texts.now }
    ensures put { (f : Film) → f ≡ film size.width size.height f.pictures → AreTextsOf size.width size.height texts.now f.pictures
        → IsPut result f (putting (P.held sink.old) (P.held sink.new) (P.faults sink.old) (P.faults sink.new)) }
    ensures sure { P.sure sink.new ≡ P.sure sink.old }
    ensures no_fewer { P.faults sink.old ≤ P.faults sink.new }
{
    let capture = match encode(alloc, size.width, size.height, texts) {
        Ok(capture) => capture,
        Err(_) => return CaptureStatus::OutOfMemory,
    };
    match put_all(sink, &capture) {
        Ok(()) => CaptureStatus::Done,
        Err(_) => CaptureStatus::PictureFault,
    }
}

/// Records the scene of a text.
fn record_scene<R: Threads + Wait + Sync, P: Sink, N: Sink, G: Gate + Sync>(
    rt: &R,
    alloc: Global,
    text: Vec<u8>,
    size: Size,
    sink: &mut P,
    notes: &mut N,
    gate: &G,
) -> Captured
    requires short { length text.items ≤ 16777216 }
    requires measured { Measures (Ok size) (scene_of whole_language text.items) }
    ensures ends { (source : Reading) → IsRead 16777216 text.items source
        → EndsRecord result.status source (journal_seen result.journal)
        (putting (P.held sink.old) (P.held sink.new) (P.faults sink.old) (P.faults sink.new))
        (putting (N.held notes.old) (N.held notes.new) (N.faults notes.old) (N.faults notes.new)) }
    ensures sure { (P.sure sink.new ≡ P.sure sink.old) × (N.sure notes.new ≡ N.sure notes.old) }
    ensures no_fewer { (P.faults sink.old ≤ P.faults sink.new) × (N.faults notes.old ≤ N.faults notes.new) }
{
    let played = match play_into(rt, alloc, text, size, notes, gate) {
        Ok(played) => played,
        Err(_) => return blank(alloc, CaptureStatus::OutOfMemory),
    };
    match played.status {
        Status::Done => Captured {
            status: put_capture(alloc, size, played.pictures.bytes(), sink),
            journal: played.journal,
        },
        Status::NoteFault => Captured {
            status: CaptureStatus::NoteFault,
            journal: played.journal,
        },
        // Nothing else can come: the text is a scene's, its source never fails, and the pictures fit into their sink.
        _ => Captured {
            status: CaptureStatus::OutOfMemory,
            journal: played.journal,
        },
    }
}

/// Reads the text of a scene to its end, at most 16,777,216 bytes, plays it, puts its notes as `play` of the player does, and then the
/// capture of its pictures.
///
/// The status says how it ended. `Scene`, `TooLong` and `TooLarge` come exactly by the bytes, `ReadFault`, `PictureFault` and `NoteFault`
/// only where that object's count of faults rose in this call; `OutOfMemory` is free, and the other statuses do not come. After
/// `PictureFault` a front of the capture was put, and all notes; after `NoteFault` a front of the notes; after `OutOfMemory` no note or
/// all of them. After the others but `Done` nothing was put. On `Done`, `Scene`, `PictureFault`, `NoteFault` and `TooLarge` the source
/// was read to its end. It may wait for its own threads.
pub fn record<R: Threads + Wait + Sync, S: Source, P: Sink, N: Sink, G: Gate + Sync>(
    rt: &R,
    alloc: Global,
    source: &mut S,
    sink: &mut P,
    notes: &mut N,
    gate: &G,
) -> Captured
    // What was read and put after each status, the journal, and the cause.
    ensures ends { EndsRecord result.status (reading (S.left source.old) (S.left source.new) (S.faults source.old) (S.faults source.new))
        (journal_seen result.journal)
        (putting (P.held sink.old) (P.held sink.new) (P.faults sink.old) (P.faults sink.new))
        (putting (N.held notes.old) (N.held notes.new) (N.faults notes.old) (N.faults notes.new)) }
    // The sinks keep their sure lengths, and no count of faults falls.
    ensures sure { (P.sure sink.new ≡ P.sure sink.old) × (N.sure notes.new ≡ N.sure notes.old) }
    ensures no_fewer { (S.faults source.old ≤ S.faults source.new) × (P.faults sink.old ≤ P.faults sink.new) × (N.faults notes.old ≤ N.faults notes.new) }
{
    let text = match read_all(alloc, source, LONGEST_INPUT) {
        Ok(text) => text,
        Err(InputError::Fault) => return blank(alloc, CaptureStatus::ReadFault),
        Err(InputError::TooLong) => return blank(alloc, CaptureStatus::TooLong),
        Err(InputError::OutOfMemory) => return blank(alloc, CaptureStatus::OutOfMemory),
    };
    match measure(alloc, &text) {
        Ok(size) => record_scene(rt, alloc, text, size, sink, notes, gate),
        Err(status) => blank(alloc, status),
    }
}
