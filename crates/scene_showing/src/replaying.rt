// A scene's pictures by a journal that is given.
ghost use Rattle.std.specs.Prelude.{◌≡◌, ◌≤◌, None, map, length, take};
ghost use Rattle.spelling_model.specs.Readable.{IsReadable};
ghost use Rattle.scene_model.specs.Fold.{plans};
ghost use Rattle.scene_model.specs.Journal.{fault_place};
ghost use Rattle.scene_text.specs.Bounds.{IsBounded};
ghost use Rattle.scene_text.specs.Seen.{journal_seen, scene_seen};
ghost use Rattle.scene_playing.specs.Frames.{note_seen};
ghost use Rattle.scene_showing.specs.Showing.{IsShowing, IsCounted};
ghost use Rattle.scene_showing.specs.declared.showing.End.TheVariants as ends;

use crate::showing::{Showing, show_with};
use io_edge::{Gate, Sink};
use render_core::Renderer;
use scene_text::{Journal, Scene};
use std::alloc::Global;
use std::sync::Wait;
use std::thread::Threads;

/// Shows a scene as `show_scene`, with the items of each frame in the order of the journal, which is lawful for the scene.
///
/// This thread alone records and renders. Where all was shown, the journal that comes back is the one that was given; else it is a
/// front of that.
pub fn replay_scene<P: Sink + Send + Drop, R: Threads + Wait + Sync, G: Gate + Sync>(
    rt: &R,
    gate: &G,
    alloc: Global,
    scene: &Scene,
    journal: &Journal,
    sink: P,
) -> Showing<P>
    requires readable { IsReadable (scene_seen scene.now) }
    requires bounded { IsBounded (scene_seen scene.now) }
    requires lawful { fault_place (plans (scene_seen scene.now)) (journal_seen journal.now) ≡ None }
    ensures shown { IsShowing result.end (scene_seen scene.now) (journal_seen result.journal) (P.held sink) (P.held result.sink) (P.faults sink) (P.faults result.sink) }
    ensures counted { IsCounted result.end (scene_seen scene.now) (journal_seen result.journal) (map note_seen result.notes.items) (P.tally sink) (P.tally result.sink) }
    ensures sure { P.sure result.sink ≡ P.sure sink }
    ensures no_fewer { P.faults sink ≤ P.faults result.sink }
    ensures whole { result.end ≡ ends.Done → journal_seen result.journal ≡ journal_seen journal.now }
    ensures front { journal_seen result.journal ≡ take (length (journal_seen result.journal)) (journal_seen journal.now) }
{
    match Renderer::new(alloc, scene.width, scene.height, sink) {
        Ok(renderer) => show_with(rt, gate, alloc, Some(journal), scene, renderer),
        Err(sink) => Showing::nothing(alloc, sink),
    }
}
