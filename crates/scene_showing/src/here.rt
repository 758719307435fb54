// A scene's pictures, by one thread.
ghost use Rattle.std.specs.Prelude.{◌≡◌, ◌≤◌, map, length, take, IfOk, IfErr};
ghost use Rattle.spelling_model.specs.Readable.{IsReadable};
ghost use Rattle.scene_model.specs.Journal.{serial};
ghost use Rattle.scene_text.specs.Bounds.{IsBounded};
ghost use Rattle.scene_text.specs.Seen.{journal_seen, scene_seen};
ghost use Rattle.render_core.specs.Rendered.{seen_by};
ghost use Rattle.scene_playing.specs.Frames.{note_seen};
ghost use Rattle.scene_showing.specs.Rendered.{IsNew, AreShown};
ghost use Rattle.scene_showing.specs.Showing.{IsShowing, IsCounted};
ghost use Rattle.scene_showing.specs.declared.showing.End.TheVariants as ends;

use crate::rendered::Rendered;
use crate::showing::Showing;
use io_edge::Sink;
use render_core::laws::{kept_law, texts_law};
use render_core::{InPlaceLink, Renderer, SerialRasterizer};
use scene_laws::{colors_law, scene_pictures_law};
use scene_playing::{Played, play_here};
use scene_progress::{front_law, lawful_law, plan_law};
use scene_text::Scene;
use std::alloc::Global;

/// Plays the frames of a scene, and renders each where it is given. `Err` with the renderer as it was, for want of memory; then
/// nothing was played.
fn render_here<P: Sink + Drop>(
    alloc: Global,
    scene: &Scene,
    renderer: Renderer<P>,
) -> Result<Rendered<P>, Renderer<P>>
    requires readable { IsReadable (scene_seen scene.now) }
    requires bounded { IsBounded (scene_seen scene.now) }
    ensures shown { IfOk result (λ r. AreShown (scene_seen scene.now) (seen_by P.held P.tally P.faults P.sure renderer) (journal_seen r.journal) (map note_seen r.notes.items) r.outcome r.is_whole (seen_by P.held P.tally P.faults P.sure r.renderer)) }
    ensures front { IfOk result (λ r. journal_seen r.journal ≡ take (length (journal_seen r.journal)) (serial (scene_seen scene.now))) }
    ensures refused { IfErr result (λ r. r ≡ renderer) }
{
    let link = InPlaceLink::new(alloc, renderer, SerialRasterizer, scene.latency)?;
    let played = play_here(alloc, None, scene, link);
    let Played {
        link,
        journal,
        notes,
        outcome,
        is_whole,
    } = played;
    Ok(Rendered {
        renderer: link.into_renderer(),
        journal,
        notes,
        outcome,
        is_whole,
    })
}

/// Shows a scene by a renderer that has rendered nothing.
fn show_by<P: Sink + Drop>(alloc: Global, scene: &Scene, renderer: Renderer<P>) -> Showing<P>
    requires readable { IsReadable (scene_seen scene.now) }
    requires bounded { IsBounded (scene_seen scene.now) }
    requires new { IsNew (scene_seen scene.now) (seen_by P.held P.tally P.faults P.sure renderer) }
    ensures shown { IsShowing result.end (scene_seen scene.now) (journal_seen result.journal) (P.held renderer.sink) (P.held result.sink) (P.faults renderer.sink) (P.faults result.sink) }
    ensures counted { IsCounted result.end (scene_seen scene.now) (journal_seen result.journal) (map note_seen result.notes.items) (P.tally renderer.sink) (P.tally result.sink) }
    ensures sure { P.sure result.sink ≡ P.sure renderer.sink }
    ensures no_fewer { P.faults renderer.sink ≤ P.faults result.sink }
    ensures whole { result.end ≡ ends.Done → journal_seen result.journal ≡ serial (scene_seen scene.now) }
    ensures front { journal_seen result.journal ≡ take (length (journal_seen result.journal)) (serial (scene_seen scene.now)) }
{
    texts_law();
    kept_law();
    scene_pictures_law();
    colors_law();
    front_law();
    lawful_law();
    plan_law();
    match render_here(alloc, scene, renderer) {
        Ok(rendered) => Showing::of_rendered(rendered),
        Err(renderer) => Showing::nothing(alloc, renderer.into_sink()),
    }
}

/// Shows a scene as `show_scene`, on this thread alone: it plays one encoder after another, renders each frame where it ends, and
/// puts each picture's text into the sink, in order. It asks for no leave: it starts no thread, and waits for none.
///
/// The scene is one that was read, or keeps the same bounds. The sink comes back. `PictureFault` only where its count of faults rose
/// in this call: then a front of the texts was put. For want of memory the whole texts of the first frames were put, and not of all.
///
/// The journal that comes back is the scene's journal of one thread where all was shown, and else a front of it.
pub fn show_here<P: Sink + Drop>(alloc: Global, scene: &Scene, sink: P) -> Showing<P>
    requires readable { IsReadable (scene_seen scene.now) }
    requires bounded { IsBounded (scene_seen scene.now) }
    ensures shown { IsShowing result.end (scene_seen scene.now) (journal_seen result.journal) (P.held sink) (P.held result.sink) (P.faults sink) (P.faults result.sink) }
    ensures counted { IsCounted result.end (scene_seen scene.now) (journal_seen result.journal) (map note_seen result.notes.items) (P.tally sink) (P.tally result.sink) }
    ensures sure { P.sure result.sink ≡ P.sure sink }
    ensures no_fewer { P.faults sink ≤ P.faults result.sink }
    ensures whole { result.end ≡ ends.Done → journal_seen result.journal ≡ serial (scene_seen scene.now) }
    ensures front { journal_seen result.journal ≡ take (length (journal_seen result.journal)) (serial (scene_seen scene.now)) }
{
    match Renderer::new(alloc, scene.width, scene.height, sink) {
        Ok(renderer) => show_by(alloc, scene, renderer),
        Err(sink) => Showing::nothing(alloc, sink),
    }
}
