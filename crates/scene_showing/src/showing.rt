// A scene's pictures, by a thread that renders beside the play.
ghost use Rattle.std.specs.Prelude.{◌≡◌, ◌≤◌, [], map, IfOk, IfErr};
ghost use Rattle.spelling_model.specs.Readable.{IsReadable};
ghost use Rattle.scene_text.specs.Bounds.{IsBounded};
ghost use Rattle.scene_text.specs.Seen.{journal_seen, scene_seen};
ghost use Rattle.render_core.specs.Rendered.{seen_by};
ghost use Rattle.scene_playing.specs.Frames.{note_seen};
ghost use Rattle.scene_playing.specs.Order.{order_seen, Follows};
ghost use Rattle.scene_showing.specs.Rendered.{IsNew, AreShown};
ghost use Rattle.scene_showing.specs.Showing.{end_of, IsShowing, IsCounted};
ghost use Rattle.scene_showing.specs.declared.showing.End.TheVariants as ends;

use crate::beside::render_beside;
use crate::in_place::render_in_place;
use crate::rendered::Rendered;
use frame_record::Outcome;
use frame_swap::swap_pair;
use io_edge::{Gate, Sink};
use render_core::Renderer;
use render_core::laws::{kept_law, texts_law};
use scene_laws::{colors_law, scene_pictures_law};
use scene_playing::FrameNote;
use scene_progress::{front_law, lawful_law, plan_law};
use scene_text::{Journal, Scene, Sequence};
use std::alloc::Global;
use std::sync::Wait;
use std::thread::Threads;

/// How the pictures of a scene were shown.
#[derive(Clone, Copy, Debug, PartialEq, Eq, Drop)]
pub enum End {
    /// Each frame's picture was put whole.
    Done,
    /// The sink failed.
    PictureFault,
    /// Memory ran out.
    OutOfMemory,
}

/// What a scene leaves that was shown.
#[derive(Drop)]
pub struct Showing<P: Drop> {
    pub sink: P,
    /// The items of each frame that ended, in the order in which they were numbered, which is lawful for the scene.
    pub journal: Journal,
    /// What each frame that ended notes, one each.
    pub notes: Vec<FrameNote>,
    pub end: End,
}

/// Plays a scene with recorder threads, renders its frames in a thread of its own, and puts each picture's text into the sink, in
/// order. Where no thread can be started for the renderer, the frames are rendered in place.
///
/// The scene is one that was read, or keeps the same bounds. The sink comes back. `PictureFault` only where its count of faults rose
/// in this call: then a front of the texts was put. For want of memory the whole texts of the first frames were put, and not of all.
pub fn show_scene<P: Sink + Send + Drop, R: Threads + Wait + Sync, G: Gate + Sync>(
    rt: &R,
    gate: &G,
    alloc: Global,
    scene: &Scene,
    sink: P,
) -> Showing<P>
    requires readable { IsReadable (scene_seen scene.now) }
    requires bounded { IsBounded (scene_seen scene.now) }
    ensures shown { IsShowing result.end (scene_seen scene.now) (journal_seen result.journal) (P.held sink) (P.held result.sink) (P.faults sink) (P.faults result.sink) }
    ensures counted { IsCounted result.end (scene_seen scene.now) (journal_seen result.journal) (map note_seen result.notes.items) (P.tally sink) (P.tally result.sink) }
    ensures sure { P.sure result.sink ≡ P.sure sink }
    ensures no_fewer { P.faults sink ≤ P.faults result.sink }
{
    match Renderer::new(alloc, scene.width, scene.height, sink) {
        Ok(renderer) => show_with(rt, gate, alloc, None, scene, renderer),
        Err(sink) => Showing::nothing(alloc, sink),
    }
}

/// The same with a renderer that has rendered nothing, in an order where one is given.
pub(crate) fn show_with<P: Sink + Send + Drop, R: Threads + Wait + Sync, G: Gate + Sync>(
    rt: &R,
    gate: &G,
    alloc: Global,
    order: Option<&Journal>,
    scene: &Scene,
    renderer: Renderer<P>,
) -> Showing<P>
    requires readable { IsReadable (scene_seen scene.now) }
    requires bounded { IsBounded (scene_seen scene.now) }
    requires new { IsNew (scene_seen scene.now) (seen_by P.held P.tally P.faults P.sure renderer) }
    ensures shown { IsShowing result.end (scene_seen scene.now) (journal_seen result.journal) (P.held renderer.sink) (P.held result.sink) (P.faults renderer.sink) (P.faults result.sink) }
    ensures counted { IsCounted result.end (scene_seen scene.now) (journal_seen result.journal) (map note_seen result.notes.items) (P.tally renderer.sink) (P.tally result.sink) }
    ensures follows { Follows (order_seen order.entry) (journal_seen result.journal) }
    ensures sure { P.sure result.sink ≡ P.sure renderer.sink }
    ensures no_fewer { P.faults renderer.sink ≤ P.faults result.sink }
{
    texts_law();
    kept_law();
    scene_pictures_law();
    colors_law();
    front_law();
    lawful_law();
    plan_law();
    match render(rt, gate, alloc, order, scene, renderer) {
        Ok(rendered) => Showing::of_rendered(rendered),
        Err(renderer) => Showing::nothing(alloc, renderer.into_sink()),
    }
}

/// Plays the frames of a scene, and renders them, by a thread of its own, or in place where none can be started or an order is given. `Err` with the
/// renderer as it was, for want of memory; then nothing was played.
fn render<P: Sink + Send + Drop, R: Threads + Wait + Sync, G: Gate + Sync>(
    rt: &R,
    gate: &G,
    alloc: Global,
    order: Option<&Journal>,
    scene: &Scene,
    renderer: Renderer<P>,
) -> Result<Rendered<P>, Renderer<P>>
    requires readable { IsReadable (scene_seen scene.now) }
    requires bounded { IsBounded (scene_seen scene.now) }
    ensures shown { IfOk result (λ r. AreShown (scene_seen scene.now) (seen_by P.held P.tally P.faults P.sure renderer) (journal_seen r.journal) (map note_seen r.notes.items) r.outcome r.is_whole (seen_by P.held P.tally P.faults P.sure r.renderer)) }
    ensures follows { IfOk result (λ r. Follows (order_seen order.entry) (journal_seen r.journal)) }
    ensures refused { IfErr result (λ r. seen_by P.held P.tally P.faults P.sure r ≡ seen_by P.held P.tally P.faults P.sure renderer) }
{
    if order.is_some() {
        return render_in_place(rt, gate, alloc, order, scene, renderer);
    }
    let Ok((api, end)) = swap_pair(alloc, scene.latency) else {
        return Err(renderer);
    };
    match render_beside(rt, gate, alloc, scene, renderer, api, end) {
        Ok(rendered) => Ok(rendered),
        Err(renderer) => render_in_place(rt, gate, alloc, order, scene, renderer),
    }
}

impl<P: Drop> Showing<P> {
    /// Nothing was played, for want of memory.
    pub(crate) fn nothing(alloc: Global, sink: P) -> Showing<P>
        ensures sink { result.sink ≡ sink }
        ensures journal { journal_seen result.journal ≡ [] }
        ensures notes { result.notes.items ≡ [] }
        ensures end { result.end ≡ ends.OutOfMemory }
    {
        Showing {
            sink,
            journal: Journal {
                frames: Sequence::new(alloc),
            },
            notes: Vec::new(alloc),
            end: End::OutOfMemory,
        }
    }
}

impl<P: Sink + Drop> Showing<P> {
    /// What rendered frames leave, without the renderer.
    pub(crate) fn of_rendered(rendered: Rendered<P>) -> Showing<P>
        ensures sink { result.sink ≡ rendered.renderer.sink }
        ensures same { (result.journal ≡ rendered.journal) × (result.notes ≡ rendered.notes) }
        ensures end { result.end ≡ end_of rendered.outcome rendered.is_whole }
    {
        let Rendered {
            renderer,
            journal,
            notes,
            outcome,
            is_whole,
        } = rendered;
        Showing {
            sink: renderer.into_sink(),
            journal,
            notes,
            end: end_of(outcome, is_whole),
        }
    }
}

/// How a scene ends by the outcome of its first frame that was not shown, and whether all frames were given.
fn end_of(outcome: Outcome, is_whole: bool) -> End
    ensures { result ≡ end_of outcome is_whole }
{
    match outcome {
        Outcome::Shown if is_whole => End::Done,
        Outcome::PictureFault => End::PictureFault,
        _ => End::OutOfMemory,
    }
}
