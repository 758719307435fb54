// Frames that are rendered in place.
ghost use Rattle.std.specs.Prelude.{◌≡◌, [], map, IfOk, IfErr};
ghost use Rattle.spelling_model.specs.Readable.{IsReadable};
ghost use Rattle.scene_text.specs.Bounds.{IsBounded};
ghost use Rattle.scene_text.specs.Seen.{journal_seen, scene_seen};
ghost use Rattle.render_core.specs.Rendered.{seen_by};
ghost use Rattle.scene_playing.specs.Frames.{note_seen, ArePlayed};
ghost use Rattle.scene_playing.specs.Order.{order_seen, Follows};
ghost use Rattle.scene_showing.specs.Rendered.{AreShown};

use crate::rendered::Rendered;
use frame_record::FrameLink;
use io_edge::{Gate, Sink};
use render_core::{BandRasterizer, InPlaceLink, Renderer};
use scene_playing::{Played, play_frames, play_here};
use scene_text::{Journal, Scene};
use std::alloc::Global;
use std::sync::Wait;
use std::thread::Threads;

/// Plays the frames of a scene by a link, on threads, or in the order that is given on this thread.
fn play_by<L: FrameLink + Drop, R: Threads + Wait + Sync, G: Gate + Sync>(
    rt: &R,
    gate: &G,
    alloc: Global,
    order: Option<&Journal>,
    scene: &Scene,
    link: L,
) -> Played<L>
    requires readable { IsReadable (scene_seen scene.now) }
    requires bounded { IsBounded (scene_seen scene.now) }
    requires latency { L.latency link ≡ scene.now.latency }
    requires none { (L.given link ≡ []) × (L.back link ≡ []) }
    ensures played { ArePlayed (scene_seen scene.now) (L.given result.link) (L.back result.link) (journal_seen result.journal) (map note_seen result.notes.items) result.outcome result.is_whole }
    ensures origin { L.origin result.link ≡ L.origin link }
    ensures follows { Follows (order_seen order.entry) (journal_seen result.journal) }
{
    match order {
        None => play_frames(rt, gate, alloc, scene, link),
        Some(_) => play_here(alloc, order, scene, link),
    }
}

/// Plays the frames of a scene, in an order where one is given, and renders each where it is given. `Err` with the renderer as it was, for want of memory; then
/// nothing was played.
pub(crate) fn render_in_place<P: Sink + Drop, R: Threads + Wait + Sync, G: Gate + Sync>(
    rt: &R,
    gate: &G,
    alloc: Global,
    order: Option<&Journal>,
    scene: &Scene,
    renderer: Renderer<P>,
) -> Result<Rendered<P>, Renderer<P>>
    requires readable { IsReadable (scene_seen scene.now) }
    requires bounded { IsBounded (scene_seen scene.now) }
    ensures shown { IfOk result (λ r. AreShown (scene_seen scene.now) (seen_by P.held P.tally P.faults P.sure renderer) (journal_seen r.journal) (map note_seen r.notes.items) r.outcome r.is_whole (seen_by P.held P.tally P.faults P.sure r.renderer)) }
    ensures follows { IfOk result (λ r. Follows (order_seen order.entry) (journal_seen r.journal)) }
    ensures refused { IfErr result (λ r. r ≡ renderer) }
{
    let link = InPlaceLink::new(alloc, renderer, BandRasterizer::new(rt), scene.latency)?;
    let played = play_by(rt, gate, alloc, order, scene, link);
    let Played {
        link,
        journal,
        notes,
        outcome,
        is_whole,
    } = played;
    Ok(Rendered {
        renderer: link.into_renderer(),
        journal,
        notes,
        outcome,
        is_whole,
    })
}
