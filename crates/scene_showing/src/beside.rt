// Frames that a thread of its own renders.
ghost use Rattle.std.specs.Prelude.{◌≡◌, [], map, IfOk, IfErr};
ghost use Rattle.spelling_model.specs.Readable.{IsReadable};
ghost use Rattle.scene_text.specs.Bounds.{IsBounded};
ghost use Rattle.scene_text.specs.Seen.{journal_seen, scene_seen};
ghost use Rattle.frame_record.specs.Links.{frames_of};
ghost use Rattle.frame_swap.specs.Ends.{api_table, api_knows, latency_of, render_table, render_knows};
ghost use Rattle.render_core.specs.Rendered.{seen_by};
ghost use Rattle.render_core.specs.Run.{IsRun};
ghost use Rattle.scene_playing.specs.Frames.{note_seen};
ghost use Rattle.scene_showing.specs.Rendered.{AreShown};

use crate::rendered::Rendered;
use frame_swap::{ApiEnd, RenderEnd, WaitingEnd};
use io_edge::{Gate, Sink};
use render_core::{BandRasterizer, Renderer};
use scene_playing::{Played, play_frames};
use scene_text::Scene;
use std::alloc::Global;
use std::snapshot::Snapshot;
use std::sync::Wait;
use std::thread;
use std::thread::{Promise, Threads};

/// What the thread that renders promises: that its renderer rendered each frame that its end took, and its end gave it back.
#[derive(Drop)]
struct Run<P>(Snapshot<Renderer<P>>, Snapshot<RenderEnd>);

impl<P: Sink> Promise<(Renderer<P>, RenderEnd)> for Run<P> {
    ghost use Rattle.render_core.specs.Rendered.{seen_by};
    ghost use Rattle.render_core.specs.Run.{IsRun};

    ghost kept_by = { λ p r. IsRun (seen_by P.held P.tally P.faults P.sure p.0.value) p.1.value (seen_by P.held P.tally P.faults P.sure r.0) r.1 };
}

/// Plays the frames of a scene, and renders them in a thread of its own, by two ends at which nothing was given. `Err` with the
/// renderer as it was, where no thread can be started; then nothing was played.
pub(crate) fn render_beside<P: Sink + Send + Drop, R: Threads + Wait + Sync, G: Gate + Sync>(
    rt: &R,
    gate: &G,
    alloc: Global,
    scene: &Scene,
    renderer: Renderer<P>,
    api: ApiEnd,
    end: RenderEnd,
) -> Result<Rendered<P>, Renderer<P>>
    requires readable { IsReadable (scene_seen scene.now) }
    requires bounded { IsBounded (scene_seen scene.now) }
    requires api { ((api_knows api).given ≡ []) × ((api_knows api).back ≡ []) × (latency_of api ≡ scene.now.latency) × (render_table end ≡ api_table api) }
    requires end { ((render_knows end).taken ≡ []) × ((render_knows end).returned ≡ []) }
    ensures shown { IfOk result (λ r. AreShown (scene_seen scene.now) (seen_by P.held P.tally P.faults P.sure renderer) (journal_seen r.journal) (map note_seen r.notes.items) r.outcome r.is_whole (seen_by P.held P.tally P.faults P.sure r.renderer)) }
    ensures refused { IfErr result (λ r. seen_by P.held P.tally P.faults P.sure r ≡ seen_by P.held P.tally P.faults P.sure renderer) }
{
    thread::scope(
        thread::scope_env(),
        rt,
        |scope|
            requires readable { IsReadable (scene_seen scene.now) }
            requires bounded { IsBounded (scene_seen scene.now) }
            requires api { ((api_knows api).given ≡ []) × ((api_knows api).back ≡ []) × (latency_of api ≡ scene.now.latency) × (render_table end ≡ api_table api) }
            requires end { ((render_knows end).taken ≡ []) × ((render_knows end).returned ≡ []) }
            ensures shown { IfOk result (λ r. AreShown (scene_seen scene.entry.now) (seen_by P.held P.tally P.faults P.sure renderer) (journal_seen r.journal) (map note_seen r.notes.items) r.outcome r.is_whole (seen_by P.held P.tally P.faults P.sure r.renderer)) }
            ensures refused { IfErr result (λ r. seen_by P.held P.tally P.faults P.sure r ≡ seen_by P.held P.tally P.faults P.sure renderer) }
        {
            let promise = Run(Snapshot::of(&renderer), Snapshot::of(&end));
            let job = move || -> (Renderer<P>, RenderEnd)
                requires { (render_knows end).taken ≡ frames_of (render_knows end).returned }
                ensures { IsRun (seen_by P.held P.tally P.faults P.sure renderer) end (seen_by P.held P.tally P.faults P.sure result.0) result.1 }
            { renderer.run(rt, BandRasterizer::new(rt), end, gate) };
            match scope.spawn_with(promise, job) {
                Ok(handle) => {
                    let link = WaitingEnd::new(api, rt);
                    let played = play_frames(rt, gate, alloc, scene, link);
                    let Played {
                        link,
                        journal,
                        notes,
                        outcome,
                        is_whole,
                    } = played;
                    let mut given = link.into_end();
                    given.stop();
                    let (renderer, end) = handle.join(rt);
                    given.close(end);
                    Ok(Rendered {
                        renderer,
                        journal,
                        notes,
                        outcome,
                        is_whole,
                    })
                }
                Err(refused) => {
                    let mut api = api;
                    api.stop();
                    let (renderer, end) = (refused.value)();
                    api.close(end);
                    Err(renderer)
                }
            }
        },
    )
}
