// Renders the frames that come by a link, until it stops.
ghost use Rattle.std.specs.Prelude.{◌≡◌, suc};
ghost use Rattle.frame_record.specs.Links.{frames_of};
ghost use Rattle.frame_swap.specs.Ends.{render_knows};
ghost use Rattle.render_core.specs.Rendered.{seen_by};
ghost use Rattle.render_core.specs.Run.{IsRun};

use crate::renderer::Renderer;
use frame_swap::RenderEnd;
use int_raster::Rasterizer;
use io_edge::{Gate, Sink};
use std::sync::Wait;

/// The number by which a gate knows the renderer.
const RENDERER: u8 = 255;

fn serve<P: Sink, D: Rasterizer + Drop, R: Wait, G: Gate>(
    rt: &R,
    mut renderer: Renderer<P>,
    mut rasterizer: D,
    mut end: RenderEnd,
    gate: &G,
) -> (Renderer<P>, RenderEnd)
    requires { (render_knows end).taken ≡ frames_of (render_knows end).returned }
    ensures run { IsRun (seen_by P.held P.tally P.faults P.sure renderer) end (seen_by P.held P.tally P.faults P.sure result.0) result.1 }
    ensures stopped { (render_knows result.1).stops ≡ suc (render_knows end).stops }
{
    for _ in rt.forever() {
        let Some(frame) = end.take(rt) else {
            break;
        };
        gate.at(RENDERER, frame.number);
        let rendered = renderer.render(&mut rasterizer, frame);
        end.give_back(rendered);
    }
    (renderer, end)
}

impl<P: Sink> Renderer<P> {
    /// Renders each frame that the end takes, in order, by the rasterizer, and gives it back with the outcome of its render, until the
    /// end finds the stop; it returns only then. Each frame that the end took before was given back. Before each frame the gate is called with 255
    /// and the frame's number. It may wait for the thread that gives the frames.
    pub fn run<D: Rasterizer + Drop, R: Wait, G: Gate>(
        self,
        rt: &R,
        rasterizer: D,
        end: RenderEnd,
        gate: &G,
    ) -> (Renderer<P>, RenderEnd)
        requires { (render_knows end).taken ≡ frames_of (render_knows end).returned }
        ensures run { IsRun (seen_by P.held P.tally P.faults P.sure self) end (seen_by P.held P.tally P.faults P.sure result.0) result.1 }
        ensures stopped { (render_knows result.1).stops ≡ suc (render_knows end).stops }
    {
        serve(rt, self, rasterizer, end, gate)
    }
}
