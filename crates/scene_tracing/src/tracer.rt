// Traces one frame behind those before it.
ghost use Rattle.std.specs.Prelude.{◌≡◌, ◌≤◌, ◌<◌, ◌+◌, ◌∷◌, ◌++◌, [], true, List, None, Some, IfOk, IfSome};
ghost use Rattle.store_laws.specs.ByIndex.{frame_by_index};
ghost use Rattle.frame_record.specs.declared.frame.Frame.{Frame};
ghost use Rattle.render_stores.specs.Seen.{stores_seen};
ghost use Rattle.render_core.specs.Seen.{frame_seen};
ghost use Rattle.scene_tracing.specs.Tracing.{IsTracedIn, HasTraced, Traces};

use crate::asked::Asked;
use crate::history::{History, Spot};
use frame_record::{Frame, Outcome, RenderedFrame};
use io_edge::SureSink;
use pixel_ops::Pixel;
use render_core::{Renderer, SerialRasterizer};
use std::alloc::{AllocError, Global};
use trace_lines::doers_of;

/// Renders the frames before the one asked for, and traces that one. Frames after it are left alone.
#[derive(Drop)]
pub(crate) struct Tracer {
    alloc: Global,
    renderer: Renderer<SureSink>,
    asked: Asked,
    left: u32,
    history: Option<History>,
    is_whole: bool,
}

/// Renders a frame. Answers the frame, and whether it was rendered.
pub(crate) fn render_one(renderer: &mut Renderer<SureSink>, frame: Frame) -> (Frame, bool)
    ensures frame { result.0 ≡ frame }
    ensures stores { result.1 ≡ true → stores_seen renderer.new.canvas.stores ≡ frame_by_index (stores_seen renderer.old.canvas.stores) (frame_seen frame) }
{
    let RenderedFrame { frame, outcome } = renderer.render(&mut SerialRasterizer, frame);
    match outcome {
        Outcome::Shown => (frame, true),
        _ => (frame, false),
    }
}

/// Traces a frame. `Err` for want of memory, or where the back buffer has no such pixel.
fn trace_one(
    alloc: Global,
    renderer: &mut Renderer<SureSink>,
    frame: &Frame,
    spot: Spot,
) -> Result<History, AllocError>
    requires { spot.x < 65535 }
    ensures { IfOk result (λ t. IsTracedIn (stores_seen renderer.old.canvas.stores) spot.x spot.y frame.now t) }
{
    let Some(before) = renderer.pixel(spot.x, spot.y) else {
        return Err(AllocError);
    };
    let doers = doers_of(alloc, frame)?;
    let made = renderer.trace(&mut SerialRasterizer, frame, spot.x, spot.y)?;
    Ok(History {
        before,
        made,
        doers,
    })
}

impl Tracer {
    /// A tracer that was given no frame. The sides are 1 to 2,048. `Err` only for want of memory.
    pub(crate) fn new(alloc: Global, asked: Asked) -> Result<Tracer, AllocError>
        requires wide { 1 ≤ asked.width }
        requires high { 1 ≤ asked.height }
        requires narrow { asked.width ≤ 2048 }
        requires low { asked.height ≤ 2048 }
        ensures asked { IfOk result (λ t. t.asked ≡ asked) }
        ensures traces { IfOk result (λ t. Traces t []) }
    {
        match Renderer::new(alloc, asked.width, asked.height, SureSink::new()) {
            Ok(renderer) => Ok(Tracer {
                alloc,
                renderer,
                asked,
                left: asked.spot.frame,
                history: None,
                is_whole: true,
            }),
            Err(_) => Err(AllocError),
        }
    }

    /// Renders a frame before the one asked for.
    fn render(&mut self, frame: Frame) -> Frame
        requires some { 0 < self.old.left }
        requires whole { self.old.is_whole ≡ true }
        requires none { self.old.history ≡ None }
        ensures frame { result ≡ frame }
        ensures asked { self.new.asked ≡ self.old.asked }
        ensures traces { (frames : List Frame) → Traces self.old frames → Traces self.new (frames ++ frame ∷ []) }
    {
        let (frame, is_rendered) = render_one(&mut self.renderer, frame);
        self.is_whole = is_rendered;
        self.left -= 1;
        frame
    }

    /// Traces the frame asked for.
    fn trace(&mut self, frame: &Frame)
        requires here { self.old.left ≡ 0 }
        requires whole { self.old.is_whole ≡ true }
        requires none { self.old.history ≡ None }
        ensures asked { self.new.asked ≡ self.old.asked }
        ensures traces { (frames : List Frame) → Traces self.old frames → Traces self.new (frames ++ frame.now ∷ []) }
    {
        if self.asked.spot.x == 65535 {
            self.is_whole = false;
            return;
        }
        match trace_one(self.alloc, &mut self.renderer, frame, self.asked.spot) {
            Ok(history) => self.history = Some(history),
            Err(_) => self.is_whole = false,
        }
    }

    /// Takes the next frame, and gives it back.
    pub(crate) fn take(&mut self, frame: Frame) -> Frame
        ensures frame { result ≡ frame }
        ensures asked { self.new.asked ≡ self.old.asked }
        ensures traces { (frames : List Frame) → Traces self.old frames → Traces self.new (frames ++ frame ∷ []) }
    {
        if !self.is_whole || self.history.is_some() {
            return frame;
        }
        if self.left > 0 {
            return self.render(frame);
        }
        self.trace(&frame);
        frame
    }

    /// The history of the pixel. `None` where the frame asked for was not given, or memory was wanting.
    pub(crate) fn into_history(self) -> Option<History>
        ensures { IfSome result (λ t. (frames : List Frame) → Traces self frames → HasTraced self.asked frames t) }
    {
        if !self.is_whole {
            return None;
        }
        self.history
    }
}
