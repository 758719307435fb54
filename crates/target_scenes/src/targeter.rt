// Finds what a pixel of a frame buffer goes through in a frame, behind the frames before it.
ghost use Rattle.std.specs.Prelude.{true, ◌≡◌, ◌≤◌, ◌<◌, ◌∷◌, ◌++◌, [], List, None, Some, IfOk, IfSome};
ghost use Rattle.store_laws.specs.ByIndex.{frame_by_index};
ghost use Rattle.render_core.specs.Seen.{frame_seen};
ghost use Rattle.frame_record.specs.declared.frame.Frame.{Frame};
ghost use Rattle.render_stores.specs.Seen.{stores_seen};
ghost use Rattle.target_scenes.specs.Finding.{Finds, FindsWith, HasFound, IsFoundIn};

use crate::asked::AskedTarget;
use crate::found::Found;
use frame_record::{Frame, Outcome, RenderedFrame};
use io_edge::SureSink;
use render_core::{Renderer, SerialRasterizer};
use render_stores::RenderStores;
use std::alloc::{AllocError, Global};
use target_tracing::{TargetSpot, trace_target};

/// Renders the frames before the one asked for, and traces that one. Frames after it are left alone. It
/// has a renderer until then, and while memory was not wanting.
#[derive(Drop)]
pub(crate) struct Targeter {
    alloc: Global,
    asked: AskedTarget,
    left: u32,
    renderer: Option<Renderer<SureSink>>,
    found: Option<Found>,
}

/// Renders a frame. Answers the frame, and whether it was rendered.
fn render_one(renderer: &mut Renderer<SureSink>, frame: Frame) -> (Frame, bool)
    ensures frame { result.0 ≡ frame }
    ensures stores { result.1 ≡ true → stores_seen renderer.new.canvas.stores ≡ frame_by_index (stores_seen renderer.old.canvas.stores) (frame_seen frame) }
{
    let RenderedFrame { frame, outcome } = renderer.render(&mut SerialRasterizer, frame);
    match outcome {
        Outcome::Shown => (frame, true),
        _ => (frame, false),
    }
}

/// What a pixel of a frame buffer goes through in a frame, on stores. `None` for want of memory.
fn trace_one(
    alloc: Global,
    stores: &mut RenderStores,
    frame: &Frame,
    spot: TargetSpot,
) -> Option<Found>
    ensures { IfSome result (λ b. IsFoundIn spot (stores_seen stores.old) frame.now b) }
{
    match trace_target(alloc, &mut SerialRasterizer, stores, frame, spot) {
        Ok(history) => Some(Found { history }),
        Err(_) => None,
    }
}

impl Targeter {
    /// A targeter that was given no frame. The sides are 1 to 2,048. `Err` only for want of memory.
    pub(crate) fn new(
        alloc: Global,
        width: u16,
        height: u16,
        frame: u32,
        spot: TargetSpot,
    ) -> Result<Targeter, AllocError>
        requires wide { 1 ≤ width }
        requires high { 1 ≤ height }
        requires narrow { width ≤ 2048 }
        requires low { height ≤ 2048 }
        ensures asked { IfOk result (λ t. t.asked ≡ record { width = width; height = height; frame = frame; spot = spot }) }
        ensures finds { IfOk result (λ t. ∥ Finds t [] ∥₁) }
    {
        match Renderer::new(alloc, width, height, SureSink::new()) {
            Ok(renderer) => Ok(Targeter {
                alloc,
                asked: AskedTarget {
                    width,
                    height,
                    frame,
                    spot,
                },
                left: frame,
                renderer: Some(renderer),
                found: None,
            }),
            Err(_) => Err(AllocError),
        }
    }

    /// Renders a frame before the one asked for.
    fn render(&mut self, renderer: Renderer<SureSink>, frame: Frame) -> Frame
        requires some { 0 < self.old.left }
        requires taken { self.old.renderer ≡ None }
        requires none { self.old.found ≡ None }
        ensures frame { result ≡ frame }
        ensures asked { self.new.asked ≡ self.old.asked }
        ensures finds { (frames : List Frame) → ∥ FindsWith self.old renderer frames ∥₁ → ∥ Finds self.new (frames ++ frame ∷ []) ∥₁ }
    {
        let mut renderer = renderer;
        let (frame, is_rendered) = render_one(&mut renderer, frame);
        if is_rendered {
            self.renderer = Some(renderer);
            self.left -= 1;
        }
        frame
    }

    /// Traces the frame asked for.
    fn trace(&mut self, renderer: Renderer<SureSink>, frame: &Frame)
        requires here { self.old.left ≡ 0 }
        requires taken { self.old.renderer ≡ None }
        requires none { self.old.found ≡ None }
        ensures asked { self.new.asked ≡ self.old.asked }
        ensures finds { (frames : List Frame) → ∥ FindsWith self.old renderer frames ∥₁ → ∥ Finds self.new (frames ++ frame.now ∷ []) ∥₁ }
    {
        let mut stores = renderer.into_stores();
        self.found = trace_one(self.alloc, &mut stores, frame, self.asked.spot);
    }

    /// Takes the next frame with the renderer, and gives the frame back.
    fn take_with(&mut self, renderer: Renderer<SureSink>, frame: Frame) -> Frame
        requires taken { self.old.renderer ≡ None }
        ensures frame { result ≡ frame }
        ensures asked { self.new.asked ≡ self.old.asked }
        ensures finds { (frames : List Frame) → ∥ FindsWith self.old renderer frames ∥₁ → ∥ Finds self.new (frames ++ frame ∷ []) ∥₁ }
    {
        if self.found.is_some() {
            return frame;
        }
        if self.left > 0 {
            return self.render(renderer, frame);
        }
        self.trace(renderer, &frame);
        frame
    }

    /// Takes the next frame, and gives it back.
    pub(crate) fn take(&mut self, frame: Frame) -> Frame
        ensures frame { result ≡ frame }
        ensures asked { self.new.asked ≡ self.old.asked }
        ensures finds { (frames : List Frame) → ∥ Finds self.old frames ∥₁ → ∥ Finds self.new (frames ++ frame ∷ []) ∥₁ }
    {
        match self.renderer.take() {
            Some(renderer) => self.take_with(renderer, frame),
            None => frame,
        }
    }

    /// What was found. `None` where the frame asked for was not given, or memory was wanting.
    pub(crate) fn into_found(self) -> Option<Found>
        ensures { (frames : List Frame) → ∥ Finds self frames ∥₁ → IfSome result (λ b. ∥ HasFound self.asked frames b ∥₁) }
    {
        self.found
    }
}
