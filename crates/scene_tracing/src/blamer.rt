// Finds to which deed of a frame each pixel is due, behind the frames before it.
ghost use Rattle.std.specs.Prelude.{◌≡◌, ◌≤◌, ◌<◌, ◌∷◌, ◌++◌, [], List, None, Some, IfOk, IfSome};
ghost use Rattle.frame_record.specs.declared.frame.Frame.{Frame};
ghost use Rattle.render_stores.specs.Seen.{stores_seen};
ghost use Rattle.scene_tracing.specs.Blaming.{Blames, BlamesWith, HasBlamed, IsBlamedIn};

use crate::asked::AskedFrame;
use crate::blamed::Blamed;
use crate::tracer::render_one;
use frame_blame::blame;
use frame_record::Frame;
use io_edge::SureSink;
use render_core::{Renderer, SerialRasterizer};
use render_stores::RenderStores;
use std::alloc::{AllocError, Global};

/// Renders the frames before the one asked for, and finds to which of that one's deeds each pixel is due. Frames after it are left alone. It
/// has a renderer until then, and while memory was not wanting.
#[derive(Drop)]
pub(crate) struct Blamer {
    alloc: Global,
    asked: AskedFrame,
    left: u32,
    renderer: Option<Renderer<SureSink>>,
    blamed: Option<Blamed>,
}

/// To which deed of a frame each pixel is due, on stores. `None` for want of memory.
fn blame_one(alloc: Global, stores: &mut RenderStores, frame: &Frame) -> Option<Blamed>
    ensures { IfSome result (λ b. IsBlamedIn (stores_seen stores.old) frame.now b) }
{
    let (width, height) = (stores.back.color.width, stores.back.color.height);
    match blame(alloc, &mut SerialRasterizer, stores, frame) {
        Ok(numbers) => Some(Blamed {
            width,
            height,
            numbers,
        }),
        Err(_) => None,
    }
}

impl Blamer {
    /// A blamer that was given no frame. The sides are 1 to 2,048. `Err` only for want of memory.
    pub(crate) fn new(alloc: Global, asked: AskedFrame) -> Result<Blamer, AllocError>
        requires wide { 1 ≤ asked.width }
        requires high { 1 ≤ asked.height }
        requires narrow { asked.width ≤ 2048 }
        requires low { asked.height ≤ 2048 }
        ensures asked { IfOk result (λ t. t.asked ≡ asked) }
        ensures blames { IfOk result (λ t. ∥ Blames t [] ∥₁) }
    {
        match Renderer::new(alloc, asked.width, asked.height, SureSink::new()) {
            Ok(renderer) => Ok(Blamer {
                alloc,
                asked,
                left: asked.frame,
                renderer: Some(renderer),
                blamed: None,
            }),
            Err(_) => Err(AllocError),
        }
    }

    /// Renders a frame before the one asked for.
    fn render(&mut self, renderer: Renderer<SureSink>, frame: Frame) -> Frame
        requires some { 0 < self.old.left }
        requires taken { self.old.renderer ≡ None }
        requires none { self.old.blamed ≡ None }
        ensures frame { result ≡ frame }
        ensures asked { self.new.asked ≡ self.old.asked }
        ensures blames { (frames : List Frame) → ∥ BlamesWith self.old renderer frames ∥₁ → ∥ Blames self.new (frames ++ frame ∷ []) ∥₁ }
    {
        let mut renderer = renderer;
        let (frame, is_rendered) = render_one(&mut renderer, frame);
        if is_rendered {
            self.renderer = Some(renderer);
            self.left -= 1;
        }
        frame
    }

    /// Finds to which deed each pixel of the frame asked for is due.
    fn blame(&mut self, renderer: Renderer<SureSink>, frame: &Frame)
        requires here { self.old.left ≡ 0 }
        requires taken { self.old.renderer ≡ None }
        requires none { self.old.blamed ≡ None }
        ensures asked { self.new.asked ≡ self.old.asked }
        ensures blames { (frames : List Frame) → ∥ BlamesWith self.old renderer frames ∥₁ → ∥ Blames self.new (frames ++ frame.now ∷ []) ∥₁ }
    {
        let mut stores = renderer.into_stores();
        self.blamed = blame_one(self.alloc, &mut stores, frame);
    }

    /// Takes the next frame with the renderer, and gives the frame back.
    fn take_with(&mut self, renderer: Renderer<SureSink>, frame: Frame) -> Frame
        requires taken { self.old.renderer ≡ None }
        ensures frame { result ≡ frame }
        ensures asked { self.new.asked ≡ self.old.asked }
        ensures blames { (frames : List Frame) → ∥ BlamesWith self.old renderer frames ∥₁ → ∥ Blames self.new (frames ++ frame ∷ []) ∥₁ }
    {
        if self.blamed.is_some() {
            return frame;
        }
        if self.left > 0 {
            return self.render(renderer, frame);
        }
        self.blame(renderer, &frame);
        frame
    }

    /// Takes the next frame, and gives it back.
    pub(crate) fn take(&mut self, frame: Frame) -> Frame
        ensures frame { result ≡ frame }
        ensures asked { self.new.asked ≡ self.old.asked }
        ensures blames { (frames : List Frame) → ∥ Blames self.old frames ∥₁ → ∥ Blames self.new (frames ++ frame ∷ []) ∥₁ }
    {
        match self.renderer.take() {
            Some(renderer) => self.take_with(renderer, frame),
            None => frame,
        }
    }

    /// The numbers. `None` where the frame asked for was not given, or memory was wanting.
    pub(crate) fn into_blamed(self) -> Option<Blamed>
        ensures { (frames : List Frame) → ∥ Blames self frames ∥₁ → IfSome result (λ b. ∥ HasBlamed self.asked frames b ∥₁) }
    {
        self.blamed
    }
}
