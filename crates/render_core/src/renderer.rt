// Renders one frame after another.
ghost use Rattle.std.specs.Prelude.{◌≡◌, ◌⊎◌, ◌≤◌, ◌<◌, ℕ, List, [], map, false, IfOk, IfErr, MatchOption};
ghost use Rattle.io_edge.specs.Edge.{with_back};
ghost use Rattle.gfx_model.specs.World.{World, FrameContent, first_world, frame_step};
ghost use Rattle.scene_model.specs.Output.{picture_text};
ghost use Rattle.store_laws.specs.ByIndex.{first_stores};
ghost use Rattle.store_laws.specs.Says.{StandsFor, Says, left};
ghost use Rattle.int_raster.specs.Seen.{surface_seen};
ghost use Rattle.render_stores.specs.Seen.{stores_seen};
ghost use Rattle.trace_laws.specs.History.{pixel_at, pixel_history};
ghost use Rattle.pixel_ops.specs.Seen.{pixel_seen};
ghost use Rattle.trace_laws.specs.ByIndex.{begun_in, deeds_in, history_in};
ghost use Rattle.frame_tracing.specs.Seen.{made_seen};
ghost use Rattle.render_core.specs.Needs.{FitsText};
ghost use Rattle.render_core.specs.Outcomes.{IsShown, has_ended};
ghost use Rattle.render_core.specs.Seen.{frame_seen};

use crate::lists::Lists;
use crate::outcomes::Outcomes;
use crate::picture::PictureText;
use crate::views::parts_of;
use frame_record::{Frame, RenderedFrame};
use frame_tracing::{Made, Trace, trace_parts};
use int_raster::{Rasterizer, Surface};
use io_edge::Sink;
use pixel_ops::Pixel;
use remembered::Remembered;
use render_stores::{RenderStores, execute_all};
use std::alloc::{AllocError, Global};
use store_laws::{frame_law, start_law};
use trace_laws::laws::indexed_law;
use view_drawing::DrawingRoom;

/// What frames are drawn on, and the rooms that are kept from frame to frame.
#[derive(Drop)]
pub(crate) struct Canvas {
    pub(crate) alloc: Global,
    pub(crate) stores: RenderStores,
    pub(crate) lists: Lists,
    pub(crate) room: DrawingRoom,
    pub(crate) text: PictureText,
}

/// Draws frames, and puts their pictures into a sink.
#[derive(Drop)]
pub struct Renderer<P> {
    pub(crate) canvas: Canvas,
    pub(crate) outcomes: Outcomes,
    pub(crate) sink: P,
    ghost sides: { has_ended outcomes ≡ false → (canvas.text.width ≡ canvas.stores.back.color.width) × (canvas.text.height ≡ canvas.stores.back.color.height) },
}

impl Canvas {
    fn new(alloc: Global, width: u16, height: u16) -> Result<Canvas, AllocError>
        requires wide { 1 ≤ width }
        requires high { 1 ≤ height }
        requires narrow { width ≤ 2048 }
        requires low { height ≤ 2048 }
        ensures stores { IfOk result (λ c. stores_seen c.stores ≡ first_stores (first_world width height).back) }
        ensures fits { IfOk result (λ c. FitsText c) }
    {
        let stores = RenderStores::new(alloc, width, height)?;
        let text = PictureText::new(alloc, width, height)?;
        Ok(Canvas {
            alloc,
            stores,
            lists: Lists::new(alloc),
            room: DrawingRoom::new(alloc),
            text,
        })
    }

    /// Executes a frame's first commands, and does its deeds one after another; answers what each does to a pixel of the back buffer.
    fn trace<D: Rasterizer>(
        &mut self,
        rasterizer: &mut D,
        frame: &Frame,
        x: u16,
        y: u16,
    ) -> Result<Vec<Made>, AllocError>
        requires { x < 65535 }
        ensures { let f = frame_seen frame.now in
            IfOk result (λ made. map made_seen made.items ≡ history_in x y 0 (begun_in (stores_seen self.old.stores) f) (deeds_in f)) }
    {
        execute_all(self.alloc, &mut self.stores, &frame.payloads, &frame.pre)?;
        self.lists.fill(frame)?;
        let parts = parts_of(self.alloc, frame, &self.lists)?;
        let mut trace = Trace::new(self.alloc);
        trace_parts(
            self.alloc,
            rasterizer,
            &mut self.stores,
            &parts,
            x,
            y,
            &mut trace,
            &mut self.room,
        )?;
        Ok(trace.made)
    }
}

/// The pixel of a surface at a column and a row that it has.
fn pixel_of(surface: &Surface, x: u16, y: u16) -> Pixel
    requires column { x < surface.now.color.width }
    requires row { y < surface.now.color.height }
    ensures { pixel_seen result ≡ pixel_at (surface_seen surface.now) x y }
{
    let place = y as usize * surface.color.width as usize + x as usize;
    Pixel {
        color: surface.color.texels.as_slice()[place],
        depth: match &surface.depth {
            None => None,
            Some(depth) => Some(u32::from_le_bytes(depth.texels.as_slice()[place])),
        },
    }
}

impl<P: Sink> Renderer<P> {
    ghost use Rattle.render_core.specs.Rendered.{IsRendered, seen_by};

    /// A renderer without things, with a back buffer of zeros. The sides are 1 to 2,048. For want of memory the sink comes back.
    pub fn new(alloc: Global, width: u16, height: u16, sink: P) -> Result<Renderer<P>, P>
        requires wide { 1 ≤ width }
        requires high { 1 ≤ height }
        requires narrow { width ≤ 2048 }
        requires low { height ≤ 2048 }
        ensures new { IfOk result (λ r. seen_by P.held P.tally P.faults P.sure r ≡ record {
          stores = first_stores (first_world width height).back;
          outcomes = [];
          held = P.held sink;
          tally = P.tally sink;
          faults = P.faults sink;
          sure = P.sure sink;
        }) }
        ensures stands { IfOk result (λ r. (place : ℕ → ℕ) → StandsFor place (stores_seen r.canvas.stores) (first_world width height)) }
        ensures comes_back { IfErr result (λ s. s ≡ sink) }
    {
        start_law();
        match Canvas::new(alloc, width, height) {
            Ok(canvas) => Ok(Renderer {
                canvas,
                outcomes: Outcomes::new(),
                sink,
            }),
            Err(_) => Err(sink),
        }
    }

    /// Renders a frame: executes its first commands, draws its views by the rasterizer, executes its last commands, and puts its picture's
    /// text. The frame comes back as it was given, with the outcome.
    ///
    /// A frame is skipped exactly where an earlier one of this renderer was not shown; then nothing changes. After a fault of the picture, for
    /// which the sink's count of faults rose in this call, a front of the text was put; for want of memory nothing was put. Memory is taken
    /// only by a frame that has an item or a command that takes some. Commands and items that name what is not there, or that a store or the
    /// views cannot take, are passed over.
    pub fn render<D: Rasterizer>(&mut self, rasterizer: &mut D, frame: Frame) -> RenderedFrame
        ensures frame { result.frame ≡ frame }
        ensures rendered { IsRendered (seen_by P.held P.tally P.faults P.sure self.old) result (seen_by P.held P.tally P.faults P.sure self.new) }
        // From a world to the next.
        ensures stands { (place : ℕ → ℕ) (w : World) (content : FrameContent) (gone : List ℕ)
            → StandsFor place (stores_seen self.old.canvas.stores) (left content.gone w) → Says place w (frame_seen frame) content gone
            → IsShown result.outcome → StandsFor place (stores_seen self.new.canvas.stores) (left gone (frame_step w content)) }
        ensures picture { (place : ℕ → ℕ) (w : World) (content : FrameContent) (gone : List ℕ)
            → StandsFor place (stores_seen self.old.canvas.stores) (left content.gone w) → Says place w (frame_seen frame) content gone
            → IsShown result.outcome → P.held self.new.sink ≡ with_back (P.held self.old.sink) (picture_text (frame_step w content).back.color) }
    {
        frame_law();
        let opening = Remembered::of(&*self);
        let stage = self.canvas.begin(&frame, self.outcomes.has_ended());
        let outcome = self
            .canvas
            .finish(rasterizer, &mut self.sink, &frame, stage, &opening);
        self.outcomes.add(outcome);
        RenderedFrame { frame, outcome }
    }

    /// The back buffer and what was made, as the frames so far left them: for reading, between frames.
    pub fn stores(&self) -> &RenderStores
        ensures { result.now ≡ self.now.canvas.stores }
    {
        &self.canvas.stores
    }

    /// The pixel of the back buffer at a column and a row; none where it has no such column or row.
    pub fn pixel(&self, x: u16, y: u16) -> Option<Pixel>
        ensures { let back = (stores_seen self.now.canvas.stores).back in
            MatchOption result ((back.color.width ≤ x) ⊎ (back.color.height ≤ y)) (λ p. pixel_seen p ≡ pixel_at back x y) }
    {
        let back = &self.canvas.stores.back;
        if x >= back.color.width || y >= back.color.height {
            return None;
        }
        Some(pixel_of(back, x, y))
    }

    /// Traces a frame: what each of its deeds does to a pixel of the back buffer, in their order. Its last commands are not executed and its
    /// picture is not put, so the renderer has ended: it renders no frame after it. `Err` only for want of memory, or where a frame has 4,294,967,295
    /// deeds or a draw so many triangles.
    pub fn trace<D: Rasterizer>(
        &mut self,
        rasterizer: &mut D,
        frame: &Frame,
        x: u16,
        y: u16,
    ) -> Result<Vec<Made>, AllocError>
        requires { x < 65535 }
        ensures seen { let f = frame_seen frame.now in
            IfOk result (λ made. map made_seen made.items ≡ history_in x y 0 (begun_in (stores_seen self.old.canvas.stores) f) (deeds_in f)) }
        // From a world.
        ensures history { (place : ℕ → ℕ) (w : World) (content : FrameContent) (gone : List ℕ)
            → StandsFor place (stores_seen self.old.canvas.stores) (left content.gone w) → Says place w (frame_seen frame.now) content gone
            → IfOk result (λ made. map made_seen made.items ≡ pixel_history w content x y) }
    {
        indexed_law();
        self.outcomes.close();
        self.canvas.trace(rasterizer, frame, x, y)
    }

    /// The sink.
    pub fn sink(&self) -> &P
        ensures { result.now ≡ self.now.sink }
    {
        &self.sink
    }

    ghost use Rattle.std.specs.Borrow.{sem};
    ghost use Rattle.render_core.specs.Lending.{LendsSink};

    /// The sink, to be emptied or replaced between frames. All else is kept.
    pub fn sink_mut(&mut self) -> &mut P
        ensures* writes_back { sem 𝓛 (LendsSink P.row self.entry result) }
        ensures value { result.now ≡ self.old.sink }
    {
        &mut self.sink
    }

    /// The sink.
    pub fn into_sink(self) -> P
        ensures { result ≡ self.sink }
    {
        self.sink
    }
}

impl<P: Sink + Drop> Renderer<P> {
    /// The back buffer and what was made, as the frames so far left them. The sink is given up, as is all else.
    pub fn into_stores(self) -> RenderStores
        ensures { result ≡ self.canvas.stores }
    {
        self.canvas.stores
    }
}
