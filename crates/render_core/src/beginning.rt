// A frame in passes: begun, drawn pass by pass, and finished.
ghost use Rattle.std.specs.Prelude.{◌≡◌, ◌≢◌, ◌<◌, [], IfErr, IfOk, OnErr, OnOk};
ghost use Rattle.store_laws.specs.ByIndex.{all_commanded};
ghost use Rattle.render_stores.specs.Seen.{stores_seen};
ghost use Rattle.render_core.specs.Begun.{skips, IsBefore, IsLast, StandsAt};
ghost use Rattle.render_core.specs.Lists.{AreListed};
ghost use Rattle.render_core.specs.Needs.{NeedsMemory};
ghost use Rattle.render_core.specs.Seen.{frame_seen};
ghost use Rattle.render_core.specs.declared.stages.Stage.TheVariants.{Entered};

use crate::begun_frames::{BegunFrame, Kept, LentFrame};
use crate::desks::Desk;
use crate::held_passes::HeldPass;
use crate::next_views::NextViews;
use crate::renderer::{Canvas, Renderer};
use crate::stages::Stage;
use frame_record::{Frame, RenderedFrame};
use int_raster::Rasterizer;
use io_edge::Sink;
use pass_bands::Band;
use remembered::Remembered;
use render_stores::execute_all;
use std::alloc::AllocError;

impl Canvas {
    /// Executes a frame's first commands, and lists its items, where it has some.
    fn open(&mut self, frame: &Frame) -> Result<(), AllocError>
        ensures stores { let f = frame_seen frame.now in OnOk result (stores_seen self.new.stores ≡ all_commanded f.payloads (stores_seen self.old.stores) f.pre) }
        ensures listed { OnOk result (frame.now.journal.items ≢ [] → AreListed frame.now self.new.lists) }
        ensures needs { OnErr result (NeedsMemory frame.now) }
        ensures text { self.new.text ≡ self.old.text }
    {
        execute_all(self.alloc, &mut self.stores, &frame.payloads, &frame.pre)?;
        if frame.journal.is_empty() {
            return Ok(());
        }
        self.lists.fill(frame)?;
        Ok(())
    }

    /// Begins a frame, unless it is skipped, and answers where it stands.
    pub(crate) fn begin(&mut self, frame: &Frame, skipped: bool) -> Stage
        ensures skips { skips result ≡ skipped }
        ensures stands { StandsAt result (stores_seen self.old.stores) frame.now self.new.lists (stores_seen self.new.stores) }
        ensures text { self.new.text ≡ self.old.text }
    {
        if skipped {
            return Stage::Skipped;
        }
        match self.open(frame) {
            Ok(()) => Stage::Entered(0),
            Err(_) => Stage::Stopped,
        }
    }
}

impl<P: Sink> Renderer<P> {
    /// Begins a frame that is drawn pass by pass: executes its first commands. Where an earlier frame was not shown, it is skipped.
    pub fn begin(self, frame: Frame) -> BegunFrame<P>
        ensures opening { result.opening ≡ self }
        ensures frame { result.frame ≡ frame }
    {
        let opening = Remembered::of(&self);
        let Renderer {
            canvas,
            outcomes,
            sink,
        } = self;
        let mut canvas = canvas;
        let stage = canvas.begin(&frame, outcomes.has_ended());
        let (desk, stores) = Desk::of(canvas);
        let kept = Kept {
            frame,
            outcomes,
            sink,
            opening,
        };
        BegunFrame {
            desk,
            stores,
            stage,
            kept,
        }
    }
}

impl<P: Sink> BegunFrame<P> {
    ghost use Rattle.render_core.specs.Rendered.{IsRendered, seen_by};

    /// Begins the next pass, where so many views are entered.
    fn next_behind(
        self,
        entered: usize,
        bands: u32,
    ) -> Result<(LentFrame<P>, Vec<Band>), BegunFrame<P>>
        requires { self.stage ≡ Entered entered }
        ensures same { IfOk result (λ p. (p.0.opening ≡ self.opening) × (p.0.frame ≡ self.frame)) }
        ensures more { IfOk result (λ p. entered < p.0.entered) }
        ensures none { IfErr result (λ b. (b.opening ≡ self.opening) × ((b.frame ≡ self.frame) × IsLast b.stage self.frame)) }
    {
        let BegunFrame {
            desk,
            stores,
            stage: _,
            kept,
        } = self;
        let mut desk = desk;
        match desk.begin_next(stores, &kept.frame, entered, bands) {
            NextViews::Begun(entered, begun) => {
                let (pass, bands) = HeldPass::of(desk.alloc, begun);
                let lent = LentFrame {
                    desk,
                    pass,
                    entered,
                    kept,
                };
                Ok((lent, bands))
            }
            NextViews::AllEntered(stores) => Err(BegunFrame {
                desk,
                stores,
                stage: Stage::Entered(entered),
                kept,
            }),
            NextViews::Stopped(stores) => Err(BegunFrame {
                desk,
                stores,
                stage: Stage::Stopped,
                kept,
            }),
        }
    }

    /// Begins the next pass of the frame: the views that are drawn at one go, whose target's rows are lent in at most so many bands, each of
    /// which any thread may draw. Where no pass is left, as where the frame is skipped or memory is wanting, the frame comes back.
    pub fn next_pass(self, bands: u32) -> Result<(LentFrame<P>, Vec<Band>), BegunFrame<P>>
        ensures same { IfOk result (λ p. (p.0.opening ≡ self.opening) × (p.0.frame ≡ self.frame)) }
        ensures more { IfOk result (λ p. IsBefore self.stage p.0.entered) }
        ensures none { IfErr result (λ b. (b.opening ≡ self.opening) × ((b.frame ≡ self.frame) × IsLast b.stage self.frame)) }
    {
        match self.stage {
            Stage::Skipped => Err(self),
            Stage::Stopped => Err(self),
            Stage::Entered(entered) => self.next_behind(entered, bands),
        }
    }

    /// Finishes the frame: enters the views that no pass entered, by the rasterizer, executes the frame's last commands, and puts its picture's
    /// text. The frame comes back as it was given, with the outcome, and the renderer is as `render` of the frame leaves it, whoever drew its
    /// bands, and in whatever order.
    pub fn finish<D: Rasterizer>(self, rasterizer: &mut D) -> (Renderer<P>, RenderedFrame)
        ensures frame { result.1.frame ≡ self.frame }
        ensures rendered { IsRendered (seen_by P.held P.tally P.faults P.sure self.opening) result.1 (seen_by P.held P.tally P.faults P.sure result.0) }
    {
        let BegunFrame {
            desk,
            stores,
            stage,
            kept,
        } = self;
        let Kept {
            frame,
            outcomes,
            sink,
            opening,
        } = kept;
        let mut canvas = desk.with(stores);
        let mut outcomes = outcomes;
        let mut sink = sink;
        let outcome = canvas.finish(rasterizer, &mut sink, &frame, stage, &opening);
        outcomes.add(outcome);
        let renderer = Renderer {
            canvas,
            outcomes,
            sink,
        };
        (renderer, RenderedFrame { frame, outcome })
    }
}

impl<P: Sink> LentFrame<P> {
    /// Takes the bands of the pass back and ends it. Rows that no band brought are drawn now, so the caller may lose a band. Where a band of
    /// the pass is still out, the frame comes back as it was, and the bands that were given are let go.
    pub fn end_pass(self, bands: Vec<Band>) -> Result<BegunFrame<P>, LentFrame<P>>
        ensures same { IfOk result (λ b. (b.opening ≡ self.opening) × (b.frame ≡ self.frame)) }
        ensures ended { IfOk result (λ b. b.stage ≡ Entered self.entered) }
        ensures out { IfErr result (λ l. l ≡ self) }
    {
        let LentFrame {
            desk,
            pass,
            entered,
            kept,
        } = self;
        let mut desk = desk;
        match pass.end(bands, &mut desk.room) {
            Ok(stores) => Ok(BegunFrame {
                desk,
                stores,
                stage: Stage::Entered(entered),
                kept,
            }),
            Err(pass) => Err(LentFrame {
                desk,
                pass,
                entered,
                kept,
            }),
        }
    }
}
