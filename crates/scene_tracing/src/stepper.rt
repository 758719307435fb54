// Puts the pictures of a frame's steps behind the frames before it.
ghost use Rattle.std.specs.Prelude.{◌≡◌, ◌≤◌, ◌<◌, ◌+◌, ◌∷◌, ◌++◌, [], true, List, None, Some, IfOk, IfErr};
ghost use Rattle.frame_record.specs.declared.frame.Frame.{Frame};
ghost use Rattle.render_stores.specs.Seen.{stores_seen};
ghost use Rattle.scene_tracing.specs.Stepping.{Told, told_by, IsEnded, IsSteppedIn, Steps, StepsWith};
ghost use Rattle.scene_tracing.specs.declared.stepped.StepsEnd.{StepsEnd};
ghost use Rattle.frame_steps.specs.declared.steps.StepFault.TheVariants as faults;

use crate::asked::AskedFrame;
use crate::stepped::{Stepped, StepsEnd};
use crate::tracer::render_one;
use frame_record::Frame;
use frame_steps::{StepFault, put_steps};
use io_edge::{Sink, SureSink};
use render_core::{Renderer, SerialRasterizer};
use render_stores::RenderStores;
use std::alloc::Global;

/// Renders the frames before the one asked for, and puts the pictures of that one's steps. Frames after it are left alone. It has a renderer
/// until then, and while memory was not wanting.
#[derive(Drop)]
pub(crate) struct Stepper<P> {
    alloc: Global,
    asked: AskedFrame,
    left: u32,
    renderer: Option<Renderer<SureSink>>,
    sink: P,
    end: Option<StepsEnd>,
}

/// Puts the pictures of a frame's steps on stores.
fn step_one<P: Sink>(
    alloc: Global,
    stores: &mut RenderStores,
    frame: &Frame,
    sink: &mut P,
) -> StepsEnd
    ensures { IsSteppedIn (stores_seen stores.old) frame.now (told_by P.held P.faults P.sure sink.old) result (told_by P.held P.faults P.sure sink.new) }
{
    match put_steps(alloc, &mut SerialRasterizer, stores, frame, sink) {
        Ok(doers) => StepsEnd { doers, fault: None },
        Err(fault) => StepsEnd {
            doers: Vec::new(alloc),
            fault: Some(fault),
        },
    }
}

/// How the steps ended; for want of memory where that is not known.
fn end_of(alloc: Global, end: Option<StepsEnd>) -> StepsEnd
    ensures given { (e : StepsEnd) → end ≡ Some e → result ≡ e }
    ensures none { end ≡ None → result.fault ≡ Some faults.OutOfMemory }
{
    match end {
        Some(end) => end,
        None => StepsEnd {
            doers: Vec::new(alloc),
            fault: Some(StepFault::OutOfMemory),
        },
    }
}

impl<P: Sink + Drop> Stepper<P> {
    /// A stepper that was given no frame. The sides are 1 to 2,048. For want of memory the sink comes back.
    pub(crate) fn new(alloc: Global, asked: AskedFrame, sink: P) -> Result<Stepper<P>, P>
        requires wide { 1 ≤ asked.width }
        requires high { 1 ≤ asked.height }
        requires narrow { asked.width ≤ 2048 }
        requires low { asked.height ≤ 2048 }
        ensures asked { IfOk result (λ t. t.asked ≡ asked) }
        ensures sink { IfOk result (λ t. t.sink ≡ sink) }
        ensures steps { IfOk result (λ t. ∥ Steps (told_by P.held P.faults P.sure) t (told_by P.held P.faults P.sure sink) [] ∥₁) }
        ensures comes_back { IfErr result (λ s. s ≡ sink) }
    {
        match Renderer::new(alloc, asked.width, asked.height, SureSink::new()) {
            Ok(renderer) => Ok(Stepper {
                alloc,
                asked,
                left: asked.frame,
                renderer: Some(renderer),
                sink,
                end: None,
            }),
            Err(_) => Err(sink),
        }
    }

    /// Renders a frame before the one asked for.
    fn render(&mut self, renderer: Renderer<SureSink>, frame: Frame) -> Frame
        requires some { 0 < self.old.left }
        requires taken { self.old.renderer ≡ None }
        requires none { self.old.end ≡ None }
        ensures frame { result ≡ frame }
        ensures asked { self.new.asked ≡ self.old.asked }
        ensures steps { (old : Told) (frames : List Frame) → ∥ StepsWith (told_by P.held P.faults P.sure) self.old renderer old frames ∥₁
            → ∥ Steps (told_by P.held P.faults P.sure) self.new old (frames ++ frame ∷ []) ∥₁ }
    {
        let mut renderer = renderer;
        let (frame, is_rendered) = render_one(&mut renderer, frame);
        if is_rendered {
            self.renderer = Some(renderer);
            self.left -= 1;
        }
        frame
    }

    /// Puts the pictures of the steps of the frame asked for.
    fn step(&mut self, renderer: Renderer<SureSink>, frame: &Frame)
        requires here { self.old.left ≡ 0 }
        requires none { self.old.end ≡ None }
        ensures asked { self.new.asked ≡ self.old.asked }
        ensures steps { (old : Told) (frames : List Frame) → ∥ StepsWith (told_by P.held P.faults P.sure) self.old renderer old frames ∥₁
            → ∥ Steps (told_by P.held P.faults P.sure) self.new old (frames ++ frame.now ∷ []) ∥₁ }
    {
        let mut stores = renderer.into_stores();
        let end = step_one(self.alloc, &mut stores, frame, &mut self.sink);
        self.end = Some(end);
    }

    /// Takes the next frame with the renderer, and gives the frame back.
    fn take_with(&mut self, renderer: Renderer<SureSink>, frame: Frame) -> Frame
        requires taken { self.old.renderer ≡ None }
        ensures frame { result ≡ frame }
        ensures asked { self.new.asked ≡ self.old.asked }
        ensures steps { (old : Told) (frames : List Frame) → ∥ StepsWith (told_by P.held P.faults P.sure) self.old renderer old frames ∥₁
            → ∥ Steps (told_by P.held P.faults P.sure) self.new old (frames ++ frame ∷ []) ∥₁ }
    {
        if self.end.is_some() {
            return frame;
        }
        if self.left > 0 {
            return self.render(renderer, frame);
        }
        self.step(renderer, &frame);
        frame
    }

    /// Takes the next frame, and gives it back.
    pub(crate) fn take(&mut self, frame: Frame) -> Frame
        ensures frame { result ≡ frame }
        ensures asked { self.new.asked ≡ self.old.asked }
        ensures steps { (old : Told) (frames : List Frame) → ∥ Steps (told_by P.held P.faults P.sure) self.old old frames ∥₁
            → ∥ Steps (told_by P.held P.faults P.sure) self.new old (frames ++ frame ∷ []) ∥₁ }
    {
        match self.renderer.take() {
            Some(renderer) => self.take_with(renderer, frame),
            None => frame,
        }
    }

    /// The sink, and how the steps ended; for want of memory where the frame asked for was not given.
    pub(crate) fn into_stepped(self) -> Stepped<P>
        ensures { (old : Told) (frames : List Frame) → ∥ Steps (told_by P.held P.faults P.sure) self old frames ∥₁
            → ∥ IsEnded self.asked frames old result.end (told_by P.held P.faults P.sure result.sink) ∥₁ }
    {
        Stepped {
            sink: self.sink,
            end: end_of(self.alloc, self.end),
        }
    }
}
