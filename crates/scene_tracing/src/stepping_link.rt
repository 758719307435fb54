// The link that puts the pictures of a frame's steps.
ghost use Rattle.std.specs.Prelude.{◌≡◌, ◌≤◌, [], IfOk, IfErr};
ghost use Rattle.frame_keeping.specs.Kept.{given_by, back_by, latency_of};
ghost use Rattle.scene_tracing.specs.Stepping.{told_by, IsEnded, Steps};

use crate::asked::AskedFrame;
use crate::stepped::Stepped;
use crate::stepper::Stepper;
use frame_keeping::KeepingLink;
use frame_record::{Frame, FrameLink, RenderedFrame};
use io_edge::Sink;
use remembered::Remembered;
use std::alloc::Global;

/// A link that puts the pictures of the steps of one of the frames that are given, and keeps each until it is taken back, as shown.
#[derive(Drop)]
pub(crate) struct SteppingLink<P: Sink> {
    link: KeepingLink,
    stepper: Stepper<P>,
    opening: Remembered<P>,
    ghost steps: { ∥ Steps (told_by P.held P.faults P.sure) stepper (told_by P.held P.faults P.sure opening.value) (given_by link) ∥₁ },
}

impl<P: Sink + Drop> SteppingLink<P> {
    /// A link at which up to `latency` frames may be out, at least 1. The sides are 1 to 2,048. For want of memory the sink comes back.
    pub(crate) fn new(
        alloc: Global,
        latency: u8,
        asked: AskedFrame,
        sink: P,
    ) -> Result<SteppingLink<P>, P>
        requires some { 1 ≤ latency }
        requires wide { 1 ≤ asked.width }
        requires high { 1 ≤ asked.height }
        requires narrow { asked.width ≤ 2048 }
        requires low { asked.height ≤ 2048 }
        ensures none { IfOk result (λ l. (given_by l.link ≡ []) × (back_by l.link ≡ []) × (latency_of l.link ≡ latency)) }
        ensures origin { IfOk result (λ l. (l.stepper.asked ≡ asked) × (l.opening.value ≡ sink)) }
        ensures comes_back { IfErr result (λ s. s ≡ sink) }
    {
        let Ok(link) = KeepingLink::new(alloc, latency) else {
            return Err(sink);
        };
        let opening = Remembered::of(&sink);
        match Stepper::new(alloc, asked, sink) {
            Ok(stepper) => Ok(SteppingLink {
                link,
                stepper,
                opening,
            }),
            Err(sink) => Err(sink),
        }
    }

    /// The sink, and how the steps ended; for want of memory where the frame asked for was not given.
    pub(crate) fn into_stepped(self) -> Stepped<P>
        ensures { ∥ IsEnded self.stepper.asked (given_by self.link) (told_by P.held P.faults P.sure self.opening.value) result.end (told_by P.held P.faults P.sure result.sink) ∥₁ }
    {
        self.stepper.into_stepped()
    }
}

impl<P: Sink + Drop> FrameLink for SteppingLink<P> {
    ghost use Rattle.scene_tracing.specs.declared.asked.AskedFrame.{AskedFrame};

    ghost given = { λ l. given_by l.link };

    ghost back = { λ l. back_by l.link };

    ghost latency = { λ l. latency_of l.link };

    ghost Origin = { AskedFrame × P };

    ghost origin = { λ l. (l.stepper.asked, l.opening.value) };

    fn give(&mut self, frame: Frame) {
        let frame = self.stepper.take(frame);
        self.link.give(frame);
    }

    fn try_take_back(&mut self) -> Option<RenderedFrame> {
        self.link.try_take_back()
    }

    fn take_back(&mut self) -> RenderedFrame {
        self.link.take_back()
    }
}
