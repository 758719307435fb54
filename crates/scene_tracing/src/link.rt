// The link that traces a frame.
ghost use Rattle.std.specs.Prelude.{◌≡◌, ◌≤◌, [], IfOk, IfSome};
ghost use Rattle.frame_keeping.specs.Kept.{given_by, back_by, latency_of};
ghost use Rattle.scene_tracing.specs.Tracing.{HasTraced, Traces};

use crate::asked::Asked;
use crate::history::History;
use crate::tracer::Tracer;
use frame_keeping::KeepingLink;
use frame_record::{Frame, FrameLink, RenderedFrame};
use std::alloc::{AllocError, Global};

/// A link that traces one of the frames that are given, and keeps each until it is taken back, as shown.
#[derive(Drop)]
pub(crate) struct TracingLink {
    link: KeepingLink,
    tracer: Tracer,
    ghost traced: { Traces tracer (given_by link) },
}

impl TracingLink {
    /// A link at which up to `latency` frames may be out, at least 1. The sides are 1 to 2,048. `Err` only for want of memory.
    pub(crate) fn new(alloc: Global, latency: u8, asked: Asked) -> Result<TracingLink, AllocError>
        requires some { 1 ≤ latency }
        requires wide { 1 ≤ asked.width }
        requires high { 1 ≤ asked.height }
        requires narrow { asked.width ≤ 2048 }
        requires low { asked.height ≤ 2048 }
        ensures none { IfOk result (λ l. (given_by l.link ≡ []) × (back_by l.link ≡ []) × (latency_of l.link ≡ latency)) }
        ensures asked { IfOk result (λ l. l.tracer.asked ≡ asked) }
    {
        let link = KeepingLink::new(alloc, latency)?;
        let tracer = Tracer::new(alloc, asked)?;
        Ok(TracingLink { link, tracer })
    }

    /// The history of the pixel. `None` where the frame asked for was not given, or memory was wanting.
    pub(crate) fn into_history(self) -> Option<History>
        ensures { IfSome result (λ t. HasTraced self.tracer.asked (given_by self.link) t) }
    {
        self.tracer.into_history()
    }
}

impl FrameLink for TracingLink {
    ghost use Rattle.scene_tracing.specs.declared.asked.Asked.{Asked};

    ghost given = { λ l. given_by l.link };

    ghost back = { λ l. back_by l.link };

    ghost latency = { λ l. latency_of l.link };

    ghost Origin = { Asked };

    ghost origin = { λ l. l.tracer.asked };

    fn give(&mut self, frame: Frame) {
        let frame = self.tracer.take(frame);
        self.link.give(frame);
    }

    fn try_take_back(&mut self) -> Option<RenderedFrame> {
        self.link.try_take_back()
    }

    fn take_back(&mut self) -> RenderedFrame {
        self.link.take_back()
    }
}
