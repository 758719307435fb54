// The link that finds to which deed of a frame each pixel is due.
ghost use Rattle.std.specs.Prelude.{◌≡◌, ◌≤◌, [], IfOk, IfSome};
ghost use Rattle.frame_keeping.specs.Kept.{given_by, back_by, latency_of};
ghost use Rattle.scene_tracing.specs.Blaming.{Blames, HasBlamed};

use crate::asked::AskedFrame;
use crate::blamed::Blamed;
use crate::blamer::Blamer;
use frame_keeping::KeepingLink;
use frame_record::{Frame, FrameLink, RenderedFrame};
use std::alloc::{AllocError, Global};

/// A link that finds to which deed each pixel of one of the frames that are given is due, and keeps each until it is taken back, as shown.
#[derive(Drop)]
pub(crate) struct BlamingLink {
    link: KeepingLink,
    blamer: Blamer,
    ghost blames: { ∥ Blames blamer (given_by link) ∥₁ },
}

impl BlamingLink {
    /// A link at which up to `latency` frames may be out, at least 1. The sides are 1 to 2,048. `Err` only for want of memory.
    pub(crate) fn new(
        alloc: Global,
        latency: u8,
        asked: AskedFrame,
    ) -> Result<BlamingLink, AllocError>
        requires some { 1 ≤ latency }
        requires wide { 1 ≤ asked.width }
        requires high { 1 ≤ asked.height }
        requires narrow { asked.width ≤ 2048 }
        requires low { asked.height ≤ 2048 }
        ensures none { IfOk result (λ l. (given_by l.link ≡ []) × (back_by l.link ≡ []) × (latency_of l.link ≡ latency)) }
        ensures asked { IfOk result (λ l. l.blamer.asked ≡ asked) }
    {
        let link = KeepingLink::new(alloc, latency)?;
        let blamer = Blamer::new(alloc, asked)?;
        Ok(BlamingLink { link, blamer })
    }

    /// The numbers. `None` where the frame asked for was not given, or memory was wanting.
    pub(crate) fn into_blamed(self) -> Option<Blamed>
        ensures { IfSome result (λ b. ∥ HasBlamed self.blamer.asked (given_by self.link) b ∥₁) }
    {
        self.blamer.into_blamed()
    }
}

impl FrameLink for BlamingLink {
    ghost use Rattle.scene_tracing.specs.declared.asked.AskedFrame.{AskedFrame};

    ghost given = { λ l. given_by l.link };

    ghost back = { λ l. back_by l.link };

    ghost latency = { λ l. latency_of l.link };

    ghost Origin = { AskedFrame };

    ghost origin = { λ l. l.blamer.asked };

    fn give(&mut self, frame: Frame) {
        let frame = self.blamer.take(frame);
        self.link.give(frame);
    }

    fn try_take_back(&mut self) -> Option<RenderedFrame> {
        self.link.try_take_back()
    }

    fn take_back(&mut self) -> RenderedFrame {
        self.link.take_back()
    }
}
