// The link that traces a pixel of a frame buffer.
ghost use Rattle.std.specs.Prelude.{◌≡◌, ◌≤◌, [], IfOk, IfSome};
ghost use Rattle.frame_keeping.specs.Kept.{given_by, back_by, latency_of};
ghost use Rattle.target_scenes.specs.Finding.{Finds, HasFound};

use crate::found::Found;
use crate::targeter::Targeter;
use frame_keeping::KeepingLink;
use frame_record::{Frame, FrameLink, RenderedFrame};
use std::alloc::{AllocError, Global};
use target_tracing::TargetSpot;

/// A link that traces a pixel of a frame buffer in one of the frames that are given, and keeps each until it is taken back, as shown.
#[derive(Drop)]
pub(crate) struct TargetingLink {
    link: KeepingLink,
    targeter: Targeter,
    ghost finds: { ∥ Finds targeter (given_by link) ∥₁ },
}

impl TargetingLink {
    /// A link at which up to `latency` frames may be out, at least 1. The sides are 1 to 2,048. `Err` only for want of memory.
    pub(crate) fn new(
        alloc: Global,
        latency: u8,
        width: u16,
        height: u16,
        frame: u32,
        spot: TargetSpot,
    ) -> Result<TargetingLink, AllocError>
        requires some { 1 ≤ latency }
        requires wide { 1 ≤ width }
        requires high { 1 ≤ height }
        requires narrow { width ≤ 2048 }
        requires low { height ≤ 2048 }
        ensures none { IfOk result (λ l. (given_by l.link ≡ []) × (back_by l.link ≡ []) × (latency_of l.link ≡ latency)) }
        ensures asked { IfOk result (λ l. l.targeter.asked ≡ record { width = width; height = height; frame = frame; spot = spot }) }
    {
        let link = KeepingLink::new(alloc, latency)?;
        let targeter = Targeter::new(alloc, width, height, frame, spot)?;
        Ok(TargetingLink { link, targeter })
    }

    /// What was found. `None` where the frame asked for was not given, or memory was wanting.
    pub(crate) fn into_found(self) -> Option<Found>
        ensures { IfSome result (λ b. ∥ HasFound self.targeter.asked (given_by self.link) b ∥₁) }
    {
        self.targeter.into_found()
    }
}

impl FrameLink for TargetingLink {
    ghost use Rattle.target_scenes.specs.declared.asked.AskedTarget.{AskedTarget};

    ghost given = { λ l. given_by l.link };

    ghost back = { λ l. back_by l.link };

    ghost latency = { λ l. latency_of l.link };

    ghost Origin = { AskedTarget };

    ghost origin = { λ l. l.targeter.asked };

    fn give(&mut self, frame: Frame) {
        let frame = self.targeter.take(frame);
        self.link.give(frame);
    }

    fn try_take_back(&mut self) -> Option<RenderedFrame> {
        self.link.try_take_back()
    }

    fn take_back(&mut self) -> RenderedFrame {
        self.link.take_back()
    }
}
