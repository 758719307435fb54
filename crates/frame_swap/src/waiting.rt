// The API end as a link.
ghost use Rattle.std.specs.Prelude.{◌≡◌};

use crate::ends::ApiEnd;
use frame_record::{Frame, FrameLink, RenderedFrame};
use std::sync::Wait;

/// The end that gives frames, as a link that waits: it holds the runtime by which it does.
#[derive(Drop)]
pub struct WaitingEnd<'r, R> {
    end: ApiEnd,
    rt: &'r R,
}

impl<'r, R> WaitingEnd<'r, R> {
    /// A link by that end.
    pub fn new(end: ApiEnd, rt: &'r R) -> WaitingEnd<'r, R>
        ensures { result.end ≡ end }
    {
        WaitingEnd { end, rt }
    }

    /// The end, at which a stop can be given and which can be closed.
    pub fn into_end(self) -> ApiEnd
        ensures { result ≡ self.entry.end }
    {
        self.end
    }
}

impl<'r, R: Wait> FrameLink for WaitingEnd<'r, R> {
    ghost use Rattle.atomic_table.specs.Seated.{TableId};
    ghost use Rattle.frame_swap.specs.Ends.{given_by, back_by, latency_of, api_table};

    ghost given = { λ l. given_by l.end };

    ghost back = { λ l. back_by l.end };

    ghost latency = { λ l. latency_of l.end };

    ghost Origin = { TableId };

    ghost origin = { λ l. api_table l.end };

    fn give(&mut self, frame: Frame) {
        self.end.give(frame);
    }

    fn try_take_back(&mut self) -> Option<RenderedFrame> {
        self.end.try_take_back()
    }

    fn take_back(&mut self) -> RenderedFrame {
        self.end.take_back(self.rt)
    }
}
