// The end of a context.
ghost use Rattle.std.specs.Prelude.{◌≡◌, [], length};
ghost use Rattle.hold_table.specs.Seats.{api_table, api_view};
ghost use Rattle.gfx_context.specs.Ended.{TakesNext, Closes};

use crate::context::Context;
use crate::report::{BackNote, Closed};
use draw_encoder::Naming;
use frame_record::FrameLink;
use std::sync::Wait;

impl<'t, C: Naming, L: FrameLink + Drop> Context<'t, C, L> {
    fn take_next(&mut self) -> Option<BackNote>
        ensures takes { TakesNext result self.old self.new }
        ensures origin { L.origin self.new.link ≡ L.origin self.old.link }
    {
        if self.core.out() == 0 {
            return None;
        }
        Some(self.take_one())
    }

    /// Ends the context, of whose encoders none is off: takes back all frames that are out, the oldest first. The bundles of this
    /// frame are given up.
    pub fn close(self) -> Closed<L>
        requires none_off { self.seat.off ≡ [] }
        ensures table { api_table result.seat ≡ C.table }
        ensures closes { Closes self.entry (L.given result.link) (L.back result.link) (api_view result.seat) result.backs }
        ensures link { (L.latency result.link ≡ self.entry.book.resources.latency) × (L.origin result.link ≡ L.origin self.entry.link) }
    {
        let mut context = self;
        context.tell_facts();
        let first = context.take_next();
        let second = context.take_next();
        let third = context.take_next();
        let Context { link, core, .. } = context;
        Closed {
            link,
            seat: core.into_seat(),
            backs: [first, second, third],
        }
    }

    /// Ends the context: collects the bundles of this frame's encoders that were not collected, and waits for those that have not
    /// ended; then takes back all frames that are out, the oldest first. The bundles of this frame are given up.
    pub fn shutdown<R: Wait>(self, rt: &R) -> Closed<L>
        ensures table { api_table result.seat ≡ C.table }
        ensures closes { Closes self.entry (L.given result.link) (L.back result.link) (api_view result.seat) result.backs }
        ensures link { (L.latency result.link ≡ self.entry.book.resources.latency) × (L.origin result.link ≡ L.origin self.entry.link) }
    {
        let mut context = self;
        context.collect(rt);
        context.close()
    }
}
