// The bundle of each encoder is collected once.
ghost use Rattle.std.specs.Prelude.{◌≡◌, false, List, [], ◌++◌, length};
ghost use Rattle.gfx_model.specs.Views.{view_count};
ghost use Rattle.hold_table.specs.Seats.{enc_view};
ghost use Rattle.draw_encoder.specs.declared.items.Recording.{Recording};
ghost use Rattle.context_core.specs.Ended.{Gathers};
ghost use Rattle.context_core.specs.Gathered.{AreOfFrame, dropped_in, with_gathered};
ghost use Rattle.gfx_context.specs.Kept.{AreAdmitted};

use crate::context::Context;
use context_core::ContextCore;
use draw_encoder::{Bundle, Naming, Recording, Shared};
use frame_record::FrameLink;
use std::sync::Wait;

/// Gathers a bundle that was collected.
fn gather<C: Naming>(shared: &Shared<C>, core: &mut ContextCore, bundle: Bundle<C>)
    requires table { core.old.table ≡ C.table }
    requires views { view_count core.old.state.book.resources.views ≡ C.views }
    requires admitted { AreAdmitted C.admits core.old.state.gathered }
    ensures gathers { Gathers bundle.0 (enc_view bundle.1) core.old core.new }
    ensures admitted { AreAdmitted C.admits core.new.state.gathered }
{
    let (recording, seat) = bundle.part();
    core.gather(shared.table(), recording, seat);
}

/// Collects the bundle of each encoder that is off, and waits for those that have not ended.
fn gather_all<C: Naming, R: Wait>(rt: &R, shared: &Shared<C>, core: &mut ContextCore)
    requires table { core.old.table ≡ C.table }
    requires not_given { core.old.state.is_given ≡ false }
    requires views { view_count core.old.state.book.resources.views ≡ C.views }
    requires admitted { AreAdmitted C.admits core.old.state.gathered }
    ensures none_off { core.new.state.seat.off ≡ [] }
    ensures kept { (more : List Recording) × (core.new.state.gathered ≡ core.old.state.gathered ++ more) }
    ensures seat { core.new.state.seat ≡ with_gathered core.new.state.seat core.old.state.seat }
    ensures same { core.new ≡ record core.old { state = record core.old.state { seat = core.new.state.seat; gathered = core.new.state.gathered } } }
    ensures admitted { AreAdmitted C.admits core.new.state.gathered }
    ensures recordings { AreOfFrame C.admits C.views core.old.state.seat.frame core.old.state.seat.places core.old.state.begun core.new.state.gathered }
{
    let left = core.off();
    for i in 0..left {
        let _step = i;
        let bundle = shared.collect(rt);
        gather(shared, core, bundle);
    }
    core.tell_facts();
}

impl<'t, C: Naming, L: FrameLink + Drop> Context<'t, C, L> {
    ghost use Rattle.frame_record.specs.Kept.{IsCollectable};
    ghost use Rattle.gfx_context.specs.Ended.{Collects, Gathers as GathersOne};

    /// Gathers the bundle of an encoder of this frame, as `Encoder::finish` gave it. It does not wait.
    pub fn gather(&mut self, bundle: Bundle<C>)
        ensures { GathersOne bundle.0 (enc_view bundle.1) self.old self.new }
    {
        gather(self.shared, &mut self.core, bundle);
    }

    /// Collects the bundle of each encoder that was begun in this frame and was not collected, and waits for those that have
    /// not ended. What was collected before stays as it was.
    pub fn collect<R: Wait>(&mut self, rt: &R)
        ensures { Collects C.admits C.views self.old self.new }
    {
        gather_all(rt, self.shared, &mut self.core);
    }

    /// How many encoders of this frame are off: begun, and not gathered.
    pub fn off(&self) -> u32
        ensures { result ≡ length self.now.seat.off }
    {
        self.core.off()
    }

    /// The sum of the numbers that the encoders collected in this frame ended with.
    pub fn dropped(&self) -> u64
        ensures { result ≡ dropped_in self.now.gathered }
    {
        self.core.dropped()
    }

    /// The recordings of this frame's encoders that were collected. Their journal can be collected.
    pub fn gathered(&self) -> &[Recording]
        ensures same { result.now ≡ self.now.gathered }
        ensures collectable { IsCollectable result.now }
    {
        self.core.gathered()
    }
}
