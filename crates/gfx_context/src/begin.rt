// How encoders begin.
ghost use Rattle.std.specs.Prelude.{◌≡◌, false};

use crate::context::Context;
use context_core::Lent;
use draw_encoder::{Encoder, Naming, Room};
use frame_record::FrameLink;
use gfx_words::Refusal;

impl<'t, C: Naming, L: FrameLink + Drop> Context<'t, C, L> {
    ghost use Rattle.draw_encoder.specs.Seen.{room_seen};
    ghost use Rattle.gfx_context.specs.Calls.{IsBegin};

    /// Begins an encoder of this frame; the context is not ended. `BadSize` exactly where the room is outside its limits; then `NoEncoder` exactly where
    /// eight were begun in this frame. After want of memory all is as before.
    pub fn begin(&mut self, room: Room) -> Result<Encoder<'t, C>, Refusal>
        requires running { self.old.is_ended ≡ false }
        ensures { IsBegin result (room_seen room) self.old self.new }
    {
        self.core.tell_facts();
        let Lent {
            seat,
            number,
            frame,
            views,
        } = self.core.lend(self.shared.table(), room)?;
        match Encoder::start(self.alloc, self.shared, seat, number, frame, room, views) {
            Ok(encoder) => Ok(encoder),
            Err(seat) => {
                self.core.take_again(self.shared.table(), seat);
                Err(Refusal::OutOfMemory)
            }
        }
    }
}
