// How encoders begin.
ghost use Rattle.std.specs.Prelude.{◌≡◌, false, IfOk, MatchResult};
ghost use Rattle.gfx_model.specs.FrameCalls.{begin_encoder, frame_refusal};
ghost use Rattle.gfx_words.specs.Seen.{IsFirstRefusal};
ghost use Rattle.hold_table.specs.Seats.{table_of, enc_table, enc_view};
ghost use Rattle.draw_encoder.specs.Seen.{room_seen};
ghost use Rattle.context_core.specs.States.{CoreState, own, state_of};

use crate::context::{ContextCore, MOST_ENCODERS};
use draw_encoder::{Recorder, Room};
use gfx_words::Refusal;
use hold_table::{EncSeat, HoldTable};

/// The seat of an encoder of this frame, and with what its recorder starts.
#[derive(Drop)]
pub struct Lent {
    pub seat: EncSeat,
    /// The encoder's number.
    pub number: u8,
    /// The frame's number.
    pub frame: u32,
    /// The number of views.
    pub views: u16,
}

impl ContextCore {
    ghost use Rattle.context_core.specs.Calls.{IsBegin, Lends, IsLentLast};

    /// Lends the seat of this frame's next encoder, for a recorder of this room that the caller starts; the core is not ended, and the
    /// frame is not given.
    /// `BadSize` exactly where the room is outside its limits; then `NoEncoder` exactly where eight were begun in this frame. It
    /// takes no memory.
    pub fn lend(&mut self, table: &HoldTable, room: Room) -> Result<Lent, Refusal>
        requires table { self.old.table ≡ table_of table.now }
        requires running { self.old.state.is_ended ≡ false }
        requires not_given { self.old.state.is_given ≡ false }
        ensures { MatchResult result
            (λ l. Lends (room_seen room) l self.old self.new)
            (λ r. IsFirstRefusal (frame_refusal (state_of self.old.state) (begin_encoder (room_seen room))) r × (self.new ≡ self.old)) }
    {
        if !room.is_within_limits() {
            return Err(Refusal::BadSize);
        }
        if self.begun as usize >= MOST_ENCODERS {
            return Err(Refusal::NoEncoder);
        }
        let seat = table.split(&mut self.api, self.begun);
        let number = self.begun;
        self.begun += 1;
        Ok(Lent {
            seat,
            number,
            frame: self.book.frame(),
            views: self.views,
        })
    }

    /// Takes the seat that was lent last again. Neither it nor the core was used since, and all is as before it was lent.
    pub fn take_again(&mut self, table: &HoldTable, seat: EncSeat)
        requires table { (self.old.table ≡ table_of table.now) × (enc_table seat ≡ table_of table.now) }
        requires unused { (v : CoreState) × IsLentLast (enc_view seat) v self.old.state }
        ensures { (v : CoreState) → IsLentLast (enc_view seat) v self.old.state → self.new ≡ record self.old { state = v } }
    {
        table.join(&mut self.api, seat);
        self.begun -= 1;
    }

    /// Begins a recorder of this frame's next encoder; the core is not ended, and the frame is not given. `BadSize` exactly where the
    /// room is outside its limits; then `NoEncoder` exactly where eight were begun in this frame. After want of memory all is as before.
    pub fn begin(&mut self, table: &HoldTable, room: Room) -> Result<Recorder, Refusal>
        requires table { self.old.table ≡ table_of table.now }
        requires running { self.old.state.is_ended ≡ false }
        requires not_given { self.old.state.is_given ≡ false }
        ensures answer { IsBegin own (λ r. r.state) result (room_seen room) self.old self.new }
        ensures table { IfOk result (λ r. r.table ≡ self.old.table) }
    {
        let Lent {
            seat,
            number,
            frame,
            views,
        } = self.lend(table, room)?;
        match Recorder::start(self.alloc, seat, number, frame, room, views) {
            Ok(recorder) => Ok(recorder),
            Err(seat) => {
                self.take_again(table, seat);
                Err(Refusal::OutOfMemory)
            }
        }
    }
}
