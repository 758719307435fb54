// How encoders begin and come back.
ghost use Rattle.std.specs.Prelude.{◌≡◌, ◌<◌, true, length, Some, IfOk, IfSome, is_some};
ghost use Rattle.letter_boxes.specs.Letters.{IsOf};
ghost use Rattle.draw_encoder.specs.declared.items.Recording.{Recording};
ghost use Rattle.gfx_words.specs.Seen.{room_seen};
ghost use Rattle.hold_table.specs.Seats.{table_of, enc_view};
ghost use Rattle.context_core.specs.Ended as cores;
ghost use Rattle.c_calls.specs.Calls.{BeginsHere, BeginsEncoder, BeginsRecorder, Collects, Gathers};

use crate::context::Context;
use crate::encoder::Encoder;
use c_words::{Fault, Things, told};
use context_core::Room;
use draw_encoder::Recorder;
use gfx_words::Refusal;
use letter_boxes::{Letter, Shared, Unclaimed};
use std::alloc::AllocError;
use std::sync::Arc;

impl Context {
    // Makes the handles that were given ready to be lent.
    fn copy_things(&mut self) -> Result<Arc<Things>, AllocError>
        ensures same { self.new ≡ self.old }
        ensures things { IfOk result (λ a. a.value.rows.items ≡ self.old.rows) }
    {
        let copy = Arc::new(self.alloc, self.things.copy()?)?;
        let lent = Arc::try_clone(&copy)?;
        self.lent = Some(copy);
        Ok(lent)
    }

    // The handles that were lent last, where none was given since.
    fn lent_things(&self) -> Result<Option<Arc<Things>>, AllocError>
        ensures { IfOk result (λ o. IfSome o (λ a. a.value.rows.items ≡ self.now.rows)) }
    {
        match &self.lent {
            Some(things) => Ok(Some(Arc::try_clone(things)?)),
            None => Ok(None),
        }
    }

    // The handles that were given, for an encoder.
    fn lend_things(&mut self) -> Result<Arc<Things>, AllocError>
        ensures same { self.new ≡ self.old }
        ensures things { IfOk result (λ a. a.value.rows.items ≡ self.old.rows) }
    {
        match self.lent_things()? {
            Some(things) => Ok(things),
            None => self.copy_things(),
        }
    }

    // The table and the letter boxes, for an encoder.
    fn share(&self) -> Result<Arc<Shared<Unclaimed>>, AllocError>
        ensures { IfOk result (λ s. table_of s.value.table ≡ self.now.core.table) }
    {
        Ok(Arc::try_clone(&self.shared)?)
    }

    fn begin_recorder(&mut self, room: Room) -> Result<Recorder, Refusal>
        ensures { BeginsRecorder result (room_seen room) self.old self.new }
    {
        self.core.begin(&self.shared.table, room)
    }

    // Begins an encoder on the context's own table.
    fn begin_on(
        &mut self,
        shared: Arc<Shared<Unclaimed>>,
        things: Arc<Things>,
        room: Room,
    ) -> Result<Encoder, Refusal>
        requires table { table_of shared.value.table ≡ self.old.core.table }
        ensures { BeginsEncoder result things.value.rows.items (room_seen room) self.old self.new }
    {
        match self.begin_recorder(room) {
            Ok(recorder) => Ok(Encoder {
                shared,
                recorder,
                things,
            }),
            Err(refusal) => Err(refusal),
        }
    }

    /// Begins this frame's next encoder. `Ended`; then `BadSize` where the room is outside its limits; then `NoEncoder` where eight
    /// were begun in this frame. `OutOfMemory` may come at any time. After a refusal all is as before.
    pub(crate) fn begin(&mut self, room: Room) -> Result<Encoder, Fault>
        ensures { BeginsHere result (room_seen room) self.old self.new }
    {
        if self.is_ended() {
            return Err(Fault::Ended);
        }
        let Ok(things) = self.lend_things() else {
            return Err(Fault::Refused(Refusal::OutOfMemory));
        };
        let Ok(shared) = self.share() else {
            return Err(Fault::Refused(Refusal::OutOfMemory));
        };
        told(self.begin_on(shared, things, room))
    }

    // The letter of the encoder of a number, where it has come.
    fn letter_of(&self, number: u8) -> Option<Letter<Unclaimed>>
        requires { number < 8 }
        ensures { IfSome result (λ l. IsOf self.now.core.table l × (is_some l.0 ≡ true)) }
    {
        self.shared.try_take(number)
    }

    // Gathers what a letter of the table has.
    fn gather(&mut self, letter: Letter<Unclaimed>)
        requires table { IsOf self.old.core.table letter }
        requires ended { is_some letter.0 ≡ true }
        ensures gathers { (r : Recording) × (letter.0 ≡ Some r) × cores.Gathers r (enc_view letter.1) self.old.core self.new.core }
        ensures same { self.new ≡ record self.old { core = self.new.core } }
    {
        let (recording, seat) = letter.part();
        self.core.gather(&self.shared.table, recording, seat);
    }

    // Gathers what the encoder of a number ended with, where it has come.
    fn collect_one(&mut self, number: u8)
        requires { number < 8 }
        ensures gathers { Gathers self.old.core self.new.core }
        ensures same { self.new ≡ record self.old { core = self.new.core } }
    {
        match self.letter_of(number) {
            None => {}
            Some(letter) => self.gather(letter),
        }
    }

    // Gathers what encoders of this frame ended with and has come.
    fn collect_all(&mut self)
        ensures gathers { Gathers self.old.core self.new.core }
        ensures same { self.new ≡ record self.old { core = self.new.core } }
    {
        for number in 0..8u8 {
            self.collect_one(number);
        }
    }

    // How many encoders of this frame have not come back.
    pub(crate) fn off(&self) -> u32
        ensures { result ≡ length self.now.core.state.seat.off }
    {
        self.core.off()
    }

    /// Collects what encoders of this frame ended with and has come, and answers how many have not come.
    pub(crate) fn collect(&mut self) -> u32
        ensures { Collects result self.old self.new }
    {
        self.collect_all();
        self.off()
    }
}
