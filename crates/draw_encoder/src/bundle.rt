// What an encoder ends with.
ghost use Rattle.std.specs.Prelude.{◌≡◌};
ghost use Rattle.hold_table.specs.Seats.{enc_table};
ghost use Rattle.draw_encoder.specs.Bundles.{items_of, BelongTogether};

use crate::items::Recording;
use crate::naming::Naming;
use hold_table::EncSeat;
use std::marker::{Model, PhantomData};

/// A recording with its seat. Contracts see the pair.
#[derive(Drop)]
pub struct Bundle<C: Naming> {
    pub(crate) recording: Recording,
    pub(crate) seat: EncSeat,
    pub(crate) of: PhantomData<C>,
}

impl<C: Naming> Model for Bundle<C> {
    ghost use Rattle.std.specs.Prelude.{◌≡◌};
    ghost use Rattle.draw_encoder.specs.declared.items.Recording.{Recording};
    ghost use Rattle.hold_table.specs.declared.table.EncSeat.{EncSeat};
    ghost use Rattle.hold_table.specs.Seats.{enc_table};
    ghost use Rattle.draw_encoder.specs.Bundles.{items_of, BelongTogether};

    ghost Value = { Recording × EncSeat };

    ghost view = { λ b. (b.recording, b.seat) };

    ghost invariant = { λ b. (enc_table b.seat ≡ C.table) × BelongTogether C.views b.recording b.seat × C.admits b.recording.encoder b.recording.frame (items_of b.recording) b.recording.dropped };
}

impl<C: Naming> Bundle<C> {
    /// The recording.
    pub fn recording(&self) -> &Recording
        ensures { result.now ≡ self.now.0 }
    {
        &self.recording
    }

    /// The recording and the seat, and what the bundle knew of them.
    pub fn part(self) -> (Recording, EncSeat)
        ensures same { result ≡ self }
        ensures table { enc_table result.1 ≡ C.table }
        ensures together { BelongTogether C.views result.0 result.1 }
        ensures admitted { C.admits result.0.encoder result.0.frame (items_of result.0) result.0.dropped }
    {
        let Bundle {
            recording,
            seat,
            of: _,
        } = self;
        (recording, seat)
    }
}
