// What lies in a letter box.
ghost use Rattle.std.specs.Prelude.{◌≡◌, true, Some, None, is_some};
ghost use Rattle.hold_table.specs.Seats.{enc_table, enc_view};
ghost use Rattle.draw_encoder.specs.Bundles.{BelongTogether, items_of};

use crate::posting::Posting;
use draw_encoder::{Recorder, Recording};
use hold_table::EncSeat;
use std::marker::{Model, PhantomData};

/// The end of an encoder of a frame with 512 views, which waits to be collected: its recording, or none where it was given up; and its
/// seat. Contracts see the pair.
#[derive(Drop)]
pub struct Letter<C: Posting> {
    recording: Option<Recording>,
    seat: EncSeat,
    of: PhantomData<C>,
}

impl<C: Posting> Model for Letter<C> {
    ghost use Rattle.std.specs.Prelude.{Option};
    ghost use Rattle.draw_encoder.specs.declared.items.Recording.{Recording};
    ghost use Rattle.hold_table.specs.declared.table.EncSeat.{EncSeat};
    ghost use Rattle.letter_boxes.specs.Letters.{Says};

    ghost Value = { Option Recording × EncSeat };

    ghost view = { λ l. (l.recording, l.seat) };

    ghost invariant = { λ l. Says C.posted C.given_up l.recording l.seat };
}

impl<C: Posting> Letter<C> {
    /// Ends a recorder. The letter has what it recorded, and the number.
    pub(crate) fn ended(recorder: Recorder, dropped: u32) -> Letter<C>
        requires views { recorder.state.recorder.view_count ≡ 512 }
        requires posted { C.posted recorder.state.seat.encoder recorder.state.seat.frame recorder.state.recorder.items dropped }
        ensures recorded { is_some result.0 ≡ true }
        ensures table { enc_table result.1 ≡ recorder.table }
    {
        let (recording, seat) = recorder.end(dropped);
        Letter {
            recording: Some(recording),
            seat,
            of: PhantomData,
        }
    }

    /// Gives a recorder up with what it recorded.
    pub(crate) fn given_up(recorder: Recorder) -> Letter<C>
        requires { C.given_up recorder.state.seat.encoder recorder.state.seat.frame }
        ensures none { result.0 ≡ None }
        ensures table { enc_table result.1 ≡ recorder.table }
    {
        let (_recording, seat) = recorder.end(0);
        Letter {
            recording: None,
            seat,
            of: PhantomData,
        }
    }

    /// The recording and the seat of an encoder that was ended, and what was posted of it.
    pub fn part(self) -> (Recording, EncSeat)
        requires { is_some self.0 ≡ true }
        ensures recording { self.0 ≡ Some result.0 }
        ensures seat { result.1 ≡ self.1 }
        ensures together { BelongTogether 512 result.0 result.1 }
        ensures posted { C.posted result.0.encoder result.0.frame (items_of result.0) result.0.dropped }
    {
        let Letter {
            recording,
            seat,
            of: _,
        } = self;
        match recording {
            Some(recording) => (recording, seat),
            None => unreachable!(),
        }
    }
}
