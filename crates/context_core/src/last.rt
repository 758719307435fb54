// Of what the last frame was made.
ghost use Rattle.std.specs.Prelude.{◌≡◌};
ghost use Rattle.hold_table.specs.Seats.{api_view};
ghost use Rattle.frame_record.specs.Kept.{numbers_in};

use draw_encoder::Recording;
use hold_table::ApiSeat;
use remembered::Remembered;

/// Of what the frame that was made last was made, as clauses see it: the seat as it was then, and the recordings. The numbers that
/// the seat had gathered are those of the recordings. It has no bytes.
#[derive(Drop)]
pub(crate) struct Last {
    pub(crate) seat: Remembered<ApiSeat>,
    pub(crate) recordings: Remembered<Vec<Recording>>,
    ghost numbers: { (api_view seat.value).numbers ≡ numbers_in recordings.value.items },
}

impl Last {
    /// The seat and the recordings as they are.
    pub(crate) fn of(seat: &ApiSeat, recordings: &Vec<Recording>) -> Last
        requires { (api_view seat.now).numbers ≡ numbers_in recordings.now.items }
        ensures seat { result.seat.value ≡ seat.now }
        ensures recordings { result.recordings.value ≡ recordings.now }
    {
        Last {
            seat: Remembered::of(seat),
            recordings: Remembered::of(recordings),
        }
    }
}
