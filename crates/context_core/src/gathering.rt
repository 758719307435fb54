// Each encoder's recording is gathered once.
ghost use Rattle.std.specs.Prelude.{◌≡◌, ◌≤◌, length};
ghost use Rattle.gfx_model.specs.Views.{view_count};
ghost use Rattle.hold_table.specs.Seats.{table_of, enc_table, enc_view};
ghost use Rattle.draw_encoder.specs.Bundles.{BelongTogether};
ghost use Rattle.context_core.specs.Gathered.{dropped_in};

use crate::context::ContextCore;
use draw_encoder::Recording;
use hold_table::{EncSeat, HoldTable};

/// The sum of the numbers that the encoders ended with.
fn total_dropped(recordings: &[Recording]) -> u64
    requires { length recordings.now ≤ 8 }
    ensures { result ≡ dropped_in recordings.now }
{
    let mut sum = 0;
    for recording in recordings {
        sum += recording.dropped as u64;
    }
    sum
}

impl ContextCore {
    ghost use Rattle.frame_record.specs.Kept.{IsCollectable};
    ghost use Rattle.context_core.specs.Ended.{Gathers};

    /// Gathers what a recorder of this frame ended with: joins its seat, and keeps its recording. They belong together, as
    /// `Recorder::end` and `Bundle::part` tell.
    pub fn gather(&mut self, table: &HoldTable, recording: Recording, seat: EncSeat)
        requires table { (self.old.table ≡ table_of table.now) × (enc_table seat ≡ table_of table.now) }
        requires together { BelongTogether (view_count self.old.state.book.resources.views) recording seat }
        ensures { Gathers recording (enc_view seat) self.old self.new }
    {
        table.join(&mut self.api, seat);
        self.gathered.push_reserved(recording);
    }

    /// How many encoders of this frame are off: begun, and not gathered.
    pub fn off(&self) -> u32
        ensures { result ≡ length self.now.state.seat.off }
    {
        if self.is_given {
            return 0;
        }
        self.begun as u32 - self.gathered.len() as u32
    }

    /// The recordings that were gathered in this frame. Their journal can be collected.
    pub fn gathered(&self) -> &[Recording]
        ensures same { result.now ≡ self.now.state.gathered }
        ensures collectable { IsCollectable result.now }
    {
        self.gathered.as_slice()
    }

    /// The sum of the numbers that the encoders gathered in this frame ended with.
    pub fn dropped(&self) -> u64
        ensures { result ≡ dropped_in self.now.state.gathered }
    {
        total_dropped(self.gathered.as_slice())
    }
}
