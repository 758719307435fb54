// The encoder that C holds.
ghost use Rattle.std.specs.Prelude.{◌≡◌, IfErr};
ghost use Rattle.c_words.specs.Things.{named, named_or_none};

use c_words::Things;
use draw_encoder::Recorder;
use gfx_words::Handle;
use letter_boxes::{Shared, Unclaimed};
use std::marker::Model;
use std::sync::Arc;

/// A recorder with the table that its seat is of, and the handles that had been given when it began. Contracts see an `EncoderView`.
#[derive(Drop)]
pub struct Encoder {
    pub(crate) shared: Arc<Shared<Unclaimed>>,
    pub(crate) recorder: Recorder,
    pub(crate) things: Arc<Things>,
}

impl Model for Encoder {
    ghost use Rattle.std.specs.Prelude.{◌≡◌};
    ghost use Rattle.hold_table.specs.Seats.{table_of};
    ghost use Rattle.c_calls.specs.Views.{EncoderView};

    ghost Value = { EncoderView };

    ghost view = { λ e. record { recorder = e.recorder; rows = e.things.value.rows.items } };

    ghost invariant = { λ e. (e.recorder.table ≡ table_of e.shared.value.table) × (e.recorder.state.recorder.view_count ≡ 512) };
}

impl Encoder {
    /// The handle that had been given for a word when the encoder began.
    pub(crate) fn find(&self, word: u64) -> Option<Handle>
        ensures { result ≡ named self.now.rows word }
    {
        self.things.find(word)
    }

    /// `Some(None)` for 0, and else the handle that had been given for a word, where there is one.
    pub(crate) fn find_maybe(&self, word: u64) -> Option<Option<Handle>>
        ensures { result ≡ named_or_none self.now.rows word }
    {
        self.things.find_maybe(word)
    }

    /// Ends the recording, which then waits to be collected. Where another waits in its place, the encoder comes back.
    pub(crate) fn end(self, dropped: u32) -> Result<(), Encoder>
        ensures { IfErr result (λ e. e ≡ self) }
    {
        let Encoder {
            shared,
            recorder,
            things,
        } = self;
        match shared.try_post(recorder, dropped) {
            Ok(()) => Ok(()),
            Err(recorder) => Err(Encoder {
                shared,
                recorder,
                things,
            }),
        }
    }

    /// Gives the encoder up, of which its context is told.
    pub(crate) fn give_up(self) {
        let Encoder {
            shared,
            recorder,
            things: _,
        } = self;
        shared.give_up(recorder);
    }
}
