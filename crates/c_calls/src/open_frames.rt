// Frames that are begun and not ended.
use crate::context::Context;
use crate::picture::PictureSink;
use c_words::Things;
use context_core::ContextCore;
use letter_boxes::{Shared, Unclaimed};
use remembered::Remembered;
use render_core::{BegunFrame, LentFrame};
use std::alloc::Global;
use std::marker::Model;
use std::sync::Arc;

/// Where a frame stands that is begun: between two passes, or within one.
#[derive(Drop)]
pub enum Place {
    Between(BegunFrame<PictureSink>),
    Within(LentFrame<PictureSink>),
}

/// What a context keeps from the begin of a frame to its end: all that it has beside its renderer, the sum of the numbers that the frame's
/// encoders ended with, and how many bytes a picture has at most. Clauses remember the context as it was when the frame was begun.
#[derive(Drop)]
pub(crate) struct Kept {
    pub(crate) alloc: Global,
    pub(crate) shared: Arc<Shared<Unclaimed>>,
    pub(crate) core: ContextCore,
    pub(crate) things: Things,
    pub(crate) lent: Option<Arc<Things>>,
    pub(crate) dropped: u64,
    pub(crate) most: usize,
    pub(crate) from: Remembered<Context>,
}

/// A context one of whose frames is begun and not ended. Contracts see an `OpenView`.
#[derive(Drop)]
pub struct OpenFrame {
    pub(crate) kept: Kept,
    pub(crate) place: Place,
}

impl Model for OpenFrame {
    ghost use Rattle.std.specs.Prelude.{◌≡◌, IfSome};
    ghost use Rattle.hold_table.specs.Seats.{table_of};
    ghost use Rattle.c_calls.specs.Begun.{OpenView, IsOpenOn, frame_in, opening_in};

    ghost Value = { OpenView };

    ghost view = { λ o. record { from = o.kept.from.value; place = o.place } };

    ghost invariant = { λ o. IsOpenOn (table_of o.kept.shared.value.table) o.kept.core o.kept.things.rows.items o.kept.dropped o.kept.most o.kept.from.value (frame_in o.place) (opening_in o.place)
        × IfSome o.kept.lent (λ a. a.value.rows.items ≡ o.kept.things.rows.items) };
}
