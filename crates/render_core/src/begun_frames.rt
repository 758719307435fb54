// Frames that are begun.
ghost use Rattle.std.specs.Prelude.{◌≡◌};

use crate::desks::Desk;
use crate::held_passes::HeldPass;
use crate::outcomes::Outcomes;
use crate::renderer::Renderer;
use crate::stages::Stage;
use frame_record::Frame;
use remembered::Remembered;
use render_stores::RenderStores;
use std::marker::Model;

/// What a frame keeps from its begin to its end: itself, and what the renderer had beside its canvas. Clauses remember the renderer as it was
/// when the frame was begun.
#[derive(Drop)]
pub(crate) struct Kept<P> {
    pub(crate) frame: Frame,
    pub(crate) outcomes: Outcomes,
    pub(crate) sink: P,
    pub(crate) opening: Remembered<Renderer<P>>,
    ghost same: { (outcomes ≡ opening.value.outcomes) × (sink ≡ opening.value.sink) },
}

/// A frame that is being drawn, between two of its passes, with all that its renderer had. Contracts see a `BegunView`.
#[derive(Drop)]
pub struct BegunFrame<P> {
    pub(crate) desk: Desk,
    pub(crate) stores: RenderStores,
    pub(crate) stage: Stage,
    pub(crate) kept: Kept<P>,
}

impl<P> Model for BegunFrame<P> {
    ghost use Rattle.render_stores.specs.Seen.{stores_seen};
    ghost use Rattle.render_core.specs.Begun.{StandsOn};
    ghost use Rattle.render_core.specs.BegunFrames.{BegunView};

    ghost Value = { BegunView P };

    ghost view = { λ b. record { opening = b.kept.opening.value; frame = b.kept.frame; stage = b.stage } };

    ghost invariant = { λ b. StandsOn b.kept.opening.value.canvas b.kept.opening.value.outcomes b.kept.frame b.stage b.desk.lists b.desk.text (stores_seen b.stores) };
}

/// A frame that is being drawn, one of whose passes is begun: its bands may be drawn. Contracts see a `LentView`.
#[derive(Drop)]
pub struct LentFrame<P> {
    pub(crate) desk: Desk,
    pub(crate) pass: HeldPass,
    pub(crate) entered: usize,
    pub(crate) kept: Kept<P>,
}

impl<P> Model for LentFrame<P> {
    ghost use Rattle.render_core.specs.Begun.{held_seen, StandsOn};
    ghost use Rattle.render_core.specs.BegunFrames.{LentView};
    ghost use Rattle.render_core.specs.declared.stages.Stage.TheVariants.{Entered};

    ghost Value = { LentView P };

    ghost view = { λ l. record { opening = l.kept.opening.value; frame = l.kept.frame; entered = l.entered } };

    ghost invariant = { λ l. StandsOn l.kept.opening.value.canvas l.kept.opening.value.outcomes l.kept.frame (Entered l.entered) l.desk.lists l.desk.text (held_seen l.pass) };
}
