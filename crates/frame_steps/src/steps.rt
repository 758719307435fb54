// The pictures of the steps of a frame, put into a sink.
ghost use Rattle.std.specs.Prelude.{◌≡◌, ◌≤◌, map, IfOk, OnOk, IsErrOf};
ghost use Rattle.io_edge.specs.Edge.{with_back, Rose};
ghost use Rattle.io_whole.specs.Whole.{HasFront};
ghost use Rattle.scene_model.specs.Output.{picture_text};
ghost use Rattle.render_core.specs.Seen.{frame_seen, journal_of, recordings_of};
ghost use Rattle.render_stores.specs.Seen.{stores_seen};
ghost use Rattle.trace_laws.specs.Doers.{doers_in};
ghost use Rattle.trace_lines.specs.Seen.{doer_seen};
ghost use Rattle.frame_steps.specs.Doing.{deed_of_frame, stores_after_some};
ghost use Rattle.frame_steps.specs.Steps.{deeds_of_doers, steps_text, texts_after};
ghost use Rattle.frame_steps.specs.declared.steps.StepFault.TheVariants.{OutOfMemory, Fault};

use crate::doing::do_deed;
use crate::picture::write_picture;
use frame_record::Frame;
use int_raster::Rasterizer;
use io_edge::{Failed, Sink};
use io_whole::put_all;
use render_stores::{RenderStores, execute_all};
use std::alloc::{AllocError, Global};
use trace_lines::{Doer, doers_of};
use view_drawing::DrawingRoom;

/// Why not all pictures were put.
#[derive(Clone, Copy, Debug, PartialEq, Eq, Drop)]
pub enum StepFault {
    /// The sink failed.
    Fault,
    /// Memory ran out.
    OutOfMemory,
}

impl From<AllocError> for StepFault {
    ghost from_gives = { λ _ e. e ≡ OutOfMemory };

    fn from(_: AllocError) -> Self {
        StepFault::OutOfMemory
    }
}

impl From<Failed> for StepFault {
    ghost from_gives = { λ _ e. e ≡ Fault };

    fn from(_: Failed) -> Self {
        StepFault::Fault
    }
}

/// Room that is kept from step to step: that for drawing, and the text of one picture.
#[derive(Drop)]
struct StepRoom {
    alloc: Global,
    drawing: DrawingRoom,
    text: Vec<u8>,
}

/// Puts the picture of stores.
fn put_picture<P: Sink>(
    stores: &RenderStores,
    room: &mut StepRoom,
    sink: &mut P,
) -> Result<(), StepFault>
    ensures whole { OnOk result (P.held sink.new ≡ with_back (P.held sink.old) (picture_text (stores_seen stores.now).back.color)) }
    ensures front { HasFront (P.held sink.old) (picture_text (stores_seen stores.now).back.color) (P.held sink.new) }
    ensures fault { IsErrOf result StepFault.Fault → Rose (P.faults sink.old) (P.faults sink.new) }
    ensures sure { P.sure sink.new ≡ P.sure sink.old }
    ensures no_fewer { P.faults sink.old ≤ P.faults sink.new }
{
    write_picture(room.alloc, &mut room.text, &stores.back.color)?;
    put_all(sink, room.text.as_slice())?;
    Ok(())
}

/// Does what a doer does, and puts the picture after it.
fn put_step<D: Rasterizer, P: Sink>(
    rasterizer: &mut D,
    stores: &mut RenderStores,
    frame: &Frame,
    doer: Doer,
    room: &mut StepRoom,
    sink: &mut P,
) -> Result<(), StepFault>
    ensures stores { OnOk result (stores_seen stores.new ≡ stores_after_some (stores_seen stores.old) (deed_of_frame frame.now (doer_seen doer))) }
    ensures whole { OnOk result (P.held sink.new ≡ with_back (P.held sink.old) (picture_text (stores_after_some (stores_seen stores.old) (deed_of_frame frame.now (doer_seen doer))).back.color)) }
    ensures front { HasFront (P.held sink.old) (picture_text (stores_after_some (stores_seen stores.old) (deed_of_frame frame.now (doer_seen doer))).back.color) (P.held sink.new) }
    ensures fault { IsErrOf result StepFault.Fault → Rose (P.faults sink.old) (P.faults sink.new) }
    ensures sure { P.sure sink.new ≡ P.sure sink.old }
    ensures no_fewer { P.faults sink.old ≤ P.faults sink.new }
{
    do_deed(rasterizer, stores, frame, doer, &mut room.drawing)?;
    put_picture(stores, room, sink)?;
    Ok(())
}

/// Does what doers do one after another, and puts the picture after each.
fn put_each<D: Rasterizer, P: Sink>(
    rasterizer: &mut D,
    stores: &mut RenderStores,
    frame: &Frame,
    doers: &[Doer],
    room: &mut StepRoom,
    sink: &mut P,
) -> Result<(), StepFault>
    ensures whole { OnOk result (P.held sink.new ≡ with_back (P.held sink.old) (texts_after (stores_seen stores.old) (deeds_of_doers frame.now doers.now))) }
    ensures front { HasFront (P.held sink.old) (texts_after (stores_seen stores.old) (deeds_of_doers frame.now doers.now)) (P.held sink.new) }
    ensures fault { IsErrOf result StepFault.Fault → Rose (P.faults sink.old) (P.faults sink.new) }
    ensures sure { P.sure sink.new ≡ P.sure sink.old }
    ensures no_fewer { P.faults sink.old ≤ P.faults sink.new }
{
    for doer in doers {
        put_step(rasterizer, stores, frame, *doer, room, sink)?;
    }
    Ok(())
}

/// Executes a frame's first commands on a renderer's stores, does its deeds one after another, and puts the text of the picture before the
/// first deed and of that after each. Answers whose each deed is. One picture's text is held, and no more.
///
/// # Errors
///
/// `Fault` only where the sink's count of faults rose in this call, and `OutOfMemory` for want of memory. A front of the text was put; the
/// stores are of no use then.
pub fn put_steps<D: Rasterizer, P: Sink>(
    alloc: Global,
    rasterizer: &mut D,
    stores: &mut RenderStores,
    frame: &Frame,
    sink: &mut P,
) -> Result<Vec<Doer>, StepFault>
    ensures whole { OnOk result (P.held sink.new ≡ with_back (P.held sink.old) (steps_text (stores_seen stores.old) (frame_seen frame.now))) }
    ensures front { HasFront (P.held sink.old) (steps_text (stores_seen stores.old) (frame_seen frame.now)) (P.held sink.new) }
    ensures doers { IfOk result (λ doers. map doer_seen doers.items ≡ doers_in frame.now.views (recordings_of frame.now) (journal_of frame.now)) }
    ensures fault { IsErrOf result StepFault.Fault → Rose (P.faults sink.old) (P.faults sink.new) }
    ensures sure { P.sure sink.new ≡ P.sure sink.old }
    ensures no_fewer { P.faults sink.old ≤ P.faults sink.new }
{
    frame.views.tell_facts();
    execute_all(alloc, stores, &frame.payloads, &frame.pre)?;
    let doers = doers_of(alloc, frame)?;
    let mut room = StepRoom {
        alloc,
        drawing: DrawingRoom::new(alloc),
        text: Vec::new(alloc),
    };
    put_picture(stores, &mut room, sink)?;
    put_each(rasterizer, stores, frame, doers.as_slice(), &mut room, sink)?;
    Ok(doers)
}
