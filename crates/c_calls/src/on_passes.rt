// A frame in passes, on handles.
ghost use Rattle.c_calls.specs.Bands.{ClosesFrame, DrawsBand, EndsPass, NextPass, OpensFrame, values_of};

use crate::bands::{are_null, let_go_all};
use crate::frame::Framed;
use crate::held::{put_context, put_frame, take_context, take_frame};
use crate::objects::Object;
use crate::on_contexts::tell;
use crate::slot::{Slot, put, take};
use c_words::{Fault, NO_OBJECT};
use std::alloc::Global;

/// Begins the frame, which is drawn in passes. From then on to its end the context's handle stands for the frame that is begun, and any call on
/// it that is none of a frame in passes is told 104, but for the end of the context.
pub fn begin_frame(alloc: Global, context: &mut Slot) -> u32
    ensures { OpensFrame context.old.value context.new.value result }
{
    let (object, api) = match take_context(context, alloc) {
        Ok(taken) => taken,
        Err(status) => return status,
    };
    match api.begin_frame() {
        Ok(begun) => {
            put_frame(context, object, begun);
            0
        }
        Err((api, fault)) => {
            put_context(context, object, api);
            fault.number()
        }
    }
}

/// Begins the next pass of a frame, and hands its bands out to handles that are null; tells how many. It tells 0 where no pass is left. The
/// status is 105 where a handle is not null; then 100 and 104.
pub fn next_pass(alloc: Global, context: &mut Slot, bands: &mut [Slot], count: &mut usize) -> u32
    ensures { NextPass context.old.value context.new.value result (values_of bands.old) (values_of bands.new) count.old count.new }
{
    if !are_null(alloc, bands) {
        return Fault::Taken.number();
    }
    match take_frame(context, alloc) {
        Ok((object, begun)) => {
            let (begun, status) = begun.next_pass(alloc, bands, count);
            put_frame(context, object, begun);
            status
        }
        Err(status) => status,
    }
}

/// Draws a band, if it was not drawn before. Any thread may draw it, beside the other bands of its pass. It takes no memory and never waits.
pub fn draw_band(alloc: Global, band: &mut Slot) -> u32
    ensures { DrawsBand band.old.value band.new.value result }
{
    let Some(mut object) = take(band, alloc) else {
        return NO_OBJECT;
    };
    match &mut *object {
        Object::Rows(rows) => {
            rows.draw();
            put(band, object);
            0
        }
        _ => {
            put(band, object);
            NO_OBJECT
        }
    }
}

/// Takes bands back, whatever the status, and ends the pass that is out. The status is 100, 104 where no pass is out, and 101 where a band of
/// it is still out.
pub fn end_pass(alloc: Global, context: &mut Slot, bands: &mut [Slot]) -> u32
    ensures { EndsPass context.old.value context.new.value result (values_of bands.old) (values_of bands.new) }
{
    let_go_all(alloc, bands);
    match take_frame(context, alloc) {
        Ok((object, begun)) => {
            let (begun, status) = begun.end_pass(alloc);
            put_frame(context, object, begun);
            status
        }
        Err(status) => status,
    }
}

/// Ends a frame that was drawn in passes, and writes its picture.
pub fn close_frame(
    alloc: Global,
    context: &mut Slot,
    picture: &mut [u8],
    framed: &mut Framed,
) -> u32
    ensures { ClosesFrame context.old.value context.new.value result picture.old picture.new framed.old framed.new }
{
    let (object, begun) = match take_frame(context, alloc) {
        Ok(taken) => taken,
        Err(status) => return status,
    };
    match begun.end(picture) {
        Ok((api, told)) => {
            put_context(context, object, api);
            tell(told, framed)
        }
        Err((begun, fault)) => {
            put_frame(context, object, begun);
            fault.number()
        }
    }
}
