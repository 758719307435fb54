// A frame that is drawn in passes, by the caller's threads.
ghost use Rattle.std.specs.Prelude.{◌≡◌, ◌<◌, ◌≤◌, ◌==◌, true, false, length, Some, IfSome};
ghost use Rattle.hold_table.specs.Seats.{table_of};
ghost use Rattle.context_core.specs.Ended.{IsReady, Gives};
ghost use Rattle.context_core.specs.States.{CoreView};
ghost use Rattle.render_core.specs.Rendered.{IsRendered};
ghost use Rattle.c_calls.specs.Bands.{AreNull, BeginsPass, ComesNext, PassEnds, values_of};
ghost use Rattle.c_calls.specs.Begun.{IsBetween, IsOpenOn, IsReadied};
ghost use Rattle.c_calls.specs.Calls.{is_over};
ghost use Rattle.c_calls.specs.Frames.{came_back, emptied, IsMade, Shows};
ghost use Rattle.c_calls.specs.Passes.{BeginsFrame, EndsFrame};
ghost use Rattle.c_calls.specs.Rendered.{rendering_of};
ghost use Rattle.c_calls.specs.declared.objects.Object.TheVariants.{Drawing};
ghost use Rattle.c_calls.specs.declared.open_frames.Place.TheVariants.{Between};

use crate::bands::hand_out;
use crate::context::Context;
use crate::frame::{Framed, not_made, was_shown};
use crate::open_frames::{Kept, OpenFrame, Place};
use crate::picture::PictureSink;
use crate::slot::Slot;
use crate::standing::Standing;
use c_words::Fault;
use context_core::{ContextCore, FrameEnd, Prepared};
use frame_record::{Frame, RenderedFrame};
use hold_table::HoldTable;
use remembered::Remembered;
use render_core::{BegunFrame, Renderer, SerialRasterizer};
use std::alloc::Global;

/// Passes that lend nothing are ended one after another; a frame has no more views than this.
const MOST_VIEWS: u16 = 512;

// Makes the frame of what was prepared, while none is out, and starts the next one. The frame is out from then on.
fn make_frame(core: &mut ContextCore, table: &HoldTable, prepared: Prepared) -> Frame
    requires running { core.old.state.is_ended ≡ false }
    requires not_given { core.old.state.is_given ≡ false }
    requires table { core.old.table ≡ table_of table.now }
    requires none_out { core.old.state.out ≡ 0 }
    requires ready { (mid : CoreView) × IsReady prepared mid core.old }
    ensures gives { Gives prepared.work result core.old core.new }
{
    core.tell_facts();
    let FrameEnd { frame, journal: _ } = core.make(prepared, true);
    match frame {
        Some(frame) => {
            core.start_next(table);
            frame
        }
        None => unreachable!(),
    }
}

// Begins a frame on a renderer, whose sink is emptied before.
fn begin_on(renderer: Renderer<PictureSink>, frame: Frame) -> BegunFrame<PictureSink>
    ensures frame { result.frame ≡ frame }
    ensures opening { rendering_of result.opening ≡ emptied (rendering_of renderer) }
{
    let mut renderer = renderer;
    renderer.sink_mut().clear();
    renderer.begin(frame)
}

// The renderer behind a frame that is drawn to its end, and how that went.
fn finish_on(begun: BegunFrame<PictureSink>) -> (Renderer<PictureSink>, RenderedFrame)
    ensures frame { result.1.frame ≡ begun.frame }
    ensures rendered { IsRendered (rendering_of begun.opening) result.1 (rendering_of result.0) }
{
    begun.finish(&mut SerialRasterizer)
}

// Begins the next pass, and hands its bands out to handles that are null.
fn lend_one(alloc: Global, begun: BegunFrame<PictureSink>, bands: &mut [Slot]) -> (Place, usize)
    requires { AreNull (values_of bands.old) }
    ensures { ComesNext begun result.0 result.1 (values_of bands.new) }
{
    let most = u32::try_from(bands.len()).unwrap_or(u32::MAX);
    match begun.next_pass(most) {
        Ok((lent, rows)) => {
            let count = hand_out(alloc, rows, bands);
            (Place::Within(lent), count)
        }
        Err(begun) => (Place::Between(begun), 0),
    }
}

// Begins the next pass of which a band is handed out; those of which none is are ended here, one after another.
fn lend_next(alloc: Global, begun: BegunFrame<PictureSink>, bands: &mut [Slot]) -> (Place, usize)
    requires { AreNull (values_of bands.old) }
    ensures { ComesNext begun result.0 result.1 (values_of bands.new) }
{
    let mut begun = begun;
    for _ in 0..MOST_VIEWS {
        let (place, count) = lend_one(alloc, begun, bands);
        if count > 0 {
            return (place, count);
        }
        match place {
            Place::Between(last) => return (Place::Between(last), count),
            Place::Within(lent) => match lent.end_pass(Vec::new(alloc)) {
                Ok(next) => begun = next,
                Err(lent) => return (Place::Within(lent), count),
            },
        }
    }
    lend_one(alloc, begun, bands)
}

impl Context {
    // Begins the frame of what was prepared.
    fn open_frame(self, prepared: Prepared, dropped: u64, from: Remembered<Context>) -> OpenFrame
        requires runs { is_over from.value ≡ false }
        requires ready { IsReadied prepared dropped from.value self }
        ensures from { result.from ≡ from.value }
        ensures between { IsBetween result.place }
    {
        let most = self.most();
        let Context {
            alloc,
            shared,
            core,
            things,
            lent,
            renderer,
            standing: _,
        } = self;
        let mut core = core;
        let frame = make_frame(&mut core, &shared.table, prepared);
        let place = Place::Between(begin_on(renderer, frame));
        let kept = Kept {
            alloc,
            shared,
            core,
            things,
            lent,
            dropped,
            most,
            from,
        };
        OpenFrame { kept, place }
    }

    /// Begins the frame, which is drawn in passes: makes it of what has come, and does its first commands. `Ended`, also where an encoder that
    /// has not come back was given up, and from then on; `TryAgain` where an encoder has not come back; `FramesSpent`; `OutOfMemory`. After a
    /// refusal the context comes back as it was, but for what was gathered.
    pub(crate) fn begin_frame(self) -> Result<OpenFrame, (Context, Fault)>
        ensures { BeginsFrame result self }
    {
        let from = Remembered::of(&self);
        let mut context = self;
        if context.is_ended() {
            return Err((context, Fault::Ended));
        }
        if context.is_abandoned() {
            return Err((context, Fault::Ended));
        }
        context.collect();
        let dropped = context.dropped();
        match context.prepare() {
            Err(cause) => Err((context, not_made(cause))),
            Ok(prepared) => Ok(context.open_frame(prepared, dropped, from)),
        }
    }
}

impl Kept {
    // The context again, behind the frame, whose number is answered.
    fn finish(self, begun: BegunFrame<PictureSink>) -> (Context, u32)
        requires begun { IsOpenOn (table_of self.shared.value.table) self.core self.things.rows.items self.dropped self.most self.from.value begun.frame (rendering_of begun.opening) }
        requires lent { IfSome self.lent (λ a. a.value.rows.items ≡ self.things.rows.items) }
        ensures number { result.1 ≡ begun.frame.number }
        ensures made { IsMade begun.frame self.dropped self.from.value (record self.from.value { core = came_back self.core }) }
        ensures shows { Shows begun.frame (record self.from.value { core = came_back self.core }) result.0 }
        ensures most { result.0.most ≡ self.most }
    {
        let (renderer, rendered) = finish_on(begun);
        let Kept {
            alloc,
            shared,
            core,
            things,
            lent,
            ..
        } = self;
        let mut core = core;
        core.came_back(&rendered.frame);
        let context = Context {
            alloc,
            shared,
            core,
            things,
            lent,
            renderer,
            standing: Standing::after(was_shown(&rendered.outcome)),
        };
        (context, rendered.frame.number)
    }

    // Whether a buffer has bytes, and fewer than a picture may have.
    fn is_short(&self, buffer: &[u8]) -> bool
        ensures yes { result ≡ true → (0 < length buffer.now) × (length buffer.now < self.now.most) }
        ensures no { result ≡ false → (length buffer.now == 0) ≡ false → self.now.most ≤ length buffer.now }
    {
        if buffer.is_empty() {
            return false;
        }
        buffer.len() < self.most
    }

    // Ends the frame, where no pass is out.
    fn end(
        self,
        begun: BegunFrame<PictureSink>,
        buffer: &mut [u8],
    ) -> Result<(Context, Result<Framed, Fault>), (OpenFrame, Fault)>
        requires begun { IsOpenOn (table_of self.shared.value.table) self.core self.things.rows.items self.dropped self.most self.from.value begun.frame (rendering_of begun.opening) }
        requires lent { IfSome self.lent (λ a. a.value.rows.items ≡ self.things.rows.items) }
        ensures { EndsFrame result buffer.old buffer.new (record { from = self.from.value; place = Between begun }) }
    {
        if self.is_short(buffer) {
            let place = Place::Between(begun);
            return Err((OpenFrame { kept: self, place }, Fault::TooSmall));
        }
        let dropped = self.dropped;
        let (context, number) = self.finish(begun);
        if buffer.is_empty() {
            let told = context.tell(number, dropped);
            return Ok((context, told));
        }
        let told = context.deliver(number, dropped, buffer);
        Ok((context, told))
    }
}

impl OpenFrame {
    /// Begins the next pass, and hands its bands out to handles that are null. Where none is left, the frame stays between two passes.
    /// `BadValue` where a pass is out.
    pub(crate) fn next_pass(
        self,
        alloc: Global,
        bands: &mut [Slot],
        count: &mut usize,
    ) -> (OpenFrame, u32)
        requires { AreNull (values_of bands.old) }
        ensures { BeginsPass self self.place (Some (Drawing result.0)) result.1 (values_of bands.old) (values_of bands.new) count.old count.new }
    {
        let OpenFrame { kept, place } = self;
        match place {
            Place::Within(_) => {
                let begun = OpenFrame { kept, place };
                (begun, Fault::BadValue.number())
            }
            Place::Between(begun) => {
                let (place, lent) = lend_next(alloc, begun, bands);
                *count = lent;
                (OpenFrame { kept, place }, 0)
            }
        }
    }

    /// Ends the pass that is out: rows that no band brought are drawn now. `BadValue` where none is; `TryAgain` where a band of it is still out.
    pub(crate) fn end_pass(self, alloc: Global) -> (OpenFrame, u32)
        ensures { PassEnds self self.place (Some (Drawing result.0)) result.1 }
    {
        let OpenFrame { kept, place } = self;
        match place {
            Place::Between(_) => {
                let begun = OpenFrame { kept, place };
                (begun, Fault::BadValue.number())
            }
            Place::Within(lent) => match lent.end_pass(Vec::new(alloc)) {
                Ok(begun) => {
                    let place = Place::Between(begun);
                    (OpenFrame { kept, place }, 0)
                }
                Err(lent) => {
                    let place = Place::Within(lent);
                    (OpenFrame { kept, place }, Fault::TryAgain.number())
                }
            },
        }
    }

    /// Ends the frame: draws what no pass drew, does its last commands, and writes its picture, unless the buffer has no bytes. `BadValue` where
    /// a pass is out; `TooSmall` where the buffer is; then the frame stays as it is. `OutOfMemory` where memory was wanting in its render: then
    /// the context is ended.
    pub(crate) fn end(
        self,
        buffer: &mut [u8],
    ) -> Result<(Context, Result<Framed, Fault>), (OpenFrame, Fault)>
        ensures { EndsFrame result buffer.old buffer.new self }
    {
        let OpenFrame { kept, place } = self;
        match place {
            Place::Within(_) => Err((OpenFrame { kept, place }, Fault::BadValue)),
            Place::Between(begun) => kept.end(begun, buffer),
        }
    }
}
