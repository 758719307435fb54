// The end of a frame, and its picture.
ghost use Rattle.std.specs.Prelude.{◌≡◌, ◌≤◌, ◌++◌, true, false, drop, length, IfSome};
ghost use Rattle.hold_table.specs.Seats.{table_of};
ghost use Rattle.context_core.specs.Ended.{IsReady, Prepares, Gives};
ghost use Rattle.context_core.specs.Gathered.{dropped_in};
ghost use Rattle.context_core.specs.States.{CoreView};
ghost use Rattle.render_core.specs.Outcomes.{is_shown};
ghost use Rattle.render_core.specs.Rendered.{IsRendered};
ghost use Rattle.c_calls.specs.Frames.{MakesFrame, Shows, Delivers, Tells, FramesSeen, FramesUnseen, FramesInto, FramesHere, HandsOut, emptied, fault_of, came_back, IsAbandoned};
ghost use Rattle.c_calls.specs.Calls.{is_over};
ghost use Rattle.c_calls.specs.Views.{ContextView};
ghost use Rattle.c_calls.specs.Rendered.{rendering_of};
ghost use Rattle.c_calls.specs.Standings.{is_open, SaysGivenUp};
ghost use Rattle.c_calls.specs.declared.standing.Standing.TheVariants.{GivenUp};

use crate::context::Context;
use crate::picture::PictureSink;
use crate::standing::Standing;
use c_words::Fault;
use context_core::{ContextCore, FrameEnd, NotReady, Prepared};
use frame_record::{Frame, Outcome, RenderedFrame};
use gfx_words::Refusal;
use hold_table::HoldTable;
use letter_boxes::{Letter, Unclaimed};
use render_core::{Renderer, SerialRasterizer};

/// What C is told of a frame: its number, how many bytes of picture were written, and the sum of the numbers that its encoders ended with.
#[repr(C)]
#[derive(Clone, Copy, Drop)]
pub struct Framed {
    pub number: u32,
    pub picture: usize,
    pub dropped: u64,
}

// Why a frame is not made, as C is told it.
pub(crate) fn not_made(cause: NotReady) -> Fault
    ensures { result ≡ fault_of cause }
{
    match cause {
        NotReady::EncodersOff => Fault::TryAgain,
        NotReady::FramesSpent => Fault::Refused(Refusal::FramesSpent),
        NotReady::OutOfMemory => Fault::Refused(Refusal::OutOfMemory),
    }
}

// Renders a frame into the sink, which is emptied before.
fn render(renderer: &mut Renderer<PictureSink>, frame: Frame) -> RenderedFrame
    ensures frame { result.frame ≡ frame }
    ensures rendered { IsRendered (emptied (rendering_of renderer.old)) result (rendering_of renderer.new) }
    ensures capacity { renderer.new.sink.capacity ≡ renderer.old.sink.capacity }
{
    renderer.sink_mut().clear();
    renderer.render(&mut SerialRasterizer, frame)
}

// Ends a frame that is ready, while none is out: it is made and rendered, then the next one starts, and it is out no longer.
fn finish(
    core: &mut ContextCore,
    table: &HoldTable,
    renderer: &mut Renderer<PictureSink>,
    prepared: Prepared,
) -> RenderedFrame
    requires running { core.old.state.is_ended ≡ false }
    requires not_given { core.old.state.is_given ≡ false }
    requires table { core.old.table ≡ table_of table.now }
    requires none_out { core.old.state.out ≡ 0 }
    requires ready { (mid : CoreView) × IsReady prepared mid core.old }
    ensures made { (made : CoreView) × Gives prepared.work result.frame core.old made × (core.new ≡ came_back made) }
    ensures rendered { IsRendered (emptied (rendering_of renderer.old)) result (rendering_of renderer.new) }
    ensures capacity { renderer.new.sink.capacity ≡ renderer.old.sink.capacity }
{
    core.tell_facts();
    let FrameEnd { frame, journal: _ } = core.make(prepared, true);
    match frame {
        Some(frame) => {
            let rendered = render(renderer, frame);
            core.start_next(table);
            core.came_back(&rendered.frame);
            rendered
        }
        None => unreachable!(),
    }
}

pub(crate) fn was_shown(outcome: &Outcome) -> bool
    ensures { result ≡ is_shown outcome.now }
{
    matches!(outcome, Outcome::Shown)
}

// Copies a text to the front of a buffer, which has room for it.
fn copy_front(text: &[u8], buffer: &mut [u8])
    requires { length text.now ≤ length buffer.old }
    ensures { buffer.new ≡ text.now ++ drop (length text.now) buffer.old }
{
    buffer[..text.len()].copy_from_slice(text);
}

impl Context {
    // The sum of the numbers that the encoders whose recordings have come ended with.
    pub(crate) fn dropped(&self) -> u64
        ensures { result ≡ dropped_in self.now.core.state.gathered }
    {
        self.core.dropped()
    }

    pub(crate) fn prepare(&mut self) -> Result<Prepared, NotReady>
        ensures prepares { Prepares result self.old.core self.new.core }
        ensures same { self.new ≡ record self.old { core = self.new.core } }
    {
        self.core.prepare()
    }

    // Makes the frame of what was prepared, renders it, and starts the next one. The answer is its number.
    fn finish(&mut self, prepared: Prepared) -> u32
        requires ready { (mid : CoreView) × IsReady prepared mid self.old.core }
        ensures { (frame : Frame) × (made : CoreView) × (result ≡ frame.number) × Gives prepared.work frame self.old.core made × Shows frame (record self.old { core = came_back made }) self.new }
    {
        let rendered = finish(
            &mut self.core,
            &self.shared.table,
            &mut self.renderer,
            prepared,
        );
        self.standing = Standing::after(was_shown(&rendered.outcome));
        rendered.frame.number
    }

    // Makes a frame of what has come, and renders it. The answer is its number, and the sum of the numbers that its encoders ended
    // with.
    fn make(&mut self) -> Result<(u32, u64), Fault>
        ensures { MakesFrame result self.old self.new }
    {
        self.collect();
        let dropped = self.dropped();
        match self.prepare() {
            Err(cause) => Err(not_made(cause)),
            Ok(prepared) => Ok((self.finish(prepared), dropped)),
        }
    }

    fn is_shown(&self) -> bool
        ensures { result ≡ is_open self.now.standing }
    {
        self.standing.is_open()
    }

    // Copies the picture in the sink to the front of the buffer, and answers how many bytes it has.
    fn hand_out(&self, buffer: &mut [u8]) -> usize
        requires { self.now.most ≤ length buffer.old }
        ensures { HandsOut self.now.renderer.held result buffer.old buffer.new }
    {
        let text = self.renderer.sink().text();
        copy_front(text, buffer);
        text.len()
    }

    // Hands out the picture of a frame that was rendered, where it was shown.
    pub(crate) fn deliver(
        &self,
        number: u32,
        dropped: u64,
        buffer: &mut [u8],
    ) -> Result<Framed, Fault>
        requires { self.now.most ≤ length buffer.old }
        ensures { (frame : Frame) (before : ContextView) → number ≡ frame.number → Shows frame before self.now → Delivers result frame dropped buffer.old buffer.new before self.now }
    {
        if !self.is_shown() {
            return Err(Fault::Refused(Refusal::OutOfMemory));
        }
        let picture = self.hand_out(buffer);
        Ok(Framed {
            number,
            picture,
            dropped,
        })
    }

    // Tells a frame that was rendered without a buffer, where it was shown.
    pub(crate) fn tell(&self, number: u32, dropped: u64) -> Result<Framed, Fault>
        ensures { (frame : Frame) (before : ContextView) → number ≡ frame.number → Shows frame before self.now → Tells result frame dropped before self.now }
    {
        if !self.is_shown() {
            return Err(Fault::Refused(Refusal::OutOfMemory));
        }
        Ok(Framed {
            number,
            picture: 0,
            dropped,
        })
    }

    // Ends the frame, and writes its picture.
    fn frame_seen(&mut self, buffer: &mut [u8]) -> Result<Framed, Fault>
        requires { is_over self.old ≡ false }
        ensures { FramesSeen result buffer.old buffer.new self.old self.new }
    {
        if buffer.len() < self.most() {
            return Err(Fault::TooSmall);
        }
        match self.make() {
            Err(fault) => Err(fault),
            Ok((number, dropped)) => self.deliver(number, dropped, buffer),
        }
    }

    // Ends the frame without a buffer.
    fn frame_unseen(&mut self) -> Result<Framed, Fault>
        requires { is_over self.old ≡ false }
        ensures { FramesUnseen result self.old self.new }
    {
        match self.make() {
            Err(fault) => Err(fault),
            Ok((number, dropped)) => self.tell(number, dropped),
        }
    }

    fn frame_into(&mut self, buffer: &mut [u8]) -> Result<Framed, Fault>
        requires { is_over self.old ≡ false }
        ensures { FramesInto result buffer.old buffer.new self.old self.new }
    {
        if buffer.is_empty() {
            return self.frame_unseen();
        }
        self.frame_seen(buffer)
    }

    // The letter of an encoder of the table that was given up, where there is one.
    fn lost_letter(&self) -> Option<Letter<Unclaimed>>
        ensures { IfSome result (λ l. SaysGivenUp self.now.core.table l) }
    {
        self.shared.find_given_up()
    }

    // Keeps the letter of an encoder that was given up. No encoder begins and no frame ends from then on.
    fn keep_letter(&mut self, letter: Letter<Unclaimed>)
        ensures { self.new ≡ record self.old { standing = GivenUp letter } }
    {
        self.standing = Standing::GivenUp(letter);
    }

    // Whether an encoder has not come back and one was given up, whose letter is kept then.
    pub(crate) fn is_abandoned(&mut self) -> bool
        ensures abandoned { result ≡ true → IsAbandoned self.old self.new }
        ensures same { result ≡ false → self.new ≡ self.old }
    {
        if self.off() == 0 {
            return false;
        }
        let Some(letter) = self.lost_letter() else {
            return false;
        };
        self.keep_letter(letter);
        true
    }

    /// Ends the frame, renders it, and writes its picture, unless the buffer has no bytes. `Ended`, also where an encoder that has not come
    /// back was given up, and from then on; `TooSmall` where the buffer is; `TryAgain` where an encoder has not come back; `FramesSpent`. After
    /// `OutOfMemory` the frame can be ended again, unless memory was wanting in its render: then the context is ended. After a refusal the
    /// buffer is as before.
    pub(crate) fn frame(&mut self, buffer: &mut [u8]) -> Result<Framed, Fault>
        ensures { FramesHere result buffer.old buffer.new self.old self.new }
    {
        if self.is_ended() {
            return Err(Fault::Ended);
        }
        if self.is_abandoned() {
            return Err(Fault::Ended);
        }
        self.frame_into(buffer)
    }
}
