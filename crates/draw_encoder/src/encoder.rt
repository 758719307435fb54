// Recording on a named table, by an encoder that ends into the queue or gives its bundle.
ghost use Rattle.std.specs.Prelude.{◌≡◌, [], length, Ok, IfOk, IfErr};
ghost use Rattle.gfx_model.specs.Recorder as calls;
ghost use Rattle.gfx_words.specs.Seen.{value_seen};
ghost use Rattle.fix_math.specs.Seen.{rect_seen, affine_seen};
ghost use Rattle.hold_table.specs.Seats.{enc_table, enc_view};
ghost use Rattle.draw_encoder.specs.Bundles.{items_of};
ghost use Rattle.draw_encoder.specs.Seen.{room_seen, copy_seen};
ghost use Rattle.gfx_model.specs.FrameCalls.{IsRoom};
ghost use Rattle.draw_encoder.specs.Calls.{EncoderView, Answers, Discards};

use crate::bundle::Bundle;
use crate::items::BlitCall;
use crate::naming::Naming;
use crate::recorder::Recorder;
use crate::shared::Shared;
use fix_math::{Affine, Rect};
use gfx_words::{Handle, Refusal, Room, UniformValue};
use hold_table::EncSeat;
use std::alloc::Global;
use std::marker::{Model, PhantomData};
use std::sync::Wait;

/// A recorder on the named table, with the named number of views, which is spent by `end` or `finish`. Each call is the `Recorder`'s, which
/// says when it is refused. Contracts see an `EncoderView`.
#[derive(Drop)]
pub struct Encoder<'t, C: Naming> {
    shared: &'t Shared<C>,
    recorder: Recorder,
}

impl<'t, C: Naming> Model for Encoder<'t, C> {
    ghost use Rattle.std.specs.Prelude.{◌≡◌};
    ghost use Rattle.draw_encoder.specs.Calls.{EncoderView};

    ghost Value = { EncoderView };

    ghost view = { λ e. e.recorder.state };

    ghost invariant = { λ e. (e.recorder.table ≡ C.table) × (e.recorder.state.recorder.view_count ≡ C.views) };
}

impl<'t, C: Naming> Encoder<'t, C> {
    /// Starts an encoder over its seat of the named table, which was split in this frame and has drawn and asked nothing.
    /// `views` is the named number of views. It makes all the room that the encoder will need. `Err` only for want of memory;
    /// the seat comes back, so that it can be joined.
    pub fn start(
        alloc: Global,
        shared: &'t Shared<C>,
        seat: EncSeat,
        number: u8,
        frame: u32,
        room: Room,
        views: u16,
    ) -> Result<Encoder<'t, C>, EncSeat>
        requires room { IsRoom (room_seen room) }
        requires views { views ≡ C.views }
        requires table { enc_table seat ≡ C.table }
        requires fresh { ((enc_view seat).numbers ≡ []) × ((enc_view seat).asked ≡ []) }
        requires whose { (number ≡ (enc_view seat).encoder) × (frame ≡ (enc_view seat).frame) }
        ensures ok { IfOk result (λ e. e ≡ record { recorder = calls.begun frame views (room_seen room); seat = enc_view seat }) }
        ensures err { IfErr result (λ s. s ≡ seat) }
    {
        let recorder = Recorder::start(alloc, seat, number, frame, room, views)?;
        Ok(Encoder { shared, recorder })
    }

    /// The number of the encoder.
    pub fn number(&self) -> u8
        ensures { result ≡ self.now.seat.encoder }
    {
        self.recorder.number()
    }

    /// The frame that is recorded.
    pub fn frame(&self) -> u32
        ensures { result ≡ self.now.recorder.frame }
    {
        self.recorder.frame()
    }

    /// How many items are recorded.
    pub fn items(&self) -> u32
        ensures { result ≡ length self.now.recorder.items }
    {
        self.recorder.items()
    }

    /// Sets the state word of the next draws.
    pub fn set_state(&mut self, word: u64) -> Result<(), Refusal>
        ensures { Answers self.old self.new (calls.set_state word) result }
    {
        self.recorder.set_state(word)
    }

    /// Sets the stencil words for both faces.
    pub fn set_stencil(&mut self, front: u32, back: u32) -> Result<(), Refusal>
        ensures { Answers self.old self.new (calls.set_stencil front back) result }
    {
        self.recorder.set_stencil(front, back)
    }

    /// Sets the scissor.
    pub fn set_scissor(&mut self, rect: Rect)
        ensures { Answers self.old self.new (calls.set_scissor (rect_seen rect)) (Ok tt) }
    {
        self.recorder.set_scissor(rect);
    }

    /// Sets the transform.
    pub fn set_transform(&mut self, model: Affine)
        ensures { Answers self.old self.new (calls.set_transform (affine_seen model)) (Ok tt) }
    {
        self.recorder.set_transform(model);
    }

    /// Takes vertices of a buffer.
    pub fn set_vertices(&mut self, buffer: Handle, first: u32, count: u32) -> Result<(), Refusal>
        ensures { Answers self.old self.new (calls.set_vertices buffer first count) result }
    {
        self.recorder
            .set_vertices(self.shared.table(), buffer, first, count)
    }

    /// Takes indices of a buffer.
    pub fn set_indices(&mut self, buffer: Handle, first: u32, count: u32) -> Result<(), Refusal>
        ensures { Answers self.old self.new (calls.set_indices buffer first count) result }
    {
        self.recorder
            .set_indices(self.shared.table(), buffer, first, count)
    }

    /// Takes a copy of bytes as vertices of a layout.
    pub fn set_transient_vertices(&mut self, layout: Handle, bytes: &[u8]) -> Result<(), Refusal>
        ensures { Answers self.old self.new (calls.set_transient_vertices layout bytes.now) result }
    {
        self.recorder
            .set_transient_vertices(self.shared.table(), layout, bytes)
    }

    /// Takes a copy of bytes as indices.
    pub fn set_transient_indices(&mut self, bytes: &[u8]) -> Result<(), Refusal>
        ensures { Answers self.old self.new (calls.set_transient_indices bytes.now) result }
    {
        self.recorder.set_transient_indices(bytes)
    }

    /// Puts a texture on a stage, or takes it off.
    pub fn set_texture(&mut self, stage: u8, texture: Option<Handle>) -> Result<(), Refusal>
        ensures { Answers self.old self.new (calls.set_texture stage texture) result }
    {
        self.recorder
            .set_texture(self.shared.table(), stage, texture)
    }

    /// Sets a value of a uniform.
    pub fn set_uniform(&mut self, uniform: Handle, value: UniformValue) -> Result<(), Refusal>
        ensures { Answers self.old self.new (calls.set_uniform uniform (value_seen value)) result }
    {
        self.recorder
            .set_uniform(self.shared.table(), uniform, value)
    }

    /// Puts down a draw.
    pub fn submit(
        &mut self,
        view: u16,
        program: Handle,
        depth: u32,
        discard: u8,
    ) -> Result<(), Refusal>
        ensures { Answers self.old self.new (calls.submit view program depth discard) result }
    {
        self.recorder
            .submit(self.shared.table(), view, program, depth, discard)
    }

    /// Puts down an empty primitive.
    pub fn touch(&mut self, view: u16) -> Result<(), Refusal>
        ensures { Answers self.old self.new (calls.touch view) result }
    {
        self.recorder.touch(self.shared.table(), view)
    }

    /// Resets the parts of the state for the next draw that the flags name, as they are where an encoder begins.
    pub fn discard(&mut self, flags: u8)
        ensures { Discards self.old self.new flags }
    {
        self.recorder.discard(flags);
    }

    /// Puts down a copy of a region between textures.
    pub fn blit(&mut self, view: u16, copy: BlitCall) -> Result<(), Refusal>
        ensures { Answers self.old self.new (calls.blit (copy_seen view copy)) result }
    {
        self.recorder.blit(self.shared.table(), view, copy)
    }

    /// Ends the recording, and gives its bundle to the caller, who has it gathered: no queue is touched, and nothing is waited
    /// for. `dropped` is the caller's own number.
    pub fn finish(self, dropped: u32) -> Bundle<C>
        requires admitted { C.admits self.seat.encoder self.seat.frame self.recorder.items dropped }
        ensures items { (items_of result.0 ≡ self.entry.recorder.items) × (result.0.dropped ≡ dropped) }
        ensures seat { enc_view result.1 ≡ self.entry.seat }
    {
        let Encoder {
            shared: _,
            recorder,
        } = self;
        let (recording, seat) = recorder.end(dropped);
        let of = PhantomData;
        Bundle {
            recording,
            seat,
            of,
        }
    }

    /// Ends the recording: the bundle goes into the queue, where it waits to be collected. `dropped` is the caller's own number.
    /// Where the queue is full, it tries again.
    pub fn end<R: Wait>(self, rt: &R, dropped: u32)
        requires admitted { C.admits self.seat.encoder self.seat.frame self.recorder.items dropped }
    {
        let shared = self.shared;
        shared.put(rt, self.finish(dropped));
    }
}
