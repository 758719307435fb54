// The record calls of an encoder.
ghost use Rattle.std.specs.Prelude.{◌≡◌};
ghost use Rattle.fix_math.specs.Seen.{rect_seen, affine_seen};
ghost use Rattle.gfx_model.specs.Recorder as calls;
ghost use Rattle.gfx_words.specs.Seen.{value_seen};
ghost use Rattle.draw_encoder.specs.Seen.{copy_seen};
ghost use Rattle.c_calls.specs.Calls.{Records, DiscardsHere, OnThing, OnMaybe};
ghost use Rattle.c_calls.specs.Blits.{blit_of};

use crate::encoder::Encoder;
use c_words::{Fault, told};
use draw_encoder::BlitCall;
use fix_math::{Affine, Rect};
use gfx_words::{Handle, UniformValue};

/// The places of a copy between textures, and its sides.
#[derive(Clone, Copy, Drop)]
pub(crate) struct Copied {
    pub dx: u16,
    pub dy: u16,
    pub sx: u16,
    pub sy: u16,
    pub w: u16,
    pub h: u16,
}

impl Encoder {
    fn vertices_of(&mut self, buffer: Handle, first: u32, count: u32) -> Result<(), Fault>
        ensures { Records result (calls.set_vertices buffer first count) self.old self.new }
    {
        told(
            self.recorder
                .set_vertices(&self.shared.table, buffer, first, count),
        )
    }

    fn indices_of(&mut self, buffer: Handle, first: u32, count: u32) -> Result<(), Fault>
        ensures { Records result (calls.set_indices buffer first count) self.old self.new }
    {
        told(
            self.recorder
                .set_indices(&self.shared.table, buffer, first, count),
        )
    }

    fn transient_vertices_of(&mut self, layout: Handle, bytes: &[u8]) -> Result<(), Fault>
        ensures { Records result (calls.set_transient_vertices layout bytes.now) self.old self.new }
    {
        told(
            self.recorder
                .set_transient_vertices(&self.shared.table, layout, bytes),
        )
    }

    fn texture_on(&mut self, stage: u8, texture: Option<Handle>) -> Result<(), Fault>
        ensures { Records result (calls.set_texture stage texture) self.old self.new }
    {
        told(
            self.recorder
                .set_texture(&self.shared.table, stage, texture),
        )
    }

    fn value_of(&mut self, uniform: Handle, value: UniformValue) -> Result<(), Fault>
        ensures { Records result (calls.set_uniform uniform (value_seen value)) self.old self.new }
    {
        told(
            self.recorder
                .set_uniform(&self.shared.table, uniform, value),
        )
    }

    fn submit_by(
        &mut self,
        view: u16,
        program: Handle,
        depth: u32,
        discard: u8,
    ) -> Result<(), Fault>
        ensures { Records result (calls.submit view program depth discard) self.old self.new }
    {
        told(
            self.recorder
                .submit(&self.shared.table, view, program, depth, discard),
        )
    }

    fn blit_between(&mut self, view: u16, copy: BlitCall) -> Result<(), Fault>
        ensures { Records result (calls.blit (copy_seen view copy)) self.old self.new }
    {
        told(self.recorder.blit(&self.shared.table, view, copy))
    }
}

impl Encoder {
    /// Sets the state word of the next draws. `BadState`.
    pub(crate) fn set_state(&mut self, word: u64) -> Result<(), Fault>
        ensures { Records result (calls.set_state word) self.old self.new }
    {
        told(self.recorder.set_state(word))
    }

    /// Sets the stencil words. `BadState`.
    pub(crate) fn set_stencil(&mut self, front: u32, back: u32) -> Result<(), Fault>
        ensures { Records result (calls.set_stencil front back) self.old self.new }
    {
        told(self.recorder.set_stencil(front, back))
    }

    /// Sets the scissor.
    pub(crate) fn set_scissor(&mut self, rect: Rect) -> Result<(), Fault>
        ensures { Records result (calls.set_scissor (rect_seen rect)) self.old self.new }
    {
        self.recorder.set_scissor(rect);
        told(Ok(()))
    }

    /// Sets the transform.
    pub(crate) fn set_transform(&mut self, model: Affine) -> Result<(), Fault>
        ensures { Records result (calls.set_transform (affine_seen model)) self.old self.new }
    {
        self.recorder.set_transform(model);
        told(Ok(()))
    }

    /// Takes vertices of a buffer. `Unknown` where the word names nothing that was made before the encoder began, as of each call that
    /// names a thing; then `WrongKind`, `Stale`.
    pub(crate) fn set_vertices(&mut self, buffer: u64, first: u32, count: u32) -> Result<(), Fault>
        ensures { OnThing self.old.rows buffer result self.old self.new (λ h. Records result (calls.set_vertices h first count) self.old self.new) }
    {
        match self.find(buffer) {
            None => Err(Fault::Unknown),
            Some(h) => self.vertices_of(h, first, count),
        }
    }

    /// Takes indices of a buffer. `Unknown`; `WrongKind`, `Stale`.
    pub(crate) fn set_indices(&mut self, buffer: u64, first: u32, count: u32) -> Result<(), Fault>
        ensures { OnThing self.old.rows buffer result self.old self.new (λ h. Records result (calls.set_indices h first count) self.old self.new) }
    {
        match self.find(buffer) {
            None => Err(Fault::Unknown),
            Some(h) => self.indices_of(h, first, count),
        }
    }

    /// Takes a copy of bytes as vertices of a layout. `Unknown`; `WrongKind`, `Stale`, `BytesFull`.
    pub(crate) fn set_transient_vertices(&mut self, layout: u64, bytes: &[u8]) -> Result<(), Fault>
        ensures { OnThing self.old.rows layout result self.old self.new (λ h. Records result (calls.set_transient_vertices h bytes.now) self.old self.new) }
    {
        match self.find(layout) {
            None => Err(Fault::Unknown),
            Some(h) => self.transient_vertices_of(h, bytes),
        }
    }

    /// Takes a copy of bytes as indices. `BytesFull`.
    pub(crate) fn set_transient_indices(&mut self, bytes: &[u8]) -> Result<(), Fault>
        ensures { Records result (calls.set_transient_indices bytes.now) self.old self.new }
    {
        told(self.recorder.set_transient_indices(bytes))
    }

    /// Puts a texture on stage 0 or 1, or takes it off by 0. `Unknown`; `WrongKind`, `Stale`, `BadRange`.
    pub(crate) fn set_texture(&mut self, stage: u8, texture: u64) -> Result<(), Fault>
        ensures { OnMaybe self.old.rows texture result self.old self.new (λ o. Records result (calls.set_texture stage o) self.old self.new) }
    {
        match self.find_maybe(texture) {
            None => Err(Fault::Unknown),
            Some(texture) => self.texture_on(stage, texture),
        }
    }

    /// Sets a value of a uniform. `Unknown`; `WrongKind`, `Stale`, `RoomFull`.
    pub(crate) fn set_uniform(&mut self, uniform: u64, value: UniformValue) -> Result<(), Fault>
        ensures { OnThing self.old.rows uniform result self.old self.new (λ h. Records result (calls.set_uniform h (value_seen value)) self.old self.new) }
    {
        match self.find(uniform) {
            None => Err(Fault::Unknown),
            Some(h) => self.value_of(h, value),
        }
    }

    /// Puts down a draw by a program. `Unknown`; `BadView`, `WrongKind`, `Stale`, `RoomFull`.
    pub(crate) fn submit(
        &mut self,
        view: u16,
        program: u64,
        depth: u32,
        discard: u8,
    ) -> Result<(), Fault>
        ensures { OnThing self.old.rows program result self.old self.new (λ h. Records result (calls.submit view h depth discard) self.old self.new) }
    {
        match self.find(program) {
            None => Err(Fault::Unknown),
            Some(h) => self.submit_by(view, h, depth, discard),
        }
    }

    /// Resets the parts of the state for the next draw that the flags name.
    pub(crate) fn discard(&mut self, flags: u8) -> Result<(), Fault>
        ensures { DiscardsHere result flags self.old self.new }
    {
        self.recorder.discard(flags);
        told(Ok(()))
    }

    /// Puts down an empty primitive. `BadView`, `RoomFull`.
    pub(crate) fn touch(&mut self, view: u16) -> Result<(), Fault>
        ensures { Records result (calls.touch view) self.old self.new }
    {
        told(self.recorder.touch(&self.shared.table, view))
    }

    /// Puts down a copy of a region between textures. `Unknown` for the destination and then for the source; `BadView`, `WrongKind`,
    /// `Stale`, `NotBlitDst`, `RoomFull`.
    pub(crate) fn blit(&mut self, view: u16, dst: u64, src: u64, at: Copied) -> Result<(), Fault>
        ensures { OnThing self.old.rows dst result self.old self.new (λ to. OnThing self.old.rows src result self.old self.new (λ from. Records result (calls.blit (blit_of view to from at)) self.old self.new)) }
    {
        let Some(dst) = self.find(dst) else {
            return Err(Fault::Unknown);
        };
        let Some(src) = self.find(src) else {
            return Err(Fault::Unknown);
        };
        let copy = BlitCall {
            dst,
            dx: at.dx,
            dy: at.dy,
            src,
            sx: at.sx,
            sy: at.sy,
            w: at.w,
            h: at.h,
        };
        self.blit_between(view, copy)
    }
}
