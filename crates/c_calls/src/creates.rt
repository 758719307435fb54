// How things are made.
ghost use Rattle.std.specs.Prelude.{◌≡◌, slice_set, Some, Err, IfOk, MatchOption};
ghost use Rattle.gfx_model.specs.Resources as model;
ghost use Rattle.gfx_model.specs.Words.{program_of_number, format_of_number, uniform_of_number};
ghost use Rattle.gfx_words.specs.Names.{handle_word};
ghost use Rattle.gfx_words.specs.Seen.{format_seen, program_seen, uniform_seen, own_source_seen};
ghost use Rattle.c_words.specs.declared.faults.Fault.TheVariants as faults;
ghost use Rattle.c_calls.specs.Calls.{CreatesHere, CreatesTexture, MakesLayout, fits_texture, OnThing, OnMaybe, given};
ghost use Rattle.c_words.specs.Statuses.{told_of};
ghost use Rattle.c_words.specs.Things.{row_of_word};
ghost use Rattle.c_words.specs.Layouts.{parts_of};

use crate::context::{Context, is_length};
use c_words::{Fault, Part, format_of, layout_of, program_of, uniform_kind_of};
use gfx_words::{Format, Handle, ProgramKind, Refusal, TexSource, UniformKind};
use std::alloc::{AllocError, Global};
use vertex_layout::VertexLayout;

// A copy of bytes.
fn copied(alloc: Global, bytes: &[u8]) -> Result<Vec<u8>, AllocError>
    ensures { IfOk result (λ v. v.items ≡ bytes.now) }
{
    let mut all = Vec::with_capacity(alloc, bytes.len())?;
    all.extend_from_slice(bytes)?;
    Ok(all)
}

// Whether a texture can have these sides and these bytes.
fn fits(width: u16, height: u16, bytes: &[u8]) -> bool
    ensures { result ≡ fits_texture width height bytes.now }
{
    is_length(width)
        && is_length(height)
        && bytes.len() as u64 == 4 * (width as u64 * height as u64)
}

/// The sides, the format and the use of a texture.
#[derive(Clone, Copy, Drop)]
pub(crate) struct TextureForm {
    pub width: u16,
    pub height: u16,
    pub format: Format,
    pub blit_dst: bool,
}

impl Context {
    // Keeps a handle that was given; what was lent is no longer the newest.
    fn remember(&mut self, h: Handle)
        ensures { self.new ≡ record self.old { rows = slice_set self.old.rows (row_of_word (handle_word h)) (Some h) } }
    {
        self.things.put(h);
        self.lent = None;
    }

    // Keeps the handle of a create.
    fn keep(&mut self, answer: Result<Handle, Refusal>) -> Result<Handle, Fault>
        ensures told { result ≡ told_of answer }
        ensures given { self.new ≡ given answer self.old.core self.old }
    {
        match answer {
            Ok(h) => {
                self.remember(h);
                Ok(h)
            }
            Err(refusal) => Err(Fault::Refused(refusal)),
        }
    }

    fn make_layout(&mut self, layout: VertexLayout) -> Result<Handle, Fault>
        ensures { CreatesHere result (model.create_layout layout) self.old self.new }
    {
        let answer = self.core.create_layout(&self.shared.table, layout);
        self.keep(answer)
    }

    fn make_vertex_buffer(&mut self, layout: Handle, bytes: &[u8]) -> Result<Handle, Fault>
        ensures { CreatesHere result (model.create_vertex_buffer layout bytes.now) self.old self.new }
    {
        let answer = self
            .core
            .create_vertex_buffer(&self.shared.table, layout, bytes);
        self.keep(answer)
    }

    fn make_texture(&mut self, of: TextureForm, source: TexSource) -> Result<Handle, Fault>
        ensures { CreatesHere result (model.create_texture of.width of.height (format_seen of.format) of.blit_dst (own_source_seen source)) self.old self.new }
    {
        let answer = self.core.create_texture(
            &self.shared.table,
            of.width,
            of.height,
            of.format,
            of.blit_dst,
            source,
        );
        self.keep(answer)
    }

    fn make_frame_buffer(&mut self, color: Handle, depth: Option<Handle>) -> Result<Handle, Fault>
        ensures { CreatesHere result (model.create_frame_buffer color depth) self.old self.new }
    {
        let answer = self
            .core
            .create_frame_buffer(&self.shared.table, color, depth);
        self.keep(answer)
    }

    fn make_program(&mut self, kind: ProgramKind) -> Result<Handle, Fault>
        ensures { CreatesHere result (model.create_program (program_seen kind)) self.old self.new }
    {
        let answer = self.core.create_program(&self.shared.table, kind);
        self.keep(answer)
    }

    fn make_uniform(&mut self, name: &[u8], kind: UniformKind) -> Result<Handle, Fault>
        ensures { CreatesHere result (model.create_uniform name.now (uniform_seen kind)) self.old self.new }
    {
        let answer = self.core.create_uniform(&self.shared.table, name, kind);
        self.keep(answer)
    }
}

impl Context {
    /// Makes a layout of parts. `BadValue` where a number of a part stands for nothing; `BadSize` where the parts make no layout; then
    /// `Full`, `SerialsSpent`.
    pub(crate) fn create_layout(&mut self, parts: &[Part]) -> Result<Handle, Fault>
        ensures { MakesLayout (parts_of parts.now) result self.old self.new }
    {
        match layout_of(parts) {
            Ok(layout) => self.make_layout(layout),
            Err(fault) => Err(fault),
        }
    }

    /// Makes a vertex buffer of a layout. `Unknown`; `BadSize`, `WrongKind`, `Stale`, `Full`, `SerialsSpent`.
    pub(crate) fn create_vertex_buffer(
        &mut self,
        layout: u64,
        bytes: &[u8],
    ) -> Result<Handle, Fault>
        ensures { OnThing self.old.rows layout result self.old self.new (λ h. CreatesHere result (model.create_vertex_buffer h bytes.now) self.old self.new) }
    {
        match self.find(layout) {
            None => Err(Fault::Unknown),
            Some(h) => self.make_vertex_buffer(h, bytes),
        }
    }

    /// Makes an index buffer. `BadSize`, `Full`, `SerialsSpent`.
    pub(crate) fn create_index_buffer(&mut self, bytes: &[u8]) -> Result<Handle, Fault>
        ensures { CreatesHere result (model.create_index_buffer bytes.now) self.old self.new }
    {
        let answer = self.core.create_index_buffer(&self.shared.table, bytes);
        self.keep(answer)
    }

    // Makes a texture of bytes, which are copied where the sides and they fit.
    fn make_texture_of(&mut self, of: TextureForm, bytes: &[u8]) -> Result<Handle, Fault>
        ensures { CreatesTexture result of.width of.height (format_seen of.format) of.blit_dst bytes.now self.old self.new }
    {
        if !fits(of.width, of.height, bytes) {
            return Err(Fault::Refused(Refusal::BadSize));
        }
        let Ok(copy) = copied(self.alloc, bytes) else {
            return Err(Fault::Refused(Refusal::OutOfMemory));
        };
        self.make_texture(of, TexSource::Bytes(copy))
    }

    /// Makes a texture of texels of four bytes. `BadValue` where no format has the number; `BadSize`, before a byte is copied; then want of
    /// memory may come; `Full`, `TexelsFull`, `SerialsSpent`.
    pub(crate) fn create_texture(
        &mut self,
        width: u16,
        height: u16,
        format: u32,
        blit_dst: bool,
        bytes: &[u8],
    ) -> Result<Handle, Fault>
        ensures { MatchOption (format_of_number format) ((result ≡ Err faults.BadValue) × (self.new ≡ self.old)) (λ f. CreatesTexture result width height f blit_dst bytes.now self.old self.new) }
    {
        let Some(format) = format_of(format) else {
            return Err(Fault::BadValue);
        };
        let of = TextureForm {
            width,
            height,
            format,
            blit_dst,
        };
        self.make_texture_of(of, bytes)
    }

    /// Makes a texture of one colour, or of one depth and stencil. `BadValue`; `BadSize`, `Full`, `TexelsFull`, `SerialsSpent`.
    pub(crate) fn create_filled_texture(
        &mut self,
        width: u16,
        height: u16,
        format: u32,
        blit_dst: bool,
        texel: [u8; 4],
    ) -> Result<Handle, Fault>
        ensures { MatchOption (format_of_number format) ((result ≡ Err faults.BadValue) × (self.new ≡ self.old)) (λ f. CreatesHere result (model.create_texture width height f blit_dst (model.fill_source texel)) self.old self.new) }
    {
        let Some(format) = format_of(format) else {
            return Err(Fault::BadValue);
        };
        let of = TextureForm {
            width,
            height,
            format,
            blit_dst,
        };
        self.make_texture(of, TexSource::Fill(texel))
    }

    /// Makes a frame buffer of a colour, and of a depth or none by 0. `Unknown` for the colour and then for the depth; `WrongKind`,
    /// `Stale`, `Full`, `SerialsSpent`.
    pub(crate) fn create_frame_buffer(&mut self, color: u64, depth: u64) -> Result<Handle, Fault>
        ensures { OnThing self.old.rows color result self.old self.new (λ h. OnMaybe self.old.rows depth result self.old self.new (λ o. CreatesHere result (model.create_frame_buffer h o) self.old self.new)) }
    {
        let Some(color) = self.find(color) else {
            return Err(Fault::Unknown);
        };
        match self.find_maybe(depth) {
            None => Err(Fault::Unknown),
            Some(depth) => self.make_frame_buffer(color, depth),
        }
    }

    /// Makes a program of a number from 0 to 3; else `BadValue`. `Full`, `SerialsSpent`.
    pub(crate) fn create_program(&mut self, program: u32) -> Result<Handle, Fault>
        ensures { MatchOption (program_of_number program) ((result ≡ Err faults.BadValue) × (self.new ≡ self.old)) (λ k. CreatesHere result (model.create_program k) self.old self.new) }
    {
        match program_of(program) {
            None => Err(Fault::BadValue),
            Some(kind) => self.make_program(kind),
        }
    }

    /// Makes a uniform of a kind 0 or 1, or refers to the live one of its name once more. `BadValue`; `BadSize`, `WrongKind`, `Full`,
    /// `SerialsSpent`.
    pub(crate) fn create_uniform(&mut self, name: &[u8], kind: u32) -> Result<Handle, Fault>
        ensures { MatchOption (uniform_of_number kind) ((result ≡ Err faults.BadValue) × (self.new ≡ self.old)) (λ k. CreatesHere result (model.create_uniform name.now k) self.old self.new) }
    {
        match uniform_kind_of(kind) {
            None => Err(Fault::BadValue),
            Some(kind) => self.make_uniform(name, kind),
        }
    }
}
