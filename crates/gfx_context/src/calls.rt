// The calls on things and views, for code that makes them on a book or on a context.
ghost use Rattle.std.specs.Prelude.{◌≡◌};

use crate::context::Context;
use draw_encoder::Naming;
use fix_math::{Affine, Rect};
use frame_record::FrameLink;
use gfx_words::{Format, Handle, ProgramKind, Refusal, UniformKind, ViewMode};
use resource_book::ResourceCalls;
use texture_store::TexSource;
use vertex_layout::VertexLayout;

impl<'t, C: Naming, L: FrameLink + Drop> ResourceCalls for Context<'t, C, L> {
    ghost use Rattle.gfx_context.specs.States.{ContextView, untouched};

    ghost book = { λ c. c.book };

    ghost Rest = { ContextView L };

    ghost rest = { λ c. untouched c };

    fn create_layout(&mut self, layout: VertexLayout) -> Result<Handle, Refusal> {
        Context::create_layout(self, layout)
    }

    fn create_vertex_buffer(&mut self, layout: Handle, bytes: &[u8]) -> Result<Handle, Refusal> {
        Context::create_vertex_buffer(self, layout, bytes)
    }

    fn create_index_buffer(&mut self, bytes: &[u8]) -> Result<Handle, Refusal> {
        Context::create_index_buffer(self, bytes)
    }

    fn create_texture(
        &mut self,
        width: u16,
        height: u16,
        format: Format,
        blit_dst: bool,
        source: TexSource,
    ) -> Result<Handle, Refusal> {
        Context::create_texture(self, width, height, format, blit_dst, source)
    }

    fn create_frame_buffer(
        &mut self,
        color: Handle,
        depth: Option<Handle>,
    ) -> Result<Handle, Refusal> {
        Context::create_frame_buffer(self, color, depth)
    }

    fn create_program(&mut self, kind: ProgramKind) -> Result<Handle, Refusal> {
        Context::create_program(self, kind)
    }

    fn create_uniform(&mut self, name: &[u8], kind: UniformKind) -> Result<Handle, Refusal> {
        Context::create_uniform(self, name, kind)
    }

    fn update_buffer(&mut self, buffer: Handle, offset: u32, bytes: &[u8]) -> Result<(), Refusal> {
        Context::update_buffer(self, buffer, offset, bytes)
    }

    fn update_texture(&mut self, texture: Handle, rect: Rect, bytes: &[u8]) -> Result<(), Refusal> {
        Context::update_texture(self, texture, rect, bytes)
    }

    fn destroy(&mut self, h: Handle) -> Result<(), Refusal> {
        Context::destroy(self, h)
    }

    fn set_view_rect(&mut self, view: u16, rect: Rect) -> Result<(), Refusal> {
        Context::set_view_rect(self, view, rect)
    }

    fn set_view_scissor(&mut self, view: u16, rect: Rect) -> Result<(), Refusal> {
        Context::set_view_scissor(self, view, rect)
    }

    fn set_view_clear(
        &mut self,
        view: u16,
        flags: u8,
        color: [u8; 4],
        depth: u32,
        stencil: u8,
    ) -> Result<(), Refusal> {
        Context::set_view_clear(self, view, flags, color, depth, stencil)
    }

    fn set_view_mode(&mut self, view: u16, mode: ViewMode) -> Result<(), Refusal> {
        Context::set_view_mode(self, view, mode)
    }

    fn set_view_transform(&mut self, view: u16, t: Affine) -> Result<(), Refusal> {
        Context::set_view_transform(self, view, t)
    }

    fn set_view_target(&mut self, view: u16, target: Option<Handle>) -> Result<(), Refusal> {
        Context::set_view_target(self, view, target)
    }

    fn set_view_order(&mut self, ids: &[u16]) -> Result<(), Refusal> {
        Context::set_view_order(self, ids)
    }

    fn reset_view(&mut self, view: u16) -> Result<(), Refusal> {
        Context::reset_view(self, view)
    }
}
