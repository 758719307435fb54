// The resource calls, whoever answers them.
ghost use Rattle.gfx_model.specs.Resources as model;
ghost use Rattle.std.specs.Prelude.{◌≡◌, None, IfErr};
ghost use Rattle.fix_math.specs.Seen.{rect_seen, affine_seen};
ghost use Rattle.gfx_words.specs.Seen.{mode_seen, format_seen, program_seen, uniform_seen};
ghost use Rattle.texture_store.specs.Seen.{own_source_seen};
ghost use Rattle.resource_book.specs.Answered.{Creates, Updates, Changes};

use crate::book::Book;
use fix_math::{Affine, Rect};
use gfx_words::{Format, Handle, ProgramKind, Refusal, UniformKind, ViewMode};
use texture_store::TexSource;
use vertex_layout::VertexLayout;

/// The calls on things and views. Each is answered as the definition answers it, with the refusals of `Book`'s call of that name.
pub trait ResourceCalls {
    ghost use Rattle.resource_book.specs.Written.{BookView};

    /// The state of the calls without contents, and what they wrote in this frame.
    ghost book: { Self → BookView };

    /// What no call changes.
    ghost Rest: { Type 0 };

    /// What no call changes, of this one.
    ghost rest: { Self → Rest };

    /// Makes a layout.
    fn create_layout(&mut self, layout: VertexLayout) -> Result<Handle, Refusal>
        ensures answer { Creates result (model.create_layout layout) (book self.old) (book self.new) }
        ensures rest { rest self.new ≡ rest self.old };

    /// Makes a vertex buffer of a layout.
    fn create_vertex_buffer(&mut self, layout: Handle, bytes: &[u8]) -> Result<Handle, Refusal>
        ensures answer { Creates result (model.create_vertex_buffer layout bytes.now) (book self.old) (book self.new) }
        ensures rest { rest self.new ≡ rest self.old };

    /// Makes an index buffer.
    fn create_index_buffer(&mut self, bytes: &[u8]) -> Result<Handle, Refusal>
        ensures answer { Creates result (model.create_index_buffer bytes.now) (book self.old) (book self.new) }
        ensures rest { rest self.new ≡ rest self.old };

    /// Makes a texture.
    fn create_texture(
        &mut self,
        width: u16,
        height: u16,
        format: Format,
        blit_dst: bool,
        source: TexSource,
    ) -> Result<Handle, Refusal>
        ensures answer { Creates result (model.create_texture width height (format_seen format) blit_dst (own_source_seen source)) (book self.old) (book self.new) }
        ensures rest { rest self.new ≡ rest self.old };

    /// Makes a frame buffer.
    fn create_frame_buffer(
        &mut self,
        color: Handle,
        depth: Option<Handle>,
    ) -> Result<Handle, Refusal>
        ensures answer { Creates result (model.create_frame_buffer color depth) (book self.old) (book self.new) }
        ensures rest { rest self.new ≡ rest self.old };

    /// Makes a program.
    fn create_program(&mut self, kind: ProgramKind) -> Result<Handle, Refusal>
        ensures answer { Creates result (model.create_program (program_seen kind)) (book self.old) (book self.new) }
        ensures rest { rest self.new ≡ rest self.old };

    /// Makes a uniform, or refers to the live one of that name once more. Memory can be wanting only where none lives.
    fn create_uniform(&mut self, name: &[u8], kind: UniformKind) -> Result<Handle, Refusal>
        ensures answer { Creates result (model.create_uniform name.now (uniform_seen kind)) (book self.old) (book self.new) }
        ensures memory { IfErr result (λ r. r ≡ Refusal.OutOfMemory → model.named_uniform (book self.old).resources name.now ≡ None) }
        ensures rest { rest self.new ≡ rest self.old };

    /// Changes bytes of a vertex or index buffer.
    fn update_buffer(&mut self, buffer: Handle, offset: u32, bytes: &[u8]) -> Result<(), Refusal>
        ensures answer { Updates result (model.update_buffer buffer offset bytes.now) (book self.old) (book self.new) }
        ensures rest { rest self.new ≡ rest self.old };

    /// Changes texels of a texture.
    fn update_texture(&mut self, texture: Handle, rect: Rect, bytes: &[u8]) -> Result<(), Refusal>
        ensures answer { Updates result (model.update_texture texture (rect_seen rect) bytes.now) (book self.old) (book self.new) }
        ensures rest { rest self.new ≡ rest self.old };

    /// Destroys a thing, or takes one reference of a uniform. It takes no memory.
    fn destroy(&mut self, h: Handle) -> Result<(), Refusal>
        ensures answer { Changes result (model.destroy h) (book self.old) (book self.new) }
        ensures rest { rest self.new ≡ rest self.old };

    /// Sets the view's part of its target.
    fn set_view_rect(&mut self, view: u16, rect: Rect) -> Result<(), Refusal>
        ensures answer { Changes result (model.set_view_rect view (rect_seen rect)) (book self.old) (book self.new) }
        ensures rest { rest self.new ≡ rest self.old };

    /// Sets the view's scissor.
    fn set_view_scissor(&mut self, view: u16, rect: Rect) -> Result<(), Refusal>
        ensures answer { Changes result (model.set_view_scissor view (rect_seen rect)) (book self.old) (book self.new) }
        ensures rest { rest self.new ≡ rest self.old };

    /// Sets what entering the view clears.
    fn set_view_clear(
        &mut self,
        view: u16,
        flags: u8,
        color: [u8; 4],
        depth: u32,
        stencil: u8,
    ) -> Result<(), Refusal>
        ensures answer { Changes result (model.set_view_clear view (record { flags = flags; color = color; depth = depth; stencil = stencil })) (book self.old) (book self.new) }
        ensures rest { rest self.new ≡ rest self.old };

    /// Sets how the view orders its draws and touches.
    fn set_view_mode(&mut self, view: u16, mode: ViewMode) -> Result<(), Refusal>
        ensures answer { Changes result (model.set_view_mode view (mode_seen mode)) (book self.old) (book self.new) }
        ensures rest { rest self.new ≡ rest self.old };

    /// Sets the view's transform.
    fn set_view_transform(&mut self, view: u16, t: Affine) -> Result<(), Refusal>
        ensures answer { Changes result (model.set_view_transform view (affine_seen t)) (book self.old) (book self.new) }
        ensures rest { rest self.new ≡ rest self.old };

    /// Sets the view's target, or the back buffer.
    fn set_view_target(&mut self, view: u16, target: Option<Handle>) -> Result<(), Refusal>
        ensures answer { Changes result (model.set_view_target view target) (book self.old) (book self.new) }
        ensures rest { rest self.new ≡ rest self.old };

    /// Sets the views that come first.
    fn set_view_order(&mut self, ids: &[u16]) -> Result<(), Refusal>
        ensures answer { Changes result (model.set_view_order ids.now) (book self.old) (book self.new) }
        ensures rest { rest self.new ≡ rest self.old };

    /// Sets the view as it is at first.
    fn reset_view(&mut self, view: u16) -> Result<(), Refusal>
        ensures answer { Changes result (model.reset_view view) (book self.old) (book self.new) }
        ensures rest { rest self.new ≡ rest self.old };
}

impl ResourceCalls for Book {
    ghost book = { λ b. b };

    ghost Rest = { Unit {0} };

    ghost rest = { λ b. tt };

    fn create_layout(&mut self, layout: VertexLayout) -> Result<Handle, Refusal> {
        Book::create_layout(self, layout)
    }

    fn create_vertex_buffer(&mut self, layout: Handle, bytes: &[u8]) -> Result<Handle, Refusal> {
        Book::create_vertex_buffer(self, layout, bytes)
    }

    fn create_index_buffer(&mut self, bytes: &[u8]) -> Result<Handle, Refusal> {
        Book::create_index_buffer(self, bytes)
    }

    fn create_texture(
        &mut self,
        width: u16,
        height: u16,
        format: Format,
        blit_dst: bool,
        source: TexSource,
    ) -> Result<Handle, Refusal> {
        Book::create_texture(self, width, height, format, blit_dst, source)
    }

    fn create_frame_buffer(
        &mut self,
        color: Handle,
        depth: Option<Handle>,
    ) -> Result<Handle, Refusal> {
        Book::create_frame_buffer(self, color, depth)
    }

    fn create_program(&mut self, kind: ProgramKind) -> Result<Handle, Refusal> {
        Book::create_program(self, kind)
    }

    fn create_uniform(&mut self, name: &[u8], kind: UniformKind) -> Result<Handle, Refusal> {
        Book::create_uniform(self, name, kind)
    }

    fn update_buffer(&mut self, buffer: Handle, offset: u32, bytes: &[u8]) -> Result<(), Refusal> {
        Book::update_buffer(self, buffer, offset, bytes)
    }

    fn update_texture(&mut self, texture: Handle, rect: Rect, bytes: &[u8]) -> Result<(), Refusal> {
        Book::update_texture(self, texture, rect, bytes)
    }

    fn destroy(&mut self, h: Handle) -> Result<(), Refusal> {
        let _died = Book::destroy(self, h)?;
        Ok(())
    }

    fn set_view_rect(&mut self, view: u16, rect: Rect) -> Result<(), Refusal> {
        Book::set_view_rect(self, view, rect)
    }

    fn set_view_scissor(&mut self, view: u16, rect: Rect) -> Result<(), Refusal> {
        Book::set_view_scissor(self, view, rect)
    }

    fn set_view_clear(
        &mut self,
        view: u16,
        flags: u8,
        color: [u8; 4],
        depth: u32,
        stencil: u8,
    ) -> Result<(), Refusal> {
        Book::set_view_clear(self, view, flags, color, depth, stencil)
    }

    fn set_view_mode(&mut self, view: u16, mode: ViewMode) -> Result<(), Refusal> {
        Book::set_view_mode(self, view, mode)
    }

    fn set_view_transform(&mut self, view: u16, t: Affine) -> Result<(), Refusal> {
        Book::set_view_transform(self, view, t)
    }

    fn set_view_target(&mut self, view: u16, target: Option<Handle>) -> Result<(), Refusal> {
        Book::set_view_target(self, view, target)
    }

    fn set_view_order(&mut self, ids: &[u16]) -> Result<(), Refusal> {
        Book::set_view_order(self, ids)
    }

    fn reset_view(&mut self, view: u16) -> Result<(), Refusal> {
        Book::reset_view(self, view)
    }
}
