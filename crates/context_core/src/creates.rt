// How things are made and destroyed.
ghost use Rattle.gfx_model.specs.Resources as model;
ghost use Rattle.gfx_words.specs.Kinds.{format_seen, program_seen, uniform_seen};
ghost use Rattle.texture_store.specs.Seen.{own_source_seen};
ghost use Rattle.hold_table.specs.Seats.{table_of};
ghost use Rattle.context_core.specs.States.{own};
ghost use Rattle.std.specs.Prelude.{◌≡◌, false, None, IfErr};

use crate::context::ContextCore;
use crate::marks::{mark_dying, mark_live};
use gfx_words::{Format, Handle, ProgramKind, Refusal, UniformKind};
use hold_table::HoldTable;
use texture_store::TexSource;
use vertex_layout::VertexLayout;

impl ContextCore {
    ghost use Rattle.context_core.specs.Calls.{Creates, Destroys};
    ghost use Rattle.context_core.specs.Kept.{KeepsUsable};

    /// Makes a layout. `Full` exactly where 64 layouts live or wait; then `SerialsSpent` exactly where no serial is left.
    pub fn create_layout(
        &mut self,
        table: &HoldTable,
        layout: VertexLayout,
    ) -> Result<Handle, Refusal>
        requires table { self.old.table ≡ table_of table.now }
        requires not_given { self.old.state.is_given ≡ false }
        ensures answer { Creates own result (model.create_layout layout) self.old self.new }
        ensures stays { KeepsUsable self.old.state self.new.state }
    {
        self.book.tell_facts();
        let handle = self.book.create_layout(layout)?;
        mark_live(table, &mut self.api, handle, true);
        Ok(handle)
    }

    /// Makes a vertex buffer of a layout. `BadSize` exactly where there are not 1 to 524,288 bytes; then `WrongKind`, `Stale`,
    /// `Full` (1,024) and `SerialsSpent`.
    pub fn create_vertex_buffer(
        &mut self,
        table: &HoldTable,
        layout: Handle,
        bytes: &[u8],
    ) -> Result<Handle, Refusal>
        requires table { self.old.table ≡ table_of table.now }
        requires not_given { self.old.state.is_given ≡ false }
        ensures answer { Creates own result (model.create_vertex_buffer layout bytes.now) self.old self.new }
        ensures stays { KeepsUsable self.old.state self.new.state }
    {
        self.book.tell_facts();
        let handle = self.book.create_vertex_buffer(layout, bytes)?;
        mark_live(table, &mut self.api, handle, true);
        Ok(handle)
    }

    /// Makes an index buffer. `BadSize` exactly where there are not 2 to 524,288 bytes, or an odd number; then `Full` (1,024) and
    /// `SerialsSpent`.
    pub fn create_index_buffer(
        &mut self,
        table: &HoldTable,
        bytes: &[u8],
    ) -> Result<Handle, Refusal>
        requires table { self.old.table ≡ table_of table.now }
        requires not_given { self.old.state.is_given ≡ false }
        ensures answer { Creates own result (model.create_index_buffer bytes.now) self.old self.new }
        ensures stays { KeepsUsable self.old.state self.new.state }
    {
        self.book.tell_facts();
        let handle = self.book.create_index_buffer(bytes)?;
        mark_live(table, &mut self.api, handle, true);
        Ok(handle)
    }

    /// Makes a texture. `BadSize` exactly where a side is not 1 to 2,048 or there are not four bytes a texel; then `Full`
    /// (1,024); then `TexelsFull` exactly where all live and waiting textures and this one have more than 33,554,432 texels;
    /// then `SerialsSpent`.
    pub fn create_texture(
        &mut self,
        table: &HoldTable,
        width: u16,
        height: u16,
        format: Format,
        blit_dst: bool,
        source: TexSource,
    ) -> Result<Handle, Refusal>
        requires table { self.old.table ≡ table_of table.now }
        requires not_given { self.old.state.is_given ≡ false }
        ensures answer { Creates own result (model.create_texture width height (format_seen format) blit_dst (own_source_seen source)) self.old self.new }
        ensures stays { KeepsUsable self.old.state self.new.state }
    {
        self.book.tell_facts();
        let handle = self
            .book
            .create_texture(width, height, format, blit_dst, source)?;
        mark_live(table, &mut self.api, handle, true);
        Ok(handle)
    }

    /// Makes a frame buffer. `WrongKind` exactly where the colour is no rgba8 texture, or a depth is given that is no d24s8
    /// texture of the same sides; then `Stale` of the colour and of the depth, `Full` (128) and `SerialsSpent`.
    pub fn create_frame_buffer(
        &mut self,
        table: &HoldTable,
        color: Handle,
        depth: Option<Handle>,
    ) -> Result<Handle, Refusal>
        requires table { self.old.table ≡ table_of table.now }
        requires not_given { self.old.state.is_given ≡ false }
        ensures answer { Creates own result (model.create_frame_buffer color depth) self.old self.new }
        ensures stays { KeepsUsable self.old.state self.new.state }
    {
        self.book.tell_facts();
        let handle = self.book.create_frame_buffer(color, depth)?;
        mark_live(table, &mut self.api, handle, true);
        Ok(handle)
    }

    /// Makes a program. `Full` exactly where 256 programs live or wait; then `SerialsSpent`.
    pub fn create_program(
        &mut self,
        table: &HoldTable,
        kind: ProgramKind,
    ) -> Result<Handle, Refusal>
        requires table { self.old.table ≡ table_of table.now }
        requires not_given { self.old.state.is_given ≡ false }
        ensures answer { Creates own result (model.create_program (program_seen kind)) self.old self.new }
        ensures stays { KeepsUsable self.old.state self.new.state }
    {
        self.book.tell_facts();
        let handle = self.book.create_program(kind)?;
        mark_live(table, &mut self.api, handle, true);
        Ok(handle)
    }

    /// Makes a uniform, or refers to the live one of that name once more. `BadSize` exactly where the name has not 1 to 32 bytes;
    /// then, where one lives, `WrongKind` for the other kind and `Full` at 65,535 references; else `Full` (256) and `SerialsSpent`.
    /// Memory can be wanting only where none lives.
    pub fn create_uniform(
        &mut self,
        table: &HoldTable,
        name: &[u8],
        kind: UniformKind,
    ) -> Result<Handle, Refusal>
        requires table { self.old.table ≡ table_of table.now }
        requires not_given { self.old.state.is_given ≡ false }
        ensures answer { Creates own result (model.create_uniform name.now (uniform_seen kind)) self.old self.new }
        ensures memory { IfErr result (λ r. r ≡ Refusal.OutOfMemory → model.named_uniform self.old.state.book.resources name.now ≡ None) }
        ensures stays { KeepsUsable self.old.state self.new.state }
    {
        self.book.tell_facts();
        let before = self.book.rows().len();
        let handle = self.book.create_uniform(name, kind)?;
        let is_new = self.book.rows().len() > before;
        mark_live(table, &mut self.api, handle, is_new);
        Ok(handle)
    }

    /// Destroys a thing, or takes one reference of a uniform. `Stale` exactly where the handle's place does not have its serial
    /// live; then `Attached`, with the holder of least index, exactly where a live frame buffer holds the texture. It takes no
    /// memory. What died can be named in this frame, and its index is given again when no frame that is out can name it.
    pub fn destroy(&mut self, table: &HoldTable, h: Handle) -> Result<(), Refusal>
        requires table { self.old.table ≡ table_of table.now }
        requires not_given { self.old.state.is_given ≡ false }
        ensures answer { Destroys own result h self.old self.new }
        ensures stays { KeepsUsable self.old.state self.new.state }
    {
        self.book.tell_facts();
        h.tell_facts();
        let died = self.book.destroy(h)?;
        mark_dying(table, &mut self.api, h, died);
        Ok(())
    }
}
