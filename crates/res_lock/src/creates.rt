// The calls that make things.
ghost use Rattle.std.specs.Prelude.{◌≡◌, ◌<◌};
ghost use Rattle.gfx_model.specs.Resources as model;
ghost use Rattle.gfx_words.specs.Kinds.{format_seen, program_seen, uniform_seen};
ghost use Rattle.gfx_words.specs.Seen.{own_source_seen};
ghost use Rattle.res_lock.specs.Histories.{on_things};
ghost use Rattle.res_lock.specs.Seats.{pass_table, made_by};
ghost use Rattle.res_lock.specs.Called.{IsSamePass, IsCreated};

use crate::entry::{LockRefusal, ResCall};
use crate::lock::ResLock;
use crate::naming::HistoryNaming;
use crate::table::ResPass;
use draw_encoder::Naming;
use frame_record::FrameLink;
use gfx_words::{Format, Handle, ProgramKind, TexSource, UniformKind};
use std::sync::Wait;
use vertex_layout::VertexLayout;

impl<'t, C: Naming, L: FrameLink + Drop, H: HistoryNaming> ResLock<'t, C, L, H> {
    /// Makes a layout. `Full` exactly where 64 layouts live or wait; then `SerialsSpent` exactly where no serial is left.
    pub fn create_layout<R: Wait>(
        &self,
        rt: &R,
        pass: &mut ResPass,
        layout: VertexLayout,
    ) -> Result<Handle, LockRefusal>
        requires table { pass_table pass.old ≡ H.table }
        requires few { made_by pass.old < 4294967295 }
        ensures pass { IsSamePass pass.old pass.new }
        ensures answer { IsCreated H.start (on_things (model.create_layout layout)) result pass.old pass.new }
    {
        self.create(rt, pass, ResCall::CreateLayout { layout })
    }

    /// Makes a vertex buffer of a layout. `BadSize` exactly where there are not 1 to 524,288 bytes; then `WrongKind`,
    /// `Stale`, `Full` (1,024) and `SerialsSpent`.
    pub fn create_vertex_buffer<R: Wait>(
        &self,
        rt: &R,
        pass: &mut ResPass,
        layout: Handle,
        bytes: &[u8],
    ) -> Result<Handle, LockRefusal>
        requires table { pass_table pass.old ≡ H.table }
        requires few { made_by pass.old < 4294967295 }
        ensures pass { IsSamePass pass.old pass.new }
        ensures answer { IsCreated H.start (on_things (model.create_vertex_buffer layout bytes.now)) result pass.old pass.new }
    {
        let bytes = self.kept_bytes(bytes)?;
        self.create(rt, pass, ResCall::CreateVertexBuffer { layout, bytes })
    }

    /// Makes an index buffer. `BadSize` exactly where there are not 2 to 524,288 bytes, or an odd number; then `Full` (1,024)
    /// and `SerialsSpent`.
    pub fn create_index_buffer<R: Wait>(
        &self,
        rt: &R,
        pass: &mut ResPass,
        bytes: &[u8],
    ) -> Result<Handle, LockRefusal>
        requires table { pass_table pass.old ≡ H.table }
        requires few { made_by pass.old < 4294967295 }
        ensures pass { IsSamePass pass.old pass.new }
        ensures answer { IsCreated H.start (on_things (model.create_index_buffer bytes.now)) result pass.old pass.new }
    {
        let bytes = self.kept_bytes(bytes)?;
        self.create(rt, pass, ResCall::CreateIndexBuffer { bytes })
    }

    /// Makes a texture. `BadSize` exactly where a side is not 1 to 2,048 or there are not four bytes a texel; then `Full`
    /// (1,024); then `TexelsFull` exactly where all live and waiting textures and this one have more than 33,554,432 texels;
    /// then `SerialsSpent`.
    pub fn create_texture<R: Wait>(
        &self,
        rt: &R,
        pass: &mut ResPass,
        width: u16,
        height: u16,
        format: Format,
        blit_dst: bool,
        source: TexSource,
    ) -> Result<Handle, LockRefusal>
        requires table { pass_table pass.old ≡ H.table }
        requires few { made_by pass.old < 4294967295 }
        ensures pass { IsSamePass pass.old pass.new }
        ensures answer { IsCreated H.start (on_things (model.create_texture width height (format_seen format) blit_dst (own_source_seen source))) result pass.old pass.new }
    {
        self.create(
            rt,
            pass,
            ResCall::CreateTexture {
                width,
                height,
                format,
                blit_dst,
                source,
            },
        )
    }

    /// Makes a frame buffer. `WrongKind` exactly where the colour is no rgba8 texture, or a depth is given that is no d24s8
    /// texture of the same sides; then `Stale` of the colour and of the depth, `Full` (128) and `SerialsSpent`.
    pub fn create_frame_buffer<R: Wait>(
        &self,
        rt: &R,
        pass: &mut ResPass,
        color: Handle,
        depth: Option<Handle>,
    ) -> Result<Handle, LockRefusal>
        requires table { pass_table pass.old ≡ H.table }
        requires few { made_by pass.old < 4294967295 }
        ensures pass { IsSamePass pass.old pass.new }
        ensures answer { IsCreated H.start (on_things (model.create_frame_buffer color depth)) result pass.old pass.new }
    {
        self.create(rt, pass, ResCall::CreateFrameBuffer { color, depth })
    }

    /// Makes a program. `Full` exactly where 256 programs live or wait; then `SerialsSpent`.
    pub fn create_program<R: Wait>(
        &self,
        rt: &R,
        pass: &mut ResPass,
        kind: ProgramKind,
    ) -> Result<Handle, LockRefusal>
        requires table { pass_table pass.old ≡ H.table }
        requires few { made_by pass.old < 4294967295 }
        ensures pass { IsSamePass pass.old pass.new }
        ensures answer { IsCreated H.start (on_things (model.create_program (program_seen kind))) result pass.old pass.new }
    {
        self.create(rt, pass, ResCall::CreateProgram { kind })
    }

    /// Makes a uniform, or refers to the live one of that name once more. `BadSize` exactly where the name has not 1 to 32
    /// bytes; then, where one lives, `WrongKind` for the other kind and `Full` at 65,535 references; else `Full` (256) and
    /// `SerialsSpent`.
    pub fn create_uniform<R: Wait>(
        &self,
        rt: &R,
        pass: &mut ResPass,
        name: &[u8],
        kind: UniformKind,
    ) -> Result<Handle, LockRefusal>
        requires table { pass_table pass.old ≡ H.table }
        requires few { made_by pass.old < 4294967295 }
        ensures pass { IsSamePass pass.old pass.new }
        ensures answer { IsCreated H.start (on_things (model.create_uniform name.now (uniform_seen kind))) result pass.old pass.new }
    {
        let name = self.kept_bytes(name)?;
        self.create(rt, pass, ResCall::CreateUniform { name, kind })
    }
}
