// Executes the commands of a frame on the stores.
ghost use Rattle.std.specs.Prelude.{◌≡◌, ◌≢◌, true, Some, OnOk, OnErr, option_map};
ghost use Rattle.gfx_words.specs.Seen.{kind_seen, program_seen};
ghost use Rattle.cmd_buffer.specs.Seen.{command_seen};
ghost use Rattle.store_laws.specs.ByIndex.{after_command, all_commanded, program_made, destroyed_by};
ghost use Rattle.render_stores.specs.Memory.{takes_memory, IsStopped};
ghost use Rattle.render_stores.specs.Payloads.{payloads_seen};
ghost use Rattle.render_stores.specs.Seen.{stores_seen};

use crate::buffer_commands::{
    make_indices, make_layout, make_uniform, make_vertices, update_buffer,
};
use crate::free::is_program_free;
use crate::programs::ProgramRow;
use crate::stores::RenderStores;
use crate::texture_commands::{
    depth_index, make_target, make_texture, texel_source, update_texture,
};
use cmd_buffer::{CmdBytes, CmdReader, Command};
use fix_math::Rect;
use gfx_words::{Format, Kind, ProgramKind, UniformKind};
use std::alloc::{AllocError, Global};

fn put_program(programs: &mut ProgramRow, index: u16, kind: ProgramKind)
    ensures { programs.new ≡ program_made index (Some (program_seen kind)) programs.old }
{
    if is_program_free(programs, index) {
        programs.put(index, kind);
    }
}

fn make_program(programs: &mut ProgramRow, index: u16, kind: Option<ProgramKind>)
    ensures { programs.new ≡ program_made index (option_map program_seen kind) programs.old }
{
    match kind {
        Some(kind) => put_program(programs, index, kind),
        None => {}
    }
}

fn destroy(stores: &mut RenderStores, kind: Kind, index: u16)
    ensures { stores_seen stores.new ≡ destroyed_by (Some (kind_seen kind)) index (stores_seen stores.old) }
{
    match kind {
        Kind::Texture => stores.textures.destroy(index),
        Kind::FrameBuffer => stores.textures.detach(index),
        Kind::Program => stores.programs.take(index),
        Kind::Layout => stores.buffers.destroy(Kind::Layout, index),
        Kind::VertexBuffer => stores.buffers.destroy(Kind::VertexBuffer, index),
        Kind::IndexBuffer => stores.buffers.destroy(Kind::IndexBuffer, index),
        Kind::Uniform => stores.buffers.destroy(Kind::Uniform, index),
    }
}

fn destroy_where(stores: &mut RenderStores, kind: Option<Kind>, index: u16)
    ensures { stores_seen stores.new ≡ destroyed_by (option_map kind_seen kind) index (stores_seen stores.old) }
{
    match kind {
        Some(kind) => destroy(stores, kind, index),
        None => {}
    }
}

/// Executes a command. Where memory is missing, it changes nothing; that comes only of a command that takes it, and that would have
/// changed the stores.
fn execute(
    alloc: Global,
    stores: &mut RenderStores,
    payloads: &[Vec<u8>],
    command: Command,
) -> Result<(), AllocError>
    ensures done { OnOk result (stores_seen stores.new ≡ after_command (payloads_seen payloads.now) (stores_seen stores.old) (command_seen command)) }
    ensures kept { OnErr result (stores_seen stores.new ≡ stores_seen stores.old) }
    ensures needs { OnErr result (takes_memory (command_seen command) ≡ true) }
    ensures changes { OnErr result (after_command (payloads_seen payloads.now) (stores_seen stores.old) (command_seen command) ≢ stores_seen stores.old) }
{
    match command {
        Command::CreateLayout { index, layout } => make_layout(&mut stores.buffers, index, layout),
        Command::CreateVertexBuffer {
            index,
            layout,
            payload,
        } => make_vertices(alloc, &mut stores.buffers, payloads, index, layout, payload)?,
        Command::CreateIndexBuffer { index, payload } => {
            make_indices(alloc, &mut stores.buffers, payloads, index, payload)?
        }
        Command::CreateTexture {
            index,
            width,
            height,
            format,
            source,
            value,
            ..
        } => make_texture(
            &mut stores.textures,
            index,
            width,
            height,
            Format::of_number(format),
            texel_source(payloads, source, value),
        )?,
        Command::CreateFrameBuffer {
            index,
            color,
            depth,
        } => make_target(&mut stores.textures, index, color, depth_index(depth)),
        Command::CreateProgram { index, kind } => {
            make_program(&mut stores.programs, index, ProgramKind::of_number(kind))
        }
        Command::CreateUniform {
            index,
            serial,
            kind,
            payload,
        } => make_uniform(
            alloc,
            &mut stores.buffers,
            payloads,
            index,
            serial,
            UniformKind::of_number(kind),
            payload,
        )?,
        Command::UpdateBuffer {
            kind,
            index,
            offset,
            payload,
        } => update_buffer(
            &mut stores.buffers,
            payloads,
            Kind::of_number(kind),
            index,
            offset,
            payload,
        ),
        Command::UpdateTexture {
            index,
            x,
            y,
            w,
            h,
            payload,
        } => update_texture(
            &mut stores.textures,
            payloads,
            index,
            Rect { x, y, w, h },
            payload,
        ),
        Command::Destroy { kind, index } => destroy_where(stores, Kind::of_number(kind), index),
    }
    Ok(())
}

/// Executes a row of commands in order. Creates of buffers, of textures and of uniforms take memory, for what payloads are copied to and
/// for texels, and no other command does; nor does a create that is passed over. Where memory is missing, the commands before the one that
/// needed it are executed, and no other.
pub fn execute_all(
    alloc: Global,
    stores: &mut RenderStores,
    payloads: &[Vec<u8>],
    row: &CmdBytes,
) -> Result<(), AllocError>
    ensures done { OnOk result (stores_seen stores.new ≡ all_commanded (payloads_seen payloads.now) (stores_seen stores.old) row.now) }
    ensures begun { OnErr result (IsStopped (payloads_seen payloads.now) row.now (stores_seen stores.old) (stores_seen stores.new)) }
{
    let mut reader = CmdReader::new(row);
    while let Some(command) = reader.next() {
        execute(alloc, stores, payloads, command)?;
    }
    Ok(())
}
