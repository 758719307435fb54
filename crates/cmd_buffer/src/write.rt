// Writes rows of commands.
ghost use Rattle.std.specs.Prelude.{◌≡◌, ◌+◌, ◌*◌, ◌≤◌, ◌++◌, ◌∷◌, [], length, map, true, vec_len, vec_capacity, IfOk, IsOk, OnErr, OnOk, MatchResult};
ghost use Rattle.gfx_model.specs.Commands.{command_bytes, attribute_bytes, create_layout_command, create_vertex_buffer_command, create_index_buffer_command, create_frame_buffer_command, create_texture_command, create_program_command, create_uniform_command, update_buffer_command, update_texture_command, destroy_command, buffer_bytes};
ghost use Rattle.std.specs.List.{flat_map};
ghost use Rattle.vertex_layout.specs.Placed.{placed_seen};
ghost use Rattle.vertex_layout.specs.Layouts.{is_layout};
ghost use Rattle.cmd_buffer.specs.Rows.{AllFit, Fits, IsRow, IsBuffer};
ghost use Rattle.cmd_buffer.specs.Seen.{command_seen};

use crate::command::Command;
use crate::read::CmdBytes;
use std::alloc::{AllocError, Global};
use std::marker::Model;
use vertex_layout::{PlacedAttr, VertexLayout};

/// A row of commands that is being written.
#[derive(Drop)]
pub struct CmdBuffer {
    bytes: Vec<u8>,
}

impl Model for CmdBuffer {
    ghost use Rattle.std.specs.Prelude.{List, ◌-◌, vec_len, vec_capacity};
    ghost use Rattle.cmd_buffer.specs.Bytes.{commands_in};
    ghost use Rattle.cmd_buffer.specs.Rows.{Writing, IsRow};

    ghost Value = { Writing };

    ghost view = { λ s. record { commands = commands_in s.bytes.items; spare = vec_capacity s.bytes - vec_len s.bytes } };

    ghost invariant = { λ s. IsRow s.bytes.items };
}

// The bytes of a layout's attributes; there is room for them.
fn put_attributes(bytes: &mut Vec<u8>, attributes: &[PlacedAttr])
    requires { vec_len bytes.old + 4 * length attributes.now ≤ vec_capacity bytes.old }
    ensures items { bytes.new.items ≡ bytes.old.items ++ flat_map attribute_bytes (map placed_seen attributes.now) }
    ensures len { vec_len bytes.new ≡ vec_len bytes.old + 4 * length attributes.now }
    ensures capacity { vec_capacity bytes.old ≤ vec_capacity bytes.new }
{
    for placed in attributes {
        let piece = [
            placed.attr.number(),
            placed.kind.number(),
            placed.count,
            placed.offset,
        ];
        bytes.extend_from_slice(&piece).unwrap();
    }
}

fn put_layout(bytes: &mut Vec<u8>, index: u16, layout: &VertexLayout) -> Result<(), AllocError>
    ensures bytes { MatchResult result (λ _. bytes.new.items ≡ bytes.old.items ++ command_bytes (create_layout_command index layout.now)) (λ _. bytes.new.items ≡ bytes.old.items) }
    ensures capacity { vec_capacity bytes.old ≤ vec_capacity bytes.new }
    ensures refused { OnErr result (vec_capacity bytes.new ≡ vec_capacity bytes.old) }
    ensures succeeds { vec_len bytes.old + length (command_bytes (create_layout_command index layout.now)) ≤ vec_capacity bytes.old → IsOk result }
    ensures whole { is_layout layout.now ≡ true }
{
    let attributes = layout.attributes();
    let count = attributes.len();
    bytes.try_reserve(5 + 4 * count)?;
    let i = index.to_le_bytes();
    let head = [1, i[0], i[1], count as u8];
    bytes.extend_from_slice(&head).unwrap();
    put_attributes(bytes, attributes);
    bytes.push(layout.stride()).unwrap();
    Ok(())
}

fn vertex_buffer_bytes(index: u16, layout: u16, payload: u32) -> [u8; 9]
    ensures { result ≡ command_bytes (create_vertex_buffer_command index layout payload) }
{
    let i = index.to_le_bytes();
    let l = layout.to_le_bytes();
    let p = payload.to_le_bytes();
    [2, i[0], i[1], l[0], l[1], p[0], p[1], p[2], p[3]]
}

fn index_buffer_bytes(index: u16, payload: u32) -> [u8; 7]
    ensures { result ≡ command_bytes (create_index_buffer_command index payload) }
{
    let i = index.to_le_bytes();
    let p = payload.to_le_bytes();
    [3, i[0], i[1], p[0], p[1], p[2], p[3]]
}

fn texture_bytes(
    index: u16,
    width: u16,
    height: u16,
    format: u8,
    blit_dst: u8,
    source: u8,
    value: u32,
) -> [u8; 14]
    ensures { result ≡ command_bytes (create_texture_command index width height format blit_dst source value) }
{
    let i = index.to_le_bytes();
    let w = width.to_le_bytes();
    let h = height.to_le_bytes();
    let v = value.to_le_bytes();
    [
        4, i[0], i[1], w[0], w[1], h[0], h[1], format, blit_dst, source, v[0], v[1], v[2], v[3],
    ]
}

fn frame_buffer_bytes(index: u16, color: u16, depth: u16) -> [u8; 7]
    ensures { result ≡ command_bytes (create_frame_buffer_command index color depth) }
{
    let i = index.to_le_bytes();
    let c = color.to_le_bytes();
    let d = depth.to_le_bytes();
    [5, i[0], i[1], c[0], c[1], d[0], d[1]]
}

fn program_bytes(index: u16, kind: u8) -> [u8; 4]
    ensures { result ≡ command_bytes (create_program_command index kind) }
{
    let i = index.to_le_bytes();
    [6, i[0], i[1], kind]
}

fn destroy_bytes(kind: u8, index: u16) -> [u8; 4]
    ensures { result ≡ command_bytes (destroy_command kind index) }
{
    let i = index.to_le_bytes();
    [10, kind, i[0], i[1]]
}

fn uniform_bytes(index: u16, serial: u32, kind: u8, payload: u32) -> [u8; 12]
    ensures { result ≡ command_bytes (create_uniform_command index serial kind payload) }
{
    let i = index.to_le_bytes();
    let s = serial.to_le_bytes();
    let p = payload.to_le_bytes();
    [
        7, i[0], i[1], s[0], s[1], s[2], s[3], kind, p[0], p[1], p[2], p[3],
    ]
}

fn update_buffer_bytes(kind: u8, index: u16, offset: u32, payload: u32) -> [u8; 12]
    ensures { result ≡ command_bytes (update_buffer_command kind index offset payload) }
{
    let i = index.to_le_bytes();
    let o = offset.to_le_bytes();
    let p = payload.to_le_bytes();
    [
        8, kind, i[0], i[1], o[0], o[1], o[2], o[3], p[0], p[1], p[2], p[3],
    ]
}

fn update_texture_bytes(index: u16, x: u16, y: u16, w: u16, h: u16, payload: u32) -> [u8; 15]
    ensures { result ≡ command_bytes (update_texture_command index x y w h payload) }
{
    let i = index.to_le_bytes();
    let left = x.to_le_bytes();
    let top = y.to_le_bytes();
    let width = w.to_le_bytes();
    let height = h.to_le_bytes();
    let p = payload.to_le_bytes();
    [
        9, i[0], i[1], left[0], left[1], top[0], top[1], width[0], width[1], height[0], height[1],
        p[0], p[1], p[2], p[3],
    ]
}

fn put(bytes: &mut Vec<u8>, piece: &[u8]) -> Result<(), AllocError>
    ensures bytes { MatchResult result (λ _. bytes.new.items ≡ bytes.old.items ++ piece.now) (λ _. bytes.new.items ≡ bytes.old.items) }
    ensures capacity { vec_capacity bytes.old ≤ vec_capacity bytes.new }
    ensures refused { OnErr result (vec_capacity bytes.new ≡ vec_capacity bytes.old) }
    ensures succeeds { vec_len bytes.old + length piece.now ≤ vec_capacity bytes.old → IsOk result }
{
    bytes.try_reserve(piece.len())?;
    bytes.extend_from_slice(piece).unwrap();
    Ok(())
}

fn put_texture_update(
    bytes: &mut Vec<u8>,
    index: u16,
    x: u16,
    y: u16,
    w: u16,
    h: u16,
    payload: u32,
) -> Result<(), AllocError>
    ensures bytes { MatchResult result (λ _. bytes.new.items ≡ bytes.old.items ++ command_bytes (update_texture_command index x y w h payload)) (λ _. bytes.new.items ≡ bytes.old.items) }
    ensures capacity { vec_capacity bytes.old ≤ vec_capacity bytes.new }
    ensures refused { OnErr result (vec_capacity bytes.new ≡ vec_capacity bytes.old) }
    ensures succeeds { vec_len bytes.old + length (command_bytes (update_texture_command index x y w h payload)) ≤ vec_capacity bytes.old → IsOk result }
{
    let piece = update_texture_bytes(index, x, y, w, h, payload);
    put(bytes, &piece)
}

fn append(bytes: &mut Vec<u8>, command: &Command) -> Result<(), AllocError>
    ensures bytes { MatchResult result (λ _. bytes.new.items ≡ bytes.old.items ++ command_bytes (command_seen command.now)) (λ _. bytes.new.items ≡ bytes.old.items) }
    ensures capacity { vec_capacity bytes.old ≤ vec_capacity bytes.new }
    ensures refused { OnErr result (vec_capacity bytes.new ≡ vec_capacity bytes.old) }
    ensures succeeds { vec_len bytes.old + length (command_bytes (command_seen command.now)) ≤ vec_capacity bytes.old → IsOk result }
    ensures fits { Fits (command_seen command.now) }
{
    match command {
        Command::CreateLayout { index, layout } => put_layout(bytes, *index, layout),
        Command::CreateVertexBuffer {
            index,
            layout,
            payload,
        } => put(bytes, &vertex_buffer_bytes(*index, *layout, *payload)),
        Command::CreateIndexBuffer { index, payload } => {
            put(bytes, &index_buffer_bytes(*index, *payload))
        }
        Command::CreateTexture {
            index,
            width,
            height,
            format,
            blit_dst,
            source,
            value,
        } => put(
            bytes,
            &texture_bytes(*index, *width, *height, *format, *blit_dst, *source, *value),
        ),
        Command::CreateFrameBuffer {
            index,
            color,
            depth,
        } => put(bytes, &frame_buffer_bytes(*index, *color, *depth)),
        Command::CreateProgram { index, kind } => put(bytes, &program_bytes(*index, *kind)),
        Command::CreateUniform {
            index,
            serial,
            kind,
            payload,
        } => put(bytes, &uniform_bytes(*index, *serial, *kind, *payload)),
        Command::UpdateBuffer {
            kind,
            index,
            offset,
            payload,
        } => put(
            bytes,
            &update_buffer_bytes(*kind, *index, *offset, *payload),
        ),
        Command::UpdateTexture {
            index,
            x,
            y,
            w,
            h,
            payload,
        } => put_texture_update(bytes, *index, *x, *y, *w, *h, *payload),
        Command::Destroy { kind, index } => put(bytes, &destroy_bytes(*kind, *index)),
    }
}

impl CmdBuffer {
    /// A row without commands; it takes no memory.
    pub fn new(alloc: Global) -> CmdBuffer
        ensures { result.commands ≡ [] }
    {
        CmdBuffer {
            bytes: Vec::new(alloc),
        }
    }

    /// What every row keeps: each field of its commands fits its bytes.
    pub fn tell_facts(&self)
        ensures { AllFit self.now.commands }
    {
        let _ = &self.bytes;
    }

    /// Makes room for so many bytes more. It succeeds where the spare is enough. After want of memory the buffer is
    /// as it was.
    pub fn reserve(&mut self, bytes: u32) -> Result<(), AllocError>
        ensures commands { self.new.commands ≡ self.old.commands }
        ensures spare { self.old.spare ≤ self.new.spare }
        ensures reserved { IfOk result (λ _. bytes ≤ self.new.spare) }
        ensures refused { OnErr result (self.new ≡ self.old) }
        ensures succeeds { bytes ≤ self.old.spare → IsOk result }
    {
        self.bytes.try_reserve(bytes as usize)
    }

    /// Writes one command more. It succeeds where its bytes are at most the spare, and takes no more than these
    /// of it. After want of memory the buffer is as it was.
    pub fn write(&mut self, command: Command) -> Result<(), AllocError>
        ensures written { MatchResult result (λ _. self.new.commands ≡ self.old.commands ++ command_seen command ∷ []) (λ _. self.new ≡ self.old) }
        ensures succeeds { length (command_bytes (command_seen command)) ≤ self.old.spare → IsOk result }
        ensures spare { self.old.spare ≤ self.new.spare + length (command_bytes (command_seen command)) }
    {
        append(&mut self.bytes, &command)?;
        Ok(())
    }

    /// Ends the row. It succeeds where the spare is at least 1.
    pub fn finish(self) -> Result<CmdBytes, AllocError>
        ensures commands { IfOk result (λ bytes. bytes ≡ self.commands) }
        ensures succeeds { 1 ≤ self.spare → IsOk result }
    {
        let mut bytes = self.bytes;
        bytes.push(0)?;
        Ok(CmdBytes::from_bytes(bytes))
    }
}
