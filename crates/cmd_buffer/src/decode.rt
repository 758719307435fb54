// Which command stands at the front of bytes.
ghost use Rattle.std.specs.Prelude.{◌≡◌, ◌+◌, ◌*◌, ◌<◌, ◌≤◌, [], length, drop, option_map, slice_index};
ghost use Rattle.gfx_model.specs.Number.{u16_at as u16_of, u32_at as u32_of};
ghost use Rattle.vertex_layout.specs.Kinds.{attribute_seen, component_seen};
ghost use Rattle.vertex_layout.specs.Placed.{placed_seen};
ghost use Rattle.cmd_buffer.specs.Bytes as bytes_of;
ghost use Rattle.cmd_buffer.specs.Seen.{command_seen};

use crate::command::Command;
use vertex_layout::{Attr, AttrList, AttrType, PlacedAttr, VertexLayout};

fn u16_at(bytes: &[u8], at: usize) -> u16
    requires { at + 1 < length bytes.now }
    ensures { result ≡ u16_of bytes.now at }
{
    bytes[at] as u16 + 256 * bytes[at + 1] as u16
}

fn u32_at(bytes: &[u8], at: usize) -> u32
    requires { at + 3 < length bytes.now }
    ensures { result ≡ u32_of bytes.now at }
{
    u16_at(bytes, at) as u32 + 65536 * u16_at(bytes, at + 2) as u32
}

fn attr_of(number: u8) -> Option<Attr>
    ensures { option_map attribute_seen result ≡ bytes_of.attribute_of_number number }
{
    match number {
        0 => Some(Attr::Position),
        1 => Some(Attr::Normal),
        2 => Some(Attr::Tangent),
        3 => Some(Attr::Color0),
        4 => Some(Attr::Color1),
        5 => Some(Attr::Texcoord0),
        6 => Some(Attr::Texcoord1),
        _ => None,
    }
}

fn type_of(number: u8) -> Option<AttrType>
    ensures { option_map component_seen result ≡ bytes_of.component_of_number number }
{
    match number {
        0 => Some(AttrType::U8),
        1 => Some(AttrType::I16),
        2 => Some(AttrType::Fixed),
        _ => None,
    }
}

fn placed_of(
    count: u8,
    offset: u8,
    attr: Option<Attr>,
    kind: Option<AttrType>,
) -> Option<PlacedAttr>
    ensures { option_map placed_seen result ≡ bytes_of.placed_of count offset (option_map attribute_seen attr) (option_map component_seen kind) }
{
    match (attr, kind) {
        (Some(attr), Some(kind)) => Some(PlacedAttr {
            attr,
            kind,
            count,
            offset,
        }),
        _ => None,
    }
}

fn placed_in(b: &[u8]) -> Option<PlacedAttr>
    requires { 4 ≤ length b.now }
    ensures { option_map placed_seen result ≡ bytes_of.placed_in b.now }
{
    placed_of(b[2], b[3], attr_of(b[0]), type_of(b[1]))
}

fn behind_four<'a>(b: &'a [u8]) -> &'a [u8]
    requires { 4 ≤ length b.now }
    ensures { result.now ≡ drop 4 b.now }
{
    &b[4..]
}

fn attributes_in(n: u8, b: &[u8]) -> Option<AttrList>
    requires { 4 * n ≤ length b.now }
    ensures { result ≡ bytes_of.attributes_from [] n b.now }
{
    let mut attributes = AttrList::new();
    let mut rest = b;
    for _ in 0..n {
        match placed_in(rest) {
            Some(placed) => {
                if !attributes.add(placed) {
                    return None;
                }
            }
            None => return None,
        }
        rest = behind_four(rest);
    }
    Some(attributes)
}

fn layout_in(n: u8, b: &[u8]) -> Option<VertexLayout>
    requires { 4 * n < length b.now }
    ensures { result ≡ bytes_of.layout_in n b.now }
{
    match attributes_in(n, b) {
        Some(attributes) => VertexLayout::of(attributes, b[4 * n as usize]),
        None => None,
    }
}

fn layout_form(b: &[u8]) -> Option<Command>
    requires enough { 3 ≤ length b.now }
    requires whole { 4 + 4 * slice_index b.now 2 ≤ length b.now }
    ensures { option_map command_seen result ≡ bytes_of.layout_form b.now }
{
    match layout_in(b[2], &b[3..]) {
        Some(layout) => Some(Command::CreateLayout {
            index: u16_at(b, 0),
            layout,
        }),
        None => None,
    }
}

fn layout_command<'a>(b: &'a [u8]) -> Option<(Command, &'a [u8])>
    ensures { option_map (λ p. (command_seen p.0, p.1.now)) result ≡ bytes_of.layout_command b.now }
{
    if b.len() < 3 {
        return None;
    }
    let size = 4 + 4 * b[2] as usize;
    if b.len() < size {
        return None;
    }
    with_rest(layout_form(b), size, b)
}

fn vertex_buffer(b: &[u8]) -> Option<Command>
    requires { 8 ≤ length b.now }
    ensures { option_map command_seen result ≡ bytes_of.vertex_buffer_form b.now }
{
    Some(Command::CreateVertexBuffer {
        index: u16_at(b, 0),
        layout: u16_at(b, 2),
        payload: u32_at(b, 4),
    })
}

fn index_buffer(b: &[u8]) -> Option<Command>
    requires { 6 ≤ length b.now }
    ensures { option_map command_seen result ≡ bytes_of.index_buffer_form b.now }
{
    Some(Command::CreateIndexBuffer {
        index: u16_at(b, 0),
        payload: u32_at(b, 2),
    })
}

fn texture(b: &[u8]) -> Option<Command>
    requires { 13 ≤ length b.now }
    ensures { option_map command_seen result ≡ bytes_of.texture_form b.now }
{
    Some(Command::CreateTexture {
        index: u16_at(b, 0),
        width: u16_at(b, 2),
        height: u16_at(b, 4),
        format: b[6],
        blit_dst: b[7],
        source: b[8],
        value: u32_at(b, 9),
    })
}

fn frame_buffer(b: &[u8]) -> Option<Command>
    requires { 6 ≤ length b.now }
    ensures { option_map command_seen result ≡ bytes_of.frame_buffer_form b.now }
{
    Some(Command::CreateFrameBuffer {
        index: u16_at(b, 0),
        color: u16_at(b, 2),
        depth: u16_at(b, 4),
    })
}

fn program(b: &[u8]) -> Option<Command>
    requires { 3 ≤ length b.now }
    ensures { option_map command_seen result ≡ bytes_of.program_form b.now }
{
    Some(Command::CreateProgram {
        index: u16_at(b, 0),
        kind: b[2],
    })
}

fn uniform(b: &[u8]) -> Option<Command>
    requires { 11 ≤ length b.now }
    ensures { option_map command_seen result ≡ bytes_of.uniform_form b.now }
{
    Some(Command::CreateUniform {
        index: u16_at(b, 0),
        serial: u32_at(b, 2),
        kind: b[6],
        payload: u32_at(b, 7),
    })
}

fn update_buffer(b: &[u8]) -> Option<Command>
    requires { 11 ≤ length b.now }
    ensures { option_map command_seen result ≡ bytes_of.update_buffer_form b.now }
{
    Some(Command::UpdateBuffer {
        kind: b[0],
        index: u16_at(b, 1),
        offset: u32_at(b, 3),
        payload: u32_at(b, 7),
    })
}

fn update_texture(b: &[u8]) -> Option<Command>
    requires { 14 ≤ length b.now }
    ensures { option_map command_seen result ≡ bytes_of.update_texture_form b.now }
{
    Some(Command::UpdateTexture {
        index: u16_at(b, 0),
        x: u16_at(b, 2),
        y: u16_at(b, 4),
        w: u16_at(b, 6),
        h: u16_at(b, 8),
        payload: u32_at(b, 10),
    })
}

fn destroy(b: &[u8]) -> Option<Command>
    requires { 3 ≤ length b.now }
    ensures { option_map command_seen result ≡ bytes_of.destroy_form b.now }
{
    Some(Command::Destroy {
        kind: b[0],
        index: u16_at(b, 1),
    })
}

fn with_rest<'a>(command: Option<Command>, n: usize, b: &'a [u8]) -> Option<(Command, &'a [u8])>
    requires { n ≤ length b.now }
    ensures { option_map (λ p. (command_seen p.0, p.1.now)) result ≡ bytes_of.with_rest n b.now (option_map command_seen command) }
{
    match command {
        Some(command) => Some((command, &b[n..])),
        None => None,
    }
}

fn by_later_number<'a>(n: u8, b: &'a [u8]) -> Option<(Command, &'a [u8])>
    ensures { option_map (λ p. (command_seen p.0, p.1.now)) result ≡ bytes_of.by_later_number n b.now }
{
    match n {
        6 if b.len() >= 3 => with_rest(program(b), 3, b),
        7 if b.len() >= 11 => with_rest(uniform(b), 11, b),
        8 if b.len() >= 11 => with_rest(update_buffer(b), 11, b),
        9 if b.len() >= 14 => with_rest(update_texture(b), 14, b),
        10 if b.len() >= 3 => with_rest(destroy(b), 3, b),
        _ => None,
    }
}

fn by_number<'a>(n: u8, b: &'a [u8]) -> Option<(Command, &'a [u8])>
    ensures { option_map (λ p. (command_seen p.0, p.1.now)) result ≡ bytes_of.by_number n b.now }
{
    match n {
        1 => layout_command(b),
        2 if b.len() >= 8 => with_rest(vertex_buffer(b), 8, b),
        3 if b.len() >= 6 => with_rest(index_buffer(b), 6, b),
        4 if b.len() >= 13 => with_rest(texture(b), 13, b),
        5 if b.len() >= 6 => with_rest(frame_buffer(b), 6, b),
        _ => by_later_number(n, b),
    }
}

/// The first command and the bytes behind it. None at the end word.
pub(crate) fn decode<'a>(bytes: &'a [u8]) -> Option<(Command, &'a [u8])>
    ensures { option_map (λ p. (command_seen p.0, p.1.now)) result ≡ bytes_of.decoded bytes.now }
{
    match bytes {
        [n, rest @ ..] => by_number(*n, rest),
        _ => None,
    }
}
