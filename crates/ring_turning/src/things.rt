// What the ring is drawn with.
ghost use Rattle.std.specs.Prelude.{◌≡◌, IfOk};

use crate::ring::CORNERS;
use bitflags::Flags;
use gfx::{
    Attr, AttrType, ClearFlags, Handle, LayoutBuilder, ProgramKind, Refusal, ResourceCalls,
    UniformKind, VertexLayout,
};

/// The corners of one triangle, the program that paints it, and the uniform with its colour.
#[derive(Clone, Copy)]
pub(crate) struct Things {
    pub(crate) corners: Handle,
    pub(crate) paint: Handle,
    pub(crate) color: Handle,
}

/// A vertex is a position of three fixed numbers.
fn corner_layout() -> Result<VertexLayout, Refusal> {
    let mut builder = LayoutBuilder::new();
    builder.add(Attr::Position, AttrType::Fixed, 3);
    builder.end()
}

/// The corners as the bytes of a vertex buffer.
fn corner_bytes() -> [u8; 36] {
    let mut bytes = [0u8; 36];
    for i in 0..9usize {
        bytes[4 * i..4 * i + 4].copy_from_slice(&CORNERS[i].to_le_bytes());
    }
    bytes
}

/// Makes the things, and lets view 0 clear the picture to a dark blue.
pub(crate) fn make<B: ResourceCalls>(calls: &mut B) -> Result<Things, Refusal>
    ensures { B.rest calls.new ≡ B.rest calls.old }
{
    let layout = calls.create_layout(corner_layout()?)?;
    let corners = calls.create_vertex_buffer(layout, &corner_bytes())?;
    let paint = calls.create_program(ProgramKind::Solid)?;
    let color = calls.create_uniform(b"u_color", UniformKind::Vec4)?;
    calls.set_view_clear(0, ClearFlags::COLOR.bits(), [0, 0, 64, 255], 0, 0)?;
    Ok(Things {
        corners,
        paint,
        color,
    })
}
