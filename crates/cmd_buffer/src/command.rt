// What is done to things.
ghost use Rattle.std.specs.Prelude.{◌≡◌, ◌≤◌, length};
ghost use Rattle.gfx_model.specs.Commands.{command_bytes};
ghost use Rattle.cmd_buffer.specs.Rows.{FewBytes};
ghost use Rattle.cmd_buffer.specs.Seen.{command_seen};

use vertex_layout::VertexLayout;

/// How many bytes a command has at most: a layout of seven attributes.
pub const MOST_COMMAND_BYTES: u32 = 33;

/// What is done to the thing of an index. Kinds, formats and program kinds are given by their numbers, and a
/// payload by its place in the frame's list of payloads, from 0.
#[derive(Clone, Copy, PartialEq, Debug)]
pub enum Command {
    CreateLayout {
        index: u16,
        layout: VertexLayout,
    },
    CreateVertexBuffer {
        index: u16,
        layout: u16,
        payload: u32,
    },
    CreateIndexBuffer {
        index: u16,
        payload: u32,
    },
    /// `source` is 0 for a fill, whose four bytes in order are `value`, and 1 for the payload `value`.
    CreateTexture {
        index: u16,
        width: u16,
        height: u16,
        format: u8,
        blit_dst: u8,
        source: u8,
        value: u32,
    },
    /// `depth` is 65,535 for none.
    CreateFrameBuffer {
        index: u16,
        color: u16,
        depth: u16,
    },
    CreateProgram {
        index: u16,
        kind: u8,
    },
    /// The payload is the name.
    CreateUniform {
        index: u16,
        serial: u32,
        kind: u8,
        payload: u32,
    },
    UpdateBuffer {
        kind: u8,
        index: u16,
        offset: u32,
        payload: u32,
    },
    UpdateTexture {
        index: u16,
        x: u16,
        y: u16,
        w: u16,
        h: u16,
        payload: u32,
    },
    Destroy {
        kind: u8,
        index: u16,
    },
}

impl Command {
    /// How many bytes this command has in a row, at most 33.
    pub fn size(&self) -> u32
        ensures size { result ≡ length (command_bytes (command_seen self.now)) }
        ensures most { result ≤ MOST_COMMAND_BYTES }
    {
        match self {
            Command::CreateLayout { layout, .. } => 5 + 4 * layout.attributes().len() as u32,
            Command::CreateProgram { .. } | Command::Destroy { .. } => 4,
            Command::CreateIndexBuffer { .. } | Command::CreateFrameBuffer { .. } => 7,
            Command::CreateVertexBuffer { .. } => 9,
            Command::CreateUniform { .. } | Command::UpdateBuffer { .. } => 12,
            Command::CreateTexture { .. } => 14,
            Command::UpdateTexture { .. } => 15,
        }
    }
}

/// A command whose fields fit their bytes has at most 33 of them.
pub fn few_bytes()
    ensures { FewBytes }
{}
