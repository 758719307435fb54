// Calls and replies as the history keeps them.
use fix_math::{Affine, Rect};
use frame_record::Outcome;
use gfx_words::{Format, Handle, ProgramKind, Refusal, Room, TexSource, UniformKind, ViewMode};
use vertex_layout::VertexLayout;

/// A call through the lock, with what it was called with.
#[derive(PartialEq, Debug, Drop)]
pub enum ResCall {
    /// `create_layout`.
    CreateLayout {
        layout: VertexLayout,
    },
    /// `create_vertex_buffer` of a layout: 1 to 524,288 bytes are accepted.
    CreateVertexBuffer {
        layout: Handle,
        bytes: Vec<u8>,
    },
    /// `create_index_buffer`: 2 to 524,288 bytes, an even number, are accepted.
    CreateIndexBuffer {
        bytes: Vec<u8>,
    },
    /// `create_texture`: sides of 1 to 2,048 texels are accepted; `blit_dst` where it may be the destination of a blit; from bytes, four for
    /// each texel.
    CreateTexture {
        width: u16,
        height: u16,
        format: Format,
        blit_dst: bool,
        source: TexSource,
    },
    /// `create_frame_buffer` of one or two textures.
    CreateFrameBuffer {
        color: Handle,
        depth: Option<Handle>,
    },
    /// `create_program`.
    CreateProgram {
        kind: ProgramKind,
    },
    /// `create_uniform`: a name of 1 to 32 bytes is accepted.
    CreateUniform {
        name: Vec<u8>,
        kind: UniformKind,
    },
    /// `update_buffer`: these bytes from a byte on.
    UpdateBuffer {
        buffer: Handle,
        offset: u32,
        bytes: Vec<u8>,
    },
    /// `update_texture`: the texels of a rectangle, four bytes each.
    UpdateTexture {
        texture: Handle,
        rect: Rect,
        bytes: Vec<u8>,
    },
    /// `destroy`.
    Destroy {
        thing: Handle,
    },
    /// `set_view_rect`. Views are counted from 0.
    ViewRect {
        view: u16,
        rect: Rect,
    },
    /// `set_view_scissor`.
    ViewScissor {
        view: u16,
        rect: Rect,
    },
    /// `set_view_clear`: what `flags` name is cleared, 0 to 7, to a colour (red, green, blue, alpha), a depth up to 16,777,215
    /// and a stencil value.
    ViewClear {
        view: u16,
        flags: u8,
        color: [u8; 4],
        depth: u32,
        stencil: u8,
    },
    /// `set_view_mode`.
    ViewMode {
        view: u16,
        mode: ViewMode,
    },
    /// `set_view_transform`.
    ViewTransform {
        view: u16,
        transform: Affine,
    },
    /// `set_view_target`: a frame buffer, or none for the back buffer.
    ViewTarget {
        view: u16,
        target: Option<Handle>,
    },
    /// `set_view_order`: the views that come first, each at most once.
    ViewOrder {
        ids: Vec<u16>,
    },
    /// `reset_view`.
    ViewReset {
        view: u16,
    },
    /// `frame`.
    Frame,
    /// `begin`: an encoder with room for so much.
    Begin {
        room: Room,
    },
}

/// How a call was answered.
#[derive(Clone, Copy, Drop, PartialEq, Eq, Debug)]
pub enum ResReply {
    /// The call gave a handle.
    Made { handle: Handle },
    /// The call was accepted, and gives nothing.
    Unit,
    /// The frame of this number was given.
    Frame { number: u32 },
    /// An encoder of this number begins, 0 to 7.
    Begun { number: u8 },
    /// The call was refused. It is never for want of memory.
    Refused { refusal: Refusal },
    /// The frame of this number was not given: the frame that came back had this outcome, which is never that of a frame that was
    /// shown. The context is ended.
    Ending { frame: u32, outcome: Outcome },
    /// The frame of this number was not given before.
    Ended { frame: u32 },
}

/// A call of a caller: the caller's number, the call's ordinal among the caller's calls, from 0, and how it was answered.
#[derive(PartialEq, Debug, Drop)]
pub struct Entry {
    pub caller: u32,
    pub ordinal: u32,
    pub call: ResCall,
    pub reply: ResReply,
}

/// Why a call through the lock is refused.
#[derive(Clone, Copy, Drop, PartialEq, Eq, Debug)]
pub enum LockRefusal {
    /// The context refuses the call, or there was no memory.
    Refused(Refusal),
    /// The frame of this number was not given; the context is ended since.
    Ended { frame: u32 },
}

impl LockRefusal {
    ghost use Rattle.std.specs.Prelude.{◌≡◌};
    ghost use Rattle.res_lock.specs.Seen.{lock_refusal_number};

    /// The number of this refusal: that of the context's refusal, and 18 where the context is ended.
    pub fn number(&self) -> u8
        ensures { result ≡ lock_refusal_number self.now }
    {
        match self {
            LockRefusal::Refused(refusal) => refusal.number(),
            LockRefusal::Ended { .. } => 18,
        }
    }
}
