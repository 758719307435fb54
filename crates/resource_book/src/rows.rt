// What is known of a thing.
ghost use Rattle.std.specs.Prelude.{◌≡◌, ◌≤◌};
ghost use Rattle.std.specs.Option.{ForSome};
ghost use Rattle.gfx_model.specs.Resources.{is_over, is_kept_thing};

use gfx_words::{Format, Handle, ProgramKind, UniformKind};
use vertex_layout::VertexLayout;

/// What the calls ask of a thing beside its handle. What only the renderer reads is not here: bytes, texels and values.
#[derive(Drop)]
pub enum Fact {
    Layout(VertexLayout),
    /// How many bytes the buffer has.
    Vertices {
        bytes: u32,
    },
    /// How many bytes the buffer has.
    Indices {
        bytes: u32,
    },
    Texture {
        format: Format,
        width: u16,
        height: u16,
    },
    /// The serials of its textures.
    FrameBuffer {
        color: u32,
        depth: Option<u32>,
    },
    Program(ProgramKind),
    Uniform {
        kind: UniformKind,
        name: Vec<u8>,
    },
}

/// A thing that is live, or dead and waiting until its index is given back.
#[derive(Drop)]
pub struct Row {
    pub handle: Handle,
    /// The frame in which it was made.
    pub birth: u32,
    /// The frame in which it was destroyed.
    pub death: Option<u32>,
    pub fact: Fact,
    /// How many destroys a uniform needs to die, 1 to 65,535; 1 of any other thing.
    pub references: u32,
    ghost death_most: { ForSome death (λ d. d ≤ 1073741823) },
}

/// Whether a death lies so far back that no frame that is out can name the thing.
pub fn is_death_over(death: u32, latency: u8, frame: u32) -> bool
    ensures { result ≡ is_over latency frame death }
{
    death as u64 + 1 + latency as u64 <= frame as u64
}

impl Row {
    ghost use Rattle.resource_book.specs.Seen.{row_seen};

    /// Whether the start of a frame keeps the thing: it lives, or its death is not over. What it does not keep leaves its
    /// place free.
    pub fn is_kept(&self, latency: u8, frame: u32) -> bool
        ensures { result ≡ is_kept_thing latency frame (row_seen self.now) }
    {
        match self.death {
            None => true,
            Some(death) => !is_death_over(death, latency, frame),
        }
    }
}
