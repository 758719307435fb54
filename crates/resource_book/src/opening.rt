// The first state of the calls.
ghost use Rattle.std.specs.Prelude.{◌≡◌, ◌≤◌, [], ◌∷◌, map, take, drop, IfOk};
ghost use Rattle.gfx_model.specs.Words.{all_kinds};
ghost use Rattle.gfx_model.specs.Views.{IsViewCount};
ghost use Rattle.gfx_words.specs.Kinds.{kind_seen};
ghost use Rattle.resource_book.specs.Works.{destroy_bytes};
ghost use Rattle.resource_book.specs.Opened.{new_stack, opened};

use crate::book::Book;
use crate::orders::Orders;
use crate::shelf::Shelf;
use crate::stacks::Stack;
use crate::table::ThingTable;
use cmd_buffer::CmdBuffer;
use gfx_words::Kind;
use std::alloc::{AllocError, Global};
use view_table::ViewTable;

// the bytes of the destroys of all things, of one more, and of the end
const DESTROY_BYTES: u32 = 15_109;

/// Where the calls begin.
#[derive(Clone, Copy, Drop)]
pub struct Start {
    /// The number of the first frame, up to 1,073,741,823.
    pub frame: u32,
    /// The first serial, from 1.
    pub serial: u32,
    /// How many views there are, 256 or 512.
    pub views: u16,
    /// How many frames may be out, 1 to 3.
    pub latency: u8,
}

fn stack_of(alloc: Global, kind: Kind) -> Result<Stack, AllocError>
    ensures { IfOk result (λ s. s ≡ new_stack (kind_seen kind)) }
{
    Stack::new(alloc, kind.greatest())
}

// The stacks of the first four kinds.
fn first_stacks(alloc: Global) -> Result<(Stack, Stack, Stack, Stack), AllocError>
    ensures { IfOk result (λ s. s.0 ∷ s.1 ∷ s.2 ∷ s.3 ∷ [] ≡ map new_stack (take 4 all_kinds)) }
{
    Ok((
        stack_of(alloc, Kind::Layout)?,
        stack_of(alloc, Kind::VertexBuffer)?,
        stack_of(alloc, Kind::IndexBuffer)?,
        stack_of(alloc, Kind::Texture)?,
    ))
}

// The stacks of the last three kinds.
fn last_stacks(alloc: Global) -> Result<(Stack, Stack, Stack), AllocError>
    ensures { IfOk result (λ s. s.0 ∷ s.1 ∷ s.2 ∷ [] ≡ map new_stack (drop 4 all_kinds)) }
{
    Ok((
        stack_of(alloc, Kind::FrameBuffer)?,
        stack_of(alloc, Kind::Program)?,
        stack_of(alloc, Kind::Uniform)?,
    ))
}

fn stacks(alloc: Global) -> Result<[Stack; 7], AllocError>
    ensures { IfOk result (λ s. s ≡ map new_stack all_kinds) }
{
    let (layouts, vertices, indices, textures) = first_stacks(alloc)?;
    let (targets, programs, uniforms) = last_stacks(alloc)?;
    Ok([
        layouts, vertices, indices, textures, targets, programs, uniforms,
    ])
}

/// A row with room for the destroys of all things.
pub fn post_buffer(alloc: Global) -> Result<CmdBuffer, AllocError>
    ensures { IfOk result (λ b. (b.commands ≡ []) × (destroy_bytes ≤ b.spare)) }
{
    let mut post = CmdBuffer::new(alloc);
    post.reserve(DESTROY_BYTES)?;
    Ok(post)
}

impl Book {
    /// Nothing is made. Memory for the destroys of all things is taken here.
    pub fn new(alloc: Global, start: Start) -> Result<Book, AllocError>
        requires views { IsViewCount start.views }
        requires frame { start.frame ≤ 1073741823 }
        requires serial { 1 ≤ start.serial }
        requires latency { (1 ≤ start.latency) × (start.latency ≤ 3) }
        ensures { IfOk result (λ b. b ≡ opened start) }
    {
        let stacks = stacks(alloc)?;
        let table = ThingTable::new(alloc)?;
        let views = ViewTable::new(alloc, start.views)?;
        let post = post_buffer(alloc)?;
        let shelf = Shelf {
            latency: start.latency,
            frame: start.frame,
            stacks,
            table,
            next_serial: start.serial as u64,
            views,
        };
        Ok(Book {
            alloc,
            shelf,
            orders: Orders::new(alloc),
            post,
        })
    }
}
