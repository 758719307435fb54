// What frames are made of, and one that is rendered.
ghost use Rattle.std.specs.Prelude.{◌≡◌, ◌≤◌, length};
ghost use Rattle.schedule_model.specs.Held.{Ascends};
ghost use Rattle.draw_encoder.specs.Seen.{numbers_of};

use cmd_buffer::{CmdBuffer, CmdBytes, Command};
use draw_encoder::{
    BlitCall, BlitItem, Bytes, DrawItem, IndexSet, Item, Items, Recording, TouchItem, UniformSets,
    VertexSet,
};
use frame_record::{Frame, Outcome, collect};
use gfx_words::Handle;
use int_raster::SerialRasterizer;
use io_edge::MemSink;
use render_core::Renderer;
use std::alloc::{AllocError, Global};
use view_table::ViewTable;

// The types that an item is made of.
pub(crate) type Parts = (
    DrawItem,
    VertexSet,
    IndexSet,
    Option<Handle>,
    TouchItem,
    BlitItem,
    BlitCall,
);

fn recording(alloc: Global, items: Vec<Item>) -> Recording
    ensures { result.items ≡ items.items }
{
    // The check asks that the types of an item's parts are seen where it is stored.
    let _parts: Option<Parts> = None;
    Recording {
        encoder: 0,
        frame: 0,
        items: Items::from_vec(items),
        bytes: Bytes::from_vec(Vec::new(alloc)),
        uniforms: UniformSets::from_vec(Vec::new(alloc)),
        dropped: 0,
    }
}

// Three vertices of two numbers of 1/65536 each, little endian: (-1, 1), (3, 1), (-1, -3).
const TRIANGLE: &[u8] = b"\0\0\xff\xff\0\0\x01\0\0\0\x03\0\0\0\x01\0\0\0\xff\xff\0\0\xfd\xff";

// A triangle round the whole picture, a texel, and the name of the colour.
fn payloads(alloc: Global) -> Result<Vec<Vec<u8>>, AllocError> {
    let mut payloads = Vec::new(alloc);
    payloads.push(TRIANGLE.to_vec(alloc)?)?;
    payloads.push(vec![in alloc; 48u8; 4]?)?;
    payloads.push(b"u_color".to_vec(alloc)?)?;
    Ok(payloads)
}

/// What a frame has besides its recordings.
#[derive(Drop)]
pub(crate) struct Rest {
    pub(crate) number: u32,
    pub(crate) views: ViewTable,
    pub(crate) pre: CmdBytes,
    pub(crate) post: CmdBytes,
    pub(crate) payloads: Vec<Vec<u8>>,
}

/// Plain views, with commands before and after a frame, and the payloads.
pub(crate) fn rest_of(
    alloc: Global,
    number: u32,
    pre: &[Command],
    post: &[Command],
) -> Result<Rest, AllocError> {
    let pre = row(alloc, pre)?;
    let post = row(alloc, post)?;
    let payloads = payloads(alloc)?;
    let views = ViewTable::new(alloc, 256)?;
    Ok(Rest {
        number,
        views,
        pre,
        post,
        payloads,
    })
}

// A frame of one encoder's items.
fn recorded(alloc: Global, rest: Rest, items: Vec<Item>) -> Result<Frame, AllocError>
    requires few { length (numbers_of items.items) ≤ 65528 }
    requires ascend { Ascends (numbers_of items.items) }
{
    let mut recordings = Vec::new(alloc);
    recordings.push(recording(alloc, items))?;
    let journal = collect(alloc, &recordings)?;
    Ok(Frame::new(
        rest.number,
        rest.views,
        rest.pre,
        rest.post,
        rest.payloads,
        recordings,
        journal,
    ))
}

/// A frame of one item.
pub(crate) fn framed(alloc: Global, rest: Rest, item: Item) -> Result<Frame, AllocError> {
    // The types of the item's parts are seen here for the same reason.
    let _parts: Option<Parts> = None;
    let mut items = Vec::new(alloc);
    items.push(item)?;
    recorded(alloc, rest, items)
}

fn row(alloc: Global, commands: &[Command]) -> Result<CmdBytes, AllocError> {
    let mut row = CmdBuffer::new(alloc);
    for command in commands {
        row.write(*command)?;
    }
    row.finish()
}

// A frame is rendered: its outcome and its number.
pub(crate) fn render(renderer: &mut Renderer<MemSink>, frame: Frame) -> (Outcome, u32) {
    let rendered = renderer.render(&mut SerialRasterizer, frame);
    (rendered.outcome, rendered.frame.number)
}
