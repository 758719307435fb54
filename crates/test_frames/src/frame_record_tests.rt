// Journals from outside, and what has no place in the draw order.
ghost use Rattle.std.specs.Prelude.{◌≡◌, ◌<◌, ◌≤◌, ◌∷◌, ◌++◌, [], ℕ, IfOk};
ghost use Rattle.gfx_model.specs.Frames.{AreOfOwnEncoders};
ghost use Rattle.schedule_model.specs.Held.{count_of};
ghost use Rattle.draw_encoder.specs.Seen.{number_of, numbers_of};
ghost use Rattle.frame_record.specs.Kept.{IsCollectable, numbers_in};
ghost use Rattle.frame_record.specs.Seen.{recordings_seen};

use cmd_buffer::{CmdBuffer, CmdBytes};
use draw_encoder::{
    BlitCall, BlitItem, Bytes, DrawItem, IndexSet, Item, Items, Recording, TouchItem, UniformSets,
    VertexSet,
};
use fix_math::{Affine, Rect};
use frame_record::{Frame, JournalEntry, OrderedItem, PlacedBlit, collect, end_of_run};
use gfx_words::{Handle, Info, Kind, StateWord, StencilWord};
use std::alloc::{AllocError, Global};
use std::test::Fail;
use view_table::ViewTable;

// The types that an item is made of.
type Parts = (
    DrawItem,
    VertexSet,
    IndexSet,
    Option<Handle>,
    TouchItem,
    BlitItem,
    BlitCall,
);

fn put(items: &mut Vec<Item>, item: Item) -> Result<(), AllocError>
    ensures { IfOk result (λ _. items.new.items ≡ items.old.items ++ item ∷ []) }
{
    // The check asks that the types of an item's parts are seen where it is stored.
    let _parts: Option<Parts> = None;
    items.push(item)?;
    Ok(())
}

fn touch(view: u16, number: u64) -> Item
    ensures { number_of result ≡ number }
{
    Item::Touch(TouchItem {
        view,
        number,
        values_at: 0,
        values: 0,
    })
}

fn blit(view: u16, number: u64) -> Item
    ensures { number_of result ≡ number }
{
    let texture = Handle::of(Kind::Texture, 3, 1, Info::Plain);
    Item::Blit(BlitItem {
        view,
        number,
        copy: BlitCall {
            dst: texture,
            dx: 0,
            dy: 0,
            src: texture,
            sx: 0,
            sy: 0,
            w: 1,
            h: 1,
        },
    })
}

fn placed(position: u16, encoder: u8, ordinal: u32) -> PlacedBlit {
    PlacedBlit {
        position,
        entry: entry(encoder, ordinal),
    }
}

fn recorded(alloc: Global, encoder: u8, items: Vec<Item>) -> Recording
    ensures { (result.items ≡ items.items) × (result.encoder ≡ encoder) }
{
    Recording {
        encoder,
        frame: 0,
        items: Items::from_vec(items),
        bytes: Bytes::from_vec(Vec::new(alloc)),
        uniforms: UniformSets::from_vec(Vec::new(alloc)),
        dropped: 0,
    }
}

// The words of each draw.
#[derive(Clone, Copy, Drop)]
struct Words {
    state: StateWord,
    stencil: StencilWord,
}

fn plain_words() -> Option<Words> {
    let Ok(state) = StateWord::read(15) else {
        return None;
    };
    let Ok(stencil) = StencilWord::read(0) else {
        return None;
    };
    Some(Words { state, stencil })
}

fn draw(words: &Words, number: u64, view: u16, program: &Handle, depth: u32) -> Item
    ensures { number_of result ≡ number }
{
    let empty = Rect {
        x: 0,
        y: 0,
        w: 0,
        h: 0,
    };
    Item::Draw(DrawItem {
        view,
        number,
        program: *program,
        depth,
        state: words.state,
        front: words.stencil,
        back: words.stencil,
        scissor: empty,
        model: Affine::identity(),
        vertices: VertexSet::Unset,
        indices: IndexSet::Unset,
        textures: [None, None],
        values_at: 0,
        values: 0,
    })
}

fn entry(encoder: u8, ordinal: u32) -> JournalEntry {
    JournalEntry { encoder, ordinal }
}

// Whether the items are those of these entries, in this order.
fn has_entries(ordered: &[OrderedItem], wanted: &[JournalEntry]) -> bool {
    if ordered.len() != wanted.len() {
        return false;
    }
    for (item, entry) in ordered.iter().zip(wanted.iter()) {
        if item.entry != *entry {
            return false;
        }
    }
    true
}

// A recording of two items.
fn two(alloc: Global, encoder: u8, first: Item, second: Item) -> Result<Recording, AllocError>
    ensures numbers { IfOk result (λ r. numbers_of r.items ≡ number_of first ∷ number_of second ∷ []) }
    ensures encoder { IfOk result (λ r. r.encoder ≡ encoder) }
{
    let mut items = Vec::new(alloc);
    put(&mut items, first)?;
    put(&mut items, second)?;
    Ok(recorded(alloc, encoder, items))
}

// The commands before and after a frame, none, and plain views.
fn parts(alloc: Global) -> Result<(CmdBytes, CmdBytes, ViewTable), AllocError> {
    let pre = CmdBuffer::new(alloc).finish()?;
    let post = CmdBuffer::new(alloc).finish()?;
    let views = ViewTable::new(alloc, 256)?;
    Ok((pre, post, views))
}

// A frame of recordings that were made beside each other.
fn framed(alloc: Global, recordings: Vec<Recording>) -> Result<Frame, AllocError>
    requires collectable { IsCollectable recordings.items }
    requires apart { (n : ℕ) → count_of n (numbers_in recordings.items) ≤ 1 }
    requires own { AreOfOwnEncoders (recordings_seen recordings.items) }
{
    let journal = collect(alloc, &recordings)?;
    let (pre, post, views) = parts(alloc)?;
    Ok(Frame::new(0, views, pre, post, Vec::new(alloc), recordings, journal))
}

// A frame of two recordings: encoder 3 has the numbers 2 and 5, encoder 1 has 3 and 4.
fn interleaved(
    alloc: Global,
    first: Item,
    second: Item,
    third: Item,
    fourth: Item,
) -> Result<Frame, AllocError>
    requires outer { (number_of first ≡ 2) × (number_of fourth ≡ 5) }
    requires inner { (number_of second ≡ 3) × (number_of third ≡ 4) }
{
    let mut recordings = Vec::new(alloc);
    recordings.push(two(alloc, 3, first, fourth)?)?;
    recordings.push(two(alloc, 1, second, third)?)?;
    framed(alloc, recordings)
}

// Of an order of two items: whether they are of these entries, and where the runs of positions 5 and 0 end. None where there are not two.
fn two_placed(alloc: Global, frame: &Frame) -> Option<(bool, usize, usize)> {
    let mut all = Vec::new(alloc);
    let made = frame.ordered(&mut all);
    frame.tell_facts();
    if made.is_err() || all.len() != 2 {
        return None;
    }
    let placed = has_entries(&all, &[entry(3, 0), entry(3, 1)]);
    Some((placed, end_of_run(&all, 0, 5), end_of_run(&all, 0, 0)))
}

// Whether there is the second item of encoder 3, a third one of it, and one of encoder 4.
fn items_of(frame: &Frame) -> [bool; 3] {
    [
        frame.item(entry(3, 1)).is_some(),
        frame.item(entry(3, 2)).is_some(),
        frame.item(entry(4, 0)).is_some(),
    ]
}

// A draw of what is no program and one in a view past the last have no place in the order.
#[test]
fn draws_without_a_place(rt: HostRuntime) -> Result<(), Fail> {
    let words = plain_words().ok_or("words")?;
    let program = Handle::of(Kind::Program, 3, 1, Info::Plain);
    let stray = Handle::of(Kind::Uniform, 3, 2, Info::Plain);
    let frame = interleaved(
        rt.alloc(),
        draw(&words, 2, 5, &program, 7),
        draw(&words, 3, 5, &stray, 7),
        draw(&words, 4, 256, &program, 7),
        draw(&words, 5, 7, &program, 7),
    )?;
    let placed = two_placed(rt.alloc(), &frame);
    let items = items_of(&frame);
    drop(frame);
    assert_eq!(rt; (placed, items), (Some((true, 1, 0)), [true, false, false]));
    Ok(())
}

// Whether the blits are these, by the positions of their views and their numbers.
fn are_placed(alloc: Global, frame: &Frame) -> Result<bool, AllocError> {
    let mut all = Vec::new(alloc);
    frame.blits(&mut all)?;
    let wanted = [placed(5, 1, 0), placed(5, 3, 1), placed(7, 3, 0)];
    Ok(all.as_slice() == wanted.as_slice())
}

// How many views are noted, and whether views 5, 6 and 7 are entered.
fn entered(alloc: Global, frame: &Frame) -> Result<(usize, [Option<bool>; 3]), AllocError> {
    let mut noted = Vec::new(alloc);
    frame.entered(&mut noted)?;
    let views = noted.as_slice();
    Ok((
        views.len(),
        [
            views.get(5).copied(),
            views.get(6).copied(),
            views.get(7).copied(),
        ],
    ))
}

#[test]
fn blits_by_view_and_number(rt: HostRuntime) -> Result<(), Fail> {
    let frame = interleaved(rt.alloc(), blit(7, 2), blit(5, 3), blit(300, 4), blit(5, 5))?;
    let placed = are_placed(rt.alloc(), &frame);
    let entered = entered(rt.alloc(), &frame);
    drop(frame);
    assert!(rt; placed?);
    assert_eq!(rt; entered?, (256, [Some(true), Some(false), Some(true)]));
    Ok(())
}
