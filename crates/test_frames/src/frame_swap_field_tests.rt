// Frames with all their fields, as they are given and come back.
ghost use Rattle.std.specs.Prelude.{◌≡◌, ◌≢◌, ◌+◌, ◌∷◌, ◌++◌, [], ◌≤◌, IfOk, length, map};
ghost use Rattle.gfx_model.specs.Frames.{AreOfOwnEncoders};
ghost use Rattle.draw_encoder.specs.Seen.{number_of, numbers_of};
ghost use Rattle.frame_record.specs.Seen.{recordings_seen};
ghost use Rattle.frame_swap.specs.Ends.{api_table, api_knows};

use crate::frame_swap_tests::outcome_of;
use cmd_buffer::{CmdBuffer, CmdBytes, Command};
use draw_encoder::{
    BlitCall, BlitItem, Bytes, DrawItem, IndexSet, Item, Items, Recording, TouchItem, UniformSet,
    UniformSets, VertexSet,
};
use frame_record::{Frame, RenderedFrame, collect};
use frame_swap::ApiEnd;
use gfx_words::{Handle, Info, Kind, UniformValue, ViewMode};
use std::alloc::{AllocError, Global};
use std::sync::Wait;
use std::test::Fail;
use view_table::ViewTable;

// The types that an item is made of.
type Parts = (
    DrawItem,
    VertexSet,
    IndexSet,
    Option<Handle>,
    TouchItem,
    BlitItem,
    BlitCall,
);

// ---- frames

fn touch(view: u16, number: u64) -> Item
    ensures { number_of result ≡ number }
{
    Item::Touch(TouchItem {
        view,
        number,
        values_at: 0,
        values: 0,
    })
}

fn put(items: &mut Vec<Item>, item: Item) -> Result<(), AllocError>
    ensures { IfOk result (λ _. items.new.items ≡ items.old.items ++ item ∷ []) }
{
    // The check asks that the types of an item's parts are seen where it is stored.
    let _parts: Option<Parts> = None;
    items.push(item)?;
    Ok(())
}

// One value for a uniform.
fn one_value(alloc: Global, value: u8) -> Result<UniformSets, AllocError> {
    let mut sets = Vec::new(alloc);
    sets.push(UniformSet {
        uniform: Handle::of(Kind::Uniform, 3, 1, Info::Plain),
        value: UniformValue::Int(i32::from(value)),
    })?;
    Ok(UniformSets::from_vec(sets))
}

// A recording of two touches of a view, with one byte and one uniform value; its frame and its dropped lines have the number of the view.
fn two(
    alloc: Global,
    encoder: u8,
    view: u8,
    first: u64,
    second: u64,
) -> Result<Recording, AllocError>
    ensures numbers { IfOk result (λ r. numbers_of r.items ≡ first ∷ second ∷ []) }
    ensures encoder { IfOk result (λ r. r.encoder ≡ encoder) }
{
    let mut items = Vec::new(alloc);
    put(&mut items, touch(u16::from(view), first))?;
    put(&mut items, touch(u16::from(view), second))?;
    Ok(Recording {
        encoder,
        frame: u32::from(view),
        items: Items::from_vec(items),
        bytes: Bytes::from_vec(Vec::from_elem(alloc, view, 1)?),
        uniforms: one_value(alloc, view)?,
        dropped: u32::from(view),
    })
}

// Four recordings that were made beside each other: the first has the numbers 0 and 7, the next ones 1 and 3, 2 and 6, and 4 and 5.
fn four(
    alloc: Global,
    view: u8,
    first: u8,
    second: u8,
    third: u8,
    fourth: u8,
) -> Result<Vec<Recording>, AllocError>
    requires others { (second ≢ first) × (third ≢ first) × (fourth ≢ first) }
    requires last { (third ≢ second) × (fourth ≢ second) × (fourth ≢ third) }
    ensures numbers { IfOk result (λ v. map (λ r. numbers_of r.items) v.items ≡ (0 ∷ 7 ∷ []) ∷ (1 ∷ 3 ∷ []) ∷ (2 ∷ 6 ∷ []) ∷ (4 ∷ 5 ∷ []) ∷ []) }
    ensures own { IfOk result (λ v. AreOfOwnEncoders (recordings_seen v.items)) }
{
    let mut all = Vec::new(alloc);
    all.push(two(alloc, first, view, 0, 7)?)?;
    all.push(two(alloc, second, view, 1, 3)?)?;
    all.push(two(alloc, third, view, 2, 6)?)?;
    all.push(two(alloc, fourth, view, 4, 5)?)?;
    Ok(all)
}

// The recordings of a frame, by its number.
fn recordings_of(alloc: Global, number: u8) -> Result<Vec<Recording>, AllocError>
    ensures numbers { IfOk result (λ v. map (λ r. numbers_of r.items) v.items ≡ (0 ∷ 7 ∷ []) ∷ (1 ∷ 3 ∷ []) ∷ (2 ∷ 6 ∷ []) ∷ (4 ∷ 5 ∷ []) ∷ []) }
    ensures own { IfOk result (λ v. AreOfOwnEncoders (recordings_seen v.items)) }
{
    if number % 2 == 0 {
        return four(alloc, number, 4, 2, 6, 0);
    }
    four(alloc, number, 1, 5, 3, 7)
}

// The view of a frame's number is the first and is drawn by descending depth; the second is as far from the last view. Neither is refused; where
// one is, there is no frame.
fn views_of(alloc: Global, number: u8) -> Result<ViewTable, AllocError> {
    let mut views = ViewTable::new(alloc, 256)?;
    let view = u16::from(number);
    let order = views.set_order(&[view, 255 - view]);
    let mode = views.set_mode(view, ViewMode::DepthDescending);
    if order.is_ok() && mode.is_ok() {
        Ok(views)
    } else {
        Err(AllocError)
    }
}

// A row of one command, which destroys the thing of an index.
fn row(alloc: Global, kind: u8, index: u8) -> Result<CmdBytes, AllocError> {
    let mut row = CmdBuffer::new(alloc);
    row.write(Command::Destroy {
        kind,
        index: u16::from(index),
    })?;
    row.finish()
}

// One payload of three bytes, and one of none.
fn payloads(alloc: Global, byte: u8) -> Result<Vec<Vec<u8>>, AllocError> {
    let mut payloads = Vec::new(alloc);
    payloads.push(Vec::from_elem(alloc, byte, 3)?)?;
    payloads.push(Vec::new(alloc))?;
    Ok(payloads)
}

// A frame whose fields all differ from those of the frames of the numbers beside its own.
fn full_frame(alloc: Global, number: u8) -> Result<Frame, AllocError> {
    let pre = row(alloc, 1, number)?;
    let post = row(alloc, 2, number)?;
    let payloads = payloads(alloc, number)?;
    let views = views_of(alloc, number)?;
    let recordings = recordings_of(alloc, number)?;
    let journal = collect(alloc, &recordings)?;
    Ok(Frame::new(
        u32::from(number),
        views,
        pre,
        post,
        payloads,
        recordings,
        journal,
    ))
}

// ---- comparing

fn equal_payloads(one: &[Vec<u8>], other: &[Vec<u8>]) -> bool {
    if one.len() != other.len() {
        return false;
    }
    for (a, b) in one.iter().zip(other.iter()) {
        if a.as_slice() != b.as_slice() {
            return false;
        }
    }
    true
}

fn equal_recordings(one: &[Recording], other: &[Recording]) -> bool {
    if one.len() != other.len() {
        return false;
    }
    for (a, b) in one.iter().zip(other.iter()) {
        let numbers = (a.encoder, a.frame, a.dropped) == (b.encoder, b.frame, b.dropped);
        if !numbers
            || a.items.as_slice() != b.items.as_slice()
            || a.bytes.as_slice() != b.bytes.as_slice()
            || a.uniforms.as_slice() != b.uniforms.as_slice()
        {
            return false;
        }
    }
    true
}

fn equal_views(one: &ViewTable, other: &ViewTable) -> bool {
    for view in 0..256u16 {
        if one.get(view) != other.get(view) || view_at(one, view) != view_at(other, view) {
            return false;
        }
    }
    one.count() == other.count()
}

// The view at a position of the order.
fn view_at(views: &ViewTable, position: u16) -> Option<u16> {
    if position < views.count() {
        Some(views.view_at(position))
    } else {
        None
    }
}

// Which fields are equal: number, views, commands before and after, payloads, recordings, journal.
fn equal_fields(one: &Frame, other: &Frame) -> [bool; 7] {
    [
        one.number == other.number,
        equal_views(&one.views, &other.views),
        one.pre.as_slice() == other.pre.as_slice(),
        one.post.as_slice() == other.post.as_slice(),
        equal_payloads(&one.payloads, &other.payloads),
        equal_recordings(&one.recordings, &other.recordings),
        one.journal.as_slice() == other.journal.as_slice(),
    ]
}

// ---- there and back

// Takes the oldest frame back where as many are out as may be, and answers how many are out then.
fn make_room<R: Wait>(
    rt: &R,
    api: &mut ApiEnd,
    latency: u8,
    out: u8,
    came: &mut Vec<RenderedFrame>,
) -> u8
    requires out { (length (api_knows api.old).given ≡ length (api_knows api.old).back + out) × (out ≤ latency) }
    requires latency { (1 ≤ latency) × (api.old.latency ≡ latency) }
    ensures table { (api_table api.new ≡ api_table api.old) × (api.new.latency ≡ api.old.latency) }
    ensures out { (length (api_knows api.new).given ≡ length (api_knows api.new).back + result) × (result + 1 ≤ latency) }
{
    if out < latency {
        return out;
    }
    let back = api.take_back(rt);
    let _ = came.push(back);
    out - 1
}

/// Gives the frames, as many out at a time as may be, and takes all back.
pub(crate) fn turns<R: Wait>(
    rt: &R,
    alloc: Global,
    api: &mut ApiEnd,
    latency: u8,
    frames: Vec<Frame>,
) -> Vec<RenderedFrame>
    requires out { length (api_knows api.old).given ≡ length (api_knows api.old).back }
    requires latency { (1 ≤ latency) × (api.old.latency ≡ latency) }
    ensures table { (api_table api.new ≡ api_table api.old) × (api.new.latency ≡ api.old.latency) }
    ensures out { length (api_knows api.new).given ≡ length (api_knows api.new).back }
{
    let mut came = Vec::new(alloc);
    let mut out = 0u8;
    for frame in frames {
        let left = make_room(rt, api, latency, out, &mut came);
        api.give(frame);
        out = left + 1;
    }
    for _ in 0..out {
        let back = api.take_back(rt);
        let _ = came.push(back);
    }
    came
}

/// The frames of the numbers 8 to 13.
pub(crate) fn full_frames(alloc: Global) -> Result<Vec<Frame>, AllocError> {
    let mut frames = Vec::new(alloc);
    for number in 8..14 {
        frames.push(full_frame(alloc, number)?)?;
    }
    Ok(frames)
}

// A frame came back with all fields of that number's frame, and with its outcome.
fn is_whole(alloc: Global, back: &RenderedFrame, number: u8) -> bool {
    match full_frame(alloc, number) {
        Ok(given) => {
            equal_fields(&back.frame, &given) == [true; 7]
                && back.outcome == outcome_of(u32::from(number))
        }
        Err(_) => false,
    }
}

/// How many frames came back, and how many of them as the frames of the numbers from 8 on.
pub(crate) fn whole_of(alloc: Global, came: Vec<RenderedFrame>) -> (u32, u32) {
    let mut count = 0u32;
    let mut whole = 0u32;
    let mut number = 8u8;
    for back in came {
        if is_whole(alloc, &back, number) {
            whole = whole.wrapping_add(1);
        }
        count = count.wrapping_add(1);
        number = number.wrapping_add(1);
    }
    (count, whole)
}

// Which fields of the frames of the numbers 8 and 9 are equal.
fn two_frames(alloc: Global) -> Result<[bool; 7], AllocError> {
    let one = full_frame(alloc, 8)?;
    let other = full_frame(alloc, 9)?;
    Ok(equal_fields(&one, &other))
}

// Whether a frame's journal has these entries.
fn is_journal(frame: &Frame, entries: &[(u8, u32)]) -> bool {
    if frame.journal.len() != entries.len() {
        return false;
    }
    for (entry, (encoder, ordinal)) in frame.journal.iter().zip(entries.iter()) {
        if (entry.encoder, entry.ordinal) != (*encoder, *ordinal) {
            return false;
        }
    }
    true
}

// The journal of four recordings that were made beside each other, by hand; and each field differs from one frame to the next.
#[test]
fn fields_tell_frames_apart(rt: HostRuntime) -> Result<(), Fail> {
    let equal = two_frames(rt.alloc())?;
    let entries = [
        (4, 0),
        (2, 0),
        (6, 0),
        (2, 1),
        (0, 0),
        (0, 1),
        (6, 1),
        (4, 1),
    ];
    let ordered = is_journal(&full_frame(rt.alloc(), 8)?, &entries);
    assert_eq!(rt; (equal, ordered), ([false; 7], true));
    Ok(())
}
