// The lines of a frame's items.
ghost use Rattle.std.specs.Prelude.{◌≡◌, ◌≤◌, ◌++◌, ◌∷◌, [], length, IfOk};
ghost use Rattle.spelling_model.specs.Readable.{IsReadable};
ghost use Rattle.scene_text.specs.Bounds.{IsBounded};
ghost use Rattle.scene_text.specs.Seen.{scene_seen};
ghost use Rattle.dropped_lines.specs.Numbers.{line_numbers};
ghost use Rattle.dropped_lines.specs.Verdicts.{verdicts};
ghost use Rattle.item_lines.specs.Items as model;
ghost use Rattle.item_lines.specs.Items.{numbers_of, numbers_seen};

use crate::accepted::{ItemLine, accepted_items};
use crate::judged::dropped_of;
use crate::places::item_places;
use scene_check::line_numbers;
use scene_text::Scene;
use std::alloc::{AllocError, Global};

/// Whether a line is an encoder's in a frame.
fn is_of(item: &ItemLine, frame: u32, encoder: u8) -> bool
    ensures { result ≡ model.is_of frame encoder item.now }
{
    item.place.frame == frame && item.place.encoder == encoder
}

/// Puts a line's number behind others, where it is an encoder's in a frame.
fn put_number(
    numbers: &mut Vec<u32>,
    item: &ItemLine,
    frame: u32,
    encoder: u8,
) -> Result<(), AllocError>
    ensures { IfOk result (λ _. numbers.new.items ≡ numbers.old.items ++ numbers_of frame encoder (item.now ∷ [])) }
{
    if is_of(item, frame, encoder) {
        numbers.push(item.line)?;
    }
    Ok(())
}

/// The numbers of an encoder's lines in a frame.
fn encoder_numbers(
    alloc: Global,
    items: &[ItemLine],
    frame: u32,
    encoder: u8,
) -> Result<Vec<u32>, AllocError>
    ensures { IfOk result (λ numbers. numbers.items ≡ numbers_of frame encoder items.now) }
{
    let mut numbers = Vec::new(alloc);
    for item in items {
        put_number(&mut numbers, item, frame, encoder)?;
    }
    Ok(numbers)
}

/// The lines of a scene that record items.
fn scene_items(alloc: Global, bytes: &[u8], scene: &Scene) -> Result<Vec<ItemLine>, AllocError>
    requires few { length bytes.now ≤ 4294967294 }
    requires readable { IsReadable (scene_seen scene.now) }
    requires bounded { IsBounded (scene_seen scene.now) }
    ensures { IfOk result (λ items. items.items ≡ model.items_with (line_numbers bytes.now) (verdicts (scene_seen scene.now)) (model.item_places (scene_seen scene.now))) }
{
    let numbers = line_numbers(alloc, bytes)?;
    let dropped = dropped_of(alloc, &numbers, scene)?;
    let places = item_places(alloc, scene)?;
    accepted_items(alloc, scene, &numbers, &places, &dropped)
}

/// For each encoder of a scene the numbers, from 1, of the lines of its text that record its items in a frame, in the order of the items.
///
/// `bytes` are the scene's text, with or without a journal behind it. The scene is one that was read, or keeps the same bounds.
///
/// # Errors
///
/// For want of memory alone.
pub fn item_lines(
    alloc: Global,
    bytes: &[u8],
    scene: &Scene,
    frame: u32,
) -> Result<Vec<Vec<u32>>, AllocError>
    requires few { length bytes.now ≤ 4294967294 }
    requires readable { IsReadable (scene_seen scene.now) }
    requires bounded { IsBounded (scene_seen scene.now) }
    ensures { IfOk result (λ numbers. numbers_seen numbers.items ≡ model.item_lines bytes.now (scene_seen scene.now) frame) }
{
    let items = scene_items(alloc, bytes, scene)?;
    let mut numbers = Vec::new(alloc);
    for encoder in 0..scene.encoders {
        numbers.push(encoder_numbers(alloc, &items, frame, encoder)?)?;
    }
    Ok(numbers)
}
