// The lines of a scene that record items.
ghost use Rattle.std.specs.Prelude.{◌≡◌, ◌⊎◌, ◌≤◌, ◌<◌, ◌++◌, [], None, Some, true, length, map, slice_get, IfOk};
ghost use Rattle.scene_text.specs.Seen.{scene_seen};
ghost use Rattle.dropped_lines.specs.Dropped.{dropped_with};
ghost use Rattle.dropped_lines.specs.Verdicts.{verdicts};
ghost use Rattle.scene_check.specs.Found.{line_told};
ghost use Rattle.item_lines.specs.Items as model;
ghost use Rattle.item_lines.specs.Merging.{Ascend, is_line_of};

use crate::places::Place;
use scene_check::DroppedLine;
use scene_text::Scene;
use std::alloc::{AllocError, Global};

/// A line that records an item: its number in the text, from 1, its frame and its encoder.
#[derive(Clone, Copy, Drop)]
pub struct ItemLine {
    pub line: u32,
    pub place: Place,
}

/// Whether the dropped line at a place has a number.
fn is_dropped(dropped: &[DroppedLine], at: usize, number: u32) -> bool
    ensures value { result ≡ is_line_of number (slice_get dropped.now at) }
    ensures within { result ≡ true → at < length dropped.now }
{
    match dropped.get(at) {
        Some(line) => line.line == number,
        None => false,
    }
}

/// Puts an accepted line behind others, where it records an item.
fn put_accepted(
    items: &mut Vec<ItemLine>,
    number: u32,
    place: Option<Place>,
) -> Result<(), AllocError>
    ensures { IfOk result (λ _. items.new.items ≡ items.old.items ++ model.with_item number None place []) }
{
    if let Some(place) = place {
        items.push(ItemLine {
            line: number,
            place,
        })?;
    }
    Ok(())
}

/// The lesser of two numbers.
fn lesser(a: usize, b: usize) -> usize
    ensures is { (result ≡ a) ⊎ (result ≡ b) }
    ensures first { result ≤ a }
    ensures second { result ≤ b }
{
    if a < b { a } else { b }
}

/// The lines that record items: of the numbered lines that are not dropped those that have a place.
pub(crate) fn accepted_items(
    alloc: Global,
    scene: &Scene,
    numbers: &[u32],
    places: &[Option<Place>],
    dropped: &[DroppedLine],
) -> Result<Vec<ItemLine>, AllocError>
    requires ascend { Ascend numbers.now }
    requires places { places.now ≡ model.item_places (scene_seen scene.now) }
    requires dropped { dropped.now ≡ map line_told (dropped_with numbers.now (verdicts (scene_seen scene.now))) }
    ensures { IfOk result (λ items. items.items ≡ model.items_with numbers.now (verdicts (scene_seen scene.now)) (model.item_places (scene_seen scene.now))) }
{
    let _ = scene;
    let mut items = Vec::new(alloc);
    let mut at: usize = 0;
    for index in 0..lesser(numbers.len(), places.len()) {
        let number = numbers[index];
        if is_dropped(dropped, at, number) {
            at += 1;
        } else {
            put_accepted(&mut items, number, places[index])?;
        }
    }
    Ok(items)
}
