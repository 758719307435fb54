// The least pairs of items of one frame.
ghost use Rattle.std.specs.Prelude.{◌≡◌, ◌<◌, ◌++◌, ℕ, [], List, Some, map, filter_map, option_map, slice_get, length, IfOk, IfSome};
ghost use Rattle.std.specs.List.{AllByRecursion, cons_option};
ghost use Rattle.gfx_model.specs.Views.{view_count};
ghost use Rattle.scene_model.specs.Scene.{Scene};
ghost use Rattle.scene_model.specs.Fold.{FramePlan, plans};
ghost use Rattle.shared_keys.specs.Marks.{shared_seen, IsThere};
ghost use Rattle.shared_items.specs.Items as items;
ghost use Rattle.shared_items.specs.Seen.{pair_seen};
ghost use Rattle.draw_encoder.specs.Bundles.{items_of};
ghost use Rattle.recorded_keys.specs.Recorded.{ArePlanned};
ghost use Rattle.recorded_keys.specs.Pairs.{clash_mark, is_recorded_by, found_place, pair_by_marks, recorded_pair};

use crate::frames::recorded_views;
use crate::marking::mark;
use draw_encoder::Recording;
use shared_items::{ItemPair, shared_items};
use shared_keys::laws::there_law;
use shared_keys::{Mark, SharedView};
use std::alloc::{AllocError, Global};
use view_table::ViewTable;

/// The marks of a recording's items, which are there, in order; none of an item that clashes with nothing.
fn item_marks(
    alloc: Global,
    views: &ViewTable,
    recording: &Recording,
) -> Result<Vec<Option<Mark>>, AllocError>
    ensures { IfOk result (λ marks. AllByRecursion (IsThere (view_count views.now)) (items_of recording.now)
        → marks.items ≡ map (clash_mark views.now recording.now.encoder) (items_of recording.now)) }
{
    let mut marks = Vec::new(alloc);
    for item in recording.items.as_slice() {
        marks.push(mark(views, recording, item))?;
    }
    Ok(marks)
}

/// Whether there is a recording at a place, and it is an encoder's.
fn is_recorded_by(recordings: &[Recording], place: usize, encoder: u8) -> bool
    ensures { result ≡ is_recorded_by encoder (slice_get recordings.now place) }
{
    match recordings.get(place) {
        Some(recording) => recording.encoder == encoder,
        None => false,
    }
}

/// The place of an encoder's recording.
fn place_of(recordings: &[Recording], encoder: u8) -> Option<usize>
    ensures value { result ≡ found_place recordings.now encoder }
    ensures within { IfSome result (λ n. n < length recordings.now) }
{
    for place in 0..recordings.len() {
        if is_recorded_by(recordings, place, encoder) {
            return Some(place);
        }
    }
    None
}

/// A view with two encoders, with the least pair of their items by their marks.
fn pair_by_marks(
    shared: &SharedView,
    lefts: &[Option<Mark>],
    rights: &[Option<Mark>],
) -> Option<ItemPair>
    ensures { option_map pair_seen result ≡ pair_by_marks (shared_seen shared.now) lefts.now rights.now }
{
    let (first_item, second_item) = shared_items(shared.view, lefts, rights)?;
    Some(ItemPair {
        view: shared.view,
        first: shared.first,
        first_item,
        second: shared.second,
        second_item,
    })
}

/// The same of two recordings whose items are there.
fn recorded_pair(
    alloc: Global,
    views: &ViewTable,
    shared: &SharedView,
    first: &Recording,
    second: &Recording,
) -> Result<Option<ItemPair>, AllocError>
    ensures { IfOk result (λ pair. AllByRecursion (IsThere (view_count views.now)) (items_of first.now) → AllByRecursion (IsThere (view_count views.now)) (items_of second.now)
        → option_map pair_seen pair ≡ recorded_pair views.now (shared_seen shared.now) first.now second.now) }
{
    let lefts = item_marks(alloc, views, first)?;
    let rights = item_marks(alloc, views, second)?;
    Ok(pair_by_marks(shared, &lefts, &rights))
}

/// The least pair of items of a view in which two encoders share a key.
fn pair_in(
    alloc: Global,
    views: &ViewTable,
    recordings: &[Recording],
    shared: &SharedView,
) -> Result<Option<ItemPair>, AllocError>
    ensures { IfOk result (λ pair. (p : FramePlan) → views.now ≡ p.views → ArePlanned p recordings.now → AllByRecursion (λ r. AllByRecursion (IsThere (view_count p.views)) (items_of r)) recordings.now
        → option_map pair_seen pair ≡ items.pair_in p (shared_seen shared.now)) }
{
    let Some(first) = place_of(recordings, shared.first) else {
        return Ok(None);
    };
    let Some(second) = place_of(recordings, shared.second) else {
        return Ok(None);
    };
    let pair = recorded_pair(
        alloc,
        views,
        shared,
        &recordings[first],
        &recordings[second],
    )?;
    Ok(pair)
}

/// Puts a pair behind others, where there is one.
fn put_pair(pairs: &mut Vec<ItemPair>, pair: Option<ItemPair>) -> Result<(), AllocError>
    ensures { IfOk result (λ _. pairs.new.items ≡ pairs.old.items ++ cons_option pair []) }
{
    if let Some(pair) = pair {
        pairs.push(pair)?;
    }
    Ok(())
}

/// The least pairs of items of views in which two encoders share a key.
fn pairs_of(
    alloc: Global,
    views: &ViewTable,
    recordings: &[Recording],
    shared: &[SharedView],
) -> Result<Vec<ItemPair>, AllocError>
    ensures { IfOk result (λ pairs. (p : FramePlan) → views.now ≡ p.views → ArePlanned p recordings.now → AllByRecursion (λ r. AllByRecursion (IsThere (view_count p.views)) (items_of r)) recordings.now
        → map pair_seen pairs.items ≡ filter_map (items.pair_in p) (map shared_seen shared.now)) }
{
    let mut pairs = Vec::new(alloc);
    for view in shared {
        put_pair(&mut pairs, pair_in(alloc, views, recordings, view)?)?;
    }
    Ok(pairs)
}

/// The views of a scene's frame in which two encoders share a key, ascending, each with the least pair of items that share one: of the least
/// pair of such encoders the first item of the lesser that shares with one of the other, and of these the first.
///
/// The views are those at the end of the frame's lines, and the recordings are those of the frame's encoders, in any order. The time grows
/// with the product of the two encoders' items.
///
/// # Errors
///
/// For want of memory alone.
pub fn recorded_pairs(
    alloc: Global,
    views: &ViewTable,
    recordings: &[Recording],
) -> Result<Vec<ItemPair>, AllocError>
    ensures { IfOk result (λ pairs. (s : Scene) (k : ℕ) (p : FramePlan) → slice_get (plans s) k ≡ Some p → views.now ≡ p.views → ArePlanned p recordings.now
        → map pair_seen pairs.items ≡ items.frame_pairs p) }
{
    there_law();
    let shared = recorded_views(alloc, views, recordings)?;
    let pairs = pairs_of(alloc, views, recordings, &shared)?;
    Ok(pairs)
}
