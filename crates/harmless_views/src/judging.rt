// Whether a view is harmless.
ghost use Rattle.std.specs.Prelude.{◌≡◌, false, true, List, ℕ, IfOk};
ghost use Rattle.gfx_model.specs.Views.{view_count};
ghost use Rattle.gfx_words.specs.Seen.{entry_seen};
ghost use Rattle.scene_model.specs.Journal.{is_nonempty};
ghost use Rattle.draw_encoder.specs.Seen.{item_seen, part, uniforms_seen};
ghost use Rattle.shared_keys.specs.Marks.{IsThere};
ghost use Rattle.covered_rows.specs.Covering.{AddsOnly, Keeps};
ghost use Rattle.harmless_views.specs.Checked.{AllChecked, AllThere, EntryChecked, EntryThere, IsEntryRun, IsFound, IsSomeRun, Matters, SomeStops, Stops, is_plain};
ghost use Rattle.harmless_views.specs.Left.{IsJudged};
ghost use Rattle.harmless_views.specs.Seen.{entries_in, looked, recorded_in};

use crate::clashing::is_clashing;
use crate::covering::push_draw;
use crate::scope::Scope;
use covered_rows::{Coverer, Run, are_apart};
use draw_encoder::{Item, Recording, UniformSet};
use gfx_words::JournalEntry;
use recorded_keys::mark;
use shared_keys::Mark;
use std::alloc::{AllocError, Global};
use view_drawing::DrawingRoom;

/// The mark of a recorded item, where it is of the view and clashes with one of another encoder.
fn clash_of(scope: &Scope<'_>, recording: &Recording, item: &Item) -> Option<Mark>
    ensures { let i = item_seen recording.now.bytes recording.now.uniforms item.now in IsThere (view_count scope.now.frame.now.views) i → IsFound (looked scope.now) recording.now.encoder i result }
{
    let mark = mark(&scope.frame.views, recording, item)?;
    if mark.view != scope.number || !is_clashing(scope.marks, &mark) {
        return None;
    }
    Some(mark)
}

/// Whether values from a place on are some, of those that are there.
fn carries(sets: &[UniformSet], at: u32, count: u32) -> bool
    ensures { result ≡ is_nonempty (uniforms_seen (part sets.now at count)) }
{
    count > 0 && (at as usize) < sets.len()
}

/// Whether an item is a draw without values.
fn is_plain(sets: &[UniformSet], item: &Item) -> bool
    ensures { (bytes : List ℕ) → result ≡ is_plain (item_seen bytes sets.now item.now) }
{
    match item {
        Item::Draw(draw) => !carries(sets, draw.values_at, draw.values),
        _ => false,
    }
}

/// Puts what an entry's item covers behind the runs, where it is of the view and clashes with one of another encoder. Answers whether
/// nothing but what it covers can keep it from passing the others.
fn check_entry(
    scope: &Scope<'_>,
    entry: JournalEntry,
    runs: &mut Vec<Run>,
    room: &mut DrawingRoom,
) -> Result<bool, AllocError>
    ensures keeps { IfOk result (λ _. Keeps runs.old.items runs.new.items) }
    ensures checked { IfOk result (λ fine. fine ≡ true → EntryChecked (looked scope.now) runs.new.items (recorded_in scope.now) (entry_seen entry)) }
    ensures adds { IfOk result (λ _. EntryThere (looked scope.now) (recorded_in scope.now) (entry_seen entry) → AddsOnly (IsEntryRun (looked scope.now) (recorded_in scope.now) (entry_seen entry)) runs.old.items runs.new.items) }
    ensures stops { IfOk result (λ fine. fine ≡ false → EntryThere (looked scope.now) (recorded_in scope.now) (entry_seen entry) → Stops (looked scope.now) (recorded_in scope.now) (entry_seen entry)) }
{
    let Some((recording, item)) = scope.frame.item(entry) else {
        return Ok(true);
    };
    let Some(mark) = clash_of(scope, recording, item) else {
        return Ok(true);
    };
    if !is_plain(recording.uniforms.as_slice(), item) {
        return Ok(false);
    }
    let coverer = Coverer {
        key: mark.key,
        encoder: mark.encoder,
    };
    push_draw(scope, entry, coverer, runs, room)
}

/// The same of all entries.
fn check_all(
    scope: &Scope<'_>,
    runs: &mut Vec<Run>,
    room: &mut DrawingRoom,
) -> Result<bool, AllocError>
    ensures checked { IfOk result (λ fine. fine ≡ true → AllChecked (looked scope.now) runs.new.items (recorded_in scope.now) (entries_in scope.now)) }
    ensures adds { IfOk result (λ _. AllThere (looked scope.now) (recorded_in scope.now) (entries_in scope.now) → AddsOnly (IsSomeRun (looked scope.now) (recorded_in scope.now) (entries_in scope.now)) runs.old.items runs.new.items) }
    ensures stops { IfOk result (λ fine. fine ≡ false → AllThere (looked scope.now) (recorded_in scope.now) (entries_in scope.now) → SomeStops (looked scope.now) (recorded_in scope.now) (entries_in scope.now)) }
{
    for entry in &scope.frame.journal {
        let fine = check_entry(scope, *entry, runs, room)?;
        if !fine {
            return Ok(false);
        }
    }
    Ok(true)
}

/// Whether a view is harmless: it draws onto the back buffer, its items that clash with those of other encoders are draws without values, and
/// no two of them cover a pixel in common. `Err` only for want of memory.
pub(crate) fn is_harmless(
    alloc: Global,
    scope: &Scope<'_>,
    room: &mut DrawingRoom,
) -> Result<bool, AllocError>
    ensures judged { IfOk result (λ harmless. harmless ≡ true → IsJudged (looked scope.now) (recorded_in scope.now) (entries_in scope.now)) }
    ensures matters { IfOk result (λ harmless. harmless ≡ false → AllThere (looked scope.now) (recorded_in scope.now) (entries_in scope.now) → Matters (looked scope.now) (recorded_in scope.now) (entries_in scope.now)) }
{
    if scope.view.target.is_some() {
        return Ok(false);
    }
    let mut runs = Vec::new(alloc);
    let fine = check_all(scope, &mut runs, room)?;
    if !fine {
        return Ok(false);
    }
    let apart = are_apart(runs)?;
    Ok(apart)
}
