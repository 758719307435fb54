// The order of the views from outside, and the limits of the settings.
ghost use Rattle.std.specs.Prelude.{nat_lt};

use fix_math::{Affine, Rect};
use gfx_words::{Handle, Info, Kind, Refusal, ViewMode};
use std::alloc::{AllocError, Global};
use view_table::{Clear, LiveTargets, View, ViewTable};

// What a call answered.
type Answer = Result<(), Refusal>;

// Whether each view stands where the table says, and these views are the first in the order.
fn is_order(table: &ViewTable, first: &[u16]) -> bool {
    for position in 0..table.count() {
        if table.position(table.view_at(position)) != position {
            return false;
        }
    }
    for (position, view) in first.iter().enumerate() {
        if position >= table.count() as usize || table.view_at(position as u16) != *view {
            return false;
        }
    }
    true
}

// Where a view stands.
fn position_of(table: &ViewTable, view: u16) -> Option<u16> {
    if view < table.count() {
        Some(table.position(view))
    } else {
        None
    }
}

// Whether a view has these settings.
fn is_set(table: &ViewTable, view: u16, settings: &View) -> bool {
    match table.get(view) {
        Some(found) => found == settings,
        None => false,
    }
}

// The views from the last to the first.
fn descending(alloc: Global, count: u16) -> Result<Vec<u16>, AllocError> {
    let mut ids = Vec::new(alloc);
    for view in 0..count {
        ids.push(count - 1 - view)?;
    }
    Ok(ids)
}

// A new table, three listed views and none: whether the order is so, what the calls answer, and where view 254 stands behind three others.
fn listed(table: &mut ViewTable) -> ([bool; 3], [Answer; 2], Option<u16>) {
    let new = is_order(table, &[0, 1, 2, 3]);
    let three = table.set_order(&[9, 1, 255]);
    let behind = is_order(table, &[9, 1, 255, 0, 2, 3, 4, 5, 6, 7, 8, 10, 11]);
    let last = position_of(table, 254);
    let none = table.set_order(&[]);
    let again = is_order(table, &[0, 1, 2, 3]);
    ([new, behind, again], [three, none], last)
}

#[test]
fn listed_views_come_first(rt: HostRuntime) -> Result<(), AllocError> {
    let mut table = ViewTable::new(rt.alloc(), 256)?;
    let told = listed(&mut table);
    drop(table);
    assert!(rt; told == ([true; 3], [Ok(()); 2], Some(255)));
    Ok(())
}

// Orders of all views, of one more than there are, of one view twice and of a view past the last: what they answer, and whether the first
// one stands behind it and behind the others.
fn orders(alloc: Global, table: &mut ViewTable) -> Result<([Answer; 4], [bool; 2]), AllocError> {
    let mut ids = descending(alloc, 256)?;
    let all = table.set_order(&ids);
    let set = is_order(table, &[255, 254, 253]);
    ids.push(0)?;
    let more = table.set_order(&ids);
    let twice = table.set_order(&[3, 3]);
    let stranger = table.set_order(&[3, 3, 256]);
    let kept = is_order(table, &[255, 254, 253]);
    Ok(([all, more, twice, stranger], [set, kept]))
}

// Whether a copy has the order.
fn is_copied(table: &ViewTable, first: &[u16]) -> Result<bool, AllocError> {
    let copied = table.copy()?;
    Ok(is_order(&copied, first))
}

#[test]
fn orders_of_all_and_of_more(rt: HostRuntime) -> Result<(), AllocError> {
    let mut table = ViewTable::new(rt.alloc(), 256)?;
    let told = orders(rt.alloc(), &mut table);
    let copied = is_copied(&table, &[255, 254, 253]);
    drop(table);
    let bad_range = Err(Refusal::BadRange);
    let answers = [Ok(()), bad_range, bad_range, Err(Refusal::BadView)];
    assert!(rt; told? == (answers, [true; 2]) && copied?);
    Ok(())
}

const RECT: Rect = Rect {
    x: 1,
    y: 2,
    w: 3,
    h: 4,
};

// The last frame buffer.
fn target() -> Option<Handle> {
    Some(Handle::of(Kind::FrameBuffer, 127, 1, Info::Plain))
}

// All settings of a view.
fn all() -> View {
    View {
        rect: RECT,
        scissor: RECT,
        clear: Clear {
            flags: 7,
            color: [1, 2, 3, 4],
            depth: 16_777_215,
            stencil: 255,
        },
        mode: ViewMode::Sequential,
        target: target(),
        transform: Affine { m: [7; 12] },
    }
}

// What the calls answer that give view 255 all settings.
fn set_all(table: &mut ViewTable) -> [Answer; 6] {
    [
        table.set_rect(255, RECT),
        table.set_scissor(255, RECT),
        table.set_mode(255, ViewMode::Sequential),
        table.set_transform(255, Affine { m: [7; 12] }),
        table.set_target(255, target()),
        table.set_clear(255, 7, [1, 2, 3, 4], 16_777_215, 255),
    ]
}

// What clears past their limits answer, and calls on a view past the last.
fn past_the_last(table: &mut ViewTable) -> [Answer; 6] {
    [
        table.set_clear(255, 8, [0; 4], 0, 0),
        table.set_clear(255, 0, [0; 4], 16_777_216, 0),
        table.set_clear(256, 8, [0; 4], 0, 0),
        table.set_rect(256, RECT),
        table.set_target(256, None),
        table.reset_view(256),
    ]
}

// Whether a copy has all settings in view 255.
fn is_copied_whole(table: &ViewTable) -> Result<bool, AllocError> {
    let copied = table.copy()?;
    Ok(is_set(&copied, 255, &all()))
}

// Whether view 255 has all settings, and view 254 those of a new table; the answer to a reset; and whether view 255 is plain then.
fn reset(table: &mut ViewTable) -> ([bool; 4], Answer) {
    let whole = is_set(table, 255, &all());
    let other = is_set(table, 254, &View::plain());
    let none = table.get(256).is_none();
    let answer = table.reset_view(255);
    (
        [whole, other, none, is_set(table, 255, &View::plain())],
        answer,
    )
}

#[test]
fn settings_at_their_limits(rt: HostRuntime) -> Result<(), AllocError> {
    let mut table = ViewTable::new(rt.alloc(), 256)?;
    let accepted = set_all(&mut table);
    let refused = past_the_last(&mut table);
    let copied = is_copied_whole(&table);
    let told = reset(&mut table);
    drop(table);
    let (bad_state, bad_view) = (Err(Refusal::BadState), Err(Refusal::BadView));
    let wanted = [bad_state, bad_state, bad_view, bad_view, bad_view, bad_view];
    assert!(rt; (accepted, refused, told) == ([Ok(()); 6], wanted, ([true; 4], Ok(()))) && copied?);
    Ok(())
}

// Of 512 views: their number, what orders and modes answer, and whether the two listed views come first.
fn wide(table: &mut ViewTable) -> (u16, [Answer; 4], bool) {
    let count = table.count();
    let two = table.set_order(&[511, 0]);
    let first = is_order(table, &[511, 0, 1, 2, 3]);
    let stranger = table.set_order(&[512]);
    let set = table.set_mode(511, ViewMode::Sequential);
    let none = table.set_mode(512, ViewMode::Sequential);
    (count, [two, stranger, set, none], first)
}

// Whether a copy has the order and the settings of the last view, and no view behind it.
fn is_wide_copy(table: &ViewTable) -> Result<[bool; 3], AllocError> {
    let copied = table.copy()?;
    let first = is_order(&copied, &[511, 0, 1, 2, 3]);
    Ok([
        first,
        copied.get(511) == table.get(511),
        copied.get(512).is_none(),
    ])
}

// An order of all views and one of one more: what they answer, and whether the first stands.
fn wide_orders(alloc: Global, table: &mut ViewTable) -> Result<([Answer; 2], bool), AllocError> {
    let mut ids = descending(alloc, 512)?;
    let all = table.set_order(&ids);
    let first = is_order(table, &[511, 510, 509]);
    ids.push(0)?;
    Ok(([all, table.set_order(&ids)], first))
}

#[test]
fn five_hundred_and_twelve_views(rt: HostRuntime) -> Result<(), AllocError> {
    let mut table = ViewTable::new(rt.alloc(), 512)?;
    let told = wide(&mut table);
    let copied = is_wide_copy(&table);
    let orders = wide_orders(rt.alloc(), &mut table);
    drop(table);
    let bad_view = Err(Refusal::BadView);
    assert!(rt; told == (512, [Ok(()), bad_view, Ok(()), bad_view], true));
    assert!(rt; copied? == [true; 3] && orders? == ([Ok(()), Err(Refusal::BadRange)], true));
    Ok(())
}

struct IndexBelow(u16);

impl LiveTargets for IndexBelow {
    ghost is_kept = { λ test h. nat_lt h.index test.0 };

    fn keeps(&self, target: Handle) -> bool {
        target.index() < self.0
    }
}

// What the setting of a dead and of a live target answers, and whether their views are plain when the dead ones went.
fn targets_gone(table: &mut ViewTable) -> ([Answer; 2], [bool; 2]) {
    let dead = table.set_target(3, Some(Handle::of(Kind::FrameBuffer, 7, 1, Info::Plain)));
    let live = table.set_target(255, Some(Handle::of(Kind::FrameBuffer, 6, 2, Info::Plain)));
    table.keep_targets(&IndexBelow(7));
    let plain = View::plain();
    (
        [dead, live],
        [is_set(table, 3, &plain), is_set(table, 255, &plain)],
    )
}

#[test]
fn dead_targets_go(rt: HostRuntime) -> Result<(), AllocError> {
    let mut table = ViewTable::new(rt.alloc(), 256)?;
    let told = targets_gone(&mut table);
    drop(table);
    assert!(rt; told == ([Ok(()); 2], [true, false]));
    Ok(())
}
