// A play on one thread.
ghost use Rattle.std.specs.Prelude.{◌≡◌, ◌≤◌, ◌+◌, ℕ, List, [], map, Some, None};
ghost use Rattle.gfx_model.specs.World.{Item};
ghost use Rattle.scene_model.specs.Scene.{views_of};
ghost use Rattle.scene_model.specs.Journal.{serial};
ghost use Rattle.spelling_model.specs.Readable.{IsReadable};
ghost use Rattle.scene_text.specs.Bounds.{IsBounded};
ghost use Rattle.scene_text.specs.Seen.{journal_seen, scene_seen};
ghost use Rattle.hold_table.specs.Seats.{table_of, api_table, api_view};
ghost use Rattle.hold_table.specs.Views.{first_view};
ghost use Rattle.block_recording.specs.Promised.{IsAccepted};
ghost use Rattle.scene_playing.specs.Order.{order_seen, Follows};
ghost use Rattle.scene_playing.specs.Frames.{note_seen, ArePlayed};

use crate::frames::{nothing, play_named};
use crate::ordered::Order;
use crate::played::Played;
use crate::recorders::Here;
use draw_encoder::{Naming, Shared};
use frame_record::FrameLink;
use hold_table::{ApiSeat, HoldTable};
use scene_text::{Journal, Scene};
use std::alloc::Global;
use std::marker::Brand;

// A play of a named table.
fn play_table_here<C: Naming, L: FrameLink + Drop>(
    alloc: Global,
    order: Option<&Journal>,
    scene: &Scene,
    table: HoldTable,
    seat: ApiSeat,
    link: L,
) -> Played<L>
    requires table { (table_of table ≡ C.table) × (api_table seat ≡ C.table) }
    requires seat { api_view seat ≡ first_view 0 }
    requires admits { (e n : ℕ) (items : List Item) (d : ℕ) → IsAccepted (scene_seen scene.now) e n items d → C.admits e n items d }
    requires admitted { (e n : ℕ) (items : List Item) (d : ℕ) → C.admits e n items d → IsAccepted (scene_seen scene.now) e n items d }
    requires views { C.views ≡ views_of (scene_seen scene.now) }
    requires readable { IsReadable (scene_seen scene.now) }
    requires bounded { IsBounded (scene_seen scene.now) }
    requires latency { L.latency link ≡ scene.now.latency }
    requires none { (L.given link ≡ []) × (L.back link ≡ []) }
    ensures follows { Follows (order_seen order.entry) (journal_seen result.journal) }
    ensures serial { order_seen order.entry ≡ None → Follows (Some (serial (scene_seen scene.now))) (journal_seen result.journal) }
    ensures played { ArePlayed (scene_seen scene.now) (L.given result.link) (L.back result.link) (journal_seen result.journal) (map note_seen result.notes.items) result.outcome result.is_whole }
    ensures origin { L.origin result.link ≡ L.origin link }
{
    let Ok(shared) = Shared::<C>::new(alloc, table) else {
        return nothing(alloc, scene, link);
    };
    let Ok(mut here) = Here::new(alloc, order) else {
        return nothing(alloc, scene, link);
    };
    let wanted = Order::here(order);
    play_named(&mut here, alloc, &shared, wanted, scene, seat, link)
}

/// Plays the frames of a scene on this thread alone, and gives each frame by the link, at which none is out at the end. It asks for no
/// leave: it starts no thread, and waits for nothing but what the link waits for.
///
/// The scene is one that was read, or keeps the same bounds; nothing was given by the link, and its latency is the scene's. The
/// frames that were given are the first of the scene by index, for the journal that comes back. Where not all were given, one was
/// not shown, or memory was wanting.
///
/// One encoder records after another: the journal that comes back is a front of the scene's journal of one thread. Where an order
/// is given, the items of each frame are recorded in that order, and the journal is a front of it. A frame whose items had another
/// order would not be given, as for want of memory.
pub fn play_here<L: FrameLink + Drop>(
    alloc: Global,
    order: Option<&Journal>,
    scene: &Scene,
    link: L,
) -> Played<L>
    requires readable { IsReadable (scene_seen scene.now) }
    requires bounded { IsBounded (scene_seen scene.now) }
    requires latency { L.latency link ≡ scene.now.latency }
    requires none { (L.given link ≡ []) × (L.back link ≡ []) }
    ensures follows { Follows (order_seen order.entry) (journal_seen result.journal) }
    ensures serial { order_seen order.entry ≡ None → Follows (Some (serial (scene_seen scene.now))) (journal_seen result.journal) }
    ensures played { ArePlayed (scene_seen scene.now) (L.given result.link) (L.back result.link) (journal_seen result.journal) (map note_seen result.notes.items) result.outcome result.is_whole }
    ensures origin { L.origin result.link ≡ L.origin link }
{
    let Ok((table, seat)) = HoldTable::new(alloc, 0) else {
        return nothing(alloc, scene, link);
    };
    play_table_here::<Brand, L>(alloc, order, scene, table, seat, link)
}
