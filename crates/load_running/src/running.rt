// A context behind a lock, on which the blocks of a load are run.
ghost use Rattle.std.specs.Prelude.{◌≡◌, ◌≤◌, [], map, IfOk, ℕ};
ghost use Rattle.gfx_model.specs.Views.{fewest_views};
ghost use Rattle.hold_table.specs.Seats as seats;
ghost use Rattle.hold_table.specs.Views as seat_views;
ghost use Rattle.load_text.specs.Loads.{lines_of};
ghost use Rattle.load_text.specs.Seen.{block_seen};
ghost use Rattle.res_lock.specs.Seen.{entries_seen};
ghost use Rattle.res_lock.specs.Seats.{table_of, pass_table};
ghost use Rattle.load_running.specs.LoadHistories.{load_start, load_book, IsHistoryOf};
ghost use Rattle.load_running.specs.Runs.{IsFirstOf};

use crate::blocks::Ran;
use crate::callers::run_blocks;
use draw_encoder::{Naming, Shared};
use frame_record::FrameLink;
use gfx_context::Context;
use gfx_words::FEWEST_VIEWS;
use hold_table::{ApiSeat, HoldTable};
use io_edge::{Gate, SureSink};
use load_text::Block;
use render_core::{InPlaceLink, Renderer, SerialRasterizer};
use res_lock::{Entry, HistoryNaming, HistoryTable, ResLock, ResPass};
use resource_book::Start;
use std::alloc::{AllocError, Global};
use std::marker::Brand;
use std::sync::Wait;
use std::thread::Threads;

/// The number of the callers up to the greatest that has a block, and at least 1.
fn callers_of(blocks: &[Block]) -> u8
    ensures count { (1 ≤ result) × (result ≤ 8) }
    ensures none { (c : ℕ) → result ≤ c → lines_of c (map block_seen blocks.now) ≡ [] }
{
    let mut count: u8 = 1;
    for block in blocks {
        count = count.max(block.caller + 1);
    }
    count
}

/// Runs blocks on a context behind a lock, and answers the history of their calls. `Err` for want of memory alone.
fn run_locked<'t, C, L, H, R, G>(
    rt: &R,
    gate: &G,
    alloc: Global,
    lock: ResLock<'t, C, L, H>,
    first: ResPass,
    blocks: &[Block],
) -> Result<Vec<Entry>, AllocError>
where
    C: Naming + Send + Sync,
    L: FrameLink + Drop + Send,
    H: HistoryNaming + Send + Sync,
    R: Threads + Wait + Sync,
    G: Gate + Sync,
    requires start { H.start ≡ load_start }
    requires table { pass_table first ≡ H.table }
    requires first { IsFirstOf 1 first }
    ensures { IfOk result (λ entries. IsHistoryOf (map block_seen blocks.now) (entries_seen entries.items)) }
{
    let count = callers_of(blocks);
    let Ran { pass, is_whole } = run_blocks(rt, gate, alloc, &lock, first, blocks, count);
    let (context, entries) = lock.close(pass);
    drop(context.shutdown(rt));
    if is_whole {
        Ok(entries)
    } else {
        Err(AllocError)
    }
}

/// Makes the context, which begins without things, and runs blocks on it.
fn run_context<'t, C, L, H, R, G>(
    rt: &R,
    gate: &G,
    alloc: Global,
    shared: &'t Shared<C>,
    seat: ApiSeat,
    link: L,
    table: HistoryTable,
    first: ResPass,
    blocks: &[Block],
) -> Result<Vec<Entry>, AllocError>
where
    C: Naming + Send + Sync,
    L: FrameLink + Drop + Send,
    H: HistoryNaming + Send + Sync,
    R: Threads + Wait + Sync,
    G: Gate + Sync,
    requires seat { (seats.api_table seat ≡ C.table) × (seats.api_view seat ≡ seat_views.first_view 0) }
    requires views { C.views ≡ fewest_views }
    requires link { (L.given link ≡ []) × (L.back link ≡ []) × (L.latency link ≡ 1) }
    requires start { (H.start ≡ load_start) × (H.book ≡ load_book) × (H.given ≡ []) }
    requires table { (table_of table ≡ H.table) × (pass_table first ≡ H.table) }
    requires first { IsFirstOf 1 first }
    ensures { IfOk result (λ entries. IsHistoryOf (map block_seen blocks.now) (entries_seen entries.items)) }
{
    let start = Start {
        frame: 0,
        serial: 1,
        views: FEWEST_VIEWS,
        latency: 1,
    };
    let Ok(context) = Context::init(alloc, shared, seat, link, start) else {
        return Err(AllocError);
    };
    let Ok(lock) = ResLock::<C, L, H>::new(alloc, table, context) else {
        return Err(AllocError);
    };
    run_locked(rt, gate, alloc, lock, first, blocks)
}

/// A link that renders each frame where it is given, on one pixel, and whose pictures are only counted.
type CountingLink = InPlaceLink<SureSink, SerialRasterizer>;

/// Such a link, at which one frame may be out. `Err` for want of memory alone.
fn counting_link(alloc: Global) -> Result<CountingLink, AllocError>
    ensures none { IfOk result (λ l. (⟦<CountingLink as FrameLink>⟧.given l ≡ []) × (⟦<CountingLink as FrameLink>⟧.back l ≡ [])) }
    ensures latency { IfOk result (λ l. ⟦<CountingLink as FrameLink>⟧.latency l ≡ 1) }
{
    let Ok(renderer) = Renderer::new(alloc, 1, 1, SureSink::new()) else {
        return Err(AllocError);
    };
    match InPlaceLink::new(alloc, renderer, SerialRasterizer, 1) {
        Ok(link) => Ok(link),
        Err(_) => Err(AllocError),
    }
}

/// Makes what the context stands on.
fn run_tables<C, H, R, G>(
    rt: &R,
    gate: &G,
    alloc: Global,
    hold: HoldTable,
    seat: ApiSeat,
    table: HistoryTable,
    first: ResPass,
    blocks: &[Block],
) -> Result<Vec<Entry>, AllocError>
where
    C: Naming + Send + Sync,
    H: HistoryNaming + Send + Sync,
    R: Threads + Wait + Sync,
    G: Gate + Sync,
    requires hold { seats.table_of hold ≡ C.table }
    requires seat { (seats.api_table seat ≡ C.table) × (seats.api_view seat ≡ seat_views.first_view 0) }
    requires views { C.views ≡ fewest_views }
    requires start { (H.start ≡ load_start) × (H.book ≡ load_book) × (H.given ≡ []) }
    requires table { (table_of table ≡ H.table) × (pass_table first ≡ H.table) }
    requires first { IsFirstOf 1 first }
    ensures { IfOk result (λ entries. IsHistoryOf (map block_seen blocks.now) (entries_seen entries.items)) }
{
    let Ok(shared) = Shared::<C>::new(alloc, hold) else {
        return Err(AllocError);
    };
    let link = counting_link(alloc)?;
    run_context::<C, CountingLink, H, R, G>(
        rt, gate, alloc, &shared, seat, link, table, first, blocks,
    )
}

/// Runs blocks, each by a thread of its own, or by this thread where none can be started, on one new context: 256 views, frame 0, serial
/// 1, and one frame may be out. It answers the history of their calls.
///
/// # Errors
///
/// `AllocError` for want of memory alone.
pub(crate) fn run_load<R: Threads + Wait + Sync, G: Gate + Sync>(
    rt: &R,
    gate: &G,
    alloc: Global,
    blocks: &[Block],
) -> Result<Vec<Entry>, AllocError>
    ensures { IfOk result (λ entries. IsHistoryOf (map block_seen blocks.now) (entries_seen entries.items)) }
{
    let (hold, seat) = HoldTable::new(alloc, 0)?;
    let (table, first) = HistoryTable::new(alloc)?;
    run_tables::<Brand, Brand, R, G>(rt, gate, alloc, hold, seat, table, first, blocks)
}
