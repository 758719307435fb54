// What no clause says: that recorders lose no job, what the gate is called with, and that items are numbered in the order of steps.
ghost use Rattle.std.specs.Prelude.{◌≡◌, ◌+◌, ◌<◌, ◌≤◌, ℕ, List, [], length, IfSome};
ghost use Rattle.gfx_model.specs.Views.{fewest_views};
ghost use Rattle.gfx_model.specs.World.{Item as SeenItem};
ghost use Rattle.schedule_model.specs.Held.{count_of};
ghost use Rattle.hold_table.specs.Views.{first_view, lent};
ghost use Rattle.hold_table.specs.Seats.{table_of, api_table, api_view};

use block_recording::*;
use draw_encoder::{Encoder, Item, Naming, Recording, Shared};
use gfx_words::{Handle, Room};
use hold_table::{ApiSeat, HoldTable};
use io_edge::Gate;
use scene_text::EncLine;
use std::alloc::Global;
use std::marker::Brand;
use std::sync::atomic::{AtomicU32, Ordering};
use std::sync::{Arc, Wait};
use std::test::Fail;
use std::thread;
use std::thread::Threads;

const ROOM: Room = Room {
    items: 8,
    bytes: 0,
    uniforms: 0,
};

// Two touches that are accepted, and between them a state line and a touch of a view that is not there.
fn touches() -> [EncLine; 4]
    ensures { length result ≡ 4 }
{
    [
        EncLine::Touch { view: 0 },
        EncLine::State { word: 15 },
        EncLine::Touch { view: 256 },
        EncLine::Touch { view: 1 },
    ]
}

// An encoder of frame 0 with that number.
fn begun<'t, C: Naming>(
    alloc: Global,
    shared: &'t Shared<C>,
    api: &mut ApiSeat,
    number: u8,
) -> Option<Encoder<'t, C>>
    requires table { api_table api.old ≡ C.table }
    requires frame { (api_view api.old).frame ≡ 0 }
    requires number { (number < 8) × (count_of number (api_view api.old).off ≡ 0) }
    requires room { length (api_view api.old).off + (api_view api.old).joined < 8 }
    requires views { C.views ≡ fewest_views }
    ensures table { api_table api.new ≡ C.table }
    ensures api { api_view api.new ≡ lent number (api_view api.old) }
    ensures frame { IfSome result (λ e. e.recorder.frame ≡ e.seat.frame) }
{
    let seat = shared.table().split(api, number);
    match Encoder::start(alloc, shared, seat, number, 0, ROOM, 256) {
        Ok(enc) => Some(enc),
        Err(_) => None,
    }
}

fn no_names(alloc: Global) -> Option<Arc<Vec<Option<Handle>>, Global>>
    ensures { IfSome result (λ n. n.value.items ≡ []) }
{
    match Arc::new(alloc, Vec::new(alloc)) {
        Ok(names) => Some(names),
        Err(_) => None,
    }
}

// A job without names.
fn job<'t, C: Naming>(
    encoder: Encoder<'t, C>,
    lines: &'t [EncLine],
    names: Arc<Vec<Option<Handle>>, Global>,
) -> Job<'t, C>
    requires names { names.value.items ≡ [] }
    requires few { length lines.now ≤ 100 }
    requires frame { encoder.recorder.frame ≡ encoder.seat.frame }
    requires admits { (e f d : ℕ) (items : List SeenItem) → C.admits e f items d }
{
    Job::new(encoder, lines, names)
}

// A job without names, of an encoder of frame 0 with that number.
fn begun_job<'t, C: Naming>(
    alloc: Global,
    shared: &'t Shared<C>,
    api: &mut ApiSeat,
    number: u8,
    lines: &'t [EncLine],
) -> Option<Job<'t, C>>
    requires table { api_table api.old ≡ C.table }
    requires frame { (api_view api.old).frame ≡ 0 }
    requires number { (number < 8) × (count_of number (api_view api.old).off ≡ 0) }
    requires room { length (api_view api.old).off + (api_view api.old).joined < 8 }
    requires few { length lines.now ≤ 100 }
    requires views { C.views ≡ fewest_views }
    requires admits { (e f d : ℕ) (items : List SeenItem) → C.admits e f items d }
    ensures table { api_table api.new ≡ C.table }
    ensures api { api_view api.new ≡ lent number (api_view api.old) }
{
    let encoder = begun(alloc, shared, api, number)?;
    let names = no_names(alloc)?;
    Some(job(encoder, lines, names))
}

// Jobs of encoders 0 and 1.
fn two_jobs<'t, C: Naming>(
    alloc: Global,
    shared: &'t Shared<C>,
    mut api: ApiSeat,
    lines: &'t [EncLine],
) -> Option<(Job<'t, C>, Job<'t, C>)>
    requires table { (api_table api ≡ C.table) × (api_view api ≡ first_view 0) }
    requires few { length lines.now ≤ 100 }
    requires views { C.views ≡ fewest_views }
    requires admits { (e f d : ℕ) (items : List SeenItem) → C.admits e f items d }
{
    let one = begun_job(alloc, shared, &mut api, 0, lines)?;
    let other = begun_job(alloc, shared, &mut api, 1, lines)?;
    Some((one, other))
}

// An encoder's number, the numbers of its items behind each other as digits, and how many lines it dropped.
type Sums = (u8, u64, u32);

fn sums(recording: &Recording) -> Sums {
    let mut numbers = 0u64;
    for item in recording.items.as_slice() {
        if let Item::Touch(touch) = item {
            numbers = numbers.wrapping_mul(10).wrapping_add(touch.number);
        }
    }
    (recording.encoder, numbers, recording.dropped)
}

fn collected<C: Naming, R: Wait>(rt: &R, shared: &Shared<C>) -> (Sums, Sums) {
    let (first, _) = shared.collect(rt).part();
    let (second, _) = shared.collect(rt).part();
    (sums(&first), sums(&second))
}

// ---- by the desk

// Adds 1 to a hexadecimal digit for each encoder and item that it is called with.
#[derive(Drop)]
struct Notes {
    calls: AtomicU32,
}

impl Gate for Notes {
    fn at(&self, who: u8, item: u32) {
        let digit = u32::from(who).wrapping_mul(3).wrapping_add(item);
        let _ = self
            .calls
            .fetch_add(1u32.wrapping_shl(digit.wrapping_mul(4)), Ordering::SeqCst);
    }
}

// A recorder and this thread record both jobs.
fn recorded<'t, C, R, G>(
    rt: &R,
    gate: &G,
    desk: Arc<Desk<'t, C>, Global>,
    jobs: (Job<'t, C>, Job<'t, C>),
)
where
    C: Naming + Send + Sync,
    R: Threads + Wait + Sync,
    G: Gate + Sync,
{
    thread::scope(thread::scope_env(), rt, |scope| {
        let desk = desk;
        start_all(scope, rt, gate, &desk, 1);
        let (a, b) = jobs;
        desk.put(rt, a);
        desk.put(rt, b);
        help(rt, gate, &desk);
        desk.stop();
    });
}

fn new_desk<'t, C: Naming>(alloc: Global) -> Option<Arc<Desk<'t, C>, Global>> {
    let Ok(desk) = Desk::new(alloc) else {
        return None;
    };
    match Arc::new(alloc, desk) {
        Ok(desk) => Some(desk),
        Err(_) => None,
    }
}

fn by_desk<'t, C, R, G>(
    rt: &R,
    alloc: Global,
    gate: &G,
    shared: &'t Shared<C>,
    api: ApiSeat,
    lines: &'t [EncLine],
) -> Option<(Sums, Sums)>
where
    C: Naming + Send + Sync,
    R: Threads + Wait + Sync,
    G: Gate + Sync,
    requires table { (api_table api ≡ C.table) × (api_view api ≡ first_view 0) }
    requires few { length lines.now ≤ 100 }
    requires views { C.views ≡ fewest_views }
    requires admits { (e f d : ℕ) (items : List SeenItem) → C.admits e f items d }
{
    let desk = new_desk(alloc)?;
    let jobs = two_jobs(alloc, shared, api, lines)?;
    recorded(rt, gate, desk, jobs);
    Some(collected(rt, shared))
}

// ---- by steps

fn by_steps<'t, C: Naming>(
    alloc: Global,
    shared: &'t Shared<C>,
    api: ApiSeat,
    lines: &'t [EncLine],
) -> Option<([bool; 5], Sums, Sums)>
    requires table { (api_table api ≡ C.table) × (api_view api ≡ first_view 0) }
    requires few { length lines.now ≤ 100 }
    requires views { C.views ≡ fewest_views }
    requires admits { (e f d : ℕ) (items : List SeenItem) → C.admits e f items d }
{
    let (a, b) = two_jobs(alloc, shared, api, lines)?;
    let mut a = a.into_steps();
    let mut b = b.into_steps();
    let found = [
        a.next_item(),
        b.next_item(),
        a.next_item(),
        b.next_item(),
        a.next_item(),
    ];
    Some((
        found,
        sums(a.finish().recording()),
        sums(b.finish().recording()),
    ))
}

// ---- either way

// Whether each step by turns found an item, none where no steps are made, and what was recorded.
type Told = ([bool; 5], Sums, Sums);

fn played<C: Naming + Send + Sync, R: Threads + Wait + Sync, G: Gate + Sync>(
    rt: &R,
    alloc: Global,
    gate: &G,
    table: HoldTable,
    api: ApiSeat,
    is_stepped: bool,
) -> Option<Told>
    requires table { (table_of table ≡ C.table) × (api_table api ≡ C.table) × (api_view api ≡ first_view 0) }
    requires views { C.views ≡ fewest_views }
    requires admits { (e f d : ℕ) (items : List SeenItem) → C.admits e f items d }
{
    let lines = touches();
    let Ok(shared) = Shared::<C>::new(alloc, table) else {
        return None;
    };
    if is_stepped {
        return by_steps(alloc, &shared, api, &lines);
    }
    let (one, other) = by_desk(rt, alloc, gate, &shared, api, &lines)?;
    Some(([false; 5], one, other))
}

// The same on a table of its own.
fn told<R: Threads + Wait + Sync, G: Gate + Sync>(
    rt: &R,
    alloc: Global,
    gate: &G,
    is_stepped: bool,
) -> Option<Told> {
    match HoldTable::new(alloc, 0) {
        Ok((table, api)) => played::<Brand, R, G>(rt, alloc, gate, table, api, is_stepped),
        Err(_) => None,
    }
}

// Each item line of both jobs comes to the gate once where the desk has them; by steps, items are numbered in the order of steps.
#[test]
fn no_job_is_lost(rt: HostRuntime) -> Result<(), Fail> {
    let gate = Notes {
        calls: AtomicU32::new(0),
    };
    let (_, a, b) = told(&rt, rt.alloc(), &gate, false).ok_or("memory")?;
    assert_eq!(rt; (a.0 ^ b.0, a.2, b.2), (1, 1, 1));
    assert_eq!(rt; gate.calls.load(Ordering::SeqCst), 0x111111);
    let (found, a, b) = told(&rt, rt.alloc(), &gate, true).ok_or("memory")?;
    assert_eq!(rt; found, [true, true, true, true, false]);
    assert_eq!(rt; (a, b), ((0, 2, 1), (1, 13, 1)));
    Ok(())
}
