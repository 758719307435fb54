// The loop over frames, as an engine has it.
ghost use Rattle.std.specs.Prelude.{◌≡◌, ◌+◌, ◌%◌, ◌==◌, ◌&&◌, ◌≤◌, ℕ, List, [], false, OnOk, IfOk, MatchResult};
ghost use Rattle.gfx.specs.Definitions.{fewest_views};
ghost use Rattle.gfx.specs.Calls.{table_of, api_table, api_view, first_view};
ghost use Rattle.gfx.specs.Pictures.{first_outcome};
ghost use Rattle.ring_turning.specs.Ring.{IsNewEncoder, IsReady, TakesParts, TakesPartsOnly};
ghost use Rattle.ring_turning.specs.Frames.{AreFirst};
ghost use Rattle.ring_turning.specs.Turning.{HasBegun, IsAt, HasTurned, AreOfTurn, HaveTurned, first_after};

use crate::recording::{ROOM, record};
use crate::ring::TRIANGLES;
use crate::things::{Things, make};
use gfx::{
    ApiSeat, BackNote, Context, Encoder, FEWEST_VIEWS, FrameLink, FrameReport, HoldTable, Naming,
    Outcome, Refusal, Shared, Start,
};
use std::alloc::Global;
use std::marker::Brand;
use std::sync::Wait;
use std::thread;
use std::thread::Threads;

/// What the frames of a turn leave, when all that were given came back.
#[derive(Drop)]
pub(crate) struct Turned<L: Drop> {
    /// The link, at which no frame is out.
    pub(crate) link: L,
    /// The outcome of the first frame that was not shown; `Shown` where each that was given was.
    pub(crate) outcome: Outcome,
    /// Whether all frames were given, with all their draws.
    pub(crate) is_whole: bool,
}

/// What is known of the frames so far.
#[derive(Clone, Copy, Drop)]
struct Told {
    /// The outcome of the first frame that came back and was not shown.
    outcome: Outcome,
    /// Whether each frame was given, with all its draws.
    is_whole: bool,
}

impl Told {
    /// The turn stopped before its end.
    fn stopped(outcome: Outcome) -> Told
        ensures { result ≡ record { outcome = outcome; is_whole = false } }
    {
        Told {
            outcome,
            is_whole: false,
        }
    }
}

/// Begins the next encoder.
fn begin<'t, C: Naming, L: FrameLink + Drop>(
    context: &mut Context<'t, C, L>,
) -> Result<Encoder<'t, C>, Refusal>
    requires running { context.old.is_ended ≡ false }
    ensures new { IfOk result (λ e. IsNewEncoder context.old.begun e) }
    ensures frame { IfOk result (λ e. e.seat.frame ≡ context.old.seat.frame) }
    ensures more { OnOk result (context.new.begun ≡ context.old.begun + 1) }
    ensures begun { HasBegun context.old context.new }
{
    context.begin(ROOM)
}

/// Records the ring with two encoders at once, each on a thread, and ends them.
fn record_both<C: Naming + Send + Sync, R: Threads + Wait + Sync>(
    rt: &R,
    left: Encoder<'_, C>,
    right: Encoder<'_, C>,
    things: &Things,
    steps: u8,
)
    requires admits { TakesParts C.admits }
    requires left { IsReady 0 steps left }
    requires right { IsReady 1 steps right }
{
    thread::join(
        rt,
        || -> ()
            requires admits { TakesParts C.admits }
            requires left { IsReady 0 steps left }
        { record(rt, left, things, steps, 0) },
        || -> ()
            requires admits { TakesParts C.admits }
            requires right { IsReady 1 steps right }
        { record(rt, right, things, steps, 1) },
    );
}

/// Begins two encoders and records the ring with both at once. Whatever is answered, each encoder that was begun was ended: `frame` and
/// `shutdown` wait for it.
fn record_ring<C: Naming + Send + Sync, L: FrameLink + Drop, R: Threads + Wait + Sync>(
    rt: &R,
    context: &mut Context<'_, C, L>,
    things: &Things,
    steps: u8,
) -> Result<(), Refusal>
    requires admits { TakesParts C.admits }
    requires steps { (steps ≤ 15) × (steps ≡ context.old.seat.frame % 16) }
    requires running { context.old.is_ended ≡ false }
    requires none_begun { context.old.begun ≡ 0 }
    ensures both { OnOk result (context.new.begun ≡ 2) }
    ensures begun { HasBegun context.old context.new }
{
    let left = begin(context)?;
    let right = match begin(context) {
        Ok(right) => right,
        Err(refusal) => {
            left.end(rt, 1);
            return Err(refusal);
        }
    };
    record_both(rt, left, right, things, steps);
    Ok(())
}

/// Whether a turn goes on after a frame: it was given, and none of its draws was refused.
fn goes_on(report: &FrameReport) -> bool
    ensures { result ≡ (report.now.given && (report.now.dropped == 0)) }
{
    report.given && report.dropped == 0
}

/// Records a frame and ends it. Answers which frame came back, and whether the turn goes on.
fn turn_frame<C: Naming + Send + Sync, L: FrameLink + Drop, R: Threads + Wait + Sync>(
    rt: &R,
    context: &mut Context<'_, C, L>,
    things: &Things,
    steps: u8,
) -> Result<(Option<BackNote>, bool), Refusal>
    requires admits { TakesParts C.admits }
    requires admitted { TakesPartsOnly C.admits }
    requires steps { (steps ≤ 15) × (steps ≡ context.old.seat.frame % 16) }
    requires at { IsAt context.old.seat.frame context.old }
    ensures turned { MatchResult result
        (λ r. HasTurned r.0 r.1 context.old.seat.frame context.old context.new)
        (λ _. AreFirst context.old.seat.frame context.new.given × (context.new.back ≡ context.old.back)) }
    ensures origin { L.origin context.new.link ≡ L.origin context.old.link }
{
    context.tell_facts();
    record_ring(rt, context, things, steps)?;
    let report = context.frame(rt)?;
    Ok((report.back, goes_on(&report)))
}

/// The outcome of the first frame that was not shown, when one more came back, or none.
fn later(first: Outcome, note: Option<BackNote>) -> Outcome
    ensures { result ≡ first_after first note }
{
    match (first, note) {
        (Outcome::Shown, Some(note)) => note.outcome,
        _ => first,
    }
}

/// Turns the ring for so many frames, up to one after which it does not go on.
fn turn_frames<C: Naming + Send + Sync, L: FrameLink + Drop, R: Threads + Wait + Sync>(
    rt: &R,
    context: &mut Context<'_, C, L>,
    things: &Things,
    frames: u16,
) -> Told
    requires admits { TakesParts C.admits }
    requires admitted { TakesPartsOnly C.admits }
    requires at { IsAt 0 context.old }
    requires none_back { context.old.back ≡ [] }
    ensures given { AreOfTurn frames context.new.given result.is_whole }
    ensures outcome { result.outcome ≡ first_outcome context.new.back }
    ensures origin { L.origin context.new.link ≡ L.origin context.old.link }
{
    let mut outcome = Outcome::Shown;
    for number in 0..frames {
        let steps = (number % TRIANGLES as u16) as u8;
        let Ok((back, goes_on)) = turn_frame(rt, context, things, steps) else {
            return Told::stopped(outcome);
        };
        outcome = later(outcome, back);
        if !goes_on {
            return Told::stopped(outcome);
        }
    }
    Told {
        outcome,
        is_whole: true,
    }
}

/// Makes the things and turns the ring with a context that is new.
fn play<C: Naming + Send + Sync, L: FrameLink + Drop, R: Threads + Wait + Sync>(
    rt: &R,
    context: &mut Context<'_, C, L>,
    frames: u16,
) -> Told
    requires admits { TakesParts C.admits }
    requires admitted { TakesPartsOnly C.admits }
    requires at { IsAt 0 context.old }
    requires none_back { context.old.back ≡ [] }
    ensures given { AreOfTurn frames context.new.given result.is_whole }
    ensures outcome { result.outcome ≡ first_outcome context.new.back }
    ensures origin { L.origin context.new.link ≡ L.origin context.old.link }
{
    let Ok(things) = make(context) else {
        return Told::stopped(Outcome::Shown);
    };
    turn_frames(rt, context, &things, frames)
}

/// Shuts the context down: takes back what is out.
fn finish<C: Naming, L: FrameLink + Drop, R: Threads + Wait + Sync>(
    rt: &R,
    context: Context<'_, C, L>,
    told: Told,
) -> Turned<L>
    requires outcome { told.outcome ≡ first_outcome context.back }
    ensures turned { (many : ℕ) → AreOfTurn many context.entry.given told.is_whole
        → HaveTurned many (L.given result.link) (L.back result.link) result.outcome result.is_whole }
    ensures origin { L.origin result.link ≡ L.origin context.entry.link }
{
    let Told { outcome, is_whole } = told;
    context.tell_facts();
    let closed = context.shutdown(rt);
    let [first, second, third] = closed.backs;
    let outcome = later(later(later(outcome, first), second), third);
    Turned {
        link: closed.link,
        outcome,
        is_whole,
    }
}

/// Where nothing was given, for want of memory.
fn nothing<L: FrameLink + Drop>(link: L) -> Turned<L>
    requires none { (L.given link ≡ []) × (L.back link ≡ []) }
    ensures turned { (many : ℕ) → HaveTurned many (L.given result.link) (L.back result.link) result.outcome result.is_whole }
    ensures origin { L.origin result.link ≡ L.origin link }
{
    Turned {
        link,
        outcome: Outcome::Shown,
        is_whole: false,
    }
}

/// Turns the ring over a named table.
fn turn_table<C: Naming + Send + Sync, L: FrameLink + Drop, R: Threads + Wait + Sync>(
    rt: &R,
    alloc: Global,
    frames: u16,
    table: HoldTable,
    seat: ApiSeat,
    link: L,
) -> Turned<L>
    requires table { (table_of table ≡ C.table) × (api_table seat ≡ C.table) }
    requires seat { api_view seat ≡ first_view 0 }
    requires admits { TakesParts C.admits }
    requires admitted { TakesPartsOnly C.admits }
    requires views { C.views ≡ fewest_views }
    requires latency { L.latency link ≡ 1 }
    requires none { (L.given link ≡ []) × (L.back link ≡ []) }
    ensures turned { HaveTurned frames (L.given result.link) (L.back result.link) result.outcome result.is_whole }
    ensures origin { L.origin result.link ≡ L.origin link }
{
    let Ok(shared) = Shared::<C>::new(alloc, table) else {
        return nothing(link);
    };
    let start = Start {
        frame: 0,
        serial: 1,
        views: FEWEST_VIEWS,
        latency: 1,
    };
    match Context::init(alloc, &shared, seat, link, start) {
        Ok(context) => {
            let mut context = context;
            let told = play(rt, &mut context, frames);
            finish(rt, context, told)
        }
        Err((_seat, link)) => nothing(link),
    }
}

/// Turns the ring for so many frames, and gives each by the link, at which none is out at the end. Its latency is 1, and nothing was
/// given by it.
pub(crate) fn turn_ring<L: FrameLink + Drop, R: Threads + Wait + Sync>(
    rt: &R,
    alloc: Global,
    frames: u16,
    link: L,
) -> Turned<L>
    requires latency { L.latency link ≡ 1 }
    requires none { (L.given link ≡ []) × (L.back link ≡ []) }
    ensures turned { HaveTurned frames (L.given result.link) (L.back result.link) result.outcome result.is_whole }
    ensures origin { L.origin result.link ≡ L.origin link }
{
    let Ok((table, seat)) = HoldTable::new(alloc, 0) else {
        return nothing(link);
    };
    turn_table::<Brand, L, R>(rt, alloc, frames, table, seat, link)
}
