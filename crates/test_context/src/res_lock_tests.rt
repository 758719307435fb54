// What no clause says at once: that each call is accepted once, that the journal is the order drawn also where an encoder is gathered, and a
// context that is ended.
ghost use Rattle.std.specs.Prelude.{◌≡◌, ◌<◌, ◌≤◌, ◌∷◌, ℕ, List, [], IfSome};
ghost use Rattle.gfx_model.specs.Resources.{opening};
ghost use Rattle.gfx_model.specs.FrameCalls.{opened};
ghost use Rattle.gfx_model.specs.Views.{fewest_views};
ghost use Rattle.gfx_context.specs.States.{no_book};
ghost use Rattle.gfx_model.specs.World.{Item as SeenItem};
ghost use Rattle.hold_table.specs.Seats.{table_of as hold_of, api_table, api_view};
ghost use Rattle.hold_table.specs.Views.{first_view as first_seat};
ghost use Rattle.frame_record.specs.Links.{frames_of};
ghost use Rattle.res_lock.specs.Seats.{table_of, pass_table, pass_view, made_by, IsFirst, HasAll};
ghost use Rattle.res_lock.specs.Views.{first_view};
ghost use Rattle.res_lock.specs.Called.{IsSamePass};

use crate::gfx_context_tests::{ListLink, list_link};
use draw_encoder::Encoder;
use fix_math::{Affine, Rect};
use frame_record::{FrameLink, Outcome};
use gfx_context::{Context, FrameReport, Naming, Shared, Start};
use gfx_words::{
    Format, Handle, JournalEntry, ProgramKind, Refusal, Room, TexSource, UniformKind, ViewMode,
};
use hold_table::{ApiSeat, HoldTable};
use res_lock::*;
use std::alloc::Global;
use std::marker::Brand;
use std::sync::Wait;
use std::thread::Threads;
use vertex_layout::{Attr, AttrType, LayoutBuilder, VertexLayout};

const TEXEL: Rect = Rect {
    x: 0,
    y: 0,
    w: 1,
    h: 1,
};

const ROOM: Room = Room {
    items: 2,
    bytes: 0,
    uniforms: 0,
};

fn locked<'t, C: Naming, L: FrameLink + Drop, H: HistoryNaming>(
    alloc: Global,
    shared: &'t Shared<C>,
    seat: ApiSeat,
    table: HistoryTable,
    link: L,
) -> Option<ResLock<'t, C, L, H>>
    requires seat { (api_table seat ≡ C.table) × (api_view seat ≡ first_seat 0) }
    requires views { C.views ≡ fewest_views }
    requires table { table_of table ≡ H.table }
    requires start { H.start ≡ opened (opening 256 1 0 1) }
    requires book { H.book ≡ record no_book { resources = opening 256 1 0 1 } }
    requires link { (L.latency link ≡ 1) × (L.given link ≡ frames_of (L.back link)) }
    requires given { L.given link ≡ H.given }
{
    let start = Start {
        frame: 0,
        serial: 1,
        views: 256,
        latency: 1,
    };
    let Ok(context) = Context::init(alloc, shared, seat, link, start) else {
        return None;
    };
    match ResLock::new(alloc, table, context) {
        Ok(lock) => Some(lock),
        Err(_) => None,
    }
}

// The refusal of a call.
fn refusal_of<T: Drop>(answer: Result<T, LockRefusal>) -> Option<LockRefusal> {
    match answer {
        Ok(_made) => None,
        Err(refusal) => Some(refusal),
    }
}

// A pass has room for a call more.
fn few(pass: &ResPass) -> Option<()>
    ensures { IfSome result (λ _. made_by pass.now < 4294967295) }
{
    if pass.made() < 1000 { Some(()) } else { None }
}

// ---- each call once

// A layout and buffers.
fn makes_buffers<C: Naming, H: HistoryNaming, R: Wait>(
    rt: &R,
    lock: &ResLock<'_, C, ListLink<'_, R>, H>,
    pass: &mut ResPass,
    layout: VertexLayout,
) -> Option<Handle>
    requires { pass_table pass.old ≡ H.table }
    ensures { IfSome result (λ _. IsSamePass pass.old pass.new) }
{
    few(pass)?;
    let Ok(layout) = lock.create_layout(rt, pass, layout) else {
        return None;
    };
    few(pass)?;
    let Ok(vertices) = lock.create_vertex_buffer(rt, pass, layout, &[0; 24]) else {
        return None;
    };
    few(pass)?;
    let Ok(_) = lock.create_index_buffer(rt, pass, &[0; 6]) else {
        return None;
    };
    Some(vertices)
}

// A texture and a frame buffer that holds it.
fn makes_target<C: Naming, H: HistoryNaming, R: Wait>(
    rt: &R,
    lock: &ResLock<'_, C, ListLink<'_, R>, H>,
    pass: &mut ResPass,
) -> Option<(Handle, Handle)>
    requires { pass_table pass.old ≡ H.table }
    ensures { IfSome result (λ _. IsSamePass pass.old pass.new) }
{
    few(pass)?;
    let fill = TexSource::Fill([0; 4]);
    let Ok(texture) = lock.create_texture(rt, pass, 1, 1, Format::Rgba8, false, fill) else {
        return None;
    };
    few(pass)?;
    let Ok(target) = lock.create_frame_buffer(rt, pass, texture, None) else {
        return None;
    };
    Some((texture, target))
}

// A program, which dies, and a uniform.
fn makes_program<C: Naming, H: HistoryNaming, R: Wait>(
    rt: &R,
    lock: &ResLock<'_, C, ListLink<'_, R>, H>,
    pass: &mut ResPass,
) -> Option<()>
    requires { pass_table pass.old ≡ H.table }
    ensures { IfSome result (λ _. IsSamePass pass.old pass.new) }
{
    few(pass)?;
    let Ok(program) = lock.create_program(rt, pass, ProgramKind::Solid) else {
        return None;
    };
    few(pass)?;
    let Ok(_) = lock.create_uniform(rt, pass, b"u", UniformKind::Vec4) else {
        return None;
    };
    few(pass)?;
    let Ok(_) = lock.destroy(rt, pass, program) else {
        return None;
    };
    Some(())
}

// Both updates.
fn updates<C: Naming, H: HistoryNaming, R: Wait>(
    rt: &R,
    lock: &ResLock<'_, C, ListLink<'_, R>, H>,
    pass: &mut ResPass,
    vertices: Handle,
    texture: Handle,
) -> Option<()>
    requires { pass_table pass.old ≡ H.table }
    ensures { IfSome result (λ _. IsSamePass pass.old pass.new) }
{
    few(pass)?;
    let Ok(_) = lock.update_buffer(rt, pass, vertices, 4, &[1; 4]) else {
        return None;
    };
    few(pass)?;
    let Ok(_) = lock.update_texture(rt, pass, texture, TEXEL, &[1; 4]) else {
        return None;
    };
    Some(())
}

// Where a view draws, and what it clears.
fn sets_view<C: Naming, H: HistoryNaming, R: Wait>(
    rt: &R,
    lock: &ResLock<'_, C, ListLink<'_, R>, H>,
    pass: &mut ResPass,
    target: Handle,
) -> Option<()>
    requires { pass_table pass.old ≡ H.table }
    ensures { IfSome result (λ _. IsSamePass pass.old pass.new) }
{
    few(pass)?;
    let Ok(_) = lock.set_view_rect(rt, pass, 0, TEXEL) else {
        return None;
    };
    few(pass)?;
    let Ok(_) = lock.set_view_scissor(rt, pass, 0, TEXEL) else {
        return None;
    };
    few(pass)?;
    let Ok(_) = lock.set_view_target(rt, pass, 0, Some(target)) else {
        return None;
    };
    few(pass)?;
    let Ok(_) = lock.set_view_clear(rt, pass, 0, 1, [0; 4], 0, 0) else {
        return None;
    };
    Some(())
}

// How views are ordered and moved, and a view as at first.
fn orders_views<C: Naming, H: HistoryNaming, R: Wait>(
    rt: &R,
    lock: &ResLock<'_, C, ListLink<'_, R>, H>,
    pass: &mut ResPass,
) -> Option<()>
    requires { pass_table pass.old ≡ H.table }
    ensures { IfSome result (λ _. IsSamePass pass.old pass.new) }
{
    few(pass)?;
    let Ok(_) = lock.set_view_mode(rt, pass, 0, ViewMode::Sequential) else {
        return None;
    };
    few(pass)?;
    let Ok(_) = lock.set_view_transform(rt, pass, 0, Affine::identity()) else {
        return None;
    };
    few(pass)?;
    let Ok(_) = lock.set_view_order(rt, pass, &[2, 1]) else {
        return None;
    };
    few(pass)?;
    let Ok(_) = lock.reset_view(rt, pass, 0) else {
        return None;
    };
    Some(())
}

// Two encoders touch view 0: the first one, the second one and the first one again. Whether all touches are accepted.
fn by_turns<C: Naming>(first: &mut Encoder<'_, C>, second: &mut Encoder<'_, C>) -> bool {
    let touched = [first.touch(0), second.touch(0), first.touch(0)];
    touched[0].is_ok() && touched[1].is_ok() && touched[2].is_ok()
}

// The next encoder of a frame.
fn next<'t, C: Naming, H: HistoryNaming, R: Wait>(
    rt: &R,
    lock: &ResLock<'t, C, ListLink<'_, R>, H>,
    pass: &mut ResPass,
) -> Option<Encoder<'t, C>>
    requires { pass_table pass.old ≡ H.table }
    ensures { IfSome result (λ _. IsSamePass pass.old pass.new) }
{
    few(pass)?;
    match lock.begin(rt, pass, ROOM) {
        Ok(encoder) => Some(encoder),
        Err(_) => None,
    }
}

// The second one ends first, and the first one is gathered: whether all touches were accepted.
fn both<C: Naming, H: HistoryNaming, R: Wait>(
    rt: &R,
    lock: &ResLock<'_, C, ListLink<'_, R>, H>,
    pass: &mut ResPass,
) -> Option<bool>
    requires table { pass_table pass.old ≡ H.table }
    requires admits { (e f d : ℕ) (items : List SeenItem) → C.admits e f items d }
    ensures { IfSome result (λ _. IsSamePass pass.old pass.new) }
{
    let mut first = next(rt, lock, pass)?;
    let mut second = next(rt, lock, pass)?;
    let all = by_turns(&mut first, &mut second);
    second.end(rt, 0);
    lock.gather(rt, first.finish(0));
    Some(all)
}

fn entries_of(report: &FrameReport) -> Journal {
    let journal = report.journal.as_slice();
    [
        journal.first().copied(),
        journal.get(1).copied(),
        journal.get(2).copied(),
    ]
}

// The journal of their frame.
fn frames<C: Naming, H: HistoryNaming, R: Threads + Wait + Sync>(
    rt: &R,
    lock: &ResLock<'_, C, ListLink<'_, R>, H>,
    pass: &mut ResPass,
) -> Option<Journal>
    requires table { pass_table pass.old ≡ H.table }
    requires admits { (e f d : ℕ) (items : List SeenItem) → C.admits e f items d }
    ensures { IfSome result (λ _. IsSamePass pass.old pass.new) }
{
    if !both(rt, lock, pass)? {
        return None;
    }
    few(pass)?;
    match lock.frame(rt, pass) {
        Ok(report) => Some(entries_of(&report)),
        Err(_) => None,
    }
}

// Each call of the lock once, but for `begin`, which comes twice.
fn calls_each<C: Naming, H: HistoryNaming, R: Threads + Wait + Sync>(
    rt: &R,
    lock: &ResLock<'_, C, ListLink<'_, R>, H>,
    pass: &mut ResPass,
    layout: VertexLayout,
) -> Option<Journal>
    requires table { pass_table pass.old ≡ H.table }
    requires admits { (e f d : ℕ) (items : List SeenItem) → C.admits e f items d }
    ensures { IfSome result (λ _. IsSamePass pass.old pass.new) }
{
    let vertices = makes_buffers(rt, lock, pass, layout)?;
    let (texture, target) = makes_target(rt, lock, pass)?;
    makes_program(rt, lock, pass)?;
    updates(rt, lock, pass, vertices, texture)?;
    sets_view(rt, lock, pass, target)?;
    orders_views(rt, lock, pass)?;
    frames(rt, lock, pass)
}

// A layout with a position.
fn position() -> Option<VertexLayout> {
    let mut builder = LayoutBuilder::new();
    builder.add(Attr::Position, AttrType::I16, 3);
    match builder.end() {
        Ok(layout) => Some(layout),
        Err(_) => None,
    }
}

// ---- a context that is ended

// A program is destroyed twice. The second answer.
fn destroyed_again<C: Naming, H: HistoryNaming, R: Wait>(
    rt: &R,
    lock: &ResLock<'_, C, ListLink<'_, R>, H>,
    pass: &mut ResPass,
) -> Option<Option<LockRefusal>>
    requires { pass_table pass.old ≡ H.table }
    ensures { IfSome result (λ _. IsSamePass pass.old pass.new) }
{
    few(pass)?;
    let Ok(program) = lock.create_program(rt, pass, ProgramKind::Solid) else {
        return None;
    };
    few(pass)?;
    let Ok(_) = lock.destroy(rt, pass, program) else {
        return None;
    };
    few(pass)?;
    let again = refusal_of(lock.destroy(rt, pass, program));
    Some(again)
}

// Two frames: whether each was given.
fn two_frames<C: Naming, H: HistoryNaming, R: Threads + Wait + Sync>(
    rt: &R,
    lock: &ResLock<'_, C, ListLink<'_, R>, H>,
    pass: &mut ResPass,
) -> Option<[bool; 2]>
    requires { pass_table pass.old ≡ H.table }
    ensures { IfSome result (λ _. IsSamePass pass.old pass.new) }
{
    few(pass)?;
    let Ok(one) = lock.frame(rt, pass) else {
        return None;
    };
    few(pass)?;
    let Ok(two) = lock.frame(rt, pass) else {
        return None;
    };
    Some([one.given, two.given])
}

// A create, a begin and a frame: their refusals.
fn three_refused<C: Naming, H: HistoryNaming, R: Threads + Wait + Sync>(
    rt: &R,
    lock: &ResLock<'_, C, ListLink<'_, R>, H>,
    pass: &mut ResPass,
) -> Option<[Option<LockRefusal>; 3]>
    requires { pass_table pass.old ≡ H.table }
    ensures { IfSome result (λ _. IsSamePass pass.old pass.new) }
{
    few(pass)?;
    let create = refusal_of(lock.create_program(rt, pass, ProgramKind::Solid));
    few(pass)?;
    let begin = refusal_of(lock.begin(rt, pass, ROOM));
    few(pass)?;
    let frame = refusal_of(lock.frame(rt, pass));
    Some([create, begin, frame])
}

// Of a lock whose context a fault of the second frame ends: whether a second destroy is refused as stale, whether two frames were given, and
// whether a create, a begin and a frame behind them are told of the end.
fn refused_behind<C: Naming, H: HistoryNaming, R: Threads + Wait + Sync>(
    rt: &R,
    lock: &ResLock<'_, C, ListLink<'_, R>, H>,
    pass: &mut ResPass,
) -> Option<[bool; 4]>
    requires { pass_table pass.old ≡ H.table }
    ensures { IfSome result (λ _. IsSamePass pass.old pass.new) }
{
    let again = destroyed_again(rt, lock, pass)?;
    let [one, two] = two_frames(rt, lock, pass)?;
    let refused = three_refused(rt, lock, pass)?;
    let stale = matches!(again, Some(LockRefusal::Refused(Refusal::Stale { .. })));
    Some([stale, one, two, are_of_the_end(&refused)])
}

// Each is the refusal of a context that ended in frame 1.
fn are_of_the_end(refused: &[Option<LockRefusal>]) -> bool {
    for refusal in refused {
        if !matches!(refusal, Some(LockRefusal::Ended { frame: 1 })) {
            return false;
        }
    }
    true
}

// ---- what is told by a lock of its own

// The cases: each call once; and a context that a fault ends.
#[derive(Clone, Copy, Drop)]
enum Case {
    Each,
    Fault,
}

// The first three entries of a frame's journal.
type Journal = [Option<JournalEntry>; 3];

// What is told: whether the calls behind a fault answer as they should; the journal of the frame; and of the history how many entries there
// are, how many of accepted calls, and how many of calls on a context that ended in frame 1; and whether entry 3 is of frame 0, and entry 4
// of the fault in frame 1.
type Told = ([bool; 4], Journal, [usize; 3], [bool; 2]);

fn is_accepted(entry: &Entry) -> bool {
    matches!(
        entry.reply,
        ResReply::Made { .. } | ResReply::Unit | ResReply::Frame { .. } | ResReply::Begun { .. }
    )
}

fn counted(history: &[Entry]) -> [usize; 3] {
    let mut accepted = 0usize;
    let mut ended = 0usize;
    for entry in history {
        if is_accepted(entry) {
            accepted = accepted.wrapping_add(1);
        }
        if matches!(entry.reply, ResReply::Ended { frame: 1 }) {
            ended = ended.wrapping_add(1);
        }
    }
    [history.len(), accepted, ended]
}

fn faulted(history: &[Entry]) -> [bool; 2] {
    let (Some(shown), Some(ending)) = (history.get(3), history.get(4)) else {
        return [false; 2];
    };
    let outcome = matches!(
        ending.reply,
        ResReply::Ending {
            frame: 1,
            outcome: Outcome::PictureFault
        }
    );
    [
        matches!(shown.reply, ResReply::Frame { number: 0 }),
        outcome,
    ]
}

// What the calls of a case answered.
type Answered = ([bool; 4], Journal);

fn answered<C: Naming, H: HistoryNaming, R: Threads + Wait + Sync>(
    rt: &R,
    lock: &ResLock<'_, C, ListLink<'_, R>, H>,
    pass: &mut ResPass,
    case: Case,
) -> Option<Answered>
    requires table { pass_table pass.old ≡ H.table }
    requires admits { (e f d : ℕ) (items : List SeenItem) → C.admits e f items d }
    ensures { IfSome result (λ _. IsSamePass pass.old pass.new) }
{
    match case {
        Case::Each => Some(([false; 4], calls_each(rt, lock, pass, position()?)?)),
        Case::Fault => Some((refused_behind(rt, lock, pass)?, [None; 3])),
    }
}

fn outcome_of(case: Case) -> Outcome {
    match case {
        Case::Each => Outcome::Shown,
        Case::Fault => Outcome::PictureFault,
    }
}

fn in_shared<C: Naming, H: HistoryNaming, R: Threads + Wait + Sync>(
    rt: &R,
    alloc: Global,
    shared: &Shared<C>,
    seat: ApiSeat,
    table: HistoryTable,
    mut pass: ResPass,
    case: Case,
) -> Option<Told>
    requires seat { (api_table seat ≡ C.table) × (api_view seat ≡ first_seat 0) }
    requires views { C.views ≡ fewest_views }
    requires admits { (e f d : ℕ) (items : List SeenItem) → C.admits e f items d }
    requires table { (table_of table ≡ H.table) × (pass_table pass ≡ H.table) × (pass_view pass ≡ first_view) }
    requires start { H.start ≡ opened (opening 256 1 0 1) }
    requires book { H.book ≡ record no_book { resources = opening 256 1 0 1 } }
    requires given { H.given ≡ [] }
{
    let link = list_link(rt, alloc, outcome_of(case));
    let lock = locked::<C, ListLink<'_, R>, H>(alloc, shared, seat, table, link)?;
    let (answers, journal) = answered(rt, &lock, &mut pass, case)?;
    let (_, history) = lock.close(pass);
    Some((answers, journal, counted(&history), faulted(&history)))
}

fn by_case<C: Naming, H: HistoryNaming, R: Threads + Wait + Sync>(
    rt: &R,
    alloc: Global,
    hold: HoldTable,
    seat: ApiSeat,
    table: HistoryTable,
    pass: ResPass,
    case: Case,
) -> Option<Told>
    requires hold { (hold_of hold ≡ C.table) × (api_table seat ≡ C.table) × (api_view seat ≡ first_seat 0) }
    requires views { C.views ≡ fewest_views }
    requires admits { (e f d : ℕ) (items : List SeenItem) → C.admits e f items d }
    requires table { (table_of table ≡ H.table) × (pass_table pass ≡ H.table) × (pass_view pass ≡ first_view) }
    requires start { H.start ≡ opened (opening 256 1 0 1) }
    requires book { H.book ≡ record no_book { resources = opening 256 1 0 1 } }
    requires given { H.given ≡ [] }
{
    match Shared::<C>::new(alloc, hold) {
        Ok(shared) => in_shared::<C, H, R>(rt, alloc, &shared, seat, table, pass, case),
        Err(_) => None,
    }
}

// What is told of a case.
fn told<R: Threads + Wait + Sync>(rt: &R, alloc: Global, case: Case) -> Option<Told> {
    let Ok((table, pass)) = HistoryTable::new(alloc) else {
        return None;
    };
    match HoldTable::new(alloc, 0) {
        Ok((hold, seat)) => by_case::<Brand, Brand, R>(rt, alloc, hold, seat, table, pass, case),
        Err(_) => None,
    }
}

fn entry(encoder: u8, ordinal: u32) -> Option<JournalEntry> {
    Some(JournalEntry { encoder, ordinal })
}

// All 20 calls are accepted, and `begin` a second time. Of the eight entries where a fault ends the context the fourth is of frame 0, the fifth
// of the fault, and the last three are told of it.
#[test]
fn each_call_is_accepted_until_a_fault(rt: HostRuntime) {
    let each = told(&rt, rt.alloc(), Case::Each).expect(&rt, "refused");
    let (answers, _, counted, faulted) = told(&rt, rt.alloc(), Case::Fault).expect(&rt, "refused");
    assert_eq!(rt; each.1, [entry(0, 0), entry(1, 0), entry(0, 1)]);
    assert_eq!(rt; each.2, [21, 21, 0]);
    assert_eq!(rt; answers, [true, true, false, true]);
    assert_eq!(rt; (counted[0], counted[2], faulted), (8, 3, [true; 2]));
}
