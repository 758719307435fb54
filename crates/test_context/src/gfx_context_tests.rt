// What no case of worked_cases can say: the limits; who holds a texture; an encoder that is begun again, a program that comes and goes beside it,
// and a frame without a queue; and a thread that records while the context ends.
ghost use Rattle.std.specs.Prelude.{◌≡◌, ◌≤◌, ◌+◌, ◌++◌, ℕ, List, [], map, IfSome};
ghost use Rattle.gfx_model.specs.Views.{fewest_views};
ghost use Rattle.gfx_model.specs.World.{Item as SeenItem};
ghost use Rattle.hold_table.specs.Seats.{table_of, api_table, api_view};
ghost use Rattle.hold_table.specs.Views.{first_view};
ghost use Rattle.frame_record.specs.Links.{frames_of};

use draw_encoder::{Item, Recording};
use frame_record::{Frame, FrameLink, Outcome, RenderedFrame};
use gfx_context::*;
use gfx_words::{Format, Handle, ProgramKind, Refusal};
use hold_table::{ApiSeat, HoldTable};
use resource_book::ResourceCalls;
use std::alloc::Global;
use std::marker::Brand;
use std::snapshot::Snapshot;
use std::sync::Wait;
use std::test::Fail;
use std::thread;
use std::thread::Threads;

// Where most contexts begin.
const START: Start = Start {
    frame: 0,
    serial: 1,
    views: 256,
    latency: 1,
};

const ROOM: Room = Room {
    items: 3,
    bytes: 0,
    uniforms: 0,
};

// The refusal of a call.
fn refusal_of<T: Drop>(answer: Result<T, Refusal>) -> Option<Refusal> {
    match answer {
        Ok(_made) => None,
        Err(refusal) => Some(refusal),
    }
}

// Frames wait in a list, and come back with one outcome, the oldest first.
#[derive(Drop)]
pub(crate) struct ListLink<'r, R> {
    rt: &'r R,
    outcome: Outcome,
    out: Vec<Frame>,
    backs: Vec<Snapshot<RenderedFrame>>,
}

// Where memory is wanting it waits for ever.
fn wait<R: Wait>(rt: &R)
    ensures { ⊥ }
{
    for _ in rt.forever() {}
    unreachable!()
}

impl<'r, R: Wait> FrameLink for ListLink<'r, R> {
    ghost use Rattle.std.specs.Prelude.{map, ◌++◌};
    ghost use Rattle.frame_record.specs.Links.{frames_of};

    ghost given = { λ l. frames_of (map (λ s. s.value) l.backs.items) ++ l.out.items };

    ghost back = { λ l. map (λ s. s.value) l.backs.items };

    ghost latency = { λ l. 1 };

    ghost Origin = { Unit {0} };

    ghost origin = { λ l. tt };

    fn give(&mut self, frame: Frame) {
        if self.out.push(frame).is_err() {
            wait(self.rt);
        }
    }

    fn try_take_back(&mut self) -> Option<RenderedFrame> {
        None
    }

    fn take_back(&mut self) -> RenderedFrame {
        let frame = self.out.remove(0);
        let rendered = RenderedFrame {
            frame,
            outcome: self.outcome,
        };
        if self.backs.push(Snapshot::of(&rendered)).is_err() {
            wait(self.rt);
        }
        rendered
    }
}

// Frames that come back with the outcome.
pub(crate) fn list_link<R>(rt: &R, alloc: Global, outcome: Outcome) -> ListLink<'_, R>
    ensures { (result.out.items ≡ []) × (result.backs.items ≡ []) }
{
    ListLink {
        rt,
        outcome,
        out: Vec::new(alloc),
        backs: Vec::new(alloc),
    }
}

// ---- what is tried of one context

// The cases, each with what is told of it.
#[derive(Clone, Copy, Drop)]
enum Case {
    // the refusals of a second program where one serial is left, of a ninth encoder, and of the last frame's end
    Limits,
    // of a texture that a frame buffer holds, and of one that two hold, of which one has the index of one that died: whether its destroy is
    // refused for the one of least index, and the index and the serial of this one
    Held,
    // what encoders answer to draws by a program: one that is created behind the begin, is then destroyed, and in the next frame is dead; the
    // number of the first encoder, how many were begun, the items and the dropped of its frame, whose bundle goes into no queue, and the digits of
    // what was recorded in each frame
    Gathered,
}

// Refusals and numbers, as the case says; where there are fewer, none and 0.
type Told = ([Option<Refusal>; 3], [u64; 6]);

// What came back at the close of a context.
type Backs = [Option<BackNote>; 3];

const NONE: [Option<Refusal>; 3] = [None; 3];

// The answer to a begin, where the context is not ended.
fn begun_one<'t, C: Naming, R: Wait>(
    context: &mut Context<'t, C, ListLink<'_, R>>,
) -> Option<Result<Encoder<'t, C>, Refusal>> {
    if context.is_ended() {
        return None;
    }
    Some(context.begin(ROOM))
}

// An encoder, where the context gives one.
fn next_encoder<'t, C: Naming, R: Wait>(
    context: &mut Context<'t, C, ListLink<'_, R>>,
) -> Option<Encoder<'t, C>> {
    match begun_one(context) {
        Some(Ok(encoder)) => Some(encoder),
        _ => None,
    }
}

// The end of a frame, where the context is not ended.
fn ended<C: Naming, R: Wait>(
    rt: &R,
    context: &mut Context<'_, C, ListLink<'_, R>>,
) -> Option<Result<FrameReport, Refusal>> {
    if context.is_ended() {
        return None;
    }
    Some(context.frame(rt))
}

// The items and the dropped of a frame that ends.
fn frame_told<C: Naming, R: Wait>(
    rt: &R,
    context: &mut Context<'_, C, ListLink<'_, R>>,
) -> Option<(u64, u64)> {
    match ended(rt, context) {
        Some(Ok(report)) => Some((report.journal.len() as u64, report.dropped)),
        _ => None,
    }
}

// The refusal of a program, by whatever answers the calls.
fn refused<B: ResourceCalls>(calls: &mut B) -> Option<Refusal> {
    refusal_of(calls.create_program(ProgramKind::Solid))
}

// An encoder is begun and ended: whether there is one.
fn begun_and_ended<C: Naming, R: Wait>(
    rt: &R,
    context: &mut Context<'_, C, ListLink<'_, R>>,
) -> bool
    requires admits { (e f d : ℕ) (items : List SeenItem) → C.admits e f items d }
{
    match next_encoder(context) {
        Some(encoder) => {
            encoder.end(rt, 0);
            true
        }
        None => false,
    }
}

fn refusals_at_the_limits<C: Naming, R: Wait>(
    rt: &R,
    context: &mut Context<'_, C, ListLink<'_, R>>,
) -> Option<Told>
    requires admits { (e f d : ℕ) (items : List SeenItem) → C.admits e f items d }
{
    let Ok(_) = context.create_program(ProgramKind::Solid) else {
        return None;
    };
    let serials = refused(context);
    for _ in 0..8u8 {
        if !begun_and_ended(rt, context) {
            return None;
        }
    }
    let ninth = refusal_of(begun_one(context)?);
    let frames = refusal_of(ended(rt, context)?);
    Some(([serials, ninth, frames], [0; 6]))
}

fn texture<C: Naming, R: Wait>(context: &mut Context<'_, C, ListLink<'_, R>>) -> Option<Handle> {
    match context.create_texture(1, 1, Format::Rgba8, false, TexSource::Fill([0; 4])) {
        Ok(texture) => Some(texture),
        Err(_) => None,
    }
}

fn frame_buffer<C: Naming, R: Wait>(
    context: &mut Context<'_, C, ListLink<'_, R>>,
    color: Handle,
) -> Option<Handle> {
    match context.create_frame_buffer(color, None) {
        Ok(target) => Some(target),
        Err(_) => None,
    }
}

// The texture is destroyed: whether it is refused for that holder, and the holder's index and serial.
fn held_by<C: Naming, R: Wait>(
    context: &mut Context<'_, C, ListLink<'_, R>>,
    texture: Handle,
    holder: Handle,
) -> [u64; 3] {
    let (index, serial) = (u64::from(holder.index()), u64::from(holder.serial()));
    let answer = context.destroy(texture);
    let same = u64::from(answer == Err(Refusal::Attached { holder }));
    [same, index, serial]
}

// Of two frame buffers the first dies, and two frames later a third one has its index.
fn third_holder<C: Naming, R: Wait>(
    rt: &R,
    context: &mut Context<'_, C, ListLink<'_, R>>,
    texture: Handle,
    first: Handle,
) -> Option<Handle> {
    frame_buffer(context, texture)?;
    let Ok(_) = context.destroy(first) else {
        return None;
    };
    frame_told(rt, context)?;
    frame_told(rt, context)?;
    frame_buffer(context, texture)
}

fn held<C: Naming, R: Wait>(rt: &R, context: &mut Context<'_, C, ListLink<'_, R>>) -> Option<Told> {
    let texture = texture(context)?;
    let first = frame_buffer(context, texture)?;
    let [same, index, serial] = held_by(context, texture, first);
    let third = third_holder(rt, context, texture, first)?;
    let [same_again, index_again, serial_again] = held_by(context, texture, third);
    Some((
        NONE,
        [same, index, serial, same_again, index_again, serial_again],
    ))
}

// An encoder, begun again where there was no memory.
fn begun_twice<'t, C: Naming, R: Wait>(
    context: &mut Context<'t, C, ListLink<'_, R>>,
) -> Option<Encoder<'t, C>> {
    match begun_one(context)? {
        Ok(encoder) => Some(encoder),
        Err(Refusal::OutOfMemory) => next_encoder(context),
        Err(_) => None,
    }
}

// The items and the dropped of a frame that ends, where the context is not ended and no encoder is off.
fn ended_here<C: Naming, R: Wait>(
    context: &mut Context<'_, C, ListLink<'_, R>>,
) -> Option<(u64, u64)> {
    if context.is_ended() {
        return None;
    }
    if context.off() != 0 {
        return None;
    }
    match context.end() {
        Ok(report) => Some((report.journal.len() as u64, report.dropped)),
        Err(_) => None,
    }
}

// The digits of an encoder's number, its frame, and the numbers of its items.
fn digits(recording: &Recording) -> u64 {
    let mut digits = u64::from(recording.encoder)
        .wrapping_mul(10)
        .wrapping_add(u64::from(recording.frame));
    for item in recording.items.as_slice() {
        let number = match item {
            Item::Draw(draw) => draw.number,
            Item::Touch(touch) => touch.number,
            Item::Blit(blit) => blit.number,
        };
        digits = digits.wrapping_mul(10).wrapping_add(number);
    }
    digits
}

// Those of the encoder that was gathered.
fn recorded<C: Naming, R: Wait>(context: &Context<'_, C, ListLink<'_, R>>) -> Option<u64> {
    let recording = context.gathered().first()?;
    Some(digits(recording))
}

fn program<C: Naming, R: Wait>(context: &mut Context<'_, C, ListLink<'_, R>>) -> Option<Handle> {
    match context.create_program(ProgramKind::Solid) {
        Ok(program) => Some(program),
        Err(_) => None,
    }
}

// Of two programs that are created while it records the encoder draws by the second one, before and after its destroy. The program, and what the
// draws answer.
fn draws_beside<C: Naming, R: Wait>(
    context: &mut Context<'_, C, ListLink<'_, R>>,
    encoder: &mut Encoder<'_, C>,
) -> Option<(Handle, [Option<Refusal>; 2])> {
    program(context)?;
    let program = program(context)?;
    let live = refusal_of(encoder.submit(0, program, 0, 255));
    let Ok(_) = context.destroy(program) else {
        return None;
    };
    let dying = refusal_of(encoder.submit(0, program, 0, 255));
    Some((program, [live, dying]))
}

// An encoder of the next frame draws by the program and touches a view: what the draw answers, and what was recorded.
fn draws_behind<C: Naming, R: Wait>(
    context: &mut Context<'_, C, ListLink<'_, R>>,
    program: Handle,
) -> Option<(Option<Refusal>, u64)>
    requires admits { (e f d : ℕ) (items : List SeenItem) → C.admits e f items d }
{
    let mut encoder = next_encoder(context)?;
    let dead = refusal_of(encoder.submit(0, program, 0, 255));
    let _ = encoder.touch(255);
    context.gather(encoder.finish(0));
    Some((dead, recorded(context)?))
}

fn gathered<C: Naming, R: Wait>(context: &mut Context<'_, C, ListLink<'_, R>>) -> Option<Told>
    requires admits { (e f d : ℕ) (items : List SeenItem) → C.admits e f items d }
{
    let mut encoder = begun_twice(context)?;
    let (number, begun) = (u64::from(encoder.number()), u64::from(context.begun()));
    let _ = encoder.touch(255);
    let drawn = draws_beside(context, &mut encoder);
    context.gather(encoder.finish(5));
    let (program, [live, dying]) = drawn?;
    let first = recorded(context)?;
    let (items, dropped) = ended_here(context)?;
    let (dead, second) = draws_behind(context, program)?;
    Some((
        [live, dying, dead],
        [number, begun, items, dropped, first, second],
    ))
}

fn told_in<C: Naming, R: Wait>(
    rt: &R,
    context: &mut Context<'_, C, ListLink<'_, R>>,
    case: Case,
) -> Option<Told>
    requires admits { (e f d : ℕ) (items : List SeenItem) → C.admits e f items d }
{
    match case {
        Case::Limits => refusals_at_the_limits(rt, context),
        Case::Held => held(rt, context),
        Case::Gathered => gathered(context),
    }
}

// ---- one context for each

fn begun<'t, 'r, C: Naming, R: Wait>(
    rt: &'r R,
    alloc: Global,
    shared: &'t Shared<C>,
    seat: ApiSeat,
    start: Start,
) -> Option<Context<'t, C, ListLink<'r, R>>>
    requires table { api_table seat ≡ C.table }
    requires seat { api_view seat ≡ first_view start.frame }
    requires start { (start.frame ≤ 1073741823) × (1 ≤ start.serial) × (start.views ≡ fewest_views) }
    requires views { C.views ≡ fewest_views }
    requires latency { start.latency ≡ 1 }
{
    let link = list_link(rt, alloc, Outcome::Shown);
    match Context::init(alloc, shared, seat, link, start) {
        Ok(context) => Some(context),
        Err(_) => None,
    }
}

// What came back at the close of a context; none where an encoder is off.
fn closed_here<C: Naming, R: Wait>(context: Context<'_, C, ListLink<'_, R>>) -> Option<Backs> {
    if context.off() != 0 {
        None
    } else {
        Some(context.close().backs)
    }
}

fn in_shared<C: Naming, R: Wait>(
    rt: &R,
    alloc: Global,
    shared: &Shared<C>,
    seat: ApiSeat,
    start: Start,
    case: Case,
) -> (Option<Told>, Option<Backs>)
    requires table { (api_table seat ≡ C.table) × (api_view seat ≡ first_view start.frame) }
    requires start { (start.frame ≤ 1073741823) × (1 ≤ start.serial) × (start.views ≡ fewest_views) }
    requires latency { start.latency ≡ 1 }
    requires views { C.views ≡ fewest_views }
    requires admits { (e f d : ℕ) (items : List SeenItem) → C.admits e f items d }
{
    match begun(rt, alloc, shared, seat, start) {
        Some(mut context) => {
            let told = told_in(rt, &mut context, case);
            (told, closed_here(context))
        }
        None => (None, None),
    }
}

fn by_case<C: Naming, R: Wait>(
    rt: &R,
    alloc: Global,
    table: HoldTable,
    seat: ApiSeat,
    start: Start,
    case: Case,
) -> (Option<Told>, Option<Backs>)
    requires table { (table_of table ≡ C.table) × (api_table seat ≡ C.table) × (api_view seat ≡ first_view start.frame) }
    requires start { (start.frame ≤ 1073741823) × (1 ≤ start.serial) × (start.views ≡ fewest_views) }
    requires latency { start.latency ≡ 1 }
    requires views { C.views ≡ fewest_views }
    requires admits { (e f d : ℕ) (items : List SeenItem) → C.admits e f items d }
{
    match Shared::<C>::new(alloc, table) {
        Ok(shared) => in_shared(rt, alloc, &shared, seat, start, case),
        Err(_) => (None, None),
    }
}

// What is told of a case by a context of its own, and what came back at its close.
fn told<R: Wait>(rt: &R, alloc: Global, start: Start, case: Case) -> (Option<Told>, Option<Backs>)
    requires start { (start.frame ≤ 1073741823) × (1 ≤ start.serial) × (start.views ≡ fewest_views) }
    requires latency { start.latency ≡ 1 }
{
    match HoldTable::new(alloc, start.frame) {
        Ok((table, seat)) => by_case::<Brand, R>(rt, alloc, table, seat, start, case),
        Err(_) => (None, None),
    }
}

// The last frame and the last serial.
const LAST: Start = Start {
    frame: 1_073_741_823,
    serial: 4_294_967_295,
    views: 256,
    latency: 1,
};

// `rt try --test --fail-alloc N` tries it with the Nth allocation failing.
#[test]
fn what_a_context_tells(rt: HostRuntime) {
    let (refusals, _) = told(&rt, rt.alloc(), LAST, Case::Limits);
    let (held, _) = told(&rt, rt.alloc(), START, Case::Held);
    let (frame, backs) = told(&rt, rt.alloc(), START, Case::Gathered);
    let wanted = [
        Some(Refusal::SerialsSpent),
        Some(Refusal::NoEncoder),
        Some(Refusal::FramesSpent),
    ];
    let late = [None, None, Some(Refusal::Stale { word: 10 })];
    let first = BackNote {
        number: 0,
        outcome: Outcome::Shown,
    };
    assert_eq!(rt; refusals, Some((wanted, [0; 6])));
    assert_eq!(rt; held, Some((NONE, [1, 0, 2, 1, 0, 4])));
    assert_eq!(rt; frame, Some((late, [0, 1, 3, 5, 12, 13])));
    assert_eq!(rt; backs, Some([Some(first), None, None]));
}

// ---- the shutdown

// A frame is out, an encoder has ended, and another one is off, which comes back.
fn one_off<'t, C: Naming, R: Wait>(
    rt: &R,
    context: &mut Context<'t, C, ListLink<'_, R>>,
) -> Option<Encoder<'t, C>>
    requires admits { (e f d : ℕ) (items : List SeenItem) → C.admits e f items d }
{
    frame_told(rt, context)?;
    if begun_and_ended(rt, context) {
        next_encoder(context)
    } else {
        None
    }
}

// The context is shut down while a thread ends the encoder. The seat of its table, and what came back.
fn shut_beside<'t, C: Naming + Send + Sync, R: Threads + Wait + Sync>(
    rt: &R,
    context: Context<'t, C, ListLink<'_, R>>,
    open: Encoder<'t, C>,
) -> (ApiSeat, Backs)
    requires admits { (e f d : ℕ) (items : List SeenItem) → C.admits e f items d }
    ensures seat { (api_table result.0 ≡ C.table) × ((api_view result.0).off ≡ []) }
{
    let (_, closed) = thread::join(
        rt,
        || -> ()
            requires admits { (e f d : ℕ) (items : List SeenItem) → C.admits e f items d }
        {
            open.end(rt, 0);
        },
        || -> Closed<ListLink<'_, R>>
            ensures table { api_table result.seat ≡ C.table }
            ensures off { (api_view result.seat).off ≡ [] }
        { context.shutdown(rt) },
    );
    (closed.seat, closed.backs)
}

// The same of a new context, where a frame is out and an encoder has ended.
fn shut_in<C: Naming + Send + Sync, R: Threads + Wait + Sync>(
    rt: &R,
    alloc: Global,
    shared: &Shared<C>,
    seat: ApiSeat,
) -> Option<(ApiSeat, Backs)>
    requires table { (api_table seat ≡ C.table) × (api_view seat ≡ first_view 0) }
    requires views { C.views ≡ fewest_views }
    requires admits { (e f d : ℕ) (items : List SeenItem) → C.admits e f items d }
    ensures seat { IfSome result (λ r. (api_table r.0 ≡ C.table) × ((api_view r.0).off ≡ [])) }
{
    let mut context = begun(rt, alloc, shared, seat, START)?;
    let open = one_off(rt, &mut context)?;
    Some(shut_beside(rt, context, open))
}

fn shut<C: Naming + Send + Sync, R: Threads + Wait + Sync>(
    rt: &R,
    alloc: Global,
    table: HoldTable,
    seat: ApiSeat,
) -> Option<Backs>
    requires table { (table_of table ≡ C.table) × (api_table seat ≡ C.table) × (api_view seat ≡ first_view 0) }
    requires views { C.views ≡ fewest_views }
    requires admits { (e f d : ℕ) (items : List SeenItem) → C.admits e f items d }
{
    let Ok(shared) = Shared::<C>::new(alloc, table) else {
        return None;
    };
    let (seat, backs) = shut_in(rt, alloc, &shared, seat)?;
    shared.into_table().close(seat);
    Some(backs)
}

#[test]
fn a_context_is_shut_down(rt: HostRuntime) -> Result<(), Fail> {
    let (table, seat) = HoldTable::new(rt.alloc(), 0)?;
    let backs = shut::<Brand, _>(&rt, rt.alloc(), table, seat);
    let first = BackNote {
        number: 0,
        outcome: Outcome::Shown,
    };
    assert_eq!(rt; backs, Some([Some(first), None, None]));
    Ok(())
}
