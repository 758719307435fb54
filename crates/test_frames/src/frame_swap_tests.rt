// Both ends on one thread, and a thread that renders, at each latency.
ghost use Rattle.std.specs.Prelude.{◌≡◌, ◌+◌, ◌≤◌, [], length, IfOk};
ghost use Rattle.frame_record.specs.Links.{frames_of};
ghost use Rattle.frame_swap.specs.Ends.{api_table, api_knows, render_table, render_knows};

use crate::frame_swap_field_tests::{full_frames, turns, whole_of};
use cmd_buffer::{CmdBuffer, CmdBytes};
use frame_record::{Frame, FrameLink, Outcome, RenderedFrame};
use frame_swap::{ApiEnd, RenderEnd, WaitingEnd, swap_pair};
use std::alloc::{AllocError, Global};
use std::snapshot::Snapshot;
use std::sync::Wait;
use std::test::Fail;
use std::thread::{Promise, Threads};
use std::{hint, thread};
use view_table::ViewTable;

// What came back: the frame's number, its payload's first byte, and the outcome of its render.
type Came = (u32, Option<u8>, Outcome);

fn seen(back: &RenderedFrame) -> Came {
    let payload = match back.frame.payloads.as_slice().first() {
        Some(bytes) => bytes.as_slice().first().copied(),
        None => None,
    };
    (back.frame.number, payload, back.outcome)
}

fn no_commands(alloc: Global) -> Result<CmdBytes, AllocError> {
    CmdBuffer::new(alloc).finish()
}

// One payload of three bytes.
fn payloads(alloc: Global, byte: u8) -> Result<Vec<Vec<u8>>, AllocError> {
    let mut payloads = Vec::new(alloc);
    payloads.push(Vec::from_elem(alloc, byte, 3)?)?;
    Ok(payloads)
}

// A frame of a number, with one payload of that number and nothing to draw.
fn frame(alloc: Global, number: u8) -> Result<Frame, AllocError> {
    let pre = no_commands(alloc)?;
    let post = no_commands(alloc)?;
    let payloads = payloads(alloc, number)?;
    let views = ViewTable::new(alloc, 256)?;
    Ok(Frame::new(
        u32::from(number),
        views,
        pre,
        post,
        payloads,
        Vec::new(alloc),
        Vec::new(alloc),
    ))
}

// So many frames, the first of number 3.
fn frames(alloc: Global, count: u8) -> Result<Vec<Frame>, AllocError>
    requires { count ≤ 2 }
{
    let mut frames = Vec::new(alloc);
    for k in 0..count {
        frames.push(frame(alloc, 3 + k)?)?;
    }
    Ok(frames)
}

// Lets some time pass, in which another thread may try, yield, come near to its sleep, or sleep.
fn pause(turns: u32) {
    for _ in 0..turns {
        hint::spin_loop();
    }
}

// ---- both ends on one thread

// The render end takes one frame and gives it back with an outcome.
fn pass<R: Wait>(rt: &R, end: &mut RenderEnd, outcome: Outcome) -> bool
    requires { (render_knows end.old).taken ≡ frames_of (render_knows end.old).returned }
    ensures table { render_table end.new ≡ render_table end.old }
    ensures none_held { (render_knows end.new).taken ≡ frames_of (render_knows end.new).returned }
{
    let Some(frame) = end.take(rt) else {
        return false;
    };
    end.give_back(RenderedFrame { frame, outcome });
    true
}

// With two frames out, the oldest comes back and the next is given.
fn turn<R: Wait>(rt: &R, api: &mut ApiEnd, next: Frame) -> Came
    requires out { length (api_knows api.old).given ≡ length (api_knows api.old).back + 2 }
    requires latency { 3 ≤ api.old.latency }
    ensures table { (api_table api.new ≡ api_table api.old) × (api.new.latency ≡ api.old.latency) }
    ensures out { length (api_knows api.new).given ≡ length (api_knows api.new).back + 2 }
{
    let back = api.take_back(rt);
    api.give(next);
    seen(&back)
}

// No frame comes back yet.
fn none_back(api: &mut ApiEnd) -> Result<(), &'static str>
    ensures table { (api_table api.new ≡ api_table api.old) × (api.new.latency ≡ api.old.latency) }
    ensures lists { IfOk result (λ _. ((api_knows api.new).given ≡ (api_knows api.old).given) × ((api_knows api.new).back ≡ (api_knows api.old).back)) }
{
    match api.try_take_back() {
        None => Ok(()),
        Some(_) => Err("a frame came back"),
    }
}

// No frame was given yet.
fn none_given(end: &mut RenderEnd) -> Result<(), &'static str>
    requires { (render_knows end.old).taken ≡ frames_of (render_knows end.old).returned }
    ensures table { render_table end.new ≡ render_table end.old }
    ensures lists { IfOk result (λ _. (render_knows end.new).taken ≡ frames_of (render_knows end.new).returned) }
{
    match end.try_take() {
        Err(_) => Ok(()),
        Ok(_) => Err("a frame was given, or the stop"),
    }
}

// What came back of five frames, whether the render end took each of them, and whether it found the stop behind them.
type Five = ([Came; 5], [bool; 6]);

// Up to two frames are out of three.
fn five<R: Wait>(rt: &R, alloc: Global, api: &mut ApiEnd, end: &mut RenderEnd) -> Result<Five, Fail>
    requires api { ((api_knows api.old).given ≡ []) × ((api_knows api.old).back ≡ []) × (api.old.latency ≡ 3) }
    requires end { ((render_knows end.old).taken ≡ []) × ((render_knows end.old).returned ≡ []) }
{
    none_back(api)?;
    none_given(end)?;
    api.give(frame(alloc, 3)?);
    api.give(frame(alloc, 4)?);
    let one = pass(rt, end, Outcome::Shown);
    let first = turn(rt, api, frame(alloc, 5)?);
    let two = pass(rt, end, Outcome::PictureFault);
    let three = pass(rt, end, Outcome::Skipped);
    let second = turn(rt, api, frame(alloc, 6)?);
    let third = turn(rt, api, frame(alloc, 7)?);
    let four = pass(rt, end, Outcome::OutOfMemory);
    let five = pass(rt, end, Outcome::Skipped);
    let fourth = seen(&api.take_back(rt));
    let fifth = seen(&api.take_back(rt));
    api.stop();
    let stopped = end.take(rt).is_none();
    Ok((
        [first, second, third, fourth, fifth],
        [one, two, three, four, five, stopped],
    ))
}

fn five_of_three<R: Wait>(rt: &R, alloc: Global) -> Result<Five, Fail> {
    let (mut api, mut end) = swap_pair(alloc, 3)?;
    five(rt, alloc, &mut api, &mut end)
}

#[test]
fn two_frames_out_of_three(rt: HostRuntime) -> Result<(), Fail> {
    let (came, passed) = five_of_three(&rt, rt.alloc())?;
    let wanted = [
        (3, Some(3), Outcome::Shown),
        (4, Some(4), Outcome::PictureFault),
        (5, Some(5), Outcome::Skipped),
        (6, Some(6), Outcome::OutOfMemory),
        (7, Some(7), Outcome::Skipped),
    ];
    assert!(rt; came == wanted);
    assert!(rt; passed == [true; 6]);
    Ok(())
}

// ---- by way of a render thread

/// How the render of a frame of a number goes.
pub(crate) fn outcome_of(number: u32) -> Outcome {
    match number {
        3 | 8 | 12 => Outcome::Shown,
        9 | 13 => Outcome::PictureFault,
        10 => Outcome::OutOfMemory,
        _ => Outcome::Skipped,
    }
}

// Gives each frame back until the stop, with an outcome by its number, and each later than the one before.
fn serve<R: Wait>(rt: &R, mut end: RenderEnd) -> RenderEnd
    requires { ((render_knows end).taken ≡ []) × ((render_knows end).returned ≡ []) }
    ensures { (render_table result ≡ render_table end) × ((render_knows result).taken ≡ frames_of (render_knows result).returned) }
{
    let mut turns = 0u32;
    for _ in rt.forever() {
        let Some(frame) = end.take(rt) else {
            break;
        };
        pause(turns);
        turns = turns.wrapping_add(1);
        let outcome = outcome_of(frame.number);
        end.give_back(RenderedFrame { frame, outcome });
    }
    end
}

// What the render thread promises: it gave back each frame that it took.
#[derive(Drop)]
struct Served(Snapshot<RenderEnd>);

impl Promise<RenderEnd> for Served {
    ghost use Rattle.std.specs.Prelude.{◌≡◌};
    ghost use Rattle.frame_record.specs.Links.{frames_of};
    ghost use Rattle.frame_swap.specs.Ends.{render_table, render_knows};

    ghost kept_by = { λ p r. (render_table r ≡ render_table p.0.value) × ((render_knows r).taken ≡ frames_of (render_knows r).returned) };
}

// With no frame out, gives one frame a thousand times, each time later than before, and answers how often it came back as shown.
fn late_turns<R: Wait>(rt: &R, api: &mut ApiEnd, first: Frame) -> u32
    requires out { length (api_knows api.old).given ≡ length (api_knows api.old).back }
    requires latency { 1 ≤ api.old.latency }
    ensures table { (api_table api.new ≡ api_table api.old) × (api.new.latency ≡ api.old.latency) }
    ensures out { length (api_knows api.new).given ≡ length (api_knows api.new).back }
{
    let mut frame = first;
    let mut shown = 0u32;
    for turn in 0..1000u32 {
        pause(turn);
        api.give(frame);
        let back = api.take_back(rt);
        if back.outcome == Outcome::Shown {
            shown = shown.wrapping_add(1);
        }
        frame = back.frame;
    }
    shown
}

// How frames go to the render thread: two of them by a link, one a thousand times, or as many out at a time as may be.
#[derive(Clone, Copy, Drop)]
enum Way {
    Link,
    Late,
    Full,
}

// What is told of the frames that came back: the first two, how many came as shown or in all, and how many had all that they should have.
type Told = ([Option<Came>; 2], u32, u32);

fn both_by_link<R: Wait>(rt: &R, api: ApiEnd, first: Frame, second: Frame) -> (ApiEnd, Told)
    requires out { length (api_knows api).given ≡ length (api_knows api).back }
    requires latency { 1 ≤ api.latency }
    ensures table { api_table result.0 ≡ api_table api }
    ensures out { length (api_knows result.0).given ≡ length (api_knows result.0).back }
{
    let mut link = WaitingEnd::new(api, rt);
    link.give(first);
    let one = seen(&link.take_back());
    link.give(second);
    let two = seen(&link.take_back());
    (link.into_end(), ([Some(one), Some(two)], 0, 0))
}

fn by_link<R: Wait>(rt: &R, api: ApiEnd, mut frames: Vec<Frame>) -> (ApiEnd, Told)
    requires out { length (api_knows api).given ≡ length (api_knows api).back }
    requires latency { 1 ≤ api.latency }
    ensures table { api_table result.0 ≡ api_table api }
    ensures out { length (api_knows result.0).given ≡ length (api_knows result.0).back }
{
    let second = frames.pop();
    match (frames.pop(), second) {
        (Some(first), Some(second)) => both_by_link(rt, api, first, second),
        _ => (api, ([None; 2], 0, 0)),
    }
}

// With no frame out, the frames go the way, and come back.
fn through<R: Wait>(
    rt: &R,
    alloc: Global,
    mut api: ApiEnd,
    latency: u8,
    mut frames: Vec<Frame>,
    way: Way,
) -> (ApiEnd, Told)
    requires out { length (api_knows api).given ≡ length (api_knows api).back }
    requires latency { (1 ≤ latency) × (api.latency ≡ latency) }
    ensures table { api_table result.0 ≡ api_table api }
    ensures out { length (api_knows result.0).given ≡ length (api_knows result.0).back }
{
    match way {
        Way::Link => by_link(rt, api, frames),
        Way::Late => {
            let shown = match frames.pop() {
                Some(first) => late_turns(rt, &mut api, first),
                None => 0,
            };
            (api, ([None; 2], shown, 0))
        }
        Way::Full => {
            let came = turns(rt, alloc, &mut api, latency, frames);
            let (count, whole) = whole_of(alloc, came);
            (api, ([None; 2], count, whole))
        }
    }
}

// The same by way of a render thread, which waits for each frame and for the stop.
fn by_a_thread<R: Threads + Wait + Sync>(
    rt: &R,
    alloc: Global,
    ends: (ApiEnd, RenderEnd),
    latency: u8,
    frames: Vec<Frame>,
    way: Way,
) -> Option<Told>
    requires api { ((api_knows ends.0).given ≡ []) × ((api_knows ends.0).back ≡ []) × (1 ≤ latency) × (ends.0.latency ≡ latency) × (render_table ends.1 ≡ api_table ends.0) }
    requires end { ((render_knows ends.1).taken ≡ []) × ((render_knows ends.1).returned ≡ []) }
{
    let (api, end) = ends;
    thread::scope(
        thread::scope_env(),
        rt,
        |scope|
            requires api { ((api_knows api).given ≡ []) × ((api_knows api).back ≡ []) × (1 ≤ latency) × (api.latency ≡ latency) × (render_table end ≡ api_table api) }
            requires end { ((render_knows end).taken ≡ []) × ((render_knows end).returned ≡ []) }
        {
            let promise = Served(Snapshot::of(&end));
            let job = move || -> RenderEnd
                requires { ((render_knows end).taken ≡ []) × ((render_knows end).returned ≡ []) }
                ensures { (render_table result ≡ render_table end) × ((render_knows result).taken ≡ frames_of (render_knows result).returned) }
            { serve(rt, end) };
            match scope.spawn_with(promise, job) {
                Ok(handle) => {
                    let (mut api, told) = through(rt, alloc, api, latency, frames, way);
                    pause(1000);
                    api.stop();
                    let end = handle.join(rt);
                    api.close(end);
                    Some(told)
                }
                Err(_) => None,
            }
        },
    )
}

// The same by new ends.
fn sent<R: Threads + Wait + Sync>(
    rt: &R,
    alloc: Global,
    latency: u8,
    frames: Vec<Frame>,
    way: Way,
) -> Option<Told>
    requires { 1 ≤ latency }
{
    match swap_pair(alloc, latency) {
        Ok(ends) => by_a_thread(rt, alloc, ends, latency, frames, way),
        Err(_) => None,
    }
}

// All frames came as they were given: two by a link, six with all their fields, as many out at a time as may be, and one a thousand times.
#[test]
fn a_thread_renders_at_each_latency(rt: HostRuntime) -> Result<(), Fail> {
    for latency in 1..4u8 {
        let linked = sent(&rt, rt.alloc(), latency, frames(rt.alloc(), 2)?, Way::Link);
        let full = sent(
            &rt,
            rt.alloc(),
            latency,
            full_frames(rt.alloc())?,
            Way::Full,
        );
        let first = Some((3, Some(3), Outcome::Shown));
        let second = Some((4, Some(4), Outcome::Skipped));
        assert!(rt; linked == Some(([first, second], 0, 0)));
        assert!(rt; full == Some(([None; 2], 6, 6)));
    }
    let late = sent(&rt, rt.alloc(), 2, frames(rt.alloc(), 1)?, Way::Late);
    assert!(rt; late == Some(([None; 2], 1000, 0)));
    Ok(())
}
