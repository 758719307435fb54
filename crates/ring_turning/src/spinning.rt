// A turn of the ring, with its pictures in a sink.
ghost use Rattle.std.specs.Prelude.{◌≡◌, ◌≤◌, ℕ, IfOk, IfErr};
ghost use Rattle.gfx.specs.Pictures.{seen_by};
ghost use Rattle.ring_turning.specs.Spinning.{end_number, end_of, IsNew, IsSpun, AreRenderedInTurn};
ghost use Rattle.ring_turning.specs.declared.spinning.End.TheVariants as ends;

use crate::turning::{Turned, turn_ring};
use gfx::laws::{kept_law, texts_law};
use gfx::{InPlaceLink, Outcome, Renderer, SerialRasterizer};
use io_edge::Sink;
use std::alloc::Global;
use std::sync::Wait;
use std::thread::Threads;

/// Both sides of the pictures, in pixels.
pub const SIDE: u16 = 64;

/// How many frames may be out.
const LATENCY: u8 = 1;

/// How a turn ended.
#[derive(Clone, Copy, Debug, PartialEq, Eq, Drop)]
pub enum End {
    /// Each frame's picture was put whole.
    Done,
    /// The sink failed.
    PictureFault,
    /// A call was refused, or a frame could not be drawn, as for want of memory.
    Refused,
}

impl End {
    /// The number with which the program ends: 0, 4 or 8.
    pub fn number(self) -> u8
        ensures { result ≡ end_number self }
    {
        match self {
            End::Done => 0,
            End::PictureFault => 4,
            End::Refused => 8,
        }
    }
}

/// What a turn leaves.
#[derive(Drop)]
pub struct Spun<P: Drop> {
    /// The sink, with the pictures that were put.
    pub sink: P,
    /// How the turn ended.
    pub end: End,
}

/// What frames leave that were given and rendered.
#[derive(Drop)]
struct Rendered<P: Drop> {
    renderer: Renderer<P>,
    outcome: Outcome,
    is_whole: bool,
}

/// Draws so many frames of the ring, which turns by 22.5 degrees in each, and puts their pictures of 64 by 64 pixels into the sink, one
/// text behind the other. Each frame is recorded by two encoders on two threads and rendered in place.
///
/// The sink comes back with what was put. `Done`: the texts of all frames' pictures. `PictureFault` only where its count of faults rose in
/// this call: a front of the texts. `Refused` says nothing of its cause, as want of memory: the whole texts of the first pictures.
pub fn spin<P: Sink + Drop, R: Threads + Wait + Sync>(
    rt: &R,
    alloc: Global,
    frames: u16,
    sink: P,
) -> Spun<P>
    ensures spun { IsSpun result.end frames (P.held sink) (P.held result.sink) (P.faults sink) (P.faults result.sink) }
    ensures sure { P.sure result.sink ≡ P.sure sink }
    ensures no_fewer { P.faults sink ≤ P.faults result.sink }
{
    match Renderer::new(alloc, SIDE, SIDE, sink) {
        Ok(renderer) => spin_with(rt, alloc, frames, renderer),
        Err(sink) => Spun {
            sink,
            end: End::Refused,
        },
    }
}

/// The same with a renderer that has rendered nothing.
fn spin_with<P: Sink + Drop, R: Threads + Wait + Sync>(
    rt: &R,
    alloc: Global,
    frames: u16,
    renderer: Renderer<P>,
) -> Spun<P>
    requires new { IsNew (seen_by P.held P.tally P.faults P.sure renderer) }
    ensures spun { IsSpun result.end frames (P.held renderer.sink) (P.held result.sink) (P.faults renderer.sink) (P.faults result.sink) }
    ensures sure { P.sure result.sink ≡ P.sure renderer.sink }
    ensures no_fewer { P.faults renderer.sink ≤ P.faults result.sink }
{
    texts_law();
    kept_law();
    match render_in_place(rt, alloc, frames, renderer) {
        Ok(rendered) => Spun::of_rendered(rendered),
        Err(renderer) => Spun {
            sink: renderer.into_sink(),
            end: End::Refused,
        },
    }
}

/// Gives the frames to a link that renders each where it is given. `Err` with the renderer as it was, for want of memory.
fn render_in_place<P: Sink + Drop, R: Threads + Wait + Sync>(
    rt: &R,
    alloc: Global,
    frames: u16,
    renderer: Renderer<P>,
) -> Result<Rendered<P>, Renderer<P>>
    ensures shown { IfOk result (λ r. AreRenderedInTurn frames r.outcome r.is_whole (seen_by P.held P.tally P.faults P.sure renderer) (seen_by P.held P.tally P.faults P.sure r.renderer)) }
    ensures refused { IfErr result (λ r. r ≡ renderer) }
{
    let link = InPlaceLink::new(alloc, renderer, SerialRasterizer, LATENCY)?;
    let turned = turn_ring(rt, alloc, frames, link);
    let Turned {
        link,
        outcome,
        is_whole,
    } = turned;
    Ok(Rendered {
        renderer: link.into_renderer(),
        outcome,
        is_whole,
    })
}

impl<P: Sink + Drop> Spun<P> {
    /// What rendered frames leave, without the renderer.
    fn of_rendered(rendered: Rendered<P>) -> Spun<P>
        ensures sink { result.sink ≡ rendered.renderer.sink }
        ensures end { result.end ≡ end_of rendered.outcome rendered.is_whole }
    {
        let Rendered {
            renderer,
            outcome,
            is_whole,
        } = rendered;
        Spun {
            sink: renderer.into_sink(),
            end: end_of(outcome, is_whole),
        }
    }
}

/// How a turn ends by the outcome of its first frame that was not shown, and whether it is whole.
fn end_of(outcome: Outcome, is_whole: bool) -> End
    ensures { result ≡ end_of outcome is_whole }
{
    match outcome {
        Outcome::Shown if is_whole => End::Done,
        Outcome::PictureFault => End::PictureFault,
        _ => End::Refused,
    }
}
