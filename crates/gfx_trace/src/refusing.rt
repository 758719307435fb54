// Runs that are refused.
ghost use Rattle.std.specs.Prelude.{◌≡◌, ◌≤◌, ℕ, List, IfOk};
ghost use Rattle.scene_model.specs.Output.{journal_refusal_line, scene_line};
ghost use Rattle.io_whole.specs.Runs.{HasTried, putting};
ghost use Rattle.gfx_trace.specs.Refusals.{MayRefuse, frame_line, pixel_line, target_front, target_line};

use crate::status::TraceStatus;
use io_edge::Sink;
use io_whole::put_all;
use std::alloc::{AllocError, Global};

/// The line of refused words.
pub(crate) const USAGE: &[u8] =
    b"usage: gfx_trace pixel F X Y [--target NAME] | steps F | blame F\n";

/// The line of an input that is too long.
pub(crate) const TOO_LONG: &[u8] = b"input is longer than 16777216 bytes\n";

/// The line of a text that is no scene.
fn scene_refused(alloc: Global, line: u32, cause: u8) -> Result<Vec<u8>, AllocError>
    ensures { IfOk result (λ text. text.items ≡ scene_line line cause) }
{
    let text = format!(in alloc; "scene refused at line {line} for cause {cause}\n")?;
    Ok(text.into_bytes())
}

/// The line of a journal that is refused.
fn journal_refused(alloc: Global, place: u32) -> Result<Vec<u8>, AllocError>
    ensures { IfOk result (λ text. text.items ≡ journal_refusal_line place) }
{
    let text = format!(in alloc; "journal refused at entry {place}\n")?;
    Ok(text.into_bytes())
}

/// The line of a frame that a scene does not have.
fn frame_refused(alloc: Global, frame: u32) -> Result<Vec<u8>, AllocError>
    ensures { IfOk result (λ text. text.items ≡ frame_line frame) }
{
    let text = format!(in alloc; "there is no frame {frame}\n")?;
    Ok(text.into_bytes())
}

/// The line of a pixel that a scene's pictures do not have.
fn pixel_refused(alloc: Global, x: u32, y: u32) -> Result<Vec<u8>, AllocError>
    ensures { IfOk result (λ text. text.items ≡ pixel_line x y) }
{
    let text = format!(in alloc; "there is no pixel {x} {y}\n")?;
    Ok(text.into_bytes())
}

/// The front of the line of a name on which no view of a frame draws.
fn target_front(alloc: Global, frame: u32) -> Result<Vec<u8>, AllocError>
    ensures { IfOk result (λ text. text.items ≡ target_front frame) }
{
    let text = format!(in alloc; "no view of frame {frame} draws on ")?;
    Ok(text.into_bytes())
}

/// The line of a name on which no view of a frame draws.
fn target_refused(alloc: Global, frame: u32, name: &[u8]) -> Result<Vec<u8>, AllocError>
    ensures { IfOk result (λ text. text.items ≡ target_line frame name.now) }
{
    let mut text = target_front(alloc, frame)?;
    text.extend_from_slice(name)?;
    text.extend_from_slice(b"\n")?;
    Ok(text)
}

/// Puts the line of a refusal, as far as the notes take it.
pub(crate) fn refuse<N: Sink>(status: TraceStatus, line: &[u8], notes: &mut N) -> TraceStatus
    ensures status { result ≡ status }
    ensures noted { HasTried line.now (putting (N.held notes.old) (N.held notes.new) (N.faults notes.old) (N.faults notes.new)) }
    ensures sure { N.sure notes.new ≡ N.sure notes.old }
    ensures no_fewer { N.faults notes.old ≤ N.faults notes.new }
{
    let _ = put_all(notes, line);
    status
}

/// The same where there was memory for the line.
fn refuse_with<N: Sink>(
    status: TraceStatus,
    line: Result<Vec<u8>, AllocError>,
    notes: &mut N,
) -> TraceStatus
    ensures refused { (text : List ℕ) → IfOk line (λ found. found.items ≡ text) → MayRefuse status result text (putting (N.held notes.old) (N.held notes.new) (N.faults notes.old) (N.faults notes.new)) }
    ensures sure { N.sure notes.new ≡ N.sure notes.old }
    ensures no_fewer { N.faults notes.old ≤ N.faults notes.new }
{
    match line {
        Ok(text) => refuse(status, &text, notes),
        Err(_) => TraceStatus::OutOfMemory,
    }
}

/// Refuses a text that is no scene.
pub(crate) fn refuse_scene<N: Sink>(
    alloc: Global,
    line: u32,
    cause: u8,
    notes: &mut N,
) -> TraceStatus
    ensures refused { MayRefuse (TraceStatus.Scene line cause) result (scene_line line cause) (putting (N.held notes.old) (N.held notes.new) (N.faults notes.old) (N.faults notes.new)) }
    ensures sure { N.sure notes.new ≡ N.sure notes.old }
    ensures no_fewer { N.faults notes.old ≤ N.faults notes.new }
{
    let text = scene_refused(alloc, line, cause);
    refuse_with(TraceStatus::Scene { line, cause }, text, notes)
}

/// Refuses a journal.
pub(crate) fn refuse_journal<N: Sink>(alloc: Global, place: u32, notes: &mut N) -> TraceStatus
    ensures refused { MayRefuse (TraceStatus.Journal place) result (journal_refusal_line place) (putting (N.held notes.old) (N.held notes.new) (N.faults notes.old) (N.faults notes.new)) }
    ensures sure { N.sure notes.new ≡ N.sure notes.old }
    ensures no_fewer { N.faults notes.old ≤ N.faults notes.new }
{
    let text = journal_refused(alloc, place);
    refuse_with(TraceStatus::Journal { place }, text, notes)
}

/// Refuses a frame that a scene does not have.
pub(crate) fn refuse_frame<N: Sink>(alloc: Global, frame: u32, notes: &mut N) -> TraceStatus
    ensures refused { MayRefuse TraceStatus.NoFrame result (frame_line frame) (putting (N.held notes.old) (N.held notes.new) (N.faults notes.old) (N.faults notes.new)) }
    ensures sure { N.sure notes.new ≡ N.sure notes.old }
    ensures no_fewer { N.faults notes.old ≤ N.faults notes.new }
{
    let text = frame_refused(alloc, frame);
    refuse_with(TraceStatus::NoFrame, text, notes)
}

/// Refuses a pixel that a scene's pictures do not have.
pub(crate) fn refuse_pixel<N: Sink>(alloc: Global, x: u32, y: u32, notes: &mut N) -> TraceStatus
    ensures refused { MayRefuse TraceStatus.NoPixel result (pixel_line x y) (putting (N.held notes.old) (N.held notes.new) (N.faults notes.old) (N.faults notes.new)) }
    ensures sure { N.sure notes.new ≡ N.sure notes.old }
    ensures no_fewer { N.faults notes.old ≤ N.faults notes.new }
{
    let text = pixel_refused(alloc, x, y);
    refuse_with(TraceStatus::NoPixel, text, notes)
}

/// Refuses a name on which no view of a frame draws.
pub(crate) fn refuse_target<N: Sink>(
    alloc: Global,
    frame: u32,
    name: &[u8],
    notes: &mut N,
) -> TraceStatus
    ensures refused { MayRefuse TraceStatus.NoPixel result (target_line frame name.now) (putting (N.held notes.old) (N.held notes.new) (N.faults notes.old) (N.faults notes.new)) }
    ensures sure { N.sure notes.new ≡ N.sure notes.old }
    ensures no_fewer { N.faults notes.old ≤ N.faults notes.new }
{
    let text = target_refused(alloc, frame, name);
    refuse_with(TraceStatus::NoPixel, text, notes)
}
