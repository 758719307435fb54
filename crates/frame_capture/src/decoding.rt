// From a capture to the picture texts that it stands for.
ghost use Rattle.std.specs.Prelude.{◌≡◌, ◌≤◌, ◌*◌, IfOk, IsErrOf, IsOk, List, ℕ, Ok, None};
ghost use Rattle.frame_capture.specs.Film.{Film, texts};
ghost use Rattle.frame_capture.specs.Capture.{IsCapture};
ghost use Rattle.frame_capture.specs.Fault.{behind, frame_at, frames_at, head_at, runs_at, shown};
ghost use Rattle.frame_capture.specs.Gives.{Gives, Shows, after_texts};
ghost use Rattle.frame_capture.specs.declared.fault.FieldFault.TheVariants as fields;
ghost use Rattle.frame_capture.specs.declared.fault.CaptureFault.TheVariants as wholes;

use crate::fault::{CaptureFault, FieldFault};
use crate::fields::{after_mark, count_at, run_at, side_at, text_len, u32_at};
use std::alloc::Global;

const TOO_MUCH: u8 = 6;

/// Puts the pixels of a frame, of which there are so many, and answers the bytes behind its runs.
fn read_runs<'a>(texts: &mut Vec<u8>, pixels: u32, bytes: &'a [u8]) -> Result<&'a [u8], FieldFault>
    ensures { Gives (λ rest. (texts.new.items, rest.now)) result (behind texts.old.items (runs_at None pixels bytes.now)) }
{
    let mut rest = bytes;
    let mut wanted = pixels;
    let mut before = None;
    while wanted > 0 {
        let (next, after) = run_at(&before, wanted, rest)?;
        next.put_pixels(texts)?;
        wanted -= u32::from(next.count);
        before = Some(next);
        rest = after;
    }
    Ok(rest)
}

/// Puts the pixels of the frame with this number, and answers the bytes behind it.
#[tactic(auto, unfolding(crate::specs::Fault::frame_at))]
fn read_frame<'a>(
    texts: &mut Vec<u8>,
    number: u32,
    pixels: u32,
    bytes: &'a [u8],
) -> Result<&'a [u8], FieldFault>
    ensures { Gives (λ rest. (texts.new.items, rest.now)) result (behind texts.old.items (frame_at number pixels bytes.now)) }
{
    let (found, rest) = u32_at(bytes)?;
    if found != number {
        return Err(FieldFault::MISPLACED);
    }
    let rest = read_runs(texts, pixels, rest)?;
    Ok(rest)
}

/// Puts the picture texts of all frames, each with this head.
fn read_frames(
    texts: &mut Vec<u8>,
    head: &[u8],
    pixels: u32,
    frames: u32,
    bytes: &[u8],
) -> Result<(), CaptureFault>
    ensures { Shows (λ _. texts.new.items) result (after_texts texts.old.items (frames_at head.now pixels 0 frames bytes.now)) }
{
    let mut rest = bytes;
    for number in 0..frames {
        texts.extend_from_slice(head)?;
        match read_frame(texts, number, pixels, rest) {
            Ok(after) => rest = after,
            Err(fault) => return Err(fault.behind(number)),
        }
    }
    if rest.is_empty() {
        return Ok(());
    }
    Err(CaptureFault::At {
        frame: frames,
        cause: TOO_MUCH,
    })
}

/// The sides, the number of frames, the bytes of each picture text, and the bytes behind the capture's head.
#[derive(Drop)]
struct Head<'a> {
    width: u16,
    height: u16,
    frames: u32,
    text_len: usize,
    rest: &'a [u8],
}

#[tactic(auto, unfolding(crate::specs::Fault::head_at))]
fn read_head(bytes: &[u8]) -> Result<Head<'_>, FieldFault>
    ensures exact { Gives (λ h. (record { width = h.width; height = h.height; frames = h.frames }, h.rest.now)) result (head_at bytes.now) }
    ensures short { IfOk result (λ h. h.frames * h.text_len ≤ 134217728) }
    ensures sides { IfOk result (λ h. (h.width ≤ 2048) × (h.height ≤ 2048)) }
    ensures sure { IsErrOf result fields.OutOfMemory → ⊥ }
{
    let rest = after_mark(bytes)?;
    let (width, rest) = side_at(rest)?;
    let (height, rest) = side_at(rest)?;
    let text_len = text_len(width, height);
    let (frames, rest) = count_at(width, height, text_len, rest)?;
    Ok(Head {
        width,
        height,
        frames,
        text_len,
        rest,
    })
}

/// The texts, or the first fault.
#[tactic(auto, unfolding(crate::specs::Fault::shown))]
fn show(alloc: Global, bytes: &[u8]) -> Result<Vec<u8>, CaptureFault>
    ensures exact { Shows (λ v. v.items) result (shown bytes.now) }
    ensures needs { IsErrOf result wholes.OutOfMemory → IsOk (head_at bytes.now) }
{
    let head = match read_head(bytes) {
        Ok(head) => head,
        Err(fault) => return Err(fault.behind(0)),
    };
    let Head { width, height, .. } = head;
    let text_head = format!(in alloc; "P6\n{width} {height}\n255\n")?;
    let mut texts = Vec::with_capacity(alloc, head.frames as usize * head.text_len)?;
    let pixels = u32::from(width) * u32::from(height);
    read_frames(
        &mut texts,
        text_head.as_bytes(),
        pixels,
        head.frames,
        head.rest,
    )?;
    Ok(texts)
}

/// The joined picture texts that a capture stands for, at most 134,217,728 bytes. Their room is made in one go.
///
/// # Errors
///
/// `CaptureFault::At` exactly where the bytes are no capture, with the number of frames that stand whole before the first field that
/// can't stand, and its cause. `CaptureFault::OutOfMemory` for want of memory alone, once the head was read.
pub fn decode(alloc: Global, bytes: &[u8]) -> Result<Vec<u8>, CaptureFault>
    // What is shown are the texts of pictures whose capture the bytes are.
    ensures found { IfOk result (λ v. (f : Film) × IsCapture bytes.now f × (v.items ≡ texts f)) }
    // The capture of some pictures shows their texts, unless memory runs out.
    ensures only { (f : Film) → IsCapture bytes.now f → Shows (λ v. v.items) result (Ok (texts f)) }
    // Which fault it is, and where.
    ensures exact { Shows (λ v. v.items) result (shown bytes.now) }
    // No memory is wanted before the head is read.
    ensures needs { IsErrOf result wholes.OutOfMemory → IsOk (head_at bytes.now) }
{
    show(alloc, bytes)
}
