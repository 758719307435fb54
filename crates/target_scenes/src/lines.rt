// The lines of the history of a frame buffer's pixel.
ghost use Rattle.std.specs.Prelude.{◌≡◌, ◌++◌, [], map, option_map, slice_get, slice_index_or, IfOk};
ghost use Rattle.pixel_ops.specs.Seen.{pixel_seen};
ghost use Rattle.trace_lines.specs.Seen.{doer_seen};
ghost use Rattle.trace_lines.specs.Numbered.{line_of};
ghost use Rattle.scene_tracing.specs.Asked.{numbers_told};
ghost use Rattle.target_laws.specs.Targets as targets;
ghost use Rattle.target_tracing.specs.Seen.{target_made_seen, target_stroke_seen};
ghost use Rattle.target_scenes.specs.Numbered.{left_text, numbered_target_line, numbered_target_lines};

use pixel_ops::Pixel;
use pixel_strokes::after_stroke;
use std::alloc::{AllocError, Global};
use target_tracing::{TargetHistory, TargetMade, TargetStroke};
use trace_lines::{Doer, put_doer, put_line, put_line_number, put_number, put_pixel};

/// Puts what stood before a deed, and what it leaves.
fn put_change(text: &mut Vec<u8>, before: &Pixel, after: &Pixel) -> Result<(), AllocError>
    ensures { IfOk result (λ _. text.new.items ≡ text.old.items ++ left_text (pixel_seen before.now) (pixel_seen after.now)) }
{
    text.extend_from_slice(b" was ")?;
    put_pixel(text, before)?;
    text.extend_from_slice(b" is ")?;
    put_pixel(text, after)?;
    text.extend_from_slice(b" changed\n")?;
    Ok(())
}

/// Puts the line of a deed that leaves a pixel in place of another.
fn put_left(
    text: &mut Vec<u8>,
    deed: u32,
    doer: Option<Doer>,
    line: Option<u32>,
    before: &Pixel,
    after: &Pixel,
) -> Result<(), AllocError>
    ensures { IfOk result (λ _. text.new.items ≡ text.old.items ++ numbered_target_line deed (option_map doer_seen doer) line (pixel_seen before.now) (targets.left_stroke (pixel_seen after.now))) }
{
    text.extend_from_slice(b"deed ")?;
    put_number(text, deed as u64)?;
    put_doer(text, doer)?;
    put_line_number(text, line)?;
    put_change(text, before, after)
}

/// Puts the line of a stroke of a deed on a pixel.
fn put_stroke(
    text: &mut Vec<u8>,
    deed: u32,
    doer: Option<Doer>,
    line: Option<u32>,
    pixel: &Pixel,
    stroke: &TargetStroke,
) -> Result<(), AllocError>
    ensures { IfOk result (λ _. text.new.items ≡ text.old.items ++ numbered_target_line deed (option_map doer_seen doer) line (pixel_seen pixel.now) (target_stroke_seen stroke.now)) }
{
    match stroke {
        TargetStroke::Own(stroke) => put_line(text, deed, doer, line, pixel, stroke),
        TargetStroke::Left(after) => put_left(text, deed, doer, line, pixel, after),
    }
}

/// The pixel after a stroke.
fn after_target_stroke(pixel: Pixel, stroke: &TargetStroke) -> Pixel
    ensures { pixel_seen result ≡ targets.after_target_stroke (pixel_seen pixel) (target_stroke_seen stroke.now) }
{
    match stroke {
        TargetStroke::Own(stroke) => after_stroke(pixel, stroke),
        TargetStroke::Left(after) => *after,
    }
}

/// The numbers of an encoder's lines.
fn numbers_of(numbers: &[Vec<u32>], encoder: u8) -> &[u32]
    ensures { result.now ≡ slice_index_or (numbers_told numbers.now) encoder [] }
{
    match numbers.get(encoder as usize) {
        Some(lines) => lines.as_slice(),
        None => &[],
    }
}

/// The number of the line that records an encoder's item.
fn item_number(numbers: &[Vec<u32>], encoder: u8, ordinal: u32) -> Option<u32>
    ensures { result ≡ slice_get (slice_index_or (numbers_told numbers.now) encoder []) ordinal }
{
    match numbers_of(numbers, encoder).get(ordinal as usize) {
        Some(line) => Some(*line),
        None => None,
    }
}

/// The number of the line that records a deed's item.
fn number_of(numbers: &[Vec<u32>], doer: Option<Doer>) -> Option<u32>
    ensures { result ≡ line_of (numbers_told numbers.now) (option_map doer_seen doer) }
{
    match doer {
        Some(Doer::Item { entry, .. }) => item_number(numbers, entry.encoder, entry.ordinal),
        _ => None,
    }
}

/// Whose a deed is, where that is known.
fn doer_of(doers: &[Doer], deed: u32) -> Option<Doer>
    ensures { option_map doer_seen result ≡ slice_get (map doer_seen doers.now) deed }
{
    match doers.get(deed as usize) {
        Some(doer) => Some(*doer),
        None => None,
    }
}

/// Puts the line of a stroke with its deed.
fn put_made(
    text: &mut Vec<u8>,
    doers: &[Doer],
    numbers: &[Vec<u32>],
    pixel: &Pixel,
    made: &TargetMade,
) -> Result<(), AllocError>
    ensures { let doer = slice_get (map doer_seen doers.now) made.now.deed in
        IfOk result (λ _. text.new.items ≡ text.old.items ++ numbered_target_line made.now.deed doer (line_of (numbers_told numbers.now) doer) (pixel_seen pixel.now) (target_stroke_seen made.now.stroke)) }
{
    let doer = doer_of(doers, made.deed);
    let line = number_of(numbers, doer);
    put_stroke(text, made.deed, doer, line, pixel, &made.stroke)
}

/// The [lines](../../../docs/rules/formats.md#pixel-history) of the history of a frame buffer's pixel, one for each of its strokes. `numbers`
/// are those of the lines of the scene's text that record the frame's items, of each encoder in the order of its items; an item without a
/// number is told without one.
///
/// # Errors
///
/// For want of memory alone.
pub fn target_history_lines(
    alloc: Global,
    history: &TargetHistory,
    numbers: &[Vec<u32>],
) -> Result<Vec<u8>, AllocError>
    ensures { IfOk result (λ text. text.items ≡ numbered_target_lines (numbers_told numbers.now) (map doer_seen history.now.doers.items) (pixel_seen history.now.before) (map target_made_seen history.now.made.items)) }
{
    let mut text = Vec::new(alloc);
    let mut pixel = history.before;
    for made in &history.made {
        put_made(&mut text, &history.doers, numbers, &pixel, made)?;
        pixel = after_target_stroke(pixel, &made.stroke);
    }
    Ok(text)
}
