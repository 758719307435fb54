// The lines of a history.
ghost use Rattle.std.specs.Prelude.{◌≡◌, ◌++◌, [], map, option_map, slice_get, slice_index_or, IfOk};
ghost use Rattle.pixel_ops.specs.Seen.{pixel_seen};
ghost use Rattle.pixel_strokes.specs.Seen.{stroke_seen};
ghost use Rattle.frame_tracing.specs.Seen.{made_seen};
ghost use Rattle.trace_lines.specs.Seen.{doer_seen};
ghost use Rattle.trace_lines.specs.Numbered.{line_of, numbered_line, numbered_lines};
ghost use Rattle.scene_tracing.specs.Asked.{numbers_told};

use crate::history::History;
use frame_tracing::Made;
use pixel_ops::Pixel;
use pixel_strokes::after_stroke;
use std::alloc::{AllocError, Global};
use trace_lines::{Doer, put_line};

/// The numbers of an encoder's lines.
fn numbers_of(numbers: &[Vec<u32>], encoder: u8) -> &[u32]
    ensures { result.now ≡ slice_index_or (numbers_told numbers.now) encoder [] }
{
    match numbers.get(encoder as usize) {
        Some(lines) => lines.as_slice(),
        None => &[],
    }
}

/// The number of the line that records an encoder's item.
fn item_number(numbers: &[Vec<u32>], encoder: u8, ordinal: u32) -> Option<u32>
    ensures { result ≡ slice_get (slice_index_or (numbers_told numbers.now) encoder []) ordinal }
{
    match numbers_of(numbers, encoder).get(ordinal as usize) {
        Some(line) => Some(*line),
        None => None,
    }
}

/// The number of the line that records a deed's item.
pub(crate) fn number_of(numbers: &[Vec<u32>], doer: Option<Doer>) -> Option<u32>
    ensures { result ≡ line_of (numbers_told numbers.now) (option_map doer_seen doer) }
{
    match doer {
        Some(Doer::Item { entry, .. }) => item_number(numbers, entry.encoder, entry.ordinal),
        _ => None,
    }
}

/// Whose a deed is, where that is known.
fn doer_of(doers: &[Doer], deed: u32) -> Option<Doer>
    ensures { option_map doer_seen result ≡ slice_get (map doer_seen doers.now) deed }
{
    match doers.get(deed as usize) {
        Some(doer) => Some(*doer),
        None => None,
    }
}

/// Puts the line of a stroke.
fn put_made(
    text: &mut Vec<u8>,
    doers: &[Doer],
    numbers: &[Vec<u32>],
    pixel: &Pixel,
    made: &Made,
) -> Result<(), AllocError>
    ensures { let doer = slice_get (map doer_seen doers.now) made.now.deed in
        IfOk result (λ _. text.new.items ≡ text.old.items ++ numbered_line made.now.deed doer (line_of (numbers_told numbers.now) doer) (pixel_seen pixel.now) (stroke_seen made.now.stroke)) }
{
    let doer = doer_of(doers, made.deed);
    let line = number_of(numbers, doer);
    put_line(text, made.deed, doer, line, pixel, &made.stroke)
}

/// The [lines](../../../docs/rules/formats.md#pixel-history) of a history, one for each of its strokes. `numbers` are those of the lines of
/// the scene's text that record the frame's items, of each encoder in the order of its items; an item without a number is told without one.
///
/// # Errors
///
/// For want of memory alone.
pub fn history_lines(
    alloc: Global,
    history: &History,
    numbers: &[Vec<u32>],
) -> Result<Vec<u8>, AllocError>
    ensures { IfOk result (λ text. text.items ≡ numbered_lines (numbers_told numbers.now) (map doer_seen history.now.doers.items) (pixel_seen history.now.before) (map made_seen history.now.made.items)) }
{
    let mut text = Vec::new(alloc);
    let mut pixel = history.before;
    for made in &history.made {
        put_made(&mut text, &history.doers, numbers, &pixel, made)?;
        pixel = after_stroke(pixel, &made.stroke);
    }
    Ok(text)
}
