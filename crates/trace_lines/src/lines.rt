// The line of a stroke.
ghost use Rattle.std.specs.Prelude.{◌≡◌, ◌++◌, option_map, codes, IfOk};
ghost use Rattle.std.specs.Fmt.{decimal};
ghost use Rattle.pixel_ops.specs.Seen.{pixel_seen};
ghost use Rattle.pixel_strokes.specs.Seen.{stroke_seen};
ghost use Rattle.trace_laws.specs.Text.{doer_text, stroke_text};
ghost use Rattle.trace_laws.specs.History as history;
ghost use Rattle.trace_lines.specs.Numbered.{numbered_line};
ghost use Rattle.trace_lines.specs.Seen.{change_text, doer_seen};

use crate::doers::Doer;
use crate::text::{fate_word, put_doer, put_line_number, put_number, put_pixel, put_stroke};
use pixel_ops::Pixel;
use pixel_strokes::{Stroke, after_stroke, fate_of};
use std::alloc::AllocError;

/// Puts what stood before a stroke, what stands after it, and what became of it.
fn put_change(text: &mut Vec<u8>, pixel: &Pixel, stroke: &Stroke) -> Result<(), AllocError>
    ensures { IfOk result (λ _. text.new.items ≡ text.old.items ++ change_text (pixel_seen pixel.now) (stroke_seen stroke.now)) }
{
    text.extend_from_slice(b" was ")?;
    put_pixel(text, pixel)?;
    text.extend_from_slice(b" is ")?;
    put_pixel(text, &after_stroke(*pixel, stroke))?;
    text.extend_from_slice(b" ")?;
    text.extend_from_slice(fate_word(fate_of(pixel, stroke)))?;
    text.extend_from_slice(b"\n")?;
    Ok(())
}

/// Puts the line of a stroke of a deed on a pixel behind others: `deed N`, whose the deed is where that is known (` view V`, and of an item
/// ` encoder E item I`), the number of the line of the scene's text that records it where that is known (` line L`), ` clear` or
/// ` triangle T color C depth D`, ` was` and ` is` with the pixel before and after it (its colour as eight hexadecimal digits, its depth and
/// its stencil), and what became of it. `Err` only for want of memory.
pub fn put_line(
    text: &mut Vec<u8>,
    deed: u32,
    doer: Option<Doer>,
    line: Option<u32>,
    pixel: &Pixel,
    stroke: &Stroke,
) -> Result<(), AllocError>
    ensures { IfOk result (λ _. text.new.items ≡ text.old.items ++ numbered_line deed (option_map doer_seen doer) line (pixel_seen pixel.now) (stroke_seen stroke.now)) }
{
    text.extend_from_slice(b"deed ")?;
    put_number(text, deed as u64)?;
    put_doer(text, doer)?;
    put_line_number(text, line)?;
    put_stroke(text, stroke)?;
    put_change(text, pixel, stroke)
}
