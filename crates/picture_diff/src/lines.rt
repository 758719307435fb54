// The lines of frames.
ghost use Rattle.std.specs.Prelude.{◌≡◌, ◌++◌, IfOk};
ghost use Rattle.picture_diff.specs.Lines.{counts_text, frame_line, frame_lines, spread_text};

use crate::difference::{Difference, Spread};
use std::alloc::{AllocError, Global};

/// The numbers of a line, behind others.
fn push_counts(
    alloc: Global,
    lines: &mut Vec<u8>,
    frame: usize,
    difference: &Difference,
) -> Result<(), AllocError>
    ensures { IfOk result (λ _. lines.new.items ≡ lines.old.items ++ counts_text frame difference.now) }
{
    let Difference {
        pixels,
        differ,
        most,
        ..
    } = *difference;
    let text = format!(in alloc; "frame {frame} pixels {pixels} differ {differ} most {most}")?;
    lines.extend_from_slice(text.as_bytes())?;
    Ok(())
}

/// The first place and the box, behind others.
fn push_spread(
    alloc: Global,
    lines: &mut Vec<u8>,
    spread: &Option<Spread>,
) -> Result<(), AllocError>
    ensures { IfOk result (λ _. lines.new.items ≡ lines.old.items ++ spread_text spread.now) }
{
    let Some(spread) = spread else {
        return Ok(());
    };
    let Spread {
        first,
        left,
        top,
        right,
        bottom,
    } = *spread;
    let (x, y) = (first.x, first.y);
    let text = format!(in alloc; " first {x} {y} within {left} {top} {right} {bottom}")?;
    lines.extend_from_slice(text.as_bytes())?;
    Ok(())
}

/// The line of a frame, behind others.
fn push_line(
    alloc: Global,
    lines: &mut Vec<u8>,
    frame: usize,
    difference: &Difference,
) -> Result<(), AllocError>
    ensures { IfOk result (λ _. lines.new.items ≡ lines.old.items ++ frame_line frame difference.now) }
{
    push_counts(alloc, lines, frame, difference)?;
    push_spread(alloc, lines, &difference.spread)?;
    lines.push(b'\n')?;
    Ok(())
}

/// A line for each frame, counted from 0: `frame K pixels P differ D most M`, and where a pixel differs
/// ` first X Y within LEFT TOP RIGHT BOTTOM`.
///
/// # Errors
///
/// `AllocError` for want of memory alone.
pub fn lines_of(alloc: Global, differences: &[Difference]) -> Result<Vec<u8>, AllocError>
    ensures { IfOk result (λ text. text.items ≡ frame_lines 0 differences.now) }
{
    let mut lines = Vec::new(alloc);
    for frame in 0..differences.len() {
        push_line(alloc, &mut lines, frame, &differences[frame])?;
    }
    Ok(lines)
}
