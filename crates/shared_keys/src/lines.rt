// The lines of a frame.
ghost use Rattle.std.specs.Prelude.{◌≡◌, ◌++◌, ℕ, map, take, MatchResult};
ghost use Rattle.shared_keys.specs.Lines.{shared_line, frame_lines};
ghost use Rattle.shared_keys.specs.Marks.{shared_seen};

use crate::marks::SharedView;
use std::alloc::{AllocError, Global};

/// Puts the line of a view behind others: `frame K view V encoders A B`.
fn push_line(
    alloc: Global,
    lines: &mut Vec<u8>,
    frame: usize,
    shared: &SharedView,
) -> Result<(), AllocError>
    ensures { MatchResult result
        (λ _. lines.new.items ≡ lines.old.items ++ shared_line frame (shared_seen shared.now))
        (λ _. lines.new.items ≡ lines.old.items) }
{
    let SharedView {
        view,
        first,
        second,
    } = *shared;
    let line = format!(in alloc; "frame {frame} view {view} encoders {first} {second}\n")?;
    lines.extend_from_slice(line.as_bytes())?;
    Ok(())
}

/// Puts the lines of a frame behind others, one for each of its shared views. `Err` only for want of memory; then the lines of
/// the first views are there.
pub fn push_lines(
    alloc: Global,
    lines: &mut Vec<u8>,
    frame: usize,
    shared: &[SharedView],
) -> Result<(), AllocError>
    ensures { MatchResult result
        (λ _. lines.new.items ≡ lines.old.items ++ frame_lines frame (map shared_seen shared.now))
        (λ _. (j : ℕ) × (lines.new.items ≡ lines.old.items ++ frame_lines frame (map shared_seen (take j shared.now)))) }
{
    for view in shared {
        push_line(alloc, lines, frame, view)?;
    }
    Ok(())
}
