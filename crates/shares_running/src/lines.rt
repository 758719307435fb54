// The lines of a scene.
ghost use Rattle.std.specs.Prelude.{◌≡◌, IfOk};
ghost use Rattle.shares_running.specs.Listed.{lists_seen, lines_of};

use shared_keys::{SharedView, push_lines};
use std::alloc::{AllocError, Global};

/// The lines of lists of views, one list for each frame from the first on: `frame K view V encoders A B`.
pub(crate) fn lines_of(alloc: Global, lists: &[Vec<SharedView>]) -> Result<Vec<u8>, AllocError>
    ensures { IfOk result (λ lines. lines.items ≡ lines_of 0 (lists_seen lists.now)) }
{
    let mut lines = Vec::new(alloc);
    for (number, views) in lists.iter().enumerate() {
        push_lines(alloc, &mut lines, number, views.as_slice())?;
    }
    Ok(lines)
}
