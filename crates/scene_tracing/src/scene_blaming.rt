// To which deed of a frame of a scene each pixel is due.
ghost use Rattle.std.specs.Prelude.{◌≡◌, ◌<◌, length, IfOk};
ghost use Rattle.spelling_model.specs.Readable.{IsReadable};
ghost use Rattle.scene_text.specs.Bounds.{IsBounded};
ghost use Rattle.scene_text.specs.Seen.{scene_seen};
ghost use Rattle.scene_playing.specs.Order.{order_seen};
ghost use Rattle.scene_tracing.specs.Asked.{journal_asked};
ghost use Rattle.scene_tracing.specs.Blame.{scene_blame_text};

use crate::asked::AskedFrame;
use crate::blaming_link::BlamingLink;
use frame_blame::laws::blame_law;
use frame_blame::numbers_text;
use scene_laws::colors_law;
use scene_playing::play_here;
use scene_text::{Journal, Scene};
use scene_traces::laws::{gathered_doers_law, scene_traced_law};
use std::alloc::{AllocError, Global};

/// The text of a picture whose pixels are numbers: of each pixel of a frame of a scene that of the deed that gave it its colour last, counted
/// from 1, in three bytes; 0 where none did. The frames before it are rendered; the items of each frame are recorded in the order of the
/// journal, or where none is given one encoder after another. This thread alone records and renders.
///
/// The scene is one that was read, or keeps the same bounds; it has the frame.
///
/// # Errors
///
/// For want of memory, or where three bytes do not tell a deed's number.
pub fn scene_blame(
    alloc: Global,
    scene: &Scene,
    order: Option<&Journal>,
    frame: u32,
) -> Result<Vec<u8>, AllocError>
    requires readable { IsReadable (scene_seen scene.now) }
    requires bounded { IsBounded (scene_seen scene.now) }
    requires frame { frame < length scene.now.frames }
    ensures { let s = scene_seen scene.now in IfOk result (λ text. text.items ≡ scene_blame_text s (journal_asked s (order_seen order.entry)) frame) }
{
    scene_traced_law();
    gathered_doers_law();
    colors_law();
    blame_law();
    let asked = AskedFrame {
        width: scene.width,
        height: scene.height,
        frame,
    };
    let link = BlamingLink::new(alloc, scene.latency, asked)?;
    let played = play_here(alloc, order, scene, link);
    match played.link.into_blamed() {
        Some(blamed) => numbers_text(
            alloc,
            blamed.width,
            blamed.height,
            blamed.numbers.as_slice(),
        ),
        None => Err(AllocError),
    }
}
