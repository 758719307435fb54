// How large a scene's pictures are.
ghost use Rattle.std.specs.Prelude.{◌≡◌, ◌≤◌, ◌+◌, ◌*◌, length, min, IfOk};
ghost use Rattle.scene_model.specs.Grammar.{scene_of, whole_language};
ghost use Rattle.scene_text.specs.Seen.{scene_seen};
ghost use Rattle.capture_running.specs.Filmed.{all_texts_length};
ghost use Rattle.capture_running.specs.Measured.{Measures};

use crate::status::CaptureStatus;
use scene_text::{Scene, SceneFault, read};
use std::alloc::{AllocError, Global};

/// The longest picture texts that are captured.
const LONGEST_TEXTS: usize = 134_217_728;

/// The sides of a scene's pictures, and the bytes of the texts of all of them.
#[derive(Clone, Copy, Debug, Drop)]
pub(crate) struct Size {
    pub(crate) width: u16,
    pub(crate) height: u16,
    pub(crate) texts_len: usize,
}

/// The bytes of the texts of all pictures of a scene, as far as `usize` goes.
fn texts_len(alloc: Global, scene: &Scene) -> Result<usize, AllocError>
    ensures { IfOk result (λ n. n ≡ min (all_texts_length (scene_seen scene.now)) 18446744073709551615) }
{
    let Scene { width, height, .. } = *scene;
    let head = format!(in alloc; "P6\n{width} {height}\n255\n")?;
    let pixels = usize::from(width) * usize::from(height);
    let text_len = head.len() + 3 * pixels;
    Ok(scene.frames.as_slice().len().saturating_mul(text_len))
}

/// The size of the scene of a text, or the status with which the text is refused.
pub(crate) fn measure(alloc: Global, text: &[u8]) -> Result<Size, CaptureStatus>
    requires { length text.now ≤ 16777216 }
    ensures { Measures result (scene_of whole_language text.now) }
{
    let scene = match read(alloc, text) {
        Ok(scene) => scene,
        Err(SceneFault::At { line, cause }) => return Err(CaptureStatus::Scene { line, cause }),
        Err(SceneFault::OutOfMemory) => return Err(CaptureStatus::OutOfMemory),
    };
    let texts_len = match texts_len(alloc, &scene) {
        Ok(len) => len,
        Err(_) => return Err(CaptureStatus::OutOfMemory),
    };
    if texts_len > LONGEST_TEXTS {
        return Err(CaptureStatus::TooLarge);
    }
    Ok(Size {
        width: scene.width,
        height: scene.height,
        texts_len,
    })
}
