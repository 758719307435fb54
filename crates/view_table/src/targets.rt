// Which targets views keep.
ghost use Rattle.std.specs.Prelude.{◌≡◌, Bool, map};
ghost use Rattle.gfx_model.specs.Words.{Handle};
ghost use Rattle.view_table.specs.Seen.{view_seen};
ghost use Rattle.view_table.specs.Targets.{with_target_kept};

use crate::View;
use gfx_words::Handle;

/// A test of the targets of views; it refuses those of frame buffers that are gone.
pub trait LiveTargets {
    /// Whether a view may keep a target.
    ghost is_kept: { Self → Handle → Bool };

    /// Whether a view may keep this target.
    fn keeps(&self, target: Handle) -> bool
        ensures { result ≡ is_kept self.now target };
}

// takes away the target of one view where the test refuses it
fn keep_target<T: LiveTargets>(view: &mut View, test: &T)
    ensures { view_seen view.new ≡ with_target_kept (T.is_kept test.now) (view_seen view.old) }
{
    if let Some(target) = view.target {
        if !test.keeps(target) {
            view.target = None;
        }
    }
}

/// Takes away the targets that the test refuses.
pub fn keep_targets<T: LiveTargets>(settings: &mut [View], test: &T)
    ensures { map view_seen settings.new ≡ map (with_target_kept (T.is_kept test.now)) (map view_seen settings.old) }
{
    for at in 0..settings.len() {
        keep_target(&mut settings[at], test);
    }
}
