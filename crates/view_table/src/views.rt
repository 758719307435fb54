// The settings of one view.
ghost use Rattle.std.specs.Prelude.{◌≡◌};
ghost use Rattle.gfx_model.specs.Views.{plain_view};
ghost use Rattle.view_table.specs.Seen.{view_seen};

use crate::clears::Clear;
use fix_math::{Affine, Rect};
use gfx_words::{Handle, ViewMode};

/// The settings of a view.
#[derive(Clone, Copy, Drop, PartialEq, Eq, Debug)]
pub struct View {
    /// The view's part of its target, in pixels; with both sides 0 it is the whole target.
    pub rect: Rect,
    /// Where draws may paint, in pixels of the target; with both sides 0 there is no scissor.
    pub scissor: Rect,
    pub clear: Clear,
    pub mode: ViewMode,
    /// A frame buffer, or the back buffer.
    pub target: Option<Handle>,
    pub transform: Affine,
}

impl View {
    /// A view as it is after a reset.
    pub fn plain() -> View
        ensures { view_seen result ≡ plain_view }
    {
        let empty = Rect {
            x: 0,
            y: 0,
            w: 0,
            h: 0,
        };
        View {
            rect: empty,
            scissor: empty,
            clear: Clear {
                flags: 0,
                color: [0; 4],
                depth: 0,
                stencil: 0,
            },
            mode: ViewMode::Default,
            target: None,
            transform: Affine::identity(),
        }
    }
}
