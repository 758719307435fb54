// A mark after a stroke.
ghost use Rattle.std.specs.Prelude.{◌≡◌};
ghost use Rattle.gfx_model.specs.Number.{is_bit_set};
ghost use Rattle.pixel_ops.specs.Seen.{pixel_seen};
ghost use Rattle.pixel_strokes.specs.Seen.{fate_seen, stroke_seen};
ghost use Rattle.frame_blame.specs.Blame as blame;
ghost use Rattle.frame_blame.specs.Marks.{mark_after};

use crate::marks::Mark;
use pixel_ops::Pixel;
use pixel_strokes::{Fate, Stroke, after_stroke, fate_of};
use view_table::Clear;

/// Whether a clear takes colours.
fn takes_colors(clear: &Clear) -> bool
    ensures { result ≡ is_bit_set clear.now.flags 0 }
{
    clear.flags & 1 == 1
}

/// Whether a fate is that of a fragment that is stored.
fn stores(fate: Fate) -> bool
    ensures { result ≡ blame.stores (fate_seen fate) }
{
    match fate {
        Fate::Stored => true,
        Fate::Cleared => false,
        Fate::Masked => false,
        Fate::FailsDepth => false,
        Fate::FailsStencil => false,
    }
}

/// Whether a stroke gives its pixel a colour.
fn gives_color(pixel: &Pixel, stroke: &Stroke) -> bool
    ensures { result ≡ blame.gives_color (pixel_seen pixel.now) (stroke_seen stroke.now) }
{
    match stroke {
        Stroke::Clear(clear) => takes_colors(clear),
        Stroke::Fragment(_) => stores(fate_of(pixel, stroke)),
    }
}

/// A mark after a stroke of a deed, whose number is counted from 1.
pub(crate) fn mark_after(number: u32, mark: Mark, stroke: &Stroke) -> Mark
    ensures { result ≡ mark_after number mark (stroke_seen stroke.now) }
{
    let pixel = Pixel {
        color: [0; 4],
        depth: mark.depth,
    };
    let deed = if gives_color(&pixel, stroke) {
        number
    } else {
        mark.deed
    };
    Mark {
        depth: after_stroke(pixel, stroke).depth,
        deed,
    }
}
