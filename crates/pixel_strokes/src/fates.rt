// What becomes of a stroke.
ghost use Rattle.std.specs.Prelude.{◌≡◌, ◌<◌, ◌≤◌, ◌^◌};
ghost use Rattle.pixel_ops.specs.Seen.{pixel_seen};
ghost use Rattle.trace_laws.specs.History as history;
ghost use Rattle.pixel_strokes.specs.Seen.{fate_seen, stroke_seen};

use crate::strokes::Stroke;
use gfx_words::{StateWord, StencilWord};
use pixel_ops::{Pixel, depth_test, passes_stencil};

/// What becomes of a stroke on a pixel.
#[derive(Clone, Copy, Drop)]
pub enum Fate {
    /// A clear, which never fails.
    Cleared,
    /// The fragment passes both tests, and is stored in the channels of the write mask.
    Stored,
    /// It passes both tests, and the write mask has no channel.
    Masked,
    /// It passes the stencil test, and the depth test fails.
    FailsDepth,
    /// The stencil test fails.
    FailsStencil,
}

fn passed(state: &StateWord) -> Fate
    ensures { fate_seen result ≡ history.passed_fate state.now }
{
    if state.write_mask() == 0 {
        Fate::Masked
    } else {
        Fate::Stored
    }
}

fn tested(stored: u32, stencil: u8, depth: u32, state: &StateWord, word: &StencilWord) -> Fate
    ensures { fate_seen result ≡ history.tested_fate stored stencil depth state.now word.now }
{
    if !passes_stencil(word, stencil) {
        return Fate::FailsStencil;
    }
    if !depth_test(state.depth_test(), depth, stored) {
        return Fate::FailsDepth;
    }
    passed(state)
}

fn fragment_fate(pixel: Option<u32>, depth: u32, state: &StateWord, word: &StencilWord) -> Fate
    ensures { fate_seen result ≡ history.fragment_fate pixel depth state.now word.now }
{
    match pixel {
        None => passed(state),
        Some(stored) => tested(stored & 0xff_ffff, (stored >> 24) as u8, depth, state, word),
    }
}

/// What becomes of a stroke on a pixel as it was before. The stencil test comes first.
pub fn fate_of(pixel: &Pixel, stroke: &Stroke) -> Fate
    ensures { fate_seen result ≡ history.fate_of (pixel_seen pixel.now) (stroke_seen stroke.now) }
{
    match stroke {
        Stroke::Clear(_) => Fate::Cleared,
        Stroke::Fragment(fragment) => fragment_fate(
            pixel.depth,
            fragment.shaded.depth,
            &fragment.state,
            &fragment.stencil,
        ),
    }
}
