// What makes strokes: a clear, or a triangle of a draw.
ghost use Rattle.std.specs.Prelude.{◌≡◌, ◌≤◌, ◌<◌, ◌+◌, ◌&&◌, nat_le, nat_lt, ℕ, true};
ghost use Rattle.pixel_strokes.specs.Seen.{stroke_seen};
ghost use Rattle.frame_blame.specs.Brushes.{brush_covers, tip_covers, tip_stroke};

use fix_math::Rect;
use gfx_words::{StateWord, StencilWord};
use pixel_ops::Shaded;
use pixel_strokes::{FragmentStroke, Stroke};
use tri_cover::Setup;
use view_table::Clear;

/// A triangle of a draw, with the words by which its fragments are tested and stored.
#[derive(Clone, Copy)]
pub(crate) struct Patch {
    pub(crate) setup: Setup,
    pub(crate) state: StateWord,
    pub(crate) stencil: StencilWord,
}

/// What a brush paints with.
#[derive(Clone, Copy)]
pub(crate) enum Tip {
    Clear(Clear),
    Triangle(Patch),
}

/// A clear or a triangle, within a rectangle.
#[derive(Clone, Copy)]
pub(crate) struct Brush {
    pub(crate) cut: Rect,
    pub(crate) tip: Tip,
}

/// A part of a side: from where to where it goes, at most to the end of the side.
fn side(start: u16, length: u16, end: u16) -> (u16, u16)
    ensures part { (x : ℕ) → x < end → (nat_le result.0 x && nat_lt x result.1) ≡ (nat_le start x && nat_lt x (start + length)) }
    ensures within { result.1 ≤ end }
{
    let after = (start as u32 + length as u32).min(end as u32);
    (start, after as u16)
}

impl Tip {
    /// The columns of a row, of so many, that the tip covers.
    fn columns(&self, row: u16, width: u16) -> (u16, u16)
        ensures part { (x : ℕ) → x < width → (nat_le result.0 x && nat_lt x result.1) ≡ tip_covers self.now x row }
        ensures within { result.1 ≤ width }
    {
        match self {
            Tip::Clear(_) => (0, width),
            Tip::Triangle(patch) => patch.setup.span(row, width),
        }
    }

    /// The rows, of so many, between which the tip covers pixels.
    fn rows(&self, height: u16) -> (u16, u16)
        ensures covered { (x y : ℕ) → y < height → tip_covers self.now x y ≡ true → (result.0 ≤ y) × (y < result.1) }
        ensures within { result.1 ≤ height }
    {
        match self {
            Tip::Clear(_) => (0, height),
            Tip::Triangle(patch) => patch.setup.rows(height),
        }
    }

    /// The stroke at a pixel that the tip covers, without its colour.
    pub(crate) fn stroke(&self, x: u16, y: u16) -> Stroke
        requires { tip_covers self.now x y ≡ true }
        ensures { stroke_seen result ≡ tip_stroke self.now x y }
    {
        match self {
            Tip::Clear(clear) => Stroke::Clear(*clear),
            Tip::Triangle(patch) => {
                let fragment = patch.setup.at(x, y);
                let shaded = Shaded {
                    color: [0; 4],
                    depth: fragment.depth,
                };
                Stroke::Fragment(FragmentStroke {
                    triangle: 0,
                    state: patch.state,
                    stencil: patch.stencil,
                    shaded,
                })
            }
        }
    }
}

impl Brush {
    /// The columns of a row of the cut, of so many, that the brush covers.
    pub(crate) fn columns(&self, row: u16, width: u16) -> (u16, u16)
        requires { (nat_le self.now.cut.y row && nat_lt row (self.now.cut.y + self.now.cut.h)) ≡ true }
        ensures part { (x : ℕ) → x < width → (nat_le result.0 x && nat_lt x result.1) ≡ brush_covers self.now x row }
        ensures within { result.1 ≤ width }
    {
        let (from, to) = side(self.cut.x, self.cut.w, width);
        let (first, after) = self.tip.columns(row, width);
        (from.max(first), to.min(after))
    }

    /// The rows, of so many, that the brush may cover.
    pub(crate) fn rows(&self, height: u16) -> (u16, u16)
        ensures covered { (x y : ℕ) → y < height → brush_covers self.now x y ≡ true → (result.0 ≤ y) × (y < result.1) }
        ensures cut { (y : ℕ) → result.0 ≤ y → y < result.1 → (nat_le self.now.cut.y y && nat_lt y (self.now.cut.y + self.now.cut.h)) ≡ true }
        ensures within { result.1 ≤ height }
    {
        let (from, to) = side(self.cut.y, self.cut.h, height);
        let (first, after) = self.tip.rows(height);
        (from.max(first), to.min(after))
    }
}
