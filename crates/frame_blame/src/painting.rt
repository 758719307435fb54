// Marks after a brush.
ghost use Rattle.std.specs.Prelude.{◌≡◌, ◌<◌, ◌+◌, ◌*◌, ◌&&◌, nat_le, nat_lt, true, length};
ghost use Rattle.frame_blame.specs.Brushes.{brushed, in_row};
ghost use Rattle.frame_blame.specs.Marks.{Changes};

use crate::brushes::Brush;
use crate::marks::Mark;
use crate::strokes::mark_after;

/// The place of a pixel.
fn place(x: u16, y: u16, width: u16) -> usize
    ensures { result ≡ y * width + x }
{
    y as usize * width as usize + x as usize
}

/// Marks the pixels of a row that a brush covers.
fn paint_row(marks: &mut [Mark], width: u16, height: u16, brush: &Brush, number: u32, y: u16)
    requires whole { length marks.old ≡ width * height }
    requires row { y < height }
    requires cut { (nat_le brush.now.cut.y y && nat_lt y (brush.now.cut.y + brush.now.cut.h)) ≡ true }
    ensures { Changes width height (in_row y (brushed number brush.now)) marks.old marks.new }
{
    let (from, to) = brush.columns(y, width);
    for x in from..to {
        let at = place(x, y, width);
        let stroke = brush.tip.stroke(x, y);
        let next = mark_after(number, marks[at], &stroke);
        marks[at] = next;
    }
}

/// Marks the pixels that a brush covers.
pub(crate) fn paint(marks: &mut [Mark], width: u16, height: u16, brush: &Brush, number: u32)
    requires { length marks.old ≡ width * height }
    ensures { Changes width height (brushed number brush.now) marks.old marks.new }
{
    let (from, to) = brush.rows(height);
    for y in from..to {
        paint_row(marks, width, height, brush, number, y);
    }
}
