// What is cleared of a surface before its draws.
ghost use Rattle.std.specs.Prelude.{◌≤◌};

use fix_math::Rect;

/// A rectangle of a surface that is cleared: flag 1 its colours, 2 its depths, 4 its stencils. What of it lies past the surface is no
/// matter.
#[derive(Clone, Copy, Drop, PartialEq, Eq, Debug)]
pub struct Wipe {
    pub cut: Rect,
    /// 0 to 7.
    pub flags: u8,
    /// Red, green, blue and alpha.
    pub color: [u8; 4],
    /// 0 to 16,777,215.
    pub depth: u32,
    pub stencil: u8,
    pub ghost shallow: { depth ≤ 16777215 },
}
