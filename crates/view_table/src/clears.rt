// What entering a view clears.
ghost use Rattle.std.specs.Prelude.{◌≤◌};

/// What entering a view clears: flag 1 the colour, 2 the depth, 4 the stencil.
#[derive(Clone, Copy, Drop, PartialEq, Eq, Debug)]
pub struct Clear {
    /// 0 to 7.
    pub flags: u8,
    /// Red, green, blue and alpha.
    pub color: [u8; 4],
    /// 0 to 16,777,215.
    pub depth: u32,
    pub stencil: u8,
    pub ghost shallow: { depth ≤ 16777215 },
}
