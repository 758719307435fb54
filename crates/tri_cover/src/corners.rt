// A triangle's corners and its fragments.
ghost use Rattle.std.specs.Prelude.{◌≤◌, ◌^◌, unsigned_abs};

/// A vertex on the target: x and y in units of 1/256 pixel, y down, and the depth from 0 to 16,777,215.
#[derive(Clone, Copy)]
pub struct ScreenVertex {
    pub x: i32,
    pub y: i32,
    pub depth: u32,
    pub color: [u8; 4],
    pub texcoord: [i32; 2],
    pub ghost near_x: { unsigned_abs x ≤ 2 ^ 27 },
    pub ghost near_y: { unsigned_abs y ≤ 2 ^ 27 },
    pub ghost deep: { depth ≤ 16777215 },
}

/// What a triangle has at a pixel that it covers. The depth is at most 16,777,215.
#[derive(Clone, Copy)]
pub struct Fragment {
    pub depth: u32,
    pub color: [u8; 4],
    pub texcoord: [i32; 2],
    pub ghost deep: { depth ≤ 16777215 },
}
