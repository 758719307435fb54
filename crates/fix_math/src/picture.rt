// Texels in memory.
ghost use Rattle.std.specs.Prelude.{◌≡◌, ◌≤◌, ◌<◌, ◌*◌, ◌==◌, length};
ghost use Rattle.gfx_model.specs.Raster.{wrapped as wrapped_place};

use std::alloc::{AllocError, Global};
use std::marker::Model;

/// A list of texels of four bytes.
#[derive(Drop)]
pub struct TexelList {
    items: Vec<[u8; 4]>,
}

impl Model for TexelList {
    ghost use Rattle.std.specs.Prelude.{List, ℕ};

    ghost Value = { List (List ℕ) };

    ghost view = { λ s. s.items.items };
}

impl TexelList {
    /// The texels of a `Vec`.
    pub fn from_vec(items: Vec<[u8; 4]>) -> TexelList
        ensures { result ≡ items.items }
    {
        TexelList { items }
    }

    /// How many texels there are.
    pub fn len(&self) -> usize
        ensures { result ≡ length self.now }
    {
        self.items.len()
    }

    /// Whether there are none.
    pub fn is_empty(&self) -> bool
        ensures { result ≡ (length self.now == 0) }
    {
        self.items.is_empty()
    }

    /// The texels, for reading.
    pub fn as_slice(&self) -> &[[u8; 4]]
        ensures { result.now ≡ self.now }
    {
        self.items.as_slice()
    }

    ghost use Rattle.std.specs.Borrow.{sem};
    ghost use Rattle.fix_math.specs.Lending.{LendsTexels};

    /// The texels, for writing.
    pub fn as_mut_slice(&mut self) -> &mut [[u8; 4]]
        ensures* writes_back { sem 𝓛 (LendsTexels self.entry result) }
        ensures value { result.now ≡ self.old }
    {
        self.items.as_mut_slice()
    }
}

/// Texels row by row from the top. Both sides are 1 to 2,048.
#[derive(Drop)]
pub struct Texels {
    pub width: u16,
    pub height: u16,
    pub texels: TexelList,
    pub ghost wide: { 1 ≤ width },
    pub ghost high: { 1 ≤ height },
    pub ghost narrow: { width ≤ 2048 },
    pub ghost low: { height ≤ 2048 },
    pub ghost whole: { length texels ≡ width * height },
}

/// The column or the row, of `n`, at a texture position of 1/65536. Positions beyond one unit repeat the texture.
fn wrapped(u: i32, n: u16) -> u16
    requires some { 1 ≤ n }
    requires few { n ≤ 2048 }
    ensures place { result ≡ wrapped_place u n }
    ensures within { result < n }
{
    (u as i64 * n as i64).div_euclid(65536).rem_euclid(n as i64) as u16
}

impl Texels {
    ghost use Rattle.std.specs.Prelude.{replicate, IfOk};
    ghost use Rattle.gfx_model.specs.Raster as model;
    ghost use Rattle.fix_math.specs.Seen.{texels_seen};

    /// The texels of a width and a height.
    pub fn from_parts(width: u16, height: u16, texels: TexelList) -> Texels
        requires wide { 1 ≤ width }
        requires high { 1 ≤ height }
        requires narrow { width ≤ 2048 }
        requires low { height ≤ 2048 }
        requires whole { length texels ≡ width * height }
        ensures width { result.width ≡ width }
        ensures height { result.height ≡ height }
        ensures texels { result.texels ≡ texels }
    {
        Texels {
            width,
            height,
            texels,
        }
    }

    /// The texels of a width and a height, all of one colour.
    pub fn filled(
        alloc: Global,
        width: u16,
        height: u16,
        color: [u8; 4],
    ) -> Result<Texels, AllocError>
        requires wide { 1 ≤ width }
        requires high { 1 ≤ height }
        requires narrow { width ≤ 2048 }
        requires low { height ≤ 2048 }
        ensures { IfOk result (λ t. (t.width ≡ width) × (t.height ≡ height) × (t.texels ≡ replicate (width * height) color)) }
    {
        let count = width as usize * height as usize;
        let texels = TexelList {
            items: vec![in alloc; color; count]?,
        };
        Ok(Texels {
            width,
            height,
            texels,
        })
    }

    /// The texel at a texture position, in units of 1/65536 of each side. Row 0 is the top.
    pub fn sample(&self, u: i32, v: i32) -> [u8; 4]
        ensures { result ≡ model.sample (texels_seen self.now) u v }
    {
        let x = wrapped(u, self.width);
        let y = wrapped(v, self.height);
        self.texels.as_slice()[y as usize * self.width as usize + x as usize]
    }
}
