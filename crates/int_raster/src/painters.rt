// Colours and depths of a triangle's pixels, by ramps.
ghost use Rattle.std.specs.Prelude.{◌≡◌, ◌<◌, ◌≤◌, ◌/◌, ◌^◌, ◌%◌, ◌+◌, ◌*◌, ℕ, pos, true, slice_index, IfSome, IsTrue};
ghost use Rattle.gfx_model.specs.Raster.{covers, fragment_at, weighted};
ghost use Rattle.gfx_model.specs.World as world;
ghost use Rattle.tri_cover.specs.Slope.{ramp_at, IsSamePlace};
ghost use Rattle.tri_cover.specs.Widened.{wide_at};
ghost use Rattle.tri_cover.specs.Stepped.{AreSteps, IsNearby};
ghost use Rattle.tri_cover.specs.Shown.{setup_seen};
ghost use Rattle.int_raster.specs.Seen.{paint_seen};
ghost use Rattle.int_raster.specs.Painted.{place_at, shade_at, depth_at, painter_color, AreSamePlaces, bytes_of, Paints, HasDepths, HasWideDepths, IsOpaque};

use crate::lanes::word_of;
use crate::lists::{Paint, Prepared};
use fix_math::Texels;
use gfx_words::StateWord;
use tri_cover::{Ramp, Setup, Steps, WideRamp};

/// The four channels of the vertices' colours.
#[derive(Clone, Copy)]
pub(crate) struct Shade {
    pub red: Ramp,
    pub green: Ramp,
    pub blue: Ramp,
    pub alpha: Ramp,
}

/// The two texture positions of the vertices, modulo one unit.
#[derive(Clone, Copy)]
pub(crate) struct Place {
    pub u: WideRamp,
    pub v: WideRamp,
}

/// What paints a triangle's pixels.
#[derive(Clone, Copy)]
pub(crate) enum Painter<'x> {
    Solid([u8; 4]),
    Vertex(Shade),
    Texture(&'x Texels, Place),
    TexColor(&'x Texels, Place, Shade),
}

/// What draws a triangle's pixels with their depths: the depths in 128 bits, and in 64 bits where these are enough.
#[derive(Clone, Copy)]
pub(crate) struct Brush<'x> {
    pub painter: Painter<'x>,
    pub depth: WideRamp,
    pub short: Option<Ramp>,
}

/// The value of a ramp at a column and a row.
pub(crate) fn value_at(ramp: &Ramp, x: u16, y: u16) -> u64
    ensures { result ≡ ramp_at ramp.now x y }
{
    ramp.start
        .wrapping_add((x as u64).wrapping_mul(ramp.right))
        .wrapping_add((y as u64).wrapping_mul(ramp.down))
}

/// The value of a wide ramp at a column and a row.
pub(crate) fn wide_value_at(ramp: &WideRamp, x: u16, y: u16) -> u128
    ensures { result ≡ wide_at ramp.now x y }
{
    ramp.start
        .wrapping_add((x as u128).wrapping_mul(ramp.right))
        .wrapping_add((y as u128).wrapping_mul(ramp.down))
}

fn shade_for(setup: &Setup, steps: &Steps) -> Option<Shade>
    requires { AreSteps steps.now (setup_seen setup.now).triangle }
    ensures { IfSome result (λ s. (x y : ℕ) → IsNearby steps.now x y → covers (setup_seen setup.now).triangle x y ≡ true → shade_at s x y ≡ (fragment_at (setup_seen setup.now).triangle x y).color) }
{
    let (a, b, c) = (&setup.a.color, &setup.b.color, &setup.c.color);
    let red = steps.channel(a[0], b[0], c[0])?;
    let green = steps.channel(a[1], b[1], c[1])?;
    let blue = steps.channel(a[2], b[2], c[2])?;
    let alpha = steps.channel(a[3], b[3], c[3])?;
    Some(Shade {
        red,
        green,
        blue,
        alpha,
    })
}

/// The mean of three texture positions.
fn place_ramp(setup: &Setup, steps: &Steps, u: i32, v: i32, w: i32) -> WideRamp
    requires { AreSteps steps.now (setup_seen setup.now).triangle }
    ensures { (x y : ℕ) → x < 65536 → y < 65536 → IsNearby steps.now x y → covers (setup_seen setup.now).triangle x y ≡ true → IsSamePlace (place_at result x y) (weighted (setup_seen setup.now).triangle x y u v w) }
{
    match steps.place(u, v, w) {
        Some(ramp) => ramp.wide_place(),
        None => setup.wide_place(u, v, w),
    }
}

fn place_for(setup: &Setup, steps: &Steps) -> Place
    requires { AreSteps steps.now (setup_seen setup.now).triangle }
    ensures { (x y : ℕ) → x < 65536 → y < 65536 → IsNearby steps.now x y → covers (setup_seen setup.now).triangle x y ≡ true → AreSamePlaces result x y (fragment_at (setup_seen setup.now).triangle x y).texcoord }
{
    let (a, b, c) = (&setup.a.texcoord, &setup.b.texcoord, &setup.c.texcoord);
    Place {
        u: place_ramp(setup, steps, a[0], b[0], c[0]),
        v: place_ramp(setup, steps, a[1], b[1], c[1]),
    }
}

/// The ramp of a triangle's depths; none where 64 bits are too few.
pub(crate) fn depth_for(setup: &Setup, steps: &Steps) -> Option<Ramp>
    requires { AreSteps steps.now (setup_seen setup.now).triangle }
    ensures { IfSome result (λ r. (x y : ℕ) → IsNearby steps.now x y → covers (setup_seen setup.now).triangle x y ≡ true → depth_at r x y ≡ (fragment_at (setup_seen setup.now).triangle x y).depth) }
{
    let depth = steps.depth(setup.a.depth, setup.b.depth, setup.c.depth)?;
    Some(depth)
}

/// What paints a triangle's pixels; none where 64 bits are too few.
pub(crate) fn painter_for<'x>(
    setup: &Setup,
    steps: &Steps,
    paint: &Paint<'x>,
) -> Option<Painter<'x>>
    requires { AreSteps steps.now (setup_seen setup.now).triangle }
    ensures { IfSome result (λ p. (x y : ℕ) → x < 65536 → y < 65536 → IsNearby steps.now x y → covers (setup_seen setup.now).triangle x y ≡ true → painter_color p x y ≡ world.painted (paint_seen paint.now) (fragment_at (setup_seen setup.now).triangle x y)) }
{
    match *paint {
        Paint::Solid(color) => Some(Painter::Solid(color)),
        Paint::Vertex => Some(Painter::Vertex(shade_for(setup, steps)?)),
        Paint::Texture(texels) => Some(Painter::Texture(texels, place_for(setup, steps))),
        Paint::TexColor(texels) => {
            let place = place_for(setup, steps);
            let shade = shade_for(setup, steps)?;
            Some(Painter::TexColor(texels, place, shade))
        }
        Paint::Nothing => Some(Painter::Solid([0, 0, 0, 0])),
        Paint::NothingColor => Some(Painter::Solid([0, 0, 0, 0])),
    }
}

/// Whether all corners have the same colour.
fn has_one_color(setup: &Setup) -> bool
    ensures red { IsTrue result → (slice_index setup.now.b.color 0 ≡ slice_index setup.now.a.color 0) × (slice_index setup.now.c.color 0 ≡ slice_index setup.now.a.color 0) }
    ensures green { IsTrue result → (slice_index setup.now.b.color 1 ≡ slice_index setup.now.a.color 1) × (slice_index setup.now.c.color 1 ≡ slice_index setup.now.a.color 1) }
    ensures blue { IsTrue result → (slice_index setup.now.b.color 2 ≡ slice_index setup.now.a.color 2) × (slice_index setup.now.c.color 2 ≡ slice_index setup.now.a.color 2) }
    ensures alpha { IsTrue result → (slice_index setup.now.b.color 3 ≡ slice_index setup.now.a.color 3) × (slice_index setup.now.c.color 3 ≡ slice_index setup.now.a.color 3) }
{
    let color = word_of(setup.a.color);
    if word_of(setup.b.color) != color {
        return false;
    }
    word_of(setup.c.color) == color
}

/// The colour of a triangle that is painted in one.
pub(crate) fn one_color(setup: &Setup, paint: &Paint) -> Option<[u8; 4]>
    ensures { IfSome result (λ color. (x y : ℕ) → color ≡ world.painted (paint_seen paint.now) (fragment_at (setup_seen setup.now).triangle x y)) }
{
    match *paint {
        Paint::Solid(color) => Some(color),
        Paint::Vertex => {
            if has_one_color(setup) {
                Some(whole(setup.a.color))
            } else {
                None
            }
        }
        _ => None,
    }
}

/// The depth of a triangle whose corners have the same.
pub(crate) fn one_depth(setup: &Setup) -> Option<u32>
    ensures few { IfSome result (λ depth. depth ≤ 16777215) }
    ensures same { IfSome result (λ depth. (x y : ℕ) → depth ≡ (fragment_at (setup_seen setup.now).triangle x y).depth) }
{
    let depth = setup.a.depth;
    if setup.b.depth == depth && setup.c.depth == depth {
        Some(depth)
    } else {
        None
    }
}

/// The ramp of a depth.
fn level(depth: u32) -> Ramp
    requires { depth ≤ 16777215 }
    ensures { (x y : ℕ) → depth_at result x y ≡ depth }
{
    Ramp {
        start: (depth as u64) << 40,
        right: 0,
        down: 0,
    }
}

/// The depths of a triangle in 128 bits, from its ramp in 64 bits where there is one.
fn wide_for(setup: &Setup, short: &Option<Ramp>, width: u16, height: u16) -> WideRamp
    requires { IfSome short.now (λ r. HasDepths r setup.now width height) }
    ensures { HasWideDepths result setup.now width height }
{
    match short {
        Some(ramp) => ramp.wide_depth(),
        None => setup.wide_depth(),
    }
}

/// What draws a triangle of one colour and one depth.
fn level_brush<'x>(setup: &Setup, draw: &Prepared<'x>, width: u16, height: u16) -> Option<Brush<'x>>
    ensures paints { IfSome result (λ b. Paints b.painter draw.now setup.now width height) }
    ensures depths { IfSome result (λ b. HasWideDepths b.depth setup.now width height) }
    ensures short { IfSome result (λ b. IfSome b.short (λ r. HasDepths r setup.now width height)) }
{
    let color = one_color(setup, &draw.paint)?;
    let depth = one_depth(setup)?;
    let ramp = level(depth);
    Some(Brush {
        painter: Painter::Solid(color),
        depth: ramp.wide_depth(),
        short: Some(ramp),
    })
}

/// What draws a triangle's pixels with their depths; none where 64 bits are too few for its colours.
pub(crate) fn brush_of<'x>(
    setup: &Setup,
    draw: &Prepared<'x>,
    width: u16,
    height: u16,
) -> Option<Brush<'x>>
    ensures paints { IfSome result (λ b. Paints b.painter draw.now setup.now width height) }
    ensures depths { IfSome result (λ b. HasWideDepths b.depth setup.now width height) }
    ensures short { IfSome result (λ b. IfSome b.short (λ r. HasDepths r setup.now width height)) }
{
    if let Some(brush) = level_brush(setup, draw, width, height) {
        return Some(brush);
    }
    let steps = setup.steps(width, height)?;
    let painter = painter_for(setup, &steps, &draw.paint)?;
    let short = depth_for(setup, &steps);
    let depth = wide_for(setup, &short, width, height);
    Some(Brush {
        painter,
        depth,
        short,
    })
}

/// What paints a triangle's pixels on a surface; none where 64 bits are too few.
pub(crate) fn painter_of<'x>(
    setup: &Setup,
    draw: &Prepared<'x>,
    width: u16,
    height: u16,
) -> Option<Painter<'x>>
    ensures { IfSome result (λ p. Paints p draw.now setup.now width height) }
{
    if let Some(color) = one_color(setup, &draw.paint) {
        return Some(Painter::Solid(color));
    }
    let steps = setup.steps(width, height)?;
    let painter = painter_for(setup, &steps, &draw.paint)?;
    Some(painter)
}

/// Whether a draw stores all channels as they are painted.
pub(crate) fn is_opaque(state: &StateWord) -> bool
    ensures { IsTrue result → IsOpaque state.now }
{
    state.write_mask() == 15 && !state.blended()
}

/// The same colour, moved as one word.
#[inline(always)]
pub(crate) fn packed(color: [u8; 4]) -> [u8; 4]
    ensures { result ≡ color }
{
    u32::from_le_bytes(color).to_le_bytes()
}

/// The four bytes of a colour.
#[inline(always)]
pub(crate) fn whole(color: [u8; 4]) -> [u8; 4]
    ensures { result ≡ bytes_of color }
{
    packed([color[0], color[1], color[2], color[3]])
}
