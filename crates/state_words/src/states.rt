// The state of a draw by names.
ghost use Rattle.std.specs.Prelude.{◌≡◌, ◌≤◌, ◌<◌, ◌/◌, ◌%◌, ◌^◌, true, is_some, IfSome};
ghost use Rattle.gfx_model.specs.Words as words;
ghost use Rattle.state_words.specs.Numbers.{winding_number, culling_number, primitive_number, factor_number, equation_number, depth_test_number};
ghost use Rattle.state_words.specs.States.{bit, mask_number, all_channels, color_channels, no_channels, plain_state, of_blend, state_word, IsBlendOf};

use crate::blends::{blend_number, blend_of};
use crate::comparisons::{depth_test_number, depth_test_of};
use crate::{Blend, Comparison};
use gfx_words::StateWord;

/// Which channels of the colour a draw stores: bgfx's `BGFX_STATE_WRITE_R`, `_G`, `_B` and `_A`.
#[derive(Clone, Copy, Drop, PartialEq, Eq, Debug)]
pub struct Channels {
    pub red: bool,
    pub green: bool,
    pub blue: bool,
    pub alpha: bool,
}

fn bit(is_set: bool) -> u8
    ensures value { result ≡ bit is_set }
    ensures most { result ≤ 1 }
{
    if is_set { 1 } else { 0 }
}

fn is_set(mask: u8, at: u8) -> bool
    requires { at < 8 }
    ensures { bit result ≡ mask / 2 ^ at % 2 }
{
    if (mask >> at) % 2 == 0 {
        return false;
    }
    true
}

fn channels_of(mask: u8) -> Channels
    requires { mask ≤ 15 }
    ensures { mask_number result ≡ mask }
{
    let red = is_set(mask, 0);
    let green = is_set(mask, 1);
    let blue = is_set(mask, 2);
    let alpha = is_set(mask, 3);
    Channels {
        red,
        green,
        blue,
        alpha,
    }
}

impl Channels {
    /// All four.
    pub fn all() -> Channels
        ensures { result ≡ all_channels }
    {
        Channels {
            red: true,
            green: true,
            blue: true,
            alpha: true,
        }
    }

    /// Red, green and blue, and not alpha.
    pub fn color() -> Channels
        ensures { result ≡ color_channels }
    {
        Channels {
            red: true,
            green: true,
            blue: true,
            alpha: false,
        }
    }

    /// None: a draw for its depth or its stencil alone.
    pub fn none() -> Channels
        ensures { result ≡ no_channels }
    {
        Channels {
            red: false,
            green: false,
            blue: false,
            alpha: false,
        }
    }

    /// The mask of these channels in state words: the sum of red 1, green 2, blue 4 and alpha 8.
    pub fn number(self) -> u8
        ensures value { result ≡ mask_number self }
        ensures most { result ≤ 15 }
    {
        bit(self.red) + 2 * bit(self.green) + 4 * bit(self.blue) + 8 * bit(self.alpha)
    }
}

/// Which way round a triangle's corners come on the screen: bgfx's `BGFX_STATE_CULL_CW` and `BGFX_STATE_CULL_CCW`.
#[derive(Clone, Copy, Drop, PartialEq, Eq, Debug)]
pub enum Winding {
    /// These face the front.
    Clockwise,
    /// These face the back.
    CounterClockwise,
}

impl Winding {
    /// The number by which a state word culls triangles of this winding, 1 or 2.
    pub fn number(self) -> u8
        ensures value { result ≡ winding_number self }
        ensures most { result ≤ 2 }
    {
        match self {
            Winding::Clockwise => 1,
            Winding::CounterClockwise => 2,
        }
    }
}

fn culling_number(culled: Option<Winding>) -> u8
    ensures value { result ≡ culling_number culled }
    ensures most { result ≤ 2 }
{
    match culled {
        None => 0,
        Some(winding) => winding.number(),
    }
}

fn culling_of(number: u8) -> Option<Winding>
    requires { number ≤ 2 }
    ensures { culling_number result ≡ number }
{
    match number {
        0 => None,
        1 => Some(Winding::Clockwise),
        _ => Some(Winding::CounterClockwise),
    }
}

/// How vertices make triangles: Direct3D's `TRIANGLELIST` and `TRIANGLESTRIP`, bgfx's default and `BGFX_STATE_PT_TRISTRIP`.
#[derive(Clone, Copy, Drop, PartialEq, Eq, Debug)]
pub enum Primitive {
    /// Each three vertices are a triangle.
    TriangleList,
    /// Each vertex from the third on makes a triangle with the two before it.
    TriangleStrip,
}

impl Primitive {
    /// The number of this primitive in state words, 0 or 1.
    pub fn number(self) -> u8
        ensures value { result ≡ primitive_number self }
        ensures most { result ≤ 1 }
    {
        match self {
            Primitive::TriangleList => 0,
            Primitive::TriangleStrip => 1,
        }
    }
}

fn primitive_of(number: u8) -> Primitive
    requires { number ≤ 1 }
    ensures { primitive_number result ≡ number }
{
    match number {
        0 => Primitive::TriangleList,
        _ => Primitive::TriangleStrip,
    }
}

/// The state of a draw by names: what `Encoder::set_state` takes as a word.
#[derive(Clone, Copy, Drop, PartialEq, Eq, Debug)]
pub struct RenderState {
    /// which channels of the colour are stored
    pub channels: Channels,
    /// how depths are compared, or no test
    pub depth_test: Option<Comparison>,
    /// whether a pixel that is drawn stores its depth, tested or not
    pub writes_depth: bool,
    /// how the colour is joined with the stored one, or no blending
    pub blend: Option<Blend>,
    /// which triangles are left out, or none
    pub culled: Option<Winding>,
    /// how vertices make triangles
    pub primitive: Primitive,
}

impl RenderState {
    /// The state that an encoder begins with: all four channels are stored, and nothing else. Its word is 15.
    pub fn plain() -> RenderState
        ensures { result ≡ plain_state }
    {
        RenderState {
            channels: Channels::all(),
            depth_test: None,
            writes_depth: false,
            blend: None,
            culled: None,
            primitive: Primitive::TriangleList,
        }
    }

    /// The state word of this state. `Encoder::set_state` admits it.
    pub fn word(&self) -> u64
        ensures value { result ≡ state_word self.now }
        ensures admitted { words.is_state_word result ≡ true }
        ensures channels { words.write_mask result ≡ mask_number self.now.channels }
        ensures depth_test { words.depth_test_of result ≡ depth_test_number self.now.depth_test }
        ensures writes_depth { words.writes_depth result ≡ self.now.writes_depth }
        ensures blended { words.is_blended result ≡ is_some self.now.blend }
        ensures color_source { words.color_source result ≡ of_blend (λ b. factor_number b.color.source) self.now.blend }
        ensures color_destination { words.color_destination result ≡ of_blend (λ b. factor_number b.color.destination) self.now.blend }
        ensures color_equation { words.color_equation result ≡ of_blend (λ b. equation_number b.color.equation) self.now.blend }
        ensures alpha_source { words.alpha_source result ≡ of_blend (λ b. factor_number b.alpha.source) self.now.blend }
        ensures alpha_destination { words.alpha_destination result ≡ of_blend (λ b. factor_number b.alpha.destination) self.now.blend }
        ensures alpha_equation { words.alpha_equation result ≡ of_blend (λ b. equation_number b.alpha.equation) self.now.blend }
        ensures culled { words.cull_of result ≡ culling_number self.now.culled }
        ensures primitive { words.primitive_of result ≡ primitive_number self.now.primitive }
    {
        self.packed()
    }

    /// The state of a state word: each field by its name. An equation without blending is left out, for no one reads it.
    pub fn of(word: &StateWord) -> RenderState
        ensures channels { mask_number result.channels ≡ words.write_mask word.now }
        ensures depth_test { depth_test_number result.depth_test ≡ words.depth_test_of word.now }
        ensures writes_depth { result.writes_depth ≡ words.writes_depth word.now }
        ensures blended { is_some result.blend ≡ words.is_blended word.now }
        ensures blend { IfSome result.blend (λ b. IsBlendOf b word.now) }
        ensures culled { culling_number result.culled ≡ words.cull_of word.now }
        ensures primitive { primitive_number result.primitive ≡ words.primitive_of word.now }
        ensures again { (s : RenderState) → word.now ≡ state_word s → result ≡ s }
    {
        RenderState::read(word)
    }

    fn read(word: &StateWord) -> RenderState
        ensures channels { mask_number result.channels ≡ words.write_mask word.now }
        ensures depth_test { depth_test_number result.depth_test ≡ words.depth_test_of word.now }
        ensures writes_depth { result.writes_depth ≡ words.writes_depth word.now }
        ensures blended { is_some result.blend ≡ words.is_blended word.now }
        ensures blend { IfSome result.blend (λ b. IsBlendOf b word.now) }
        ensures culled { culling_number result.culled ≡ words.cull_of word.now }
        ensures primitive { primitive_number result.primitive ≡ words.primitive_of word.now }
    {
        let channels = channels_of(word.write_mask());
        let depth_test = depth_test_of(word.depth_test());
        let writes_depth = word.writes_depth();
        let blend = blend_of(word);
        let culled = culling_of(word.cull());
        let primitive = primitive_of(word.primitive());
        RenderState {
            channels,
            depth_test,
            writes_depth,
            blend,
            culled,
            primitive,
        }
    }

    fn packed(&self) -> u64
        ensures { result ≡ state_word self.now }
    {
        self.channels.number() as u64
            | (depth_test_number(self.depth_test) as u64) << 4
            | blend_number(self.blend) << 12
            | (culling_number(self.culled) as u64) << 36
            | (bit(self.writes_depth) as u64) << 38
            | (self.primitive.number() as u64) << 48
    }
}
