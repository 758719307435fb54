// Blending.
ghost use Rattle.std.specs.Prelude.{◌≡◌, ◌≤◌, ◌<◌, true, is_some, IfSome};
ghost use Rattle.gfx_model.specs.Words as words;
ghost use Rattle.state_words.specs.Numbers.{factor_number, equation_number};
ghost use Rattle.state_words.specs.States.{blend_word, blend_number, by_source_alpha, added, IsBlendOf};

use gfx_words::StateWord;

/// What a colour or an alpha is multiplied with before blending joins two of them.
///
/// The names are those of bgfx's `BGFX_STATE_BLEND_*` and of Direct3D's `D3D11_BLEND`, in whole words: source is what a draw paints, destination what is stored.
#[derive(Clone, Copy, Drop, PartialEq, Eq, Debug)]
pub enum BlendFactor {
    /// `BGFX_STATE_BLEND_ZERO`
    Zero,
    /// `BGFX_STATE_BLEND_ONE`
    One,
    /// `BGFX_STATE_BLEND_SRC_COLOR`
    SourceColor,
    /// `BGFX_STATE_BLEND_INV_SRC_COLOR`
    InverseSourceColor,
    /// `BGFX_STATE_BLEND_SRC_ALPHA`
    SourceAlpha,
    /// `BGFX_STATE_BLEND_INV_SRC_ALPHA`
    InverseSourceAlpha,
    /// `BGFX_STATE_BLEND_DST_ALPHA`
    DestinationAlpha,
    /// `BGFX_STATE_BLEND_INV_DST_ALPHA`
    InverseDestinationAlpha,
    /// `BGFX_STATE_BLEND_DST_COLOR`
    DestinationColor,
    /// `BGFX_STATE_BLEND_INV_DST_COLOR`
    InverseDestinationColor,
    /// `BGFX_STATE_BLEND_SRC_ALPHA_SAT`: of a colour the lesser of source alpha and the inverse of the stored alpha, of alpha one
    SourceAlphaSaturated,
}

impl BlendFactor {
    /// The number of this factor in state words, 1 to 11.
    pub fn number(self) -> u8
        ensures value { result ≡ factor_number self }
        ensures most { result ≤ 11 }
    {
        match self {
            BlendFactor::Zero => 1,
            BlendFactor::One => 2,
            BlendFactor::SourceColor => 3,
            BlendFactor::InverseSourceColor => 4,
            BlendFactor::SourceAlpha => 5,
            BlendFactor::InverseSourceAlpha => 6,
            BlendFactor::DestinationAlpha => 7,
            BlendFactor::InverseDestinationAlpha => 8,
            BlendFactor::DestinationColor => 9,
            BlendFactor::InverseDestinationColor => 10,
            BlendFactor::SourceAlphaSaturated => 11,
        }
    }
}

/// How the two products are joined.
///
/// The names are those of bgfx's `BGFX_STATE_BLEND_EQUATION_*` and of OpenGL's `glBlendEquation`, in whole words.
#[derive(Clone, Copy, Drop, PartialEq, Eq, Debug)]
pub enum BlendEquation {
    /// `BGFX_STATE_BLEND_EQUATION_ADD`, `GL_FUNC_ADD`: the sum
    Add,
    /// `BGFX_STATE_BLEND_EQUATION_SUB`, `GL_FUNC_SUBTRACT`: the source's less the destination's
    Subtract,
    /// `BGFX_STATE_BLEND_EQUATION_REVSUB`, `GL_FUNC_REVERSE_SUBTRACT`: the destination's less the source's
    ReverseSubtract,
    /// `BGFX_STATE_BLEND_EQUATION_MIN`, `GL_MIN`: the lesser, without the factors
    Minimum,
    /// `BGFX_STATE_BLEND_EQUATION_MAX`, `GL_MAX`: the greater, without the factors
    Maximum,
}

impl BlendEquation {
    /// The number of this equation in state words, 0 to 4.
    pub fn number(self) -> u8
        ensures value { result ≡ equation_number self }
        ensures most { result ≤ 4 }
    {
        match self {
            BlendEquation::Add => 0,
            BlendEquation::Subtract => 1,
            BlendEquation::ReverseSubtract => 2,
            BlendEquation::Minimum => 3,
            BlendEquation::Maximum => 4,
        }
    }
}

/// How the painted and the stored value are joined, of the colour or of alpha.
#[derive(Clone, Copy, Drop, PartialEq, Eq, Debug)]
pub struct BlendPart {
    /// what the painted value is multiplied with
    pub source: BlendFactor,
    /// what the stored value is multiplied with
    pub destination: BlendFactor,
    /// how the two products are joined
    pub equation: BlendEquation,
}

/// How a draw that blends joins its colour and its alpha with those that are stored.
#[derive(Clone, Copy, Drop, PartialEq, Eq, Debug)]
pub struct Blend {
    pub color: BlendPart,
    pub alpha: BlendPart,
}

impl Blend {
    /// The usual blend, bgfx's `BGFX_STATE_BLEND_ALPHA`: source alpha and its inverse, added, for the colour and for alpha.
    pub fn by_source_alpha() -> Blend
        ensures { result ≡ by_source_alpha }
    {
        let part = BlendPart {
            source: BlendFactor::SourceAlpha,
            destination: BlendFactor::InverseSourceAlpha,
            equation: BlendEquation::Add,
        };
        Blend {
            color: part,
            alpha: part,
        }
    }

    /// Source and destination are added, bgfx's `BGFX_STATE_BLEND_ADD`: all four factors are one.
    pub fn added() -> Blend
        ensures { result ≡ added }
    {
        let part = BlendPart {
            source: BlendFactor::One,
            destination: BlendFactor::One,
            equation: BlendEquation::Add,
        };
        Blend {
            color: part,
            alpha: part,
        }
    }

    fn word(&self) -> u64
        ensures value { result ≡ blend_word self.now }
        ensures most { result < 4194304 }
    {
        self.color.source.number() as u64
            | (self.color.destination.number() as u64) << 4
            | (self.alpha.source.number() as u64) << 8
            | (self.alpha.destination.number() as u64) << 12
            | (self.color.equation.number() as u64) << 16
            | (self.alpha.equation.number() as u64) << 19
    }
}

pub(crate) fn blend_number(blend: Option<Blend>) -> u64
    ensures value { result ≡ blend_number blend }
    ensures most { result < 4194304 }
{
    match blend {
        None => 0,
        Some(blend) => blend.word(),
    }
}

fn factor_of(number: u8) -> BlendFactor
    requires least { 1 ≤ number }
    requires most { number ≤ 11 }
    ensures { factor_number result ≡ number }
{
    match number {
        1 => BlendFactor::Zero,
        2 => BlendFactor::One,
        3 => BlendFactor::SourceColor,
        4 => BlendFactor::InverseSourceColor,
        5 => BlendFactor::SourceAlpha,
        6 => BlendFactor::InverseSourceAlpha,
        7 => BlendFactor::DestinationAlpha,
        8 => BlendFactor::InverseDestinationAlpha,
        9 => BlendFactor::DestinationColor,
        10 => BlendFactor::InverseDestinationColor,
        _ => BlendFactor::SourceAlphaSaturated,
    }
}

fn equation_of(number: u8) -> BlendEquation
    requires { number ≤ 4 }
    ensures { equation_number result ≡ number }
{
    match number {
        0 => BlendEquation::Add,
        1 => BlendEquation::Subtract,
        2 => BlendEquation::ReverseSubtract,
        3 => BlendEquation::Minimum,
        _ => BlendEquation::Maximum,
    }
}

// Does nothing, and tells that no factor of a word that blends is 0.
fn tell_factors(word: &StateWord)
    requires { words.is_blended word.now ≡ true }
    ensures color_source { 1 ≤ words.color_source word.now }
    ensures color_destination { 1 ≤ words.color_destination word.now }
    ensures alpha_source { 1 ≤ words.alpha_source word.now }
    ensures alpha_destination { 1 ≤ words.alpha_destination word.now }
{
    let _ = word.word();
}

pub(crate) fn blend_of(word: &StateWord) -> Option<Blend>
    ensures blended { is_some result ≡ words.is_blended word.now }
    ensures fields { IfSome result (λ b. IsBlendOf b word.now) }
{
    if !word.blended() {
        return None;
    }
    tell_factors(word);
    let color = BlendPart {
        source: factor_of(word.color_source()),
        destination: factor_of(word.color_destination()),
        equation: equation_of(word.color_equation()),
    };
    let alpha = BlendPart {
        source: factor_of(word.alpha_source()),
        destination: factor_of(word.alpha_destination()),
        equation: equation_of(word.alpha_equation()),
    };
    Some(Blend { color, alpha })
}
