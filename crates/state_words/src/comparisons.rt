// How two numbers are compared.
ghost use Rattle.std.specs.Prelude.{◌≡◌, ◌≤◌};
ghost use Rattle.state_words.specs.Numbers.{comparison_number, depth_test_number};

/// How a test compares the new value with the stored one: depths in the depth test, masked references in the stencil test.
///
/// The names are those of Direct3D's `D3D11_COMPARISON_FUNC` and of OpenGL's `glDepthFunc`, in whole words; the order and the numbers are those of bgfx's
/// `BGFX_STATE_DEPTH_TEST_*`.
#[derive(Clone, Copy, Drop, PartialEq, Eq, Debug)]
pub enum Comparison {
    /// `BGFX_STATE_DEPTH_TEST_LESS`, `GL_LESS`
    Less,
    /// `BGFX_STATE_DEPTH_TEST_LEQUAL`, `GL_LEQUAL`
    LessOrEqual,
    /// `BGFX_STATE_DEPTH_TEST_EQUAL`, `GL_EQUAL`
    Equal,
    /// `BGFX_STATE_DEPTH_TEST_GEQUAL`, `GL_GEQUAL`
    GreaterOrEqual,
    /// `BGFX_STATE_DEPTH_TEST_GREATER`, `GL_GREATER`
    Greater,
    /// `BGFX_STATE_DEPTH_TEST_NOTEQUAL`, `GL_NOTEQUAL`
    NotEqual,
    /// `BGFX_STATE_DEPTH_TEST_NEVER`, `GL_NEVER`
    Never,
    /// `BGFX_STATE_DEPTH_TEST_ALWAYS`, `GL_ALWAYS`
    Always,
}

impl Comparison {
    /// The number of this comparison in state words and in stencil words, 1 to 8.
    pub fn number(self) -> u8
        ensures value { result ≡ comparison_number self }
        ensures most { result ≤ 8 }
    {
        match self {
            Comparison::Less => 1,
            Comparison::LessOrEqual => 2,
            Comparison::Equal => 3,
            Comparison::GreaterOrEqual => 4,
            Comparison::Greater => 5,
            Comparison::NotEqual => 6,
            Comparison::Never => 7,
            Comparison::Always => 8,
        }
    }
}

pub(crate) fn depth_test_number(test: Option<Comparison>) -> u8
    ensures value { result ≡ depth_test_number test }
    ensures most { result ≤ 8 }
{
    match test {
        None => 0,
        Some(comparison) => comparison.number(),
    }
}

pub(crate) fn depth_test_of(number: u8) -> Option<Comparison>
    requires { number ≤ 8 }
    ensures { depth_test_number result ≡ number }
{
    match number {
        0 => None,
        1 => Some(Comparison::Less),
        2 => Some(Comparison::LessOrEqual),
        3 => Some(Comparison::Equal),
        4 => Some(Comparison::GreaterOrEqual),
        5 => Some(Comparison::Greater),
        6 => Some(Comparison::NotEqual),
        7 => Some(Comparison::Never),
        _ => Some(Comparison::Always),
    }
}
