// The stencil of a draw by names.
ghost use Rattle.std.specs.Prelude.{◌≡◌, ◌≤◌, true};
ghost use Rattle.gfx_model.specs.Words as words;
ghost use Rattle.state_words.specs.Numbers.{comparison_number, operation_number};
ghost use Rattle.state_words.specs.Stencils.{stencil_word};

use crate::Comparison;

/// What is done to the stored stencil.
///
/// The names are those of OpenGL's `glStencilOp` and of bgfx's `BGFX_STENCIL_OP_*`, in whole words.
#[derive(Clone, Copy, Drop, PartialEq, Eq, Debug)]
pub enum StencilOperation {
    /// `BGFX_STENCIL_OP_*_ZERO`, `GL_ZERO`
    Zero,
    /// `BGFX_STENCIL_OP_*_KEEP`, `GL_KEEP`
    Keep,
    /// `BGFX_STENCIL_OP_*_REPLACE`, `GL_REPLACE`: the reference is stored
    Replace,
    /// `BGFX_STENCIL_OP_*_INCR`, `GL_INCR_WRAP`: 0 follows 255
    IncrementWrapping,
    /// `BGFX_STENCIL_OP_*_INCRSAT`, `GL_INCR`: 255 stays
    IncrementSaturating,
    /// `BGFX_STENCIL_OP_*_DECR`, `GL_DECR_WRAP`: 255 follows 0
    DecrementWrapping,
    /// `BGFX_STENCIL_OP_*_DECRSAT`, `GL_DECR`: 0 stays
    DecrementSaturating,
    /// `BGFX_STENCIL_OP_*_INVERT`, `GL_INVERT`
    Invert,
}

impl StencilOperation {
    /// The number of this operation in stencil words, 0 to 7.
    pub fn number(self) -> u8
        ensures value { result ≡ operation_number self }
        ensures most { result ≤ 7 }
    {
        match self {
            StencilOperation::Zero => 0,
            StencilOperation::Keep => 1,
            StencilOperation::Replace => 2,
            StencilOperation::IncrementWrapping => 3,
            StencilOperation::IncrementSaturating => 4,
            StencilOperation::DecrementWrapping => 5,
            StencilOperation::DecrementSaturating => 6,
            StencilOperation::Invert => 7,
        }
    }
}

/// The stencil of a draw by names: what `Encoder::set_stencil` takes as a word. No stencil is the word 0.
#[derive(Clone, Copy, Drop, PartialEq, Eq, Debug)]
pub struct StencilState {
    /// what the test compares, and what `Replace` stores
    pub reference: u8,
    /// which bits of the reference and of the stored stencil the test compares
    pub mask: u8,
    /// how the reference is compared with the stored stencil
    pub test: Comparison,
    /// what is done where the stencil test fails
    pub on_stencil_fail: StencilOperation,
    /// what is done where the stencil test passes and the depth test fails
    pub on_depth_fail: StencilOperation,
    /// what is done where both pass
    pub on_pass: StencilOperation,
}

impl StencilState {
    /// The stencil word of this stencil. `Encoder::set_stencil` admits it.
    pub fn word(&self) -> u32
        ensures value { result ≡ stencil_word self.now }
        ensures admitted { words.is_stencil_word result ≡ true }
        ensures reference { words.stencil_reference result ≡ self.now.reference }
        ensures mask { words.stencil_mask result ≡ self.now.mask }
        ensures test { words.stencil_test_of result ≡ comparison_number self.now.test }
        ensures on_stencil_fail { words.on_stencil_fail result ≡ operation_number self.now.on_stencil_fail }
        ensures on_depth_fail { words.on_depth_fail result ≡ operation_number self.now.on_depth_fail }
        ensures on_pass { words.on_pass result ≡ operation_number self.now.on_pass }
    {
        self.packed()
    }

    fn packed(&self) -> u32
        ensures value { result ≡ stencil_word self.now }
        ensures reference { self.now.reference ≤ 255 }
        ensures mask { self.now.mask ≤ 255 }
    {
        self.reference as u32
            | (self.mask as u32) << 8
            | (self.test.number() as u32) << 16
            | (self.on_stencil_fail.number() as u32) << 20
            | (self.on_depth_fail.number() as u32) << 24
            | (self.on_pass.number() as u32) << 28
    }
}
