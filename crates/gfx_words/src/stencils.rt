// Stencil words of draws.
ghost use Rattle.std.specs.Prelude.{◌≡◌, ◌≤◌, ◌==◌, true, false, MatchResult};
ghost use Rattle.gfx_model.specs.Words as words;

use crate::Refusal;
use std::marker::Model;

/// A stencil word that a draw may have. The word 0 is no stencil.
#[derive(Clone, Copy, Drop, PartialEq, Eq, Debug)]
pub struct StencilWord {
    word: u32,
}

impl Model for StencilWord {
    ghost use Rattle.std.specs.Prelude.{ℕ, ◌≡◌, true};
    ghost use Rattle.gfx_model.specs.Words.{is_stencil_word};

    ghost Value = { ℕ };

    ghost view = { λ s. s.word };

    ghost invariant = { λ s. is_stencil_word s.word ≡ true };

    ghost inverse = { λ n. record { word = n } };
}

fn is_admitted(word: u32) -> bool
    ensures { result ≡ words.is_stencil_word word }
{
    word == 0
        || 1 <= word >> 16 & 15
            && word >> 16 & 15 <= 8
            && word >> 20 & 15 <= 7
            && word >> 24 & 15 <= 7
            && word >> 28 & 15 <= 7
}

impl StencilWord {
    /// The stencil word of a number.
    ///
    /// `BadState` exactly where the number is not 0 and its test is not 1 to 8 or one of its operations is above 7.
    pub fn read(word: u32) -> Result<StencilWord, Refusal>
        ensures { MatchResult result
            (λ s. (words.is_stencil_word word ≡ true) × (s ≡ word))
            (λ r. (words.is_stencil_word word ≡ false) × (r ≡ Refusal.BadState)) }
    {
        if is_admitted(word) {
            Ok(StencilWord { word })
        } else {
            Err(Refusal::BadState)
        }
    }

    /// The number of this stencil word.
    pub fn word(&self) -> u32
        ensures same { result ≡ self.now }
        ensures admitted { words.is_stencil_word self.now ≡ true }
    {
        self.word
    }

    /// The number that the test compares and that an operation can store.
    pub fn reference(&self) -> u8
        ensures { result ≡ words.stencil_reference self.now }
    {
        (self.word & 255) as u8
    }

    /// The bits of the reference and of the stored stencil that the test compares.
    pub fn mask(&self) -> u8
        ensures { result ≡ words.stencil_mask self.now }
    {
        (self.word >> 8 & 255) as u8
    }

    /// The test by the numbers of the depth tests, 1 to 8; 0 only in the word 0.
    pub fn test(&self) -> u8
        ensures value { result ≡ words.stencil_test_of self.now }
        ensures range { result ≤ 8 }
    {
        (self.word >> 16 & 15) as u8
    }

    /// The operation where the stencil test fails: 0 zero, 1 keep, 2 replace, 3 and 4 increment wrapping and saturating,
    /// 5 and 6 decrement wrapping and saturating, 7 invert.
    pub fn on_stencil_fail(&self) -> u8
        ensures value { result ≡ words.on_stencil_fail self.now }
        ensures range { result ≤ 7 }
    {
        (self.word >> 20 & 15) as u8
    }

    /// The operation where the stencil test passes and the depth test fails.
    pub fn on_depth_fail(&self) -> u8
        ensures value { result ≡ words.on_depth_fail self.now }
        ensures range { result ≤ 7 }
    {
        (self.word >> 24 & 15) as u8
    }

    /// The operation where both tests pass.
    pub fn on_pass(&self) -> u8
        ensures value { result ≡ words.on_pass self.now }
        ensures range { result ≤ 7 }
    {
        (self.word >> 28 & 15) as u8
    }
}
