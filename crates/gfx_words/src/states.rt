// State words of draws.
ghost use Rattle.std.specs.Prelude.{◌≡◌, ◌<◌, ◌≤◌, true, false, MatchResult};
ghost use Rattle.gfx_model.specs.Number.{bits_at};
ghost use Rattle.gfx_model.specs.Words as words;

use crate::Refusal;
use std::marker::Model;

/// A state word that a draw may have: which channels are written, the depth test, blending, culling and the primitive.
#[derive(Clone, Copy, Drop, PartialEq, Eq, Debug)]
pub struct StateWord {
    word: u64,
}

impl Model for StateWord {
    ghost use Rattle.std.specs.Prelude.{ℕ, ◌≡◌, ◌<◌, ◌^◌, true};
    ghost use Rattle.gfx_model.specs.Words.{is_state_word};

    ghost Value = { ℕ };

    ghost view = { λ s. s.word };

    ghost invariant = { λ s. is_state_word s.word ≡ true };

    ghost inverse = { λ n. record { word = n } };
}

fn bits(word: u64, low: u8, count: u8) -> u64
    requires low { low < 64 }
    requires count { count ≤ 16 }
    ensures { result ≡ bits_at word low count }
{
    word >> low & ((1u64 << count) - 1)
}

fn is_factor(factor: u64) -> bool
    ensures { result ≡ words.is_factor factor }
{
    1 <= factor && factor <= 11
}

fn has_factors_together(word: u64) -> bool
    ensures { result ≡ words.has_factors_together word }
{
    bits(word, 12, 16) == 0
        || is_factor(bits(word, 12, 4))
            && is_factor(bits(word, 16, 4))
            && is_factor(bits(word, 20, 4))
            && is_factor(bits(word, 24, 4))
}

fn has_reserved_bits_clear(word: u64) -> bool
    ensures { result ≡ words.has_reserved_bits_clear word }
{
    bits(word, 8, 4) == 0 && bits(word, 34, 2) == 0 && bits(word, 39, 9) == 0 && word >> 51 == 0
}

fn is_admitted(word: u64) -> bool
    ensures { result ≡ words.is_state_word word }
{
    bits(word, 4, 4) <= 8
        && has_factors_together(word)
        && bits(word, 28, 3) <= 4
        && bits(word, 31, 3) <= 4
        && bits(word, 36, 2) <= 2
        && bits(word, 48, 3) <= 1
        && has_reserved_bits_clear(word)
}

impl StateWord {
    /// The state word of a number.
    ///
    /// `BadState` exactly where a field is past its greatest value, where some but not all of the four factors are 0,
    /// or where a bit is set that belongs to no field.
    pub fn read(word: u64) -> Result<StateWord, Refusal>
        ensures { MatchResult result
            (λ s. (words.is_state_word word ≡ true) × (s ≡ word))
            (λ r. (words.is_state_word word ≡ false) × (r ≡ Refusal.BadState)) }
    {
        if is_admitted(word) {
            Ok(StateWord { word })
        } else {
            Err(Refusal::BadState)
        }
    }

    /// The number of this state word.
    pub fn word(&self) -> u64
        ensures same { result ≡ self.now }
        ensures admitted { words.is_state_word self.now ≡ true }
    {
        self.word
    }

    /// Which channels are written: bit 0 red, bit 1 green, bit 2 blue, bit 3 alpha.
    pub fn write_mask(&self) -> u8
        ensures { result ≡ words.write_mask self.now }
    {
        bits(self.word, 0, 4) as u8
    }

    /// The depth test: 0 none, 1 less, 2 less or equal, 3 equal, 4 greater or equal, 5 greater, 6 not equal, 7 never, 8 always.
    pub fn depth_test(&self) -> u8
        ensures value { result ≡ words.depth_test_of self.now }
        ensures range { result ≤ 8 }
    {
        bits(self.word, 4, 4) as u8
    }

    /// The factor of the source colour, 0 without blending and else 1 to 11.
    pub fn color_source(&self) -> u8
        ensures value { result ≡ words.color_source self.now }
        ensures range { result ≤ 11 }
    {
        bits(self.word, 12, 4) as u8
    }

    /// The factor of the stored colour, 0 without blending and else 1 to 11.
    pub fn color_destination(&self) -> u8
        ensures value { result ≡ words.color_destination self.now }
        ensures range { result ≤ 11 }
    {
        bits(self.word, 16, 4) as u8
    }

    /// The factor of the source alpha, 0 without blending and else 1 to 11.
    pub fn alpha_source(&self) -> u8
        ensures value { result ≡ words.alpha_source self.now }
        ensures range { result ≤ 11 }
    {
        bits(self.word, 20, 4) as u8
    }

    /// The factor of the stored alpha, 0 without blending and else 1 to 11.
    pub fn alpha_destination(&self) -> u8
        ensures value { result ≡ words.alpha_destination self.now }
        ensures range { result ≤ 11 }
    {
        bits(self.word, 24, 4) as u8
    }

    /// How the two scaled colours are joined: 0 add, 1 subtract, 2 reverse subtract, 3 least, 4 greatest.
    pub fn color_equation(&self) -> u8
        ensures value { result ≡ words.color_equation self.now }
        ensures range { result ≤ 4 }
    {
        bits(self.word, 28, 3) as u8
    }

    /// How the two scaled alphas are joined, by the numbers of `color_equation`.
    pub fn alpha_equation(&self) -> u8
        ensures value { result ≡ words.alpha_equation self.now }
        ensures range { result ≤ 4 }
    {
        bits(self.word, 31, 3) as u8
    }

    /// Which triangles are dropped: 0 none, 1 clockwise ones, 2 counter-clockwise ones.
    pub fn cull(&self) -> u8
        ensures value { result ≡ words.cull_of self.now }
        ensures range { result ≤ 2 }
    {
        bits(self.word, 36, 2) as u8
    }

    /// Whether a fragment that passes stores its depth.
    pub fn writes_depth(&self) -> bool
        ensures { result ≡ words.writes_depth self.now }
    {
        bits(self.word, 38, 1) == 1
    }

    /// How vertices make triangles: 0 a list, 1 a strip.
    pub fn primitive(&self) -> u8
        ensures value { result ≡ words.primitive_of self.now }
        ensures range { result ≤ 1 }
    {
        bits(self.word, 48, 3) as u8
    }

    /// Whether the colour is blended with the stored one: the factors are not 0.
    pub fn blended(&self) -> bool
        ensures { result ≡ words.is_blended self.now }
    {
        bits(self.word, 12, 4) != 0
    }
}
