// Place words of the table of things.
ghost use Rattle.std.specs.Prelude.{◌≡◌, ◌≢◌, IfSome, IsNone};
ghost use Rattle.gfx_model.specs.Words as words;

/// What the word of a place says: nothing is there, or a thing with its serial that is live or dies in a frame.
#[derive(Clone, Copy, Drop, PartialEq, Eq, Debug)]
pub enum PlaceWord {
    Free,
    Live { serial: u32 },
    Dying { serial: u32, death: u32 },
}

impl PlaceWord {
    ghost use Rattle.gfx_words.specs.declared.places.PlaceWord.{PlaceWord};
    ghost use Rattle.gfx_words.specs.Places.{place_word, IsPlaceWord};

    /// The word; the frame of death is below 2^30.
    pub fn word(self) -> u64
        requires { IsPlaceWord self }
        ensures { result ≡ place_word self }
    {
        match self {
            PlaceWord::Free => 0,
            PlaceWord::Live { serial } => 1 + ((serial as u64) << 2),
            PlaceWord::Dying { serial, death } => 2
                + ((serial as u64) << 2)
                + ((death as u64) << 34),
        }
    }

    /// What a word says. None where it is not the word of a place.
    pub fn read(word: u64) -> Option<PlaceWord>
        ensures found { IfSome result (λ p. (place_word p ≡ word) × IsPlaceWord p) }
        ensures none { IsNone result → (p : PlaceWord) → IsPlaceWord p → place_word p ≢ word }
    {
        let serial = (word >> 2 & 0xffff_ffff) as u32;
        let death = (word >> 34) as u32;
        match word & 3 {
            0 if word == 0 => Some(PlaceWord::Free),
            1 if death == 0 => Some(PlaceWord::Live { serial }),
            2 => Some(PlaceWord::Dying { serial, death }),
            _ => None,
        }
    }

    /// Whether a thing with this serial is live at a place with this word.
    pub fn is_live_in(word: u64, serial: u32) -> bool
        ensures { result ≡ words.is_live_in word serial }
    {
        word & 3 == 1 && word >> 2 & 0xffff_ffff == serial as u64
    }

    /// Whether an encoder of a frame may name a thing with this serial: it is live, or dies in that frame or later.
    pub fn is_usable_in(frame: u32, word: u64, serial: u32) -> bool
        ensures { result ≡ words.is_usable_in frame word serial }
    {
        PlaceWord::is_live_in(word, serial)
            || word & 3 == 2
                && word >> 2 & 0xffff_ffff == serial as u64
                && frame as u64 <= word >> 34
    }
}
