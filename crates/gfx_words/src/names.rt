// Names of things as words.
ghost use Rattle.std.specs.Prelude.{◌≡◌, ◌≢◌, IfSome, IsNone};
ghost use Rattle.gfx_words.specs.Names.{name_word, IsName, OneWordOneName};

use crate::Kind;

// the lowest bits of the index and of the kind's number in a word; the serial stands below them
const INDEX: u32 = 32;

const KIND: u32 = 42;

/// What tells a thing from every other: its kind, its index and its serial.
#[derive(Clone, Copy, Drop, PartialEq, Eq, Debug)]
pub struct HandleName {
    pub kind: Kind,
    /// The index among the things of the kind, from 0.
    pub index: u16,
    /// The serial, from 1.
    pub serial: u32,
}

impl HandleName {
    /// The word: the serial in bits 0 to 31, the index in bits 32 to 41 and the kind's number from bit 42.
    pub fn word(self) -> u64
        requires { IsName self }
        ensures { result ≡ name_word self }
    {
        self.serial as u64 + ((self.index as u64) << INDEX) + ((self.kind.number() as u64) << KIND)
    }

    /// The name of a word. None exactly where it is the word of no name.
    pub fn from_word(word: u64) -> Option<HandleName>
        ensures found { IfSome result (λ n. (name_word n ≡ word) × IsName n) }
        ensures none { IsNone result → (n : HandleName) → IsName n → name_word n ≢ word }
    {
        let number = word >> KIND;
        if number > u8::MAX as u64 {
            return None;
        }
        let kind = Kind::of_number(number as u8)?;
        let index = (word >> INDEX & ((1 << (KIND - INDEX)) - 1)) as u16;
        if index >= kind.greatest() {
            return None;
        }
        Some(HandleName {
            kind,
            index,
            serial: (word & u32::MAX as u64) as u32,
        })
    }
}

/// Handles with one word have one kind, one index and one serial.
pub fn one_word_one_name()
    ensures { OneWordOneName }
{}
