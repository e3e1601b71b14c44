//! A word's binary digits, written and read from the front.

ghost use Rattle.std.specs.Prelude.{◌≡◌, ℕ, ◌+◌, ◌-◌, ◌/◌, ◌^◌, ◌<◌, ◌≤◌, ◌++◌, [], List, Bool, length};
ghost use Rattle.tag_bits.specs.Digits.{digits, word_digits};

use std::marker::Model;
use tag_bits::Word;

/// The leading digits of a word.
#[derive(Drop)]
pub(crate) struct WordWriter {
    number: u128,
    count: u32,
}

impl Model for WordWriter {
    ghost Value = { List Bool };

    ghost view = { λ a. digits a.count a.number };

    ghost invariant = { λ a. (a.count ≤ 96) × (a.number < 2 ^ a.count) };
}

impl WordWriter {
    /// No digits.
    #[inline(always)]
    pub(crate) fn new() -> WordWriter
        ensures { result ≡ [] }
    {
        WordWriter {
            number: 0,
            count: 0,
        }
    }

    /// Adds the `width` digits of `number`.
    #[inline(always)]
    pub(crate) fn push(&mut self, width: u32, number: u64)
        requires room { length self.old + width ≤ 96 }
        requires narrow { width < 64 }
        requires fits { number < 2 ^ width }
        ensures pushed { self.new ≡ self.old ++ digits width number }
        ensures length { length self.new ≡ length self.old + width }
    {
        // The remainder says that no shift is by 64 or more, as in `take`.
        self.number = self.number << (width % 64) | number as u128;
        self.count += width;
    }

    /// The word of 96 digits.
    pub(crate) fn word(self) -> Word
        requires { length self ≡ 96 }
        ensures { word_digits result ≡ self }
    {
        match Word::new(self.number) {
            Some(word) => word,
            None => unreachable!(),
        }
    }
}

/// The digits of a word that are still unread: the first `count` of the 128 of `rest`.
#[derive(Drop)]
pub(crate) struct WordReader {
    rest: u128,
    count: u32,
}

impl Model for WordReader {
    ghost Value = { List Bool };

    ghost view = { λ a. digits a.count (a.rest / 2 ^ (128 - a.count)) };

    ghost invariant = { λ a. a.count ≤ 96 };
}

impl WordReader {
    /// All digits of a word.
    #[inline(always)]
    pub(crate) fn new(word: Word) -> WordReader
        ensures whole { result ≡ word_digits word }
        ensures length { length result ≡ 96 }
    {
        WordReader {
            rest: word.number() << 32,
            count: 96,
        }
    }

    /// The number of the next `width` digits, which are then read.
    #[inline(always)]
    pub(crate) fn take(&mut self, width: u32) -> u64
        requires room { width ≤ length self.old }
        requires narrow { width < 64 }
        ensures read { self.old ≡ digits width result ++ self.new }
        ensures below { result < 2 ^ width }
        ensures length { length self.old ≡ length self.new + width }
    {
        let number = (self.rest >> 65) as u64 >> (63 - width);
        // The remainder says that no shift is by 64 or more: such a shift of 128 bits takes a branch.
        self.rest <<= width % 64;
        self.count -= width;
        number
    }
}
