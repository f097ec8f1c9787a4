// The address of a word.
ghost use Rattle.std.specs.Prelude.{◌≡◌, ◌+◌, ◌%◌};
ghost use Rattle.tam_word.specs.Words.{wrapped};

use std::marker::Model;

/// The address of a word: a multiple of four.
#[derive(Clone, Copy, Debug)]
pub struct WordAddress {
    number: u32,
}

impl Model for WordAddress {
    ghost use Rattle.std.specs.Prelude.{ℕ, ◌≡◌, ◌%◌, ◌^◌, ◌<◌};

    ghost Value = { ℕ };

    ghost view = { λ a. a.number };

    ghost invariant = { λ a. (a.number < 2 ^ 32) × (a.number % 4 ≡ 0) };

    ghost inverse = { λ n. record { number = n } };
}

impl WordAddress {
    pub const ZERO: WordAddress = WordAddress { number: 0 };

    /// That address.
    #[inline(always)]
    pub fn of(number: u32) -> WordAddress
        requires aligned { number % 4 ≡ 0 }
        ensures value { result ≡ number }
    {
        WordAddress { number }
    }

    /// The number.
    #[inline(always)]
    pub fn number(self) -> u32
        ensures value { result ≡ self }
        ensures aligned { self % 4 ≡ 0 }
    {
        self.number
    }

    /// The address of the word behind this one; behind the last stands the first.
    #[inline(always)]
    pub fn next(self) -> WordAddress
        ensures value { result ≡ wrapped (self + 4) }
    {
        WordAddress {
            number: self.number.wrapping_add(4),
        }
    }
}
