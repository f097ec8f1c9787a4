// A set of places.
ghost use Rattle.std.specs.Prelude.{◌≡◌, ◌<◌, []};
ghost use Rattle.tam_word.specs.Lists.{has};
ghost use Rattle.tam_sets.specs.Sets.{places_where, with_place, met, joined, is_within};

use std::marker::Model;

/// How many places there are.
pub const PLACES: u32 = 512;

/// A set of places below `PLACES`.
#[derive(Clone, Copy, Debug, PartialEq, Eq)]
pub struct Set {
    /// The bit of a place is 1 where the place is a member; a word has 64 places.
    words: [u64; 8],
}

impl Model for Set {
    ghost use Rattle.std.specs.Prelude.{List, ℕ};

    ghost Value = { List ℕ };

    ghost use Rattle.tam_sets.specs.Bits.{members_of, set_of, IsWithinWidth};
    ghost use Rattle.tam_sets.specs.BitsBack.{members-back};

    ghost view = { members_of };

    ghost invariant = { IsWithinWidth };

    ghost inverse = { set_of };

    ghost inverse_ok = { members-back };
}

impl Set {
    pub fn empty() -> Set
        ensures value { result ≡ [] }
    {
        Set { words: [0; 8] }
    }

    pub fn insert(&mut self, place: u32)
        requires in_range { place < 512 }
        ensures value { self.new ≡ with_place place self.old }
    {
        self.words[place as usize / 64] |= 1 << (place % 64);
    }

    pub fn has(&self, place: u32) -> bool
        ensures value { result ≡ has self.now place }
        ensures members { self.now ≡ places_where (has self.now) }
    {
        place < PLACES && (self.words[place as usize / 64] >> (place % 64)) & 1 == 1
    }

    /// The places that are in both.
    pub fn meet(&self, o: &Set) -> Set
        ensures value { result ≡ met self.now o.now }
    {
        let mut words = self.words;
        for k in 0..8 {
            words[k] &= o.words[k];
        }
        Set { words }
    }

    /// The places that are in either.
    pub fn join(&self, o: &Set) -> Set
        ensures value { result ≡ joined self.now o.now }
    {
        let mut words = self.words;
        for k in 0..8 {
            words[k] |= o.words[k];
        }
        Set { words }
    }

    /// Whether each of its places is in the other.
    pub fn within(&self, o: &Set) -> bool
        ensures value { result ≡ is_within self.now o.now }
    {
        for k in 0..8 {
            if self.words[k] & !o.words[k] != 0 {
                return false;
            }
        }
        true
    }
}
