//! A set of numbers in W words. What rows of words do with such a set is in `rows`.
ghost use Rattle.std.specs.Prelude.{◌≡◌, ◌≢◌, ℕ, ◌+◌, ◌*◌, ◌^◌, ◌<◌, ◌↔◌, ◌⊎◌, IsTrue, MatchOption, length, bit_and, bit_or, slice_index, if◌then◌else◌};
ghost use Rattle.bit_words.specs.Words.{IsFirstWord};
ghost use Rattle.bit_words.specs.Sets.{Has, with_number, without, IsLeast, members_below};

use std::marker::Model;

/// A set of numbers below 64 W.
///
/// Its numbers are those of slots, so a call that answers a number or how many there are wants all
/// of them, and their count, to be a `u32`.
#[derive(Clone, Copy, Debug)]
pub struct Bits<const W: usize> {
    pub(crate) words: [u64; W],
}

impl<const W: usize> Model for Bits<W> {
    ghost use Rattle.std.specs.Prelude.{◌≡◌, ℕ, length};
    ghost use Rattle.bit_words.specs.Words.{set_of, words_of, AreWords, words_of-set_of};

    ghost Value = { ℕ };

    ghost view = { λ set. set_of set.words };

    ghost invariant = { λ set. (length set.words ≡ W) × AreWords set.words };

    ghost inverse = { λ set. record { words = words_of W set } };

    ghost inverse_ok = { λ set kept i.
        record { words = words_of-set_of W set.words kept.0 kept.1 i } };
}

impl<const W: usize> Bits<W> {
    /// The set with no member.
    pub fn empty() -> Bits<W>
        ensures { result ≡ 0 }
    {
        Bits { words: [0; W] }
    }

    /// The set of all numbers that it has room for.
    pub fn full() -> Bits<W>
        ensures { (i : ℕ) → i < 64 * W → Has result i }
    {
        Bits {
            words: [u64::MAX; W],
        }
    }

    /// Puts a number in.
    pub fn set(&mut self, i: u32)
        requires { i < 64 * W }
        ensures value { self.new ≡ with_number self.old i }
        ensures members { (j : ℕ) → Has self.new j ↔ ((Has self.old j) ⊎ (j ≡ i)) }
    {
        self.words[i as usize / 64] |= 1u64 << (i % 64);
    }

    /// The set with a number more, if that is wanted.
    pub fn with_if(&self, i: u32, wanted: bool) -> Bits<W>
        requires { i < 64 * W }
        ensures { result ≡ (if wanted then with_number self.now i else self.now) }
    {
        let mut more = *self;
        if wanted {
            more.set(i);
        }
        more
    }

    /// Takes a number out, if it is in.
    pub fn clear(&mut self, i: u32)
        requires { i < 64 * W }
        ensures value { self.new ≡ without self.old (2 ^ i) }
        ensures members { (j : ℕ) → Has self.new j ↔ ((Has self.old j) × (j ≢ i)) }
    {
        self.words[i as usize / 64] &= !(1u64 << (i % 64));
    }

    pub fn has(&self, i: u32) -> bool
        requires { i < 64 * W }
        ensures { IsTrue result ↔ Has self.now i }
    {
        (self.words[i as usize / 64] >> (i % 64)) & 1 == 1
    }

    /// The numbers that are in both.
    pub fn and(&self, other: &Bits<W>) -> Bits<W>
        ensures value { result ≡ bit_and self.now other.now }
        ensures members { (j : ℕ) → Has result j ↔ (Has self.now j × Has other.now j) }
    {
        let mut both = *self;
        'words: for k in 0..W {
            both.words[k] &= other.words[k];
        }
        both
    }

    /// The numbers that are in one of the two at least.
    pub fn or(&self, other: &Bits<W>) -> Bits<W>
        ensures value { result ≡ bit_or self.now other.now }
        ensures members { (j : ℕ) → Has result j ↔ (Has self.now j ⊎ Has other.now j) }
    {
        let mut either = *self;
        'words: for k in 0..W {
            either.words[k] |= other.words[k];
        }
        either
    }

    /// The numbers that are in this set and not in the other.
    pub fn and_not(&self, other: &Bits<W>) -> Bits<W>
        ensures value { result ≡ without self.now other.now }
        ensures members { (j : ℕ) → Has result j ↔ (Has self.now j × ¬ (Has other.now j)) }
    {
        let mut rest = *self;
        'words: for k in 0..W {
            rest.words[k] &= !other.words[k];
        }
        rest
    }

    /// Whether no number is in.
    pub fn is_zero(&self) -> bool
        ensures value { IsTrue result ↔ (self.now ≡ 0) }
        ensures members { IsTrue result ↔ ((j : ℕ) → ¬ (Has self.now j)) }
    {
        self.words == [0; W]
    }

    /// How many numbers are in.
    pub fn ones(&self) -> u32
        requires { 64 * W < 2 ^ 32 }
        ensures { result ≡ length (members_below (64 * W) self.now) }
    {
        let mut count = 0;
        'words: for k in 0..W {
            count += self.words[k].count_ones();
        }
        count
    }

    /// The least number that is in, or `None` where there is none.
    pub fn least(&self) -> Option<u32>
        requires { 64 * W < 2 ^ 32 }
        ensures { MatchOption result (self.now ≡ 0) (λ i. IsLeast self.now i × (i < 64 * W)) }
    {
        match first_word(&self.words) {
            None => None,
            Some(k) => Some(64 * k as u32 + self.words[k].trailing_zeros()),
        }
    }

    /// The set without its least number. The empty set stays empty.
    pub fn without_least(&self) -> Bits<W>
        ensures value { (i : ℕ) → IsLeast self.now i → result ≡ without self.now (2 ^ i) }
        ensures empty { self.now ≡ 0 → result ≡ 0 }
        ensures fewer { 0 < self.now → result < self.now }
    {
        match first_word(&self.words) {
            None => *self,
            Some(k) => {
                let mut rest = *self;
                let word = rest.words[k];
                rest.words[k] = word & (word - 1);
                rest
            }
        }
    }
}

impl Bits<1> {
    /// The set in one word: number i is in where bit i is 1.
    pub fn from_word(word: u64) -> Bits<1>
        ensures { result ≡ word }
    {
        Bits { words: [word] }
    }

    /// The one word that the set is in.
    pub fn word(&self) -> u64
        ensures { result ≡ self.now }
    {
        self.words[0]
    }
}

impl<const W: usize> PartialEq for Bits<W> {
    ghost use Rattle.std.specs.Prelude.{nat_eq};
    ghost use Rattle.std.specs.Cmp.{partial_equiv_from_equiv};
    ghost use Rattle.std.proofs.lemmas.Cmp.{nat_eq_equiv};

    ghost eq = { nat_eq };

    ghost laws = { partial_equiv_from_equiv nat_eq_equiv };

    fn eq(&self, other: &Bits<W>) -> bool {
        self.words == other.words
    }
}

impl<const W: usize> Eq for Bits<W> {
    ghost use Rattle.std.proofs.lemmas.Cmp.{nat_eq_equiv};

    ghost laws = { nat_eq_equiv };
}

/// The place of the first word that is not 0.
fn first_word(words: &[u64]) -> Option<usize>
    ensures { MatchOption result ((j : ℕ) → slice_index words.now j ≡ 0) (IsFirstWord words.now) }
{
    for k in 0..words.len() {
        if words[k] != 0 {
            return Some(k);
        }
    }
    None
}
