//! A set of numbers, a bit for each. Which lives two such sets tell is in `old_lives`.
ghost use Rattle.std.specs.Prelude.{◌≡◌, ℕ, ◌/◌, ◌%◌, ◌<◌, ◌≤◌, ◌^◌, ◌==◌, ◌&&◌, ◌||◌, [], length, slice_index, slice_set, if◌then◌else◌, OnOk};
ghost use Rattle.std.specs.Int.{bit_at};
ghost use Rattle.bit_words.specs.Sets.{with_number};
ghost use Rattle.pipeline_manager.specs.LetGo.{is_in};

use bit_words::Bits;
use star_values::NoMemory;
use std::alloc::Global;
use std::marker::Model;

/// A set of numbers below 64 times as many as it has words.
///
/// No call takes memory but `grow`.
#[derive(Debug, Drop)]
pub(crate) struct NumberSet {
    words: Vec<u64>,
}

impl Model for NumberSet {
    ghost use Rattle.std.specs.Prelude.{List, ℕ};

    ghost Value = { List ℕ };

    ghost view = { λ set. set.words.items };
}

impl NumberSet {
    /// The set of no numbers, which has no words and takes no memory yet.
    pub(crate) fn new(alloc: Global) -> NumberSet
        ensures { result ≡ [] }
    {
        NumberSet {
            words: Vec::new(alloc),
        }
    }

    /// Whether a number is in. It may be any.
    pub(crate) fn has(&self, number: u64) -> bool
        ensures { result ≡ is_in self.now number }
    {
        let word = word_at(self.words.as_slice(), (number / 64) as usize);
        has_bit(word, (number % 64) as u32)
    }

    /// Puts a number in, if that is wanted.
    pub(crate) fn put_if(&mut self, number: u64, wanted: bool)
        requires { number / 64 < length self.old }
        ensures members { (other : ℕ) →
            is_in self.new other ≡ (is_in self.old other || (wanted && (number == other))) }
        ensures words { length self.new ≡ length self.old }
    {
        put_if(&mut self.words, number, wanted);
    }

    /// Makes room for a number and for all below it.
    pub(crate) fn grow(&mut self, number: u64) -> Result<(), NoMemory>
        ensures members { (other : ℕ) → is_in self.new other ≡ is_in self.old other }
        ensures words { length self.old ≤ length self.new }
        ensures room { OnOk result (number / 64 < length self.new) }
    {
        grow(&mut self.words, (number / 64) as usize)
    }
}

/// The word at a place, 0 past the last one.
fn word_at(words: &[u64], place: usize) -> u64
    ensures { result ≡ slice_index words.now place }
{
    if place < words.len() { words[place] } else { 0 }
}

fn has_bit(word: u64, bit: u32) -> bool
    requires { bit < 64 }
    ensures { result ≡ (bit_at word bit == 1) }
{
    Bits::<1>::from_word(word).has(bit)
}

/// The word with one bit more set, if that is wanted.
fn with_bit_if(word: u64, bit: u32, wanted: bool) -> u64
    requires { bit < 64 }
    ensures { result ≡ (if wanted then with_number word bit else word) }
{
    Bits::<1>::from_word(word).with_if(bit, wanted).word()
}

/// Sets the bit of a number, if that is wanted.
fn put_if(words: &mut Vec<u64>, number: u64, wanted: bool)
    requires { number / 64 < length words.old.items }
    ensures { words.new.items ≡ slice_set words.old.items (number / 64)
        (if wanted then with_number (slice_index words.old.items (number / 64)) (number % 64)
        else slice_index words.old.items (number / 64)) }
{
    let place = (number / 64) as usize;
    words[place] = with_bit_if(words[place], (number % 64) as u32, wanted);
}

/// Puts words without numbers behind the others, until there is one at a place.
fn grow(words: &mut Vec<u64>, place: usize) -> Result<(), NoMemory>
    requires { place < 2 ^ 63 }
    ensures same { (k : ℕ) → slice_index words.new.items k ≡ slice_index words.old.items k }
    ensures more { length words.old.items ≤ length words.new.items }
    ensures room { OnOk result (place < length words.new.items) }
{
    if place < words.len() {
        return Ok(());
    }
    words.resize(place + 1, 0)?;
    Ok(())
}
