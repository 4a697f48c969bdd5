//! Rows of words, each row a set. One set in W words is in `bits`.
ghost use Rattle.std.specs.Prelude.{◌≡◌, ℕ, ◌%◌, ◌<◌, ◌≤◌, length, slice_index, bit_and};
ghost use Rattle.bit_words.specs.Words.{word_of};

use crate::bits::Bits;
use std::simd::prelude::*;

/// Leaves in each row the numbers that the vector has too. A row has W words.
pub fn and_all<const W: usize>(rows: &mut [u64], vector: &Bits<W>)
    requires words { 1 ≤ W }
    requires whole { length rows.old % W ≡ 0 }
    ensures each_word { (k : ℕ) → k < length rows.old →
        slice_index rows.new k ≡ bit_and (slice_index rows.old k) (word_of vector.now (k % W)) }
{
    if W == 1 {
        and_lanes(rows, vector.words[0]);
    } else {
        and_words(rows, &vector.words);
    }
}

/// Leaves in each word the bits that one word has too, eight words at a time.
fn and_lanes(words: &mut [u64], word: u64)
    ensures { (k : ℕ) → k < length words.old →
        slice_index words.new k ≡ bit_and (slice_index words.old k) word }
{
    let lanes = u64x8::splat(word);
    for n in 0..words.len() / 8 {
        let eight = u64x8::from_slice(&words[8 * n..]);
        (eight & lanes).copy_to_slice(&mut words[8 * n..]);
    }
    for k in words.len() / 8 * 8..words.len() {
        words[k] &= word;
    }
}

/// Leaves in each word the bits that one of the others has too. Behind the last of
/// them the first comes again.
fn and_words(words: &mut [u64], others: &[u64])
    requires { 1 ≤ length others.now }
    ensures { (k : ℕ) → k < length words.old →
        slice_index words.new k
        ≡ bit_and (slice_index words.old k) (slice_index others.now (k % length others.now)) }
{
    for k in 0..words.len() {
        words[k] &= others[k % others.len()];
    }
}
