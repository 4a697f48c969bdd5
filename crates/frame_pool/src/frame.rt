//! Words of memory that one owner holds. A stock of them is in `pool`.
ghost use Rattle.std.specs.Prelude.{◌≡◌, ◌<◌, length, slice_set};
ghost use Rattle.std.specs.List.{refill};
ghost use Rattle.std.specs.Borrow.{Lends, Array, sem, u64 as word};
ghost use Rattle.frame_pool.specs.contracts.frame.Frame.{the_row};

use std::marker::Model;

/// A vector of words of its own, which it frees when it is dropped.
#[derive(Debug, Drop)]
pub struct Frame {
    pub(crate) words: Vec<u64>,
}

impl Model for Frame {
    ghost use Rattle.std.specs.Prelude.{List, ℕ};

    ghost Value = { List ℕ };

    ghost view = { λ frame. frame.words.items };
}

impl Frame {
    pub fn words(&self) -> &[u64]
        ensures { result.now ≡ self.now }
    {
        self.words.as_slice()
    }

    pub fn words_mut(&mut self) -> &mut [u64]
        ensures* writes_back { sem 𝓛 (Lends the_row (Array word 0) self.entry result
            (refill (length self.entry.now) self.entry.now)) }
        ensures value { result.now ≡ self.old }
    {
        self.words.as_mut_slice()
    }

    /// Writes one word, and leaves all others.
    pub fn set_word(&mut self, place: usize, word: u64)
        requires { place < length self.old }
        ensures { self.new ≡ slice_set self.old place word }
    {
        self.words[place] = word;
    }
}
