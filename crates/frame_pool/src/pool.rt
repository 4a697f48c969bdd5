//! The frames that are in, and how many there are in all.
ghost use Rattle.std.specs.Prelude.{◌≡◌, ◌+◌, ◌*◌, ◌^◌, ◌<◌, ◌≤◌, [], ◌∷◌, ◌++◌, length, replicate, IfOk, MatchOption};
ghost use Rattle.frame_pool.specs.Stock.{IsStock};

use crate::frame::Frame;
use star_values::NoMemory;
use std::alloc::Global;
use std::marker::Model;

/// A fixed stock of frames of one length.
///
/// A frame that was taken is its taker's alone until it is given back.
#[derive(Debug, Drop)]
pub struct Pool {
    frames: Vec<Frame>,
    made: usize,
    words: usize,
}

impl Model for Pool {
    ghost use Rattle.std.specs.Prelude.{◌≤◌, vec_capacity};
    ghost use Rattle.frame_pool.specs.Stock.{Stock, IsStock};

    ghost Value = { Stock };

    ghost view = { λ pool.
        record { made = pool.made; words = pool.words; inside = pool.frames.items } };

    ghost invariant = { λ pool.
        IsStock (record { made = pool.made; words = pool.words; inside = pool.frames.items })
        × (pool.made ≤ vec_capacity pool.frames) };
}

impl Pool {
    /// Makes all frames, with every word 0. At most 2^26 words in all.
    pub fn new(alloc: Global, frames: usize, words: usize) -> Result<Pool, NoMemory>
        requires some { (1 ≤ frames) × (1 ≤ words) }
        requires few { frames * words ≤ 2 ^ 26 }
        ensures { IfOk result (λ pool. pool ≡ record {
          made = frames;
          words = words;
          inside = replicate frames (replicate words 0);
        }) }
    {
        let mut stock = Vec::with_capacity(alloc, frames)?;
        'frames: for _ in 0..frames {
            stock.push(Frame {
                words: vec![in alloc; 0; words]?,
            })?;
        }
        Ok(Pool {
            frames: stock,
            made: frames,
            words,
        })
    }

    /// Takes a frame out, or `None` where all are out.
    pub fn take(&mut self) -> Option<Frame>
        ensures stock { IsStock self.old }
        ensures taken { MatchOption result
            ((self.old.inside ≡ []) × (self.new ≡ self.old))
            (λ frame. self.old ≡ record self.new { inside = self.new.inside ++ frame ∷ [] }) }
    {
        self.frames.pop()
    }

    /// Puts a frame back, with its words as they are.
    pub fn give(&mut self, frame: Frame)
        requires room { length self.old.inside < self.old.made }
        requires words { length frame ≡ self.old.words }
        ensures { self.new ≡ record self.old { inside = self.old.inside ++ frame ∷ [] } }
    {
        // `new` made room for every frame, so nothing is allocated here.
        let _ = self.frames.push(frame);
    }

    /// How many frames are in.
    pub fn free(&self) -> usize
        ensures stock { IsStock self.now }
        ensures count { result ≡ length self.now.inside }
    {
        self.frames.len()
    }
}
