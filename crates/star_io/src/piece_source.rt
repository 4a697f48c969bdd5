//! A source in memory that gives its bytes in pieces, and fails where it is told to.
ghost use Rattle.std.specs.Prelude.{◌≡◌, ◌<◌, ◌≤◌, false, length, min, take, IfOk};
ghost use Rattle.star_io.specs.Source.{GivesBytes};

use crate::failed::Failed;
use crate::source::Source;
use std::marker::Model;

/// A source over bytes in memory: each read gives at most `piece` of them, and the reads whose
/// numbers, counted from 0, are listed fail.
///
/// Reading takes no memory. Numbers and counts stand still at the last value of a `u64`.
#[derive(Drop)]
pub struct PieceSource {
    bytes: Vec<u8>,
    at: usize,
    piece: usize,
    fails: Vec<u64>,
    calls: u64,
    faults: u64,
    failed: bool,
    ended: bool,
}

impl Model for PieceSource {
    ghost use Rattle.std.specs.Prelude.{◌<◌, ◌≤◌, length, drop};
    ghost use Rattle.star_io.specs.PieceSource.{PieceState};

    ghost Value = { PieceState };

    ghost view = { λ s. record {
      left = drop s.at s.bytes.items;
      piece = s.piece;
      fails = s.fails.items;
      calls = s.calls;
      faults = s.faults;
      failed = s.failed;
      ended = s.ended;
    } };

    ghost invariant = { λ s. (s.at ≤ length s.bytes.items) × (0 < s.piece) };
}

impl PieceSource {
    /// A source of `bytes` of which no read was made yet.
    pub fn new(bytes: Vec<u8>, piece: usize, fails: Vec<u64>) -> PieceSource
        requires { 0 < piece }
        ensures { result ≡ record {
          left = bytes.items;
          piece = piece;
          fails = fails.items;
          calls = 0;
          faults = 0;
          failed = false;
          ended = false;
        } }
    {
        PieceSource {
            bytes,
            at: 0,
            piece,
            fails,
            calls: 0,
            faults: 0,
            failed: false,
            ended: false,
        }
    }
}

impl Source for PieceSource {
    ghost use Rattle.star_io.specs.PieceSource.{GivesOnePiece, source_side};

    ghost reading = { source_side };

    fn read(&mut self, into: &mut [u8]) -> Result<usize, Failed>
        requires { 0 < length into.old }

        // As every source.
        ensures bound { IfOk result (λ n. n ≤ length into.new) }
        ensures gives { GivesBytes (source_side self.old) (source_side self.new) into.new result }

        // Which reads fail, how many bytes the others give, and all that changes.
        ensures piece { GivesOnePiece self.old self.new (length into.old) result }
    {
        let number = self.calls;
        self.calls = number.saturating_add(1);
        if self.fails.contains(&number) {
            self.faults = self.faults.saturating_add(1);
            self.failed = true;
            return Err(Failed);
        }
        self.failed = false;
        let n = copy_piece(&self.bytes[self.at..], self.piece, into);
        self.at += n;
        self.ended = n == 0 || self.ended;
        Ok(n)
    }
}

/// Copies the first bytes of `from` to the front of `to`, at most `piece` of them.
fn copy_piece(from: &[u8], piece: usize, to: &mut [u8]) -> usize
    ensures count { result ≡ min (min piece (length to.old)) (length from.now) }
    ensures copied { take result to.new ≡ take result from.now }
{
    let n = piece.min(to.len()).min(from.len());
    to[..n].copy_from_slice(&from[..n]);
    n
}
