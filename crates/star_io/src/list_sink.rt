//! A sink in memory that takes bytes in pieces, and fails where it is told to.
ghost use Rattle.std.specs.Prelude.{◌≡◌, ◌<◌, ◌≤◌, [], false, length, IfOk};
ghost use Rattle.star_io.specs.Sink.{TakesBytes};

use crate::failed::Failed;
use crate::sink::Sink;
use std::alloc::Global;
use std::marker::Model;

/// A sink that keeps what it takes in memory: each write takes at most `piece` bytes, and the
/// writes whose numbers, counted from 0, are listed fail. So does one that finds no memory.
///
/// Numbers and counts stand still at the last value of a `u64`.
#[derive(Drop)]
pub struct ListSink {
    taken: Vec<u8>,
    piece: usize,
    fails: Vec<u64>,
    calls: u64,
    faults: u64,
    failed: bool,
}

impl Model for ListSink {
    ghost use Rattle.std.specs.Prelude.{◌-◌, ◌<◌, length, vec_capacity};
    ghost use Rattle.star_io.specs.ListSink.{ListState};

    ghost Value = { ListState };

    ghost view = { λ s. record {
      taken = s.taken.items;
      piece = s.piece;
      fails = s.fails.items;
      calls = s.calls;
      faults = s.faults;
      failed = s.failed;
      room = vec_capacity s.taken - length s.taken.items;
    } };

    ghost invariant = { λ s. 0 < s.piece };
}

impl ListSink {
    /// A sink that has taken nothing. It takes no memory until the first write.
    pub fn new(alloc: Global, piece: usize, fails: Vec<u64>) -> ListSink
        requires { 0 < piece }
        ensures { result ≡ record {
          taken = [];
          piece = piece;
          fails = fails.items;
          calls = 0;
          faults = 0;
          failed = false;
          room = 0;
        } }
    {
        ListSink {
            taken: Vec::new(alloc),
            piece,
            fails,
            calls: 0,
            faults: 0,
            failed: false,
        }
    }

    /// All that was taken so far, in order.
    pub fn bytes(&self) -> &[u8]
        ensures { result.now ≡ self.now.taken }
    {
        self.taken.as_slice()
    }
}

impl Sink for ListSink {
    ghost use Rattle.star_io.specs.ListSink.{TakesOnePiece, sink_side};

    ghost writing = { sink_side };

    fn write(&mut self, bytes: &[u8]) -> Result<usize, Failed>
        requires { 0 < length bytes.now }

        // As every sink.
        ensures some { IfOk result (λ n. (0 < n) × (n ≤ length bytes.now)) }
        ensures takes { TakesBytes (sink_side self.old) (sink_side self.new) bytes.now result }

        // A write that is listed fails; another takes a whole piece, or finds no memory.
        ensures piece { TakesOnePiece self.old self.new bytes.now result }
    {
        let number = self.calls;
        self.calls = number.saturating_add(1);
        let n = self.piece.min(bytes.len());
        if self.fails.contains(&number) || self.taken.extend_from_slice(&bytes[..n]).is_err() {
            self.faults = self.faults.saturating_add(1);
            self.failed = true;
            return Err(Failed);
        }
        self.failed = false;
        Ok(n)
    }
}
