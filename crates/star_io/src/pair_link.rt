//! A link in memory, of a source and a sink.
ghost use Rattle.std.specs.Prelude.{◌≡◌, ◌<◌, ◌≤◌, Some, length, IfOk};
ghost use Rattle.star_io.specs.PairLink.{reading_of, writing_of};
ghost use Rattle.star_io.specs.Sink.{TakesBytes};
ghost use Rattle.star_io.specs.Source.{GivesBytes};

use crate::failed::Failed;
use crate::link::Link;
use crate::list_sink::ListSink;
use crate::piece_source::PieceSource;
use crate::sink::Sink;
use crate::source::Source;
use std::marker::Model;

/// A link whose reads are those of a source in memory, and its writes those of a sink in memory.
#[derive(Drop)]
pub struct PairLink {
    source: PieceSource,
    sink: ListSink,
}

impl Model for PairLink {
    ghost use Rattle.star_io.specs.PairLink.{PairState};

    ghost Value = { PairState };

    ghost view = { λ s. record { source = s.source; sink = s.sink } };
}

impl PairLink {
    /// A link that reads from `source` and writes to `sink`, as each of them stands.
    pub fn new(source: PieceSource, sink: ListSink) -> PairLink
        ensures { result ≡ record { source = source; sink = sink } }
    {
        PairLink { source, sink }
    }

    /// All that was written to the link so far, in order.
    pub fn bytes(&self) -> &[u8]
        ensures { result.now ≡ self.now.sink.taken }
    {
        self.sink.bytes()
    }
}

impl Source for PairLink {
    ghost use Rattle.star_io.specs.PieceSource.{GivesOnePiece};

    ghost reading = { reading_of };

    ghost writing_side = { λ s. Some (writing_of s) };

    fn read(&mut self, into: &mut [u8]) -> Result<usize, Failed>
        requires { 0 < length into.old }

        // As every source.
        ensures bound { IfOk result (λ n. n ≤ length into.new) }
        ensures gives { GivesBytes (reading_of self.old) (reading_of self.new) into.new result }

        // As its own source does, and the sink stays.
        ensures piece { GivesOnePiece self.old.source self.new.source (length into.old) result }
        ensures sink { self.new.sink ≡ self.old.sink }
    {
        self.source.read(into)
    }
}

impl Sink for PairLink {
    ghost use Rattle.star_io.specs.ListSink.{TakesOnePiece};

    ghost writing = { writing_of };

    ghost reading_side = { λ s. Some (reading_of s) };

    fn write(&mut self, bytes: &[u8]) -> Result<usize, Failed>
        requires { 0 < length bytes.now }

        // As every sink.
        ensures some { IfOk result (λ n. (0 < n) × (n ≤ length bytes.now)) }
        ensures takes { TakesBytes (writing_of self.old) (writing_of self.new) bytes.now result }

        // As its own sink does, and the source stays.
        ensures piece { TakesOnePiece self.old.sink self.new.sink bytes.now result }
        ensures source { self.new.source ≡ self.old.source }
    {
        self.sink.write(bytes)
    }
}

impl Link for PairLink {
    ghost use Rattle.std.proofs.Common.{rules};

    ghost writing_apart = { Prim.search rules };

    ghost reading_apart = { Prim.search rules };
}
