//! One read of a script.
ghost use Rattle.std.specs.Prelude.{◌≡◌, ◌<◌, length};
ghost use Rattle.script_run.specs.Pieces.{CountsPieceFault, FindsEnd, MayBeFed, ReadsPast, TakesPiece};

use script_reader::{FeedFault, SCRIPT_LIMIT, ScriptReader};
use star_io::{Failed, Source};

/// What became of a read.
#[derive(Clone, Copy, Debug, PartialEq, Eq)]
pub enum Piece {
    /// The reader has the bytes that came.
    Fed,
    /// The input has ended.
    Ended,
    /// The read failed.
    Fault,
    /// The byte past the limit came.
    Limit,
    /// No memory was left for the bytes that came.
    NoMemory,
}

/// Reads once, by way of `piece`, and feeds the reader with what came. Where as many bytes as the
/// limit were fed, one byte more is asked for, which the reader is not fed with.
pub fn read_piece<S: Source>(source: &mut S, piece: &mut [u8], reader: &mut ScriptReader) -> Piece
    requires piece { 0 < length piece.old }
    requires reader { MayBeFed reader.old }
    ensures takes { TakesPiece result reader.old reader.new
        (S.reading source.old) (S.reading source.new) }
    ensures end { FindsEnd result (S.reading source.old) (S.reading source.new) }
    ensures faults { CountsPieceFault result (S.reading source.old) (S.reading source.new) }
    ensures apart { S.writing_side source.new ≡ S.writing_side source.old }
{
    let room = (SCRIPT_LIMIT - reader.fed()).min(piece.len());
    if room == 0 {
        return read_past_the_limit(source);
    }
    let into = &mut piece[..room];
    match source.read(into) {
        Ok(0) => Piece::Ended,
        Ok(n) => match reader.feed(&into[..n]) {
            Ok(()) => Piece::Fed,
            Err(FeedFault::Limit) => Piece::Limit,
            Err(FeedFault::Memory) => Piece::NoMemory,
        },
        Err(Failed) => Piece::Fault,
    }
}

/// Reads the byte past the limit, if there is one.
fn read_past_the_limit<S: Source>(source: &mut S) -> Piece
    ensures reads { ReadsPast result (S.reading source.old) (S.reading source.new) }
    ensures end { FindsEnd result (S.reading source.old) (S.reading source.new) }
    ensures faults { CountsPieceFault result (S.reading source.old) (S.reading source.new) }
    ensures apart { S.writing_side source.new ≡ S.writing_side source.old }
{
    let mut one = [0u8];
    match source.read(&mut one) {
        Ok(0) => Piece::Ended,
        Ok(_) => Piece::Limit,
        Err(Failed) => Piece::Fault,
    }
}
