//! One connection: bytes come in and go out. Links in memory are in `pair_link`, real ones in
//! `tcp_link`.
ghost use Rattle.std.specs.Prelude.{◌≡◌};

use crate::sink::Sink;
use crate::source::Source;

/// A source and a sink whose two sides are apart: a read leaves what was written, and a write
/// leaves what is still to be read.
///
/// A read leaves `writing_side`, and a write `reading_side`. The laws say what stands in each.
pub trait Link: Source + Sink {
    // Where the writing side is as it was, so is all that the link tells as a sink.
    ghost writing_apart: { (old new : Self) → Self.writing_side new ≡ Self.writing_side old
        → Self.writing new ≡ Self.writing old };

    // Where the reading side is as it was, so is all that it tells as a source.
    ghost reading_apart: { (old new : Self) → Self.reading_side new ≡ Self.reading_side old
        → Self.reading new ≡ Self.reading old };
}
