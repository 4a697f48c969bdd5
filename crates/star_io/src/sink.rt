//! Where bytes go, and how all of a text does. A sink in memory is in `list_sink`, a real one in
//! `std_streams`.
ghost use Rattle.std.specs.Prelude.{◌≡◌, ◌<◌, ◌≤◌, true, Option, None, length, IfOk, OnOk, OnErr};
ghost use Rattle.std.specs.Io.KnownBytes.{Appends};
ghost use Rattle.star_io.specs.Faults.{CountsFault};
ghost use Rattle.star_io.specs.Link.{ReadingSide, WritingSide};
ghost use Rattle.star_io.specs.Sink.{TakesBytes};
ghost use Rattle.star_io.specs.Transfer.{AppendsFront};

use crate::failed::Failed;

/// What takes bytes, in order, until a call fails.
pub trait Sink {
    // The bytes accepted so far, where the sink tells them, how many writes have failed, and
    // whether the last one did. The count may stand still at a counter's last value.
    ghost writing: { Self → WritingSide };

    // What the sink tells as a source, where it is the writing side of a link.
    ghost reading_side: { Self → Option ReadingSide } = { λ _. None };

    /// Takes bytes from the front of `bytes`, at least one, and answers how many.
    fn write(&mut self, bytes: &[u8]) -> Result<usize, Failed>
        requires { 0 < length bytes.now }
        ensures some { IfOk result (λ n. (0 < n) × (n ≤ length bytes.now)) }
        ensures takes { TakesBytes (writing self.old) (writing self.new) bytes.now result }
        ensures apart { reading_side self.new ≡ reading_side self.old };
}

/// Writes all of `text` to `sink`, and stops at the first write that fails.
pub fn write_all<K: Sink>(sink: &mut K, text: &[u8]) -> Result<(), Failed>
    ensures ok { OnOk result
        (Appends (K.writing sink.old).taken (K.writing sink.new).taken text.now) }
    ensures err { OnErr result
        (AppendsFront (K.writing sink.old).taken (K.writing sink.new).taken text.now) }
    ensures faults { CountsFault (K.writing sink.old).faults (K.writing sink.new).faults result }
    ensures last { OnErr result ((K.writing sink.new).failed ≡ true) }
    ensures apart { K.reading_side sink.new ≡ K.reading_side sink.old }
{
    let mut rest = text;
    'pieces: while !rest.is_empty() {
        let Ok(n) = sink.write(rest) else {
            return Err(Failed);
        };
        rest = &rest[n..];
    }
    Ok(())
}
