//! A run of a script in which each query is answered by itself: each statement is replied to as
//! soon as it is whole, before more is read.
ghost use Rattle.std.specs.Prelude.{◌≡◌};
ghost use Rattle.script_reader.specs.Reading.{no_reading};
ghost use Rattle.query_meaning.specs.Keyed.{plain};
ghost use Rattle.query_meaning.specs.Store.{empty_store};
ghost use Rattle.script_run.specs.Run.{AnswersScript, CountsFaults};
ghost use Rattle.script_run.specs.End.{end_of_all, end_of_halt};

use crate::answer::answer_whole;
use crate::halt::Halt;
use crate::piece::{Piece, read_piece};
use script_reader::ScriptReader;
use star_io::{RunEnd, Sink, Source};
use star_store::Store;
use std::alloc::Global;
use std::hash::RandomState;

/// The most bytes that one read asks for.
pub const PIECE_BYTES: usize = 16 * 1024;

/// Reads a script to its end, and writes the reply to each of its statements, in order, before it
/// reads on. Each query is answered by itself, at its place. A statement for which no memory is
/// left changes nothing and replies `memory`, and so does a query for whose answer none is left.
/// Rows and groups are found by hashes with these keys, on which no reply depends.
///
/// At a read that fails, and at the byte past the limit, the statements that are whole before it
/// are answered. After a write that fails nothing more is written or read. Where no memory is left
/// for a statement to be read, or for the text of a reply, the run ends.
pub fn run_alone<S: Source, K: Sink>(
    alloc: Global,
    hash_keys: RandomState,
    source: &mut S,
    sink: &mut K,
) -> RunEnd
    ensures answers { AnswersScript result (S.reading source.old) (S.reading source.new)
        (K.writing sink.old) (K.writing sink.new) }
    ensures faults { CountsFaults result
        (S.reading source.old) (S.reading source.new) (K.writing sink.old) (K.writing sink.new) }
{
    let mut store = Store::new(alloc, hash_keys);
    let mut reader = ScriptReader::new(alloc);
    answer_script(alloc, hash_keys, &mut store, &mut reader, source, sink)
}

/// Reads a script to its end by a reader that was fed with nothing, and answers its statements,
/// where no table is there yet.
fn answer_script<S: Source, K: Sink>(
    alloc: Global,
    hash_keys: RandomState,
    store: &mut Store,
    reader: &mut ScriptReader,
    source: &mut S,
    sink: &mut K,
) -> RunEnd
    requires store { plain store.old ≡ empty_store }
    requires reader { reader.old ≡ no_reading }
    ensures answers { AnswersScript result (S.reading source.old) (S.reading source.new)
        (K.writing sink.old) (K.writing sink.new) }
    ensures faults { CountsFaults result
        (S.reading source.old) (S.reading source.new) (K.writing sink.old) (K.writing sink.new) }
{
    let mut piece = [0u8; PIECE_BYTES];
    let mut refused = false;
    'pieces: loop {
        match answer_whole(alloc, hash_keys, store, reader, sink) {
            Ok(some) => refused |= some,
            Err(halt) => return end_of_halt(halt),
        }
        match read_piece(source, &mut piece, reader) {
            Piece::Fed => {}
            Piece::Ended => break 'pieces,
            Piece::Fault => return RunEnd::ReadFault,
            Piece::Limit => return RunEnd::ScriptLimit,
            Piece::NoMemory => return RunEnd::NoMemory,
        }
    }
    reader.finish();
    match answer_whole(alloc, hash_keys, store, reader, sink) {
        Ok(some) => end_of_all(refused | some),
        Err(halt) => end_of_halt(halt),
    }
}

/// How a run ends whose input was read to its end.
pub(crate) fn end_of_all(refused: bool) -> RunEnd
    ensures { result ≡ end_of_all refused }
{
    if refused {
        RunEnd::SomeRefused
    } else {
        RunEnd::Clean
    }
}

pub(crate) fn end_of_halt(halt: Halt) -> RunEnd
    ensures { result ≡ end_of_halt halt }
{
    match halt {
        Halt::WriteFault => RunEnd::WriteFault,
        Halt::NoMemory => RunEnd::NoMemory,
    }
}
