//! The replies to the statements that are whole, written one after the other.
ghost use Rattle.script_reader.specs.Reading.{StaysFed};
ghost use Rattle.query_meaning.specs.Keyed.{plain};
ghost use Rattle.script_run.specs.Answer.{CountsHalt};
ghost use Rattle.script_run.specs.Replied.{AnswersWhole, GivesNext};

use crate::halt::Halt;
use crate::reply::{is_refusal, reply_or_memory, text_of};
use script_reader::{NextStatement, ScriptReader};
use star_io::{Sink, write_all};
use star_store::Store;
use star_values::{ByteText, NoMemory};
use std::alloc::Global;
use std::hash::RandomState;

/// Writes the reply to each statement that is whole, in order, and tells whether
/// some reply is a refusal.
pub(crate) fn answer_whole<K: Sink>(
    alloc: Global,
    hash_keys: RandomState,
    store: &mut Store,
    reader: &mut ScriptReader,
    sink: &mut K,
) -> Result<bool, Halt>
    ensures answers { AnswersWhole result (plain store.old) reader.old (plain store.new) reader.new
        (K.writing sink.old).taken (K.writing sink.new).taken }
    ensures stays { StaysFed reader.old reader.new }
    ensures faults { CountsHalt result (K.writing sink.old) (K.writing sink.new) }
{
    let mut refused = false;
    'statements: loop {
        let Some(answered) = answer_next(alloc, hash_keys, store, reader)? else {
            return Ok(refused);
        };
        write_all(sink, answered.text.as_bytes())?;
        refused |= answered.refused;
    }
}

/// The reply to a statement.
#[derive(Drop)]
struct Answered {
    text: ByteText,
    refused: bool,
}

/// Does what the first statement that is whole says, and gives its reply, where there is one. It
/// fails where no memory is left for the statement to be read, or for the text of its reply.
fn answer_next(
    alloc: Global,
    hash_keys: RandomState,
    store: &mut Store,
    reader: &mut ScriptReader,
) -> Result<Option<Answered>, NoMemory>
    ensures gives { GivesNext result (plain store.old) reader.old (plain store.new) reader.new }
    ensures stays { StaysFed reader.old reader.new }
{
    let NextStatement::Got(statement) = reader.next_statement()? else {
        return Ok(None);
    };
    let reply = reply_or_memory(alloc, hash_keys, store, statement);
    let refused = is_refusal(&reply);
    let text = text_of(alloc, &reply);
    drop(reply);
    Ok(Some(Answered {
        text: text?,
        refused,
    }))
}
