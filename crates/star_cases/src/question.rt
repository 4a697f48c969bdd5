//! What may be asked of a core, and how that is written: a word, and a number behind it.
use crate::words::{Words, byte_of, short_of, words_of};

/// What is asked of a core.
#[derive(Clone, Copy)]
pub(crate) enum Question {
    /// The next reply of a seat, which is taken.
    Reply(u32),

    /// All replies of a seat that may be taken.
    Replies(u32),

    /// The life of a query.
    Life(u64),

    /// The first query of a seat that may still be answered.
    Pending(u32),

    /// What the filter of a dimension did so far.
    Tally(u8),

    /// How many batches are in flight.
    Batches,

    /// How many positions all cuts held together.
    Positions,

    /// How many commits there were.
    Commits,
}

/// The question that a line says, if it says one.
pub(crate) fn question_of(line: &str) -> Option<Question> {
    match words_of(line)? {
        Words::Alone(word) => alone(word),
        Words::WithOne(word, number) => with_one(word, number),
        Words::WithTwo(_, _, _) => None,
    }
}

/// The question of a word alone.
fn alone(word: &str) -> Option<Question> {
    match word {
        "batches" => Some(Question::Batches),
        "positions" => Some(Question::Positions),
        "commits" => Some(Question::Commits),
        _ => None,
    }
}

/// The question of a word and a number.
fn with_one(word: &str, number: u64) -> Option<Question> {
    match word {
        "reply" => Some(Question::Reply(short_of(number)?)),
        "replies" => Some(Question::Replies(short_of(number)?)),
        "life" => Some(Question::Life(number)),
        "pending" => Some(Question::Pending(short_of(number)?)),
        "tally" => Some(Question::Tally(byte_of(number)?)),
        _ => None,
    }
}
