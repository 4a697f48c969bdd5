//! The reply to a statement.

use star_plan::AnswerRows;
use star_values::{Refusal, SmallText};

/// What a statement is answered. Each statement has one reply.
#[derive(Debug, PartialEq, Eq, Drop)]
pub enum Reply {
    /// An accepted declaration of the table of this name.
    Table(SmallText),
    /// An accepted load or delete: the number of its commit, from 1, and the rows that it loaded or
    /// ended.
    Commit { number: u64, rows: u64 },
    /// A query's answer: the last commit that it sees, and its rows.
    Answer { snapshot: u64, rows: AnswerRows },
    /// A query with a sum that is no integer of 64 bits with sign: the last commit that it sees.
    Overflow { snapshot: u64 },
    /// A statement that found no memory. It changed nothing.
    Memory,
    /// A refused statement. It changed nothing.
    Refused(Refusal),
    /// A `wait`, which every earlier reply stands before.
    Waited,
}
