//! A statement of a seat. The statements of a seat in their order are in `seat`.
ghost use Rattle.std.specs.Prelude.{◌≡◌};

use reply_text::Reply;
use std::fmt;
use std::marker::Model;
use std::snapshot::Snapshot;

/// A statement that a seat submitted.
#[derive(Debug, Drop)]
pub struct Submitted {
    /// Its number, from 1. An accepted query has it too.
    pub number: u64,

    pub standing: Standing,
}

/// What became of a statement so far.
#[derive(Debug, Drop)]
pub enum Standing {
    /// Its reply is there, and waits to be taken.
    Waits(Reply),

    /// It is a query, whose answer was not taken.
    IsAsked,

    /// This reply to it was taken. It is no query.
    IsTaken(TakenReply),

    /// It is a query, whose answer was taken.
    IsAnswered,

    /// It is a query that was abandoned.
    IsAbandoned,
}

/// A reply that was taken. Contracts go on seeing it, and it has no bytes.
#[derive(Drop)]
pub struct TakenReply {
    reply: Snapshot<Reply>,
}

impl Model for TakenReply {
    ghost use Rattle.reply_text.specs.declared.reply.Reply.{Reply};

    ghost Value = { Reply };

    ghost view = { λ taken. taken.reply.value };
}

impl TakenReply {
    /// What is seen of a reply that goes to who takes it.
    pub(crate) fn of(reply: &Reply) -> TakenReply
        ensures { result ≡ reply.now }
    {
        TakenReply {
            reply: Snapshot::of(reply),
        }
    }
}

impl fmt::Debug for TakenReply {
    fn fmt<W: fmt::Write>(&self, f: &mut fmt::Formatter<W>) -> fmt::Result {
        f.write_str("TakenReply")
    }
}
