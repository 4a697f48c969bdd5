//! What applying a statement answers.
ghost use Rattle.star_store.specs.declared.applied.ApplyFault.TheVariants.{Memory};

use reply_text::Reply;
use star_plan::{StarQuery, Table};
use star_values::NoMemory;

/// Which kind of change a statement made.
#[derive(Clone, Copy, Debug, PartialEq, Eq)]
pub enum ChangeKind {
    /// A dimension more was declared.
    DeclaresDimension,

    /// The fact table was declared.
    DeclaresFact,

    /// Rows were loaded into a table.
    Loads(Table),

    /// Versions were ended.
    Ends,
}

/// What is told of a statement that was applied.
#[derive(Debug, Drop)]
pub enum Applied {
    /// It changed nothing, and this is its reply.
    Replied(Reply),

    /// It changed the tables in this way, and this is its reply.
    Changed { kind: ChangeKind, reply: Reply },

    /// It is a query that every check accepts, and its answer is still to be found: that over the
    /// commits up to the snapshot, which is the number of the last commit before the statement.
    Accepted { query: StarQuery, snapshot: u64 },
}

/// Why a statement was not applied. Nothing has changed.
#[derive(Clone, Copy, Debug, PartialEq, Eq)]
pub enum ApplyFault {
    /// The tables are lent, and the statement may change them.
    Busy,

    /// No memory was left, or no number for one commit more.
    Memory,
}

impl From<NoMemory> for ApplyFault {
    ghost use Rattle.std.specs.Prelude.{◌≡◌};

    ghost from_gives = { λ _ fault. fault ≡ Memory };

    fn from(_none: NoMemory) -> ApplyFault {
        ApplyFault::Memory
    }
}
