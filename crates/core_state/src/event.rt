//! What may happen to the core. When an event may come and what it changes is in `specs/`.
use script_reader::Statement;

/// One step of the core. Numbers of queries are those of their statements.
#[derive(Debug, Drop)]
pub enum Event {
    /// A seat submits a statement.
    Submit { seat: u32, statement: Statement },

    /// The query that waits the longest gets a free slot.
    Reserve { query: u64, slot: u32 },

    /// The filter of a dimension is built for a query.
    Build { query: u64, dimension: u8 },

    /// A query for which every filter is built begins its lap.
    Start { query: u64 },

    /// The scan cuts the next batch.
    Cut,

    /// A worker takes a batch, with the present version of the filter that it meets next.
    Take { worker: u32, batch: u64 },

    /// A worker takes a batch, with the present versions of all filters that it did not
    /// pass, in their present order.
    Carry { worker: u32, batch: u64 },

    /// A worker gives back its batch, which has passed the versions in its hand.
    Give { worker: u32 },

    /// The rows of a batch are folded into the groups of the queries that they have a bit of.
    Distribute { batch: u64 },

    /// A slot is taken from a query that is to be answered, or has no answer.
    Finish { slot: u32 },

    /// The filter of a dimension is cleared of a slot.
    Clear { slot: u32, dimension: u8 },

    /// A slot of which no filter has a bit is free again.
    Release { slot: u32 },

    /// The filters are ordered by their drop rates.
    Reorder,

    /// Nobody wants the answer of a query any more.
    Abandon { query: u64 },
}
