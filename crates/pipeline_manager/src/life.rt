//! What becomes of a query, and of a slot. Who holds what is in `manager`.

/// Where a query is, from its submission to its end.
#[derive(Clone, Copy, Debug, PartialEq, Eq)]
pub enum Life {
    /// No slot is held for it yet.
    Waiting,

    /// It holds a slot, and its dimensions are being built.
    Building,

    /// The scan gives it rows from the position `start` on, and `left` positions are still to come.
    Running { start: u32, left: u32 },

    /// The scan has given it every position of its extent, and its answer is to be made.
    Ending,

    /// Its answer is made.
    Answered,

    /// It gets no answer, since something failed that it needed. It holds its slot until that ends.
    Spoiled,

    /// Nobody wants its answer any more. If it has a slot, it holds it until that ends.
    Abandoned,
}

/// What a slot is used for.
#[derive(Clone, Copy, Debug, PartialEq, Eq)]
pub enum SlotState {
    Free,

    /// A query holds it. Bit j of `built` is set once dimension j is built for the query, and stays
    /// set whatever becomes of the query.
    Held { query: u64, built: u8 },

    /// No query holds it, and it is being cleared. Bit j is set while dimension j is to be cleared.
    Clearing(u8),
}

/// A query that was submitted.
#[derive(Clone, Copy, Debug, PartialEq, Eq)]
pub struct QueryLife {
    /// The number of the query.
    pub query: u64,

    /// How many positions the scan gives it, those from 0 to below this.
    pub extent: u32,

    pub life: Life,
}
