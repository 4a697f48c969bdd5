//! How large a core is.

/// How many of each a core has.
#[derive(Clone, Copy, Debug, PartialEq, Eq)]
pub struct RunSettings {
    /// Threads beside the front, 0 to 16.
    pub workers: u32,

    /// Queries that run at once, 1 to 64.
    pub slots: u32,

    /// Rows of a batch, 1 to 1024.
    pub batch: u32,

    /// Those who submit statements or take batches, 1 to 128.
    pub seats: u32,
}
