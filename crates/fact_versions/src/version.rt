//! One version of a fact row. The list of all of them is in `fact_versions`.
use star_values::Row;

/// How many key numbers a version keeps, one for each dimension that a fact table may reference.
pub const KEYS_IN_A_VERSION: usize = 8;

/// How many versions a fact table may have, ended ones included.
pub const MAX_VERSIONS: usize = 1_048_576;

/// A fact row from the commit that loaded it to the commit that deleted it.
#[derive(Debug, Drop)]
pub struct Version {
    pub row: Row,

    /// The key numbers: for each dimension that the fact table references, the position of the
    /// dimension row with this row's foreign key, from 0, and 0 for each other dimension.
    pub keys: [u32; KEYS_IN_A_VERSION],

    /// The number of the commit that loaded the row.
    pub begin: u64,

    /// The number of the commit that deleted the row, 0 while none has.
    pub end: u64,
}
