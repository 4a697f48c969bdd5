//! One row of a dimension. All of them, and their index, are in `dimension_rows`.
use star_values::Row;

/// How many rows a dimension may have.
pub const MAX_DIMENSION_ROWS: usize = 262_144;

/// A row of a dimension and the commit that loaded it.
#[derive(Debug, Drop)]
pub struct DimensionRow {
    /// The values in the order of the table's columns. The first is the key.
    pub row: Row,

    /// The number of the commit that loaded the row.
    pub commit: u64,
}
