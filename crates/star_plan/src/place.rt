//! Where a value stands in a joined row.

use star_values::ListOf;

/// A column of the fact table, or a column of a dimension.
#[derive(Clone, Copy, Debug, PartialEq, Eq)]
pub enum Place {
    /// A column of the fact table.
    Fact(u8),
    /// The number of a dimension, and a column of it.
    Dimension(u8, u8),
}

/// Places in the order of GROUP BY.
pub type PlaceList = ListOf<Place>;
