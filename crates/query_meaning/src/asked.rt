//! What is asked of versions.
use dimension_rows::DimensionRows;
use star_plan::StarQuery;
use star_values::ListOf;

/// A query at a snapshot, over the rows of the dimensions.
#[derive(Clone, Copy)]
pub(crate) struct Asked<'a> {
    pub(crate) query: &'a StarQuery,
    pub(crate) snapshot: u64,
    pub(crate) dims: &'a [DimensionRows],

    /// For each row of a dimension on which the query has a condition whether it takes the row.
    pub(crate) chosen: &'a [ListOf<bool>],
}
