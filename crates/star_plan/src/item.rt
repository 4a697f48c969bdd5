//! What a query asks of each group.
use crate::place::Place;
use star_values::ListOf;

/// An item of a select list.
#[derive(Clone, Copy, Debug, PartialEq, Eq)]
pub enum Item {
    /// The value of a column that stands in GROUP BY.
    Plain(Place),
    CountAll,
    /// Without nulls in tables, this is the same number as `CountAll`.
    Count(Place),
    /// The column has integers.
    Sum(Place),
    Min(Place),
    Max(Place),
}

/// Items in the order of the select list.
pub type ItemList = ListOf<Item>;
