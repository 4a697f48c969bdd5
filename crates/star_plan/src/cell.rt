//! A row of an answer. A cell of it is in `star_values`.
use star_values::{Cell, ListOf};

/// A row of an answer: its cells in the order of the select list.
pub type CellList = ListOf<Cell>;
