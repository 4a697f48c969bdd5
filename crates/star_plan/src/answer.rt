//! The answer of a query.
use crate::cell::CellList;
use star_values::ListOf;

/// The answer of a query.
#[derive(Debug, PartialEq, Eq, Drop)]
pub enum Answer {
    /// One row for each group.
    Rows(AnswerRows),
    /// Some sum of some group, as a whole, is no integer of 64 bits with sign.
    Overflow,
}

/// The rows of an answer, in the order of the groups.
pub type AnswerRows = ListOf<CellList>;
