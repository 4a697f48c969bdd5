//! The numbers of a list of replies.

/// What a list of replies comes to.
#[derive(Clone, Copy, Debug, PartialEq, Eq)]
pub struct Summary {
    /// How many replies there are.
    pub statements: u64,
    /// Accepted loads and deletes.
    pub commits: u64,
    /// Answered queries.
    pub answers: u64,
    /// The rows of all answers.
    pub rows: u64,
    /// Queries with a sum that is no integer of 64 bits with sign.
    pub overflows: u64,
    /// Refused statements.
    pub refused: u64,
    /// Statements that found no memory.
    pub memory: u64,
    /// The length of the text of all replies.
    pub bytes: u64,
    /// The sum of its bytes, or the greatest number of 64 bits where the sum is greater.
    pub sum: u64,
}
