//! What a commit answers.

/// What an accepted load or delete did.
#[derive(Clone, Copy, Debug, PartialEq, Eq)]
pub struct Done {
    /// The number of the commit, from 1.
    pub commit: u64,

    /// How many rows were loaded, or how many versions were ended.
    pub rows: u64,
}
