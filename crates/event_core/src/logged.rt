//! What is kept of a change beside the tables.
use star_store::ChangeKind;

/// A statement that changed the tables. Its rows and positions are in the tables alone.
#[derive(Clone, Copy, Debug, PartialEq, Eq)]
pub(crate) struct Logged {
    /// Who submitted it.
    pub(crate) seat: u32,

    /// Its number, from 1.
    pub(crate) statement: u64,

    pub(crate) kind: ChangeKind,
}
