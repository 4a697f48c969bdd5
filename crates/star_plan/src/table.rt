//! Which table of a schema.

/// A table of a schema.
#[derive(Clone, Copy, Debug, PartialEq, Eq, PartialOrd, Ord)]
pub enum Table {
    Fact,
    /// The number of a dimension, from 0, in the order of declaration.
    Dimension(u8),
}
