//! A column of a declared table.
use star_values::{Kind, ListOf, SmallText};

/// A column of a declared table.
#[derive(Debug, PartialEq, Eq, Drop)]
pub struct ColumnDef {
    pub name: SmallText,
    pub kind: Kind,
    /// The number of the dimension whose keys stand in this column of the fact table.
    pub target: Option<u8>,
}

/// The columns of a table, in the order of its declaration.
pub type ColumnList = ListOf<ColumnDef>;
