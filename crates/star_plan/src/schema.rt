//! The declared tables.
use crate::table_def::{TableDef, TableList};

/// The declared tables. A dimension has the number of its place in `dimensions`, from 0.
#[derive(Debug, PartialEq, Eq, Drop)]
pub struct Schema {
    pub dimensions: TableList,
    pub fact: Option<TableDef>,
}
