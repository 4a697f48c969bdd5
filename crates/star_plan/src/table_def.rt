//! A declared table.
use crate::column_def::ColumnList;
use star_values::{ListOf, SmallText};

/// A declared table. The first column of a dimension is its key.
#[derive(Debug, PartialEq, Eq, Drop)]
pub struct TableDef {
    pub name: SmallText,
    pub columns: ColumnList,
}

/// Tables, in the order of their declarations.
pub type TableList = ListOf<TableDef>;
