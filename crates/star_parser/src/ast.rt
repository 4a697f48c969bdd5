//! A statement as it is written: its names are not yet bound to tables and columns.

use crate::lists::{AstColumnList, AstItemList, GroupColumnList, NameList};
use crate::tree::{Column, Tree};
use star_values::{Kind, SmallText};

/// A statement.
#[derive(Debug, Drop)]
pub enum Ast {
    /// The first column is the key. No column has a reference.
    Dimension {
        name: SmallText,
        columns: AstColumnList,
    },
    Fact {
        name: SmallText,
        columns: AstColumnList,
    },
    Load {
        name: SmallText,
        header: bool,
    },
    Delete {
        name: SmallText,
        condition: Option<Tree>,
    },
    Select {
        items: AstItemList,
        tables: NameList,
        condition: Option<Tree>,
        groups: GroupColumnList,
    },
    Wait,
}

/// A column of a declaration. That of a fact table may name the dimension that it references.
#[derive(Debug, PartialEq, Eq, Drop)]
pub struct AstColumn {
    pub name: SmallText,
    pub kind: Kind,
    pub references: Option<SmallText>,
}

/// An item of a select list: a column, `count(*)`, or a function of a column.
#[derive(Debug, PartialEq, Eq, Drop)]
pub enum AstItem {
    Plain(Column),
    CountAll,
    Count(Column),
    Sum(Column),
    Min(Column),
    Max(Column),
}
