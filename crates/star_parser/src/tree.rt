//! The condition of a WHERE as a tree.

use star_values::{LiteralList, SmallText, Value};

/// A column by its name, with or without the name of its table.
#[derive(Debug, PartialEq, Eq, Drop)]
pub struct Column {
    pub table: Option<SmallText>,
    pub name: SmallText,
}

/// How a column is compared with a literal: `=`, `<>`, `<`, `<=`, `>`, `>=`.
#[derive(Clone, Copy, Debug, PartialEq, Eq)]
pub enum Relation {
    Eq,
    Ne,
    Lt,
    Le,
    Gt,
    Ge,
}

/// The members of an `and` or an `or`.
#[cycle(trees)]
#[derive(Debug, Drop)]
pub struct TreeList {
    pub members: Vec<Tree>,
}

/// A condition. Parentheses leave no trace in it.
#[cycle(trees)]
#[derive(Debug, Drop)]
pub enum Tree {
    /// Two or more members with `or` between, none of them an `or`.
    Either(TreeList),
    /// Two or more members with `and` between, none of them an `and`.
    Both(TreeList),
    Negate(Box<Tree>),
    Test {
        column: Column,
        how: Relation,
        value: Value,
    },
    /// Two columns are equal.
    Same {
        left: Column,
        right: Column,
    },
    /// Both bounds belong to it.
    Between {
        column: Column,
        low: Value,
        high: Value,
    },
    OneOf {
        column: Column,
        values: LiteralList,
    },
}
