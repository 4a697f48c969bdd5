//! The lists of a statement.

use crate::ast::{AstColumn, AstItem};
use crate::tree::Column;
use star_values::{ListOf, SmallText};

/// The columns of a declared table.
pub type AstColumnList = ListOf<AstColumn>;

/// The items of a select list.
pub type AstItemList = ListOf<AstItem>;

/// The names of the tables in FROM.
pub type NameList = ListOf<SmallText>;

/// The columns of a GROUP BY, none where there is no GROUP BY.
pub type GroupColumnList = ListOf<Column>;
