//! Whether the names of a statement are known: each is that of a table, or of one column of its
//! tables.
ghost use Rattle.std.specs.Prelude.{◌≡◌, ◌||◌, map, not, IfOk};
ghost use Rattle.std.specs.List.{list_any};
ghost use Rattle.star_plan.specs.Columns.{same_table};
ghost use Rattle.star_plan.specs.Repeats.{repeats};
ghost use Rattle.star_binder.specs.Places.{is_ambiguous, is_unknown};
ghost use Rattle.star_binder.specs.Refused.{names_no_table, names_the_fact};

use crate::conjuncts::is_same;
use crate::scope::Scope;
use star_parser::Column;
use star_plan::{Table, find_table, sorts_to_repeat};
use star_values::{NoMemory, SmallText};
use std::alloc::Global;

/// Whether FROM names a table twice.
///
/// The tables are sorted, so that a long FROM is no slower than another line of its length.
pub(crate) fn has_repeated_table(alloc: Global, scope: &Scope) -> Result<bool, NoMemory>
    ensures { IfOk result (λ twice. twice ≡ repeats same_table scope.now.tables) }
{
    let mut tables = scope.tables.to_vec(alloc)?;
    Ok(sorts_to_repeat(tables.as_mut_slice()))
}

/// Whether a name of FROM is that of no table, or a column stands in none of the tables.
pub(crate) fn has_unknown_name(scope: &Scope, names: &[SmallText], columns: &[&Column]) -> bool
    ensures { result ≡ (list_any (names_no_table scope.now.schema) names.now
        || list_any (is_unknown scope.now)
        (map (λ c. c.now) columns.now)) }
{
    has_unknown_table(scope, names) || has_unknown_column(scope, columns)
}

/// Whether the table of a delete is not the fact table, or a column does not stand in it.
pub(crate) fn has_unknown_name_in_delete(
    scope: &Scope,
    name: &SmallText,
    columns: &[&Column],
) -> bool
    ensures { result ≡ (not (names_the_fact scope.now.schema name.now)
        || list_any (is_unknown scope.now)
        (map (λ c. c.now) columns.now)) }
{
    !names_the_fact(scope, name) || has_unknown_column(scope, columns)
}

fn has_unknown_table(scope: &Scope, names: &[SmallText]) -> bool
    ensures { result ≡ list_any (names_no_table scope.now.schema) names.now }
{
    'names: for name in names {
        if names_no_table(scope, name) {
            return true;
        }
    }
    false
}

fn names_no_table(scope: &Scope, name: &SmallText) -> bool
    ensures { result ≡ names_no_table scope.now.schema name.now }
{
    find_table(scope.schema, name).is_none()
}

fn names_the_fact(scope: &Scope, name: &SmallText) -> bool
    ensures { result ≡ names_the_fact scope.now.schema name.now }
{
    match find_table(scope.schema, name) {
        Some(table) => is_same(Table::Fact, table),
        None => false,
    }
}

pub(crate) fn has_unknown_column(scope: &Scope, columns: &[&Column]) -> bool
    ensures { result ≡ list_any (is_unknown scope.now)
        (map (λ c. c.now) columns.now) }
{
    'columns: for column in columns {
        if scope.is_unknown(column) {
            return true;
        }
    }
    false
}

pub(crate) fn has_ambiguous_column(scope: &Scope, columns: &[&Column]) -> bool
    ensures { result ≡ list_any (is_ambiguous scope.now)
        (map (λ c. c.now) columns.now) }
{
    'columns: for column in columns {
        if scope.is_ambiguous(column) {
            return true;
        }
    }
    false
}
