//! Columns of which two have one name.
ghost use Rattle.std.specs.Prelude.{◌≡◌, ◌≤◌, length};
ghost use Rattle.std.specs.List.{list_any};
ghost use Rattle.star_plan.specs.Declaration.{same_name};
ghost use Rattle.star_plan.specs.Repeats.{Ascends, repeats};
ghost use Rattle.star_plan.specs.Names.{name_cmp};

use crate::column_def::ColumnDef;
use star_values::MAX_COLUMNS;
use std::cmp::Ordering;

/// Whether two columns have one name.
///
/// As many columns as a table may have are compared in pairs and stay in their order. More are
/// sorted by their names, so that no line is slow.
pub(crate) fn has_repeated_name(columns: &mut [ColumnDef]) -> bool
    ensures twice { result ≡ repeats same_name columns.old }
    ensures few { length columns.old ≤ MAX_COLUMNS → columns.new ≡ columns.old }
{
    if columns.len() <= MAX_COLUMNS {
        has_pair_of_one_name(columns)
    } else {
        sorts_to_one_name(columns)
    }
}

fn has_pair_of_one_name(columns: &[ColumnDef]) -> bool
    ensures { result ≡ repeats same_name columns.now }
{
    let mut rest = columns;
    'columns: while let [first, more @ ..] = rest {
        if has_column_of_name(more, first) {
            return true;
        }
        rest = more;
    }
    false
}

fn has_column_of_name(columns: &[ColumnDef], named: &ColumnDef) -> bool
    ensures { result ≡ list_any (same_name named.now) columns.now }
{
    columns.iter().any(|column| named.name == column.name)
}

fn sorts_to_one_name(columns: &mut [ColumnDef]) -> bool
    ensures { result ≡ repeats same_name columns.old }
{
    columns.sort_unstable_by(|column, other| compare_names(column, other));
    !ascends_by_name(columns)
}

/// Whether the name of each column is below that of the next.
fn ascends_by_name(columns: &[ColumnDef]) -> bool
    ensures { Ascends name_cmp columns.now result }
{
    columns.is_sorted_by(|column, next| compare_names(column, next).is_lt())
}

fn compare_names(column: &ColumnDef, other: &ColumnDef) -> Ordering
    ensures { result ≡ name_cmp column.now other.now }
{
    column.name.cmp(&other.name)
}
