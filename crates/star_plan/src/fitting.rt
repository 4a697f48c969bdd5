//! Which predicates may stand over a row.
ghost use Rattle.std.specs.Prelude.{◌≡◌, ◌↔◌, ◌&&◌, ℕ, IsTrue, List};
ghost use Rattle.std.specs.List.{list_all};
ghost use Rattle.star_values.specs.declared.value.Kind.{Kind};
ghost use Rattle.star_values.specs.declared.value.Value.{Value};
ghost use Rattle.star_plan.specs.declared.predicate.How.{How};
ghost use Rattle.star_plan.specs.declared.table_def.TableDef.{TableDef};
ghost use Rattle.star_plan.specs.Columns.{kinds_of};
ghost use Rattle.star_plan.specs.Fits.{fits_column, fits_table, test_fits};
ghost use Rattle.star_values.specs.Value.{kinds_in};
ghost use Rattle.star_plan.specs.Test as plain;
ghost use Rattle.star_plan.specs.Test.{Test, test_of, tests};

use crate::predicate::Predicate;
use star_values::{LiteralList, Row, Value};

fn column_takes(row: &Row, column: u8, value: &Value) -> bool
    ensures { result ≡ fits_column (kinds_in row.now) column value.now }
{
    match row.as_slice().get(column as usize) {
        Some(found) => found.kind() == value.kind(),
        None => false,
    }
}

fn column_takes_all(row: &Row, column: u8, values: &LiteralList) -> bool
    ensures { result ≡ list_all (fits_column (kinds_in row.now) column) values.now }
{
    for value in values.as_slice() {
        if !column_takes(row, column, value) {
            return false;
        }
    }
    true
}

/// Whether each column that a predicate names is a column of the row, and has the kind of the
/// values beside it: what [`holds`](crate::holds) asks of its caller.
#[cycle(fitting)]
pub fn fits(predicate: &Predicate, row: &Row) -> bool
    ensures { result ≡ test_fits (kinds_in row.now) (test_of predicate.now) }
{
    match predicate {
        Predicate::Compare {
            column,
            how: _,
            value,
        } => column_takes(row, *column, value),
        Predicate::Between { column, low, high } => column_takes(row, *column, low)
            && column_takes(row, *column, high),
        Predicate::OneOf { column, values } => column_takes_all(row, *column, values),
        Predicate::Both(list) => all_fit(list.as_slice(), row),
        Predicate::Either(list) => all_fit(list.as_slice(), row),
        Predicate::Negate(member) => fits(member, row),
    }
}

#[cycle(fitting)]
fn all_fit(members: &[Predicate], row: &Row) -> bool
    ensures { result
        ≡ list_all (λ member. test_fits (kinds_in row.now) (test_of member)) members.now }
{
    for member in members {
        if !fits(member, row) {
            return false;
        }
    }
    true
}

/// What it takes for a test to stand over rows whose columns have these kinds, by its parts.
pub fn tests_fit_by_their_parts()
    ensures compare { (kinds : List Kind) (column : ℕ) (how : How) (value : Value) →
        test_fits kinds (plain.Compare column how value) ≡ fits_column kinds column value }
    ensures between { (kinds : List Kind) (column : ℕ) (low high : Value) →
        test_fits kinds (plain.Between column low high)
        ≡ (fits_column kinds column low && fits_column kinds column high) }
    ensures one_of { (kinds : List Kind) (column : ℕ) (values : List Value) →
        test_fits kinds (plain.OneOf column values) ≡ list_all (fits_column kinds column) values }
    ensures both { (kinds : List Kind) (members : List Test) →
        test_fits kinds (plain.Both (tests members)) ≡ list_all (test_fits kinds) members }
    ensures either { (kinds : List Kind) (members : List Test) →
        test_fits kinds (plain.Either (tests members)) ≡ list_all (test_fits kinds) members }
    ensures negate { (kinds : List Kind) (member : Test) →
        test_fits kinds (plain.Negate member) ≡ test_fits kinds member }
{}

/// A row fits a table exactly where its values have the kinds of the table's columns, in their
/// order. So a test that fits the columns of a table may be asked of each row that fits the table.
pub fn rows_fit_by_their_kinds()
    ensures { (table : TableDef) (row : List Value) →
        IsTrue (fits_table table row) ↔ (kinds_in row ≡ kinds_of table.columns) }
{}
