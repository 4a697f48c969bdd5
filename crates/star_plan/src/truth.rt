//! When a predicate holds on a row.
ghost use Rattle.std.specs.Prelude.{◌≡◌, ◌↔◌, ℕ, IsTrue, All, Any, List, option_map, slice_get};
ghost use Rattle.std.specs.List.{list_all, list_any};
ghost use Rattle.star_values.specs.declared.value.Value.{Value};
ghost use Rattle.star_plan.specs.declared.predicate.How.{How};
ghost use Rattle.star_plan.specs.declared.predicate.How.TheVariants.{Eq, Le, Ge};
ghost use Rattle.star_plan.specs.Fits.{fits_column, test_fits};
ghost use Rattle.star_plan.specs.Row.{value_in};
ghost use Rattle.star_plan.specs.Test as plain;
ghost use Rattle.star_plan.specs.Test.{Test, test_of, tests};
ghost use Rattle.star_values.specs.Value.{kinds_in};
ghost use Rattle.star_plan.specs.Truth.{compares, compares_at, test_holds};

use crate::predicate::{How, Predicate};
use star_values::{LiteralList, Row, Value, values_are_in_order};

fn compare(left: &Value, how: How, right: &Value) -> bool
    ensures { result ≡ compares how left.now right.now }
{
    let order = left.compare(right);
    match how {
        How::Eq => order.is_eq(),
        How::Ne => order.is_ne(),
        How::Lt => order.is_lt(),
        How::Le => order.is_le(),
        How::Gt => order.is_gt(),
        How::Ge => order.is_ge(),
    }
}

#[tactic(auto, using(crate::proofs::FitsLemmas::column_below))]
fn compare_at(row: &Row, column: u8, how: How, value: &Value) -> bool
    requires { IsTrue (fits_column (kinds_in row.now) column value.now) }
    ensures { result ≡ compares_at row.now column how value.now }
{
    compare(&row.as_slice()[column as usize], how, value)
}

/// The value in a column of a row, where there is one.
fn value_at(row: &Row, column: u8) -> Option<&Value>
    ensures { option_map (λ value. value.now) result ≡ slice_get row.now column }
{
    row.as_slice().get(column as usize)
}

fn equals_one(row: &Row, column: u8, values: &LiteralList) -> bool
    requires { IsTrue (list_all (fits_column (kinds_in row.now) column) values.now) }
    ensures { result ≡ list_any (compares_at row.now column Eq) values.now }
{
    match value_at(row, column) {
        None => false,
        Some(own) => values.has(own),
    }
}

/// Whether a predicate holds on a row.
#[cycle(truth)]
pub fn holds(predicate: &Predicate, row: &Row) -> bool
    requires { IsTrue (test_fits (kinds_in row.now) (test_of predicate.now)) }
    ensures { result ≡ test_holds row.now (test_of predicate.now) }
{
    match predicate {
        Predicate::Compare { column, how, value } => compare_at(row, *column, *how, value),
        Predicate::Between { column, low, high } => {
            compare_at(row, *column, How::Ge, low) && compare_at(row, *column, How::Le, high)
        }
        Predicate::OneOf { column, values } => equals_one(row, *column, values),
        Predicate::Both(list) => all_hold(list.as_slice(), row),
        Predicate::Either(list) => some_holds(list.as_slice(), row),
        Predicate::Negate(member) => !holds(member, row),
    }
}

#[cycle(truth)]
fn all_hold(members: &[Predicate], row: &Row) -> bool
    requires { IsTrue (list_all (λ member. test_fits (kinds_in row.now) (test_of member))
        members.now) }
    ensures { result ≡ list_all (λ member. test_holds row.now (test_of member)) members.now }
{
    for member in members {
        if !holds(member, row) {
            return false;
        }
    }
    true
}

#[cycle(truth)]
fn some_holds(members: &[Predicate], row: &Row) -> bool
    requires { IsTrue (list_all (λ member. test_fits (kinds_in row.now) (test_of member))
        members.now) }
    ensures { result ≡ list_any (λ member. test_holds row.now (test_of member)) members.now }
{
    for member in members {
        if holds(member, row) {
            return true;
        }
    }
    false
}

/// What a test says, by its parts. A comparison is by the order of values, with the value in the
/// column; `Between` has both of its bounds; `Both` without members holds, and `Either` without
/// members does not.
pub fn tests_hold_by_their_parts()
    ensures compare { (row : List Value) (column : ℕ) (how : How) (value : Value) →
        test_holds row (plain.Compare column how value)
        ≡ compares how (value_in row column) value }
    ensures between { (row : List Value) (column : ℕ) (low high : Value) →
        IsTrue (test_holds row (plain.Between column low high))
        ↔ (IsTrue (test_holds row (plain.Compare column Ge low))
        × IsTrue (test_holds row (plain.Compare column Le high))) }
    ensures one_of { (row : List Value) (column : ℕ) (values : List Value) →
        IsTrue (test_holds row (plain.OneOf column values))
        ↔ Any (λ value. IsTrue (test_holds row (plain.Compare column Eq value))) values }
    ensures both { (row : List Value) (members : List Test) →
        IsTrue (test_holds row (plain.Both (tests members)))
        ↔ All (λ member. IsTrue (test_holds row member)) members }
    ensures either { (row : List Value) (members : List Test) →
        IsTrue (test_holds row (plain.Either (tests members)))
        ↔ Any (λ member. IsTrue (test_holds row member)) members }
    ensures negate { (row : List Value) (member : Test) →
        IsTrue (test_holds row (plain.Negate member)) ↔ ¬ (IsTrue (test_holds row member)) }
{}

/// A value compares as equal exactly with itself.
pub fn equal_values_are_the_same()
    ensures { (left right : Value) → IsTrue (compares Eq left right) ↔ (left ≡ right) }
{
    values_are_in_order();
}
