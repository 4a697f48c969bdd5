//! A query's condition on the rows of a table, as it is asked of many of them.
ghost use Rattle.std.specs.Prelude.{IfSome, Some, option_map};
ghost use Rattle.star_values.specs.declared.value.Value as cell;
ghost use Rattle.star_plan.specs.Test as plain;
ghost use Rattle.star_plan.specs.Test.{test_of};
ghost use Rattle.star_plan.specs.Flat.{IsRangeOf, AreRangesOf, Means};

use crate::bounds::Bounds;
use crate::predicate::{How, Predicate, predicates_are_tests_by_their_parts};
use crate::range_test::{RangeTest, RangeTests};
use star_values::Value;

/// A query's condition on the rows of a table.
#[derive(Debug, Drop)]
pub enum Condition {
    /// There is none.
    Always,

    /// All these range tests.
    Ranges(RangeTests),

    /// One of another form, which the query itself is asked for.
    Tree,
}

/// The range test that a comparison is, if it is one.
fn compared(column: u8, how: How, value: &Value) -> Option<RangeTest>
    ensures { IfSome result (IsRangeOf (plain.Compare column how value.now)) }
{
    match value {
        Value::Int(integer) => match Bounds::of(how, *integer) {
            None => None,
            Some(bounds) => Some(RangeTest { column, bounds }),
        },
        Value::Str(_) => None,
    }
}

/// The range test that `Between` is, if it is one.
fn between(column: u8, low: &Value, high: &Value) -> Option<RangeTest>
    ensures { IfSome result (IsRangeOf (plain.Between column low.now high.now)) }
{
    match (low, high) {
        (Value::Int(low), Value::Int(high)) => Some(RangeTest {
            column,
            bounds: Bounds::between(*low, *high),
        }),
        _ => None,
    }
}

/// The range test that a predicate is, if it is one.
fn range_test_of(predicate: &Predicate) -> Option<RangeTest>
    ensures { IfSome result (IsRangeOf (test_of predicate.now)) }
{
    match predicate {
        Predicate::Compare { column, how, value } => compared(*column, *how, value),
        Predicate::Between { column, low, high } => between(*column, low, high),
        _ => None,
    }
}

/// The range tests that predicates are, if each is one and there is room for all.
fn range_tests_of(members: &[Predicate]) -> Option<RangeTests>
    ensures { IfSome result (AreRangesOf members.now) }
{
    let mut tests = RangeTests::none();
    for member in members {
        if tests.is_full() {
            return None;
        }
        match range_test_of(member) {
            None => return None,
            Some(test) => tests.push(test),
        }
    }
    Some(tests)
}

/// The condition that a predicate is.
pub fn flattened(predicate: &Predicate) -> Condition
    ensures { Means result (Some (test_of predicate.now)) }
{
    predicates_are_tests_by_their_parts();
    match predicate {
        Predicate::Both(list) => match range_tests_of(list.as_slice()) {
            None => Condition::Tree,
            Some(tests) => Condition::Ranges(tests),
        },
        _ => match range_test_of(predicate) {
            None => Condition::Tree,
            Some(test) => {
                let mut tests = RangeTests::none();
                tests.push(test);
                Condition::Ranges(tests)
            }
        },
    }
}

/// The condition that a predicate is, if there is one.
pub fn condition_of(fact: &Option<Predicate>) -> Condition
    ensures { Means result (option_map test_of fact.now) }
{
    match fact {
        None => Condition::Always,
        Some(predicate) => flattened(predicate),
    }
}
