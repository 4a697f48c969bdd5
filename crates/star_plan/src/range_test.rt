//! Ranges of integers in columns of a table. Which conditions are made of them is in `condition`.
ghost use Rattle.std.specs.Prelude.{◌≡◌, ◌↔◌, ◌++◌, ◌∷◌, [], ◌<◌, ◌≤◌, IsTrue, length};
ghost use Rattle.star_plan.specs.Answer.{integer_of};
ghost use Rattle.star_plan.specs.Row.{value_in};
ghost use Rattle.star_plan.specs.Flat.{lets};

use crate::bounds::Bounds;
use star_values::{Row, Value};
use std::marker::Model;

/// How many range tests a condition may be made of.
pub(crate) const MAX_RANGE_TESTS: usize = 8;

/// A column, and between which integers it lets a value pass.
#[derive(Clone, Copy, Debug)]
pub struct RangeTest {
    pub column: u8,
    pub bounds: Bounds,
}

impl RangeTest {
    /// Whether the test lets a row pass: the integer in its column is within its bounds. Where the
    /// row has none there, 0 is asked in its place.
    pub fn lets(&self, row: &Row) -> bool
        ensures { result ≡ lets row.now self.now }
    {
        let (least, greatest) = self.bounds.limits();
        let integer = integer_in(row, self.column);
        !((integer < least) | (greatest < integer))
    }
}

/// The integer in a column of a row, and 0 where there is none.
fn integer_in(row: &Row, column: u8) -> i64
    ensures { result ≡ integer_of (value_in row.now column) }
{
    match row.as_slice().get(column as usize) {
        Some(Value::Int(integer)) => *integer,
        _ => 0,
    }
}

/// Range tests that all have to let a row pass.
#[derive(Debug, Drop)]
pub struct RangeTests {
    tests: [RangeTest; MAX_RANGE_TESTS],
    count: usize,
}

impl Model for RangeTests {
    ghost use Rattle.std.specs.Prelude.{◌≡◌, ◌≤◌, List, length, take};
    ghost use Rattle.star_plan.specs.declared.range_test.RangeTest.{RangeTest};

    ghost Value = { List RangeTest };

    ghost view = { λ list. take list.count list.tests };

    ghost invariant = { λ list. (list.count ≤ 8) × (length list.tests ≡ 8) };
}

impl RangeTests {
    /// No range test.
    pub(crate) fn none() -> RangeTests
        ensures { result ≡ [] }
    {
        let any = RangeTest {
            column: 0,
            bounds: Bounds {
                least: None,
                greatest: None,
            },
        };
        RangeTests {
            tests: [any; MAX_RANGE_TESTS],
            count: 0,
        }
    }

    /// Whether there is no room for one more.
    pub(crate) fn is_full(&self) -> bool
        ensures full { IsTrue result ↔ (length self.now ≡ 8) }
        ensures few { length self.now ≤ 8 }
    {
        self.count == MAX_RANGE_TESTS
    }

    /// Adds a range test.
    pub(crate) fn push(&mut self, test: RangeTest)
        requires { length self.old < 8 }
        ensures { self.new ≡ self.old ++ test ∷ [] }
    {
        self.tests[self.count] = test;
        self.count += 1;
    }

    /// The range tests.
    pub fn as_slice(&self) -> &[RangeTest]
        ensures { result.now ≡ self.now }
    {
        &self.tests[..self.count]
    }
}
