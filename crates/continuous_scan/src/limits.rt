//! Which integers stand for all others where the range tests of a column are asked. What these
//! let pass is in `by_value`.
ghost use Rattle.std.specs.Prelude.{◌≡◌, ◌==◌, All, IfSome};
ghost use Rattle.continuous_scan.specs.ByValue.{IsConditionInside, IsBoundInside, IsTestInside, IsWider, Surrounds};

use star_plan::{Bounds, Condition, RangeTest};

/// How many range tests a column has at least that is met by value.
const FEWEST_TESTS: u32 = 2;

/// How many integers there are at most from the least bound of such a column to the greatest.
const MOST_VALUES: u64 = 8_192;

/// Between which integers the bounds of the range tests of a column are.
#[derive(Clone, Copy, Debug)]
pub(crate) struct Limits {
    /// How many range tests the column has.
    pub(crate) tests: u32,

    /// At most the least bound. With no bound it is above `greatest`.
    pub(crate) least: i64,

    /// At least the greatest bound.
    pub(crate) greatest: i64,
}

/// The integers from one to another.
#[derive(Clone, Copy, Debug)]
pub(crate) struct ValueRange {
    pub(crate) least: i64,
    pub(crate) greatest: i64,

    /// How many there are.
    pub(crate) count: usize,
}

/// Limits within which a bound is too, if there is one.
fn with_bound(limits: Limits, bound: &Option<i64>) -> Limits
    ensures wider { IsWider limits result }
    ensures inside { IsBoundInside result bound.now }
{
    match bound {
        None => limits,
        Some(bound) => Limits {
            tests: limits.tests,
            least: limits.least.min(*bound),
            greatest: limits.greatest.max(*bound),
        },
    }
}

/// The same limits of one range test more.
fn with_one_more(limits: Limits) -> Limits
    ensures { IsWider limits result }
{
    Limits {
        tests: limits.tests.saturating_add(1),
        least: limits.least,
        greatest: limits.greatest,
    }
}

/// Limits within which the bounds of one range test more are too.
fn with_bounds(limits: Limits, bounds: &Bounds) -> Limits
    ensures wider { IsWider limits result }
    ensures least { IsBoundInside result bounds.now.least }
    ensures greatest { IsBoundInside result bounds.now.greatest }
{
    let more = with_one_more(limits);
    let below = with_bound(more, &bounds.least);
    with_bound(below, &bounds.greatest)
}

/// Whether a range test is one of a column.
pub(crate) fn is_in(test: &RangeTest, column: u8) -> bool
    ensures { result ≡ (test.now.column == column) }
{
    test.column == column
}

/// Limits within which the bounds of a range test are too, if it is one of the column.
fn with_test(limits: Limits, test: &RangeTest, column: u8) -> Limits
    ensures wider { IsWider limits result }
    ensures inside { IsTestInside column result test.now }
{
    if is_in(test, column) {
        with_bounds(limits, &test.bounds)
    } else {
        limits
    }
}

/// The same with each of some range tests.
fn with_tests(limits: Limits, tests: &[RangeTest], column: u8) -> Limits
    ensures wider { IsWider limits result }
    ensures inside { All (IsTestInside column result) tests.now }
{
    let mut wider = limits;
    for test in tests {
        wider = with_test(wider, test, column);
    }
    wider
}

/// The same with the range tests of a condition.
fn with_condition(limits: Limits, condition: &Condition, column: u8) -> Limits
    ensures wider { IsWider limits result }
    ensures inside { IsConditionInside column result condition.now }
{
    match condition {
        Condition::Always => limits,
        Condition::Ranges(tests) => with_tests(limits, tests.as_slice(), column),
        Condition::Tree => limits,
    }
}

/// The limits of the range tests that conditions have of a column.
pub(crate) fn limits_of(conditions: &[Condition], column: u8) -> Limits
    ensures { All (IsConditionInside column result) conditions.now }
{
    let mut limits = Limits {
        tests: 0,
        least: i64::MAX,
        greatest: i64::MIN,
    };
    for condition in conditions {
        limits = with_condition(limits, condition, column);
    }
    limits
}

/// The integers from one below limits to one above them, if the column is to be met by
/// value. No range test tells what is below them from the first of these, or what is
/// above them from the last.
pub(crate) fn range_of(limits: &Limits) -> Option<ValueRange>
    ensures { IfSome result (Surrounds limits.now) }
{
    if limits.tests < FEWEST_TESTS {
        return None;
    }
    if limits.greatest < limits.least {
        return None;
    }
    let span = limits.greatest.abs_diff(limits.least);
    if span >= MOST_VALUES {
        return None;
    }
    match (limits.least.checked_sub(1), limits.greatest.checked_add(1)) {
        (Some(least), Some(greatest)) => Some(ValueRange {
            least,
            greatest,
            count: span as usize + 3,
        }),
        _ => None,
    }
}
