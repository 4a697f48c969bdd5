//! An exact sum of integers of 64 bits.
ghost use Rattle.std.specs.Prelude.{◌≡◌, ◌+◌, ◌<◌, ◌^◌, ◌+ℤ◌};
ghost use Rattle.query_meaning.specs.Summed.{no_terms};
ghost use Rattle.query_meaning.specs.Finish.{sum_end};

use star_values::{Cell, Value};
use std::marker::Model;

/// A sum of fewer than 2^32 integers, as a whole: it may leave the range of 64 bits and come back.
#[derive(Debug, Drop)]
pub(crate) struct WideSum {
    total: i128,
    terms: u32,
}

impl Model for WideSum {
    ghost use Rattle.query_meaning.specs.Summed.{IsSumOf, SumSoFar};

    ghost Value = { SumSoFar };

    ghost view = { λ sum. record { terms = sum.terms; total = sum.total } };

    ghost invariant = { λ sum. IsSumOf sum.terms sum.total };
}

impl WideSum {
    /// The sum of no integers.
    pub(crate) fn new() -> WideSum
        ensures { result ≡ no_terms }
    {
        WideSum { total: 0, terms: 0 }
    }

    /// Adds an integer.
    pub(crate) fn add(&mut self, n: i64)
        requires { self.old.terms + 1 < 2 ^ 32 }
        ensures { self.new ≡ record { terms = self.old.terms + 1; total = self.old.total +ℤ n } }
    {
        self.total += n as i128;
        self.terms += 1;
    }

    /// The cell of the sum, null over no integers, and none where it is no integer of 64 bits.
    pub(crate) fn cell(&self) -> Option<Cell>
        ensures { result ≡ sum_end self.now }
    {
        if self.terms == 0 {
            return Some(Cell::Null);
        }
        if self.total < i64::MIN as i128 || self.total > i64::MAX as i128 {
            return None;
        }
        Some(Cell::Full(Value::Int(self.total as i64)))
    }
}
