//! A test on the rows of one table. When it holds is in `truth`.
ghost use Rattle.std.specs.Prelude.{◌≡◌, ℕ, Box, List, map};
ghost use Rattle.std.specs.Global.{Global};
ghost use Rattle.star_values.specs.declared.value.Value as cell;
ghost use Rattle.star_plan.specs.declared.predicate.How.{How};
ghost use Rattle.star_plan.specs.declared.predicate.Predicate.TheVariants as predicate;
ghost use Rattle.star_plan.specs.declared.predicate.PredicateList.{PredicateList};
ghost use Rattle.star_plan.specs.Members.{members_of};
ghost use Rattle.star_plan.specs.Test as plain;
ghost use Rattle.star_plan.specs.Test.{test_of, tests};

use star_values::{LiteralList, Value};

/// How a value is compared.
#[derive(Clone, Copy, Debug, PartialEq, Eq)]
pub enum How {
    Eq,
    Ne,
    Lt,
    Le,
    Gt,
    Ge,
}

/// A test on the rows of one table, whose columns are numbered from 0.
#[cycle(predicates)]
#[derive(Debug, Drop)]
pub enum Predicate {
    Compare { column: u8, how: How, value: Value },
    Between { column: u8, low: Value, high: Value },
    OneOf { column: u8, values: LiteralList },
    Both(PredicateList),
    Either(PredicateList),
    Negate(Box<Predicate>),
}

/// Predicates on the rows of one table, in the order in which they were written.
#[cycle(predicates)]
#[derive(Debug, Drop)]
pub struct PredicateList {
    members: Vec<Predicate>,
}

impl PredicateList {
    pub fn as_slice(&self) -> &[Predicate]
        ensures { result.now ≡ members_of self.now }
    {
        self.members.as_slice()
    }

    pub fn into_vec(self) -> Vec<Predicate>
        ensures { result.items ≡ members_of self }
    {
        self.members
    }
}

impl From<Vec<Predicate>> for PredicateList {
    ghost from_gives = { λ members list. members_of list ≡ members.items };

    fn from(members: Vec<Predicate>) -> PredicateList {
        PredicateList { members }
    }
}

/// The test that a predicate is, by its parts.
pub fn predicates_are_tests_by_their_parts()
    ensures compare { (column : ℕ) (how : How) (value : cell.Value) →
        test_of (predicate.Compare column how value) ≡ plain.Compare column how value }
    ensures between { (column : ℕ) (low high : cell.Value) →
        test_of (predicate.Between column low high) ≡ plain.Between column low high }
    ensures one_of { (column : ℕ) (values : List cell.Value) →
        test_of (predicate.OneOf column values) ≡ plain.OneOf column values }
    ensures both { (list : PredicateList) →
        test_of (predicate.Both list) ≡ plain.Both (tests (map test_of (members_of list))) }
    ensures either { (list : PredicateList) →
        test_of (predicate.Either list) ≡ plain.Either (tests (map test_of (members_of list))) }
    ensures negate { (member : Box Predicate Global) →
        test_of (predicate.Negate member) ≡ plain.Negate (test_of member.value) }
{}
