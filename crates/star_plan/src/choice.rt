//! Which rows of a dimension a query takes.
ghost use Rattle.std.specs.Prelude.{◌≡◌, IsTrue};
ghost use Rattle.star_plan.specs.Fits.{selection_fits};
ghost use Rattle.star_plan.specs.Joined.{takes as takes_row};
ghost use Rattle.star_values.specs.Value.{kinds_in};
ghost use Rattle.star_plan.specs.Test.{selection_of};

use crate::predicate::Predicate;
use crate::truth::holds;
use star_values::{ListOf, Row};

/// What a query says of a dimension.
#[derive(Debug, Drop)]
pub enum Choice {
    /// The query does not name the dimension.
    Unnamed,
    /// The query names the dimension, and puts no condition on its rows.
    AllRows,
    /// The query takes the rows on which the predicate holds.
    Chosen(Predicate),
}

impl Choice {
    /// Whether the query takes a row of the dimension.
    pub fn takes(&self, row: &Row) -> bool
        requires { IsTrue (selection_fits (kinds_in row.now) (selection_of self.now)) }
        ensures { result ≡ takes_row (selection_of self.now) row.now }
    {
        match self {
            Choice::Unnamed | Choice::AllRows => true,
            Choice::Chosen(predicate) => holds(predicate, row),
        }
    }
}

/// A choice for each dimension, in the order of their numbers.
pub type ChoiceList = ListOf<Choice>;
