//! A row of a table: its values in the order of the table's columns.
ghost use Rattle.std.specs.Prelude.{◌≡◌, ◌↔◌, List, [], length, IsTrue, Some, refl};
ghost use Rattle.std.specs.Borrow.{sem};
ghost use Rattle.std.specs.Ordering.{eq_by_cmp};
ghost use Rattle.std.specs.Cmp.{IsTotalOrder, partial_equiv_from_equiv, eq_by_cmp_equiv, po};
ghost use Rattle.std.specs.Hash as fed;
ghost use Rattle.std.specs.Hash.{same_Alike};
ghost use Rattle.std.specs.declared.cmp.Ordering.TheVariants.{Equal};
ghost use Rattle.star_values.specs.declared.value.Value.{Value};
ghost use Rattle.star_values.specs.Value.{row_cmp};
ghost use Rattle.star_values.specs.Lends.{lends_values};
ghost use Rattle.star_values.specs.OrderLaws.{row_cmp-total, row_cmp-decides};

use crate::value::Value;
use std::cmp::Ordering;
use std::hash::{Hash, Hasher};
use std::marker::Model;

/// A list of values: a row of a table, or a key of a group.
///
/// It is made from a `Vec` and gives it back without taking memory.
#[derive(Debug, Drop)]
pub struct Row {
    values: Vec<Value>,
}

impl Model for Row {
    ghost use Rattle.std.specs.Prelude.{List};
    ghost use Rattle.star_values.specs.declared.value.Value as value;

    ghost Value = { List value.Value };

    ghost view = { λ row. row.values.items };
}

impl Row {
    pub fn as_slice(&self) -> &[Value]
        ensures { result.now ≡ self.now }
    {
        self.values.as_slice()
    }

    /// Lends the values to be written over. How many there are stays.
    pub fn as_mut_slice(&mut self) -> &mut [Value]
        ensures* writes_back { sem 𝓛 (lends_values self.entry result) }
        ensures values { result.now ≡ self.old }
    {
        self.values.as_mut_slice()
    }

    pub fn into_vec(self) -> Vec<Value>
        ensures { result.items ≡ self }
    {
        self.values
    }

    pub fn len(&self) -> usize
        ensures { result ≡ length self.now }
    {
        self.values.len()
    }

    pub fn is_empty(&self) -> bool
        ensures { IsTrue result ↔ (self.now ≡ []) }
    {
        self.values.is_empty()
    }

    /// The first values that differ decide; where there are none, the shorter row comes first.
    pub fn compare(&self, other: &Row) -> Ordering
        ensures { result ≡ row_cmp self.now other.now }
    {
        self.cmp(other)
    }
}

/// The order of rows is total, and two rows are equal in it, and by `==`, exactly where they are
/// the same.
pub fn rows_are_in_order()
    ensures total { IsTotalOrder row_cmp }
    ensures same { (x y : List Value) → (row_cmp x y ≡ Equal) ↔ (x ≡ y) }
    ensures equal { (x y : List Value) → IsTrue (⟦<Row as PartialEq>⟧.eq x y) ↔ (x ≡ y) }
{}

impl From<Vec<Value>> for Row {
    ghost from_gives = { λ values row. row ≡ values.items };

    fn from(values: Vec<Value>) -> Row {
        Row { values }
    }
}

impl PartialEq for Row {
    ghost eq = { eq_by_cmp row_cmp };

    ghost laws = { partial_equiv_from_equiv (eq_by_cmp_equiv row_cmp-total) };

    fn eq(&self, other: &Row) -> bool {
        self.values.as_slice() == other.values.as_slice()
    }
}

impl Eq for Row {
    ghost laws = { eq_by_cmp_equiv row_cmp-total };
}

impl PartialOrd for Row {
    ghost partial_cmp = { λ x y. Some (row_cmp x y) };

    ghost laws = { po row_cmp-total (λ x y. refl) };

    fn partial_cmp(&self, other: &Row) -> Option<Ordering> {
        Some(self.cmp(other))
    }
}

impl Ord for Row {
    ghost cmp = { row_cmp };

    ghost total = { row_cmp-total };

    ghost matches_partial_cmp = { λ x y. refl };

    ghost matches_eq = { λ x y. refl };

    fn cmp(&self, other: &Row) -> Ordering {
        self.values.as_slice().cmp(other.values.as_slice())
    }
}

impl Hash for Row {
    ghost hash_input = { fed.slice ⟦<Value as Hash>⟧.hash_input };

    ghost respects_eq = { (same_Alike (fed.slice ⟦<Value as Hash>⟧.hash_input)
        row_cmp-decides).fed };

    fn hash<H: Hasher>(&self, state: &mut H) {
        self.values.as_slice().hash(state);
    }
}
