//! The literals of a list, as they stand in a statement.
ghost use Rattle.std.specs.Prelude.{◌≡◌, ◌↔◌, [], length, IfOk, IsTrue};
ghost use Rattle.std.specs.List.{list_any};
ghost use Rattle.std.specs.List.Sorted.{IsSorted};
ghost use Rattle.star_values.specs.Literals.{AreSortedBeside, is_same};
ghost use Rattle.star_values.specs.Value.{value_cmp};

use crate::no_memory::NoMemory;
use crate::value::Value;
use std::alloc::Global;
use std::marker::Model;

/// How many literals are looked through one after the other. Among more one is found by halves.
const FEW_LITERALS: usize = 8;

/// The literals of an `in` list, in their order.
///
/// It is made from a `Vec` and gives it back without taking memory. A copy of more than 8
/// literals has them in ascending order beside, so that it is asked in steps that grow with the
/// logarithm of their number.
#[derive(Debug, Drop)]
pub struct LiteralList {
    values: Vec<Value>,

    /// The same literals in ascending order, or none.
    sorted: Vec<Value>,
}

impl Model for LiteralList {
    ghost use Rattle.std.specs.Prelude.{List};
    ghost use Rattle.star_values.specs.declared.value.Value as value;
    ghost use Rattle.star_values.specs.Literals.{AreSortedBeside};

    ghost Value = { List value.Value };

    ghost view = { λ list. list.values.items };

    ghost invariant = { λ list. AreSortedBeside list.values.items list.sorted.items };
}

impl LiteralList {
    /// A copy of literals, which is asked by halves where they are many.
    pub fn copy_of(alloc: Global, values: &[Value]) -> Result<LiteralList, NoMemory>
        ensures { IfOk result (λ copy. copy ≡ values.now) }
    {
        let copy = copied(alloc, values)?;
        let sorted = sorted_beside(alloc, values)?;
        Ok(LiteralList {
            values: copy,
            sorted,
        })
    }

    /// Whether one of the literals is this value.
    pub fn has(&self, value: &Value) -> bool
        ensures { result ≡ list_any (is_same value.now) self.now }
    {
        if self.sorted.is_empty() {
            has(self.values.as_slice(), value)
        } else {
            has_sorted(self.sorted.as_slice(), value)
        }
    }

    pub fn as_slice(&self) -> &[Value]
        ensures { result.now ≡ self.now }
    {
        self.values.as_slice()
    }

    pub fn into_vec(self) -> Vec<Value>
        ensures { result.items ≡ self }
    {
        self.values
    }

    pub fn len(&self) -> usize
        ensures { result ≡ length self.now }
    {
        self.values.len()
    }

    pub fn is_empty(&self) -> bool
        ensures { IsTrue result ↔ (self.now ≡ []) }
    {
        self.values.is_empty()
    }
}

impl From<Vec<Value>> for LiteralList {
    ghost from_gives = { λ values list. list ≡ values.items };

    fn from(values: Vec<Value>) -> LiteralList {
        let sorted = Vec::new(*values.allocator());
        LiteralList { values, sorted }
    }
}

/// A copy of values.
fn copied(alloc: Global, values: &[Value]) -> Result<Vec<Value>, NoMemory>
    ensures { IfOk result (λ copy. copy.items ≡ values.now) }
{
    let mut copy = Vec::with_capacity(alloc, values.len())?;
    'values: for value in values {
        copy.push(value.copy()?)?;
    }
    Ok(copy)
}

/// Values in ascending order, or none where they are few.
fn sorted_beside(alloc: Global, values: &[Value]) -> Result<Vec<Value>, NoMemory>
    ensures { IfOk result (λ sorted. AreSortedBeside values.now sorted.items) }
{
    if values.len() <= FEW_LITERALS {
        return Ok(Vec::new(alloc));
    }
    let mut sorted = copied(alloc, values)?;
    sorted.sort_unstable();
    Ok(sorted)
}

/// Whether one of some literals is this value.
fn has(literals: &[Value], value: &Value) -> bool
    ensures { result ≡ list_any (is_same value.now) literals.now }
{
    'literals: for literal in literals {
        if value.compare(literal).is_eq() {
            return true;
        }
    }
    false
}

/// The same of literals in ascending order.
fn has_sorted(literals: &[Value], value: &Value) -> bool
    requires { IsSorted value_cmp literals.now }
    ensures { result ≡ list_any (is_same value.now) literals.now }
{
    literals.binary_search(value).is_ok()
}
