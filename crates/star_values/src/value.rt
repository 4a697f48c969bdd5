//! A value of a table, its kind, and the order of values.
ghost use Rattle.std.specs.Prelude.{◌≡◌, ◌↔◌, IfOk, OnOk, OnErr, IsTrue};
ghost use Rattle.std.specs.Cmp.{IsTotalOrder};
ghost use Rattle.std.specs.declared.cmp.Ordering.TheVariants.{Equal};
ghost use Rattle.star_values.specs.declared.value.Value.{Value};
ghost use Rattle.star_values.specs.Value.{kind_of, value_cmp};

use crate::no_memory::NoMemory;
use crate::small_text::SmallText;
use std::cmp::Ordering;

/// What the values of a column are.
#[derive(Clone, Copy, Debug, PartialEq, Eq, Hash)]
pub enum Kind {
    /// Integers of 64 bits with sign.
    Int,
    /// Texts within the rule of [`SmallText`].
    Text,
}

/// A value of a table.
#[derive(Debug, PartialEq, Eq, PartialOrd, Ord, Hash, Drop)]
pub enum Value {
    Int(i64),
    Str(SmallText),
}

impl Value {
    pub fn kind(&self) -> Kind
        ensures { result ≡ kind_of self.now }
    {
        match self {
            Value::Int(_) => Kind::Int,
            Value::Str(_) => Kind::Text,
        }
    }

    /// Integers are compared by value and texts by their bytes. A column has values of one kind;
    /// between kinds an integer comes first.
    pub fn compare(&self, other: &Value) -> Ordering
        ensures { result ≡ value_cmp self.now other.now }
    {
        self.cmp(other)
    }

    pub fn copy(&self) -> Result<Value, NoMemory>
        ensures { IfOk result (λ value. value ≡ self.now) }
    {
        match self {
            Value::Int(n) => Ok(Value::Int(*n)),
            Value::Str(text) => Ok(Value::Str(text.copy()?)),
        }
    }

    /// Writes another value over this one. It takes memory only for a text, and only where this
    /// value is no text with room for it.
    pub fn assign(&mut self, other: &Value) -> Result<(), NoMemory>
        ensures ok { OnOk result (self.new ≡ other.now) }
        ensures err { OnErr result (self.new ≡ self.old) }
    {
        match other {
            Value::Int(n) => {
                *self = Value::Int(*n);
                Ok(())
            }
            Value::Str(source) => match self {
                Value::Str(target) => target.assign(source),
                Value::Int(_) => {
                    *self = Value::Str(source.copy()?);
                    Ok(())
                }
            },
        }
    }
}

/// The order of values is total, and two values are equal in it, and by `==`, exactly
/// where they are the same.
pub fn values_are_in_order()
    ensures total { IsTotalOrder value_cmp }
    ensures same { (x y : Value) → (value_cmp x y ≡ Equal) ↔ (x ≡ y) }
    ensures equal { (x y : Value) → IsTrue (⟦<Value as PartialEq>⟧.eq x y) ↔ (x ≡ y) }
{}
