//! The codes of the texts of the first rows of a table, column by column.
ghost use Rattle.std.specs.Prelude.{◌≡◌, ◌∷◌, ◌++◌, ℕ, List, [], length, slice_index_or, OnOk};
ghost use Rattle.star_values.specs.declared.value.Value as cell;
ghost use Rattle.star_values.specs.First.{AreFirstCodes, AreCodeColumns, HasText, HaveOneMore, KeepCodes};

use crate::codes::code_of;
use crate::column_lists::make_columns;
use crate::list_of::ListOf;
use crate::no_memory::NoMemory;
use crate::row::Row;
use crate::value::Value;
use std::alloc::Global;
use std::marker::Model;

/// For each column of a table the codes of the texts of its first rows, in their order. They may be
/// fewer than there are rows, and none of a column of integers.
///
/// Where no memory is left, codes are gone without: `append` says so, and a caller may let that go.
#[derive(Debug, Drop)]
pub struct CodeColumns {
    alloc: Global,
    columns: ListOf<ListOf<u128>>,
}

impl Model for CodeColumns {
    ghost use Rattle.std.specs.Prelude.{List, ℕ};

    ghost Value = { List (List ℕ) };

    ghost view = { λ codes. codes.columns };
}

impl CodeColumns {
    /// No columns, which take no memory yet.
    pub fn new(alloc: Global) -> CodeColumns
        ensures { result ≡ [] }
    {
        CodeColumns {
            alloc,
            columns: ListOf::new(alloc),
        }
    }

    /// The codes that are kept of a column, from 0.
    pub fn column(&self, number: usize) -> &[u128]
        ensures { result.now ≡ slice_index_or self.now number [] }
    {
        match self.columns.as_slice().get(number) {
            Some(column) => column.as_slice(),
            None => &[],
        }
    }

    /// Puts the codes of the texts of a row, before which a table has so many, behind those of
    /// their columns. A column that has not the codes of all rows before stays as it is, and so
    /// does one for whose code there is no memory. The others get theirs even so.
    pub fn append(&mut self, before: usize, row: &Row) -> Result<(), NoMemory>
        ensures first { (rows : List (List cell.Value)) → length rows ≡ before →
            AreCodeColumns rows self.old → AreCodeColumns (rows ++ row.now ∷ []) self.new }
        ensures kept { OnOk result (KeepCodes before row.now self.old self.new) }
    {
        let made = make_columns(&mut self.columns, self.alloc, before, row.len());
        let kept = append_to_columns(self.columns.as_mut_slice(), before, row);
        made.and(kept)
    }
}

/// Puts the codes of a row behind those of the columns that have the codes of all rows before,
/// as far as there is memory.
fn append_to_columns(columns: &mut [ListOf<u128>], before: usize, row: &Row) -> Result<(), NoMemory>
    ensures count { length columns.new ≡ length columns.old }
    ensures first { (rows : List (List cell.Value)) → length rows ≡ before →
        AreCodeColumns rows columns.old → AreCodeColumns (rows ++ row.now ∷ []) columns.new }
    ensures kept { OnOk result
        (HaveOneMore HasText (length columns.old) before row.now columns.old columns.new) }
{
    let mut kept = Ok(());
    for number in 0..columns.len() {
        kept = append_to_column(&mut columns[number], number, before, row).and(kept);
    }
    kept
}

/// Puts the code of a row's text in a column behind the others, if the row has one there, and the
/// column has those of all rows before. An `Err` changes nothing.
fn append_to_column(
    column: &mut ListOf<u128>,
    number: usize,
    before: usize,
    row: &Row,
) -> Result<(), NoMemory>
    ensures first { (rows : List (List cell.Value)) → length rows ≡ before →
        AreFirstCodes rows number column.old
        → AreFirstCodes (rows ++ row.now ∷ []) number column.new }
    ensures kept { OnOk result
        ((code : ℕ) → HasText number row.now code → length column.old ≡ before
        → column.new ≡ column.old ++ code ∷ []) }
{
    if column.len() != before {
        return Ok(());
    }
    let Some(value) = row.as_slice().get(number) else {
        return Ok(());
    };
    match value {
        Value::Str(_) => column.push(code_of(value)),
        Value::Int(_) => Ok(()),
    }
}
