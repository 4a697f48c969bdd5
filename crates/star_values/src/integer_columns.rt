//! The integers of the first rows of a table, column by column.
ghost use Rattle.std.specs.Prelude.{◌≡◌, ◌<◌, ◌≤◌, ◌-◌, ◌∷◌, ◌++◌, ℤ, List, [], length, take, drop, slice_index_or, IfSome, IfNone, OnOk};
ghost use Rattle.star_values.specs.declared.value.Value as cell;
ghost use Rattle.star_values.specs.First.{AreFirstIntegers, AreIntegerColumns, HasInteger, HaveOneMore, KeepIntegers};

use crate::column_lists::make_columns;
use crate::list_of::ListOf;
use crate::no_memory::NoMemory;
use crate::row::Row;
use crate::value::Value;
use std::alloc::Global;
use std::marker::Model;

/// For each column of a table the integers of its first rows, in their order. They may be fewer
/// than there are rows, and none of a column of texts.
///
/// Where no memory is left, integers are gone without: `append` says so, and
/// a caller may let that go.
#[derive(Debug, Drop)]
pub struct IntegerColumns {
    alloc: Global,
    columns: ListOf<ListOf<i64>>,
    /// For how many rows a column has room as it is made.
    room: usize,
}

impl Model for IntegerColumns {
    ghost use Rattle.std.specs.Prelude.{List, ℤ};

    ghost Value = { List (List ℤ) };

    ghost view = { λ integers. integers.columns };
}

impl IntegerColumns {
    /// No columns, which take no memory yet.
    pub fn new(alloc: Global) -> IntegerColumns
        ensures { result ≡ [] }
    {
        IntegerColumns {
            alloc,
            columns: ListOf::new(alloc),
            room: 0,
        }
    }

    /// The integers that are kept of a column, from 0.
    pub fn column(&self, number: usize) -> &[i64]
        ensures { result.now ≡ slice_index_or self.now number [] }
    {
        match self.columns.as_slice().get(number) {
            Some(column) => column.as_slice(),
            None => &[],
        }
    }

    /// The integers at the places from one to before another of a column,
    /// from 0, if it has so many.
    ///
    /// Copies nothing, and costs the same for any number of them.
    pub fn part(&self, number: usize, first: usize, end: usize) -> Option<&[i64]>
        requires { first ≤ end }
        ensures some { IfSome result (λ part. (end ≤ length (slice_index_or self.now number []))
            × (part.now ≡ take (end - first) (drop first (slice_index_or self.now number [])))) }
        ensures none { IfNone result (length (slice_index_or self.now number []) < end) }
    {
        let kept = self.column(number);
        if kept.len() < end {
            return None;
        }
        Some(&kept[first..end])
    }

    /// Makes room for the integers of this many more rows. Columns that are made later have this
    /// room from the start. None is made where no integer is kept, as in a column of texts.
    pub fn reserve(&mut self, more: usize) -> Result<(), NoMemory>
        ensures { self.new ≡ self.old }
    {
        self.room = more;
        reserve_columns(self.columns.as_mut_slice(), more)
    }

    /// Puts the integers of a row, before which a table has so many, behind those of their columns.
    /// A column that has not the integers of all rows before stays as it is, and so does one for
    /// whose integer there is no memory. The others get theirs even so.
    pub fn append(&mut self, before: usize, row: &Row) -> Result<(), NoMemory>
        ensures first { (rows : List (List cell.Value)) → length rows ≡ before →
            AreIntegerColumns rows self.old → AreIntegerColumns (rows ++ row.now ∷ []) self.new }
        ensures kept { OnOk result (KeepIntegers before row.now self.old self.new) }
    {
        let made = make_columns(&mut self.columns, self.alloc, before, row.len());
        let kept = append_to_columns(self.columns.as_mut_slice(), before, row);
        reserve_behind_first(self.columns.as_mut_slice(), before, self.room);
        made.and(kept)
    }
}

/// Makes the room that was asked for before there were columns, behind the integers of the first
/// row. Where there is no memory for it, a column grows as its integers come.
fn reserve_behind_first(columns: &mut [ListOf<i64>], before: usize, room: usize)
    ensures { columns.new ≡ columns.old }
{
    if before == 0 {
        let _ = reserve_columns(columns, room);
    }
}

/// Makes room for this many more integers in each column that has some.
fn reserve_columns(columns: &mut [ListOf<i64>], more: usize) -> Result<(), NoMemory>
    ensures { columns.new ≡ columns.old }
{
    for number in 0..columns.len() {
        if !columns[number].is_empty() {
            columns[number].reserve(more)?;
        }
    }
    Ok(())
}

/// Puts the integers of a row behind those of the columns that have the integers of all rows
/// before, as far as there is memory.
fn append_to_columns(columns: &mut [ListOf<i64>], before: usize, row: &Row) -> Result<(), NoMemory>
    ensures count { length columns.new ≡ length columns.old }
    ensures first { (rows : List (List cell.Value)) → length rows ≡ before →
        AreIntegerColumns rows columns.old → AreIntegerColumns (rows ++ row.now ∷ []) columns.new }
    ensures kept { OnOk result
        (HaveOneMore HasInteger (length columns.old) before row.now columns.old columns.new) }
{
    let mut kept = Ok(());
    for number in 0..columns.len() {
        kept = append_to_column(&mut columns[number], number, before, row).and(kept);
    }
    kept
}

/// Puts the integer of a row in a column behind the others, if the row has one there, and the
/// column has those of all rows before. An `Err` changes nothing.
fn append_to_column(
    column: &mut ListOf<i64>,
    number: usize,
    before: usize,
    row: &Row,
) -> Result<(), NoMemory>
    ensures first { (rows : List (List cell.Value)) → length rows ≡ before →
        AreFirstIntegers rows number column.old
        → AreFirstIntegers (rows ++ row.now ∷ []) number column.new }
    ensures kept { OnOk result
        ((integer : ℤ) → HasInteger number row.now integer → length column.old ≡ before
        → column.new ≡ column.old ++ integer ∷ []) }
{
    if column.len() != before {
        return Ok(());
    }
    if let Some(Value::Int(n)) = row.as_slice().get(number) {
        return column.push(*n);
    }
    Ok(())
}
