//! The rows that a load adds to a dimension.
ghost use Rattle.std.specs.Prelude.{◌≡◌, ◌≤◌, ◌+◌, ◌++◌, false, All, IsSome, IfOk, Some, length, map};
ghost use Rattle.std.specs.List.{list_any};
ghost use Rattle.star_plan.specs.Columns.{kinds_of};
ghost use Rattle.star_plan.specs.Repeats.{repeats};
ghost use Rattle.dimension_rows.specs.Keys.{key_of};
ghost use Rattle.query_meaning.specs.History.{rows_by};
ghost use Rattle.star_store.specs.Loads.{is_taken, repeats_a_key, same_key};
ghost use Rattle.star_store.specs.Parts.{TakesNewRows};

use csv_load::LoadRows;
use dimension_rows::{DimensionRows, a_new_row_moves_no_other};
use star_plan::{ColumnDef, sorts_to_repeat};
use star_values::{Kind, NoMemory, Row, Value, values_are_in_order};
use std::alloc::{AllocError, Global};

/// The kinds of columns, in their order.
pub(crate) fn kinds_of(alloc: Global, columns: &[ColumnDef]) -> Result<Vec<Kind>, AllocError>
    ensures { IfOk result (λ kinds. kinds.items ≡ kinds_of columns.now) }
{
    let mut kinds = Vec::with_capacity(alloc, columns.len())?;
    'columns: for column in columns {
        kinds.push_reserved(column.kind);
    }
    Ok(kinds)
}

/// Whether a key stands twice among new rows, or is in the dimension. References to the keys are
/// sorted, and no key is copied.
pub(crate) fn repeats_a_key(
    alloc: Global,
    dimension: &DimensionRows,
    rows: &[Row],
) -> Result<bool, NoMemory>
    requires keys { All (λ row. IsSome (key_of row)) rows.now }
    ensures { IfOk result (λ answer. answer ≡ repeats_a_key dimension.now.items rows.now) }
{
    Ok(has_key_twice(alloc, rows)? || takes_a_key(dimension, rows))
}

/// Whether a key stands twice among rows.
fn has_key_twice(alloc: Global, rows: &[Row]) -> Result<bool, NoMemory>
    requires keys { All (λ row. IsSome (key_of row)) rows.now }
    ensures { IfOk result (λ answer. answer ≡ repeats same_key rows.now) }
{
    values_are_in_order();
    let mut keys = keys_of(alloc, rows)?;
    Ok(sorts_to_repeat(keys.as_mut_slice()))
}

/// The keys of rows, in their order.
fn keys_of(alloc: Global, rows: &[Row]) -> Result<Vec<&Value>, AllocError>
    requires keys { All (λ row. IsSome (key_of row)) rows.now }
    ensures { IfOk result (λ keys. map (λ key. Some key.now) keys.items ≡ map key_of rows.now) }
{
    let mut keys = Vec::with_capacity(alloc, rows.len())?;
    'rows: for row in rows {
        keys.push_reserved(&row.as_slice()[0]);
    }
    Ok(keys)
}

/// Whether the key of one of these rows is that of a row of the dimension.
fn takes_a_key(dimension: &DimensionRows, rows: &[Row]) -> bool
    requires keys { All (λ row. IsSome (key_of row)) rows.now }
    ensures { result ≡ list_any (is_taken dimension.now.items) rows.now }
{
    'rows: for row in rows {
        if dimension.index_of(&row.as_slice()[0]).is_some() {
            return true;
        }
    }
    false
}

/// Appends rows to a dimension where there is room for them.
pub(crate) fn append_rows(dimension: &mut DimensionRows, rows: LoadRows, commit: u64)
    requires room { length rows ≤ dimension.old.room }
    requires taken { TakesNewRows dimension.old.items rows }
    ensures { dimension.new.items ≡ dimension.old.items ++ rows_by commit rows }
{
    a_new_row_moves_no_other();
    'rows: for row in rows.into_vec() {
        dimension.append(row, commit).unwrap();
    }
}
