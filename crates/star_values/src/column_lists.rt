//! Lists of a column each, as they are made.
ghost use Rattle.std.specs.Prelude.{◌≡◌, ◌<◌, ℕ, [], length, slice_index_or, OnOk};

use crate::list_of::ListOf;
use crate::no_memory::NoMemory;
use std::alloc::Global;

/// The most columns of a table, and the most that are kept.
pub const MAX_COLUMNS: usize = 16;

/// Makes an empty list for each column that has none, of so many columns and at most
/// `MAX_COLUMNS`, as long as there is memory. It does so where there are no rows before the one at
/// hand, and nothing elsewhere.
pub(crate) fn make_columns<T: Drop>(
    columns: &mut ListOf<ListOf<T>>,
    alloc: Global,
    before: usize,
    count: usize,
) -> Result<(), NoMemory>
    ensures same { (column : ℕ) →
        slice_index_or columns.new column [] ≡ slice_index_or columns.old column [] }
    ensures made { OnOk result (before ≡ 0 → (column : ℕ) → column < count → column < MAX_COLUMNS
        → column < length columns.new) }
{
    if before > 0 {
        return Ok(());
    }
    make_lists(columns, alloc, count)
}

/// Makes an empty list for each column that has none, of so many columns and at most `MAX_COLUMNS`,
/// as long as there is memory.
fn make_lists<T: Drop>(
    columns: &mut ListOf<ListOf<T>>,
    alloc: Global,
    count: usize,
) -> Result<(), NoMemory>
    ensures same { (column : ℕ) →
        slice_index_or columns.new column [] ≡ slice_index_or columns.old column [] }
    ensures made { OnOk result ((column : ℕ) → column < count → column < MAX_COLUMNS
        → column < length columns.new) }
{
    'lists: while columns.len() < count.min(MAX_COLUMNS) {
        columns.push(ListOf::new(alloc))?;
    }
    Ok(())
}
