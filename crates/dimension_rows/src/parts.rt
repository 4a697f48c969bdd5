//! The parts that rows, their index and their columns consist of, and how one
//! more row goes into each.
ghost use Rattle.std.specs.Prelude.{◌≡◌, ℕ, [], ◌∷◌, ◌++◌, List, length, OnOk};
ghost use Rattle.std.specs.declared.random_state.RandomState.{RandomState};
ghost use Rattle.dimension_rows.specs.Integers.{AreColumns};
ghost use Rattle.dimension_rows.specs.declared.dimension_row.DimensionRow.{DimensionRow};
ghost use Rattle.star_values.specs.First.{KeepCodes, KeepIntegers};
ghost use Rattle.dimension_rows.specs.Parts.{HavePartsRoom, IsIndexed, MayFollow, PutsRow};

use crate::dimension_row::DimensionRow;
use crate::key_hash::row_hash;
use star_values::{CodeColumns, IntegerColumns, ListWithRoom, NoMemory, Row};
use std::collections::HashMap;
use std::hash::RandomState;

/// For each row the next older row whose key has the same hash.
pub(crate) type OlderRows = ListWithRoom<Option<u32>>;

/// For each hash of a key the newest row that has it.
pub(crate) type NewestRows = HashMap<u64, u32, RandomState>;

/// Puts the integers of a row, before which there are so many, and the codes of its texts behind
/// those of their columns. Where one finds no memory the others are put there even so.
fn append_to_columns(
    integers: &mut IntegerColumns,
    codes: &mut CodeColumns,
    before: usize,
    row: &Row,
) -> Result<(), NoMemory>
    ensures columns { (rows : List DimensionRow) → length rows ≡ before →
        AreColumns rows integers.old codes.old
        → (commit : ℕ) →
        AreColumns (rows ++ record { row = row.now; commit = commit } ∷ []) integers.new codes.new }
    ensures kept { OnOk result (KeepIntegers before row.now integers.old integers.new
        × KeepCodes before row.now codes.old codes.new) }
{
    let of_integers = integers.append(before, row);
    let of_codes = codes.append(before, row);
    of_integers.and(of_codes)
}

/// What rows are kept in: the rows themselves, the links by which a key is found, and the columns
/// beside them.
#[derive(Debug, Drop)]
pub(crate) struct RowParts {
    pub(crate) rows: ListWithRoom<DimensionRow>,
    pub(crate) older: OlderRows,
    pub(crate) newest: NewestRows,
    pub(crate) integers: IntegerColumns,
    pub(crate) codes: CodeColumns,
}

/// Puts a row behind all others, into the room that each part has, and its integers and
/// the codes of its texts into the columns. An `Err` says that some of those found no
/// memory, and nothing of the row.
pub(crate) fn push_row(
    hash_keys: RandomState,
    parts: &mut RowParts,
    entry: DimensionRow,
) -> Result<(), NoMemory>
    requires indexed { IsIndexed hash_keys parts.old }
    requires room { HavePartsRoom 1 parts.old }
    requires follows { MayFollow parts.old.rows.items entry.row }
    ensures puts { PutsRow hash_keys entry parts.old parts.new }
    ensures columns { AreColumns parts.old.rows.items parts.old.integers parts.old.codes →
        AreColumns parts.new.rows.items parts.new.integers parts.new.codes }
    ensures kept { OnOk result (KeepIntegers (length parts.old.rows.items) entry.row
        parts.old.integers parts.new.integers
        × KeepCodes (length parts.old.rows.items) entry.row parts.old.codes parts.new.codes) }
{
    let before = parts.rows.len();
    let kept = append_to_columns(&mut parts.integers, &mut parts.codes, before, &entry.row);
    let inserted: Result<Option<u32>, _> = parts
        .newest
        .insert(row_hash(hash_keys, &entry.row), before as u32);
    parts.older.push_reserved(inserted.unwrap());
    parts.rows.push_reserved(entry);
    kept
}

/// Makes room for this many more rows in each part. Where that fails, what each part has stays.
pub(crate) fn reserve_rows(parts: &mut RowParts, more: usize) -> Result<(), NoMemory>
    ensures items { parts.new.rows.items ≡ parts.old.rows.items }
    ensures columns { (parts.new.integers ≡ parts.old.integers)
        × (parts.new.codes ≡ parts.old.codes) }
    ensures indexed { (hash_keys : RandomState) →
        IsIndexed hash_keys parts.old → IsIndexed hash_keys parts.new }
    ensures enough { OnOk result (HavePartsRoom more parts.new) }
    ensures grows { (room : ℕ) → HavePartsRoom room parts.old → HavePartsRoom room parts.new }
{
    parts.newest.reserve(more)?;
    parts.older.reserve(more)?;
    parts.rows.reserve(more)
}
