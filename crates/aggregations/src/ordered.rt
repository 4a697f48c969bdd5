//! The keys of groups in ascending order, each with the number of its group.
ghost use Rattle.std.specs.Prelude.{◌≡◌, IfOk, OnOk, IsPermutation};
ghost use Rattle.std.specs.List.Sorted.{IsSortedByKey};
ghost use Rattle.star_values.specs.Value.{row_cmp};
ghost use Rattle.aggregations.specs.Finish.{numbered_from};

use crate::keys::GroupKeys;
use star_values::{NoMemory, Row};
use std::alloc::Global;

/// The key of a group, and the group's number.
#[derive(Drop)]
pub(crate) struct NumberedKey {
    pub(crate) key: Row,
    pub(crate) number: usize,
}

/// The keys with their numbers.
fn numbered(alloc: Global, keys: GroupKeys) -> Result<Vec<NumberedKey>, NoMemory>
    ensures { IfOk result (λ entries. entries.items ≡ numbered_from 0 keys.keys) }
{
    let mut entries = Vec::with_capacity(alloc, keys.len())?;
    for key in keys {
        let number = entries.len();
        entries.push(NumberedKey { key, number })?;
    }
    Ok(entries)
}

/// Sorts entries by their keys.
fn sort(entries: &mut Vec<NumberedKey>) -> Result<(), NoMemory>
    ensures sorted { OnOk result (IsSortedByKey (λ entry. entry.key) row_cmp entries.new.items) }
    ensures reordered { IsPermutation entries.old.items entries.new.items }
{
    entries.sort_by(|one, other| one.key.compare(&other.key))?;
    Ok(())
}

/// The keys with their numbers, in ascending order.
pub(crate) fn in_order(alloc: Global, keys: GroupKeys) -> Result<Vec<NumberedKey>, NoMemory>
    ensures sorted { IfOk result (λ order. IsSortedByKey (λ entry. entry.key) row_cmp order.items) }
    ensures reordered { IfOk result (λ order.
        IsPermutation (numbered_from 0 keys.keys) order.items) }
{
    let mut order = numbered(alloc, keys)?;
    sort(&mut order)?;
    Ok(order)
}
