//! The key numbers of versions, column by column.
ghost use Rattle.std.specs.Prelude.{◌≡◌, ◌≤◌, ◌<◌, ℕ, OnOk, length, slice_index};
ghost use Rattle.fact_versions.specs.Keys.{HasOneMore, HaveRoomForKeys, column_of, no_column};

use crate::version::KEYS_IN_A_VERSION;
use star_values::{ListWithRoom, NoMemory};
use std::alloc::Global;

/// For each dimension the key numbers of all versions, in their order: 4 bytes for each.
#[derive(Debug, Drop)]
pub(crate) struct KeyColumns {
    pub(crate) columns: [ListWithRoom<u32>; KEYS_IN_A_VERSION],
}

impl KeyColumns {
    /// No keys and no room, which takes no memory yet.
    pub(crate) fn new(alloc: Global) -> KeyColumns
        ensures { (dimension : ℕ) → column_of result.columns dimension ≡ no_column }
    {
        KeyColumns {
            columns: [
                ListWithRoom::new(alloc),
                ListWithRoom::new(alloc),
                ListWithRoom::new(alloc),
                ListWithRoom::new(alloc),
                ListWithRoom::new(alloc),
                ListWithRoom::new(alloc),
                ListWithRoom::new(alloc),
                ListWithRoom::new(alloc),
            ],
        }
    }

    /// The key numbers for a dimension, one for each version.
    pub(crate) fn column(&self, dimension: usize) -> &[u32]
        requires { dimension < KEYS_IN_A_VERSION }
        ensures { result.now ≡ (column_of self.now.columns dimension).items }
    {
        self.columns[dimension].as_slice()
    }

    /// Makes room for this many more keys in each column. An `Err` leaves the keys as they are, and
    /// takes no room away.
    pub(crate) fn reserve(&mut self, more: usize) -> Result<(), NoMemory>
        ensures items { (dimension : ℕ) →
            (column_of self.new.columns dimension).items
            ≡ (column_of self.old.columns dimension).items }
        ensures enough { OnOk result (HaveRoomForKeys more self.new.columns) }
        ensures grows { (room : ℕ) →
            HaveRoomForKeys room self.old.columns → HaveRoomForKeys room self.new.columns }
    {
        for dimension in 0..KEYS_IN_A_VERSION {
            self.columns[dimension].reserve(more)?;
        }
        Ok(())
    }

    /// Puts the keys of a version behind the others, into room that was reserved.
    pub(crate) fn append(&mut self, keys: &[u32; KEYS_IN_A_VERSION])
        requires { HaveRoomForKeys 1 self.old.columns }
        ensures more { (dimension : ℕ) → dimension < KEYS_IN_A_VERSION →
            HasOneMore (column_of self.old.columns dimension) (column_of self.new.columns dimension)
            (slice_index keys.now dimension) }
        ensures count { length keys.now ≡ KEYS_IN_A_VERSION }
    {
        for dimension in 0..KEYS_IN_A_VERSION {
            self.columns[dimension].push_reserved(keys[dimension]);
        }
    }
}
