//! The tables as they are shared: whoever has a share reads them, and whoever has
//! the only one changes them.
ghost use Rattle.std.specs.Prelude.{◌≡◌, IfOk, IfSome};
ghost use Rattle.std.specs.Arc.{arc_value};
ghost use Rattle.std.specs.Borrow.{sem};
ghost use Rattle.star_store.specs.Lends.{lends_store};

use crate::store::Store;
use star_values::NoMemory;
use std::alloc::Global;
use std::marker::Model;
use std::sync::Arc;

/// A share of the tables. They are not copied for one share more, and stay as they are
/// while there is more than one.
#[derive(Debug, Drop)]
pub struct Tables {
    store: Arc<Store, Global>,
}

impl Model for Tables {
    ghost use Rattle.std.specs.Arc.{arc_value};
    ghost use Rattle.query_meaning.specs.Keyed.{KeyedStore};

    ghost Value = { KeyedStore };

    ghost view = { λ tables. arc_value tables.store };
}

impl Tables {
    /// The only share of these tables.
    pub fn new(store: Store, alloc: Global) -> Result<Tables, NoMemory>
        ensures { IfOk result (λ tables. tables ≡ store) }
    {
        match Arc::new(alloc, store) {
            Ok(store) => Ok(Tables { store }),
            Err(_) => Err(NoMemory),
        }
    }

    /// The tables, to be read.
    pub fn store(&self) -> &Store
        ensures { result.now ≡ self.now }
    {
        &self.store
    }

    /// One share more of the same tables. It may be that no more can be counted.
    pub fn share(&self) -> Result<Tables, NoMemory>
        ensures { IfOk result (λ other. other ≡ self.now) }
    {
        let store = Arc::try_clone(&self.store)?;
        Ok(Tables { store })
    }

    /// The tables, to be changed, where there is no other share of them.
    pub fn alone(&mut self) -> Option<&mut Store>
        ensures* writes_back { sem 𝓛 (lends_store self.entry result) }
        ensures store { IfSome result (λ store. store.now ≡ self.old) }
    {
        Arc::get_mut(&mut self.store)
    }
}
