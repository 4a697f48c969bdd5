//! Which query holds which slot, and how far it is. What becomes of them is in `life`.
ghost use Rattle.std.specs.Prelude.{◌≡◌, ℕ, ◌<◌, ◌≤◌, ◌↔◌, [], length, replicate, All, Any, IsTrue, IfOk, OnOk, OnErr, IfSome, option_map};
ghost use Rattle.bit_words.specs.declared.slots.TheConstants.{MAX_SLOTS};
ghost use Rattle.pipeline_manager.specs.declared.life.SlotState.TheVariants.{Free};
ghost use Rattle.pipeline_manager.specs.Lives.{life_of, extent_in, oldest_waiting, free_slot, slot_at, slot_of};
ghost use Rattle.pipeline_manager.specs.Conditions.{IsRunning, IsNew, CanReserve, CanBuild, CanRun, CanCutRange, CanEnd, CanClear, CanFree, CanSpoil, CanAbandon};
ghost use Rattle.pipeline_manager.specs.Sound.{AreSoundLives};
ghost use Rattle.pipeline_manager.specs.Changes.{after_submit, after_reserve, after_built, after_run, after_cut, after_end, after_cleared, after_free, after_spoil, after_abandon};

use crate::life::{Life, SlotState};
use crate::query_lives::QueryLives;
use crate::{queries, slots};
use bit_words::numbers_go_in_and_out;
use star_values::{ListOf, NoMemory};
use std::alloc::Global;
use std::marker::Model;

/// The lives of all queries that were submitted, and the states of all slots. A query whose life is
/// over keeps two bits, once those before it are over too.
///
/// No call takes memory but `new` and `submit`.
#[derive(Debug, Drop)]
pub struct Manager {
    queries: QueryLives,
    slots: ListOf<SlotState>,
    filters: u8,

    /// How many slots at the front have all that are in use. From there on each is Free.
    used: usize,
}

impl Model for Manager {
    ghost use Rattle.pipeline_manager.specs.Lives.{Lives};
    ghost use Rattle.pipeline_manager.specs.Sound.{AreSoundLives};
    ghost use Rattle.pipeline_manager.specs.Inside.{UsesFirst};

    ghost Value = { Lives };

    ghost view = { λ manager. record {
      queries = manager.queries;
      slots = manager.slots;
      filters = manager.filters;
    } };

    ghost invariant = { λ manager.
        AreSoundLives (record {
          queries = manager.queries;
          slots = manager.slots;
          filters = manager.filters;
        })
        × UsesFirst manager.used manager.slots };
}

impl Manager {
    /// No queries, and 1 to 64 slots, all Free. Bit j of `filters` says that
    /// dimension j is a filter.
    pub fn new(alloc: Global, slots: u32, filters: u8) -> Result<Manager, NoMemory>
        requires some { 1 ≤ slots }
        requires few { slots ≤ MAX_SLOTS }
        ensures { IfOk result (λ manager. manager ≡ record {
          queries = [];
          slots = replicate slots Free;
          filters = filters;
        }) }
    {
        Ok(Manager {
            queries: QueryLives::new(alloc),
            slots: ListOf::from(vec![in alloc; SlotState::Free; slots as usize]?),
            filters,
            used: 0,
        })
    }

    /// Puts a query behind all others. It waits. Its number is greater than theirs.
    pub fn submit(&mut self, query: u64, extent: u32) -> Result<(), NoMemory>
        requires { IsNew query self.old }
        ensures ok { OnOk result (self.new ≡ after_submit query extent self.old) }
        ensures err { OnErr result (self.new ≡ self.old) }
    {
        self.queries.push(query, extent)?;
        Ok(())
    }

    /// The number of the query that waits the longest, or `None` where none waits.
    pub fn oldest_waiting(&self) -> Option<u64>
        ensures oldest { result ≡ oldest_waiting self.now }
        ensures sound { AreSoundLives self.now }
    {
        self.queries.oldest_waiting()
    }

    /// The least slot that is Free, or `None` where none is.
    pub fn free_slot(&self) -> Option<u32>
        ensures least { result ≡ free_slot self.now }
        ensures within { IfSome result (λ slot. slot < length self.now.slots) }
        ensures is_free { IfSome result (λ slot. slot_at self.now slot ≡ Free) }
        ensures sound { AreSoundLives self.now }
    {
        Some(slots::first_free(self.slots.as_slice())? as u32)
    }

    /// The life of a query, or `None` where none with this number was submitted.
    pub fn life(&self, query: u64) -> Option<Life>
        ensures life { result ≡ life_of self.now query }
        ensures sound { AreSoundLives self.now }
    {
        self.queries.life(query)
    }

    /// How many positions the scan gives a query that may still be answered.
    pub fn extent(&self, query: u64) -> u32
        requires { CanAbandon query self.now }
        ensures { result ≡ extent_in self.now.queries query }
    {
        self.queries.extent(query)
    }

    /// The slot that a query holds, or `None` where it holds none.
    pub fn slot_of(&self, query: u64) -> Option<u32>
        ensures slot { result ≡ slot_of self.now query }
        ensures within { IfSome result (λ slot. slot < length self.now.slots) }
        ensures sound { AreSoundLives self.now }
    {
        Some(slots::first_held(self.slots.as_slice(), self.used, query)? as u32)
    }

    /// Whether some query is Running. It looks at the slots in use alone.
    pub fn some_run(&self) -> bool
        ensures run { IsTrue result ↔ Any (λ entry. IsRunning entry.life) self.now.queries }
        ensures sound { AreSoundLives self.now }
    {
        let in_use = slots::in_front(self.slots.as_slice(), self.used);
        self.queries.some_run(in_use)
    }

    pub fn slot(&self, slot: u32) -> SlotState
        requires { slot < length self.now.slots }
        ensures state { result ≡ slot_at self.now slot }
        ensures sound { AreSoundLives self.now }
    {
        self.slots.as_slice()[slot as usize]
    }

    /// How many slots there are.
    pub fn slots(&self) -> u32
        ensures count { result ≡ length self.now.slots }
        ensures few { length self.now.slots ≤ MAX_SLOTS }
    {
        self.slots.as_slice().len() as u32
    }

    /// How many slots at the front have all that are in use: from there on each is Free.
    pub fn used(&self) -> u32
        ensures within { result ≤ length self.now.slots }
        ensures free { (slot : ℕ) → result ≤ slot → slot_at self.now slot ≡ Free }
        ensures sound { AreSoundLives self.now }
    {
        self.used as u32
    }

    /// The set of the dimensions that are filters.
    pub fn filters(&self) -> u8
        ensures { result ≡ self.now.filters }
    {
        self.filters
    }

    /// Notes which dimensions are filters: bit j of `filters` says that dimension j is
    /// one. No slot is used yet.
    pub fn set_filters(&mut self, filters: u8)
        requires { All (λ slot. slot ≡ Free) self.old.slots }
        ensures { self.new ≡ record self.old { filters = filters } }
    {
        self.filters = filters;
    }

    /// Gives a Free slot to the query that waits the longest. Nothing is built for it yet.
    pub fn reserve(&mut self, slot: u32)
        requires within { slot < length self.old.slots }
        requires can { CanReserve slot self.old }
        ensures { self.new ≡ after_reserve slot self.old }
    {
        if let Some(query) = self.oldest_waiting() {
            self.queries.set_life(query, Life::Building);
            let held = SlotState::Held { query, built: 0 };
            slots::set_slot(&mut self.slots, slot as usize, held);
            self.used = self.used.max(slot as usize + 1);
        }
    }

    /// Notes that a filter's dimension is built for a query.
    pub fn built(&mut self, query: u64, dimension: u8)
        requires range { dimension < 8 }
        requires can { CanBuild query dimension self.old }
        ensures { self.new ≡ after_built query dimension self.old }
    {
        numbers_go_in_and_out();
        if let Some(slot) = slots::first_held(self.slots.as_slice(), self.used, query) {
            let state = slots::with_dimension(self.slots.as_slice()[slot], dimension);
            slots::set_slot(&mut self.slots, slot, state);
        }
    }

    /// Notes that the scan gives a query rows from the position `start` on.
    pub fn run(&mut self, query: u64, start: u32)
        requires { CanRun query self.old }
        ensures { self.new ≡ after_run query start self.old }
    {
        let extent = self.queries.extent(query);
        let life = queries::started(start, extent);
        self.queries.set_life(query, life);
    }

    /// Notes that the scan has given all Running queries the positions from `first` to `last`, both
    /// included.
    pub fn cut(&mut self, first: u32, last: u32)
        requires { CanCutRange first last self.old }
        ensures { self.new ≡ after_cut first last self.old }
    {
        let in_use = slots::in_front(self.slots.as_slice(), self.used);
        self.queries.cut(in_use, first, last);
    }

    /// Takes a slot from its holder, which is Ending, Spoiled or Abandoned.
    /// What is Ending is Answered.
    pub fn end(&mut self, slot: u32)
        requires within { slot < length self.old.slots }
        requires can { CanEnd slot self.old }
        ensures { self.new ≡ after_end slot self.old }
    {
        if let SlotState::Held { query, built } = self.slots.as_slice()[slot as usize] {
            self.queries.answer(query);
            slots::set_slot(&mut self.slots, slot as usize, SlotState::Clearing(built));
        }
    }

    /// Notes that a dimension is cleared of a slot.
    pub fn cleared(&mut self, slot: u32, dimension: u8)
        requires within { slot < length self.old.slots }
        requires range { dimension < 8 }
        requires can { CanClear slot dimension self.old }
        ensures { self.new ≡ after_cleared slot dimension self.old }
    {
        numbers_go_in_and_out();
        let state = slots::without_dimension(self.slots.as_slice()[slot as usize], dimension);
        slots::set_slot(&mut self.slots, slot as usize, state);
    }

    /// Makes a slot Free of which everything is cleared.
    pub fn free(&mut self, slot: u32)
        requires within { slot < length self.old.slots }
        requires can { CanFree slot self.old }
        ensures { self.new ≡ after_free slot self.old }
    {
        slots::set_slot(&mut self.slots, slot as usize, SlotState::Free);
        self.used = slots::count_used(self.slots.as_slice(), self.used);
    }

    /// Notes that a query has no answer. It keeps its slot.
    pub fn spoil(&mut self, query: u64)
        requires { CanSpoil query self.old }
        ensures { self.new ≡ after_spoil query self.old }
    {
        self.queries.set_life(query, Life::Spoiled);
    }

    /// Notes that nobody wants a query's answer. If it has a slot, it keeps it.
    pub fn abandon(&mut self, query: u64)
        requires { CanAbandon query self.old }
        ensures { self.new ≡ after_abandon query self.old }
    {
        self.queries.set_life(query, Life::Abandoned);
    }
}
