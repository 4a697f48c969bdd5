//! Which events may come, and which comes next.
ghost use Rattle.std.specs.Prelude.{◌≡◌, ◌≢◌, ◌↔◌, All, IfSome, IsSome, IsSomeAnd, IsTrue, None, ℕ};
ghost use Rattle.core_state.specs.Events.{IsEnabled, IsWanting, MayCarry, MayCut, MayDistribute, MayFinish, MayTake};
ghost use Rattle.core_state.specs.Found.{flight_at};
ghost use Rattle.core_state.specs.Tables.{tables_of};
ghost use Rattle.core_state.specs.declared.event.Event.TheVariants.{Give};
ghost use Rattle.event_core.specs.Chosen.{IsOfKind, NoneMayCome};
ghost use Rattle.event_core.specs.Lent.{HasFreeHand};
ghost use Rattle.event_core.specs.Seen.{state_of};

use crate::machine::Core;
use crate::next_parts::{next_idle, next_open};
use core_parts::flights::{is_on_some_roster, place_held_by, place_of};
use core_parts::{is_through, is_wanting, next_finish, next_through, next_wanting};
use core_state::Event;
use pipeline_manager::{
    may_abandon, may_build, may_clear, may_end, may_release, may_reserve, may_start, next_build,
    next_clear, next_release, next_reservation, next_start,
};

/// The kinds of events, in the order of `Event`.
#[derive(Clone, Copy, Debug, PartialEq, Eq)]
pub enum EventKind {
    /// A seat submits a statement.
    Submit,

    /// The query that waits the longest gets a free slot.
    Reserve,

    /// The filter of a dimension is built for a query.
    Build,

    /// A query for which every filter is built begins its lap.
    Start,

    /// The scan cuts the next batch.
    Cut,

    /// A worker takes a batch, with the present version of the filter that it meets next.
    Take,

    /// A worker takes a batch, with the present versions of all filters that it did not pass.
    Carry,

    /// A worker gives back the batch in its hand.
    Give,

    /// The rows of a batch are folded into the groups of the queries that they have a bit of.
    Distribute,

    /// A slot is taken from a query that is to be answered, or has no answer.
    Finish,

    /// The filter of a dimension is cleared of a slot.
    Clear,

    /// A slot of which no filter has a bit is free again.
    Release,

    /// The filters are ordered by their drop rates.
    Reorder,

    /// Nobody wants the answer of a query any more.
    Abandon,
}

impl Core {
    /// Whether an event may come now.
    pub fn enabled(&self, event: &Event) -> bool
        ensures { IsTrue result ↔ IsEnabled (state_of self.now) event.now }
    {
        match event {
            Event::Submit { seat, .. } => (*seat as usize) < self.seats.len(),
            Event::Reserve { query, slot } => may_reserve(&self.manager, *query, *slot),
            Event::Build { query, dimension } => may_build(&self.manager, *query, *dimension),
            Event::Start { query } => may_start(&self.manager, *query),
            Event::Cut => self.may_cut(),
            Event::Take { worker, batch } => self.may_take(*worker, *batch),
            Event::Carry { worker, batch } => self.may_carry(*worker, *batch),
            Event::Give { worker } => self.may_give(*worker),
            Event::Distribute { batch } => self.may_distribute(*batch),
            Event::Finish { slot } => self.may_finish(*slot),
            Event::Clear { slot, dimension } => may_clear(&self.manager, *slot, *dimension),
            Event::Release { slot } => may_release(&self.manager, *slot),
            Event::Reorder => self.may_reorder(),
            Event::Abandon { query } => may_abandon(&self.manager, *query),
        }
    }

    pub(crate) fn may_cut(&self) -> bool
        ensures { IsTrue result ↔ MayCut (state_of self.now) }
    {
        self.manager.some_run() && self.pool.free() > 0
    }

    fn may_take(&self, worker: u32, batch: u64) -> bool
        ensures { IsTrue result ↔ MayTake worker batch (state_of self.now) }
    {
        if !self.has_free_hand(worker) {
            return false;
        }
        let flights = self.flights.as_slice();
        match place_of(flights, batch) {
            None => false,
            Some(place) => is_wanting(&self.filters, &flights[place]),
        }
    }

    fn may_carry(&self, worker: u32, batch: u64) -> bool
        ensures { IsTrue result ↔ MayCarry worker batch (state_of self.now) }
    {
        if !self.has_free_hand(worker) {
            return false;
        }
        let flights = self.flights.as_slice();
        match place_of(flights, batch) {
            None => false,
            Some(place) => flights[place].is_idle(),
        }
    }

    /// Whether there is a seat of this number, and no batch is in its hand.
    fn has_free_hand(&self, worker: u32) -> bool
        ensures { IsTrue result ↔ HasFreeHand worker (state_of self.now) }
    {
        self.has_seat(worker) && place_held_by(self.flights.as_slice(), worker).is_none()
    }

    fn may_give(&self, worker: u32) -> bool
        ensures { IsTrue result ↔ IsEnabled (state_of self.now) (Give worker) }
    {
        place_held_by(self.flights.as_slice(), worker).is_some()
    }

    fn may_distribute(&self, batch: u64) -> bool
        ensures { IsTrue result ↔ MayDistribute batch (state_of self.now) }
    {
        let flights = self.flights.as_slice();
        match place_of(flights, batch) {
            None => false,
            Some(place) => is_through(&self.filters, &flights[place]),
        }
    }

    fn may_finish(&self, slot: u32) -> bool
        ensures { IsTrue result ↔ MayFinish slot (state_of self.now) }
    {
        may_end(&self.manager, slot) && !is_on_some_roster(self.flights.as_slice(), slot)
    }

    /// Whether the fact table is declared, so that the filters may be ordered.
    fn may_reorder(&self) -> bool
        ensures { IsTrue result ↔ IsSome (tables_of (state_of self.now)).schema.fact }
    {
        self.tables.store().schema().fact.is_some()
    }

    /// An event of a kind that may come now, or `None` if none may. The statement of a Submit is
    /// the seat's own, so no Submit is chosen. No memory is taken.
    pub fn next_event(&self, kind: EventKind) -> Option<Event>
        ensures kind { IfSome result (IsOfKind kind) }
        ensures enabled { IfSome result (IsEnabled (state_of self.now)) }
        ensures none { result ≡ None → kind ≢ EventKind.Submit →
            NoneMayCome kind (state_of self.now) }
        ensures submit { kind ≡ EventKind.Submit → result ≡ None }
    {
        match kind {
            EventKind::Submit => None,
            EventKind::Reserve => self.next_reserve(),
            EventKind::Build => self.next_build(),
            EventKind::Start => self.next_start(),
            EventKind::Cut => self.next_cut(),
            EventKind::Take => self.next_taking(),
            EventKind::Carry => self.next_carry(),
            EventKind::Give => self.next_give(),
            EventKind::Distribute => self.next_distribute(),
            EventKind::Finish => self.next_finish(),
            EventKind::Clear => self.next_clear(),
            EventKind::Release => self.next_release(),
            EventKind::Reorder => self.next_reorder(),
            EventKind::Abandon => self.next_abandon(),
        }
    }

    /// The number of a batch that is idle, has a bit left and did not pass every filter, or
    /// `None` if there is none.
    pub fn next_take(&self) -> Option<u64>
        ensures some { IfSome result (λ batch.
            IsSomeAnd (flight_at (state_of self.now).scan.flights batch)
            (IsWanting (state_of self.now).filters)) }
        ensures none { result ≡ None →
            All (λ flight. IsWanting (state_of self.now).filters flight → ⊥)
            (state_of self.now).scan.flights }
    {
        next_wanting(&self.filters, self.flights.as_slice())
    }

    /// A Reserve that may come, or `None`.
    fn next_reserve(&self) -> Option<Event>
        ensures kind { IfSome result (IsOfKind EventKind.Reserve) }
        ensures enabled { IfSome result (IsEnabled (state_of self.now)) }
        ensures none { result ≡ None → NoneMayCome EventKind.Reserve (state_of self.now) }
    {
        let found = next_reservation(&self.manager)?;
        Some(Event::Reserve {
            query: found.query,
            slot: found.slot,
        })
    }

    /// A Build that may come, or `None`.
    fn next_build(&self) -> Option<Event>
        ensures kind { IfSome result (IsOfKind EventKind.Build) }
        ensures enabled { IfSome result (IsEnabled (state_of self.now)) }
        ensures none { result ≡ None → NoneMayCome EventKind.Build (state_of self.now) }
    {
        let found = next_build(&self.manager)?;
        Some(Event::Build {
            query: found.query,
            dimension: found.dimension,
        })
    }

    /// A Start that may come, or `None`.
    fn next_start(&self) -> Option<Event>
        ensures kind { IfSome result (IsOfKind EventKind.Start) }
        ensures enabled { IfSome result (IsEnabled (state_of self.now)) }
        ensures none { result ≡ None → NoneMayCome EventKind.Start (state_of self.now) }
    {
        let query = next_start(&self.manager)?;
        Some(Event::Start { query })
    }

    /// A Cut, if it may come.
    fn next_cut(&self) -> Option<Event>
        ensures kind { IfSome result (IsOfKind EventKind.Cut) }
        ensures enabled { IfSome result (IsEnabled (state_of self.now)) }
        ensures none { result ≡ None → NoneMayCome EventKind.Cut (state_of self.now) }
    {
        if self.may_cut() {
            Some(Event::Cut)
        } else {
            None
        }
    }

    /// A Take that may come, or `None`.
    fn next_taking(&self) -> Option<Event>
        ensures kind { IfSome result (IsOfKind EventKind.Take) }
        ensures enabled { IfSome result (IsEnabled (state_of self.now)) }
        ensures none { result ≡ None → NoneMayCome EventKind.Take (state_of self.now) }
    {
        let batch = self.next_take()?;
        let worker = self.next_free_hand()?;
        Some(Event::Take { worker, batch })
    }

    /// A Carry that may come, or `None`.
    fn next_carry(&self) -> Option<Event>
        ensures kind { IfSome result (IsOfKind EventKind.Carry) }
        ensures enabled { IfSome result (IsEnabled (state_of self.now)) }
        ensures none { result ≡ None → NoneMayCome EventKind.Carry (state_of self.now) }
    {
        let batch = next_idle(self.flights.as_slice())?;
        let worker = self.next_free_hand()?;
        Some(Event::Carry { worker, batch })
    }

    /// The first seat with an empty hand, or `None`.
    fn next_free_hand(&self) -> Option<u32>
        ensures some { IfSome result (λ worker. HasFreeHand worker (state_of self.now)) }
        ensures none { result ≡ None → (worker : ℕ) → HasFreeHand worker (state_of self.now) → ⊥ }
    {
        for worker in 0..self.settings.seats {
            if self.has_free_hand(worker) {
                return Some(worker);
            }
        }
        None
    }

    /// A Give that may come, or `None`: the first seat with a batch in its hand gives it back.
    fn next_give(&self) -> Option<Event>
        ensures kind { IfSome result (IsOfKind EventKind.Give) }
        ensures enabled { IfSome result (IsEnabled (state_of self.now)) }
        ensures none { result ≡ None → NoneMayCome EventKind.Give (state_of self.now) }
    {
        for worker in 0..self.settings.seats {
            if self.may_give(worker) {
                return Some(Event::Give { worker });
            }
        }
        None
    }

    /// A Distribute that may come, or `None`.
    fn next_distribute(&self) -> Option<Event>
        ensures kind { IfSome result (IsOfKind EventKind.Distribute) }
        ensures enabled { IfSome result (IsEnabled (state_of self.now)) }
        ensures none { result ≡ None → NoneMayCome EventKind.Distribute (state_of self.now) }
    {
        let batch = next_through(&self.filters, self.flights.as_slice())?;
        Some(Event::Distribute { batch })
    }

    /// A Finish that may come, or `None`.
    fn next_finish(&self) -> Option<Event>
        ensures kind { IfSome result (IsOfKind EventKind.Finish) }
        ensures enabled { IfSome result (IsEnabled (state_of self.now)) }
        ensures none { result ≡ None → NoneMayCome EventKind.Finish (state_of self.now) }
    {
        let slot = next_finish(&self.manager, self.flights.as_slice())?;
        Some(Event::Finish { slot })
    }

    /// A Clear that may come, or `None`.
    fn next_clear(&self) -> Option<Event>
        ensures kind { IfSome result (IsOfKind EventKind.Clear) }
        ensures enabled { IfSome result (IsEnabled (state_of self.now)) }
        ensures none { result ≡ None → NoneMayCome EventKind.Clear (state_of self.now) }
    {
        let found = next_clear(&self.manager)?;
        Some(Event::Clear {
            slot: found.slot,
            dimension: found.dimension,
        })
    }

    /// A Release that may come, or `None`.
    fn next_release(&self) -> Option<Event>
        ensures kind { IfSome result (IsOfKind EventKind.Release) }
        ensures enabled { IfSome result (IsEnabled (state_of self.now)) }
        ensures none { result ≡ None → NoneMayCome EventKind.Release (state_of self.now) }
    {
        let slot = next_release(&self.manager)?;
        Some(Event::Release { slot })
    }

    /// A Reorder, if it may come.
    fn next_reorder(&self) -> Option<Event>
        ensures kind { IfSome result (IsOfKind EventKind.Reorder) }
        ensures enabled { IfSome result (IsEnabled (state_of self.now)) }
        ensures none { result ≡ None → NoneMayCome EventKind.Reorder (state_of self.now) }
    {
        if self.may_reorder() {
            Some(Event::Reorder)
        } else {
            None
        }
    }

    /// An Abandon that may come, or `None`.
    fn next_abandon(&self) -> Option<Event>
        ensures kind { IfSome result (IsOfKind EventKind.Abandon) }
        ensures enabled { IfSome result (IsEnabled (state_of self.now)) }
        ensures none { result ≡ None → NoneMayCome EventKind.Abandon (state_of self.now) }
    {
        let query = next_open(&self.manager)?;
        Some(Event::Abandon { query })
    }
}
