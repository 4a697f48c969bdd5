//! Which batch in flight may come next.
ghost use Rattle.std.specs.Prelude.{◌≡◌, ◌≢◌, ◌↔◌, ◌==◌, ℕ, find, All, AllPairs, IfSome, IsSomeAnd, IsTrue, false};
ghost use Rattle.std.specs.Int.{bit_at};
ghost use Rattle.std.specs.List.{list_any};
ghost use Rattle.pipeline_manager.specs.Conditions.{CanEnd};
ghost use Rattle.core_parts.specs.Flights.{Through, Wants};

use crate::flights::is_on_some_roster;
use crate::{Filters, Flight};
use pipeline_manager::{Manager, may_end};

/// Whether a batch is idle, has a bit left, and did not pass every filter.
pub fn is_wanting(filters: &Filters, flight: &Flight) -> bool
    ensures { IsTrue result ↔ Wants filters.now flight.now }
{
    match flight.idle() {
        Some(batch) => !batch.all_zero() && filters.next(batch).is_some(),
        None => false,
    }
}

/// Whether a batch is idle, and passed every filter or has no bit left.
pub fn is_through(filters: &Filters, flight: &Flight) -> bool
    ensures { IsTrue result ↔ Through filters.now flight.now }
{
    match flight.idle() {
        Some(batch) => batch.all_zero() || filters.all_passed(batch),
        None => false,
    }
}

/// The number of a batch that is idle and has passed every filter or has no bit left.
pub fn next_through(filters: &Filters, flights: &[Flight]) -> Option<u64>
    requires apart { AllPairs (λ flight other. flight.batch.number ≢ other.batch.number)
        flights.now }
    ensures some { IfSome result (λ number.
        IsSomeAnd (find (λ flight. flight.batch.number == number) flights.now)
        (Through filters.now)) }
    ensures none { result ≡ None → All (λ flight. Through filters.now flight → ⊥) flights.now }
{
    for flight in flights {
        if is_through(filters, flight) {
            return Some(flight.number());
        }
    }
    None
}

/// The number of a batch that is idle, has a bit left and did not pass every filter.
pub fn next_wanting(filters: &Filters, flights: &[Flight]) -> Option<u64>
    requires apart { AllPairs (λ flight other. flight.batch.number ≢ other.batch.number)
        flights.now }
    ensures some { IfSome result (λ number.
        IsSomeAnd (find (λ flight. flight.batch.number == number) flights.now)
        (Wants filters.now)) }
    ensures none { result ≡ None → All (λ flight. Wants filters.now flight → ⊥) flights.now }
{
    for flight in flights {
        if is_wanting(filters, flight) {
            return Some(flight.number());
        }
    }
    None
}

/// A slot whose query is over and that is on no roster of a batch in flight.
pub fn next_finish(manager: &Manager, flights: &[Flight]) -> Option<u32>
    ensures some { IfSome result (λ slot.
        CanEnd slot manager.now
        × (list_any (λ flight. bit_at flight.batch.roster slot == 1) flights.now ≡ false)) }
    ensures none { result ≡ None → (slot : ℕ) →
        CanEnd slot manager.now
        × (list_any (λ flight. bit_at flight.batch.roster slot == 1) flights.now ≡ false) →
        ⊥ }
{
    for slot in 0..manager.used() {
        if may_end(manager, slot) && !is_on_some_roster(flights, slot) {
            return Some(slot);
        }
    }
    None
}
