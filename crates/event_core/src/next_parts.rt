//! Which batch may be carried, and which query may be abandoned.
ghost use Rattle.std.specs.Prelude.{◌≡◌, ◌≢◌, ◌<◌, ◌==◌, ℕ, All, AllPairs, IfSome, IsSomeAnd, None, Some, find, length};
ghost use Rattle.pipeline_manager.specs.Conditions.{CanAbandon, CanSpoil};
ghost use Rattle.pipeline_manager.specs.Lives.{slot_of};

use core_parts::Flight;
use pipeline_manager::{Manager, SlotState, may_abandon};

/// The number of the first batch that is in no hand, or `None`.
pub(crate) fn next_idle(flights: &[Flight]) -> Option<u64>
    requires apart { AllPairs (λ flight other. flight.batch.number ≢ other.batch.number)
        flights.now }
    ensures some { IfSome result (λ number.
        IsSomeAnd (find (λ flight. flight.batch.number == number) flights.now)
        (λ flight. flight.hand ≡ None)) }
    ensures none { result ≡ None → All (λ flight. flight.hand ≡ None → ⊥) flights.now }
{
    for flight in flights {
        if flight.is_idle() {
            return Some(flight.number());
        }
    }
    None
}

/// A query that may be abandoned, or `None`: the query that waits the longest, and if no query
/// waits the first that holds a slot.
pub(crate) fn next_open(manager: &Manager) -> Option<u64>
    ensures some { IfSome result (λ query. CanAbandon query manager.now) }
    ensures none { result ≡ None → (query : ℕ) → CanAbandon query manager.now → ⊥ }
{
    match manager.oldest_waiting() {
        Some(query) => Some(query),
        None => next_begun(manager),
    }
}

/// The first query that holds a slot and may be abandoned, or `None`.
fn next_begun(manager: &Manager) -> Option<u64>
    ensures some { IfSome result (λ query. CanAbandon query manager.now) }
    ensures none { result ≡ None → (query : ℕ) → CanSpoil query manager.now → ⊥ }
{
    for slot in 0..manager.used() {
        if let Some(query) = open_at(manager, slot) {
            return Some(query);
        }
    }
    None
}

/// The query that holds a slot, if it may be abandoned.
fn open_at(manager: &Manager, slot: u32) -> Option<u64>
    requires { slot < length manager.now.slots }
    ensures some { IfSome result (λ query. CanAbandon query manager.now) }
    ensures none { result ≡ None → (query : ℕ) → slot_of manager.now query ≡ Some slot →
        CanSpoil query manager.now → ⊥ }
{
    match manager.slot(slot) {
        SlotState::Held { query, .. } => if_open(manager, query),
        SlotState::Free | SlotState::Clearing(_) => None,
    }
}

/// The query, if it may be abandoned.
fn if_open(manager: &Manager, query: u64) -> Option<u64>
    ensures some { IfSome result (λ found. CanAbandon found manager.now) }
    ensures none { result ≡ None → CanAbandon query manager.now → ⊥ }
{
    if may_abandon(manager, query) {
        Some(query)
    } else {
        None
    }
}
