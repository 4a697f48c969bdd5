//! What becomes of the parts of a core is what becomes of its state: queries and their slots.
ghost use Rattle.std.specs.Prelude.{◌≡◌, ◌<◌, ◌≢◌, ℕ, List, length, slice_get, slice_index_or, Some, None, IsSome};
ghost use Rattle.pipeline_manager.specs.Conditions.{CanAbandon, CanFree, CanRun};
ghost use Rattle.pipeline_manager.specs.Lives.{extent_in, life_of, slot_at, slot_of};
ghost use Rattle.pipeline_manager.specs.declared.life.Life.TheVariants.{Ending};
ghost use Rattle.pipeline_manager.specs.declared.life.SlotState.TheVariants.{Held};
ghost use Rattle.continuous_scan.specs.Calls.{CanStart};
ghost use Rattle.aggregations.specs.Grouped.{Grouped};
ghost use Rattle.core_state.specs.Admitting.{after_finish, after_release, after_reserving, after_start};
ghost use Rattle.core_state.specs.Events.{MayFinish, MayReserve};
ghost use Rattle.core_state.specs.Submitting.{after_abandoning, without_pending};
ghost use Rattle.core_parts.specs.declared.submitted.Submitted.{Submitted};
ghost use Rattle.core_parts.specs.Asked.{AskedQuery, asked_at, known_in};
ghost use Rattle.event_core.specs.Changes.{abandoned, finished, released, reserved, started, statements_at, unheld};
ghost use Rattle.event_core.specs.Core.{Becomes, IsCore};
ghost use Rattle.event_core.specs.CoreParts.{CoreParts};
ghost use Rattle.core_parts.specs.Seats.{seat_as};
ghost use Rattle.event_core.specs.Seen.{state_of};

use crate::laws_of_core::quiet_events_leave_a_core;
use core_state::{
    a_distributor_follows_the_core, a_scan_starts_what_the_core_starts,
    a_scan_stops_what_the_core_stops, every_step_keeps_a_core_sound, other_events_leave_a_scan,
};

/// A query gets a slot, and a slot is free again.
pub(crate) fn slots_follow_the_core()
    ensures reserve { (parts : CoreParts) (query slot : ℕ) → IsCore parts →
        MayReserve query slot (state_of parts) →
        Becomes (reserved slot parts) (after_reserving slot (state_of parts)) }
    ensures release { (parts : CoreParts) (slot : ℕ) → IsCore parts → CanFree slot parts.lives →
        Becomes (released slot parts) (after_release slot (state_of parts)) }
{
    quiet_events_leave_a_core();
}

/// A query that begins its lap holds a slot, and groups of no rows are kept beside it: they
/// are attached at the slot.
pub(crate) fn starts_follow_the_core()
    ensures there { (parts : CoreParts) (query : ℕ) → IsCore parts → CanRun query parts.lives →
        IsSome (slot_of parts.lives query) × IsSome (asked_at parts.asked query) }
    ensures kept { (parts : CoreParts) (query : ℕ) (asked : AskedQuery) → IsCore parts →
        CanRun query parts.lives →
        asked_at parts.asked query ≡ Some asked → IsSome asked.kept }
    ensures may { (parts : CoreParts) (query slot : ℕ) (asked : AskedQuery) → IsCore parts →
        CanRun query parts.lives → slot_of parts.lives query ≡ Some slot →
        asked_at parts.asked query ≡ Some asked →
        (slice_get parts.attached slot ≡ Some None)
        × (extent_in parts.lives.queries query ≢ 0 →
        CanStart slot (extent_in parts.lives.queries query)
        (length parts.tables.versions) parts.scan) }
    ensures done { (parts : CoreParts) (query slot : ℕ) (asked : AskedQuery) (groups : Grouped) →
        IsCore parts → CanRun query parts.lives → slot_of parts.lives query ≡ Some slot →
        asked_at parts.asked query ≡ Some asked → asked.kept ≡ Some groups →
        Becomes (started query slot asked groups parts) (after_start query (state_of parts)) }
{
    a_scan_starts_what_the_core_starts();
    a_distributor_follows_the_core();
    every_step_keeps_a_core_sound();
}

/// A slot that is finished is held by a query. The groups of one that is
/// answered are kept beside it.
pub(crate) fn finishes_follow_the_core()
    ensures answered { (parts : CoreParts) (slot query built : ℕ) → IsCore parts →
        MayFinish slot (state_of parts) → slot_at parts.lives slot ≡ Held query built →
        life_of parts.lives query ≡ Some Ending →
        Becomes (finished slot query (slice_index_or parts.attached slot None) parts)
        (after_finish slot (state_of parts)) }
    ensures unanswered { (parts : CoreParts) (slot query built : ℕ) → IsCore parts →
        MayFinish slot (state_of parts) → slot_at parts.lives slot ≡ Held query built →
        life_of parts.lives query ≢ Some Ending →
        Becomes (unheld slot parts) (after_finish slot (state_of parts)) }
{
    a_distributor_follows_the_core();
    other_events_leave_a_scan();
    every_step_keeps_a_core_sound();
}

/// A query that nobody wants any more is forgotten at its slot, beside it, by
/// the scan and by its seat.
pub(crate) fn abandoned_queries_follow_the_core()
    ensures there { (parts : CoreParts) (query : ℕ) → IsCore parts → CanAbandon query parts.lives →
        IsSome (asked_at parts.asked query) }
    ensures seat { (parts : CoreParts) (query : ℕ) (asked : AskedQuery) → IsCore parts →
        asked_at parts.asked query ≡ Some asked → asked.seat < length parts.seats }
    ensures done { (parts : CoreParts) (query : ℕ) (asked : AskedQuery)
        (statements : List Submitted) →
        IsCore parts → CanAbandon query parts.lives → asked_at parts.asked query ≡ Some asked →
        seat_as (known_in parts.asked) statements
        ≡ without_pending query
        (seat_as (known_in parts.asked) (statements_at parts.seats asked.seat)) →
        Becomes (abandoned query asked.seat statements parts)
        (after_abandoning query (state_of parts)) }
{
    a_distributor_follows_the_core();
    a_scan_stops_what_the_core_stops();
    every_step_keeps_a_core_sound();
}
