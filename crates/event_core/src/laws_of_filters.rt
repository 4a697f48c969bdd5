//! What becomes of the parts of a core is what becomes of its state: filters.
ghost use Rattle.std.specs.Prelude.{◌≡◌, ◌<◌, ℕ, Some, None, IsSome};
ghost use Rattle.star_plan.specs.Test.{query_of};
ghost use Rattle.bit_words.specs.declared.slots.TheConstants.{MAX_SLOTS};
ghost use Rattle.query_meaning.specs.Store.{rows_in};
ghost use Rattle.pipeline_manager.specs.Conditions.{CanBuild, CanClear};
ghost use Rattle.pipeline_manager.specs.Lives.{slot_of};
ghost use Rattle.dimension_filter.specs.Changes.{CanAdd, filter_with, filter_without};
ghost use Rattle.core_state.specs.Admitting.{after_build, after_build_wants, after_clear, selection_in, versions_in_hands};
ghost use Rattle.core_state.specs.Cutting.{after_reorder};
ghost use Rattle.core_state.specs.Found.{version_at};
ghost use Rattle.core_state.specs.Numbered.{next_number};
ghost use Rattle.core_state.specs.State.{FilterVersion};
ghost use Rattle.core_state.specs.Tables.{tables_of};
ghost use Rattle.core_parts.specs.Asked.{AskedQuery, asked_at};
ghost use Rattle.event_core.specs.Changes.{built, cleared, reordered, unbuilt};
ghost use Rattle.event_core.specs.Core.{Becomes, IsCore};
ghost use Rattle.event_core.specs.CoreParts.{CoreParts};
ghost use Rattle.event_core.specs.Seen.{state_of};

use crate::laws_of_core::quiet_events_leave_a_core;
use core_state::{
    every_step_keeps_a_core_sound, other_events_leave_a_distributor, other_events_leave_a_scan,
};
use query_meaning::accepted_histories_are_settled;
use star_plan::rows_fit_by_their_kinds;

/// A query that is built holds a slot, and may be added in it to the filter; the next version has
/// it. Where no memory is found, nothing is kept of it.
pub(crate) fn builds_follow_the_core()
    ensures there { (parts : CoreParts) (query dimension : ℕ) → IsCore parts →
        CanBuild query dimension parts.lives →
        (dimension < 8) × IsSome (slot_of parts.lives query)
        × IsSome (version_at parts.filters.versions dimension)
        × IsSome (asked_at parts.asked query) }
    ensures may { (parts : CoreParts) (query dimension slot : ℕ) (asked : AskedQuery)
        (old : FilterVersion) →
        IsCore parts → CanBuild query dimension parts.lives →
        slot_of parts.lives query ≡ Some slot → asked_at parts.asked query ≡ Some asked →
        version_at parts.filters.versions dimension ≡ Some old →
        CanAdd slot (selection_in (query_of asked.query) dimension)
        (rows_in parts.tables.dimensions dimension) old.filter }
    ensures done { (parts : CoreParts) (query dimension slot : ℕ) (asked : AskedQuery)
        (old version : FilterVersion) → IsCore parts → CanBuild query dimension parts.lives →
        slot_of parts.lives query ≡ Some slot → asked_at parts.asked query ≡ Some asked →
        version_at parts.filters.versions dimension ≡ Some old →
        version.number
        ≡ next_number parts.numbers.version (versions_in_hands (state_of parts).scan.flights) →
        version.filter ≡ filter_with slot (selection_in (query_of asked.query) dimension)
        (rows_in parts.tables.dimensions dimension) old.filter →
        Becomes (built query dimension version parts)
        (after_build query dimension (state_of parts)) }
    ensures wants { (parts : CoreParts) (query dimension : ℕ) → IsCore parts →
        CanBuild query dimension parts.lives →
        Becomes (unbuilt query parts) (after_build_wants query (state_of parts)) }
{
    quiet_events_leave_a_core();
    other_events_leave_a_distributor();
    other_events_leave_a_scan();
    every_step_keeps_a_core_sound();
    accepted_histories_are_settled();
    rows_fit_by_their_kinds();
}

/// A filter that is cleared of a slot is there; the next version is without it.
pub(crate) fn clearings_follow_the_core()
    ensures there { (parts : CoreParts) (slot dimension : ℕ) → IsCore parts →
        CanClear slot dimension parts.lives →
        (slot < MAX_SLOTS) × (dimension < 8)
        × IsSome (version_at parts.filters.versions dimension) }
    ensures done { (parts : CoreParts) (slot dimension : ℕ) (old version : FilterVersion) →
        IsCore parts → CanClear slot dimension parts.lives →
        version_at parts.filters.versions dimension ≡ Some old →
        version.number
        ≡ next_number parts.numbers.version (versions_in_hands (state_of parts).scan.flights) →
        version.filter ≡ filter_without slot old.filter →
        Becomes (cleared slot dimension version parts)
        (after_clear slot dimension (state_of parts)) }
{
    quiet_events_leave_a_core();
}

/// Another order of the filters changes nothing else.
pub(crate) fn orders_follow_the_core()
    ensures { (parts : CoreParts) → IsCore parts → IsSome (tables_of (state_of parts)).schema.fact →
        Becomes (reordered parts) (after_reorder (state_of parts)) }
{
    quiet_events_leave_a_core();
}
