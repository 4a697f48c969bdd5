//! What becomes of the parts of a core is what becomes of its state: a batch that is distributed.
ghost use Rattle.std.specs.Prelude.{◌≡◌, ◌==◌, ℕ, ◌+◌, ◌<◌, ◌≤◌, List, length, position, slice_get, All, Some};
ghost use Rattle.star_values.specs.Roomy.{Roomy};
ghost use Rattle.dimension_rows.specs.declared.dimension_row.DimensionRow.{DimensionRow};
ghost use Rattle.query_meaning.specs.KeptTables.{rows_of_all};
ghost use Rattle.pipeline_manager.specs.Conditions.{CanSpoil};
ghost use Rattle.distributor.specs.Slots.{AreAttached, HaveRoom, HaveRows};
ghost use Rattle.core_state.specs.Cutting.{after_distribute};
ghost use Rattle.core_state.specs.Events.{AreFed, MayDistribute};
ghost use Rattle.core_state.specs.Handed.{fed_in};
ghost use Rattle.core_parts.specs.Lent.{Flight};
ghost use Rattle.event_core.specs.Changes.{distributed};
ghost use Rattle.event_core.specs.Core.{Becomes, IsCore, holders_in};
ghost use Rattle.event_core.specs.CoreParts.{CoreParts};
ghost use Rattle.event_core.specs.Seen.{state_of};

use core_state::{
    a_distributed_batch_keeps_a_core_sound, a_distributor_folds_what_the_core_folds,
    a_scan_stops_what_the_core_stops, folded_rows_are_few, spoiled_slots_are_spoiled_queries,
};

/// A batch in flight is of the versions of the fact table, and there is room for its rows in the
/// groups, and for its frame in the pool.
pub(crate) fn batches_in_flight_have_room()
    ensures within { (parts : CoreParts) (place : ℕ) (flight : Flight) → IsCore parts →
        slice_get parts.flights place ≡ Some flight →
        flight.batch.first + flight.batch.count ≤ length parts.tables.versions }
    ensures room { (parts : CoreParts) (place : ℕ) (flight : Flight) → IsCore parts →
        slice_get parts.flights place ≡ Some flight →
        All (HaveRoom flight.batch.count) parts.attached }
    ensures frame { (parts : CoreParts) (place : ℕ) (flight : Flight) → IsCore parts →
        slice_get parts.flights place ≡ Some flight →
        (length parts.pool.inside < parts.pool.made) × (flight.batch.room ≡ parts.pool.words) }
{
    folded_rows_are_few();
}

/// Slots that find no memory for the rows of a batch are held by queries that get rows of it and
/// may be spoiled, and these are spoiled as it is distributed.
pub(crate) fn distributions_follow_the_core()
    ensures holders { (parts : CoreParts) (slots : ℕ) → IsCore parts →
        AreAttached slots parts.attached →
        holders_in parts.lives slots ≡ fed_in (state_of parts) slots }
    ensures begun { (parts : CoreParts) (slots : ℕ) → IsCore parts →
        AreAttached slots parts.attached →
        All (λ query. CanSpoil query parts.lives) (holders_in parts.lives slots) }
    ensures fed { (parts : CoreParts) (batch place slots : ℕ) (flight : Flight) → IsCore parts →
        position (λ flight. flight.batch.number == batch) parts.flights ≡ Some place →
        slice_get parts.flights place ≡ Some flight → HaveRows slots flight.batch.bits →
        AreFed batch (fed_in (state_of parts) slots) (state_of parts) }
    ensures done { (parts : CoreParts) (batch place slots : ℕ) (flight : Flight)
        (dims : List (Roomy DimensionRow)) (frame : List ℕ) → IsCore parts →
        MayDistribute batch (state_of parts) →
        position (λ flight. flight.batch.number == batch) parts.flights ≡ Some place →
        slice_get parts.flights place ≡ Some flight → rows_of_all dims ≡ parts.tables.dimensions →
        AreAttached slots parts.attached → HaveRows slots flight.batch.bits →
        length frame ≡ parts.pool.words →
        Becomes (distributed place flight dims slots (fed_in (state_of parts) slots) frame parts)
        (after_distribute batch (fed_in (state_of parts) slots) (state_of parts)) }
{
    a_distributor_folds_what_the_core_folds();
    spoiled_slots_are_spoiled_queries();
    a_scan_stops_what_the_core_stops();
    a_distributed_batch_keeps_a_core_sound();
}
