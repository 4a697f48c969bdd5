//! What a distributor makes of a batch is what the core makes of it.
ghost use Rattle.std.specs.Prelude.{◌≡◌, ℕ, ◌+◌, ◌≤◌, List, [], length, Option, Some, All, Contains};
ghost use Rattle.star_values.specs.Roomy.{Roomy};
ghost use Rattle.star_plan.specs.Joined.{Joined};
ghost use Rattle.dimension_rows.specs.declared.dimension_row.DimensionRow.{DimensionRow};
ghost use Rattle.query_meaning.specs.Keyed.{KeyedStore};
ghost use Rattle.aggregations.specs.Grouped.{Grouped, grouped_of};
ghost use Rattle.distributor.specs.Folded.{after_batch, with_batch};
ghost use Rattle.distributor.specs.Slots.{HaveRoom, HaveRows};
ghost use Rattle.core_state.specs.Cutting.{after_distribute, rows_for, with_rows};
ghost use Rattle.core_state.specs.Events.{AreFed};
ghost use Rattle.core_state.specs.Found.{flight_at};
ghost use Rattle.core_state.specs.Handed.{HasWhatIsKept, AreKeyedTablesOf, attached_to, fed_in};
ghost use Rattle.core_state.specs.Sound.{IsSound};
ghost use Rattle.core_state.specs.State.{Accepted, Flight, OnRoster, State};
ghost use Rattle.core_state.specs.Tables.{tables_of};

use aggregations::{one_row_more_is_folded, values_by_key_fold_the_same};
use query_meaning::accepted_histories_are_settled;

/// The rows of a batch that go into the groups of a query on its roster, read by key numbers, are
/// those that the core folds, joined by keys.
pub fn a_distributor_folds_what_the_core_folds()
    ensures { (state : State) (tables : KeyedStore) (dims : List (Roomy DimensionRow))
        (flight : Flight) (entry : OnRoster) (rows : List Joined) → IsSound state →
        AreKeyedTablesOf state tables dims → Contains state.scan.flights flight →
        Contains flight.roster entry →
        with_batch dims flight.rows tables.versions entry.slot (grouped_of entry.query rows)
        ≡ with_rows (rows_for (tables_of state) flight.rows entry) (grouped_of entry.query rows) }
{
    one_row_more_is_folded();
    values_by_key_fold_the_same();
}

/// What a distributor has after a batch, where some slots found no memory, is what the core
/// keeps after it, where the queries of these slots found none; so too where it has more than
/// the core keeps. Each of these queries gets rows of the batch, and where no slot was
/// without memory there is none.
pub fn spoiled_slots_are_spoiled_queries()
    ensures groups { (state : State) (tables : KeyedStore) (dims : List (Roomy DimensionRow))
        (batch : ℕ) (flight : Flight) (spoiled : ℕ) → IsSound state →
        AreKeyedTablesOf state tables dims → flight_at state.scan.flights batch ≡ Some flight →
        after_batch dims flight.rows tables.versions spoiled (attached_to state)
        ≡ attached_to (after_distribute batch (fed_in state spoiled) state) }
    ensures others { (state : State) (tables : KeyedStore) (dims : List (Roomy DimensionRow))
        (batch : ℕ) (flight : Flight) (spoiled : ℕ)
        (attached : List (Option Grouped)) →
        IsSound state → AreKeyedTablesOf state tables dims →
        flight_at state.scan.flights batch ≡ Some flight → HasWhatIsKept state attached →
        HasWhatIsKept (after_distribute batch (fed_in state spoiled) state)
        (after_batch dims flight.rows tables.versions spoiled attached) }
    ensures fed { (state : State) (batch : ℕ) (flight : Flight) (spoiled : ℕ) →
        IsSound state → flight_at state.scan.flights batch ≡ Some flight →
        HaveRows spoiled flight.rows.bits →
        AreFed batch (fed_in state spoiled) state }
    ensures none { (state : State) → fed_in state 0 ≡ [] }
{
    a_distributor_folds_what_the_core_folds();
}

/// What is kept of a query has room for the rows of each batch in flight, whose
/// positions are in the table.
pub fn folded_rows_are_few()
    ensures within { (state : State) (tables : KeyedStore) (dims : List (Roomy DimensionRow))
        (flight : Flight) →
        IsSound state → AreKeyedTablesOf state tables dims → Contains state.scan.flights flight →
        flight.rows.first + flight.rows.count ≤ length tables.versions }
    ensures kept { (state : State) (flight : Flight) (accepted : Accepted) → IsSound state →
        Contains state.scan.flights flight → Contains state.accepted accepted →
        HaveRoom flight.rows.count accepted.groups }
    ensures attached { (state : State) (flight : Flight) → IsSound state →
        Contains state.scan.flights flight →
        All (HaveRoom flight.rows.count) (attached_to state) }
{
    accepted_histories_are_settled();
}
