//! The parts of the code say what the core says: the scan.
ghost use Rattle.std.specs.Prelude.{◌≡◌, ◌≢◌, ℕ, ◌+◌, ◌*◌, ◌<◌, ◌≤◌, List, length, map, fold, All, IsTrue, Some, None, IsSome};
ghost use Rattle.star_plan.specs.declared.star_query.StarQuery.{StarQuery};
ghost use Rattle.star_plan.specs.Test.{query_of};
ghost use Rattle.query_meaning.specs.Keyed.{KeyedStore};
ghost use Rattle.batch_flow.specs.declared.batch.TheConstants.{KEYS_IN_A_ROW};
ghost use Rattle.pipeline_manager.specs.Changes.{after_abandon, after_spoil};
ghost use Rattle.pipeline_manager.specs.Conditions.{CanAbandon, CanBuild, CanRun};
ghost use Rattle.pipeline_manager.specs.Lives.{extent_in, slot_of};
ghost use Rattle.continuous_scan.specs.Calls.{AreInStep, CanCut, CanStart};
ghost use Rattle.continuous_scan.specs.Range as scanned;
ghost use Rattle.continuous_scan.specs.Range.{new_scan, some_run};
ghost use Rattle.continuous_scan.specs.Scanning.{Scanning};
ghost use Rattle.continuous_scan.specs.Stamped.{CanTestAll, batch_of};
ghost use Rattle.core_state.specs.Admitting.{after_build_wants, after_start};
ghost use Rattle.core_state.specs.Cutting.{after_cutting, after_distribute, end_in, first_in, frame_words, rows_to_cut};
ghost use Rattle.core_state.specs.Events.{IsEnabled, MayCut, after_event};
ghost use Rattle.core_state.specs.Found.{accepted_at, flight_at};
ghost use Rattle.core_state.specs.Numbered.{next_number};
ghost use Rattle.core_state.specs.Scanned.{AreTablesOf, IsScannedAs, LeavesScan, stopped_for};
ghost use Rattle.core_state.specs.Sound.{IsSound, empty_core};
ghost use Rattle.core_state.specs.State.{Accepted, State};
ghost use Rattle.core_state.specs.Submitting.{after_abandoning, after_taking};
ghost use Rattle.core_state.specs.declared.event.Event.{Event};
ghost use Rattle.core_state.specs.declared.settings.RunSettings.{RunSettings};

use query_meaning::{accepted_histories_are_settled, key_numbers_are_found_by_keys};
use star_plan::rows_fit_by_their_kinds;

/// A scan that has what runs in the core, and tables with key numbers that are the core's: the scan
/// may cut wherever the core may. Its queries may be asked of every version, a batch has room in a
/// frame, and some query runs.
pub fn a_scan_may_cut_where_the_core_may()
    ensures may { (state : State) (scan : Scanning) (keyed : KeyedStore) → IsSound state →
        IsScannedAs state scan →
        AreTablesOf state keyed →
        AreInStep scan × CanCut (length keyed.versions) state.settings.batch scan }
    ensures tests { (state : State) (scan : Scanning) (keyed : KeyedStore) → IsSound state →
        IsScannedAs state scan →
        AreTablesOf state keyed → All (CanTestAll scan.running) keyed.versions }
    ensures room { (state : State) →
        state.settings.batch * (1 + KEYS_IN_A_ROW) ≤ frame_words state }
    ensures runs { (state : State) (scan : Scanning) → MayCut state → IsSound state →
        IsScannedAs state scan →
        IsTrue (some_run scan.running) }
{
    accepted_histories_are_settled();
    rows_fit_by_their_kinds();
}

/// Such a scan cuts the positions and the batch that the core cuts, and has what runs in the core
/// behind that cut.
pub fn a_scan_cuts_what_the_core_cuts()
    ensures range { (state : State) (scan : Scanning) (keyed : KeyedStore) → IsSound state →
        IsScannedAs state scan → AreTablesOf state keyed →
        (scanned.first_in (length keyed.versions) scan ≡ first_in state)
        × (scanned.end_in (length keyed.versions) state.settings.batch scan ≡ end_in state) }
    ensures batch { (state : State) (scan : Scanning) (keyed : KeyedStore) → IsSound state →
        IsScannedAs state scan → AreTablesOf state keyed →
        let number = next_number state.numbers.batch
        (map (λ flight. flight.rows.number) state.scan.flights) in
        batch_of state.settings.batch number (frame_words state) scan keyed.versions
        ≡ rows_to_cut state }
    ensures after { (state : State) (scan : Scanning) (keyed : KeyedStore) → MayCut state →
        IsSound state → IsScannedAs state scan → AreTablesOf state keyed →
        IsScannedAs (after_cutting state)
        (scanned.after_cut (length keyed.versions) state.settings.batch scan) }
{
    key_numbers_are_found_by_keys();
}

/// A query that starts in the core may start in the slot that it holds, and the scan has it as the
/// core has it; one that has no position to come leaves the scan as it is.
pub fn a_scan_starts_what_the_core_starts()
    ensures may { (state : State) (scan : Scanning) (keyed : KeyedStore) (query slot : ℕ)
        (accepted : Accepted) → IsSound state → CanRun query state.lives → IsScannedAs state scan →
        AreTablesOf state keyed → slot_of state.lives query ≡ Some slot →
        accepted_at state.accepted query ≡ Some accepted → extent_in state.lives.queries query ≢ 0 →
        CanStart slot (extent_in state.lives.queries query) (length keyed.versions) scan }
    ensures some { (state : State) (scan : Scanning) (keyed : KeyedStore) (query slot : ℕ)
        (accepted : Accepted) (asked : StarQuery) → IsSound state → CanRun query state.lives →
        IsScannedAs state scan → AreTablesOf state keyed → slot_of state.lives query ≡ Some slot →
        accepted_at state.accepted query ≡ Some accepted → query_of asked ≡ accepted.query →
        extent_in state.lives.queries query ≢ 0 →
        IsScannedAs (after_start query state)
        (scanned.after_start slot asked accepted.snapshot
        (extent_in state.lives.queries query) (length keyed.versions) scan) }
    ensures none { (state : State) (scan : Scanning) (query slot : ℕ) →
        IsSound state → CanRun query state.lives → IsScannedAs state scan →
        slot_of state.lives query ≡ Some slot → extent_in state.lives.queries query ≡ 0 →
        IsScannedAs (after_start query state) scan }
{}

/// Where a query that holds a slot has no answer any more, the scan that stops what runs in the
/// slot has what runs in the core; where it holds none, the scan has it as it is.
pub fn a_scan_stops_what_the_core_stops()
    ensures may { (state : State) (scan : Scanning) (query slot : ℕ) → IsScannedAs state scan →
        slot_of state.lives query ≡ Some slot → slot < length scan.running }
    ensures spoiled { (state : State) (scan : Scanning) (query slot : ℕ) → IsSound state →
        IsScannedAs state scan → slot_of state.lives query ≡ Some slot →
        IsScannedAs (record state { lives = after_spoil query state.lives })
        (scanned.after_stop slot scan) }
    ensures abandoned { (state : State) (scan : Scanning) (query slot : ℕ) → IsSound state →
        IsScannedAs state scan → slot_of state.lives query ≡ Some slot →
        IsScannedAs (record state { lives = after_abandon query state.lives })
        (scanned.after_stop slot scan) }
    ensures unheld { (state : State) (scan : Scanning) (query : ℕ) → IsSound state →
        IsScannedAs state scan → slot_of state.lives query ≡ None →
        IsScannedAs (record state { lives = after_spoil query state.lives }) scan
        × IsScannedAs (record state { lives = after_abandon query state.lives }) scan }
    ensures abandoning { (state : State) (scan : Scanning) (query : ℕ) → IsSound state →
        CanAbandon query state.lives →
        IsScannedAs state scan →
        IsScannedAs (after_abandoning query state) (stopped_for state.lives query scan) }
    ensures distributing { (state : State) (scan : Scanning) (batch : ℕ) (spoiled : List ℕ) →
        IsSound state → IsSome (flight_at state.scan.flights batch) → IsScannedAs state scan →
        IsScannedAs (after_distribute batch spoiled state)
        (fold (λ now query. stopped_for state.lives query now) scan spoiled) }
{}

/// Every other event leaves a scan that has what runs in the core as one that has it, also where
/// memory is wanted, and so does a reply that is taken.
pub fn other_events_leave_a_scan()
    ensures event { (state : State) (scan : Scanning) (event : Event) → IsSound state →
        IsEnabled state event →
        LeavesScan event → IsScannedAs state scan → IsScannedAs (after_event event state) scan }
    ensures wants { (state : State) (scan : Scanning) (query dimension : ℕ) →
        CanBuild query dimension state.lives →
        IsScannedAs state scan → IsScannedAs (after_build_wants query state) scan }
    ensures taken { (state : State) (scan : Scanning) (seat : ℕ) → IsScannedAs state scan →
        IsScannedAs (after_taking seat state) scan }
{}

/// A new scan has what runs in an empty core: nothing.
pub fn a_new_scan_is_that_of_an_empty_core()
    ensures { (settings : RunSettings) →
        IsScannedAs (empty_core settings) (new_scan settings.slots) }
{}
