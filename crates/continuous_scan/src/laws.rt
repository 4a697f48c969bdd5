//! What holds of all scans, whatever calls made them.
ghost use Rattle.std.specs.Prelude.{◌≡◌, ◌↔◌, ℕ, ◌≤◌, ◌<◌, List, [], ◌++◌, length, Some, None, Option, slice_get, slice_index_or, is_some, IsTrue, ◌∷◌};
ghost use Rattle.std.specs.List.{range_with_len};
ghost use Rattle.std.specs.List.Sorted.{IsPermutation};
ghost use Rattle.bit_words.specs.Sets.{Has};
ghost use Rattle.star_plan.specs.declared.star_query.StarQuery.{StarQuery};
ghost use Rattle.fact_versions.specs.declared.version.Version.{Version};
ghost use Rattle.continuous_scan.specs.Scanning.{Running, Scanning};
ghost use Rattle.continuous_scan.specs.Lap.{lap, still_to_come};
ghost use Rattle.continuous_scan.specs.Range.{new_scan, some_run, IsNearest, covered, first_in, end_in, after_cut, cut_positions};
ghost use Rattle.continuous_scan.specs.Calls.{AreInStep, CanCut, Call, CanCallAll, Followed, followed, below};
ghost use Rattle.continuous_scan.specs.Stamped.{CanTestAll, batch_over, versions_from, roster_of, bits_of, takes_version};
ghost use Rattle.continuous_scan.specs.Blanks.{CanAskAll, asked_by};
ghost use Rattle.continuous_scan.specs.Examples.{range_of, one_over, second_of_three, third_of_three};

use bit_words::numbers_go_in_and_out;

/// Whatever calls are made of a new scan: what was cut of the extent of a running query since it
/// started, and then what is left of its lap, is its whole lap. At the cut that
/// ends it, what was cut is.
pub fn each_position_is_cut_once()
    ensures running { (slots slot : ℕ) (calls : List Call) (query : Running) →
        CanCallAll (new_scan slots) calls →
        let now = followed slot (record { scan = new_scan slots; positions = [] }) calls in
        slice_get now.scan.running slot ≡ Some (Some query) →
        below query.extent now.positions ++ still_to_come query.left (lap query.start query.extent)
        ≡ lap query.start query.extent }
    ensures last { (slots slot : ℕ) (calls : List Call) (query : Running) (length size : ℕ) →
        CanCallAll (new_scan slots) calls →
        let now = followed slot (record { scan = new_scan slots; positions = [] }) calls in
        slice_get now.scan.running slot ≡ Some (Some query) →
        CanCut length size now.scan →
        slice_get (after_cut length size now.scan).running slot ≡ Some None →
        below query.extent (now.positions ++ cut_positions length size now.scan)
        ≡ lap query.start query.extent }
{}

/// A cut ends behind its first position, at the nearest of its bounds: its size, the end of the
/// table, and the starts of running queries above its first position.
pub fn a_cut_ends_at_its_nearest_bound()
    ensures { (scan : Scanning) (length size : ℕ) →
        AreInStep scan → CanCut length size scan → IsTrue (some_run scan.running) →
        IsNearest (first_in length scan) length size scan.running (end_in length size scan) }
{}

/// A lap has each position below its extent once.
pub fn a_lap_has_each_position_once()
    ensures { (start extent : ℕ) → IsPermutation (lap start extent) (range_with_len 0 extent) }
{}

/// A cut takes no more of a query's extent than is left of it.
pub fn a_cut_takes_no_more_than_is_left()
    ensures { (scan : Scanning) (length size slot : ℕ) (query : Running) →
        AreInStep scan → CanCut length size scan → slice_get scan.running slot ≡ Some (Some query) →
        covered (first_in length scan) (end_in length size scan) query.extent ≤ query.left }
{}

/// A slot is in the roster where a query runs in it, and among the bits of a version where that
/// query takes the version.
pub fn bits_are_those_of_slots()
    ensures roster { (running : List (Option Running)) (slot : ℕ) →
        Has (roster_of running) slot ↔ IsTrue (is_some (slice_index_or running slot None)) }
    ensures bits { (running : List (Option Running)) (version : Version) (slot : ℕ) →
        Has (bits_of running version) slot
        ↔ IsTrue (takes_version version (slice_index_or running slot None)) }
{
    numbers_go_in_and_out();
}

/// The rows of a batch hang on what is asked for each slot, and on nothing else of the queries that
/// run, and of the table on the versions at their positions. What may be tested may be asked.
pub fn rows_go_by_what_is_asked()
    ensures rows { (first end number room : ℕ) (running other : List (Option Running))
        (versions : List Version) → asked_by running ≡ asked_by other →
        batch_over first end number room running versions
        ≡ batch_over first end number room other versions }
    ensures later { (first end number room : ℕ) (running : List (Option Running))
        (versions later : List Version) →
        versions_from first end versions ≡ versions_from first end later →
        batch_over first end number room running versions
        ≡ batch_over first end number room running later }
    ensures tests { (running : List (Option Running)) (version : Version) →
        CanTestAll running version → CanAskAll (asked_by running) version }
{}

/// Cuts over tables of 1,000, 5 and 3 rows, of a query that runs alone.
pub fn one_query_is_cut_up_to_the_end_of_the_rows()
    ensures whole { (query : StarQuery) → range_of 1000 1024 (one_over query 1000) ≡ (0, 1000) }
    ensures first_of_two { (query : StarQuery) → range_of 5 4 (one_over query 5) ≡ (0, 4) }
    ensures second_of_two { (query : StarQuery) →
        range_of 5 4 (after_cut 5 4 (one_over query 5)) ≡ (4, 5) }
    ensures three { (query : StarQuery) →
        range_of 3 1 (after_cut 3 1 (after_cut 3 1 (one_over query 3))) ≡ (2, 3) }
{}

/// A cut of three queries over five rows ends where one of them started. Each gets all five.
pub fn three_queries_are_cut_where_each_started()
    ensures before_second { (query : StarQuery) → range_of 5 4 (second_of_three query) ≡ (3, 5) }
    ensures to_second { (query : StarQuery) → range_of 5 4 (third_of_three query) ≡ (0, 3) }
    ensures to_end { (query : StarQuery) →
        range_of 5 4 (after_cut 5 4 (third_of_three query)) ≡ (3, 5) }
    ensures ends { (query : StarQuery) →
        (after_cut 5 4 (after_cut 5 4 (third_of_three query))).running ≡ (None ∷ None ∷ None ∷ []) }
{}
