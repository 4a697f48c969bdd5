//! Queries that share a scan, event by event, computed from the definitions.
ghost use Rattle.std.specs.Prelude.{◌≡◌, [], ◌∷◌, Some, true, map};
ghost use Rattle.pipeline_manager.specs.Lives.{life_of};
ghost use Rattle.pipeline_manager.specs.declared.life.Life.TheVariants.{Running, Ending, Answered};
ghost use Rattle.pipeline_manager.specs.declared.life.SlotState.TheVariants.{Free, Clearing};
ghost use Rattle.aggregations.specs.Grouped.{Rows};
ghost use Rattle.core_state.specs.Found.{is_on_roster};
ghost use Rattle.core_state.specs.Story.{first_cut, second_started, second_cut, second_passed, third_cut, third_passed, both_answered, flying, kept_for};
ghost use Rattle.core_state.specs.Story.{after_events, first_carried, second_carried, third_carried, both_carried, in_hands};
ghost use Rattle.core_state.specs.Story.{order_cut, order_carried, order_turned, order_answered, order_again};
ghost use Rattle.core_state.specs.declared.event.Event.TheVariants.{Give, Take};

/// A query that counts all four sales and one that counts those in Oslo, which starts when
/// two are cut, share three batches of two: each sees its lap. At the end every frame is free.
pub fn two_queries_share_a_scan()
    ensures first_cut { flying first_cut ≡ (0, 2, 1, 1 ∷ 1 ∷ []) ∷ [] }
    ensures second_started { life_of second_started.lives 6 ≡ Some (Running 2 4) }
    ensures second_cut { flying second_cut ≡ (2, 2, 3, 3 ∷ 3 ∷ []) ∷ [] }
    ensures third_cut { flying third_cut ≡ (0, 2, 2, 2 ∷ 2 ∷ []) ∷ [] }
    ensures frames { both_answered.scan.free ≡ 10 }
{}

/// The filter leaves a sale in Rome to the first query alone, and drops one that the second alone
/// sees: it was asked for four rows.
pub fn a_filter_clears_the_bits_of_one_query()
    ensures second_passed { flying second_passed ≡ (2, 2, 3, 3 ∷ 1 ∷ []) ∷ [] }
    ensures third_passed { flying third_passed ≡ (0, 2, 2, 2 ∷ 0 ∷ []) ∷ [] }
    ensures tallies { both_answered.filters.tallies ≡ record { probes = 4; drops = 1 } ∷ [] }
{}

/// The first query ends while its last batch is in flight, and is answered behind that; its slot is
/// cleared while a batch of the second is in a hand. Both counts are right.
pub fn each_query_is_answered_behind_its_last_batch()
    ensures first_ends { life_of second_cut.lives 5 ≡ Some Ending }
    ensures first_waits { map (is_on_roster 0) second_passed.scan.flights ≡ true ∷ [] }
    ensures first_counts { kept_for third_cut 5 ≡ (Rows 4 ∷ []) ∷ [] }
    ensures second_counts { kept_for both_answered 6 ≡ (Rows 2 ∷ []) ∷ [] }
    ensures answered { life_of both_answered.lives 6 ≡ Some Answered }
    ensures slots { both_answered.lives.slots ≡ Free ∷ Clearing 1 ∷ [] }
{}

/// The same two queries by batches that are carried: seat 0 carries the first while the second
/// query is built and starts, seat 1 the second, and seat 0 the third while the first slot is
/// cleared.
pub fn batches_are_carried()
    ensures first_flight { flying first_carried ≡ (0, 2, 1, 1 ∷ 1 ∷ []) ∷ [] }
    ensures second_flight { flying second_carried ≡ (2, 2, 3, 3 ∷ 3 ∷ []) ∷ [] }
    ensures third_flight { flying third_carried ≡ (0, 2, 2, 2 ∷ 2 ∷ []) ∷ [] }
{}

/// The versions in a hand are those of its Carry, also where a filter has another one meanwhile.
pub fn a_hand_keeps_the_versions_of_its_carry()
    ensures first_hand { in_hands first_carried ≡ (2 ∷ []) ∷ [] }
    ensures second_hand { in_hands second_carried ≡ (3 ∷ []) ∷ [] }
    ensures third_hand { in_hands third_carried ≡ (3 ∷ []) ∷ [] }
    ensures third_clears { map (λ version. version.number) third_carried.filters.versions ≡ 4 ∷ [] }
{}

/// Batches that are carried are counted as those that are taken: at the end the core is to the last
/// number that of batches that were taken.
pub fn carried_batches_count_as_taken_ones()
    ensures first_counts { kept_for third_carried 5 ≡ (Rows 4 ∷ []) ∷ [] }
    ensures second_counts { kept_for both_carried 6 ≡ (Rows 2 ∷ []) ∷ [] }
    ensures tallies { both_carried.filters.tallies ≡ record { probes = 4; drops = 1 } ∷ [] }
    ensures same { both_carried ≡ both_answered }
{}

/// A batch that is carried through two filters meets them in the order of its Carry, and the
/// second is asked of the rows that the first left. With no new order between this is what one
/// Take and one Give after the other make of it.
pub fn two_filters_are_carried()
    ensures hand { in_hands order_carried ≡ (3 ∷ 4 ∷ []) ∷ [] }
    ensures taken { after_events (Give 1 ∷ []) order_carried
        ≡ after_events (Take 1 1 ∷ Give 1 ∷ Take 1 1 ∷ Give 1 ∷ []) order_cut }
    ensures first_counts { kept_for order_turned 7 ≡ (Rows 1 ∷ []) ∷ [] }
    ensures tallies { order_turned.filters.tallies
        ≡ record { probes = 2; drops = 0 } ∷ record { probes = 2; drops = 1 } ∷ [] }
{}

/// A batch keeps the order of its Carry where a new one comes while it is out, and one that is
/// carried behind that has the new order.
pub fn a_carried_batch_keeps_its_order()
    ensures turned { order_turned.filters.order ≡ 1 ∷ 0 ∷ [] }
    ensures flight { flying order_turned ≡ (2, 2, 1, 1 ∷ 1 ∷ []) ∷ [] }
    ensures counts { kept_for order_answered 7 ≡ (Rows 2 ∷ []) ∷ [] }
    ensures all_tallies { order_answered.filters.tallies
        ≡ record { probes = 4; drops = 1 } ∷ record { probes = 3; drops = 1 } ∷ [] }
    ensures again { in_hands order_again ≡ (6 ∷ 5 ∷ []) ∷ [] }
    ensures again_tallies { (after_events (Give 1 ∷ []) order_again).filters.tallies
        ≡ record { probes = 5; drops = 1 } ∷ record { probes = 5; drops = 2 } ∷ [] }
{}
