//! What becomes of the parts of a core is what becomes of its state: batches.
ghost use Rattle.std.specs.Prelude.{◌≡◌, ◌≢◌, false, ◌==◌, ℕ, All, AllPairs, List, ◌∷◌, [], ◌++◌, length, map, position, slice_get, Some};
ghost use Rattle.std.specs.Option.{option_map_or};
ghost use Rattle.bit_words.specs.Sets.{Has};
ghost use Rattle.core_state.specs.Cutting.{after_carry, after_cutting, after_give, after_take};
ghost use Rattle.core_state.specs.Events.{MayCarry, MayCut, MayTake};
ghost use Rattle.core_state.specs.Numbered.{next_number};
ghost use Rattle.core_state.specs.State as state;
ghost use Rattle.core_parts.specs.Lent.{Flight};
ghost use Rattle.event_core.specs.Changes.{cut_into, given, taken};
ghost use Rattle.event_core.specs.Core.{AreHolders, Becomes, CanCutNext, IsCore};
ghost use Rattle.filter_order.specs.Filters.{next_of, versions_left};
ghost use Rattle.event_core.specs.CoreParts.{CoreParts};
ghost use Rattle.event_core.specs.Seen.{state_of};

use crate::laws_of_core::quiet_events_leave_a_core;
use continuous_scan::{
    a_cut_ends_at_its_nearest_bound, a_cut_takes_no_more_than_is_left, bits_are_those_of_slots,
};
use core_state::{
    a_cut_keeps_a_core_sound, a_scan_cuts_what_the_core_cuts, a_scan_may_cut_where_the_core_may,
    other_events_leave_a_distributor,
};

/// Where the core may cut, the scan and the manager may, and a frame is free; the batch
/// that is cut has its number.
pub(crate) fn cuts_follow_the_core()
    ensures may { (parts : CoreParts) → IsCore parts → MayCut (state_of parts) → CanCutNext parts }
    ensures done { (parts : CoreParts) (holders frame : List ℕ) (inside : List (List ℕ)) →
        IsCore parts → MayCut (state_of parts) → parts.pool.inside ≡ inside ++ frame ∷ [] →
        length frame ≡ parts.pool.words → AreHolders parts.lives holders →
        Becomes (cut_into holders frame inside
        (next_number parts.numbers.batch (map (λ flight. flight.batch.number) parts.flights)) parts)
        (after_cutting (state_of parts)) }
{
    a_scan_may_cut_where_the_core_may();
    a_scan_cuts_what_the_core_cuts();
    a_cut_ends_at_its_nearest_bound();
    a_cut_takes_no_more_than_is_left();
    bits_are_those_of_slots();
    a_cut_keeps_a_core_sound();
    other_events_leave_a_distributor();
}

/// A batch that is taken or carried gets a hand, and one that is given back has passed the versions
/// in it, which are of different filters, none of which it had passed.
pub(crate) fn hands_follow_the_core()
    ensures taken { (parts : CoreParts) (worker batch place : ℕ) (flight : Flight)
        (version : state.FilterVersion) →
        IsCore parts → MayTake worker batch (state_of parts) →
        position (λ flight. flight.batch.number == batch) parts.flights ≡ Some place →
        slice_get parts.flights place ≡ Some flight →
        next_of parts.filters flight.batch ≡ Some version →
        Becomes (taken place worker flight (version ∷ []) parts)
        (after_take worker batch (state_of parts)) }
    ensures carried { (parts : CoreParts) (worker batch place : ℕ) (flight : Flight) →
        IsCore parts →
        MayCarry worker batch (state_of parts) →
        position (λ flight. flight.batch.number == batch) parts.flights ≡ Some place →
        slice_get parts.flights place ≡ Some flight →
        Becomes (taken place worker flight (versions_left parts.filters flight.batch) parts)
        (after_carry worker batch (state_of parts)) }
    ensures may { (parts : CoreParts) (place : ℕ) (flight : Flight) (hand : state.Hand) →
        IsCore parts →
        slice_get parts.flights place ≡ Some flight → flight.hand ≡ Some hand →
        All (λ version. ¬ (Has flight.batch.passed version.filter.dimension)) hand.versions }
    ensures apart { (parts : CoreParts) (place : ℕ) (flight : Flight) (hand : state.Hand) →
        IsCore parts → slice_get parts.flights place ≡ Some flight → flight.hand ≡ Some hand →
        AllPairs (λ version other. version.filter.dimension ≢ other.filter.dimension)
        hand.versions }
    ensures given { (parts : CoreParts) (worker place : ℕ) (flight : Flight) (hand : state.Hand) →
        IsCore parts →
        position (λ flight. option_map_or (λ hand. hand.worker == worker) flight.hand false)
        parts.flights
        ≡ Some place → slice_get parts.flights place ≡ Some flight → flight.hand ≡ Some hand →
        Becomes (given place flight hand parts) (after_give worker (state_of parts)) }
{
    quiet_events_leave_a_core();
}
