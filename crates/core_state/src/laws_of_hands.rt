//! What a worker holds is as right as what the core has at present, and stays so.
ghost use Rattle.std.specs.Prelude.{◌≡◌, ◌++◌, List, length, map, Contains, Some};
ghost use Rattle.core_state.specs.Cutting.{frame_words, passed_through};
ghost use Rattle.core_state.specs.Flown.{IsSoundBatch, IsSoundHand};
ghost use Rattle.core_state.specs.Found.{version_at};
ghost use Rattle.core_state.specs.Hands.{StandsFor};
ghost use Rattle.core_state.specs.Sound.{IsSound};
ghost use Rattle.core_state.specs.State.{Entry, FilterVersion, Flight, Hand, State};
ghost use Rattle.core_state.specs.Tables.{tables_of};

use query_meaning::accepted_histories_are_settled;

/// A batch in a hand gets from its versions the bits that the present versions of these filters
/// give it, whatever became of the filters since the batch was taken.
pub fn versions_in_a_hand_pass_as_the_present_ones()
    ensures { (state : State) (flight : Flight) (hand : Hand) (presents : List FilterVersion) →
        IsSound state → Contains state.scan.flights flight → flight.hand ≡ Some hand →
        map (λ version. version_at state.filters.versions version.filter.dimension) hand.versions
        ≡ map Some presents →
        passed_through hand.versions flight.rows ≡ passed_through presents flight.rows }
{
    accepted_histories_are_settled();
}

/// What a worker took stays right: its batch and its versions are sound in each later core in which
/// a batch of its positions and its roster is in flight, whatever was committed meanwhile.
pub fn what_a_worker_took_stays_right()
    ensures { (before after : State) (flight home : Flight) (hand : Hand) (more : List Entry) →
        IsSound before → IsSound after → after.settings ≡ before.settings →
        after.entries ≡ before.entries ++ more → Contains before.scan.flights flight →
        flight.hand ≡ Some hand → Contains after.scan.flights home → StandsFor flight home →
        IsSoundBatch (frame_words after) (tables_of after) after.lives after.accepted flight
        × IsSoundHand (length after.seats) after.lives.filters (tables_of after) flight hand }
{
    accepted_histories_are_settled();
}
