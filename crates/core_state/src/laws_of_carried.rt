//! What a worker makes of a batch that it carries is what each later core makes of it.
ghost use Rattle.std.specs.Prelude.{◌≡◌, ℕ, ◌++◌, List, length, Contains, IsTrue, Some};
ghost use Rattle.batch_flow.specs.Rows.{Rows};
ghost use Rattle.core_state.specs.Cutting.{after_carry, given_back, rows_for};
ghost use Rattle.core_state.specs.Events.{MayCarry};
ghost use Rattle.core_state.specs.Found.{has_passed_all, held_by};
ghost use Rattle.core_state.specs.Sound.{IsSound};
ghost use Rattle.core_state.specs.State.{Entry, Flight, OnRoster, State};
ghost use Rattle.core_state.specs.Tables.{tables_of};

/// A query on the roster of a batch in flight gets the same rows of its positions by the tables of
/// each later core, whatever bits are left of them and whatever was committed meanwhile.
pub fn a_later_core_folds_the_same_rows()
    ensures { (before after : State) (flight : Flight) (more : List Entry) (rows : Rows)
        (entry : OnRoster) → IsSound before → IsSound after →
        after.entries ≡ before.entries ++ more →
        Contains before.scan.flights flight → Contains flight.roster entry →
        rows.first ≡ flight.rows.first → length rows.bits ≡ flight.rows.count →
        rows_for (tables_of after) rows entry ≡ rows_for (tables_of before) rows entry }
{}

/// The batch in the hand of a worker that has just carried it passes every filter by its hand; and
/// one that does so by a core does so by each later core, whatever became of the filters and of
/// their order since.
pub fn a_carried_batch_passes_every_filter()
    ensures carried { (worker batch : ℕ) (state : State) (flight : Flight) →
        MayCarry worker batch state → IsSound state →
        held_by (after_carry worker batch state).scan.flights worker ≡ Some flight →
        IsTrue (has_passed_all state.filters (given_back flight)) }
    ensures later { (before after : State) (flight home : Flight) (more : List Entry) →
        IsSound before → IsSound after → after.entries ≡ before.entries ++ more →
        Contains before.scan.flights flight →
        home.rows.passed ≡ flight.rows.passed → home.hand ≡ flight.hand →
        IsTrue (has_passed_all before.filters (given_back flight)) →
        IsTrue (has_passed_all after.filters (given_back home)) }
{}
