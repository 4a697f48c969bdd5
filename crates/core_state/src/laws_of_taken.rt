//! Which queries a core has, by what its seats took and wait for.
ghost use Rattle.std.specs.Prelude.{◌≡◌, ◌≢◌, ℕ, [], map, Some};
ghost use Rattle.pipeline_manager.specs.Lives.{life_of};
ghost use Rattle.pipeline_manager.specs.declared.life.Life.TheVariants.{Abandoned};
ghost use Rattle.core_state.specs.Queries.{accepted_by, given_in, queries_among};
ghost use Rattle.core_state.specs.Sound.{IsSound};
ghost use Rattle.core_state.specs.State.{State};
ghost use Rattle.core_state.specs.Submitting.{seat_at};

/// Where one seat alone submitted, and no query was abandoned, the queries of the core are those
/// among what it took and waits for, in order.
pub fn a_seat_alone_has_the_queries_of_the_core()
    ensures { (state : State) (seat : ℕ) → IsSound state →
        ((other : ℕ) → other ≢ seat → (seat_at state other).submitted ≡ []) →
        ((query : ℕ) → life_of state.lives query ≢ Some Abandoned) →
        map accepted_by state.accepted ≡ queries_among (given_in (seat_at state seat)) }
{}
