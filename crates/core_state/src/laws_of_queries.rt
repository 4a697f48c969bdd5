//! What holds of every core still holds after a query loses its answer, and after a reply is taken.
ghost use Rattle.std.specs.Prelude.{ℕ, IsSome};
ghost use Rattle.pipeline_manager.specs.Conditions.{CanAbandon, CanSpoil};
ghost use Rattle.core_state.specs.Admitting.{after_build_wants};
ghost use Rattle.core_state.specs.Sound.{IsSound};
ghost use Rattle.core_state.specs.State.{State};
ghost use Rattle.core_state.specs.Submitting.{after_abandoning, after_taking, next_ready};

/// A query whose answer nobody wants keeps a core sound: no seat waits for it any more.
pub fn an_abandoned_query_keeps_a_core_sound()
    ensures { (query : ℕ) (state : State) → CanAbandon query state.lives → IsSound state →
        IsSound (after_abandoning query state) }
{}

/// A query that finds no memory keeps a core sound: nothing is kept of its rows,
/// and its seat still waits.
pub fn a_query_without_memory_keeps_a_core_sound()
    ensures { (query : ℕ) (state : State) → CanSpoil query state.lives → IsSound state →
        IsSound (after_build_wants query state) }
{}

/// A reply that a seat takes keeps a core sound: nothing is kept any more of the rows of its query.
pub fn a_taken_reply_keeps_a_core_sound()
    ensures { (seat : ℕ) (state : State) → IsSome (next_ready state seat) → IsSound state →
        IsSound (after_taking seat state) }
{}
