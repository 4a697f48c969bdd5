//! What holds of every core still holds after an event of a batch.
ghost use Rattle.std.specs.Prelude.{ℕ, List, IsSome};
ghost use Rattle.core_state.specs.Cutting.{after_carry, after_distribute, after_give, after_take};
ghost use Rattle.core_state.specs.Events.{AreFed, MayCarry, MayDistribute, MayTake};
ghost use Rattle.core_state.specs.Found.{held_by};
ghost use Rattle.core_state.specs.Sound.{IsSound};
ghost use Rattle.core_state.specs.State.{State};

use aggregations::one_row_more_is_folded;
use query_meaning::accepted_histories_are_settled;

/// A batch that a worker takes keeps a core sound.
pub fn a_taken_batch_keeps_a_core_sound()
    ensures { (worker batch : ℕ) (state : State) → MayTake worker batch state → IsSound state →
        IsSound (after_take worker batch state) }
{}

/// A batch that a worker carries through all filters that are left of it keeps a core sound.
pub fn a_carried_batch_keeps_a_core_sound()
    ensures { (worker batch : ℕ) (state : State) → MayCarry worker batch state → IsSound state →
        IsSound (after_carry worker batch state) }
{}

/// A batch that a worker gives back keeps a core sound: each bit that is left of it says what its
/// query keeps, as far as the batch has passed filters.
pub fn a_given_batch_keeps_a_core_sound()
    ensures { (worker : ℕ) (state : State) → IsSome (held_by state.scan.flights worker) →
        IsSound state →
        IsSound (after_give worker state) }
{
    accepted_histories_are_settled();
}

/// A batch that is distributed keeps a core sound, whichever of the queries that get its
/// rows find no memory for them: what is kept of each other query is what it keeps of
/// the rows that were folded.
pub fn a_distributed_batch_keeps_a_core_sound()
    ensures { (batch : ℕ) (spoiled : List ℕ) (state : State) → MayDistribute batch state →
        AreFed batch spoiled state →
        IsSound state → IsSound (after_distribute batch spoiled state) }
{
    one_row_more_is_folded();
}
