//! What holds of every core still holds after the scan cuts a batch.
ghost use Rattle.core_state.specs.Cutting.{after_cutting};
ghost use Rattle.core_state.specs.Events.{MayCut};
ghost use Rattle.core_state.specs.Sound.{IsSound};
ghost use Rattle.core_state.specs.State.{State};

use query_meaning::accepted_histories_are_settled;

/// A batch that the scan cuts keeps a core sound: it has the bits and keys of its rows, and less is
/// left of each query that runs.
pub fn a_cut_keeps_a_core_sound()
    ensures { (state : State) → MayCut state → IsSound state → IsSound (after_cutting state) }
{
    accepted_histories_are_settled();
}
