//! What holds of every core still holds after its filters are ordered.
ghost use Rattle.core_state.specs.Cutting.{after_reorder};
ghost use Rattle.core_state.specs.Sound.{IsSound};
ghost use Rattle.core_state.specs.State.{State};

/// Filters that are ordered anew keep a core sound.
pub fn a_new_order_keeps_a_core_sound()
    ensures { (state : State) → IsSound state → IsSound (after_reorder state) }
{}
