//! What holds of every core still holds after an event of a slot.
ghost use Rattle.std.specs.Prelude.{ℕ};
ghost use Rattle.pipeline_manager.specs.Conditions.{CanFree, CanRun};
ghost use Rattle.core_state.specs.Admitting.{after_finish, after_release, after_reserving, after_start};
ghost use Rattle.core_state.specs.Events.{MayFinish, MayReserve};
ghost use Rattle.core_state.specs.Sound.{IsSound};
ghost use Rattle.core_state.specs.State.{State};

/// A query that gets a slot keeps a core sound.
pub fn a_reservation_keeps_a_core_sound()
    ensures { (query slot : ℕ) (state : State) → MayReserve query slot state → IsSound state →
        IsSound (after_reserving slot state) }
{}

/// A query that begins its lap keeps a core sound.
pub fn a_start_keeps_a_core_sound()
    ensures { (query : ℕ) (state : State) → CanRun query state.lives → IsSound state →
        IsSound (after_start query state) }
{}

/// A slot that is taken from its query keeps a core sound. A query that was Ending is Answered:
/// what is kept for it is then what its rows give.
pub fn a_finish_keeps_a_core_sound()
    ensures { (slot : ℕ) (state : State) → MayFinish slot state → IsSound state →
        IsSound (after_finish slot state) }
{}

/// A slot that is given free keeps a core sound.
pub fn a_release_keeps_a_core_sound()
    ensures { (slot : ℕ) (state : State) → CanFree slot state.lives → IsSound state →
        IsSound (after_release slot state) }
{}
