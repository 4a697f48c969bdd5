//! What holds of every core still holds after a filter has a next version.
ghost use Rattle.std.specs.Prelude.{ℕ};
ghost use Rattle.pipeline_manager.specs.Conditions.{CanBuild, CanClear};
ghost use Rattle.core_state.specs.Admitting.{after_build, after_clear};
ghost use Rattle.core_state.specs.Sound.{IsSound};
ghost use Rattle.core_state.specs.State.{State};

/// A filter that is built for a query keeps a core sound.
pub fn a_build_keeps_a_core_sound()
    ensures { (query dimension : ℕ) (state : State) → CanBuild query dimension state.lives →
        IsSound state →
        IsSound (after_build query dimension state) }
{}

/// A filter that is cleared of a slot keeps a core sound.
pub fn a_clearing_keeps_a_core_sound()
    ensures { (slot dimension : ℕ) (state : State) → CanClear slot dimension state.lives →
        IsSound state →
        IsSound (after_clear slot dimension state) }
{}
