//! What holds of every core, whatever events made it.
ghost use Rattle.core_state.specs.Settings.{AreWithin};
ghost use Rattle.core_state.specs.Sound.{IsSound, empty_core};
ghost use Rattle.core_state.specs.declared.settings.RunSettings.{RunSettings};

/// Before its first event a core is sound.
pub fn an_empty_core_is_sound()
    ensures { (settings : RunSettings) → AreWithin settings → IsSound (empty_core settings) }
{}
