//! What holds of every core, and of every list of events that a core took.
ghost use Rattle.std.specs.Prelude.{◌≡◌, List, []};
ghost use Rattle.core_state.specs.Sound.{IsSound};
ghost use Rattle.core_state.specs.State.{State};
ghost use Rattle.core_state.specs.declared.event.Event.{Event};
ghost use Rattle.event_core.specs.Chosen.{AreIdle};
ghost use Rattle.event_core.specs.CoreParts.{beside_of};
ghost use Rattle.event_core.specs.Seen.{state_of};
ghost use Rattle.event_core.specs.Took.{StepsFor, TookAll};

use crate::machine::Core;

/// Every core is sound, whatever events led to it.
pub fn every_core_is_sound(core: &Core)
    ensures { IsSound (state_of core.now) }
{
    let _ = &core.settings;
}

/// Where no batch is in a hand, none is lent.
pub fn idle_cores_lend_nothing(core: &Core)
    ensures { AreIdle (state_of core.now) → (beside_of core.now).lent ≡ [] }
{
    let _ = &core.settings;
}

/// Events that a core took are steps of the core, each of which might come, and lead to the same
/// state. So all that holds of every list of steps holds of them.
pub fn taken_events_are_steps()
    ensures { (events : List Event) (old new : State) → TookAll events old new →
        StepsFor events old new }
{}
