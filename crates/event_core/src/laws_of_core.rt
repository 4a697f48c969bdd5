//! What keeps the parts of a core those of a core.
ghost use Rattle.std.specs.Prelude.{◌≡◌, List, Option, ℕ, replicate};
ghost use Rattle.query_meaning.specs.Keyed.{IsKeyed, KeyedStore, plain};
ghost use Rattle.query_meaning.specs.Store.{empty_store};
ghost use Rattle.core_state.specs.Cutting.{frame_words};
ghost use Rattle.core_state.specs.Settings.{AreWithin, frames_of};
ghost use Rattle.core_state.specs.Sound.{empty_core};
ghost use Rattle.core_state.specs.declared.settings.RunSettings.{RunSettings};
ghost use Rattle.event_core.specs.Changes.{first_parts};
ghost use Rattle.core_state.specs.Events.{IsEnabled, after_event};
ghost use Rattle.core_state.specs.Handed.{LeavesAttached};
ghost use Rattle.core_state.specs.Scanned.{LeavesScan};
ghost use Rattle.core_state.specs.State.{State};
ghost use Rattle.core_state.specs.declared.event.Event.{Event};
ghost use Rattle.event_core.specs.Core.{Becomes, IsCore, LeavesRest};
ghost use Rattle.event_core.specs.CoreParts.{CoreParts};
ghost use Rattle.event_core.specs.Seen.{state_of};

use core_state::{
    a_new_distributor_is_that_of_an_empty_core, a_new_scan_is_that_of_an_empty_core,
    an_empty_core_is_sound, every_step_keeps_a_core_sound, other_events_leave_a_distributor,
    other_events_leave_a_scan,
};

/// Where an event touches neither the scan nor what is attached, and the state is the one after it,
/// the parts are still those of a core.
pub(crate) fn quiet_events_leave_a_core()
    ensures { (old new : CoreParts) (event : Event) → IsCore old → IsEnabled (state_of old) event →
        LeavesScan event →
        LeavesAttached event → state_of new ≡ after_event event (state_of old) →
        LeavesRest old new → IsCore new }
{
    other_events_leave_a_scan();
    other_events_leave_a_distributor();
    every_step_keeps_a_core_sound();
}

/// The parts of a new core stand for an empty one.
pub(crate) fn a_new_core_is_empty()
    ensures { (settings : RunSettings) (frames : List (List ℕ)) (tables : KeyedStore) →
        AreWithin settings →
        frames ≡ replicate (frames_of settings) (replicate (frame_words (empty_core settings)) 0) →
        plain tables ≡ empty_store → IsKeyed tables →
        Becomes (first_parts settings tables frames) (empty_core settings) }
{
    an_empty_core_is_sound();
    a_new_scan_is_that_of_an_empty_core();
    a_new_distributor_is_that_of_an_empty_core();
}
