//! What becomes of the parts of a core where all batches pass the filters that they meet.
ghost use Rattle.event_core.specs.Chosen.{AreIdle};
ghost use Rattle.event_core.specs.Core.{IsCore};
ghost use Rattle.event_core.specs.CoreParts.{CoreParts};
ghost use Rattle.event_core.specs.Passing.{AllPass};
ghost use Rattle.event_core.specs.Seen.{state_of};

use crate::laws_of_core::quiet_events_leave_a_core;

/// Where no batch is in a hand, all batches go through the filters as if the front took each of
/// them and gave it back, one filter after the other.
pub(crate) fn passes_follow_the_core()
    ensures { (parts : CoreParts) → IsCore parts → AreIdle (state_of parts) → AllPass parts }
{
    quiet_events_leave_a_core();
}
