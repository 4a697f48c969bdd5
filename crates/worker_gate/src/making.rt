//! How an event is made that may come, and that wants no memory.
ghost use Rattle.core_state.specs.Events.{IsEnabled};
ghost use Rattle.core_parts.specs.Lent.{lent_to};
ghost use Rattle.event_core.specs.Lent.{IsAtHome};
ghost use Rattle.event_core.specs.CoreParts.{beside_of};
ghost use Rattle.event_core.specs.Seen.{state_of};
ghost use Rattle.event_core.specs.Took.{MayWantMemory, Took};
ghost use Rattle.worker_gate.specs.Left.{LeavesAllLoans};
ghost use Rattle.std.specs.Prelude.{◌≡◌};

use core_state::Event;
use event_core::{Core, what_is_beside_stays_lent};

/// Makes an event that may come. It finds memory, since it wants none.
pub(crate) fn make(core: &mut Core, event: Event)
    requires enabled { IsEnabled (state_of core.old) event }
    requires memory { MayWantMemory event → ⊥ }
    requires home { IsAtHome event (lent_to core.old.flights) }
    ensures took { Took event (state_of core.old) (state_of core.new) }
    ensures beside { beside_of core.new ≡ beside_of core.old }
    ensures loans { LeavesAllLoans core.old core.new }
{
    // It is called for what it ensures.
    what_is_beside_stays_lent();
    let _ = core.step(event);
}
