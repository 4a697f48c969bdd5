//! What a worker looks for while it has the lock.
ghost use Rattle.std.specs.Prelude.{◌≡◌, ◌↔◌, ◌<◌, IsTrue, if◌then◌else◌};
ghost use Rattle.core_state.specs.declared.event.Event.TheVariants.{Cut};
ghost use Rattle.event_core.specs.Board.{core_row};
ghost use Rattle.event_core.specs.CoreParts.{LeavesLoans};
ghost use Rattle.event_core.specs.Seen.{state_of};
ghost use Rattle.worker_gate.specs.Hands.{HasNothing};
ghost use Rattle.worker_gate.specs.Left.{MovesHand};
ghost use Rattle.worker_gate.specs.Looks.{HasLooked, IsIdle, IsToManage, TellsLook};
ghost use Rattle.worker_gate.specs.Managed.{IsFirstOf, managed_kinds};

use crate::carried::Carried;
use crate::managing::{Managed, NextEvent, make_next, next_managed};
use crate::working::{TakenWork, take_work};
use core_state::{a_step_moves_one_row, a_work_stays_right, every_step_keeps_a_core_sound};
use event_core::{Core, EventKind, every_core_is_sound, what_is_beside_stays_lent};

/// What a worker found to do.
#[derive(Debug, Drop)]
pub enum Look {
    /// A batch to let pass filters, and to fold, outside of the lock; one that was just cut is
    /// to be written there first.
    Got(Carried),

    /// An event of this kind was made, and there may be more to do.
    Did(EventKind),

    /// There is nothing to do for now.
    Rest,

    /// There is nothing to do any more: the core is marked closing.
    Closed,

    /// No memory was left to clear a filter of a slot. Nothing has changed.
    Memory,
}

/// Takes a batch that wants a filter, and where there is none makes an event. A batch that is cut
/// it carries as it is cut, where there is memory for what goes with it, and no statement waits for
/// the tables. The worker's hand is empty.
pub fn worker_look(core: &mut Core, worker: u32) -> Look
    requires seat { worker < (state_of core.old).settings.seats }
    requires empty { HasNothing (core_row core.old worker) }
    ensures tells { TellsLook result worker core.old core.new }
    ensures moves { MovesHand worker (state_of core.old) (state_of core.new) }
    ensures hand { HasLooked result (core_row core.new worker) }
    ensures others { LeavesLoans worker core.old core.new }
{
    match take_work(core, worker) {
        TakenWork::Got(work) => Look::Got(Carried::Written(work)),
        TakenWork::Nothing => look_on(core, worker),
    }
}

/// Makes an event, where no batch wants a filter.
fn look_on(core: &mut Core, worker: u32) -> Look
    requires { IsToManage worker core.old }
    ensures tells { TellsLook result worker core.old core.new }
    ensures moves { MovesHand worker (state_of core.old) (state_of core.new) }
    ensures hand { HasLooked result (core_row core.new worker) }
    ensures others { LeavesLoans worker core.old core.new }
{
    match next_managed(core) {
        Some(next) => make_first(core, worker, next),
        None => rest_or_end(core.is_closing()),
    }
}

/// Makes the first event that may come, as `manage_one` does, but that a
/// batch is cut for the worker.
fn make_first(core: &mut Core, worker: u32, next: NextEvent) -> Look
    requires manages { IsToManage worker core.old }
    requires first { IsFirstOf managed_kinds (state_of core.old) next.kind next.event }
    ensures tells { TellsLook result worker core.old core.new }
    ensures moves { MovesHand worker (state_of core.old) (state_of core.new) }
    ensures hand { HasLooked result (core_row core.new worker) }
    ensures others { LeavesLoans worker core.old core.new }
{
    if let EventKind::Cut = next.kind {
        return cut_next(core, worker);
    }
    match make_next(core, next) {
        Managed::Did(kind) => Look::Did(kind),
        Managed::Idle => rest_or_end(core.is_closing()),
        Managed::Memory => Look::Memory,
    }
}

/// Cuts the next batch. The worker carries it as it is cut, or it was cut alone.
fn cut_next(core: &mut Core, worker: u32) -> Look
    requires manages { IsToManage worker core.old }
    requires first { IsFirstOf managed_kinds (state_of core.old) EventKind.Cut Cut }
    ensures tells { TellsLook result worker core.old core.new }
    ensures moves { MovesHand worker (state_of core.old) (state_of core.new) }
    ensures hand { HasLooked result (core_row core.new worker) }
    ensures others { LeavesLoans worker core.old core.new }
{
    // All five are called for what they ensure.
    every_core_is_sound(core);
    a_step_moves_one_row();
    a_work_stays_right();
    every_step_keeps_a_core_sound();
    what_is_beside_stays_lent();
    match core.cut_for(worker) {
        Some(blank) => Look::Got(Carried::Blank(blank)),
        None => Look::Did(EventKind::Cut),
    }
}

/// Whether a look would find something to do: a batch that wants a filter, or an event that may
/// come.
pub fn is_more_to_do(core: &Core) -> bool
    ensures { IsTrue result ↔ ¬ (IsIdle (state_of core.now)) }
{
    match core.next_take() {
        Some(_) => true,
        None => next_managed(core).is_some(),
    }
}

/// What a worker does without anything to do: it ends where the core is marked closing.
fn rest_or_end(closing: bool) -> Look
    ensures { result ≡ (if closing then Look.Closed else Look.Rest) }
{
    if closing { Look::Closed } else { Look::Rest }
}
