//! How a worker takes a batch, and how it gives it back.
ghost use Rattle.std.specs.Prelude.{◌≡◌, ◌<◌, None};
ghost use Rattle.core_state.specs.Events.{MayCarry};
ghost use Rattle.core_state.specs.Found.{held_by};
ghost use Rattle.event_core.specs.Board.{core_row};
ghost use Rattle.event_core.specs.CoreParts.{LeavesLoans};
ghost use Rattle.event_core.specs.Seen.{state_of};
ghost use Rattle.worker_gate.specs.Hands.{HasDone, HasNothing};
ghost use Rattle.worker_gate.specs.Left.{MovesHand};
ghost use Rattle.worker_gate.specs.Looks.{TakesWork, TellsTaken};
ghost use Rattle.worker_gate.specs.Managed.{BringsHome};

use crate::making::make;
use crate::managing::count_home;
use core_state::{Event, a_step_moves_one_row, a_work_stays_right, every_step_keeps_a_core_sound};
use event_core::{Core, Work, every_core_is_sound};

/// What a worker found that asked for a batch.
#[derive(Debug, Drop)]
pub enum TakenWork {
    /// A batch, and the versions of the filters that it is to pass.
    Got(Work),

    /// No batch wants a filter.
    Nothing,
}

/// Takes a batch that has a bit left and did not pass every filter, with the present versions of
/// all that it did not pass, and with what its rows are folded with outside, if there is memory for
/// that. The worker's hand is empty.
pub fn take_work(core: &mut Core, worker: u32) -> TakenWork
    requires seat { worker < (state_of core.old).settings.seats }
    requires empty { held_by (state_of core.old).scan.flights worker ≡ None }
    ensures tells { TellsTaken result worker core.old core.new }
    ensures moves { MovesHand worker (state_of core.old) (state_of core.new) }
    ensures others { LeavesLoans worker core.old core.new }
{
    // It is called for what it ensures.
    every_core_is_sound(core);
    match core.next_take() {
        Some(batch) => TakenWork::Got(carry_batch(core, worker, batch)),
        None => TakenWork::Nothing,
    }
}

/// Takes the batch of a number.
fn carry_batch(core: &mut Core, worker: u32, batch: u64) -> Work
    requires { MayCarry worker batch (state_of core.old) }
    ensures takes { TakesWork result worker core.old core.new }
    ensures moves { MovesHand worker (state_of core.old) (state_of core.new) }
    ensures others { LeavesLoans worker core.old core.new }
{
    // All three are called for what they ensure.
    every_core_is_sound(core);
    a_step_moves_one_row();
    a_work_stays_right();
    make(core, Event::Carry { worker, batch });
    core.lend(worker)
}

/// Gives back the batch in a worker's hand, which has passed the versions in it, and with it what
/// was lent beside. The hand is empty then. Where the rows were folded outside the batch is
/// distributed in the same call, and behind each sixteenth Distribute the filters are ordered.
pub fn give_work(core: &mut Core, worker: u32, work: Work)
    requires { HasDone work (core_row core.old worker) }
    ensures brings { BringsHome worker work.folding core.old core.new }
    ensures empty { HasNothing (core_row core.new worker) }
    ensures moves { MovesHand worker (state_of core.old) (state_of core.new) }
    ensures others { LeavesLoans worker core.old core.new }
{
    // All three are called for what they ensure.
    every_core_is_sound(core);
    a_step_moves_one_row();
    every_step_keeps_a_core_sound();
    let is_folded = work.folding.is_some();
    core.take_back(worker, work);
    count_home(core, is_folded);
}
