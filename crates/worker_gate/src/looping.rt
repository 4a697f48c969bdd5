//! The loop of a worker: turn after turn, until the core is marked closing
//! and nothing is left to do.
ghost use Rattle.std.specs.Prelude.{◌<◌, None};
ghost use Rattle.board_lock.specs.Seats.{IsSameSeat, view_of};
ghost use Rattle.core_state.specs.Fronts.{Passes};
ghost use Rattle.event_core.specs.Board.{core_row};
ghost use Rattle.event_core.specs.CoreParts.{LeavesLoans};
ghost use Rattle.event_core.specs.Seen.{state_of};
ghost use Rattle.worker_gate.specs.Hands.{HasDoneIf, HasNothing};
ghost use Rattle.worker_gate.specs.Left.{MovesHand};
ghost use Rattle.worker_gate.specs.Looks.{HasLooked};
ghost use Rattle.worker_gate.specs.Turns.{EndsWorking, GoesOn, IsOutWith, IsReady, LooksLast, sight_in};

use crate::looking::{Look, worker_look};
use crate::passing::{Gate, do_work};
use crate::signal::signal_behind;
use crate::working::give_work;
use board_lock::{BoardLock, BoardSeat};
use event_core::{Core, Work, own_steps_keep_a_board};
use std::sync::Wait;

/// How a worker ended.
#[derive(Clone, Copy, Debug, PartialEq, Eq)]
pub enum WorkerEnd {
    /// The core was marked closing, and nothing was left to do.
    Closed,

    /// No memory was left to clear a filter of a slot.
    Memory,
}

/// What follows a turn.
#[derive(Drop)]
enum Turned {
    /// Another turn, in which a work is given back if there is one.
    Goes(Option<Work>),

    /// The end.
    Ends(WorkerEnd),
}

/// Works at a core until it is marked closing and nothing is left to do, or no memory
/// is left to clear a filter.
///
/// In each turn of its seat the worker gives back what it had taken, and looks for more. Outside of
/// its turns it writes batches that it cut, lets batches pass filters, behind the gate, and folds
/// them, and where there is nothing to do it rests on the bell of the board.
pub fn worker_loop<G: Gate, R: Wait>(
    rt: &R,
    board: &BoardLock<Core>,
    seat: &mut BoardSeat<Core>,
    gate: &G,
) -> WorkerEnd
    requires { IsReady board.now None seat.old }
    ensures ready { IsReady board.now None seat.new }
    ensures same { IsSameSeat seat.old seat.new }
    ensures passes { Passes (sight_in (view_of seat.old)) (sight_in (view_of seat.new)) }
    ensures end { EndsWorking result (view_of seat.new).last }
{
    let mut done = None;
    'turns: for _ in rt.forever() {
        match turn_and_work(rt, board, seat, gate, done) {
            Turned::Goes(next) => done = next,
            Turned::Ends(end) => return end,
        }
    }
    unreachable!()
}

/// One turn, and outside of it the work that was taken in it.
fn turn_and_work<G: Gate, R: Wait>(
    rt: &R,
    board: &BoardLock<Core>,
    seat: &mut BoardSeat<Core>,
    gate: &G,
    done: Option<Work>,
) -> Turned
    requires { IsReady board.now done seat.old }
    ensures on { GoesOn result board.now seat.new }
    ensures same { IsSameSeat seat.old seat.new }
    ensures passes { Passes (sight_in (view_of seat.old)) (sight_in (view_of seat.new)) }
{
    match take_turn(rt, board, seat, done) {
        Look::Got(carried) => Turned::Goes(Some(do_work(carried, seat.number(), gate))),
        Look::Did(_) => Turned::Goes(None),
        Look::Rest => Turned::Goes(None),
        Look::Closed => Turned::Ends(WorkerEnd::Closed),
        Look::Memory => Turned::Ends(WorkerEnd::Memory),
    }
}

/// One turn: gives back a work that is done, and looks for more. Then wakes others if there is
/// something for them, or rests until it is woken.
fn take_turn<R: Wait>(
    rt: &R,
    board: &BoardLock<Core>,
    seat: &mut BoardSeat<Core>,
    done: Option<Work>,
) -> Look
    requires { IsReady board.now done seat.old }
    ensures out { IsOutWith board.now (HasLooked result) seat.new }
    ensures same { IsSameSeat seat.old seat.new }
    ensures passes { Passes (sight_in (view_of seat.old)) (sight_in (view_of seat.new)) }
    ensures last { LooksLast result (view_of seat.new).last }
{
    // It is called for what it ensures.
    own_steps_keep_a_board();
    let worker = seat.number();
    let mut core = board.enter(rt, seat);
    let look = give_and_look(&mut core, worker, done);
    let signal = signal_behind(rt, board, &core, &look);
    board.leave(seat, core);
    signal.give(rt, board);
    look
}

/// What a worker does with the core while it has its turn.
fn give_and_look(core: &mut Core, worker: u32, done: Option<Work>) -> Look
    requires seat { worker < (state_of core.old).settings.seats }
    requires hand { HasDoneIf done (core_row core.old worker) }
    ensures moves { MovesHand worker (state_of core.old) (state_of core.new) }
    ensures hand { HasLooked result (core_row core.new worker) }
    ensures others { LeavesLoans worker core.old core.new }
    ensures last { LooksLast result (Some core.new) }
{
    give_if_done(core, worker, done);
    worker_look(core, worker)
}

/// Gives a work back, if there is one.
pub fn give_if_done(core: &mut Core, worker: u32, done: Option<Work>)
    requires { HasDoneIf done (core_row core.old worker) }
    ensures moves { MovesHand worker (state_of core.old) (state_of core.new) }
    ensures empty { HasNothing (core_row core.new worker) }
    ensures others { LeavesLoans worker core.old core.new }
{
    match done {
        Some(work) => give_work(core, worker, work),
        None => {}
    }
}
