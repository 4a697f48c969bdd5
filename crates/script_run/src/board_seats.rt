//! The seats of a run's workers over a board: how they are made, how the workers work by them, and
//! how they are joined.
ghost use Rattle.std.specs.Prelude.{◌≡◌, IfOk, OnOk, length};
ghost use Rattle.board_lock.specs.Seats.{view_of};
ghost use Rattle.script_run.specs.BoardRun.{AreWorkers, HasJoined, HasRoomFor, IsLeader};
ghost use Rattle.script_run.specs.BoardRun.{KnowsSame, StaysWorker};
ghost use Rattle.std.specs.Fork.{AcceptsEach, ChangesEach};
ghost use Rattle.worker_gate.specs.Turns.{IsReady};

use board_lock::{BoardLock, BoardSeat};
use event_core::Core;
use star_values::NoMemory;
use std::alloc::Global;
use std::sync::Wait;
use std::thread::{Threads, for_each_mut, join_mut};
use worker_gate::{Gate, worker_loop};

/// Makes a seat for each of so many workers, with the numbers from 1 on.
pub(crate) fn make_seats(
    alloc: Global,
    board: &BoardLock<Core>,
    first: &mut BoardSeat<Core>,
    count: u32,
) -> Result<Vec<BoardSeat<Core>>, NoMemory>
    requires leader { IsLeader board.now 0 first.old }
    requires room { HasRoomFor board.now count (view_of first.old) }
    ensures leader { OnOk result (IsLeader board.now count first.new) }
    ensures knows { KnowsSame (view_of first.old) (view_of first.new) }
    ensures workers { IfOk result (λ seats. AreWorkers board.now seats.items) }
    ensures count { IfOk result (λ seats. length seats.items ≡ count) }
{
    let mut seats = Vec::with_capacity(alloc, count as usize)?;
    'splits: for _ in 0..count {
        let seat = board.split(first);
        seats.push_reserved(seat);
    }
    Ok(seats)
}

/// Lets the workers work by their seats, each in a thread of its own where one can be made, and
/// calls `front` beside them. It ends when `front` and all workers have ended.
pub fn work_beside<R: Threads + Wait + Sync, G: Gate + Sync, F: FnMut() -> A, A>(
    rt: &R,
    board: &BoardLock<Core>,
    gate: &G,
    seats: &mut [BoardSeat<Core>],
    front: &mut F,
) -> A
    requires workers { AreWorkers board.now seats.old }
    requires front { F.pre front.old }
    ensures workers { AreWorkers board.now seats.new }
    ensures front { F.step front.old result front.new }
{
    let by_seat = move |_place: usize, seat: &mut BoardSeat<Core>|
        requires { IsReady board.now None seat.now }
        ensures { StaysWorker board.entry.now seat.entry.now seat.exit.now }
    { work(rt, board, gate, seat) };
    each_beside(rt, &by_seat, seats, front)
}

/// Calls `each` at all members of a list, each in a thread of its own where one can be made, and
/// `front` beside them.
fn each_beside<R: Threads + Sync, E: Fn(usize, &mut T) + Sync, T: Send, F: FnMut() -> A, A>(
    rt: &R,
    each: &E,
    members: &mut [T],
    front: &mut F,
) -> A
    requires each { AcceptsEach E.Fn each.now members.old }
    requires front { F.pre front.old }
    ensures each { ChangesEach E.Fn each.now members.old members.new }
    ensures front { F.step front.old result front.new }
{
    let mut all = ||
        requires { AcceptsEach E.Fn each.now members.now }
        ensures { ChangesEach E.Fn each.entry.now members.entry.now members.exit.now }
    { call_each(rt, each, members) };
    join_mut(rt, &mut all, front).1
}

/// Calls `each` at all members of a list, each in a thread of its own where one can be made. What
/// is lent comes last, for a closure that calls this.
fn call_each<R: Threads + Sync, E: Fn(usize, &mut T) + Sync, T: Send>(
    rt: &R,
    each: &E,
    members: &mut [T],
)
    requires { AcceptsEach E.Fn each.now members.old }
    ensures { ChangesEach E.Fn each.now members.old members.new }
{
    let threads = members.len().max(1);
    for_each_mut(rt, members, threads, each);
}

/// Works by a seat until the core is marked closing and nothing is left to do, or no memory is left
/// to clear a filter.
fn work<R: Wait, G: Gate>(rt: &R, board: &BoardLock<Core>, gate: &G, seat: &mut BoardSeat<Core>)
    requires { IsReady board.now None seat.old }
    ensures { StaysWorker board.now seat.old seat.new }
{
    worker_loop(rt, board, seat, gate);
}

/// Joins the seats of all workers, the last one first.
pub(crate) fn join_all(
    board: &BoardLock<Core>,
    first: &mut BoardSeat<Core>,
    seats: &mut Vec<BoardSeat<Core>>,
)
    requires leader { IsLeader board.now (length seats.old.items) first.old }
    requires workers { AreWorkers board.now seats.old.items }
    ensures { HasJoined board.now (length seats.old.items) 0 (view_of first.old) first.new }
{
    'joins: while let Some(seat) = seats.pop() {
        board.join(first, seat);
    }
}
