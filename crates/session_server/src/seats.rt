//! The seats of a server: how they are made, and how sessions are served by them, each in a thread
//! of its own where one can be made. Where their connections come from is in `server`.
ghost use denote.Param.Send.{IsSend, IsSync};
ghost use Rattle.std.specs.Prelude.{◌≡◌, ℕ, ◌+◌, ◌<◌, IfOk, OnOk, length};
ghost use Rattle.board_lock.specs.Seats.{view_of};
ghost use Rattle.core_state.specs.Settings.{AreWithin};
ghost use Rattle.script_run.specs.BoardRun.{IsLeader, KnowsNew};
ghost use Rattle.script_run.specs.Home.{IsAtRest};
ghost use Rattle.session_server.specs.Server.{AreAtRest, HasSeatsLeft, IsNewServer};

use crate::hand_over::Connections;
use crate::session::serve_session;
use board_lock::{BoardLock, BoardSeat};
use core_state::RunSettings;
use event_core::Core;
use script_run::{Crew, SeatFront, open_crew};
use star_io::Link;
use star_values::NoMemory;
use std::alloc::Global;
use std::hash::RandomState;
use std::sync::Wait;
use std::thread::{Threads, scope, scope_env};
use worker_gate::Gate;

/// A board over a core, and its seats: the first one, by which the one who takes connections may
/// serve, one for each worker, and those of sessions.
#[derive(Drop)]
pub struct Server {
    pub board: BoardLock<Core>,
    pub own: SeatFront,
    pub workers: Vec<BoardSeat<Core>>,
    pub sessions: Vec<SeatFront>,
}

/// A server over a core of these settings to which nothing was given. Each seat that is neither the
/// first one nor a worker's is for sessions.
pub fn open_server(
    alloc: Global,
    hash_keys: RandomState,
    settings: RunSettings,
) -> Result<Server, NoMemory>
    requires settings { AreWithin settings }
    requires seats { settings.workers < settings.seats }
    ensures { IfOk result (λ server. IsNewServer settings server) }
{
    let crew = open_crew(alloc, hash_keys, settings)?;
    let Crew {
        board,
        mut first,
        workers,
    } = crew;
    let count = seats_left(settings);
    match make_fronts(alloc, &board, &mut first, count, settings) {
        Ok(sessions) => {
            let own = SeatFront::new(alloc, first, settings.slots);
            Ok(Server {
                board,
                own,
                workers,
                sessions,
            })
        }
        Err(wanting) => {
            drop(first);
            drop(workers);
            drop(board);
            Err(wanting)
        }
    }
}

/// How many seats are neither the first one nor a worker's.
fn seats_left(settings: RunSettings) -> u32
    requires { settings.workers < settings.seats }
    ensures { settings.workers + (result + 1) ≡ settings.seats }
{
    settings.seats - settings.workers - 1
}

/// Makes a front for each of so many sessions, by the seats behind those of the workers.
fn make_fronts(
    alloc: Global,
    board: &BoardLock<Core>,
    first: &mut BoardSeat<Core>,
    count: u32,
    settings: RunSettings,
) -> Result<Vec<SeatFront>, NoMemory>
    requires leader { IsLeader board.now settings.workers first.old }
    requires knows { KnowsNew settings (view_of first.old) }
    requires left { HasSeatsLeft settings board.now count }
    ensures own { OnOk result (IsAtRest board.now first.new) }
    ensures fronts { IfOk result (λ fronts. AreAtRest board.now fronts.items) }
    ensures count { IfOk result (λ fronts. length fronts.items ≡ count) }
{
    let mut fronts = Vec::with_capacity(alloc, count as usize)?;
    'splits: for _ in 0..count {
        let seat = board.split(first);
        let front = SeatFront::new(alloc, seat, settings.slots);
        fronts.push_reserved(front);
    }
    Ok(fronts)
}

/// Starts a thread for each front, which serves the connections that come to it, and calls
/// `receive` with the number of threads that began. If no more thread can be made, the fronts that
/// are left serve nothing. It ends when `receive` and all threads have ended.
pub(crate) fn serve_beside<
    R: Threads + Wait + Sync,
    L: Link + Send + Drop,
    G: Gate + Sync,
    F: FnMut(usize) -> A,
    A,
>(
    rt: &R,
    board: &BoardLock<Core>,
    gate: &G,
    links: &Connections<L>,
    fronts: &mut [SeatFront],
    receive: &mut F,
) -> A
    requires fronts { AreAtRest board.now fronts.old }
    requires receive { (began : ℕ) → F.pre receive.old began }
    ensures { (began : ℕ) × F.step receive.old began result receive.new }
{
    let (receive, result) = scope(
        scope_env(),
        rt,
        move |scope| -> (&mut F, A)
            requires { (IsSync R.row × IsSync G.row × IsSend L.row) × AreAtRest board.now fronts.now
                × ((began : ℕ) → F.pre receive.now began) }
            ensures { (result.0.ghost_name ≡ receive.entry.ghost_name)
                × ((began : ℕ) × F.step receive.entry.now began result.1 result.0.now) }
        {
            let mut began = 0;
            for front in fronts.iter_mut() {
                let serve = move ||
                    requires { IsAtRest board.now front.now.seat }
                { serve_links(rt, board, gate, links, front) };
                if scope.spawn(serve).is_err() {
                    break;
                }
                began += 1;
            }
            let result = receive(began);
            (receive, result)
        },
    );
    take_back(receive);
    result
}

/// Serves the connections that come, one after the other, until no more do.
fn serve_links<R: Wait, L: Link + Drop, G: Gate>(
    rt: &R,
    board: &BoardLock<Core>,
    gate: &G,
    links: &Connections<L>,
    front: &mut SeatFront,
)
    requires { IsAtRest board.now front.old.seat }
    ensures { IsAtRest board.now front.new.seat }
{
    'links: for _ in rt.forever() {
        let Some(mut link) = links.next(rt) else {
            return;
        };
        let _end = serve_session(rt, board, front, &mut link, gate);
        // Closed before the reception takes the next one.
        drop(link);
        links.end(rt);
    }
}

/// Takes a reference that a scope gave back. It does nothing: the use alone tells that what was
/// lent to the scope is as the scope left it.
fn take_back<T>(lent: &mut T)
    ensures { lent.new ≡ lent.old }
{}
