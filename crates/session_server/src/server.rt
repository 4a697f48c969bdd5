//! Connections: each is taken at a door while a session is free, and given to one of the sessions,
//! many of which run at once. How the sessions run is in `seats`, and what one of them does in
//! `session`.
ghost use Rattle.std.specs.Prelude.{◌≡◌, ◌≢◌, ◌<◌, ◌⊎◌, true};
ghost use Rattle.core_state.specs.Settings.{AreWithin};
ghost use Rattle.script_run.specs.Home.{IsAtRest};
ghost use Rattle.session_server.specs.Server.{AreAtRest, CanServe, HasCome, HasGiven, HasServed};
ghost use Rattle.session_server.specs.Server.{ServesPort, TakesLinks, TellsNext};

use crate::hand_over::{Connections, FreeSessions, make_ways};
use crate::seats::{Server, open_server, serve_beside};
use crate::session::serve_session;
use board_lock::BoardLock;
use core_state::RunSettings;
use event_core::Core;
use script_run::{Host, SeatFront, work_beside};
use star_io::{Door, Failed, Link, ServeEnd};
use std::alloc::Global;
use std::sync::Wait;
use std::thread::Threads;
use worker_gate::Gate;

/// What is asked of a door.
#[derive(Clone, Copy)]
struct DoorRequest {
    /// The port whose connections are to come.
    port: u16,

    /// How many of them are taken. 0 is no bound.
    accept: u32,
}

/// The two ways between the one who takes connections and the sessions.
type Ways<L> = (FreeSessions<L>, Connections<L>);

/// Takes the connections.
#[derive(Drop)]
struct Reception<L> {
    /// Serves the connections that no session takes.
    own: SeatFront,

    /// The sessions, many of which run at once.
    sessions: FreeSessions<L>,

    /// How many connections are taken. 0 is no bound.
    accept: u32,
}

/// Those who serve connections, each by a seat of its own.
#[derive(Drop)]
struct Sessions<L> {
    fronts: Vec<SeatFront>,

    /// Where the connections come from.
    links: Connections<L>,
}

/// Listens at a port of this machine, and serves connections until the door ends or so many were
/// taken, if that number is not 0. Each connection is given to one of the threads of sessions, each
/// of which serves one connection after the other by a seat of its own; workers work beside them. A
/// connection is taken from the door only while a session is free. If no thread can be made for a
/// session, the caller serves the connections itself, one after the other.
///
/// Each session sees what was committed before its statements, by any session. One that ends early
/// leaves the others. After the last connection was taken the door is closed, the sessions end, the
/// core is marked closing, the workers end, and the board is dropped.
///
/// The core is made before the door is asked: if there is no memory for it, the door is untouched.
/// It hashes by the keys of the host, on which no reply depends.
pub fn serve<R: Threads + Wait + Sync, D: Door, G: Gate + Sync>(
    host: Host<&R>,
    settings: RunSettings,
    port: u16,
    accept: u32,
    door: &mut D,
    gate: &G,
) -> ServeEnd
    requires settings { AreWithin settings }
    requires seats { settings.workers < settings.seats }
    ensures serves { result ≢ ServeEnd.NoMemory
        → ServesPort port accept result (D.accepting door.old) (D.accepting door.new) }
    ensures untouched { result ≡ ServeEnd.NoMemory → door.new ≡ door.old }
{
    let Ok(server) = open_server(host.alloc, host.hash_keys, settings) else {
        return ServeEnd::NoMemory;
    };
    let asked = DoorRequest { port, accept };
    open_ways(host.rt, host.alloc, server, asked, door, gate)
}

/// Makes the ways to the sessions, and listens. If there is no memory for them, the door is
/// untouched.
fn open_ways<R: Threads + Wait + Sync, D: Door, G: Gate + Sync>(
    rt: &R,
    alloc: Global,
    server: Server,
    asked: DoorRequest,
    door: &mut D,
    gate: &G,
) -> ServeEnd
    requires server { CanServe server }
    ensures serves { result ≢ ServeEnd.NoMemory
        → ServesPort asked.port asked.accept result (D.accepting door.old) (D.accepting door.new) }
    ensures untouched { result ≡ ServeEnd.NoMemory → door.new ≡ door.old }
{
    let Ok(ways) = make_ways::<D::Link>(alloc, server.sessions.len()) else {
        drop(server);
        return ServeEnd::NoMemory;
    };
    listen(rt, server, ways, asked, door, gate)
}

/// Listens at a port, and serves connections by a server that is made.
fn listen<R: Threads + Wait + Sync, D: Door, G: Gate + Sync>(
    rt: &R,
    server: Server,
    ways: Ways<D::Link>,
    asked: DoorRequest,
    door: &mut D,
    gate: &G,
) -> ServeEnd
    requires server { CanServe server }
    ensures served { result ≢ ServeEnd.NoMemory }
    ensures serves { ServesPort asked.port asked.accept result
        (D.accepting door.old) (D.accepting door.new) }
{
    match door.listen(asked.port) {
        Err(Failed) => {
            drop(server);
            ServeEnd::DoorFault
        }
        Ok(()) => serve_door(rt, server, ways, asked.accept, door, gate),
    }
}

/// Serves the connections of a door that listens, with workers beside the sessions.
fn serve_door<R: Threads + Wait + Sync, D: Door, G: Gate + Sync>(
    rt: &R,
    server: Server,
    ways: Ways<D::Link>,
    accept: u32,
    door: &mut D,
    gate: &G,
) -> ServeEnd
    requires server { CanServe server }
    requires listening { (D.accepting door.old).listening ≡ true }
    ensures { HasServed accept result (D.accepting door.old) (D.accepting door.new) }
{
    let Server {
        board,
        own,
        mut workers,
        sessions: fronts,
    } = server;
    let (free, links) = ways;
    let mut reception = Reception {
        own,
        sessions: free,
        accept,
    };
    let mut sessions = Sessions { fronts, links };
    let mut play = ||
        requires { AreAtRest board sessions.fronts.items × IsAtRest board reception.own.seat
            × ((D.accepting door.now).listening ≡ true) }
        ensures { HasServed reception.entry.accept result
            (D.accepting door.entry.now) (D.accepting door.exit.now) }
    { serve_sessions(rt, &board, gate, &mut sessions, &mut reception, door) };
    let end = work_beside(rt, &board, gate, workers.as_mut_slice(), &mut play);
    drop(sessions);
    drop(reception);
    drop(workers);
    drop(board);
    end
}

/// Takes connections beside the sessions, and marks the core closing once all of them have ended.
fn serve_sessions<R: Threads + Wait + Sync, D: Door, G: Gate + Sync>(
    rt: &R,
    board: &BoardLock<Core>,
    gate: &G,
    sessions: &mut Sessions<D::Link>,
    reception: &mut Reception<D::Link>,
    door: &mut D,
) -> ServeEnd
    requires sessions { AreAtRest board.now sessions.old.fronts.items }
    requires own { IsAtRest board.now reception.old.own.seat }
    requires listening { (D.accepting door.old).listening ≡ true }
    ensures { HasServed reception.old.accept result (D.accepting door.old) (D.accepting door.new) }
{
    let mut receive = |began: usize|
        requires { IsAtRest board.now reception.now.own.seat
            × ((D.accepting door.now).listening ≡ true) }
        ensures { IsAtRest board.entry.now reception.exit.now.own.seat
            × HasServed reception.entry.now.accept result
            (D.accepting door.entry.now) (D.accepting door.exit.now) }
    {
        reception.sessions.begin(began);
        take_links(rt, board, gate, reception, door)
    };
    let fronts = sessions.fronts.as_mut_slice();
    let end = serve_beside(rt, board, gate, &sessions.links, fronts, &mut receive);
    reception.own.close(rt, board);
    end
}

/// Takes connections until the door ends or so many were taken, if that number is not 0. Then the
/// door is closed, and no more come to the sessions.
fn take_links<R: Wait, D: Door, G: Gate>(
    rt: &R,
    board: &BoardLock<Core>,
    gate: &G,
    reception: &mut Reception<D::Link>,
    door: &mut D,
) -> ServeEnd
    requires own { IsAtRest board.now reception.old.own.seat }
    requires listening { (D.accepting door.old).listening ≡ true }
    ensures own { IsAtRest board.now reception.new.own.seat }
    ensures served { HasServed reception.old.accept result
        (D.accepting door.old) (D.accepting door.new) }
{
    let accept = reception.accept;
    let end = take_counted(rt, board, gate, reception, accept, door);
    door.close();
    reception.sessions.close();
    end
}

/// Takes connections until the door ends or so many were taken, if that number is not 0.
fn take_counted<R: Wait, D: Door, G: Gate>(
    rt: &R,
    board: &BoardLock<Core>,
    gate: &G,
    reception: &mut Reception<D::Link>,
    accept: u32,
    door: &mut D,
) -> ServeEnd
    requires own { IsAtRest board.now reception.old.own.seat }
    requires listening { (D.accepting door.old).listening ≡ true }
    ensures own { IsAtRest board.now reception.new.own.seat }
    ensures ended { HasCome accept result (D.accepting door.old) (D.accepting door.new) }
    ensures takes { TakesLinks (Some result) (D.accepting door.old) (D.accepting door.new) }
{
    if accept == 0 {
        return take_all(rt, board, gate, reception, door);
    }
    take_some(rt, board, gate, reception, accept, door)
}

/// Takes connections until the door ends.
fn take_all<R: Wait, D: Door, G: Gate>(
    rt: &R,
    board: &BoardLock<Core>,
    gate: &G,
    reception: &mut Reception<D::Link>,
    door: &mut D,
) -> ServeEnd
    requires own { IsAtRest board.now reception.old.own.seat }
    requires listening { (D.accepting door.old).listening ≡ true }
    ensures own { IsAtRest board.now reception.new.own.seat }
    ensures ended { result ≡ ServeEnd.Ended → (D.accepting door.new).ended ≡ true }
    ensures takes { TakesLinks (Some result) (D.accepting door.old) (D.accepting door.new) }
{
    'links: for _ in rt.forever() {
        if let Some(end) = take_next(rt, board, gate, reception, door) {
            return end;
        }
    }
    unreachable!()
}

/// Takes so many connections, or fewer if the door ends before.
fn take_some<R: Wait, D: Door, G: Gate>(
    rt: &R,
    board: &BoardLock<Core>,
    gate: &G,
    reception: &mut Reception<D::Link>,
    accept: u32,
    door: &mut D,
) -> ServeEnd
    requires own { IsAtRest board.now reception.old.own.seat }
    requires listening { (D.accepting door.old).listening ≡ true }
    ensures own { IsAtRest board.now reception.new.own.seat }
    ensures ended { result ≡ ServeEnd.Ended → ((D.accepting door.new).ended ≡ true)
        ⊎ HasGiven accept (D.accepting door.old).given (D.accepting door.new).given }
    ensures takes { TakesLinks (Some result) (D.accepting door.old) (D.accepting door.new) }
{
    'links: for _taken in 0..accept {
        if let Some(end) = take_next(rt, board, gate, reception, door) {
            return end;
        }
    }
    ServeEnd::Ended
}

/// Takes the next connection, once a session is free, and gives it to a session. If none comes, the
/// end of the serving is answered.
fn take_next<R: Wait, D: Door, G: Gate>(
    rt: &R,
    board: &BoardLock<Core>,
    gate: &G,
    reception: &mut Reception<D::Link>,
    door: &mut D,
) -> Option<ServeEnd>
    requires own { IsAtRest board.now reception.old.own.seat }
    requires listening { (D.accepting door.old).listening ≡ true }
    ensures own { IsAtRest board.now reception.new.own.seat }
    ensures listening { (D.accepting door.new).listening ≡ true }
    ensures takes { TakesLinks result (D.accepting door.old) (D.accepting door.new) }
    ensures tells { TellsNext result (D.accepting door.old) (D.accepting door.new) }
{
    reception.sessions.wait(rt);
    match door.accept() {
        Err(Failed) => Some(ServeEnd::DoorFault),
        Ok(None) => Some(ServeEnd::Ended),
        Ok(Some(link)) => {
            hand_on(rt, board, gate, reception, link);
            None
        }
    }
}

/// Gives a connection to the sessions. One that none of them takes is served here, however its
/// session ends.
fn hand_on<R: Wait, L: Link + Drop, G: Gate>(
    rt: &R,
    board: &BoardLock<Core>,
    gate: &G,
    reception: &mut Reception<L>,
    link: L,
)
    requires { IsAtRest board.now reception.old.own.seat }
    ensures { IsAtRest board.now reception.new.own.seat }
{
    let Some(mut link) = reception.sessions.give(rt, link) else {
        return;
    };
    let _end = serve_session(rt, board, &mut reception.own, &mut link, gate);
}
