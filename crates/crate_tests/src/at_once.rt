//! Two sessions at once, by two seats of one board.
ghost use Rattle.script_run.specs.Home.{IsAtRest};
ghost use Rattle.session_server.specs.Server.{AreAtRest};

use crate::faults::{BASE, is_served};
use crate::served::{NEVER, link_of};
use board_lock::BoardLock;
use core_state::RunSettings;
use event_core::Core;
use script_run::SeatFront;
use session_server::{Server, SessionEnd, open_server};
use star_values::NoMemory;
use std::alloc::{AllocError, Global};
use std::hash::RandomState;
use std::sync::Wait;
use std::sync::atomic::AtomicU64;
use std::sync::atomic::Ordering::SeqCst;
use std::test::Fail;
use std::thread::{Threads, for_each_mut};

/// A server without workers, with two seats for sessions.
const SETTINGS: RunSettings = RunSettings {
    workers: 0,
    slots: 64,
    batch: 256,
    seats: 3,
};

/// The replies to what the first session sends before it waits.
const REPLIES: &str = "table store\ntable sales\ncommit 1 rows 2\ncommit 2 rows 4\n";

/// How often each session waits.
const WAITS: u32 = 50;

/// A text, and behind it a line for each time that a session waits.
fn with_lines(alloc: Global, begin: &str, line: &str) -> Result<String, AllocError> {
    let mut text = String::from_str(alloc, begin)?;
    for _ in 0..WAITS {
        text.push_str(line)?;
    }
    Ok(text)
}

/// Whether a session is done that sends this and then waits, with these replies and those to each
/// `wait`.
fn is_done<R: Wait>(
    rt: &R,
    alloc: Global,
    board: &BoardLock<Core>,
    front: &mut SeatFront,
    begin: &str,
    replies: &str,
) -> Result<bool, AllocError>
    requires { IsAtRest board.now front.old.seat }
{
    let script = with_lines(alloc, begin, "wait\n")?;
    let replies = with_lines(alloc, replies, "waited\n")?;
    let mut link = link_of(alloc, script.as_str(), NEVER, NEVER)?;
    let end = SessionEnd::Done;
    Ok(is_served(rt, board, front, &mut link, end, replies.as_str()))
}

/// Serves the session of a place, and counts it where it is done. That of the first place sends
/// tables and loads before it waits.
fn play<R: Wait + AllocGlobal>(
    rt: &R,
    board: &BoardLock<Core>,
    done: &AtomicU64,
    place: usize,
    front: &mut SeatFront,
)
    requires { IsAtRest board.now front.old.seat }
{
    let begins = place == 0;
    let begin = if begins { BASE } else { "" };
    let replies = if begins { REPLIES } else { "" };
    if is_done(rt, rt.alloc(), board, front, begin, replies).unwrap_or(false) {
        done.fetch_add(1, SeqCst);
    }
}

/// Serves a session by each of two seats, each in a thread of its own where one can be made.
fn play_all<R: Threads + Wait + AllocGlobal + Sync>(
    rt: &R,
    board: &BoardLock<Core>,
    done: &AtomicU64,
    fronts: &mut [SeatFront],
)
    requires { AreAtRest board.now fronts.old }
{
    let by_place = move |place: usize, front: &mut SeatFront|
        requires { IsAtRest board.now front.now.seat }
    { play(rt, board, done, place, front) };
    for_each_mut(rt, fronts, 2, &by_place);
}

/// How many of the two sessions are done over a server.
fn count_done<R: Threads + Wait + AllocGlobal + Sync>(rt: &R, server: &mut Server) -> u64
    requires { AreAtRest server.old.board server.old.sessions.items }
{
    let done = AtomicU64::new(0);
    play_all(rt, &server.board, &done, server.sessions.as_mut_slice());
    done.load(SeqCst)
}

/// How many are done over a new one.
fn count_done_anew<R: Threads + Wait + AllocGlobal + Sync>(
    rt: &R,
    hash_keys: RandomState,
) -> Result<u64, NoMemory> {
    let mut server = open_server(rt.alloc(), hash_keys, SETTINGS)?;
    Ok(count_done(rt, &mut server))
}

#[test]
fn two_sessions_are_done_over_one_board(rt: HostRuntime) -> Result<(), Fail> {
    assert_eq!(rt; count_done_anew(&rt, RandomState::new(&rt)?)?, 2);
    Ok(())
}
