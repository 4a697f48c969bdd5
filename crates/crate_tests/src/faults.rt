//! Runs and sessions of which a read or a write fails in mid-stream.
ghost use Rattle.std.specs.Prelude.{◌≤◌};
ghost use Rattle.script_run.specs.Home.{IsAtRest};

use crate::served::{NEVER, SETTINGS, host_of, link_of};
use board_lock::BoardLock;
use core_state::RunSettings;
use event_core::Core;
use script_run::{Host, SeatFront, run_script};
use session_server::{SessionEnd, open_server, serve_session};
use star_io::{ListSink, PairLink, PieceSource, RunEnd};
use star_values::NoMemory;
use std::alloc::{AllocError, Global};
use std::hash::RandomState;
use std::sync::Wait;
use std::test::Fail;
use std::thread::Threads;
use worker_gate::NoGate;

/// Two stores and four sales.
pub(crate) const BASE: &str = "dimension store (id int key, city text)
fact sales (store_id int references store, units int)
load store
1,Oslo
2,Rome
.
load sales
1,5
2,1
1,10
2,3
.
";

/// A statement of each form with its reply, those of the first example in
/// front. A comment has none.
const STEPS: [(&str, &str); 10] = [
    ("dimension store (id int key, city text)\n", "table store\n"),
    (
        "fact sales (store_id int references store, units int)\n",
        "table sales\n",
    ),
    ("load store\n1,Oslo\n2,Rome\n.\n", "commit 1 rows 2\n"),
    ("load sales\n1,5\n2,1\n1,10\n2,3\n.\n", "commit 2 rows 4\n"),
    (
        "select city, sum(units) from sales, store where store_id = id group by city\n",
        "answer 2 rows 2\n'Oslo',15\n'Rome',4\n",
    ),
    ("-- a comment\n", ""),
    ("wait\n", "waited\n"),
    ("delete from sales where units = 1\n", "commit 3 rows 1\n"),
    ("select count(*) form sales\n", "refused 1 syntax at 16\n"),
    ("select count(*) from sales\n", "answer 3 rows 1\n3\n"),
];

/// How many bytes a read gives.
const PIECE: u64 = 7;

/// More calls than a run makes.
const MOST_CALLS: u64 = 1000;

/// The script that these steps are.
fn script_of(alloc: Global, steps: &[(&str, &str)]) -> Result<Vec<u8>, AllocError> {
    let mut script = Vec::new(alloc);
    for step in steps {
        script.extend_from_slice(step.0.as_bytes())?;
    }
    Ok(script)
}

/// The replies to those of the steps that are whole within so many bytes.
fn replies_within(
    alloc: Global,
    steps: &[(&str, &str)],
    bytes: u64,
) -> Result<Vec<u8>, AllocError> {
    let mut replies = Vec::new(alloc);
    let mut end = 0u64;
    for step in steps {
        end = end.saturating_add(step.0.len() as u64);
        if end <= bytes {
            replies.extend_from_slice(step.1.as_bytes())?;
        }
    }
    Ok(replies)
}

/// Which calls of a run fail.
#[derive(Clone, Copy)]
enum Side {
    Reads,
    Writes,
}

/// What came of a run of the steps of which one call may fail.
#[derive(Clone, Copy, PartialEq, Eq)]
enum Came {
    /// It ended there, with the replies that are due then.
    Cut,

    /// There is no such call, and all replies were written.
    Whole,

    /// Something else.
    Wrong,
}

/// Runs a script with so many workers.
fn end_of<R: Threads + Wait + Sync>(
    host: Host<&R>,
    workers: u32,
    source: &mut PieceSource,
    sink: &mut ListSink,
) -> RunEnd
    requires { workers ≤ 16 }
{
    let settings = RunSettings {
        workers,
        slots: 64,
        batch: 1,
        seats: workers + 1,
    };
    run_script(host, settings, source, sink, &NoGate).end
}

/// What a run is that ended so, and wrote this of all replies, where a read after which these are
/// due might have failed, or a write.
fn came_of(end: RunEnd, written: &[u8], all: &[u8], due: &[u8]) -> Came {
    let is_due = match end {
        RunEnd::SomeRefused => written == all,
        RunEnd::ReadFault => written == due,
        RunEnd::WriteFault => written.len() < all.len() && all.starts_with(written),
        RunEnd::Clean | RunEnd::NoMemory | RunEnd::ScriptLimit => false,
    };
    match end {
        _ if !is_due => Came::Wrong,
        RunEnd::SomeRefused => Came::Whole,
        _ => Came::Cut,
    }
}

/// What comes of a run of the steps whose call of this number fails: its source gives 7 bytes at
/// once, and its sink takes 8.
fn cut_at<R: Threads + Wait + Sync>(
    host: Host<&R>,
    workers: u32,
    side: Side,
    call: u64,
) -> Result<Came, AllocError>
    requires { workers ≤ 16 }
{
    let (read, write) = match side {
        Side::Reads => (call, NEVER),
        Side::Writes => (NEVER, call),
    };
    let all = replies_within(host.alloc, &STEPS, NEVER)?;
    let due = replies_within(host.alloc, &STEPS, call.saturating_mul(PIECE))?;
    let mut source = PieceSource::new(
        script_of(host.alloc, &STEPS)?,
        7,
        [read].to_vec(host.alloc)?,
    );
    let mut sink = ListSink::new(host.alloc, 8, [write].to_vec(host.alloc)?);
    let end = end_of(host, workers, &mut source, &mut sink);
    Ok(came_of(end, sink.bytes(), all.as_slice(), due.as_slice()))
}

/// Whether a run of the steps is cut at each of its calls in turn.
fn are_cut<R: Threads + Wait + Sync>(
    host: Host<&R>,
    workers: u32,
    side: Side,
) -> Result<bool, AllocError>
    requires { workers ≤ 16 }
{
    for call in 0..MOST_CALLS {
        match cut_at(host, workers, side, call)? {
            Came::Cut => {}
            Came::Whole => return Ok(call > 20),
            Came::Wrong => return Ok(false),
        }
    }
    Ok(false)
}

#[test]
fn a_run_ends_at_each_read_and_at_each_write_that_fails(rt: HostRuntime) -> Result<(), Fail> {
    let host = host_of(&rt)?;
    assert!(rt; are_cut(host, 0, Side::Reads)?);
    assert!(rt; are_cut(host, 0, Side::Writes)?);
    assert!(rt; are_cut(host, 2, Side::Reads)?);
    assert!(rt; are_cut(host, 2, Side::Writes)?);
    Ok(())
}

/// Whether the session of a link ends so, with these replies.
pub(crate) fn is_served<R: Wait>(
    rt: &R,
    board: &BoardLock<Core>,
    front: &mut SeatFront,
    link: &mut PairLink,
    end: SessionEnd,
    replies: &str,
) -> bool
    requires { IsAtRest board.now front.old.seat }
    ensures { IsAtRest board.now front.new.seat }
{
    let ended = serve_session(rt, board, front, link, &NoGate);
    ended == end && link.bytes() == replies.as_bytes()
}

/// Whether both sessions by one seat are served so: the fourth write of the first fails, in its
/// answer.
fn both_are_served<R: Wait>(
    rt: &R,
    alloc: Global,
    board: &BoardLock<Core>,
    front: &mut SeatFront,
) -> Result<bool, AllocError>
    requires { IsAtRest board.now front.old.seat }
{
    let script = "fact f (v int)\nload f\n1\n2\n.\nselect sum(v) from f\n";
    let mut link = link_of(alloc, script, NEVER, 4)?;
    let replies = "table f\ncommit 1 rows 2\nanswer 1";
    let first = is_served(rt, board, front, &mut link, SessionEnd::WriteFault, replies);
    let mut link = link_of(alloc, script, NEVER, NEVER)?;
    let replies = "refused 13 out of order\ncommit 2 rows 2\nanswer 2 rows 1\n6\n";
    let second = is_served(rt, board, front, &mut link, SessionEnd::Done, replies);
    Ok(first && second)
}

/// Whether they are so over a new core.
fn are_served<R: Wait>(rt: &R, alloc: Global, hash_keys: RandomState) -> Result<bool, NoMemory> {
    let mut server = open_server(alloc, hash_keys, SETTINGS)?;
    Ok(both_are_served(rt, alloc, &server.board, &mut server.own)?)
}

#[test]
fn a_session_goes_on_behind_one_that_was_cut_off(rt: HostRuntime) -> Result<(), Fail> {
    assert!(rt; are_served(&rt, rt.alloc(), RandomState::new(&rt)?)?);
    Ok(())
}
