//! Sessions through `serve`, each begun after the link of the last was dropped. Each sees what the
//! earlier ones committed. After a session whose link failed, a load is still taken.
use crate::served::{NEVER, host_of, link_of};
use crate::workers::{MOST_LOOKS, REPLIES, SCRIPT};
use core_state::RunSettings;
use script_run::Host;
use session_server::serve;
use star_io::{Door, Failed, Link, PairLink, ServeEnd, Sink, Source};
use std::alloc::{AllocError, Global};
use std::sync::Wait;
use std::sync::atomic::Ordering::SeqCst;
use std::sync::atomic::{AtomicBool, AtomicU64};
use std::test::Fail;
use std::thread::{Threads, yield_now};
use std::vec::IntoIter;
use worker_gate::NoGate;

/// A server with a worker, and two seats for sessions.
const SETTINGS: RunSettings = RunSettings {
    workers: 1,
    slots: 64,
    batch: 256,
    seats: 4,
};

/// The first session makes the tables, loads them and asks, as a run does. The second and the
/// fourth load one sale more, and ask how many there are.
const MORE: &str = "load sales\n1,7\n.\nselect count(*) from sales\n";

/// The third only asks.
const QUERY: &str = "select count(*) from sales\n";

/// The number of the session whose link may fail.
const THIRD: u64 = 2;

/// How many sessions there are.
const SESSIONS: u64 = 4;

/// More calls than a link has.
const MOST_CALLS: u64 = 100;

/// The replies to a session.
fn replies_of(session: u64) -> &'static str {
    match session {
        0 => REPLIES,
        1 => "commit 3 rows 1\nanswer 3 rows 1\n5\n",
        THIRD => "answer 3 rows 1\n5\n",
        _ => "commit 4 rows 1\nanswer 4 rows 1\n6\n",
    }
}

/// What is noted of the links of a door.
#[derive(Drop)]
struct Notes {
    /// How many were let go.
    gone: AtomicU64,

    /// Whether a call on the third failed.
    failed: AtomicBool,

    /// Whether a link was not let go in time, or had other replies.
    wrong: AtomicBool,
}

impl Notes {
    /// Nothing is noted yet.
    fn new() -> Notes {
        Notes {
            gone: AtomicU64::new(0),
            failed: AtomicBool::new(false),
            wrong: AtomicBool::new(false),
        }
    }

    /// Waits until so many links were let go.
    fn wait_for(&self, links: u64) {
        for _ in 0..MOST_LOOKS {
            if self.gone.load(SeqCst) >= links {
                return;
            }
            yield_now();
        }
        self.wrong.store(true, SeqCst);
    }

    /// Notes that the link of a session was let go, to which this was written: the replies, or a
    /// front of them to the third session, where a call on its link failed.
    fn let_go(&self, session: u64, failed: bool, written: &[u8]) {
        let replies = replies_of(session).as_bytes();
        if failed && session == THIRD {
            self.failed.store(true, SeqCst);
            if !replies.starts_with(written) {
                self.wrong.store(true, SeqCst);
            }
        } else if written != replies {
            self.wrong.store(true, SeqCst);
        }
        self.gone.fetch_add(1, SeqCst);
    }

    /// Whether every link was let go in its turn, with the replies to its session.
    fn are_right(&self) -> bool {
        self.gone.load(SeqCst) == SESSIONS && !self.wrong.load(SeqCst)
    }
}

/// The link of a session, of which is noted when it is let go.
struct Watched<'a> {
    link: PairLink,
    session: u64,

    /// Whether a call on it failed.
    failed: bool,

    notes: &'a Notes,
}

impl Drop for Watched<'_> {
    fn drop(self) {
        let Watched {
            link,
            session,
            failed,
            notes,
        } = self;
        notes.let_go(session, failed, link.bytes());
    }
}

impl Source for Watched<'_> {
    ghost use Rattle.std.specs.Prelude.{Some};
    ghost use Rattle.star_io.specs.PairLink.{reading_of, writing_of};

    ghost reading = { λ s. reading_of s.link };

    ghost writing_side = { λ s. Some (writing_of s.link) };

    fn read(&mut self, into: &mut [u8]) -> Result<usize, Failed> {
        let read = self.link.read(into);
        self.failed |= read.is_err();
        read
    }
}

impl Sink for Watched<'_> {
    ghost use Rattle.std.specs.Prelude.{Some};
    ghost use Rattle.star_io.specs.PairLink.{reading_of, writing_of};

    ghost writing = { λ s. writing_of s.link };

    ghost reading_side = { λ s. Some (reading_of s.link) };

    fn write(&mut self, bytes: &[u8]) -> Result<usize, Failed> {
        let written = self.link.write(bytes);
        self.failed |= written.is_err();
        written
    }
}

impl Link for Watched<'_> {
    ghost use Rattle.std.proofs.Common.{rules};

    ghost writing_apart = { Prim.search rules };

    ghost reading_apart = { Prim.search rules };
}

/// A door that hands its links out in order, each only once the one before was let go. No call on
/// it fails.
#[derive(Drop)]
struct InTurn<'a> {
    links: IntoIter<PairLink>,
    asked: Option<u16>,
    listening: bool,
    given: u64,
    ended: bool,
    notes: &'a Notes,
}

impl<'a> InTurn<'a> {
    /// A door to links, on which no call was made yet.
    fn new(links: Vec<PairLink>, notes: &'a Notes) -> InTurn<'a> {
        InTurn {
            links: links.into_iter(),
            asked: None,
            listening: false,
            given: 0,
            ended: false,
            notes,
        }
    }
}

impl<'a> Door for InTurn<'a> {
    ghost use Rattle.std.specs.Prelude.{false};

    type Link = Watched<'a>;

    ghost accepting = { λ s. record {
      faults = 0;
      failed = false;
      asked = s.asked;
      listening = s.listening;
      given = s.given;
      ended = s.ended;
    } };

    fn listen(&mut self, port: u16) -> Result<(), Failed> {
        self.asked = Some(port);
        self.listening = true;
        Ok(())
    }

    fn accept(&mut self) -> Result<Option<Watched<'a>>, Failed> {
        let session = self.given;
        self.notes.wait_for(session);
        match self.links.next() {
            Some(link) => {
                self.given = session.saturating_add(1);
                Ok(Some(Watched {
                    link,
                    session,
                    failed: false,
                    notes: self.notes,
                }))
            }
            None => {
                self.ended = true;
                Ok(None)
            }
        }
    }

    fn close(&mut self) {
        self.listening = false;
    }
}

/// Adds the links of the four sessions. Of the third the read and the write of these numbers fail.
fn add_links(
    alloc: Global,
    links: &mut Vec<PairLink>,
    read_fault: u64,
    write_fault: u64,
) -> Result<(), AllocError> {
    links.push(link_of(alloc, SCRIPT, NEVER, NEVER)?)?;
    links.push(link_of(alloc, MORE, NEVER, NEVER)?)?;
    links.push(link_of(alloc, QUERY, read_fault, write_fault)?)?;
    links.push(link_of(alloc, MORE, NEVER, NEVER)?)?;
    Ok(())
}

/// Serves the four sessions, and says whether the door ended behind them and each was replied to.
fn are_served<R: Threads + Wait + Sync>(
    host: Host<&R>,
    links: Vec<PairLink>,
    notes: &Notes,
) -> bool {
    let mut door = InTurn::new(links, notes);
    let end = serve(host, SETTINGS, 5432, 0, &mut door, &NoGate);
    end == ServeEnd::Ended && notes.are_right()
}

/// Serves the four sessions, of which the third has a link that fails at the read and at the write
/// of these numbers.
fn are_served_with<R: Threads + Wait + Sync>(
    host: Host<&R>,
    read_fault: u64,
    write_fault: u64,
    notes: &Notes,
) -> Result<bool, AllocError> {
    let mut links = Vec::new(host.alloc);
    add_links(host.alloc, &mut links, read_fault, write_fault)?;
    Ok(are_served(host, links, notes))
}

/// Whether all are served whichever read of the third link fails, or else whichever write: each in
/// turn, until no call has the number.
fn are_always_served<R: Threads + Wait + Sync>(
    host: Host<&R>,
    of_reads: bool,
) -> Result<bool, AllocError> {
    for number in 0..MOST_CALLS {
        let notes = Notes::new();
        let read_fault = if of_reads { number } else { NEVER };
        let write_fault = if of_reads { NEVER } else { number };
        if !are_served_with(host, read_fault, write_fault, &notes)? {
            return Ok(false);
        }
        if !notes.failed.load(SeqCst) {
            return Ok(number > 0);
        }
    }
    Ok(false)
}

#[test]
fn sessions_see_what_those_before_them_committed(rt: HostRuntime) -> Result<(), Fail> {
    let host = host_of(&rt)?;
    assert!(rt; are_always_served(host, true)?, "where a read fails");
    assert!(rt; are_always_served(host, false)?, "where a write fails");
    Ok(())
}
