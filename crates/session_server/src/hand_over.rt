//! How a connection goes from the reception to a session, and how the reception learns that a
//! session is free again. By which seats sessions are served is in `seats`.
ghost use Rattle.std.specs.Prelude.{◌≡◌, ◌+◌, ◌≤◌, IsSome, IfOk, IfNone};

use crossbeam_channel::{Receiver, Sender, bounded};
use star_values::NoMemory;
use std::alloc::Global;
use std::sync::Wait;

/// The sessions that are free, as the reception knows them, and the way to them.
#[derive(Drop)]
pub(crate) struct FreeSessions<L> {
    /// The way to the sessions, as long as connections are taken.
    to: Option<Sender<L>>,

    /// Each session says here that its connection has ended.
    ended: Receiver<()>,

    /// How many sessions have no connection, but for those that said so since.
    pub free: usize,
}

/// The connections that come to the sessions, and the way back to the reception.
#[derive(Drop)]
pub(crate) struct Connections<L> {
    links: Receiver<L>,
    ended: Sender<()>,
}

/// Makes the two ways between the reception and at most so many sessions. No session is free yet.
/// Each way holds a message for each session, so that no message needs memory or has to wait.
pub(crate) fn make_ways<L: Drop>(
    alloc: Global,
    sessions: usize,
) -> Result<(FreeSessions<L>, Connections<L>), NoMemory>
    ensures { IfOk result (λ ways. ways.0.free ≡ 0) }
{
    let most = sessions.max(1);
    let (to, links) = bounded(alloc, most)?;
    let (ended, ends) = bounded(alloc, most)?;
    let to = Some(to);
    let free = FreeSessions {
        to,
        ended: ends,
        free: 0,
    };
    Ok((free, Connections { links, ended }))
}

impl<L: Drop> FreeSessions<L> {
    /// So many sessions have begun, each without a connection.
    pub fn begin(&mut self, sessions: usize)
        ensures { self.new.free ≡ sessions }
    {
        self.free = sessions;
        if sessions == 0 {
            self.close();
        }
    }

    /// Waits until a session is free, unless there is no session.
    pub fn wait<R: Wait>(&mut self, rt: &R)
        ensures { self.old.free ≤ self.new.free }
    {
        if self.free == 0 && self.to.is_some() && self.ended.recv(rt).is_ok() {
            self.free = 1;
        }
    }

    /// Gives a connection to a session that is free. It is returned if there is none.
    pub fn give<R: Wait>(&mut self, rt: &R, link: L) -> Option<L>
        ensures taken { IfNone result (self.new.free + 1 ≡ self.old.free) }
        ensures left { IsSome result → self.new.free ≡ self.old.free }
    {
        let Some(to) = &self.to else {
            return Some(link);
        };
        if self.free == 0 {
            return Some(link);
        }
        match to.send(rt, link) {
            Ok(()) => {
                self.free -= 1;
                None
            }
            Err(refused) => Some(refused.into_inner()),
        }
    }

    /// Ends the way to the sessions: each of them ends after the connections that it was given.
    pub fn close(&mut self)
        ensures { self.new.free ≡ self.old.free }
    {
        drop(self.to.take());
    }
}

impl<L: Drop> Connections<L> {
    /// Waits for the next connection. There is none once the way is closed.
    pub fn next<R: Wait>(&self, rt: &R) -> Option<L> {
        self.links.recv(rt).ok()
    }

    /// Tells the reception that a connection has ended, so that its session is free again.
    pub fn end<R: Wait>(&self, rt: &R) {
        // The reception is there as long as a session is.
        let _ = self.ended.send(rt, ());
    }
}
