//! When a front over a board waits for replies before it goes on.
ghost use Rattle.std.specs.Prelude.{◌≡◌, ◌<◌, IsTrue, false};

/// How many replies a front waits for, and with fewer than how many it goes on and gives the next
/// statement.
#[derive(Debug, Drop)]
pub struct Pace {
    waiting: u64,
    most: u64,
}

impl Pace {
    /// Nothing is waited for.
    pub(crate) fn new(most: u32) -> Pace
        ensures { result ≡ record { waiting = 0; most = most } }
    {
        Pace {
            waiting: 0,
            most: u64::from(most),
        }
    }

    /// Whether some reply is waited for.
    pub(crate) fn waits(&self) -> bool
        ensures { IsTrue result → 0 < self.now.waiting }
    {
        self.waiting > 0
    }

    /// Whether the next reply is to be waited for: all of them are, or too many are waited for.
    pub(crate) fn is_patient(&self, all: bool) -> bool
        ensures all { IsTrue all → IsTrue result }
        ensures few { (result ≡ false) → self.now.waiting < self.now.most }
    {
        all || self.waiting >= self.most
    }

    /// Whether so many replies more are as many as are waited for before the front goes on.
    pub(crate) fn is_full_with(&self, more: usize) -> bool {
        self.waiting.saturating_add(more as u64) >= self.most
    }

    /// One reply more is waited for.
    pub(crate) fn give(&mut self)
        ensures { self.new.most ≡ self.old.most }
    {
        self.give_all(1);
    }

    /// So many replies more are waited for.
    pub(crate) fn give_all(&mut self, more: usize)
        ensures { self.new.most ≡ self.old.most }
    {
        self.waiting = self.waiting.saturating_add(more as u64);
    }

    /// A reply was taken.
    pub(crate) fn take(&mut self)
        ensures { self.new.most ≡ self.old.most }
    {
        self.waiting = self.waiting.saturating_sub(1);
    }

    /// Nothing is waited for any more.
    pub(crate) fn stop(&mut self)
        ensures { self.new ≡ record { waiting = 0; most = self.old.most } }
    {
        self.waiting = 0;
    }
}
