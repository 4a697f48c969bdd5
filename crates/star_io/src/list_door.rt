//! A door in memory that gives out links that it was given, and fails where it is told to.
ghost use Rattle.std.specs.Prelude.{◌≡◌, true, false, None, IsOk};
ghost use Rattle.star_io.specs.Door.{Accepts};
ghost use Rattle.star_io.specs.ListDoor.{door_side};

use crate::door::Door;
use crate::failed::Failed;
use crate::pair_link::PairLink;
use std::marker::Model;
use std::vec::IntoIter;

/// A door that gives out its links in order, each once, and has ended after the last of them. The
/// calls of `accept` whose numbers, counted from 0, are listed fail, and lose no link.
///
/// Numbers and counts stand still at the last value of a `u64`.
#[derive(Drop)]
pub struct ListDoor {
    links: IntoIter<PairLink>,
    fails: Vec<u64>,
    calls: u64,
    faults: u64,
    failed: bool,
    asked: Option<u16>,
    listening: bool,
    given: u64,
    ended: bool,
}

impl Model for ListDoor {
    ghost use Rattle.std.specs.Vec.Iter.{into_iter_items};
    ghost use Rattle.star_io.specs.ListDoor.{DoorState};

    ghost Value = { DoorState };

    ghost view = { λ s. record {
      links = into_iter_items s.links;
      fails = s.fails.items;
      calls = s.calls;
      faults = s.faults;
      failed = s.failed;
      asked = s.asked;
      listening = s.listening;
      given = s.given;
      ended = s.ended;
    } };
}

impl ListDoor {
    /// A door to `links`, on which no call was made yet.
    pub fn new(links: Vec<PairLink>, fails: Vec<u64>) -> ListDoor
        ensures { result ≡ record {
          links = links.items;
          fails = fails.items;
          calls = 0;
          faults = 0;
          failed = false;
          asked = None;
          listening = false;
          given = 0;
          ended = false;
        } }
    {
        ListDoor {
            links: links.into_iter(),
            fails,
            calls: 0,
            faults: 0,
            failed: false,
            asked: None,
            listening: false,
            given: 0,
            ended: false,
        }
    }
}

impl Door for ListDoor {
    ghost use Rattle.star_io.specs.ListDoor.{GivesNext, after_close, after_listen};

    type Link = PairLink;

    ghost accepting = { door_side };

    // It never fails.
    fn listen(&mut self, port: u16) -> Result<(), Failed>
        ensures ok { IsOk result }
        ensures state { self.new ≡ after_listen self.old port }
    {
        self.asked = Some(port);
        self.listening = true;
        self.failed = false;
        Ok(())
    }

    fn accept(&mut self) -> Result<Option<PairLink>, Failed>
        requires { self.old.listening ≡ true }

        // As every door.
        ensures accepts { Accepts (door_side self.old) (door_side self.new) result }

        // The listed calls fail, another gives out the next link, or tells the end.
        ensures next { GivesNext self.old self.new result }
    {
        let number = self.calls;
        self.calls = number.saturating_add(1);
        if self.fails.contains(&number) {
            self.faults = self.faults.saturating_add(1);
            self.failed = true;
            return Err(Failed);
        }
        self.failed = false;
        let link = self.links.next();
        match link {
            Some(_) => self.given = self.given.saturating_add(1),
            None => self.ended = true,
        }
        Ok(link)
    }

    fn close(&mut self)
        ensures state { self.new ≡ after_close self.old }
    {
        self.listening = false;
    }
}
