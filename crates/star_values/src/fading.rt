//! A list whose front is let go. The part that contracts alone go on seeing is in `trail`.
ghost use Rattle.std.specs.Prelude.{◌≡◌, ◌<◌, ◌≤◌, ◌+◌, [], ◌∷◌, ◌++◌, length, take, drop, vec_len, vec_capacity, OnOk, OnErr};
ghost use Rattle.std.specs.Borrow.{sem};
ghost use Rattle.star_values.specs.ListLends.{lends_fading_members};

use crate::no_memory::NoMemory;
use crate::trail::Trail;
use std::alloc::Global;
use std::marker::Model;

/// A list whose first members may be let go: contracts go on seeing them, and
/// they have no bytes any more.
///
/// No call takes memory but `reserve`.
#[derive(Debug, Drop)]
pub struct Fading<T> {
    gone: Trail<T>,
    rest: Vec<T>,
}

impl<T> Model for Fading<T> {
    ghost use Rattle.std.specs.Prelude.{◌-◌, vec_len, vec_capacity};
    ghost use Rattle.star_values.specs.Faded.{Faded};

    ghost Value = { Faded T };

    ghost view = { λ list. record {
      gone = list.gone;
      rest = list.rest.items;
      room = vec_capacity list.rest - vec_len list.rest;
    } };
}

impl<T: Drop> Fading<T> {
    /// A list of no members and without room, which takes no memory yet.
    pub fn new(alloc: Global) -> Fading<T>
        ensures gone { result.gone ≡ [] }
        ensures rest { result.rest ≡ [] }
        ensures room { result.room ≡ 0 }
    {
        Fading {
            gone: Trail::new(),
            rest: Vec::new(alloc),
        }
    }

    /// The members that were not let go.
    pub fn rest(&self) -> &[T]
        ensures { result.now ≡ self.now.rest }
    {
        self.rest.as_slice()
    }

    /// Lends the members that were not let go, to be written over. How many there are
    /// stays, and so does the room.
    pub fn rest_mut(&mut self) -> &mut [T]
        ensures* writes_back { sem 𝓛 (lends_fading_members T.row self.entry result) }
        ensures members { result.now ≡ self.old.rest }
    {
        self.rest.as_mut_slice()
    }

    /// Makes room for this many more members. Where that fails, the room is what it was.
    pub fn reserve(&mut self, more: usize) -> Result<(), NoMemory>
        ensures gone { self.new.gone ≡ self.old.gone }
        ensures rest { self.new.rest ≡ self.old.rest }
        ensures enough { OnOk result (more ≤ self.new.room) }
        ensures err { OnErr result (self.new ≡ self.old) }
    {
        self.rest.reserve(more)?;
        Ok(())
    }

    /// Appends a member into room that was reserved.
    pub fn push_reserved(&mut self, member: T)
        requires { 0 < self.old.room }
        ensures gone { self.new.gone ≡ self.old.gone }
        ensures rest { self.new.rest ≡ self.old.rest ++ member ∷ [] }
        ensures room { self.new.room + 1 ≡ self.old.room }
    {
        self.rest.push_reserved(member);
    }

    /// Lets the first members go, so many of those that were not. The
    /// members behind them move down.
    pub fn forget(&mut self, count: usize)
        requires { count ≤ length self.old.rest }
        ensures gone { self.new.gone ≡ self.old.gone ++ take count self.old.rest }
        ensures rest { self.new.rest ≡ drop count self.old.rest }
        ensures room { self.old.room ≤ self.new.room }
    {
        forget(&mut self.gone, &mut self.rest, count);
    }
}

/// Moves the first members of a list, so many, behind those that are gone.
fn forget<T: Drop>(gone: &mut Trail<T>, rest: &mut Vec<T>, count: usize)
    requires { count ≤ length rest.old.items }
    ensures gone { gone.new ≡ gone.old ++ take count rest.old.items }
    ensures rest { rest.new.items ≡ drop count rest.old.items }
    ensures len { vec_len rest.new + count ≡ vec_len rest.old }
    ensures capacity { vec_capacity rest.new ≡ vec_capacity rest.old }
{
    for member in rest.drain(..count) {
        gone.push(member);
    }
}
