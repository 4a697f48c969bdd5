//! A core none of whose batches is lent to a worker, so that any event may be tried on it.
ghost use Rattle.std.specs.Prelude.{◌≡◌, ◌↔◌, IsTrue, []};
ghost use Rattle.core_state.specs.Settings.{AreWithin};
ghost use Rattle.event_core.specs.Chosen.{AreIdle};
ghost use Rattle.event_core.specs.CoreParts.{beside_of};
ghost use Rattle.event_core.specs.Seen.{state_of};

use core_driver::{finish_all, turn};
use core_state::{Event, RunSettings};
use event_core::{Core, EventsFault, Ready, StepFault};
use star_values::NoMemory;
use std::alloc::Global;
use std::hash::RandomState;
use std::thread::Threads;

/// A core, of which no batch is lent.
#[derive(Drop)]
pub(crate) struct UnlentCore {
    core: Core,
    ghost home: { (beside_of core).lent ≡ [] },
}

impl UnlentCore {
    /// A core of these settings, which hashes by these keys.
    pub(crate) fn new(
        alloc: Global,
        hash_keys: RandomState,
        settings: RunSettings,
    ) -> Result<UnlentCore, NoMemory>
        requires { AreWithin settings }
    {
        let core = Core::new(alloc, hash_keys, settings)?;
        Ok(UnlentCore { core })
    }

    /// The core, to be asked.
    pub(crate) fn as_core(&self) -> &Core
        ensures { result.now ≡ self.now.core }
    {
        &self.core
    }

    /// Whether no batch is in a hand.
    pub(crate) fn is_idle(&self) -> bool
        ensures { IsTrue result ↔ AreIdle (state_of self.now.core) }
    {
        self.core.is_idle()
    }

    /// Takes an event, if it may come.
    pub(crate) fn step(&mut self, event: Event) -> Result<(), StepFault> {
        self.core.step(event)
    }

    /// Takes events, one after the other, up to the first that is not taken.
    pub(crate) fn run_events(&mut self, events: Vec<Event>) -> Result<(), EventsFault> {
        self.core.run_events(events)
    }

    /// All batches pass the filters. None is in a hand.
    pub(crate) fn pass_all<R: Threads + Sync>(&mut self, rt: &R)
        requires { AreIdle (state_of self.old.core) }
    {
        self.core.pass_all(rt);
    }

    /// One turn. No batch is in a hand.
    pub(crate) fn turn<R: Threads + Sync>(&mut self, rt: &R) -> Result<(), NoMemory>
        requires { AreIdle (state_of self.old.core) }
    {
        turn(rt, &mut self.core)
    }

    /// Turn after turn, until every query is answered. No batch is in a hand.
    pub(crate) fn finish_all<R: Threads + Sync>(&mut self, rt: &R) -> Result<(), NoMemory>
        requires { AreIdle (state_of self.old.core) }
    {
        finish_all(rt, &mut self.core)
    }

    /// Takes the next reply of a seat, if there is one.
    pub(crate) fn take_reply(&mut self, seat: u32) -> Option<Ready> {
        self.core.take_reply(seat)
    }
}
