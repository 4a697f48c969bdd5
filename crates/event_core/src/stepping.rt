//! One event after the other.
ghost use Rattle.std.specs.Prelude.{◌≡◌, ◌<◌, All, [], length, slice_get, take, OnOk, OnErr, IfErr, IfSome, IsTrue};
ghost use Rattle.star_store.specs.Text.{may_change_tables, meaning_of};
ghost use Rattle.core_state.specs.Events.{IsEnabled};
ghost use Rattle.core_state.specs.Sound.{IsSound};
ghost use Rattle.core_state.specs.Submitting.{after_submitting};
ghost use Rattle.core_parts.specs.Lent.{lent_to};
ghost use Rattle.event_core.specs.Lent.{IsAtHome};
ghost use Rattle.event_core.specs.CoreParts.{beside_of};
ghost use Rattle.event_core.specs.Seen.{state_of};
ghost use Rattle.event_core.specs.Took.{IsRefused, MayWantMemory, Submits, TakesEvent, Took, TookAll};

use crate::laws_of_steps::every_core_is_sound;
use crate::machine::Core;
use core_state::Event;
use script_reader::Statement;
use star_store::{ApplyFault, ReadStatement};
use star_values::NoMemory;

/// Why an event was not taken.
#[derive(Clone, Copy, Debug, PartialEq, Eq)]
pub enum StepFault {
    /// It may not come now.
    NotEnabled,

    /// No memory was left for it.
    Memory,
}

/// Why the submission of a statement was not taken.
#[derive(Clone, Copy, Debug, PartialEq, Eq)]
pub enum SubmitFault {
    /// It may not come now.
    NotEnabled,

    /// It may change the tables, and groups or tables are out. It is to come again once all that
    /// is out is home.
    Busy,

    /// No memory was left for it.
    Memory,
}

impl From<NoMemory> for StepFault {
    ghost use Rattle.std.specs.Prelude.{◌≡◌};
    ghost use Rattle.event_core.specs.declared.stepping.StepFault.TheVariants.{Memory};

    ghost from_gives = { λ _ fault. fault ≡ Memory };

    fn from(_none: NoMemory) -> StepFault {
        StepFault::Memory
    }
}

/// Which event of a list was the first that was not taken.
#[derive(Clone, Copy, Debug, PartialEq, Eq)]
pub struct EventsFault {
    /// Its place, from 0.
    pub at: u64,
    pub cause: StepFault,
}

impl Core {
    /// Takes an event, if it may come. A query that runs out of memory as its filter is built, or
    /// as its rows are folded, is spoiled. Where any other event runs out of memory, nothing has
    /// changed. Only a Submit and a Clear may.
    pub fn step(&mut self, event: Event) -> Result<(), StepFault>
        requires home { IsAtHome event (lent_to self.old.flights) }
        ensures { TakesEvent event self.old self.new result }
    {
        // It is called for what it ensures, here and after the event.
        every_core_is_sound(self);
        if !self.enabled(&event) {
            return Err(StepFault::NotEnabled);
        }
        self.take_enabled(event)?;
        every_core_is_sound(self);
        Ok(())
    }

    /// Takes an event that may come.
    fn take_enabled(&mut self, event: Event) -> Result<(), NoMemory>
        requires enabled { IsEnabled (state_of self.old) event }
        requires home { IsAtHome event (lent_to self.old.flights) }
        ensures taken { OnOk result (Took event (state_of self.old) (state_of self.new)) }
        ensures err { OnErr result (self.new ≡ self.old) }
        ensures memory { OnErr result (MayWantMemory event) }
        ensures beside { beside_of self.new ≡ beside_of self.old }
    {
        match event {
            Event::Submit { seat, statement } => self.submit_at_home(seat, &statement)?,
            Event::Reserve { query, slot } => self.reserve(query, slot),
            Event::Build { query, dimension } => self.build(query, dimension),
            Event::Start { query } => self.start(query),
            Event::Cut => self.cut(),
            Event::Take { worker, batch } => self.take(worker, batch),
            Event::Carry { worker, batch } => self.carry(worker, batch),
            Event::Give { worker } => self.give(worker),
            Event::Distribute { batch } => self.distribute(batch),
            Event::Finish { slot } => self.finish(slot),
            Event::Clear { slot, dimension } => self.clear(slot, dimension)?,
            Event::Release { slot } => self.release(slot),
            Event::Reorder => self.reorder(),
            Event::Abandon { query } => self.abandon(query),
        }
        Ok(())
    }

    /// Takes the submission of a statement that may come. Where the statement may change the
    /// tables no batch is lent, so the tables are never busy.
    fn submit_at_home(&mut self, seat: u32, statement: &Statement) -> Result<(), NoMemory>
        requires seat { seat < length (state_of self.old).seats }
        requires home { IsTrue (may_change_tables (meaning_of statement.now)) →
            lent_to self.old.flights ≡ [] }
        ensures ok { OnOk result
            (state_of self.new ≡ after_submitting seat statement.now (state_of self.old)) }
        ensures err { OnErr result (self.new ≡ self.old) }
        ensures beside { beside_of self.new ≡ beside_of self.old }
    {
        // This opens the core: what is out rests on batches that are lent, by its invariant.
        let _ = &self.settings;
        match self.submit(seat, &mut ReadStatement::unread(statement)) {
            Ok(()) => Ok(()),
            Err(ApplyFault::Memory) => Err(NoMemory),
            Err(ApplyFault::Busy) => unreachable!(),
        }
    }

    /// Takes the submission of a statement, as `step` does, whose block may have been read before.
    /// Where groups or tables are out it may tell a statement that may change the tables to wait
    /// until they are home.
    pub fn submit_read(
        &mut self,
        seat: u32,
        statement: &mut ReadStatement<'_>,
    ) -> Result<(), SubmitFault>
        ensures submits { Submits seat statement.old self.old self.new result }
        ensures statement { statement.new ≡ statement.old }
    {
        // It is called for what it ensures, here and after the change.
        every_core_is_sound(self);
        if !self.has_seat(seat) {
            return Err(SubmitFault::NotEnabled);
        }
        match self.submit(seat, statement) {
            Ok(()) => {
                every_core_is_sound(self);
                Ok(())
            }
            Err(ApplyFault::Busy) => Err(SubmitFault::Busy),
            Err(ApplyFault::Memory) => Err(SubmitFault::Memory),
        }
    }

    /// Takes events, one after the other, up to the first that is not taken, and reports why that
    /// one was not.
    pub fn run_events(&mut self, events: Vec<Event>) -> Result<(), EventsFault>
        requires home { All (λ event. IsAtHome event (lent_to self.old.flights)) events.items }
        ensures all { OnOk result (TookAll events.items (state_of self.old) (state_of self.new)) }
        ensures before { IfErr result (λ fault.
            TookAll (take fault.at events.items) (state_of self.old) (state_of self.new)
            × (fault.at < length events.items)) }
        ensures cause { IfErr result (λ fault.
            IfSome (slice_get events.items fault.at) (IsRefused fault.cause (state_of self.new))) }
        ensures beside { beside_of self.new ≡ beside_of self.old }
        ensures sound { IsSound (state_of self.new) }
    {
        let _ = &self.settings;
        let mut at = 0;
        'events: for event in events {
            if let Err(cause) = self.step(event) {
                return Err(EventsFault { at, cause });
            }
            at += 1;
        }
        Ok(())
    }
}
