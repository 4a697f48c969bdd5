//! A core, and what is told of it line by line.
ghost use Rattle.std.specs.Prelude.{◌≡◌, false};
ghost use Rattle.core_state.specs.Settings.{AreWithin};

use crate::answers::answer;
use crate::choice::tell_next;
use crate::drive::{drive_of, drive_on};
use crate::event::{event_of, read_events};
use crate::question::question_of;
use crate::told::{NO_MEMORY, NOT_UNDERSTOOD, outcome_of, tell_ran};
use crate::unlent::UnlentCore;
use core_state::{Event, RunSettings};
use script_reader::{NextStatement, ScriptReader};
use star_values::NoMemory;
use std::alloc::{AllocError, Global};
use std::hash::RandomState;
use std::thread::Threads;

/// A core, and the script that its seat 0 submits.
#[derive(Drop)]
pub(crate) struct Story {
    alloc: Global,
    core: UnlentCore,
    script: ScriptReader,
    ghost goes_on: { script.ended ≡ false },
}

impl Story {
    /// A story that begins, with a core of these settings, which hashes by these keys.
    pub(crate) fn new(
        alloc: Global,
        hash_keys: RandomState,
        settings: RunSettings,
    ) -> Result<Story, NoMemory>
        requires { AreWithin settings }
    {
        let core = UnlentCore::new(alloc, hash_keys, settings)?;
        Ok(Story {
            alloc,
            core,
            script: ScriptReader::new(alloc),
        })
    }

    /// Tells what comes of a line that says what happens to the core, or asks something of it.
    pub(crate) fn tell<R: Threads + Sync>(
        &mut self,
        rt: &R,
        line: &str,
        told: &mut String,
    ) -> Result<(), AllocError> {
        if let Some(text) = line.strip_prefix("> ") {
            self.submit_line(text, told)
        } else if let Some(events) = line.strip_prefix("events ") {
            self.run(events, told)
        } else if let Some(event) = line.strip_prefix("may ") {
            told.push_str(self.may(event))
        } else if let Some(kind) = line.strip_prefix("next ") {
            tell_next(self.core.as_core(), kind, told)
        } else if let Some(outcome) = self.step(line) {
            told.push_str(outcome)
        } else if let Some(drive) = drive_of(line) {
            told.push_str(drive_on(rt, &mut self.core, drive))
        } else if let Some(question) = question_of(line) {
            answer(self.alloc, &mut self.core, question, told)
        } else {
            told.push_str(NOT_UNDERSTOOD)
        }
    }

    /// A line of the script more, by which at most one statement is whole: that is submitted.
    fn submit_line(&mut self, text: &str, told: &mut String) -> Result<(), AllocError> {
        let line = format!(in self.alloc; "{text}\n")?;
        let outcome = self.submit(line.as_str().as_bytes());
        drop(line);
        told.push_str(outcome)
    }

    /// What comes of these bytes of the script.
    fn submit(&mut self, bytes: &[u8]) -> &'static str {
        if self.script.feed(bytes).is_err() {
            return "not read";
        }
        match self.script.next_statement() {
            Ok(NextStatement::Got(statement)) => {
                outcome_of(self.core.step(Event::Submit { seat: 0, statement }))
            }
            Ok(NextStatement::NotYet | NextStatement::End) => "",
            Err(NoMemory) => NO_MEMORY,
        }
    }

    /// Events come, one after the other.
    fn run(&mut self, line: &str, told: &mut String) -> Result<(), AllocError> {
        let mut events = Vec::new(self.alloc);
        match read_events(line, &mut events) {
            Ok(true) => tell_ran(self.core.run_events(events), told),
            Ok(false) => {
                drop(events);
                told.push_str(NOT_UNDERSTOOD)
            }
            Err(error) => {
                drop(events);
                Err(error)
            }
        }
    }

    /// An event comes, where a line says one.
    fn step(&mut self, line: &str) -> Option<&'static str> {
        let event = event_of(line)?;
        Some(outcome_of(self.core.step(event)))
    }

    /// Whether an event may come.
    fn may(&self, line: &str) -> &'static str {
        match event_of(line) {
            None => NOT_UNDERSTOOD,
            Some(event) => {
                let may = self.core.as_core().enabled(&event);
                drop(event);
                if may { "yes" } else { "no" }
            }
        }
    }
}
