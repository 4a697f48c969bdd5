//! How it is told what came of a line.
use crate::words::Words;
use event_core::{EventsFault, StepFault};
use star_values::NoMemory;
use std::alloc::AllocError;
use std::fmt::Write;

/// What is told where there is nothing to tell of.
pub(crate) const NOTHING: &str = "none";

/// What is told of a line that says nothing.
pub(crate) const NOT_UNDERSTOOD: &str = "not understood";

/// What is told where no memory was left.
pub(crate) const NO_MEMORY: &str = "memory";

/// Tells a number, if there is one.
pub(crate) fn tell_number(number: Option<u64>, told: &mut String) -> Result<(), AllocError> {
    match number {
        None => told.push_str(NOTHING),
        Some(number) => write!(told, "{number}"),
    }
}

/// Tells a word and its numbers.
pub(crate) fn tell_words(words: Words<'_>, told: &mut String) -> Result<(), AllocError> {
    match words {
        Words::Alone(word) => told.push_str(word),
        Words::WithOne(word, number) => write!(told, "{word} {number}"),
        Words::WithTwo(word, first, second) => write!(told, "{word} {first} {second}"),
    }
}

/// Tells what came of events that were to come one after the other.
pub(crate) fn tell_ran(done: Result<(), EventsFault>, told: &mut String) -> Result<(), AllocError> {
    match done {
        Ok(()) => told.push_str("all taken"),
        Err(EventsFault { at, cause }) => {
            let cause = cause_of(cause);
            write!(told, "fault at {at}: {cause}")
        }
    }
}

/// What came of an event: nothing is told where it was taken.
pub(crate) fn outcome_of(done: Result<(), StepFault>) -> &'static str {
    match done {
        Ok(()) => "",
        Err(cause) => cause_of(cause),
    }
}

/// Why an event was not taken.
fn cause_of(fault: StepFault) -> &'static str {
    match fault {
        StepFault::NotEnabled => "not enabled",
        StepFault::Memory => NO_MEMORY,
    }
}

/// What came of driving a core on: nothing is told where there was memory.
pub(crate) fn driven(done: Result<(), NoMemory>) -> &'static str {
    match done {
        Ok(()) => "",
        Err(NoMemory) => NO_MEMORY,
    }
}
