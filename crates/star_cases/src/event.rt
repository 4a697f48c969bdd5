//! How an event is written: its word, and its numbers behind it.
use crate::words::{Words, byte_of, short_of, words_of};
use core_state::Event;
use std::alloc::AllocError;

/// The event that a line says, if it says one.
pub(crate) fn event_of(line: &str) -> Option<Event> {
    match words_of(line)? {
        Words::Alone(word) => alone(word),
        Words::WithOne(word, number) => with_one(word, number),
        Words::WithTwo(word, first, second) => with_two(word, first, second),
    }
}

/// Adds the events that a line says, parted by commas, up to the first part that says none. Answers
/// whether each part says one.
pub(crate) fn read_events(line: &str, events: &mut Vec<Event>) -> Result<bool, AllocError> {
    for part in line.split(',') {
        match event_of(part) {
            None => return Ok(false),
            Some(event) => events.push(event)?,
        }
    }
    Ok(true)
}

/// The event of a word alone.
fn alone(word: &str) -> Option<Event> {
    match word {
        "cut" => Some(Event::Cut),
        "reorder" => Some(Event::Reorder),
        _ => None,
    }
}

/// The event of a word and a number.
fn with_one(word: &str, number: u64) -> Option<Event> {
    match word {
        "start" => Some(Event::Start { query: number }),
        "abandon" => Some(Event::Abandon { query: number }),
        "distribute" => Some(Event::Distribute { batch: number }),
        "give" => Some(Event::Give {
            worker: short_of(number)?,
        }),
        "finish" => Some(Event::Finish {
            slot: short_of(number)?,
        }),
        "release" => Some(Event::Release {
            slot: short_of(number)?,
        }),
        _ => None,
    }
}

/// The event of a word and two numbers.
fn with_two(word: &str, first: u64, second: u64) -> Option<Event> {
    match word {
        "reserve" => Some(Event::Reserve {
            query: first,
            slot: short_of(second)?,
        }),
        "build" => Some(Event::Build {
            query: first,
            dimension: byte_of(second)?,
        }),
        "take" => Some(Event::Take {
            worker: short_of(first)?,
            batch: second,
        }),
        "carry" => Some(Event::Carry {
            worker: short_of(first)?,
            batch: second,
        }),
        "clear" => Some(Event::Clear {
            slot: short_of(first)?,
            dimension: byte_of(second)?,
        }),
        _ => None,
    }
}

/// How an event of those that have a kind is written.
pub(crate) fn words_of_event(event: &Event) -> Words<'static> {
    match event {
        Event::Reserve { query, slot } => Words::WithTwo("reserve", *query, u64::from(*slot)),
        Event::Build { query, dimension } => {
            Words::WithTwo("build", *query, u64::from(*dimension))
        }
        Event::Start { query } => Words::WithOne("start", *query),
        Event::Cut => Words::Alone("cut"),
        Event::Distribute { batch } => Words::WithOne("distribute", *batch),
        Event::Finish { slot } => Words::WithOne("finish", u64::from(*slot)),
        Event::Clear { slot, dimension } => {
            Words::WithTwo("clear", u64::from(*slot), u64::from(*dimension))
        }
        Event::Release { slot } => Words::WithOne("release", u64::from(*slot)),
        _ => Words::Alone("another"),
    }
}
