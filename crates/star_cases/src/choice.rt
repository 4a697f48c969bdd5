//! Which event comes next, and how it is told.
use crate::event::words_of_event;
use crate::told::{NOT_UNDERSTOOD, NOTHING, tell_number, tell_words};
use event_core::{Core, EventKind};
use std::alloc::AllocError;

/// Tells an event of the kind that a word names, and for `take` the number of a batch that wants a
/// filter.
pub(crate) fn tell_next(core: &Core, word: &str, told: &mut String) -> Result<(), AllocError> {
    if word == "take" {
        return tell_number(core.next_take(), told);
    }
    match kind_of(word) {
        None => told.push_str(NOT_UNDERSTOOD),
        Some(kind) => tell_next_of(core, kind, told),
    }
}

/// The kind of events that a word names, if it names one. A Take is not among them, since `take`
/// asks for a batch.
fn kind_of(word: &str) -> Option<EventKind> {
    match word {
        "reserve" => Some(EventKind::Reserve),
        "build" => Some(EventKind::Build),
        "start" => Some(EventKind::Start),
        "cut" => Some(EventKind::Cut),
        "carry" => Some(EventKind::Carry),
        "give" => Some(EventKind::Give),
        "distribute" => Some(EventKind::Distribute),
        "finish" => Some(EventKind::Finish),
        "clear" => Some(EventKind::Clear),
        "release" => Some(EventKind::Release),
        "reorder" => Some(EventKind::Reorder),
        "abandon" => Some(EventKind::Abandon),
        _ => None,
    }
}

/// Tells an event of a kind that may come.
fn tell_next_of(core: &Core, kind: EventKind, told: &mut String) -> Result<(), AllocError> {
    match core.next_event(kind) {
        None => told.push_str(NOTHING),
        Some(event) => {
            let words = words_of_event(&event);
            drop(event);
            tell_words(words, told)
        }
    }
}
