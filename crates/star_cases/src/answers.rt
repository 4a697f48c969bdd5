//! What is answered to a question.
use crate::question::Question;
use crate::told::{NO_MEMORY, NOTHING, tell_number};
use crate::unlent::UnlentCore;
use event_core::{Core, Ready};
use reply_text::{Reply, print_reply};
use star_values::{ByteText, NoMemory};
use std::alloc::{AllocError, Global};
use std::fmt::Write;
use std::str;

/// How many replies are taken for one line at most.
const MOST_REPLIES: u32 = 1000;

/// Tells what is answered to a question.
pub(crate) fn answer(
    alloc: Global,
    core: &mut UnlentCore,
    question: Question,
    told: &mut String,
) -> Result<(), AllocError> {
    match question {
        Question::Reply(seat) => tell_replies(alloc, core, seat, 1, told),
        Question::Replies(seat) => tell_replies(alloc, core, seat, MOST_REPLIES, told),
        Question::Life(query) => tell_life(core.as_core(), query, told),
        Question::Pending(seat) => tell_number(core.as_core().first_pending(seat), told),
        Question::Tally(dimension) => tell_tally(core.as_core(), dimension, told),
        Question::Batches => tell_number(Some(u64::from(core.as_core().batch_count())), told),
        Question::Positions => tell_number(Some(core.as_core().positions_cut()), told),
        Question::Commits => tell_number(Some(core.as_core().commits()), told),
    }
}

/// Takes so many replies of a seat, or as many as there are, and tells them.
fn tell_replies(
    alloc: Global,
    core: &mut UnlentCore,
    seat: u32,
    most: u32,
    told: &mut String,
) -> Result<(), AllocError> {
    for count in 0..most {
        if tell_next_reply(alloc, core, seat, told)? {
            continue;
        }
        return if count == 0 {
            told.push_str(NOTHING)
        } else {
            Ok(())
        };
    }
    Ok(())
}

/// Takes the next reply of a seat and tells it. Answers whether there is one.
fn tell_next_reply(
    alloc: Global,
    core: &mut UnlentCore,
    seat: u32,
    told: &mut String,
) -> Result<bool, AllocError> {
    match core.take_reply(seat) {
        None => Ok(false),
        Some(ready) => {
            tell_ready(alloc, ready, told)?;
            Ok(true)
        }
    }
}

/// Tells a reply that was taken.
fn tell_ready(alloc: Global, ready: Ready, told: &mut String) -> Result<(), AllocError> {
    let reply = ready.into_reply();
    let done = tell_reply(alloc, &reply, told);
    drop(reply);
    done
}

/// Tells the text of a reply, each line with its line feed.
fn tell_reply(alloc: Global, reply: &Reply, told: &mut String) -> Result<(), AllocError> {
    let mut text = ByteText::new(alloc);
    let printed = print_reply(reply, &mut text);
    tell_printed(printed, text.as_bytes(), told)
}

/// Tells a text of bytes, if there was memory for it.
fn tell_printed(
    printed: Result<(), NoMemory>,
    text: &[u8],
    told: &mut String,
) -> Result<(), AllocError> {
    if printed.is_err() {
        return told.push_str(NO_MEMORY);
    }
    match str::from_utf8(text) {
        Ok(text) => told.push_str(text),
        Err(_) => told.push_str("no text"),
    }
}

/// Tells the life of a query, if there is such a query.
fn tell_life(core: &Core, query: u64, told: &mut String) -> Result<(), AllocError> {
    match core.life(query) {
        None => told.push_str(NOTHING),
        Some(life) => write!(told, "{life:?}"),
    }
}

/// Tells what the filter of a dimension did, if there is one.
fn tell_tally(core: &Core, dimension: u8, told: &mut String) -> Result<(), AllocError> {
    if !core.is_filter(dimension) {
        return told.push_str("no filter");
    }
    let tally = core.tally(dimension);
    let (probes, drops) = (tally.probes, tally.drops);
    write!(told, "{probes} probes {drops} drops")
}
