//! How a reply is taken.
ghost use Rattle.std.specs.Prelude.{◌≡◌, ◌<◌, List, length, find, map, slice_set, IsSome, IfSome};
ghost use Rattle.core_state.specs.Submitting.{with_taken};
ghost use Rattle.event_core.specs.Changes.{statements_at};
ghost use Rattle.core_parts.specs.Known.{Known};
ghost use Rattle.event_core.specs.Replies.{IsReplyOf, TakesReply, ready_of};
ghost use Rattle.core_parts.specs.Seats.{is_waited, seat_as};
ghost use Rattle.event_core.specs.Seen.{state_of};
ghost use Rattle.event_core.specs.Taking.{may_be_taken, next_number, ready_with};

use crate::laws_of_statements::{next_replies_follow_the_core, taken_replies_follow_the_core};
use crate::machine::Core;
use aggregations::Groups;
use core_parts::{Seat, Standing, Submitted, may_be_answered};
use core_state::a_reply_that_may_be_taken_is_right;
use pipeline_manager::Manager;
use reply_text::Reply;
use star_plan::Answer;
use star_values::{ListOf, NoMemory};

/// A reply that was taken.
#[derive(Debug, Drop)]
pub enum Ready {
    Whole(Reply),

    /// The groups of an answered query, whose answer is its reply.
    Grouped { snapshot: u64, groups: Groups },
}

impl Core {
    /// Takes the next reply of a seat, in the order of its statements. `None` where the seat waits
    /// for nothing, as one that is not there, or the first statement that it waits for is a query
    /// that may still be answered. No memory is taken.
    pub fn take_reply(&mut self, seat: u32) -> Option<Ready>
        ensures { TakesReply seat self.old self.new result }
    {
        let _ = &self.settings;
        if self.has_seat(seat) {
            self.take_reply_of(seat)
        } else {
            None
        }
    }

    /// The same of a seat that is there.
    fn take_reply_of(&mut self, seat: u32) -> Option<Ready>
        requires { seat < length (state_of self.old).seats }
        ensures { TakesReply seat self.old self.new result }
    {
        next_replies_follow_the_core();
        taken_replies_follow_the_core();
        a_reply_that_may_be_taken_is_right();
        let number = next_number(&self.seats.as_slice()[seat as usize], &self.manager)?;
        let snapshot = self.asked.snapshot_of(number);
        let groups = self.asked.take_kept(number);
        let standing = take_first(&mut self.seats, seat as usize);
        self.asked.settle(&self.manager);
        Some(ready_with(standing, snapshot, groups))
    }
}

/// The number of the first statement that a seat waits for, unless that is a query
/// that may still be answered.
fn next_number(seat: &Seat, manager: &Manager) -> Option<u64>
    ensures { result ≡ next_number manager.now seat.now.items }
{
    let first = seat.first()?;
    if may_be_taken(first, manager) {
        Some(first.number)
    } else {
        None
    }
}

/// Whether the reply to a statement that is waited for may be taken.
fn may_be_taken(submitted: &Submitted, manager: &Manager) -> bool
    ensures { result ≡ may_be_taken manager.now submitted.now.number submitted.now.standing }
{
    match submitted.standing {
        Standing::IsAsked => !may_be_answered(submitted.number, manager),
        _ => true,
    }
}

/// Takes the reply to the first statement that a seat waits for, and gives
/// how that statement stood.
fn take_first(seats: &mut ListOf<Seat>, seat: usize) -> Standing
    requires there { seat < length seats.old }
    requires waited { IsSome (find (λ submitted. is_waited submitted.standing)
        (statements_at (map (λ seat. seat.items) seats.old) seat)) }
    ensures first { IfSome (find (λ submitted. is_waited submitted.standing)
        (statements_at (map (λ seat. seat.items) seats.old) seat)) (λ submitted.
        submitted.standing ≡ result) }
    ensures taken { (known : List Known) →
        seat_as known (statements_at (map (λ seat. seat.items) seats.new) seat)
        ≡ with_taken (seat_as known (statements_at (map (λ seat. seat.items) seats.old) seat)) }
    ensures others { map (λ seat. seat.items) seats.new
        ≡ slice_set (map (λ seat. seat.items) seats.old) seat
        (statements_at (map (λ seat. seat.items) seats.new) seat) }
{
    seats.as_mut_slice()[seat].take()
}

/// The reply to a statement that stood so, where this was kept beside its query.
fn ready_with(standing: Standing, snapshot: u64, groups: Option<Groups>) -> Ready
    ensures { ready_of result ≡ ready_with standing snapshot groups }
{
    match (standing, groups) {
        (Standing::Waits(reply), _) => Ready::Whole(reply),
        (_, Some(groups)) => Ready::Grouped { snapshot, groups },
        (_, None) => Ready::Whole(Reply::Memory),
    }
}

impl Ready {
    /// The reply itself. Where the rows of an answer find no memory, it is `memory`.
    pub fn into_reply(self) -> Reply
        ensures { IsReplyOf self result }
    {
        match self {
            Ready::Whole(reply) => reply,
            Ready::Grouped { snapshot, groups } => match groups.finish() {
                Ok(Answer::Rows(rows)) => Reply::Answer { snapshot, rows },
                Ok(Answer::Overflow) => Reply::Overflow { snapshot },
                Err(NoMemory) => Reply::Memory,
            },
        }
    }
}
