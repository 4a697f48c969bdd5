//! What a seat knows of a core between two times that it has it, and how its course goes on.
ghost use Rattle.std.specs.Prelude.{◌≡◌, ℕ, ◌+◌, ◌<◌, ◌≤◌, List, [], ◌∷◌, ◌++◌, length, slice_get, take, Some};
ghost use Rattle.script_reader.specs.declared.statement.Statement.{Statement};
ghost use Rattle.reply_text.specs.declared.reply.Reply.{Reply};
ghost use Rattle.reply_text.specs.declared.reply.Reply.TheVariants.{Memory};
ghost use Rattle.core_state.specs.Answers.{IsTakenAs};
ghost use Rattle.core_state.specs.Cutting.{frame_words};
ghost use Rattle.core_state.specs.Events.{IsEnabled, LeavesSeats, after_event, after_want};
ghost use Rattle.core_state.specs.Flown.{IsSoundBatch, IsSoundHand};
ghost use Rattle.core_state.specs.Fronts.{Goes, IsDue, Passes, SubmitsRow, TakesRow};
ghost use Rattle.core_state.specs.Movers.{AreOfSeat, IsOfSeat};
ghost use Rattle.core_state.specs.Rows.{AbandonsRow, IsMindful, Sight, empty_row, made_by, row_of, sight_of};
ghost use Rattle.core_state.specs.Sent.{Given, IsReplyBehind, Lost, Sent, pending_behind};
ghost use Rattle.core_state.specs.Sound.{IsSound};
ghost use Rattle.core_state.specs.State.{Entry, Flight, Hand, Pending, State};
ghost use Rattle.core_state.specs.Steps.{MaySpoil, MayStep, MayStepAll, Step, after_step, after_steps};
ghost use Rattle.core_state.specs.Submitting.{Ready, after_abandoning, after_submitting, after_taking, next_ready};
ghost use Rattle.core_state.specs.Tables.{tables_of};
ghost use Rattle.core_state.specs.declared.event.Event.{Event};

use crate::laws_of_answers::a_reply_that_may_be_taken_is_right;
use crate::laws_of_runs::every_step_keeps_a_core_sound;
use query_meaning::{accepted_histories_are_settled, later_changes_are_not_seen};
use star_store::outcomes_fit_the_tables;

/// A row tells the reply: on any core with this row, what the seat may take as the reply to
/// the first statement that it waits for is right for that statement behind the entries before
/// it, whatever came since.
pub fn a_row_tells_the_reply()
    ensures { (state : State) (seat number : ℕ) (before since : List Entry) (statement : Statement)
        (ready : Ready) (reply : Reply) → IsSound state → state.entries ≡ before ++ since →
        slice_get (row_of state seat).pending 0 ≡ Some (pending_behind number before statement) →
        next_ready state seat ≡ Some ready → IsTakenAs ready reply →
        IsReplyBehind before statement reply }
{
    a_reply_that_may_be_taken_is_right();
    outcomes_fit_the_tables();
    accepted_histories_are_settled();
    later_changes_are_not_seen();
}

/// A statement has the next number, stands behind the entries that were seen, and makes its own; a
/// reply that is taken is the first. Neither moves another row.
pub fn a_statement_and_a_reply_move_the_row_of_their_seat()
    ensures submitted { (state : State) (seat : ℕ) (statement : Statement) →
        seat < length state.seats →
        SubmitsRow seat (state.numbers.statement + 1) statement
        (sight_of state seat) (sight_of (after_submitting seat statement state) seat) }
    ensures taken { (state : State) (seat : ℕ) (pending : Pending) →
        slice_get (row_of state seat).pending 0 ≡ Some pending →
        TakesRow pending (sight_of state seat) (sight_of (after_taking seat state) seat) }
    ensures mindful { (state : State) (seat : ℕ) (statement : Statement) →
        IsMindful seat state (after_submitting seat statement state) }
    ensures mindful_taking { (state : State) (seat : ℕ) →
        IsMindful seat state (after_taking seat state) }
{}

/// An event that submits nothing and abandons nothing leaves what each seat submitted, waits for
/// and took, also where it finds no memory, and makes no entry.
pub fn other_events_leave_what_seats_see()
    ensures done { (event : Event) (state : State) (seat : ℕ) → LeavesSeats event →
        IsEnabled state event →
        Passes (sight_of state seat) (sight_of (after_event event state) seat) }
    ensures wants { (event : Event) (spoiled : List ℕ) (state : State) (seat : ℕ) →
        IsEnabled state event →
        MaySpoil state event spoiled →
        Passes (sight_of state seat) (sight_of (after_want event spoiled state) seat) }
{}

/// A step moves no row but that of its mover, whose are the entries that it makes; steps of one
/// seat move its row alone. An abandoned query leaves of that row all but what is waited for.
pub fn a_step_moves_one_row()
    ensures one { (step : Step) (state : State) (seat : ℕ) → MayStep state step → IsSound state →
        IsOfSeat seat state step → IsMindful seat state (after_step step state) }
    ensures all { (steps : List Step) (state : State) (seat : ℕ) → MayStepAll state steps →
        IsSound state → AreOfSeat seat state steps →
        IsMindful seat state (after_steps steps state) }
    ensures abandons { (state : State) (query seat : ℕ) →
        AbandonsRow (sight_of state seat) (sight_of (after_abandoning query state) seat) }
{
    every_step_keeps_a_core_sound();
}

/// The row of a number that is no seat is empty.
pub fn rows_past_the_seats_are_empty()
    ensures { (state : State) (seat : ℕ) → IsSound state → state.settings.seats ≤ seat →
        row_of state seat ≡ empty_row }
{}

/// What stands in the hand of a row is sound on every core with this row, whatever became of the
/// core since it was taken.
pub fn a_work_stays_right()
    ensures { (state : State) (seat : ℕ) (flight : Flight) (hand : Hand) → IsSound state →
        (row_of state seat).hand ≡ Some flight → flight.hand ≡ Some hand →
        IsSoundBatch (frame_words state) (tables_of state) state.lives state.accepted flight
        × IsSoundHand (length state.seats) state.lives.filters (tables_of state) flight hand }
{}

/// The course of a seat: one part of it behind another, entries of others, a statement, one for
/// which no memory was left behind all earlier replies, and a reply.
pub fn the_course_of_a_seat_goes_on()
    ensures behind { (seat : ℕ) (old between new : Sight)
        (due due' due'' sent sent' said said' : List Sent)
        (replies replies' : List Reply) → Goes seat old due between due' sent said replies →
        Goes seat between due' new due'' sent' said' replies' →
        Goes seat old due new due'' (sent ++ sent') (said ++ said') (replies ++ replies') }
    ensures passes { (seat : ℕ) (old new : Sight) (due : List Sent) → IsDue seat old due →
        new.row.made ≡ made_by seat new.seen → Passes old new → Goes seat old due new due [] [] [] }
    ensures submits { (seat : ℕ) (old new : Sight) (due : List Sent) (number : ℕ)
        (statement : Statement) → IsDue seat old due → new.row.made ≡ made_by seat new.seen →
        SubmitsRow seat number statement old new →
        Goes seat old due new (due ++ Given number (length old.seen) statement ∷ [])
        (Given number (length old.seen) statement ∷ []) [] [] }
    ensures lost { (seat : ℕ) (sight : Sight) (statement : Statement) → IsDue seat sight [] →
        Goes seat sight [] sight [] (Lost statement ∷ []) (Lost statement ∷ []) (Memory ∷ []) }
    ensures takes { (seat : ℕ) (old new : Sight) (due : List Sent) (number point : ℕ)
        (statement : Statement)
        (reply : Reply) → IsDue seat old (Given number point statement ∷ due) →
        new.row.made ≡ made_by seat new.seen →
        TakesRow (pending_behind number (take point old.seen) statement) old new →
        IsReplyBehind (take point old.seen) statement reply →
        Goes seat old (Given number point statement ∷ due) new due []
        (Given number point statement ∷ []) (reply ∷ []) }
{}
