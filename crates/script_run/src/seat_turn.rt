//! The turns of a seat that gives statements to a core: in each it submits a statement, or asks for
//! its next reply, or lets go what it still waits for.
ghost use Rattle.std.specs.Prelude.{◌≡◌, ◌≢◌, ◌<◌, [], IsTrue, None, false, true};
ghost use Rattle.board_lock.specs.Seats.{IsSameSeat, view_of};
ghost use Rattle.core_state.specs.Rows.{AbandonsRow, sight_of};
ghost use Rattle.core_state.specs.Submitting.{next_ready, seat_at};
ghost use Rattle.event_core.specs.Board.{core_row};
ghost use Rattle.event_core.specs.Replies.{first_open};
ghost use Rattle.event_core.specs.Seen.{state_of};
ghost use Rattle.worker_gate.specs.Hands.{HasDoneIf, HasNothing};
ghost use Rattle.worker_gate.specs.Left.{LeavesAllLoans};
ghost use Rattle.worker_gate.specs.Turns.{IsReady, sight_in};
ghost use Rattle.script_run.specs.Home.{IsAtRest, Leaves, LeftClosing, LetsGo};
ghost use Rattle.script_run.specs.SeatTurns.{AsksCore, HasAsked, KeepsHand, LeftUnmarked};
ghost use Rattle.script_run.specs.SeatTurns.{StaysOut, StaysReady, TellsAsked, TellsGiven};
ghost use Rattle.script_run.specs.SeatTurns.{TellsTried};

use crate::seat_ahead::read_ahead;
use board_lock::{BoardLock, BoardSeat};
use core_state::{Event, a_reply_that_may_be_taken_is_right, a_row_tells_the_reply};
use event_core::{
    Core, Ready, SubmitFault, Work, every_core_is_sound, own_steps_keep_a_board,
    what_is_beside_stays_lent,
};
use script_reader::Statement;
use star_store::ReadStatement;
use std::alloc::Global;
use std::sync::Wait;
use worker_gate::{Look, Signal, give_if_done, signal_behind, signal_if_more, worker_look};

/// What came of giving a statement to the core.
#[derive(Clone, Copy, Debug, PartialEq, Eq)]
pub(crate) enum Given {
    /// It was submitted.
    Taken,

    /// There was no memory for it, and nothing has changed.
    Lost,

    /// It may change the tables, which are lent, and nothing has changed but a mark.
    Waits,
}

/// What came of a turn in which a seat asked for its next reply.
#[derive(Debug, Drop)]
pub(crate) enum ReplyTurn {
    /// The reply, which was taken.
    Got(Ready),

    /// The seat waits for no reply.
    Nothing,

    /// It is not there yet, and the seat was not to work for it.
    NotYet,

    /// It is not there yet, and this was found to do meanwhile.
    Looked(Look),
}

/// Gives a statement to the core, and wakes one of those who rest. Answers whether there was memory
/// for it; else it changed nothing. A large block is read before the seat has its turn.
pub(crate) fn submit_turn<R: Wait>(
    rt: &R,
    board: &BoardLock<Core>,
    seat: &mut BoardSeat<Core>,
    alloc: Global,
    statement: Statement,
) -> bool
    requires { IsReady board.now None seat.old }
    ensures seat { StaysReady board.now seat.old seat.new }
    ensures tells { TellsTried result statement seat.old seat.new }
{
    let mut ahead = read_ahead(rt, board, seat, alloc, &statement);
    give_turn(rt, board, seat, &mut ahead)
}

/// Gives a statement to the core in a turn of the seat, and wakes one of those who rest. Where it
/// may change the tables, it waits until these are at home, and then tries again.
fn give_turn<R: Wait>(
    rt: &R,
    board: &BoardLock<Core>,
    seat: &mut BoardSeat<Core>,
    statement: &mut ReadStatement<'_>,
) -> bool
    requires { IsReady board.now None seat.old }
    ensures seat { StaysReady board.now seat.old seat.new }
    ensures tells { TellsTried result statement.old seat.old seat.new }
{
    'tries: for _ in rt.forever() {
        match try_turn(rt, board, seat, statement) {
            Given::Taken => return true,
            Given::Lost => return false,
            Given::Waits => {}
        }
    }
    unreachable!()
}

/// One turn in which a statement is given to the core. Where it has to wait, the seat rests behind
/// the turn until it is woken.
fn try_turn<R: Wait>(
    rt: &R,
    board: &BoardLock<Core>,
    seat: &mut BoardSeat<Core>,
    statement: &mut ReadStatement<'_>,
) -> Given
    requires { IsReady board.now None seat.old }
    ensures seat { StaysReady board.now seat.old seat.new }
    ensures tells { TellsGiven result (view_of seat.old).number statement.old
        (sight_in (view_of seat.old)) (sight_in (view_of seat.new)) }
    ensures unmarked { result ≡ Given.Lost → LeftUnmarked (view_of seat.new) }
    ensures statement { statement.new ≡ statement.old }
{
    // It is called for what it ensures.
    own_steps_keep_a_board();
    let own = seat.number();
    let mut core = board.enter(rt, seat);
    let given = submit(&mut core, own, statement);
    // Decided while the mark stands: where it goes, whoever else waits by it is woken.
    let signal = signal_given(rt, board, &core, given);
    mark(&mut core, given);
    board.leave(seat, core);
    signal.give(rt, board);
    given
}

/// Gives a statement to a core as that of a seat, which the core has.
pub(crate) fn submit(core: &mut Core, seat: u32, statement: &mut ReadStatement<'_>) -> Given
    requires { seat < (state_of core.old).settings.seats }
    ensures keeps { KeepsHand seat core.old core.new }
    ensures tells { TellsGiven result seat statement.old
        (sight_of (state_of core.old) seat) (sight_of (state_of core.new) seat) }
    ensures statement { statement.new ≡ statement.old }
{
    // Both are called for what they ensure.
    every_core_is_sound(core);
    what_is_beside_stays_lent();
    match core.submit_read(seat, statement) {
        Ok(()) => Given::Taken,
        Err(SubmitFault::Busy) => Given::Waits,
        Err(SubmitFault::Memory) => Given::Lost,
        Err(SubmitFault::NotEnabled) => unreachable!(),
    }
}

/// Marks the core where a statement waits. The mark goes where a statement finds no memory, since
/// it may be the one that waited, and where nothing is out any more. All who wait are woken then,
/// and who finds the tables lent marks the core again, so no mark stays with nobody waiting.
fn mark(core: &mut Core, given: Given)
    ensures state { state_of core.new ≡ state_of core.old }
    ensures loans { LeavesAllLoans core.old core.new }
    ensures lost { given ≡ Given.Lost → core.new.marks.waiting ≡ false }
{
    match given {
        Given::Waits => core.mark_waiting(true),
        Given::Taken => unmark_if_home(core),
        Given::Lost => core.mark_waiting(false),
    }
}

/// Takes the mark away, if nothing is out.
pub(crate) fn unmark_if_home(core: &mut Core)
    ensures state { state_of core.new ≡ state_of core.old }
    ensures loans { LeavesAllLoans core.old core.new }
{
    if !core.is_any_out() {
        core.mark_waiting(false);
    }
}

/// Whom a turn wakes in which a statement was given. Where it waits the seat rests: the bell's
/// number is read in the turn, and whoever brings home the last of what is lent rings behind it.
fn signal_given<R: Wait>(rt: &R, board: &BoardLock<Core>, core: &Core, given: Given) -> Signal {
    match given {
        Given::Waits => Signal::Rest(board.bell(rt)),
        Given::Taken | Given::Lost => one_or_all(core),
    }
}

/// Wakes one of those who rest, or all while some of them may wait for the tables, since else the
/// one that is woken might be such a one, and leave what there is to do. It is asked before a turn
/// takes the mark away, so that all of them look again.
pub(crate) fn one_or_all(core: &Core) -> Signal {
    if core.is_waiting() {
        Signal::All
    } else {
        Signal::One
    }
}

/// Gives back a work that is done, and asks for the seat's next reply. Where it is not there yet
/// and the seat is patient, it looks for work.
pub(crate) fn ask_turn<R: Wait>(
    rt: &R,
    board: &BoardLock<Core>,
    seat: &mut BoardSeat<Core>,
    done: Option<Work>,
    patient: bool,
) -> ReplyTurn
    requires { IsReady board.now done seat.old }
    ensures seat { StaysOut board.now (HasAsked result) seat.old seat.new }
    ensures asks { TellsAsked result (view_of seat.old).number
        (sight_in (view_of seat.old)) (sight_in (view_of seat.new)) }
    ensures patient { IsTrue patient → result ≢ ReplyTurn.NotYet }
{
    // It is called for what it ensures.
    own_steps_keep_a_board();
    let own = seat.number();
    let mut core = board.enter(rt, seat);
    let asked = give_and_ask(&mut core, own, done, patient);
    let signal = signal_of(rt, board, &core, &asked);
    board.leave(seat, core);
    signal.give(rt, board);
    asked
}

/// What a seat that asks for its next reply does with the core while it has its turn.
fn give_and_ask(core: &mut Core, seat: u32, done: Option<Work>, patient: bool) -> ReplyTurn
    requires seat { seat < (state_of core.old).settings.seats }
    requires hand { HasDoneIf done (core_row core.old seat) }
    ensures asks { AsksCore result seat core.old core.new }
    ensures patient { IsTrue patient → result ≢ ReplyTurn.NotYet }
{
    give_if_done(core, seat, done);
    ask(core, seat, patient)
}

/// Takes the seat's next reply. Where it is not there yet and the seat is patient, it looks for
/// work. Its hand is empty.
fn ask(core: &mut Core, seat: u32, patient: bool) -> ReplyTurn
    requires seat { seat < (state_of core.old).settings.seats }
    requires empty { HasNothing (core_row core.old seat) }
    ensures asks { AsksCore result seat core.old core.new }
    ensures patient { IsTrue patient → result ≢ ReplyTurn.NotYet }
{
    // All three are called for what they ensure.
    a_row_tells_the_reply();
    every_core_is_sound(core);
    what_is_beside_stays_lent();
    match core.take_reply(seat) {
        Some(ready) => ReplyTurn::Got(ready),
        None => wait_or_look(core, seat, patient),
    }
}

/// What a seat does of which no reply may be taken. Its hand is empty.
fn wait_or_look(core: &mut Core, seat: u32, patient: bool) -> ReplyTurn
    requires seat { seat < (state_of core.old).settings.seats }
    requires empty { HasNothing (core_row core.old seat) }
    requires none { next_ready (state_of core.old) seat ≡ None }
    ensures asks { AsksCore result seat core.old core.new }
    ensures patient { IsTrue patient → result ≢ ReplyTurn.NotYet }
{
    // Both are called for what they ensure.
    a_reply_that_may_be_taken_is_right();
    every_core_is_sound(core);
    match core.first_pending(seat) {
        Some(_) => look_if_patient(core, seat, patient),
        None => ReplyTurn::Nothing,
    }
}

/// Looks for work, if the seat is patient. It waits for a reply, and its hand is empty.
fn look_if_patient(core: &mut Core, seat: u32, patient: bool) -> ReplyTurn
    requires seat { seat < (state_of core.old).settings.seats }
    requires empty { HasNothing (core_row core.old seat) }
    requires waits { (seat_at (state_of core.old) seat).pending ≢ [] }
    ensures asks { AsksCore result seat core.old core.new }
    ensures patient { IsTrue patient → result ≢ ReplyTurn.NotYet }
{
    if !patient {
        return ReplyTurn::NotYet;
    }
    ReplyTurn::Looked(worker_look(core, seat))
}

/// Whom the turn wakes: as behind any look, where the seat looked for work. Else it goes on to
/// something else, and leaves to others what there is to do.
fn signal_of<R: Wait>(rt: &R, board: &BoardLock<Core>, core: &Core, asked: &ReplyTurn) -> Signal {
    match asked {
        ReplyTurn::Looked(look) => signal_behind(rt, board, core, look),
        ReplyTurn::Got(_) | ReplyTurn::Nothing | ReplyTurn::NotYet => signal_if_more(board, core),
    }
}

/// Lets go what the seat still waits for, so that another session may be served by it, and rings,
/// since then others may have something to do.
pub(crate) fn let_go_turn<R: Wait>(rt: &R, board: &BoardLock<Core>, seat: &mut BoardSeat<Core>)
    requires { IsReady board.now None seat.old }
    ensures rest { IsAtRest board.now seat.new }
    ensures same { IsSameSeat seat.old seat.new }
    ensures lets_go { LetsGo (view_of seat.old).number
        (sight_in (view_of seat.old)) (sight_in (view_of seat.new)) }
{
    // It is called for what it ensures.
    own_steps_keep_a_board();
    let own = seat.number();
    let mut core = board.enter(rt, seat);
    drop_pending(&mut core, own);
    let signal = one_or_all(&core);
    board.leave(seat, core);
    signal.give(rt, board);
}

/// Abandons what a seat waits for and may still be answered, and drops the replies that are there.
fn drop_pending(core: &mut Core, seat: u32)
    ensures keeps { KeepsHand seat core.old core.new }
    ensures lets_go { LetsGo seat
        (sight_of (state_of core.old) seat) (sight_of (state_of core.new) seat) }
    ensures idle { (seat_at (state_of core.new) seat).pending ≡ [] }
{
    abandon_pending(core, seat);
    drop_ready(core, seat);
}

/// Takes the replies that a seat may take, and drops them.
fn drop_ready(core: &mut Core, seat: u32)
    ensures keeps { KeepsHand seat core.old core.new }
    ensures lets_go { LetsGo seat
        (sight_of (state_of core.old) seat) (sight_of (state_of core.new) seat) }
    ensures all { first_open (state_of core.old).lives (seat_at (state_of core.old) seat) ≡ None →
        (seat_at (state_of core.new) seat).pending ≡ [] }
{
    // All three are called for what they ensure.
    a_reply_that_may_be_taken_is_right();
    every_core_is_sound(core);
    what_is_beside_stays_lent();
    'replies: while let Some(reply) = core.take_reply(seat) {
        drop(reply);
    }
}

/// Lets go what the seat still waits for, marks the core closing, and wakes all who rest.
pub(crate) fn end_turn<R: Wait>(rt: &R, board: &BoardLock<Core>, seat: &mut BoardSeat<Core>)
    requires { IsReady board.now None seat.old }
    ensures seat { StaysReady board.now seat.old seat.new }
    ensures leaves { Leaves (view_of seat.old).number
        (sight_in (view_of seat.old)) (sight_in (view_of seat.new)) }
    ensures closing { LeftClosing (view_of seat.new) }
{
    // It is called for what it ensures.
    own_steps_keep_a_board();
    let own = seat.number();
    let mut core = board.enter(rt, seat);
    let_go(&mut core, own);
    board.leave(seat, core);
    board.ring_all(rt);
}

/// Abandons what a seat waits for and may still be answered, and marks the core closing.
fn let_go(core: &mut Core, seat: u32)
    ensures keeps { KeepsHand seat core.old core.new }
    ensures abandons { AbandonsRow
        (sight_of (state_of core.old) seat) (sight_of (state_of core.new) seat) }
    ensures closing { core.new.marks.closing ≡ true }
{
    abandon_pending(core, seat);
    core.mark_closing();
}

/// Abandons each query that a seat waits for and that may still be answered.
fn abandon_pending(core: &mut Core, seat: u32)
    ensures keeps { KeepsHand seat core.old core.new }
    ensures abandons { AbandonsRow
        (sight_of (state_of core.old) seat) (sight_of (state_of core.new) seat) }
    ensures closed { first_open (state_of core.new).lives (seat_at (state_of core.new) seat)
        ≡ None }
{
    // Both are called for what they ensure.
    every_core_is_sound(core);
    what_is_beside_stays_lent();
    'queries: while let Some(query) = core.first_pending(seat) {
        // It may come, and wants no memory.
        let _ = core.step(Event::Abandon { query });
    }
}
