//! The front of a board: a seat that gives statements to the core and writes the replies, whatever
//! other seats do meanwhile. Its turns with the core are in `seat_turn`, and what it gives in one
//! turn is in `seat_run`.
ghost use Rattle.std.specs.Prelude.{◌≡◌, ◌≢◌, ◌<◌, ℕ, [], ◌∷◌, IsTrue, None, false, OnOk};
ghost use Rattle.board_lock.specs.Seats.{view_of};
ghost use Rattle.script_reader.specs.declared.statement.Statement.{Statement};
ghost use Rattle.core_state.specs.Rows.{Sight};
ghost use Rattle.worker_gate.specs.Looks.{HasLooked};
ghost use Rattle.worker_gate.specs.Turns.{IsReady, own_row, sight_in};
ghost use Rattle.script_run.specs.SeatFront.{HasTurned, PlaysAt, PlaysWholeAt};
ghost use Rattle.script_run.specs.SeatFront.{TellsTurned, TellsWaited};
ghost use Rattle.script_run.specs.SeatTurns.{StaysOut, StaysReady, TellsAsked};
ghost use Rattle.script_run.specs.Waiting.{is_wait as means_to_wait};
ghost use Rattle.script_run.specs.declared.seat_turn.ReplyTurn.TheVariants as asked;

use crate::front::write_reply;
use crate::halt::Halt;
use crate::pace::Pace;
use crate::seat_run::Behind;
use crate::seat_turn::{ReplyTurn, ask_turn, submit_turn};
use crate::waiting::is_wait;
use board_lock::{BoardLock, BoardSeat};
use event_core::{Core, Ready, Work};
use reply_text::Reply;
use script_reader::{ScriptReader, Statement};
use star_io::Sink;
use std::alloc::Global;
use std::sync::Wait;
use worker_gate::{Gate, Look, do_work};

/// A seat of a board that gives statements to the core and writes the replies to them, in order.
#[derive(Drop)]
pub struct SeatFront {
    pub(crate) alloc: Global,

    /// The seat, of which contracts say what it knows.
    pub seat: BoardSeat<Core>,

    /// When replies are waited for. No promise rests on it.
    pub(crate) pace: Pace,
}

/// What came of asking for the next reply.
#[derive(Drop)]
pub(crate) enum Waited {
    /// The reply, which was taken.
    Got(Ready),

    /// The seat waits for no reply.
    Nothing,

    /// It is not there yet, and the seat was not to work for it.
    NotYet,

    /// It is not there yet, and no memory was left to clear a filter of a slot.
    NoMemory,
}

/// What follows a turn in which the next reply was asked for.
#[derive(Drop)]
enum AfterAsking {
    /// Another turn, in which a work is given back if there is one.
    Goes(Option<Work>),

    /// The end of asking.
    Ends(Waited),
}

impl SeatFront {
    /// A seat that waits for no reply. It goes on giving statements while it waits for fewer than
    /// `most` replies.
    pub fn new(alloc: Global, seat: BoardSeat<Core>, most: u32) -> SeatFront
        ensures seat { result.seat ≡ seat }
        ensures pace { result.pace ≡ record { waiting = 0; most = most } }
    {
        SeatFront {
            alloc,
            seat,
            pace: Pace::new(most),
        }
    }

    /// Where it takes memory from.
    pub fn alloc(&self) -> Global {
        self.alloc
    }

    /// Takes the next reply. Where it is not there yet, a patient front works until it is.
    fn next_reply<R: Wait, G: Gate>(
        &mut self,
        rt: &R,
        board: &BoardLock<Core>,
        gate: &G,
        patient: bool,
    ) -> Waited
        requires { IsReady board.now None self.old.seat }
        ensures seat { StaysReady board.now self.old.seat self.new.seat }
        ensures tells { TellsWaited result (view_of self.old.seat).number
            (sight_in (view_of self.old.seat)) (sight_in (view_of self.new.seat)) }
        ensures patient { IsTrue patient → result ≢ Waited.NotYet }
    {
        let mut done = None;
        'turns: for _ in rt.forever() {
            match ask_and_work(rt, board, &mut self.seat, gate, done, patient) {
                AfterAsking::Goes(next) => done = next,
                AfterAsking::Ends(waited) => return waited,
            }
        }
        unreachable!()
    }

    /// Writes the replies that are there, in their order, and tells whether one of them is a
    /// refusal. It waits for all of them where `all` says so, and else for as many as leave fewer
    /// than `most` that are waited for.
    pub(crate) fn write_replies<R: Wait, G: Gate, K: Sink>(
        &mut self,
        rt: &R,
        board: &BoardLock<Core>,
        gate: &G,
        all: bool,
        sink: &mut K,
    ) -> Result<bool, Halt>
        requires { IsReady board.now None self.old.seat }
        ensures plays { PlaysAt board.now result self.old.seat self.new.seat []
            (K.writing sink.old) (K.writing sink.new) }
        ensures all { IsTrue all →
            OnOk result ((sight_in (view_of self.new.seat)).row.pending ≡ []) }
        ensures apart { K.reading_side sink.new ≡ K.reading_side sink.old }
    {
        let mut refused = false;
        'replies: for _ in rt.forever() {
            let patient = self.pace.is_patient(all);
            match self.next_reply(rt, board, gate, patient) {
                Waited::Got(ready) => {
                    self.pace.take();
                    let reply = ready.into_reply();
                    let written = write_reply(self.alloc, &reply, sink);
                    drop(reply);
                    refused |= written?;
                }
                Waited::Nothing => return Ok(refused),
                Waited::NotYet => return Ok(refused),
                Waited::NoMemory => return Err(Halt::NoMemory),
            }
        }
        unreachable!()
    }

    /// Gives a statement to the core, and writes the replies that are there. At a `wait`, and
    /// before the reply to a statement for which no memory was left, it waits for all replies.
    /// Tells whether one of the replies is a refusal.
    pub(crate) fn play<R: Wait, G: Gate, K: Sink>(
        &mut self,
        rt: &R,
        board: &BoardLock<Core>,
        gate: &G,
        statement: Statement,
        sink: &mut K,
    ) -> Result<bool, Halt>
        requires { IsReady board.now None self.old.seat }
        ensures plays { PlaysAt board.now result self.old.seat self.new.seat (statement ∷ [])
            (K.writing sink.old) (K.writing sink.new) }
        ensures apart { K.reading_side sink.new ≡ K.reading_side sink.old }
    {
        let waits = self.waits_at(&statement);
        if !submit_turn(rt, board, &mut self.seat, self.alloc, statement) {
            return self.lose(rt, board, gate, sink);
        }
        self.pace.give();
        self.write_replies(rt, board, gate, waits, sink)
    }

    /// Whether a statement is a `wait` before which some reply is waited for. It is taken for none
    /// where no memory is left to tell, and then the replies come later.
    fn waits_at(&self, statement: &Statement) -> bool
        ensures { IsTrue result →
            IsTrue (means_to_wait statement.now) × (0 < self.now.pace.waiting) }
    {
        self.pace.waits() && matches!(is_wait(self.alloc, statement), Ok(true))
    }

    /// A statement for which no memory was left: the replies before its own are written, and its
    /// own is `memory`.
    fn lose<R: Wait, G: Gate, K: Sink>(
        &mut self,
        rt: &R,
        board: &BoardLock<Core>,
        gate: &G,
        sink: &mut K,
    ) -> Result<bool, Halt>
        requires { IsReady board.now None self.old.seat }
        ensures plays { (statement : Statement) →
            PlaysAt board.now result self.old.seat self.new.seat (statement ∷ [])
            (K.writing sink.old) (K.writing sink.new) }
        ensures apart { K.reading_side sink.new ≡ K.reading_side sink.old }
    {
        self.write_replies(rt, board, gate, true, sink)?;
        write_reply(self.alloc, &Reply::Memory, sink)
    }

    /// Gives the statements that are whole to the core, in runs of those that are there at once,
    /// and tells whether some reply that was written meanwhile is a refusal.
    pub(crate) fn play_whole<R: Wait, G: Gate, K: Sink>(
        &mut self,
        rt: &R,
        board: &BoardLock<Core>,
        gate: &G,
        reader: &mut ScriptReader,
        sink: &mut K,
    ) -> Result<bool, Halt>
        requires { IsReady board.now None self.old.seat }
        ensures plays { PlaysWholeAt board.now result self.old.seat self.new.seat
            reader.old reader.new (K.writing sink.old) (K.writing sink.new) }
        ensures apart { K.reading_side sink.new ≡ K.reading_side sink.old }
    {
        let mut refused = false;
        'runs: loop {
            let run = self.read_run(reader);
            let behind = run.behind();
            refused |= self.play_run(rt, board, gate, run, sink)?;
            match behind {
                Behind::More => {}
                Behind::Nothing => return Ok(refused),
                Behind::NoMemory => return Err(Halt::NoMemory),
            }
        }
    }
}

/// One turn in which the next reply is asked for, and outside of it the work that was taken in it.
fn ask_and_work<R: Wait, G: Gate>(
    rt: &R,
    board: &BoardLock<Core>,
    seat: &mut BoardSeat<Core>,
    gate: &G,
    done: Option<Work>,
    patient: bool,
) -> AfterAsking
    requires { IsReady board.now done seat.old }
    ensures seat { StaysOut board.now (HasTurned result) seat.old seat.new }
    ensures tells { TellsTurned result (view_of seat.old).number
        (sight_in (view_of seat.old)) (sight_in (view_of seat.new)) }
    ensures patient { IsTrue patient → result ≢ AfterAsking.Ends Waited.NotYet }
{
    match ask_turn(rt, board, seat, done, patient) {
        ReplyTurn::Got(ready) => AfterAsking::Ends(Waited::Got(ready)),
        ReplyTurn::Nothing => AfterAsking::Ends(Waited::Nothing),
        ReplyTurn::NotYet => AfterAsking::Ends(Waited::NotYet),
        ReplyTurn::Looked(look) => work_outside(seat, look, gate),
    }
}

/// Outside of a turn: does the work of a batch that was taken or cut in it. Another turn follows,
/// unless no memory was left.
fn work_outside<G: Gate>(seat: &BoardSeat<Core>, look: Look, gate: &G) -> AfterAsking
    requires { HasLooked look (own_row (view_of seat.now)) }
    ensures hand { HasTurned result (own_row (view_of seat.now)) }
    ensures tells { (number : ℕ) (old new : Sight) →
        TellsAsked (asked.Looked look) number old new → TellsTurned result number old new }
    ensures not_yet { result ≢ AfterAsking.Ends Waited.NotYet }
{
    match look {
        Look::Got(carried) => AfterAsking::Goes(Some(do_work(carried, seat.number(), gate))),
        Look::Did(_) => AfterAsking::Goes(None),
        Look::Rest => AfterAsking::Goes(None),
        Look::Closed => AfterAsking::Goes(None),
        Look::Memory => AfterAsking::Ends(Waited::NoMemory),
    }
}
