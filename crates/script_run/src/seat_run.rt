//! Statements that are there at once. They are given to the core in one turn, so that no worker
//! begins between them, and their queries begin their laps at one place.
ghost use Rattle.std.specs.Prelude.{◌≡◌, ◌<◌, ◌≤◌, ◌∷◌, ◌++◌, [], IsTrue, None, drop, false, length, take};
ghost use Rattle.board_lock.specs.Seats.{view_of};
ghost use Rattle.core_state.specs.Rows.{sight_of};
ghost use Rattle.event_core.specs.Seen.{state_of};
ghost use Rattle.script_reader.specs.Reading.{StaysFed};
ghost use Rattle.worker_gate.specs.Turns.{IsReady, sight_in};
ghost use Rattle.script_run.specs.SeatFront.{PlaysAt, PlaysFirst};
ghost use Rattle.script_run.specs.SeatRun.{ReadsNext, ReadsRun, alone_at, behind_at, behind_end};
ghost use Rattle.script_run.specs.SeatRun.{statements_in_run};
ghost use Rattle.script_run.specs.SeatTurns.{KeepsHand, SitsStill, StaysReady, SendsOne};
ghost use Rattle.script_run.specs.SeatTurns.{SendsAll};

use crate::halt::Halt;
use crate::seat_front::SeatFront;
use crate::seat_turn::{Given, one_or_all, submit, unmark_if_home};
use crate::waiting::is_wait;
use board_lock::{BoardLock, BoardSeat};
use event_core::{Core, own_steps_keep_a_board};
use script_reader::{Block, NextStatement, ScriptReader, Statement};
use star_io::Sink;
use star_store::ReadStatement;
use std::sync::Wait;
use worker_gate::Gate;

/// Statements that were there at once.
#[derive(Drop)]
pub(crate) struct StatementRun {
    /// Those that are given in one turn.
    plain: Vec<Statement>,

    /// Why there are no more of them.
    end: StatementRunEnd,
}

/// What ended a run of statements.
#[derive(Drop)]
pub(crate) enum StatementRunEnd {
    /// As many replies will be waited for as may be.
    Full,

    /// This statement was read, and is given by itself: it has a block, it may be a `wait`, or no
    /// memory was left to put it with the others.
    Alone(Statement),

    /// No further statement is whole.
    Last,

    /// No memory was left for the next statement.
    NoMemory,
}

/// What there is to read behind a run.
#[derive(Clone, Copy, Debug, PartialEq, Eq)]
pub(crate) enum Behind {
    /// There may be more statements.
    More,

    /// No statement is whole.
    Nothing,

    /// No memory was left for the next statement.
    NoMemory,
}

impl StatementRun {
    /// What there is to read behind it.
    pub(crate) fn behind(&self) -> Behind
        ensures { result ≡ behind_end self.now.end }
    {
        match self.end {
            StatementRunEnd::Full | StatementRunEnd::Alone(_) => Behind::More,
            StatementRunEnd::Last => Behind::Nothing,
            StatementRunEnd::NoMemory => Behind::NoMemory,
        }
    }
}

impl SeatFront {
    /// Reads the statements that are there, as many as may be given in one turn.
    pub(crate) fn read_run(&self, reader: &mut ScriptReader) -> StatementRun
        ensures reads { ReadsRun result reader.old reader.new }
        ensures stays { StaysFed reader.old reader.new }
    {
        let mut plain = Vec::new(self.alloc);
        'statements: loop {
            if let Some(end) = self.read_next(reader, &mut plain) {
                return StatementRun { plain, end };
            }
        }
    }

    /// Reads the next statement, and puts it to those of a run. Where the run ends, it tells why.
    fn read_next(
        &self,
        reader: &mut ScriptReader,
        plain: &mut Vec<Statement>,
    ) -> Option<StatementRunEnd>
        ensures reads { ReadsNext result reader.old plain.old.items reader.new plain.new.items }
        ensures stays { StaysFed reader.old reader.new }
    {
        let Ok(next) = reader.next_statement() else {
            return Some(StatementRunEnd::NoMemory);
        };
        let NextStatement::Got(statement) = next else {
            return Some(StatementRunEnd::Last);
        };
        self.put(plain, statement)
    }

    /// Puts a statement to those of a run. Where the run ends, it tells why.
    fn put(&self, plain: &mut Vec<Statement>, statement: Statement) -> Option<StatementRunEnd>
        ensures are { plain.new.items ++ alone_at result ≡ plain.old.items ++ statement ∷ [] }
        ensures more { behind_at result ≡ Behind.More }
    {
        if !self.is_plain(&statement, plain.is_empty()) {
            return Some(StatementRunEnd::Alone(statement));
        }
        if let Err(failed) = plain.push(statement) {
            return Some(StatementRunEnd::Alone(failed.value));
        }
        if self.pace.is_full_with(plain.len()) {
            return Some(StatementRunEnd::Full);
        }
        None
    }

    /// Whether a statement may be given with others: it has no block, and it is no `wait`, unless
    /// no reply is waited for before it. No promise rests on it.
    fn is_plain(&self, statement: &Statement, is_first: bool) -> bool {
        match statement.block {
            Block::Absent => {
                is_first && !self.pace.waits()
                    || matches!(is_wait(self.alloc, statement), Ok(false))
            }
            Block::Closed(_) | Block::Unclosed(_) => false,
        }
    }

    /// Gives a run of statements to the core, and writes the replies that are there. Tells whether
    /// one of them is a refusal.
    pub(crate) fn play_run<R: Wait, G: Gate, K: Sink>(
        &mut self,
        rt: &R,
        board: &BoardLock<Core>,
        gate: &G,
        run: StatementRun,
        sink: &mut K,
    ) -> Result<bool, Halt>
        requires { IsReady board.now None self.old.seat }
        ensures plays { PlaysAt board.now result self.old.seat self.new.seat (statements_in_run run)
            (K.writing sink.old) (K.writing sink.new) }
        ensures apart { K.reading_side sink.new ≡ K.reading_side sink.old }
    {
        let StatementRun { plain, end } = run;
        let mut refused = self.play_plain(rt, board, gate, plain, sink)?;
        let StatementRunEnd::Alone(statement) = end else {
            return Ok(refused);
        };
        let more = self.play(rt, board, gate, statement, sink)?;
        refused |= more;
        Ok(refused)
    }

    /// Gives statements to the core in one turn, and writes the replies that are there. Those that
    /// were not taken in it are given one by one behind that.
    fn play_plain<R: Wait, G: Gate, K: Sink>(
        &mut self,
        rt: &R,
        board: &BoardLock<Core>,
        gate: &G,
        mut statements: Vec<Statement>,
        sink: &mut K,
    ) -> Result<bool, Halt>
        requires { IsReady board.now None self.old.seat }
        ensures plays { PlaysAt board.now result self.old.seat self.new.seat statements.items
            (K.writing sink.old) (K.writing sink.new) }
        ensures apart { K.reading_side sink.new ≡ K.reading_side sink.old }
    {
        let first = self.play_first(rt, board, gate, &mut statements, sink);
        // The list falls at one exit alone, which is much less to prove than two.
        match first {
            Ok(refused) => {
                let more = self.play_each(rt, board, gate, statements, sink)?;
                Ok(refused | more)
            }
            Err(halt) => Err(halt),
        }
    }

    /// Gives the first statements of a list to the core in one turn, up to the first that is not
    /// taken, and writes the replies that are there. The others are left.
    fn play_first<R: Wait, G: Gate, K: Sink>(
        &mut self,
        rt: &R,
        board: &BoardLock<Core>,
        gate: &G,
        statements: &mut Vec<Statement>,
        sink: &mut K,
    ) -> Result<bool, Halt>
        requires { IsReady board.now None self.old.seat }
        ensures plays { PlaysFirst board.now result self.old.seat self.new.seat
            statements.old.items statements.new.items
            (K.writing sink.old) (K.writing sink.new) }
        ensures apart { K.reading_side sink.new ≡ K.reading_side sink.old }
    {
        if statements.is_empty() {
            return Ok(false);
        }
        let given = submit_all_turn(rt, board, &mut self.seat, statements.as_slice());
        self.pace.give_all(given);
        drop_first(statements, given);
        self.write_replies(rt, board, gate, false, sink)
    }

    /// Gives statements to the core one by one, and writes the replies that are there.
    fn play_each<R: Wait, G: Gate, K: Sink>(
        &mut self,
        rt: &R,
        board: &BoardLock<Core>,
        gate: &G,
        statements: Vec<Statement>,
        sink: &mut K,
    ) -> Result<bool, Halt>
        requires { IsReady board.now None self.old.seat }
        ensures plays { PlaysAt board.now result self.old.seat self.new.seat statements.items
            (K.writing sink.old) (K.writing sink.new) }
        ensures apart { K.reading_side sink.new ≡ K.reading_side sink.old }
    {
        let mut refused = false;
        'statements: for statement in statements {
            refused |= self.play(rt, board, gate, statement, sink)?;
        }
        Ok(refused)
    }
}

/// Lets the first statements of a list go.
fn drop_first(statements: &mut Vec<Statement>, count: usize)
    requires { count ≤ length statements.old.items }
    ensures { statements.new.items ≡ drop count statements.old.items }
{
    drop(statements.drain(..count));
}

/// Gives statements to the core in one turn of the seat, up to the first that is not taken, and
/// wakes one of those who rest. Tells how many were taken.
fn submit_all_turn<R: Wait>(
    rt: &R,
    board: &BoardLock<Core>,
    seat: &mut BoardSeat<Core>,
    statements: &[Statement],
) -> usize
    requires { IsReady board.now None seat.old }
    ensures seat { StaysReady board.now seat.old seat.new }
    ensures count { result ≤ length statements.now }
    ensures submits { SendsAll (view_of seat.old).number (take result statements.now)
        (sight_in (view_of seat.old)) (sight_in (view_of seat.new)) }
{
    // It is called for what it ensures.
    own_steps_keep_a_board();
    let own = seat.number();
    let mut core = board.enter(rt, seat);
    let given = submit_all(&mut core, own, statements);
    let signal = one_or_all(&core);
    unmark_if_home(&mut core);
    board.leave(seat, core);
    signal.give(rt, board);
    given
}

/// Gives statements to a core as those of a seat, which the core has, up to the first that is not
/// taken. Tells how many were taken.
fn submit_all(core: &mut Core, seat: u32, statements: &[Statement]) -> usize
    requires { seat < (state_of core.old).settings.seats }
    ensures keeps { KeepsHand seat core.old core.new }
    ensures count { result ≤ length statements.now }
    ensures submits { SendsAll seat (take result statements.now)
        (sight_of (state_of core.old) seat) (sight_of (state_of core.new) seat) }
{
    let mut given = 0;
    'statements: for statement in statements {
        if !submit_unread(core, seat, statement) {
            return given;
        }
        given += 1;
    }
    given
}

/// Gives a statement to a core as that of a seat, which the core has. Tells whether it was taken,
/// and else nothing has changed.
fn submit_unread(core: &mut Core, seat: u32, statement: &Statement) -> bool
    requires { seat < (state_of core.old).settings.seats }
    ensures keeps { KeepsHand seat core.old core.new }
    ensures submits { IsTrue result → SendsOne seat statement.now
        (sight_of (state_of core.old) seat) (sight_of (state_of core.new) seat) }
    ensures stays { (result ≡ false) → SitsStill seat
        (sight_of (state_of core.old) seat) (sight_of (state_of core.new) seat) }
{
    let mut unread = ReadStatement::unread(statement);
    matches!(submit(core, seat, &mut unread), Given::Taken)
}
