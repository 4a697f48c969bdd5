//! One session: the statements of a connection go to a core, and their replies come back.
ghost use Rattle.std.specs.Prelude.{◌≡◌, ◌<◌, ◌≤◌, None, false, length, IsOk};
ghost use Rattle.board_lock.specs.Seats.{IsSameSeat, view_of};
ghost use Rattle.core_state.specs.Rows.{made_by};
ghost use Rattle.script_reader.specs.Reading.{StaysFed, no_reading};
ghost use Rattle.script_reader.specs.declared.reader.TheConstants.{SCRIPT_LIMIT};
ghost use Rattle.worker_gate.specs.Turns.{IsReady, sight_in};
ghost use Rattle.script_run.specs.Answer.{CountsHalt};
ghost use Rattle.script_run.specs.Home.{IsAtRest, LetsGo, RepliesWhole};
ghost use Rattle.script_run.specs.Shared.{EndsWhole};
ghost use Rattle.session_server.specs.Session.{AnswersSession, CountsSessionFaults, IsSessionComplete};
ghost use Rattle.session_server.specs.Session.{LeavesSeat, ReadsLink, run_end_of};

use crate::session_end::{SessionEnd, end_of_halt};
use board_lock::BoardLock;
use event_core::Core;
use script_reader::ScriptReader;
use script_run::{Halt, PIECE_BYTES, Piece, SeatFront, read_piece};
use star_io::Link;
use std::sync::Wait;
use worker_gate::Gate;

/// Serves one connection by a seat of a board: gives its statements to the core, and writes the
/// replies of all whole statements before it reads again. While it waits for a reply it works at
/// the core, as a worker does.
///
/// At a read that fails, and at the byte past the limit, all statements that were whole are replied
/// to. After a write that fails nothing more is read or written. What is open then is abandoned,
/// and the seat is ready for the next session.
pub fn serve_session<R: Wait, K: Link, G: Gate>(
    rt: &R,
    board: &BoardLock<Core>,
    front: &mut SeatFront,
    link: &mut K,
    gate: &G,
) -> SessionEnd
    requires { IsAtRest board.now front.old.seat }
    ensures rest { IsAtRest board.now front.new.seat }
    ensures same { IsSameSeat front.old.seat front.new.seat }
    ensures answers { AnswersSession result (view_of front.old.seat).number
        (sight_in (view_of front.old.seat)) (sight_in (view_of front.new.seat))
        (K.reading link.old) (K.reading link.new) (K.writing link.old) (K.writing link.new) }
    ensures faults { CountsSessionFaults result
        (K.reading link.old) (K.reading link.new) (K.writing link.old) (K.writing link.new) }
    ensures complete { IsSessionComplete result
        (K.reading link.old) (K.reading link.new) (K.writing link.old) (K.writing link.new) }
{
    let mut reader = ScriptReader::new(front.alloc());
    match play_session(rt, board, front, &mut reader, link, gate) {
        SessionEnd::WriteFault => {
            let_go(rt, board, front);
            SessionEnd::WriteFault
        }
        SessionEnd::Memory => {
            let_go(rt, board, front);
            SessionEnd::Memory
        }
        end => end,
    }
}

/// Abandons what a session that was cut short left open.
fn let_go<R: Wait>(rt: &R, board: &BoardLock<Core>, front: &mut SeatFront)
    requires { IsReady board.now None front.old.seat }
    ensures rest { IsAtRest board.now front.new.seat }
    ensures same { IsSameSeat front.old.seat front.new.seat }
    ensures lets_go { LetsGo (view_of front.old.seat).number
        (sight_in (view_of front.old.seat)) (sight_in (view_of front.new.seat)) }
{
    front.let_go(rt, board);
}

/// The session up to its end, by a reader to which nothing was fed yet. Where it was cut short, the
/// seat may still wait for replies.
fn play_session<R: Wait, K: Link, G: Gate>(
    rt: &R,
    board: &BoardLock<Core>,
    front: &mut SeatFront,
    reader: &mut ScriptReader,
    link: &mut K,
    gate: &G,
) -> SessionEnd
    requires rest { IsAtRest board.now front.old.seat }
    requires unfed { reader.old ≡ no_reading }
    ensures seat { LeavesSeat board.now (EndsWhole (run_end_of result))
        front.old.seat front.new.seat }
    ensures answers { AnswersSession result (view_of front.old.seat).number
        (sight_in (view_of front.old.seat)) (sight_in (view_of front.new.seat))
        (K.reading link.old) (K.reading link.new) (K.writing link.old) (K.writing link.new) }
    ensures made { (sight_in (view_of front.new.seat)).row.made
        ≡ made_by (view_of front.old.seat).number (sight_in (view_of front.new.seat)).seen }
    ensures faults { CountsSessionFaults result
        (K.reading link.old) (K.reading link.new) (K.writing link.old) (K.writing link.new) }
{
    let mut piece = [0u8; PIECE_BYTES];
    'pieces: loop {
        match read_link(link, &mut piece, reader) {
            Piece::Fed => match reply_link(rt, board, front, reader, link, gate) {
                Ok(()) => {}
                Err(halt) => return end_of_halt(halt),
            },
            Piece::Ended => break 'pieces,
            Piece::Fault => return SessionEnd::ReadFault,
            Piece::Limit => return SessionEnd::Limit,
            Piece::NoMemory => return SessionEnd::Memory,
        }
    }
    reader.finish();
    match reply_link(rt, board, front, reader, link, gate) {
        Ok(()) => SessionEnd::Done,
        Err(halt) => end_of_halt(halt),
    }
}

/// Reads once from a link, and feeds the reader with what came. What was written stays.
fn read_link<K: Link>(link: &mut K, piece: &mut [u8], reader: &mut ScriptReader) -> Piece
    requires piece { 0 < length piece.old }
    requires within { reader.old.fed ≤ SCRIPT_LIMIT }
    requires not_ended { reader.old.ended ≡ false }
    ensures reads { ReadsLink result reader.old reader.new
        (K.reading link.old) (K.reading link.new) }
    ensures written { K.writing link.new ≡ K.writing link.old }
{
    read_piece(link, piece, reader)
}

/// Gives the statements that are whole to the core, and writes the replies to a link. What is still
/// to be read stays.
fn reply_link<R: Wait, K: Link, G: Gate>(
    rt: &R,
    board: &BoardLock<Core>,
    front: &mut SeatFront,
    reader: &mut ScriptReader,
    link: &mut K,
    gate: &G,
) -> Result<(), Halt>
    requires { IsAtRest board.now front.old.seat }
    ensures seat { LeavesSeat board.now (IsOk result) front.old.seat front.new.seat }
    ensures replies { RepliesWhole result (view_of front.old.seat).number
        (sight_in (view_of front.old.seat)) reader.old
        (sight_in (view_of front.new.seat)) reader.new
        (K.writing link.old).taken (K.writing link.new).taken }
    ensures stays { StaysFed reader.old reader.new }
    ensures faults { CountsHalt result (K.writing link.old) (K.writing link.new) }
    ensures read { K.reading link.new ≡ K.reading link.old }
{
    front.reply_whole(rt, board, gate, reader, link)
}
