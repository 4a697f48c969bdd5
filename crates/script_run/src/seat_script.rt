//! A run of a script by a seat of a board, whatever other seats do meanwhile. How the seat gives
//! statements to the core and writes the replies is in `seat_front`.
ghost use Rattle.std.specs.Prelude.{◌≡◌, List};
ghost use Rattle.board_lock.specs.Seats.{view_of};
ghost use Rattle.core_state.specs.Fronts.{IsDue};
ghost use Rattle.core_state.specs.Rows.{made_by};
ghost use Rattle.core_state.specs.Sent.{Sent};
ghost use Rattle.worker_gate.specs.Turns.{sight_in};
ghost use Rattle.script_run.specs.BoardRun.{IsAtStart};
ghost use Rattle.script_run.specs.Run.{CountsFaults};
ghost use Rattle.script_run.specs.SeatTurns.{StaysReady};
ghost use Rattle.script_run.specs.Shared.{AnswersSent};

use crate::piece::{Piece, read_piece};
use crate::run::{PIECE_BYTES, end_of_halt};
use crate::seat_front::SeatFront;
use crate::seat_turn::end_turn;
use crate::shared::{end_behind, end_of_rest};
use board_lock::BoardLock;
use event_core::Core;
use script_reader::ScriptReader;
use star_io::{RunEnd, Sink, Source};
use std::sync::Wait;
use worker_gate::Gate;

impl SeatFront {
    /// Reads a script to its end, gives its statements to the core, and writes their replies, in
    /// order. Then it lets go what is still open, and marks the core closing.
    pub(crate) fn run<R: Wait, S: Source, K: Sink, G: Gate>(
        &mut self,
        rt: &R,
        board: &BoardLock<Core>,
        gate: &G,
        source: &mut S,
        sink: &mut K,
    ) -> RunEnd
        requires { IsAtStart board.now self.old.seat }
        ensures seat { StaysReady board.now self.old.seat self.new.seat }
        ensures answers { AnswersSent result (sight_in (view_of self.new.seat))
            (S.reading source.old) (S.reading source.new)
            (K.writing sink.old) (K.writing sink.new) }
        ensures made { (sight_in (view_of self.new.seat)).row.made
            ≡ made_by 0 (sight_in (view_of self.new.seat)).seen }
        ensures faults { CountsFaults result
            (S.reading source.old) (S.reading source.new)
            (K.writing sink.old) (K.writing sink.new) }
        ensures apart { K.reading_side sink.new ≡ K.reading_side sink.old }
    {
        let end = self.play_script(rt, board, gate, source, sink);
        end_turn(rt, board, &mut self.seat);
        end
    }

    /// Reads a script to its end, gives its statements to the core, and writes their replies.
    fn play_script<R: Wait, S: Source, K: Sink, G: Gate>(
        &mut self,
        rt: &R,
        board: &BoardLock<Core>,
        gate: &G,
        source: &mut S,
        sink: &mut K,
    ) -> RunEnd
        requires { IsAtStart board.now self.old.seat }
        ensures seat { StaysReady board.now self.old.seat self.new.seat }
        ensures answers { AnswersSent result (sight_in (view_of self.new.seat))
            (S.reading source.old) (S.reading source.new)
            (K.writing sink.old) (K.writing sink.new) }
        ensures due { (due : List Sent) × IsDue 0 (sight_in (view_of self.new.seat)) due }
        ensures faults { CountsFaults result
            (S.reading source.old) (S.reading source.new)
            (K.writing sink.old) (K.writing sink.new) }
        ensures apart { K.reading_side sink.new ≡ K.reading_side sink.old }
    {
        let mut reader = ScriptReader::new(self.alloc);
        let mut piece = [0u8; PIECE_BYTES];
        let mut refused = false;
        'pieces: loop {
            match self.play_whole(rt, board, gate, &mut reader, sink) {
                Ok(some) => refused |= some,
                Err(halt) => return end_of_halt(halt),
            }
            match read_piece(source, &mut piece, &mut reader) {
                Piece::Fed => {}
                Piece::Ended => break 'pieces,
                Piece::Fault => {
                    let written = self.write_replies(rt, board, gate, true, sink);
                    return end_behind(written, RunEnd::ReadFault);
                }
                Piece::Limit => {
                    let written = self.write_replies(rt, board, gate, true, sink);
                    return end_behind(written, RunEnd::ScriptLimit);
                }
                Piece::NoMemory => return RunEnd::NoMemory,
            }
        }
        reader.finish();
        match self.play_whole(rt, board, gate, &mut reader, sink) {
            Ok(some) => {
                let written = self.write_replies(rt, board, gate, true, sink);
                end_of_rest(refused | some, written)
            }
            Err(halt) => end_of_halt(halt),
        }
    }
}
