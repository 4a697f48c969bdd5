//! A seat that serves sessions: between two reads it is at rest, since what is whole is replied to
//! before more is read, and at the end it lets go what is open.
ghost use Rattle.std.specs.Prelude.{◌≡◌, None};
ghost use Rattle.board_lock.specs.Seats.{IsSameSeat, view_of};
ghost use Rattle.script_reader.specs.Reading.{StaysFed};
ghost use Rattle.worker_gate.specs.Turns.{IsReady, sight_in};
ghost use Rattle.script_run.specs.Home.{IsAtRest, LeftClosing, LetsGo, RepliesAt};

use crate::halt::Halt;
use crate::seat_front::SeatFront;
use crate::seat_turn::{end_turn, let_go_turn};
use board_lock::BoardLock;
use event_core::Core;
use script_reader::ScriptReader;
use star_io::Sink;
use std::sync::Wait;
use worker_gate::Gate;

impl SeatFront {
    /// Gives the statements that are whole to the core, and writes the replies to all of them.
    /// Where a write fails, or no memory is left, the rest is not written, and the seat can be let
    /// go.
    pub fn reply_whole<R: Wait, G: Gate, K: Sink>(
        &mut self,
        rt: &R,
        board: &BoardLock<Core>,
        gate: &G,
        reader: &mut ScriptReader,
        sink: &mut K,
    ) -> Result<(), Halt>
        requires { IsAtRest board.now self.old.seat }
        ensures replies { RepliesAt board.now result self.old.seat self.new.seat
            reader.old reader.new (K.writing sink.old) (K.writing sink.new) }
        ensures stays { StaysFed reader.old reader.new }
        ensures apart { K.reading_side sink.new ≡ K.reading_side sink.old }
    {
        self.play_whole(rt, board, gate, reader, sink)?;
        self.write_replies(rt, board, gate, true, sink)?;
        Ok(())
    }

    /// Abandons what it waits for and may still be answered, and takes the replies that are there,
    /// which nobody reads any more. It waits for nothing then.
    pub fn let_go<R: Wait>(&mut self, rt: &R, board: &BoardLock<Core>)
        requires { IsReady board.now None self.old.seat }
        ensures rest { IsAtRest board.now self.new.seat }
        ensures same { IsSameSeat self.old.seat self.new.seat }
        ensures lets_go { LetsGo (view_of self.old.seat).number
            (sight_in (view_of self.old.seat)) (sight_in (view_of self.new.seat)) }
    {
        let_go_turn(rt, board, &mut self.seat);
        self.pace.stop();
    }

    /// Marks the core closing, so that each worker ends once it finds nothing left to do.
    pub fn close<R: Wait>(&mut self, rt: &R, board: &BoardLock<Core>)
        requires { IsReady board.now None self.old.seat }
        ensures ready { IsReady board.now None self.new.seat }
        ensures closing { LeftClosing (view_of self.new.seat) }
    {
        end_turn(rt, board, &mut self.seat);
    }
}
