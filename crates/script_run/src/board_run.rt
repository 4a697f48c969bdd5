//! A run of a script by several threads over one board: the front reads the script and writes the
//! replies, and workers take batches and make events beside it. How the seats of workers are made,
//! used and joined is in `board_seats`.
ghost use Rattle.std.specs.Prelude.{◌≡◌, ◌<◌, ◌↔◌, IfOk, IfSome, IsNone, length};
ghost use Rattle.board_lock.specs.Seats.{view_of};
ghost use Rattle.core_state.specs.Settings.{AreWithin};
ghost use Rattle.script_run.specs.BoardRun.{AnswersBoard, AreWorkers, HasRun, IsAtStart};
ghost use Rattle.script_run.specs.BoardRun.{IsLeader, IsLeftBy, IsNewBoard, IsNewCrew};
ghost use Rattle.script_run.specs.Run.{CountsFaults};
ghost use Rattle.script_run.specs.Shared.{AreSettingsOfRun};
ghost use Rattle.star_io.specs.declared.run_end.RunEnd.TheVariants as end;

use crate::board_seats::{join_all, make_seats, work_beside};
use crate::host::Host;
use crate::seat_front::SeatFront;
use crate::shared::RunDone;
use board_lock::{BoardLock, BoardSeat};
use core_state::RunSettings;
use event_core::Core;
use star_io::{RunEnd, Sink, Source};
use star_values::NoMemory;
use std::alloc::Global;
use std::hash::RandomState;
use std::sync::Wait;
use std::thread::Threads;
use worker_gate::Gate;

/// A board over a core, its first seat, and one for each worker.
#[derive(Drop)]
pub struct Crew {
    pub board: BoardLock<Core>,
    pub first: BoardSeat<Core>,
    pub workers: Vec<BoardSeat<Core>>,
}

/// Reads a script to its end and writes the reply to each of its statements, in order, while the
/// workers work at the core, each in a thread of its own where one can be made. Behind the last
/// reply, or where the front stops before, the core is marked closing, and each worker ends once it
/// finds nothing left to do.
pub(crate) fn run_with_workers<R: Threads + Wait + Sync, S: Source, K: Sink, G: Gate + Sync>(
    host: Host<&R>,
    settings: RunSettings,
    source: &mut S,
    sink: &mut K,
    gate: &G,
) -> RunDone
    requires settings { AreSettingsOfRun settings }
    ensures answers { AnswersBoard result.core result.end
        (S.reading source.old) (S.reading source.new)
        (K.writing sink.old) (K.writing sink.new) }
    ensures faults { CountsFaults result.end
        (S.reading source.old) (S.reading source.new)
        (K.writing sink.old) (K.writing sink.new) }
    ensures apart { K.reading_side sink.new ≡ K.reading_side sink.old }
    ensures core { IsNone result.core ↔ (result.end ≡ end.NoMemory) }
{
    let Host {
        rt,
        alloc,
        hash_keys,
    } = host;
    let Ok(crew) = open_crew(alloc, hash_keys, settings) else {
        return RunDone {
            end: RunEnd::NoMemory,
            core: None,
        };
    };
    let Crew {
        board,
        first,
        mut workers,
    } = crew;
    let mut front = SeatFront::new(alloc, first, settings.slots);
    let mut play = ||
        requires { IsAtStart board front.seat }
        ensures { HasRun board result front.entry.seat front.exit.seat
            (S.reading source.entry.now) (S.reading source.exit.now)
            (K.writing sink.entry.now) (K.writing sink.exit.now)
            × (K.reading_side sink.exit.now ≡ K.reading_side sink.entry.now) }
    { run_front(rt, &board, gate, &mut front, source, sink) };
    let end = work_beside(rt, &board, gate, workers.as_mut_slice(), &mut play);
    let core = end_board(board, front.seat, workers);
    RunDone {
        end,
        core: unless_wanting(end, core),
    }
}

/// A board over a core of these settings to which nothing was given, its first seat, and one for
/// each worker. The board has room for as many seats as the settings say.
pub fn open_crew(
    alloc: Global,
    hash_keys: RandomState,
    settings: RunSettings,
) -> Result<Crew, NoMemory>
    requires settings { AreWithin settings }
    requires seats { settings.workers < settings.seats }
    ensures { IfOk result (λ crew. IsNewCrew settings crew) }
{
    let (board, mut first) = open_board(alloc, hash_keys, settings)?;
    match make_seats(alloc, &board, &mut first, settings.workers) {
        Ok(workers) => Ok(Crew {
            board,
            first,
            workers,
        }),
        Err(wanting) => {
            drop(first);
            drop(board);
            Err(wanting)
        }
    }
}

/// A board over a core of these settings to which nothing was given, and its first seat.
fn open_board(
    alloc: Global,
    hash_keys: RandomState,
    settings: RunSettings,
) -> Result<(BoardLock<Core>, BoardSeat<Core>), NoMemory>
    requires { AreWithin settings }
    ensures { IfOk result (λ made. IsNewBoard settings made.0 made.1) }
{
    let core = Core::new(alloc, hash_keys, settings)?;
    match BoardLock::new(alloc, core, settings.seats) {
        Ok(made) => Ok(made),
        Err(refused) => {
            drop(refused);
            Err(NoMemory)
        }
    }
}

/// What the front does by its seat, for a thread: what is lent to it comes last.
fn run_front<R: Wait, S: Source, K: Sink, G: Gate>(
    rt: &R,
    board: &BoardLock<Core>,
    gate: &G,
    front: &mut SeatFront,
    source: &mut S,
    sink: &mut K,
) -> RunEnd
    requires { IsAtStart board.now front.old.seat }
    ensures run { HasRun board.now result front.old.seat front.new.seat
        (S.reading source.old) (S.reading source.new)
        (K.writing sink.old) (K.writing sink.new) }
    ensures apart { K.reading_side sink.new ≡ K.reading_side sink.old }
{
    front.run(rt, board, gate, source, sink)
}

/// Joins the seats of the workers, ends the board, and gives the core.
fn end_board(
    board: BoardLock<Core>,
    mut first: BoardSeat<Core>,
    mut workers: Vec<BoardSeat<Core>>,
) -> Core
    requires leader { IsLeader board (length workers.items) first }
    requires workers { AreWorkers board workers.items }
    ensures { IsLeftBy (view_of first) result }
{
    join_all(&board, &mut first, &mut workers);
    drop(workers);
    board.close(first)
}

/// The core of a run that ended so, unless no memory was left for the run.
fn unless_wanting(run_end: RunEnd, core: Core) -> Option<Core>
    ensures none { IsNone result ↔ (run_end ≡ end.NoMemory) }
    ensures own { IfSome result (λ given. given ≡ core) }
{
    match run_end {
        RunEnd::NoMemory => {
            drop(core);
            None
        }
        _ => Some(core),
    }
}
