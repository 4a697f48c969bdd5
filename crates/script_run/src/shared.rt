//! A run of a script whose queries share the scan of one core.
ghost use Rattle.std.specs.Prelude.{◌≡◌, ◌↔◌, IfSome, IsNone};
ghost use Rattle.core_state.specs.Settings.{AreWithin};
ghost use Rattle.core_state.specs.Sound.{empty_core};
ghost use Rattle.event_core.specs.Seen.{state_of};
ghost use Rattle.script_reader.specs.Reading.{StaysFed, no_reading};
ghost use Rattle.star_io.specs.declared.run_end.RunEnd.TheVariants as end;
ghost use Rattle.script_run.specs.End.{end_behind, end_of_rest};
ghost use Rattle.script_run.specs.Front.{IsRun, PlaysWhole, RunsOn};
ghost use Rattle.script_run.specs.Counted.{HasFreeSlot, IsNewFront};
ghost use Rattle.script_run.specs.Run.{CountsFaults};
ghost use Rattle.script_run.specs.Shared.{AnswersBy, AnswersShared, AreSettingsOfRun};

use crate::board_run::run_with_workers;
use crate::front::{Front, every_front_is_sound};
use crate::halt::Halt;
use crate::host::Host;
use crate::piece::{Piece, read_piece};
use crate::run::{PIECE_BYTES, end_of_all, end_of_halt};
use core_state::{
    RunSettings, a_seat_alone_has_the_queries_of_the_core, every_core_is_sound,
    only_abandon_abandons,
};
use event_core::Core;
use script_reader::{NextStatement, ScriptReader};
use star_io::{RunEnd, Sink, Source};
use star_values::NoMemory;
use std::sync::Wait;
use std::thread::Threads;
use worker_gate::Gate;

/// How a run ended, and the core that ran the script. There is none where no
/// memory was left for the run.
#[derive(Debug, Drop)]
pub struct RunDone {
    pub end: RunEnd,
    pub core: Option<Core>,
}

/// Reads a script to its end, and writes the reply to each of its statements, in order. The queries
/// go through one core, and those that are unfinished share its scan. A statement for which the
/// core found no memory replies `memory`, and so does a query that found none.
///
/// Without workers this thread has the core by itself, as in `run_on_one_thread`. With workers the
/// core lies on a board, and each worker has a seat, and a thread of its own where one can be made,
/// beside the front, which gives the statements to the core and writes the replies. Outside of
/// their turns they let batches pass filters, behind the gate.
///
/// At a read that fails, and at the byte past the limit, the statements that are whole before it
/// are answered. After a write that fails nothing more is written or read. Rows and groups are
/// found by hashes with the keys of the host, on which no reply depends.
pub fn run_script<R: Threads + Wait + Sync, S: Source, K: Sink, G: Gate + Sync>(
    host: Host<&R>,
    settings: RunSettings,
    source: &mut S,
    sink: &mut K,
    gate: &G,
) -> RunDone
    requires settings { AreSettingsOfRun settings }
    ensures answers { AnswersShared (settings.workers ≡ 0) settings result.core result.end
        (S.reading source.old) (S.reading source.new)
        (K.writing sink.old) (K.writing sink.new) }
    ensures faults { CountsFaults result.end
        (S.reading source.old) (S.reading source.new) (K.writing sink.old) (K.writing sink.new) }
    ensures apart { K.reading_side sink.new ≡ K.reading_side sink.old }
    ensures core { IsNone result.core ↔ (result.end ≡ end.NoMemory) }
    ensures run { (settings.workers ≡ 0) →
        IfSome result.core (λ core. IsRun (empty_core settings) (state_of core)) }
{
    if settings.workers == 0 {
        run_on_one_thread(host, settings, source, sink)
    } else {
        run_with_workers(host, settings, source, sink, gate)
    }
}

/// The same by this thread alone. The queries that are unfinished go together in one lap: all come
/// to their end at a `wait`, at the end of the input, a read fault or the script limit, before the
/// reply to a statement for which the core found no memory, and as soon as as many are
/// unfinished as there are slots.
pub fn run_on_one_thread<R: Threads + Sync, S: Source, K: Sink>(
    host: Host<&R>,
    settings: RunSettings,
    source: &mut S,
    sink: &mut K,
) -> RunDone
    requires { AreWithin settings }
    ensures answers { AnswersShared (Unit {0}) settings result.core result.end
        (S.reading source.old) (S.reading source.new)
        (K.writing sink.old) (K.writing sink.new) }
    ensures faults { CountsFaults result.end
        (S.reading source.old) (S.reading source.new) (K.writing sink.old) (K.writing sink.new) }
    ensures apart { K.reading_side sink.new ≡ K.reading_side sink.old }
    ensures core { IsNone result.core ↔ (result.end ≡ end.NoMemory) }
    ensures run { IfSome result.core (λ core. IsRun (empty_core settings) (state_of core)) }
{
    let Ok(mut front) = Front::new(host.alloc, host.hash_keys, settings) else {
        return RunDone {
            end: RunEnd::NoMemory,
            core: None,
        };
    };
    let mut reader = ScriptReader::new(host.alloc);
    let end = play_script(host.rt, &mut front, &mut reader, source, sink);
    RunDone {
        end,
        core: core_of(end, front),
    }
}

/// The core of a run that ended so, unless no memory was left for the run.
fn core_of(run_end: RunEnd, front: Front) -> Option<Core>
    ensures none { IsNone result ↔ (run_end ≡ end.NoMemory) }
    ensures own { IfSome result (λ core. core ≡ front.core) }
{
    let core = front.into_core();
    match run_end {
        RunEnd::NoMemory => {
            drop(core);
            None
        }
        _ => Some(core),
    }
}

/// Reads a script to its end by a reader that was fed with nothing, and gives its
/// statements to an empty core.
fn play_script<R: Threads + Sync, S: Source, K: Sink>(
    rt: &R,
    front: &mut Front,
    reader: &mut ScriptReader,
    source: &mut S,
    sink: &mut K,
) -> RunEnd
    requires front { IsNewFront (state_of front.old.core).settings front.old }
    requires reader { reader.old ≡ no_reading }
    ensures answers { AnswersBy (state_of front.old.core).settings (state_of front.new.core) result
        (S.reading source.old) (S.reading source.new)
        (K.writing sink.old) (K.writing sink.new) }
    ensures faults { CountsFaults result
        (S.reading source.old) (S.reading source.new) (K.writing sink.old) (K.writing sink.new) }
    ensures apart { K.reading_side sink.new ≡ K.reading_side sink.old }
    ensures run { IsRun (state_of front.old.core) (state_of front.new.core) }
{
    // The four are called for what they ensure.
    every_front_is_sound(front);
    every_core_is_sound();
    only_abandon_abandons();
    a_seat_alone_has_the_queries_of_the_core();
    let mut piece = [0u8; PIECE_BYTES];
    let mut refused = false;
    'pieces: loop {
        match play_whole(rt, front, reader, sink) {
            Ok(some) => refused |= some,
            Err(halt) => return end_of_halt(halt),
        }
        match read_piece(source, &mut piece, reader) {
            Piece::Fed => {}
            Piece::Ended => break 'pieces,
            Piece::Fault => return end_behind(front.play_out(rt, sink), RunEnd::ReadFault),
            Piece::Limit => return end_behind(front.play_out(rt, sink), RunEnd::ScriptLimit),
            Piece::NoMemory => return RunEnd::NoMemory,
        }
    }
    reader.finish();
    match play_whole(rt, front, reader, sink) {
        Ok(some) => end_of_rest(refused | some, front.play_out(rt, sink)),
        Err(halt) => end_of_halt(halt),
    }
}

/// Gives the statements that are whole to the core, one after the other, and tells whether some
/// reply that was written meanwhile is a refusal.
pub(crate) fn play_whole<R: Threads + Sync, K: Sink>(
    rt: &R,
    front: &mut Front,
    reader: &mut ScriptReader,
    sink: &mut K,
) -> Result<bool, Halt>
    requires { HasFreeSlot front.old }
    ensures plays { PlaysWhole result (state_of front.old.core) reader.old
        (state_of front.new.core) reader.new
        (K.writing sink.old).taken (K.writing sink.new).taken }
    ensures stays { StaysFed reader.old reader.new }
    ensures runs { RunsOn result front.old front.new (K.writing sink.old) (K.writing sink.new) }
    ensures apart { K.reading_side sink.new ≡ K.reading_side sink.old }
{
    let mut refused = false;
    'statements: loop {
        let NextStatement::Got(statement) = reader.next_statement()? else {
            return Ok(refused);
        };
        refused |= front.play(rt, statement, sink)?;
    }
}

/// How a run ends whose input was read to its end and whose statements were given to the core, once
/// the other replies were written or halted.
pub(crate) fn end_of_rest(refused: bool, written: Result<bool, Halt>) -> RunEnd
    ensures { result ≡ end_of_rest refused written }
{
    match written {
        Ok(others) => end_of_all(refused | others),
        Err(halt) => end_of_halt(halt),
    }
}

/// How a run ends whose reading ended so, once its replies were written or halted.
pub(crate) fn end_behind(written: Result<bool, Halt>, reading: RunEnd) -> RunEnd
    ensures { result ≡ end_behind written reading }
{
    match written {
        Ok(_) => reading,
        Err(halt) => end_of_halt(halt),
    }
}
