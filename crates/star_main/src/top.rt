//! The top call, on which the headline stands.
ghost use Rattle.std.specs.Prelude.{◌≡◌, ◌≢◌, ◌<◌, ◌+◌, None, Some, IfSome};
ghost use Rattle.std.specs.Prelude.{IsSomeAnd, map, string_bytes};
ghost use Rattle.star_io.specs.Door.{DoorSide};
ghost use Rattle.star_io.specs.Faults.{FailedOnce};
ghost use Rattle.star_io.specs.Link.{ReadingSide};
ghost use Rattle.core_state.specs.Settings.{AreWithin};
ghost use Rattle.star_main.specs.ByMode.{AnswersAlone, AnswersByMode, AnswersMake, AnswersRun, AnswersServe, IsFaulty, outside, untouched};
ghost use Rattle.star_main.specs.Complete.{IsComplete};
ghost use Rattle.star_main.specs.HandedBack.{core_in};
ghost use Rattle.star_main.specs.Headline.{Headline, HasCause, status_of as run_status};
ghost use Rattle.star_main.specs.Made.{made_status_of};
ghost use Rattle.star_main.specs.Modes.{HasScript, MayWait, run_settings_of, serve_settings_of};
ghost use Rattle.star_main.specs.Ranges.{AreInRange};
ghost use Rattle.star_main.specs.Serving.{serve_status_of};
ghost use Rattle.star_main.specs.Table.{settings_of};
ghost use Rattle.star_main.specs.WordsOutcome.{IfLeft, IfRan};
ghost use Rattle.star_main.specs.declared.settings.Settings.{Settings as SettingsData};

use crate::reading::read_words;
use crate::settings::{Mode, Settings};
use core_state::RunSettings;
use event_core::Core;
use make_load::{MadeDone, MadeEnd, run_made, run_made_on_one_thread};
use script_run::{Host, RunDone, run_alone, run_on_one_thread, run_script};
use session_server::serve;
use star_io::{Door, RunEnd, ServeEnd, Sink, Source};
use star_values::NoMemory;
use std::sync::Wait;
use std::thread::Threads;
use worker_gate::Gate;

/// The status of words that name no settings.
pub(crate) const FAULTY_WORDS: u8 = 2;

/// The status where no memory is left for the words or for the run itself.
pub(crate) const OUT_OF_MEMORY: u8 = 5;

/// How many seats of a server are no worker's: 64 are of sessions, and one is of the thread that
/// takes the connections.
const OTHER_SEATS: u32 = 65;

/// What a call hands back beside its status.
#[derive(Debug, Drop)]
pub enum HandedBack {
    /// Nothing: the mode is `alone` or `serve`, the words name no settings, or no memory was left
    /// for the words or for the run.
    Nothing,

    /// The core that ran the script or the made workload.
    Core(Core),
}

/// What came of the top call.
#[derive(Debug, Drop)]
pub struct TopDone {
    /// The status with which the program ends.
    pub status: u8,

    pub handed: HandedBack,
}

/// What came of the words, before anything that may wait.
#[derive(Debug, Drop)]
pub enum WordsOutcome {
    /// A script or the made workload was run, or the words name no settings, or no memory was left
    /// for them.
    Ran(TopDone),

    /// A script is to be run with workers, by these settings.
    RunWithWorkers(Settings),

    /// The made workload is to be run with workers, by these settings.
    MakeWithWorkers(Settings),

    /// Connections are to be served, by these settings.
    Serve(Settings),
}

/// Does what the words say, and answers the status with which the program ends, and what the mode
/// hands back.
///
/// 0: the input was read to its end, and every reply was written. 1: the same, and some reply is a
/// refusal or `memory`. 2: the words name no settings, and nothing was read or written. 3: a read
/// failed. 4: a write failed. 5: no memory was left for the words, and nothing was read or written,
/// or none for the run itself. 6: the script is longer than 67,108,864 bytes. 7: a call of the door
/// failed.
///
/// Mode `run` answers the script of the source: its queries share the scan of one core, which is
/// handed back. Mode `alone` answers each of them by itself. Mode `make` runs the script that seed
/// and rows make, and writes one line that sums up the replies; it does not read the source. Mode
/// `serve` asks the door for the connections that come to the port, until the door ends or `accept`
/// connections were taken, if that is not 0, and touches neither source nor sink. Up to 64 are
/// served at once, over one core.
///
/// In the modes `run`, `make` and `serve` the workers of the settings share the core: they let
/// batches pass the filters, behind the gate, and make other events. No reply and no status depends
/// on their number, on slots and batch, or on the keys of the host, by which rows and groups are
/// hashed. With workers, and in mode `serve`, the call may wait.
pub fn cjoin<R: Threads + Sync + Wait, S: Source, K: Sink, D: Door, G: Gate + Sync>(
    host: Host<&R>,
    words: &[String],
    source: &mut S,
    sink: &mut K,
    door: &mut D,
    gate: &G,
) -> TopDone
    ensures faulty { IsFaulty (settings_of (map string_bytes words.now)) result
        (untouched (source.new ≡ source.old) (sink.new ≡ sink.old) (door.new ≡ door.old)) }
    ensures headline { IfSome (settings_of (map string_bytes words.now)) (λ settings.
        HasScript settings →
        Headline (run_settings_of settings) (core_in result.handed) result.status
        (S.reading source.old) (S.reading source.new)
        (K.writing sink.old) (K.writing sink.new)) }
    ensures answers { IfSome (settings_of (map string_bytes words.now)) (λ settings.
        AnswersByMode settings result
        (outside (S.reading source.old) (K.writing sink.old) (D.accepting door.old))
        (outside (S.reading source.new) (K.writing sink.new) (D.accepting door.new))
        (untouched (source.new ≡ source.old) (sink.new ≡ sink.old) (door.new ≡ door.old))) }
    ensures causes { HasCause result.status (S.reading source.old) (S.reading source.new)
        (K.writing sink.old) (K.writing sink.new) }
    ensures complete { IfSome (settings_of (map string_bytes words.now)) (λ settings.
        IsComplete settings result.status
        (S.reading source.old) (S.reading source.new) (K.writing sink.old) (K.writing sink.new)
        (FailedOnce (D.accepting door.old).faults (D.accepting door.new).faults
        (D.accepting door.new).failed)) }
{
    match run_words(host, words, source, sink) {
        WordsOutcome::Ran(done) => done,
        WordsOutcome::RunWithWorkers(settings) => {
            run_with_workers(host, &settings, source, sink, gate)
        }
        WordsOutcome::MakeWithWorkers(settings) => make_with_workers(host, &settings, sink, gate),
        WordsOutcome::Serve(settings) => serve_connections(host, &settings, door, gate),
    }
}

/// Does what the words say where no other thread has to be waited for. What may wait, a run with
/// workers or the serving of connections, is told instead, and nothing is touched. All that `cjoin`
/// says of the other modes and settings holds here of a call that waits for no one, and so comes to
/// its end, where source and sink do, and the threads of a turn.
pub fn run_words<R: Threads + Sync, S: Source, K: Sink>(
    host: Host<&R>,
    words: &[String],
    source: &mut S,
    sink: &mut K,
) -> WordsOutcome
    ensures left { IfLeft result (λ settings.
        (settings_of (map string_bytes words.now) ≡ Some settings) × AreInRange settings
        × (source.new ≡ source.old) × (sink.new ≡ sink.old)) }
    ensures waits { IfRan result (λ done.
        IsSomeAnd (settings_of (map string_bytes words.now)) MayWait →
        (done.status ≡ 5) × (source.new ≡ source.old) × (sink.new ≡ sink.old)) }
    ensures faulty { IfRan result (λ done. IsFaulty (settings_of (map string_bytes words.now)) done
        (untouched (source.new ≡ source.old) (sink.new ≡ sink.old) (Unit {0}))) }
    ensures answers { IfRan result (λ done. (door : DoorSide) →
        IfSome (settings_of (map string_bytes words.now)) (λ settings. AnswersByMode settings done
        (outside (S.reading source.old) (K.writing sink.old) door)
        (outside (S.reading source.new) (K.writing sink.new) door)
        (untouched (source.new ≡ source.old) (sink.new ≡ sink.old) (Unit {0})))) }
    ensures causes { IfRan result (λ done. HasCause done.status
        (S.reading source.old) (S.reading source.new)
        (K.writing sink.old) (K.writing sink.new)) }
    ensures complete { IfRan result (λ done.
        IfSome (settings_of (map string_bytes words.now)) (λ settings.
        IsComplete settings done.status (S.reading source.old) (S.reading source.new)
        (K.writing sink.old) (K.writing sink.new) ⊥)) }
{
    match read_words(host.alloc, words) {
        Ok(Some(settings)) => match (settings.mode, settings.workers) {
            (Mode::Run, 0) => WordsOutcome::Ran(run_shared(host, &settings, source, sink)),
            (Mode::Run, _) => WordsOutcome::RunWithWorkers(settings),
            (Mode::Alone, _) => WordsOutcome::Ran(run_each_alone(host, source, sink)),
            (Mode::Make, 0) => WordsOutcome::Ran(make_shared(host, &settings, sink)),
            (Mode::Make, _) => WordsOutcome::MakeWithWorkers(settings),
            (Mode::Serve, _) => WordsOutcome::Serve(settings),
        },
        Ok(None) => WordsOutcome::Ran(with_nothing(FAULTY_WORDS)),
        Err(NoMemory) => WordsOutcome::Ran(with_nothing(OUT_OF_MEMORY)),
    }
}

/// Runs a script whose queries share the scan of one core, on one thread but for those of a turn.
fn run_shared<R: Threads + Sync, S: Source, K: Sink>(
    host: Host<&R>,
    settings: &Settings,
    source: &mut S,
    sink: &mut K,
) -> TopDone
    requires { AreInRange settings.now }
    ensures answers { AnswersRun settings.now result (S.reading source.old) (S.reading source.new)
        (K.writing sink.old) (K.writing sink.new) }
    ensures causes { HasCause result.status (S.reading source.old) (S.reading source.new)
        (K.writing sink.old) (K.writing sink.new) }
{
    let core = run_settings(settings);
    done_of(run_on_one_thread(host, core, source, sink))
}

/// Runs a script whose queries share the scan of one core with workers.
fn run_with_workers<R: Threads + Sync + Wait, S: Source, K: Sink, G: Gate + Sync>(
    host: Host<&R>,
    settings: &Settings,
    source: &mut S,
    sink: &mut K,
    gate: &G,
) -> TopDone
    requires range { AreInRange settings.now }
    requires workers { 0 < settings.now.workers }
    ensures answers { AnswersRun settings.now result (S.reading source.old) (S.reading source.new)
        (K.writing sink.old) (K.writing sink.new) }
    ensures causes { HasCause result.status (S.reading source.old) (S.reading source.new)
        (K.writing sink.old) (K.writing sink.new) }
{
    let core = run_settings(settings);
    done_of(run_script(host, core, source, sink, gate))
}

/// Runs a script each of whose queries is answered by itself, without a core.
fn run_each_alone<R, S: Source, K: Sink>(host: Host<&R>, source: &mut S, sink: &mut K) -> TopDone
    ensures answers { (settings : SettingsData) → AnswersAlone settings result
        (S.reading source.old) (S.reading source.new)
        (K.writing sink.old) (K.writing sink.new) }
    ensures causes { HasCause result.status (S.reading source.old) (S.reading source.new)
        (K.writing sink.old) (K.writing sink.new) }
{
    with_nothing(status_of(run_alone(host.alloc, host.hash_keys, source, sink)))
}

/// Runs the made workload, whose queries share the scan of one core, on one thread but for those of
/// a turn, and writes the line that sums up its replies.
fn make_shared<R: Threads + Sync, K: Sink>(
    host: Host<&R>,
    settings: &Settings,
    sink: &mut K,
) -> TopDone
    requires { AreInRange settings.now }
    ensures answers { AnswersMake settings.now result (K.writing sink.old) (K.writing sink.new) }
    ensures causes { (source : ReadingSide) → HasCause result.status source source
        (K.writing sink.old) (K.writing sink.new) }
{
    let core = run_settings(settings);
    made_of(run_made_on_one_thread(host, core, settings.seed, settings.rows, sink))
}

/// Runs the made workload, whose queries share the scan of one core, with workers, and writes the
/// line that sums up its replies.
fn make_with_workers<R: Threads + Sync + Wait, K: Sink, G: Gate + Sync>(
    host: Host<&R>,
    settings: &Settings,
    sink: &mut K,
    gate: &G,
) -> TopDone
    requires range { AreInRange settings.now }
    requires workers { 0 < settings.now.workers }
    ensures answers { AnswersMake settings.now result (K.writing sink.old) (K.writing sink.new) }
    ensures causes { (source : ReadingSide) → HasCause result.status source source
        (K.writing sink.old) (K.writing sink.new) }
{
    let core = run_settings(settings);
    let seed = settings.seed;
    let rows = settings.rows;
    made_of(run_made(host, core, seed, rows, sink, gate))
}

/// Serves connections at the port over one core, many at once, beside the workers.
fn serve_connections<R: Threads + Sync + Wait, D: Door, G: Gate + Sync>(
    host: Host<&R>,
    settings: &Settings,
    door: &mut D,
    gate: &G,
) -> TopDone
    requires { AreInRange settings.now }
    ensures { AnswersServe settings.now result (D.accepting door.old) (D.accepting door.new) }
{
    let core = serve_settings(settings);
    let port = settings.port;
    let accept = settings.accept;
    let end = serve(host, core, port, accept, door, gate);
    with_nothing(serve_status_of(end))
}

/// How large the core of a run is: a seat for each worker, and for the one who reads the script.
fn run_settings(settings: &Settings) -> RunSettings
    requires { AreInRange settings.now }
    ensures size { result ≡ run_settings_of settings.now }
    ensures within { AreWithin result }
    ensures seats { result.seats ≡ result.workers + 1 }
{
    RunSettings {
        workers: settings.workers,
        slots: settings.slots,
        batch: settings.batch,
        seats: settings.workers + 1,
    }
}

/// How large the core of a server is: a seat for each worker, one for the thread that takes the
/// connections, and those of sessions.
fn serve_settings(settings: &Settings) -> RunSettings
    requires { AreInRange settings.now }
    ensures size { result ≡ serve_settings_of settings.now }
    ensures within { AreWithin result }
    ensures seats { result.workers < result.seats }
{
    let workers = settings.workers;
    RunSettings {
        workers,
        slots: settings.slots,
        batch: settings.batch,
        seats: workers + OTHER_SEATS,
    }
}

/// A status with nothing beside it.
fn with_nothing(status: u8) -> TopDone
    ensures status { result.status ≡ status }
    ensures nothing { result.handed ≡ HandedBack.Nothing }
{
    TopDone {
        status,
        handed: HandedBack::Nothing,
    }
}

/// A status, with the core beside it, if there is one.
fn with_core(status: u8, core: Option<Core>) -> TopDone
    ensures status { result.status ≡ status }
    ensures core { core_in result.handed ≡ core }
{
    let handed = match core {
        Some(core) => HandedBack::Core(core),
        None => HandedBack::Nothing,
    };
    TopDone { status, handed }
}

/// The status of a run, beside its core.
fn done_of(done: RunDone) -> TopDone
    ensures status { result.status ≡ run_status done.end }
    ensures core { core_in result.handed ≡ done.core }
{
    with_core(status_of(done.end), done.core)
}

/// The status of a run.
fn status_of(end: RunEnd) -> u8
    ensures { result ≡ run_status end }
{
    match end {
        RunEnd::Clean => 0,
        RunEnd::SomeRefused => 1,
        RunEnd::ReadFault => 3,
        RunEnd::WriteFault => 4,
        RunEnd::NoMemory => OUT_OF_MEMORY,
        RunEnd::ScriptLimit => 6,
    }
}

/// The status of a run of the made workload, beside its core.
fn made_of(done: MadeDone) -> TopDone
    ensures status { result.status ≡ made_status_of done.end }
    ensures core { core_in result.handed ≡ done.core }
{
    let status = match done.end {
        MadeEnd::Clean => 0,
        MadeEnd::SomeRefused => 1,
        MadeEnd::WriteFault => 4,
        MadeEnd::NoMemory => OUT_OF_MEMORY,
    };
    with_core(status, done.core)
}

/// The status of the serving of connections.
fn serve_status_of(end: ServeEnd) -> u8
    ensures { result ≡ serve_status_of end }
{
    match end {
        ServeEnd::Ended => 0,
        ServeEnd::NoMemory => OUT_OF_MEMORY,
        ServeEnd::DoorFault => 7,
    }
}
