//! The run of the made workload, whose one line is written to a sink.
ghost use Rattle.std.specs.Prelude.{◌≡◌, ◌+◌, ◌≤◌, Bool, None, length, IfOk};
ghost use Rattle.script_reader.specs.declared.reader.TheConstants.{SCRIPT_LIMIT};
ghost use Rattle.make_load.specs.Script.{made_script};
ghost use Rattle.core_state.specs.Settings.{AreWithin};
ghost use Rattle.script_run.specs.End.{end_of_all};
ghost use Rattle.make_load.specs.Made.{AnswersMade, CountsMade, EndsText, HandsBack, HandsOn, IsTextOf, TellsRan, WritesSummed, end_behind};
ghost use Rattle.make_load.specs.declared.made.MadeEnd.TheVariants as end;

use crate::laws::made_scripts_are_within_the_limit;
use crate::line::{Summed, sum_up};
use crate::ran::{Ran, run_text, run_text_on_one_thread};
use crate::script::make_script;
use core_state::RunSettings;
use event_core::Core;
use script_run::Host;
use star_io::{Failed, Sink, write_all};
use star_values::{ByteText, NoMemory};
use std::alloc::Global;
use std::sync::Wait;
use std::thread::Threads;
use worker_gate::Gate;

/// How a run of the made workload ended.
#[derive(Clone, Copy, Debug, PartialEq, Eq)]
pub enum MadeEnd {
    /// The line was written, and no statement was refused.
    Clean,
    /// The line was written, and some reply is a refusal or `memory`.
    SomeRefused,
    /// A write of the line failed.
    WriteFault,
    /// The run itself found no memory.
    NoMemory,
}

/// How a run ended, and the core that ran the script. There is none where no memory was left.
#[derive(Debug, Drop)]
pub struct MadeDone {
    pub end: MadeEnd,
    pub core: Option<Core>,
}

/// Runs the script that a seed makes with so many sales, and writes the line that sums up its
/// replies. These stay in memory, and the line is written behind the last of them.
///
/// The workers of the settings share the core with the one who reads, each behind the gate. Without
/// workers it does what `run_made_on_one_thread` does.
pub fn run_made<R: Threads + Wait + Sync, K: Sink, G: Gate + Sync>(
    host: Host<&R>,
    settings: RunSettings,
    seed: u32,
    rows: u32,
    sink: &mut K,
    gate: &G,
) -> MadeDone
    requires settings { AreWithin settings }
    requires seats { settings.seats ≡ settings.workers + 1 }
    requires few { rows ≤ 1000000 }
    ensures answers { AnswersMade (settings.workers ≡ 0) settings seed rows result.core result.end
        (K.writing sink.old) (K.writing sink.new) }
    ensures faults { CountsMade result.end (K.writing sink.old) (K.writing sink.new) }
    ensures back { HandsBack (settings.workers ≡ 0) settings
        result.core (result.end ≡ end.NoMemory) }
{
    let Ok(script) = made_text(host.alloc, seed, rows) else {
        return without_memory();
    };
    let bytes = script.as_bytes();
    let ran = run_text(host, settings, bytes, gate);
    tell(host.alloc, ran, bytes, sink)
}

/// The same on one thread but for the threads of a turn, so that it comes to its end where they and
/// the sink do.
pub fn run_made_on_one_thread<R: Threads + Sync, K: Sink>(
    host: Host<&R>,
    settings: RunSettings,
    seed: u32,
    rows: u32,
    sink: &mut K,
) -> MadeDone
    requires settings { AreWithin settings }
    requires few { rows ≤ 1000000 }
    ensures answers { AnswersMade (Unit {0}) settings seed rows result.core result.end
        (K.writing sink.old) (K.writing sink.new) }
    ensures faults { CountsMade result.end (K.writing sink.old) (K.writing sink.new) }
    ensures back { HandsBack (Unit {0}) settings result.core (result.end ≡ end.NoMemory) }
{
    let Ok(script) = made_text(host.alloc, seed, rows) else {
        return without_memory();
    };
    let bytes = script.as_bytes();
    let ran = run_text_on_one_thread(host, settings, bytes);
    tell(host.alloc, ran, bytes, sink)
}

/// The script that a seed makes with so many sales.
fn made_text(alloc: Global, seed: u32, rows: u32) -> Result<ByteText, NoMemory>
    requires { rows ≤ 1000000 }
    ensures made { IfOk result (λ text. text ≡ made_script seed rows) }
    ensures short { IfOk result (λ text. length text ≤ SCRIPT_LIMIT) }
{
    // It is called for what it ensures.
    made_scripts_are_within_the_limit();
    make_script(alloc, seed, rows)
}

/// What came of a run for which no memory was left before it began.
fn without_memory() -> MadeDone
    ensures end { result.end ≡ end.NoMemory }
    ensures core { result.core ≡ None }
{
    MadeDone {
        end: MadeEnd::NoMemory,
        core: None,
    }
}

/// Sums up the replies of a run in memory, writes the line, and hands the core on.
fn tell<K: Sink>(alloc: Global, ran: Ran, script: &[u8], sink: &mut K) -> MadeDone
    requires short { length script.now ≤ SCRIPT_LIMIT }
    requires ends { EndsText ran.end }
    requires text { (refused : Bool) → ran.end ≡ end_of_all refused →
        IsTextOf ran.replies.taken script.now }
    ensures tells { TellsRan script.now ran result (K.writing sink.old) (K.writing sink.new) }
    ensures faults { CountsMade result.end (K.writing sink.old) (K.writing sink.new) }
{
    let summed = sum_up(alloc, ran.end, ran.replies.bytes(), script);
    let end = write_line(summed, sink);
    MadeDone {
        end,
        core: core_behind(end, ran.core),
    }
}

/// Writes a line, if there is one, and tells how the run ends.
fn write_line<K: Sink>(summed: Result<Summed, NoMemory>, sink: &mut K) -> MadeEnd
    ensures writes { WritesSummed summed result (K.writing sink.old) (K.writing sink.new) }
    ensures faults { CountsMade result (K.writing sink.old) (K.writing sink.new) }
{
    match summed {
        Ok(summed) => {
            let written = write_all(sink, summed.line.as_bytes());
            end_behind(written, summed.refused)
        }
        Err(NoMemory) => MadeEnd::NoMemory,
    }
}

/// How a run ends whose line was written, or not all of it.
fn end_behind(written: Result<(), Failed>, refused: bool) -> MadeEnd
    ensures { result ≡ end_behind written refused }
{
    match written {
        Ok(()) if refused => MadeEnd::SomeRefused,
        Ok(()) => MadeEnd::Clean,
        Err(Failed) => MadeEnd::WriteFault,
    }
}

/// The core that is handed back behind this end.
fn core_behind(made_end: MadeEnd, found: Option<Core>) -> Option<Core>
    ensures { HandsOn made_end found result }
{
    match made_end {
        MadeEnd::Clean => found,
        MadeEnd::SomeRefused => found,
        MadeEnd::WriteFault => found,
        MadeEnd::NoMemory => {
            drop(found);
            None
        }
    }
}
