//! A script of bytes in memory, run into a list of bytes.
ghost use Rattle.std.specs.Prelude.{◌≡◌, ◌+◌, ◌≤◌, length};
ghost use Rattle.star_io.specs.declared.run_end.RunEnd.TheVariants as end;
ghost use Rattle.script_reader.specs.declared.reader.TheConstants.{SCRIPT_LIMIT};
ghost use Rattle.core_state.specs.Settings.{AreWithin};
ghost use Rattle.make_load.specs.Made.{EndsText, HandsBack, RunsText};

use core_state::RunSettings;
use event_core::Core;
use script_run::{Host, run_on_one_thread, run_script};
use star_io::{ListSink, RunEnd, SureSource};
use std::sync::Wait;
use std::thread::Threads;
use worker_gate::Gate;

/// How the run of a script ended, the core that ran it, and the replies. There is no core if the run
/// was out of memory.
#[derive(Drop)]
pub(crate) struct Ran {
    pub(crate) end: RunEnd,
    pub(crate) core: Option<Core>,
    pub(crate) replies: ListSink,
}

/// Runs a script from memory, of which no read fails, and keeps its replies in memory.
pub(crate) fn run_text<R: Threads + Wait + Sync, G: Gate + Sync>(
    host: Host<&R>,
    settings: RunSettings,
    script: &[u8],
    gate: &G,
) -> Ran
    requires settings { AreWithin settings }
    requires seats { settings.seats ≡ settings.workers + 1 }
    requires short { length script.now ≤ SCRIPT_LIMIT }
    ensures ran { RunsText (settings.workers ≡ 0) settings script.now result }
    ensures ends { EndsText result.end }
    ensures back { HandsBack (settings.workers ≡ 0) settings
        result.core (result.end ≡ end.NoMemory) }
{
    let mut source = SureSource::new(script);
    let mut sink = ListSink::new(host.alloc, usize::MAX, Vec::new(host.alloc));
    let done = run_script(host, settings, &mut source, &mut sink, gate);
    Ran {
        end: done.end,
        core: done.core,
        replies: sink,
    }
}

/// The same on one thread, except for the threads of a turn, so that it returns if they do.
pub(crate) fn run_text_on_one_thread<R: Threads + Sync>(
    host: Host<&R>,
    settings: RunSettings,
    script: &[u8],
) -> Ran
    requires settings { AreWithin settings }
    requires short { length script.now ≤ SCRIPT_LIMIT }
    ensures ran { RunsText (Unit {0}) settings script.now result }
    ensures ends { EndsText result.end }
    ensures back { HandsBack (Unit {0}) settings result.core (result.end ≡ end.NoMemory) }
{
    let mut source = SureSource::new(script);
    let mut sink = ListSink::new(host.alloc, usize::MAX, Vec::new(host.alloc));
    let done = run_on_one_thread(host, settings, &mut source, &mut sink);
    Ran {
        end: done.end,
        core: done.core,
        replies: sink,
    }
}
