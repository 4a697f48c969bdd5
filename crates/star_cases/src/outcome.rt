//! What came of the runs of a case.
ghost use Rattle.std.specs.Prelude.{◌≡◌, ◌&&◌, ◌==◌, ◌<◌, not, length, IfOk, IsNone, count_by};
ghost use Rattle.std.specs.List.{list_all};
ghost use Rattle.script_run.specs.Run.{AnswersScript};
ghost use Rattle.star_cases.specs.Outcome.{AnswersItsScript, IsWayWithin, is_right};

use crate::case::{Case, read_case};
use crate::judge::{RunFault, fault_of};
use core_state::RunSettings;
use script_run::{Host, RunDone, run_alone, run_on_one_thread, run_script};
use star_io::{ListSink, PieceSource, RunEnd, Sink, Source};
use std::alloc::{AllocError, Global};
use std::fmt;
use std::rt::Files;
use std::sync::Wait;
use std::thread::Threads;
use worker_gate::NoGate;

/// As how many bytes at once a script comes and its replies go: few, and all that is asked for.
const FEW_BYTES: [usize; 2] = [1, 7];

const ALL_BYTES: usize = 65_536;

/// How a script is run: each query by itself, in a core of these settings, or
/// in one that workers share.
#[derive(Clone, Copy, Debug)]
enum RunWay {
    Alone,
    Shared(RunSettings),
    Worked(RunSettings),
}

/// How many ways there are to run a script in a core.
const CORE_WAYS: u32 = 5;

/// The ways in a core, by their numbers: with the settings of the program, the same with rows that
/// pass alone, a slot with rows that pass alone, some whose batches pass on several threads, and
/// the same with two workers.
fn core_way(number: u32) -> RunWay
    ensures { IsWayWithin result }
{
    match number {
        0 => RunWay::Shared(settings(0, 64, 256, 1)),
        1 => RunWay::Shared(settings(0, 64, 1, 1)),
        2 => RunWay::Shared(settings(0, 1, 1, 1)),
        3 => RunWay::Shared(settings(2, 3, 2, 1)),
        _ => RunWay::Worked(settings(2, 3, 2, 3)),
    }
}

/// Settings by their numbers, in this order.
fn settings(workers: u32, slots: u32, batch: u32, seats: u32) -> RunSettings
    ensures { result
        ≡ record { workers = workers; slots = slots; batch = batch; seats = seats } }
{
    RunSettings {
        workers,
        slots,
        batch,
        seats,
    }
}

/// A case, and what is wrong with it, if anything is.
#[derive(Debug, Drop)]
pub(crate) struct CaseOutcome {
    name: String,
    wrong: Option<String>,
}

impl fmt::Display for CaseOutcome {
    fn fmt<W: fmt::Write>(&self, f: &mut fmt::Formatter<W>) -> fmt::Result {
        match &self.wrong {
            None => write!(f, "ok {}", self.name),
            Some(wrong) => write!(f, "WRONG {}: {wrong}", self.name),
        }
    }
}

/// Whether nothing is wrong with a case.
fn is_right(outcome: &CaseOutcome) -> bool
    ensures { result ≡ is_right outcome.now }
{
    outcome.wrong.is_none()
}

/// How many cases are right.
pub(crate) fn count_right(outcomes: &[CaseOutcome]) -> usize
    ensures { result ≡ count_by is_right outcomes.now }
{
    outcomes.iter().filter(|outcome| is_right(*outcome)).count()
}

fn is_each_right(outcomes: &[CaseOutcome]) -> bool
    ensures { result ≡ list_all is_right outcomes.now }
{
    outcomes.iter().all(|outcome| is_right(outcome))
}

/// Whether there are cases, and all are right.
pub(crate) fn are_all_right(outcomes: &[CaseOutcome]) -> bool
    ensures { result ≡ not (length outcomes.now == 0) && list_all is_right outcomes.now }
{
    !outcomes.is_empty() && is_each_right(outcomes)
}

/// Runs a case of a folder. Files that cannot be read are wrong.
pub(crate) fn check_case<R: Files + AllocGlobal + Threads + Wait + Sync>(
    host: Host<&R>,
    folder: &str,
    name: String,
) -> Result<CaseOutcome, AllocError> {
    let wrong = match read_case(host.rt, folder, name.as_str()) {
        Ok(case) => wrong_in(host, &case)?,
        Err(error) => Some(format!(in host.alloc; "not read: {error}")?),
    };
    Ok(CaseOutcome { name, wrong })
}

/// What is wrong with the first run of a case that is wrong: first each query
/// by itself, then in a core.
fn wrong_in<R: Threads + Wait + Sync>(
    host: Host<&R>,
    case: &Case,
) -> Result<Option<String>, AllocError>
    ensures { IfOk result
        (λ wrong. IsNone wrong → AnswersItsScript case.now.script.items case.now.replies.items) }
{
    if let Some(wrong) = wrong_in_way(host, case, RunWay::Alone)? {
        return Ok(Some(wrong));
    }
    for number in 0..CORE_WAYS {
        let way = core_way(number);
        if let Some(wrong) = wrong_in_way(host, case, way)? {
            return Ok(Some(wrong));
        }
    }
    Ok(None)
}

/// What is wrong with the first run in a way that is wrong.
fn wrong_in_way<R: Threads + Wait + Sync>(
    host: Host<&R>,
    case: &Case,
    way: RunWay,
) -> Result<Option<String>, AllocError>
    requires { IsWayWithin way }
    ensures { IfOk result
        (λ wrong. IsNone wrong → AnswersItsScript case.now.script.items case.now.replies.items) }
{
    for piece in FEW_BYTES {
        if let Some(wrong) = wrong_in_pieces(host, case, way, piece)? {
            return Ok(Some(wrong));
        }
    }
    wrong_in_pieces(host, case, way, ALL_BYTES)
}

/// What is wrong with a run whose bytes come and go in pieces of this size.
fn wrong_in_pieces<R: Threads + Wait + Sync>(
    host: Host<&R>,
    case: &Case,
    way: RunWay,
    piece: usize,
) -> Result<Option<String>, AllocError>
    requires piece { 0 < piece }
    requires within { IsWayWithin way }
    ensures { IfOk result
        (λ wrong. IsNone wrong → AnswersItsScript case.now.script.items case.now.replies.items) }
{
    let alloc = host.alloc;
    let mut source = PieceSource::new(case.script.clone()?, piece, Vec::new(alloc));
    let mut sink = ListSink::new(alloc, piece, Vec::new(alloc));
    let end = run(host, way, &mut source, &mut sink);
    match fault_of(sink.bytes(), end, &case.replies) {
        None => Ok(None),
        Some(fault) => Ok(Some(told(alloc, fault, way, piece, sink.bytes(), &case.replies)?)),
    }
}

/// Runs a script in a way.
fn run<R: Threads + Wait + Sync, S: Source, K: Sink>(
    host: Host<&R>,
    way: RunWay,
    source: &mut S,
    sink: &mut K,
) -> RunEnd
    requires { IsWayWithin way }
    ensures { AnswersScript result
        (S.reading source.old) (S.reading source.new) (K.writing sink.old) (K.writing sink.new) }
{
    match way {
        RunWay::Alone => run_alone(host.alloc, host.hash_keys, source, sink),
        RunWay::Shared(settings) => end_of(run_on_one_thread(host, settings, source, sink)),
        RunWay::Worked(settings) => {
            let gate = NoGate;
            end_of(run_script(host, settings, source, sink, &gate))
        }
    }
}

/// How a run ended, whose core is let go.
fn end_of(done: RunDone) -> RunEnd
    ensures { result ≡ done.end }
{
    done.end
}

/// A fault in words, with the two lines that differ and the lengths of the two texts.
fn told(
    alloc: Global,
    fault: RunFault,
    way: RunWay,
    piece: usize,
    written: &[u8],
    replies: &[u8],
) -> Result<String, AllocError> {
    match fault {
        RunFault::End(end) => {
            format!(in alloc; "{way:?} in pieces of {piece} bytes the run ends by {end:?}")
        }
        RunFault::Line(number) => {
            let one = line_at(written, number);
            let other = line_at(replies, number);
            let (length, wanted) = (written.len(), replies.len());
            format!(in alloc;
                "{way:?} in pieces of {piece} bytes line {number} is {one:?} and not {other:?}, of {length} bytes and not {wanted}"
            )
        }
    }
}

/// A line of a text, or nothing where it has fewer or the line is no text.
fn line_at(text: &[u8], number: usize) -> Option<&str> {
    let line = text.split(|byte| *byte == b'\n').nth(number)?;
    std::str::from_utf8(line).ok()
}
