//! Runs with workers beside the front: the replies are the same, and batches pass their filters at
//! one time, outside of the lock.
ghost use Rattle.std.specs.Prelude.{◌≤◌};

use crate::served::host_of;
use core_state::RunSettings;
use make_load::{MadeEnd, make_script, print_summary, run_made, summary};
use script_run::{Host, run_alone, run_script};
use star_io::{ListSink, PieceSource, RunEnd};
use star_values::{ByteText, NoMemory};
use std::alloc::{AllocError, Global};
use std::hash::RandomState;
use std::sync::Wait;
use std::sync::atomic::Ordering::SeqCst;
use std::sync::atomic::{AtomicBool, AtomicU64};
use std::test::Fail;
use std::thread::{Threads, yield_now};
use worker_gate::{Gate, NoGate};

/// What is written of the made workload without sales, as another program reckoned it.
const LINE_OF_NONE: &str = "summary statements 85 commits 18 answers 60 rows 12 overflows 0 \
    refused 0 memory 0 bytes 1531 sum 125847\n";

/// How the line of the made workload begins.
const BEGIN: &[u8] = b"summary statements 85 commits 18 answers 60 rows ";

/// How many sales the large one has.
const SALES: u32 = 100_000;

/// Whether the made workload of so many sales is told in this line by a run with so many workers.
fn is_told<R: Threads + Wait + Sync>(host: Host<&R>, workers: u32, sales: u32, line: &[u8]) -> bool
    requires workers { workers ≤ 16 }
    requires sales { sales ≤ 1000000 }
{
    let settings = RunSettings {
        workers,
        slots: 64,
        batch: 256,
        seats: workers + 1,
    };
    let mut sink = ListSink::new(host.alloc, 1 << 16, Vec::new(host.alloc));
    let end = run_made(host, settings, 7, sales, &mut sink, &NoGate).end;
    end == MadeEnd::Clean && sink.bytes() == line
}

#[test]
fn the_made_workload_is_told_in_a_line(rt: HostRuntime) -> Result<(), Fail> {
    let host = host_of(&rt)?;
    let line = LINE_OF_NONE.as_bytes();
    assert!(rt; is_told(host, 0, 0, line), "without workers");
    assert!(rt; is_told(host, 1, 0, line), "with one");
    assert!(rt; is_told(host, 8, 0, line), "with eight");
    Ok(())
}

/// Writes the replies to a script whose queries are each answered by itself.
fn reply_alone(
    alloc: Global,
    hash_keys: RandomState,
    script: &[u8],
    sink: &mut ListSink,
) -> Result<RunEnd, AllocError> {
    let mut source = PieceSource::new(script.to_vec(alloc)?, 1 << 16, Vec::new(alloc));
    Ok(run_alone(alloc, hash_keys, &mut source, sink))
}

/// The line that sums up replies. It is empty where some line is none of a reply.
fn line_of(alloc: Global, replies: &[u8]) -> Result<ByteText, NoMemory> {
    let mut line = ByteText::new(alloc);
    if let Some(found) = summary(alloc, replies)? {
        print_summary(&found, &mut line)?;
    }
    Ok(line)
}

/// The line of the large made workload where each query is answered by itself.
fn line_alone(alloc: Global, hash_keys: RandomState) -> Result<ByteText, NoMemory> {
    let script = make_script(alloc, 7, SALES)?;
    let mut sink = ListSink::new(alloc, 1 << 16, Vec::new(alloc));
    reply_alone(alloc, hash_keys, script.as_bytes(), &mut sink)?;
    line_of(alloc, sink.bytes())
}

#[test]
fn the_large_made_workload_is_told_as_by_queries_alone(rt: HostRuntime) -> Result<(), Fail> {
    let host = host_of(&rt)?;
    let line = line_alone(host.alloc, host.hash_keys)?;
    let line = line.as_bytes();
    assert!(rt; line.starts_with(BEGIN));
    assert!(rt; is_told(host, 0, SALES, line), "without workers");
    assert!(rt; is_told(host, 1, SALES, line), "with one");
    assert!(rt; is_told(host, 8, SALES, line), "with eight");
    Ok(())
}

/// Four rows that one filter is asked of, and a query that wants all.
pub(crate) const SCRIPT: &str = "dimension store (id int key, city text)
fact sales (store_id int references store, units int)
load store
1,Oslo
2,Rome
.
load sales
1,5
2,1
1,10
2,3
.
select city, count(*), sum(units) from sales, store where sales.store_id = store.id group by city
";

/// The replies to it.
pub(crate) const REPLIES: &str = "table store
table sales
commit 1 rows 2
commit 2 rows 4
answer 2 rows 2
'Oslo',2,15
'Rome',2,4
";

/// How often one that is held back looks for the others, before it goes on without them.
pub(crate) const MOST_LOOKS: u32 = 1_000_000;

/// A gate that holds each batch back until three seats have had one each, none the same.
#[derive(Drop)]
struct ThreeAtOnce {
    /// For each seat the number of the batch that it had last, and one; 0 where it had none.
    front: AtomicU64,
    first: AtomicU64,
    second: AtomicU64,

    /// Whether some batch went on without the others.
    failed: AtomicBool,
}

impl ThreeAtOnce {
    /// A gate to which no batch came yet.
    fn new() -> ThreeAtOnce {
        ThreeAtOnce {
            front: AtomicU64::new(0),
            first: AtomicU64::new(0),
            second: AtomicU64::new(0),
            failed: AtomicBool::new(false),
        }
    }

    /// Notes that a seat has a batch.
    fn note(&self, worker: u32, batch: u64) {
        let had = batch.wrapping_add(1);
        match worker {
            0 => self.front.store(had, SeqCst),
            1 => self.first.store(had, SeqCst),
            2 => self.second.store(had, SeqCst),
            _ => {}
        }
    }

    /// Whether each of the three seats has had a batch, none the same.
    fn have_met(&self) -> bool {
        let front = self.front.load(SeqCst);
        let first = self.first.load(SeqCst);
        let second = self.second.load(SeqCst);
        are_apart(front, first, second)
    }
}

/// Whether none of these is 0, and no two are the same.
fn are_apart(front: u64, first: u64, second: u64) -> bool {
    if front == 0 || first == 0 || second == 0 {
        return false;
    }
    front != first && first != second && second != front
}

impl Gate for ThreeAtOnce {
    fn pass(&self, worker: u32, batch: u64, _dimension: u8) {
        self.note(worker, batch);
        for _ in 0..MOST_LOOKS {
            if self.have_met() {
                return;
            }
            yield_now();
        }
        self.failed.store(true, SeqCst);
    }
}

/// Whether a run with two workers and a row in each batch, behind a gate, replies so to a source.
fn replies_from<R: Threads + Wait + Sync>(
    host: Host<&R>,
    mut source: PieceSource,
    mut sink: ListSink,
    gate: &ThreeAtOnce,
) -> bool {
    let settings = RunSettings {
        workers: 2,
        slots: 64,
        batch: 1,
        seats: 3,
    };
    let end = run_script(host, settings, &mut source, &mut sink, gate).end;
    end == RunEnd::Clean && sink.bytes() == REPLIES.as_bytes()
}

/// Whether it replies so to the script.
fn replies<R: Threads + Wait + Sync>(
    host: Host<&R>,
    gate: &ThreeAtOnce,
) -> Result<bool, AllocError> {
    let script = SCRIPT.as_bytes().to_vec(host.alloc)?;
    let source = PieceSource::new(script, 4096, Vec::new(host.alloc));
    let sink = ListSink::new(host.alloc, 4096, Vec::new(host.alloc));
    Ok(replies_from(host, source, sink, gate))
}

#[test]
fn the_front_and_two_workers_pass_batches_at_one_time(rt: HostRuntime) -> Result<(), Fail> {
    let gate = ThreeAtOnce::new();
    let host = host_of(&rt)?;
    assert!(rt; replies(host, &gate)?);
    assert!(rt; !gate.failed.load(SeqCst), "some batch was alone");
    Ok(())
}
