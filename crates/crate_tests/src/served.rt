//! Connections, to which no stored run of a program comes.
use core_state::RunSettings;
use script_run::Host;
use session_server::serve;
use star_io::{
    ListDoor, ListSink, PairLink, PieceSource, ServeEnd, a_read_leaves_the_writes,
    a_write_leaves_the_reads,
};
use std::alloc::{AllocError, Global};
use std::hash::RandomState;
use std::io;
use std::random::RandomSource;
use std::test::Fail;
use worker_gate::NoGate;

/// The settings of the program, where no word says more.
pub(crate) const SETTINGS: RunSettings = RunSettings {
    workers: 0,
    slots: 64,
    batch: 256,
    seats: 1,
};

/// The number of a call that is never made.
pub(crate) const NEVER: u64 = u64::MAX;

/// A link in memory that gives a script, 16 bytes at once, and takes 8. The read and the write of
/// these numbers fail.
pub(crate) fn link_of(
    alloc: Global,
    script: &str,
    read_fault: u64,
    write_fault: u64,
) -> Result<PairLink, AllocError> {
    let script = script.as_bytes().to_vec(alloc)?;
    let reads = [read_fault].to_vec(alloc)?;
    let writes = [write_fault].to_vec(alloc)?;
    let source = PieceSource::new(script, 16, reads);
    let sink = ListSink::new(alloc, 8, writes);
    Ok(PairLink::new(source, sink))
}

#[test]
fn a_link_keeps_its_sides_apart(rt: HostRuntime) -> Result<(), Fail> {
    let mut link = link_of(rt.alloc(), "wait", NEVER, NEVER)?;
    let mut into = [0; 4];
    assert_eq!(rt; a_write_leaves_the_reads(&mut link, b"join"), Ok(4));
    assert_eq!(rt; a_read_leaves_the_writes(&mut link, &mut into), Ok(4));
    assert_eq!(rt; into, *b"wait");
    Ok(())
}

/// What the machine of a test gives to a run, with keys of hashes that are drawn at random.
pub(crate) fn host_of<R: AllocGlobal + RandomSource>(rt: &R) -> io::Result<Host<&R>> {
    Ok(Host {
        rt,
        alloc: rt.alloc(),
        hash_keys: RandomState::new(rt)?,
    })
}

#[test]
fn connections_are_served_until_the_door_ends(rt: HostRuntime) -> Result<(), Fail> {
    let host = host_of(&rt)?;
    let mut links = Vec::new(host.alloc);
    links.push(link_of(host.alloc, "wait\n", NEVER, NEVER)?)?;
    let mut door = ListDoor::new(links, Vec::new(host.alloc));
    assert_eq!(rt;
        serve(host, SETTINGS, 5432, 0, &mut door, &NoGate),
        ServeEnd::Ended
    );
    Ok(())
}
