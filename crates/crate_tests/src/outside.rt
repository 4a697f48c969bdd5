//! What std's readers, writers and sockets do: a reader and a writer that fail once and would then
//! go on, a connection, and a client that is served.
use crate::workers::{MOST_LOOKS, REPLIES, SCRIPT};
use core_state::RunSettings;
use script_run::Host;
use session_server::serve;
use star_io::{Door, Failed, ServeEnd, Sink, Source, StdSink, StdSource, TcpDoor};
use std::hash::RandomState;
use std::io::{self, Eprint, ErrorKind, Read, Write};
use std::net::{Ipv4Addr, Net, Shutdown, TcpListener, TcpStream};
use std::sync::Wait;
use std::thread::{Threads, join_mut, yield_now};
use std::time::Clock;
use worker_gate::NoGate;

/// Fails at its second call, with an error of this kind, and gives or takes two bytes at each other.
#[derive(Drop)]
struct FailsOnce {
    calls: u32,
    kind: ErrorKind,
}

impl FailsOnce {
    fn new(kind: ErrorKind) -> FailsOnce {
        FailsOnce { calls: 0, kind }
    }

    fn move_bytes(&mut self) -> io::Result<usize> {
        self.calls = self.calls.saturating_add(1);
        if self.calls == 2 {
            return Err(self.kind.into());
        }
        Ok(2)
    }
}

/// Three calls, of which the second fails with an error of a kind: what they answer, how many
/// faults are counted, and how many calls are made in all.
type Case = (ErrorKind, [Result<usize, Failed>; 3], u64, u32);

/// A call that a signal interrupts is tried again, and no other.
const CASES: [Case; 2] = [
    (ErrorKind::Interrupted, [Ok(2), Ok(2), Ok(2)], 0, 4),
    (
        ErrorKind::ConnectionReset,
        [Ok(2), Err(Failed), Ok(2)],
        1,
        3,
    ),
];

impl Read for FailsOnce {
    fn read(&mut self, into: &mut [u8]) -> io::Result<usize> {
        Ok(self.move_bytes()?.min(into.len()))
    }
}

impl Write for FailsOnce {
    fn write(&mut self, bytes: &[u8]) -> io::Result<usize> {
        Ok(self.move_bytes()?.min(bytes.len()))
    }

    fn flush(&mut self) -> io::Result<()> {
        Ok(())
    }
}

#[test]
fn an_interrupted_read_alone_is_tried_again(rt: HostRuntime) {
    for (kind, answers, faults, calls) in CASES {
        let mut reader = FailsOnce::new(kind);
        let mut source = StdSource::new(&mut reader);
        let mut into = [0; 4];
        let reads = [
            source.read(&mut into),
            source.read(&mut into),
            source.read(&mut into),
        ];
        assert_eq!(rt; reads, answers);
        assert_eq!(rt; source.faults(), faults);
        assert_eq!(rt; reader.calls, calls);
    }
}

#[test]
fn an_interrupted_write_alone_is_tried_again(rt: HostRuntime) {
    for (kind, answers, faults, calls) in CASES {
        let mut writer = FailsOnce::new(kind);
        let mut sink = StdSink::new(&mut writer);
        let writes = [
            sink.write(b"star"),
            sink.write(b"star"),
            sink.write(b"star"),
        ];
        assert_eq!(rt; writes, answers);
        assert_eq!(rt; sink.faults(), faults);
        assert_eq!(rt; writer.calls, calls);
    }
}

/// Whether a read into four bytes gives these.
fn gives<S: Source>(source: &mut S, bytes: &[u8]) -> bool {
    let mut into = [0; 4];
    match source.read(&mut into) {
        Ok(n) => &into[..n] == bytes,
        Err(Failed) => false,
    }
}

/// A port of this machine that was free a moment ago.
fn free_port<N: Net<Listener = TcpListener, Stream = TcpStream>>(net: &N) -> io::Result<u16> {
    let port = TcpListener::bind(net, (Ipv4Addr::LOCALHOST, 0))?
        .local_addr()?
        .port();
    Ok(port)
}

#[test]
fn a_connection_goes_both_ways(rt: HostRuntime) -> io::Result<()> {
    let port = free_port(&rt)?;
    let mut door = TcpDoor::new(&rt);
    assert_eq!(rt; door.listen(port), Ok(()));
    let mut there = TcpStream::connect(&rt, (Ipv4Addr::LOCALHOST, port))?;
    there.write_all(b"star")?;
    there.shutdown(Shutdown::Write)?;
    let Ok(Some(mut link)) = door.accept() else {
        panic!(rt; "no connection came");
    };
    assert!(rt; gives(&mut link, b"star"));
    assert!(rt; gives(&mut link, b""));
    assert_eq!(rt; link.write(b"join"), Ok(4));
    let mut back = [0; 4];
    there.read_exact(&mut back)?;
    assert_eq!(rt; back, *b"join");
    Ok(())
}

/// A connection to a port of this machine, as soon as somebody listens there.
fn connect<N: Net<Listener = TcpListener, Stream = TcpStream>>(
    net: &N,
    port: u16,
) -> io::Result<TcpStream> {
    for _ in 0..MOST_LOOKS {
        if let Ok(there) = TcpStream::connect(net, (Ipv4Addr::LOCALHOST, port)) {
            return Ok(there);
        }
        yield_now();
    }
    TcpStream::connect(net, (Ipv4Addr::LOCALHOST, port))
}

/// Sends the script to a port, and says whether its 95 bytes of replies come back, and nothing
/// behind them.
fn get_replies<N: Net<Listener = TcpListener, Stream = TcpStream>>(
    net: &N,
    port: u16,
) -> io::Result<bool> {
    let mut there = connect(net, port)?;
    there.write_all(SCRIPT.as_bytes())?;
    there.shutdown(Shutdown::Write)?;
    let mut replies = [0; 95];
    there.read_exact(&mut replies)?;
    let mut more = [0];
    let rest = there.read(&mut more)?;
    Ok(replies.as_slice() == REPLIES.as_bytes() && rest == 0)
}

/// Whether a client of a port gets its replies.
fn gets_replies<N: Net<Listener = TcpListener, Stream = TcpStream>>(net: &N, port: u16) -> bool {
    get_replies(net, port).unwrap_or(false)
}

/// The settings of the program's server, where no word says more.
const SERVER: RunSettings = RunSettings {
    workers: 0,
    slots: 64,
    batch: 256,
    seats: 65,
};

/// Serves the next connection that comes to a port.
fn serve_one<
    R: Threads + Wait + Net<Listener = TcpListener, Stream = TcpStream> + Clock + Eprint + Sync,
>(host: Host<&R>, port: u16) -> ServeEnd {
    let mut door = TcpDoor::new(host.rt);
    serve(host, SERVER, port, 1, &mut door, &NoGate)
}

#[test]
fn a_client_gets_its_replies(rt: HostRuntime) -> io::Result<()> {
    let port = free_port(&rt)?;
    let hash_keys = RandomState::new(&rt)?;
    let (got, end) = join_mut(
        &rt,
        &mut || gets_replies(&rt, port),
        &mut || {
            let alloc = rt.alloc();
            let host = Host {
                rt: &rt,
                alloc,
                hash_keys,
            };
            serve_one(host, port)
        },
    );
    assert_eq!(rt; end, ServeEnd::Ended);
    assert!(rt; got);
    Ok(())
}
