//! A real door, at a port of this machine.
ghost use Rattle.std.specs.Prelude.{◌≡◌, ◌⊎◌, ◌*◌, false, min, None, IfErr};
ghost use Rattle.std.specs.IoError.{error_kind, raw_os_error};
ghost use Rattle.star_io.specs.TcpDoor.{may_pass};

use crate::door::Door;
use crate::failed::Failed;
use crate::os_errors::may_pass;
use crate::tcp_link::TcpLink;
use std::io::{self, Eprint, ErrorKind};
use std::net::{Ipv4Addr, Net, TcpListener, TcpStream};
use std::thread::sleep;
use std::time::{Clock, Duration};

/// The first pause after an `accept` that failed, in milliseconds. Each pause is twice as long as
/// the one before it.
const FIRST_PAUSE: u64 = 1;

/// The longest of these pauses, in milliseconds.
const LONGEST_PAUSE: u64 = 1000;

/// A door on 127.0.0.1. It never ends.
///
/// A `listen` that fails, for whatever reason, is a fault. An `accept` tries again by itself, after
/// a pause, where the system is short of descriptors, buffers or memory, and where a connection
/// broke off before it was taken; any other failure is a fault. The standard error is told at which
/// port the door listens, and why a call failed.
///
/// Counts stand still at the last value of a `u64`.
#[derive(Drop)]
pub struct TcpDoor<N> {
    system: N,
    listener: Option<TcpListener>,
    faults: u64,
    failed: bool,
    asked: Option<u16>,
    given: u64,
}

impl<N: Net<Listener = TcpListener, Stream = TcpStream> + Clock + Eprint> TcpDoor<N> {
    /// A door of the network of `system`, on which no call was made yet. It does not listen.
    pub fn new(system: N) -> TcpDoor<N>
        ensures { ⟦<TcpDoor<N> as Door>⟧.accepting result ≡ record {
          faults = 0;
          failed = false;
          asked = None;
          listening = false;
          given = 0;
          ended = false;
        } }
    {
        TcpDoor {
            system,
            listener: None,
            faults: 0,
            failed: false,
            asked: None,
            given: 0,
        }
    }
}

impl<N: Net<Listener = TcpListener, Stream = TcpStream> + Clock + Eprint> Door for TcpDoor<N> {
    ghost use Rattle.star_io.specs.TcpDoor.{tcp_side};

    type Link = TcpLink;

    ghost accepting = { tcp_side };

    fn listen(&mut self, port: u16) -> Result<(), Failed> {
        self.asked = Some(port);
        // The port that it listens at is let go first: it may be the same.
        self.listener = None;
        match TcpListener::bind(&self.system, (Ipv4Addr::LOCALHOST, port)) {
            Ok(listener) => {
                say_listening(&self.system, port);
                self.listener = Some(listener);
                self.failed = false;
                Ok(())
            }
            Err(error) => {
                say_refused(&self.system, port, &error);
                self.faults = self.faults.saturating_add(1);
                self.failed = true;
                Err(Failed)
            }
        }
    }

    fn accept(&mut self) -> Result<Option<TcpLink>, Failed> {
        let Some(listener) = &self.listener else {
            unreachable!();
        };
        match accept_patiently(&self.system, listener) {
            Ok(stream) => {
                // Else a reply that is written after another waits until the client says that it
                // got that. Where this fails replies are as late as that, and all the same.
                let _ = stream.set_nodelay(true);
                self.given = self.given.saturating_add(1);
                self.failed = false;
                Ok(Some(TcpLink::new(stream)))
            }
            Err(error) => {
                say_gone(&self.system, &error);
                self.faults = self.faults.saturating_add(1);
                self.failed = true;
                Err(Failed)
            }
        }
    }

    fn close(&mut self) {
        self.listener = None;
    }
}

/// Waits for the next connection, and tries again after each failure that passes. The tries end
/// after 2^64 - 1 of them alone.
fn accept_patiently<N: Clock>(system: &N, listener: &TcpListener) -> io::Result<TcpStream>
    ensures { IfErr result (λ error.
        (may_pass (raw_os_error error) ≡ false) ⊎ (error_kind error ≡ ErrorKind.TimedOut)) }
{
    let mut pause = FIRST_PAUSE;
    'tries: for _ in 0..u64::MAX {
        match listener.accept() {
            Ok((stream, _)) => return Ok(stream),
            Err(error) => {
                if !may_pass(&error) {
                    return Err(error);
                }
            }
        }
        sleep(system, Duration::from_millis(pause));
        pause = longer(pause);
    }
    Err(io::Error::from(ErrorKind::TimedOut))
}

/// The pause after one of so many milliseconds.
fn longer(pause: u64) -> u64
    ensures { result ≡ min (pause * 2) LONGEST_PAUSE }
{
    pause.saturating_mul(2).min(LONGEST_PAUSE)
}

/// Tells the standard error that the door listens. Where it cannot be told nothing else changes.
fn say_listening<N: Eprint>(system: &N, port: u16) {
    let _ = eprintln!(system; "listening on 127.0.0.1:{port}");
}

/// Tells the standard error why the door does not listen.
fn say_refused<N: Eprint>(system: &N, port: u16, error: &io::Error) {
    let _ = if error.kind() == ErrorKind::AddrInUse {
        eprintln!(system; "cannot listen on 127.0.0.1:{port}: the port is in use")
    } else {
        eprintln!(system; "cannot listen on 127.0.0.1:{port}: {error}")
    };
}

/// Tells the standard error why no connection comes any more.
fn say_gone<N: Eprint>(system: &N, error: &io::Error) {
    let _ = eprintln!(system; "cannot take connections any more: {error}");
}
