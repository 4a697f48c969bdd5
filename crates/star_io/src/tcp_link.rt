//! A real link, over one of the system's TCP connections.
use crate::again::{read_again, write_again};
use crate::failed::Failed;
use crate::link::Link;
use crate::sink::Sink;
use crate::source::Source;
use std::net::TcpStream;

/// A link over a TCP connection. A read or a write that a signal interrupts is tried again. One
/// that fails for another reason is a fault, and so is a write that takes nothing.
///
/// The counts of faults stand still at the last value of a `u64`.
#[derive(Drop)]
pub struct TcpLink {
    stream: TcpStream,
    read_faults: u64,
    read_failed: bool,
    ended: bool,
    write_faults: u64,
    write_failed: bool,
}

impl TcpLink {
    /// A link over `stream`, from which it read nothing yet, and to which it wrote nothing.
    pub(crate) fn new(stream: TcpStream) -> TcpLink {
        TcpLink {
            stream,
            read_faults: 0,
            read_failed: false,
            ended: false,
            write_faults: 0,
            write_failed: false,
        }
    }
}

impl Source for TcpLink {
    ghost use Rattle.std.specs.Prelude.{Some};
    ghost use Rattle.star_io.specs.TcpLink.{tcp_reading, tcp_writing};

    ghost reading = { tcp_reading };

    ghost writing_side = { λ link. Some (tcp_writing link) };

    fn read(&mut self, into: &mut [u8]) -> Result<usize, Failed> {
        match read_again(&mut self.stream, into) {
            Ok(n) => {
                self.read_failed = false;
                self.ended = n == 0 || self.ended;
                Ok(n)
            }
            Err(_) => {
                self.read_faults = self.read_faults.saturating_add(1);
                self.read_failed = true;
                Err(Failed)
            }
        }
    }
}

impl Sink for TcpLink {
    ghost use Rattle.std.specs.Prelude.{Some};
    ghost use Rattle.star_io.specs.TcpLink.{tcp_reading, tcp_writing};

    ghost writing = { tcp_writing };

    ghost reading_side = { λ link. Some (tcp_reading link) };

    fn write(&mut self, bytes: &[u8]) -> Result<usize, Failed> {
        match write_again(&mut self.stream, bytes) {
            Ok(n) if n > 0 => {
                self.write_failed = false;
                Ok(n)
            }
            _ => {
                self.write_faults = self.write_faults.saturating_add(1);
                self.write_failed = true;
                Err(Failed)
            }
        }
    }
}

impl Link for TcpLink {
    ghost use Rattle.std.proofs.Common.{rules};

    ghost writing_apart = { Prim.search rules };

    ghost reading_apart = { Prim.search rules };
}
