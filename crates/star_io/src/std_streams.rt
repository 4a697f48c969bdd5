//! Real sources and sinks, over any of std's readers and writers: files, standard input and output,
//! sockets.
ghost use Rattle.std.specs.Prelude.{◌≡◌, false};

use crate::again::{read_again, write_again};
use crate::failed::Failed;
use crate::sink::Sink;
use crate::source::Source;
use std::io::{Read, Write};

/// A source over a reader. A read that a signal interrupts is tried again. One that fails for
/// another reason is a fault.
///
/// The count of faults stands still at the last value of a `u64`.
#[derive(Drop)]
pub struct StdSource<R> {
    reader: R,
    faults: u64,
    failed: bool,
    ended: bool,
}

impl<R: Read> StdSource<R> {
    /// A source of what `reader` still has, of which no read was made yet.
    pub fn new(reader: R) -> StdSource<R>
        ensures { ⟦<StdSource<R> as Source>⟧.reading result
            ≡ record { left = R.remaining reader; faults = 0; failed = false; ended = false } }
    {
        StdSource {
            reader,
            faults: 0,
            failed: false,
            ended: false,
        }
    }

    /// How many reads failed so far.
    pub fn faults(&self) -> u64
        ensures { result ≡ (⟦<StdSource<R> as Source>⟧.reading self.now).faults }
    {
        self.faults
    }
}

impl<R: Read> Source for StdSource<R> {
    ghost use Rattle.star_io.specs.StdStreams.{reader_of, failed_reads, last_read_failed, has_ended};

    ghost reading = { λ s. record {
      left = R.remaining (reader_of s);
      faults = failed_reads s;
      failed = last_read_failed s;
      ended = has_ended s;
    } };

    fn read(&mut self, into: &mut [u8]) -> Result<usize, Failed> {
        match read_again(&mut self.reader, into) {
            Ok(n) => {
                self.failed = false;
                self.ended = n == 0 || self.ended;
                Ok(n)
            }
            Err(_) => {
                self.faults = self.faults.saturating_add(1);
                self.failed = true;
                Err(Failed)
            }
        }
    }
}

/// A sink over a writer. A write that a signal interrupts is tried again. One that fails for
/// another reason is a fault, and so is one that takes nothing.
///
/// It never flushes: over a writer with a buffer, what was taken may still stand in the buffer.
/// The count of faults stands still at the last value of a `u64`.
#[derive(Drop)]
pub struct StdSink<W> {
    writer: W,
    faults: u64,
    failed: bool,
}

impl<W: Write> StdSink<W> {
    /// A sink into `writer`, to which no write was made yet.
    pub fn new(writer: W) -> StdSink<W>
        ensures { ⟦<StdSink<W> as Sink>⟧.writing result
            ≡ record { taken = W.contents writer; faults = 0; failed = false } }
    {
        StdSink {
            writer,
            faults: 0,
            failed: false,
        }
    }

    /// How many writes failed so far.
    pub fn faults(&self) -> u64
        ensures { result ≡ (⟦<StdSink<W> as Sink>⟧.writing self.now).faults }
    {
        self.faults
    }
}

impl<W: Write> Sink for StdSink<W> {
    ghost use Rattle.star_io.specs.StdStreams.{writer_of, failed_writes, last_write_failed};

    ghost writing = { λ s. record {
      taken = W.contents (writer_of s);
      faults = failed_writes s;
      failed = last_write_failed s;
    } };

    fn write(&mut self, bytes: &[u8]) -> Result<usize, Failed> {
        match write_again(&mut self.writer, bytes) {
            Ok(n) if n > 0 => {
                self.failed = false;
                Ok(n)
            }
            _ => {
                self.faults = self.faults.saturating_add(1);
                self.failed = true;
                Err(Failed)
            }
        }
    }
}
