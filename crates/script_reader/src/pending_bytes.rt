//! The bytes that are in no line yet that was taken, and the first line of them.
ghost use Rattle.std.specs.Prelude.{◌≡◌, ◌+◌, ◌++◌, ◌<◌, ◌≤◌, [], drop, false, length, IfNone, IfSome, OnErr, OnOk};
ghost use Rattle.script_reader.specs.Open.{FirstLine, NoLine};
ghost use Rattle.script_reader.specs.Script.{is_ended};
ghost use Rattle.script_reader.specs.Short.{IsShortened, StandsFor};

use crate::clipping::LINE_LIMIT;
use crate::lines::line_len_from;
use crate::long_line::shortened;
use star_values::NoMemory;
use std::alloc::Global;
use std::marker::Model;

/// The bytes that may be given up before the others are moved to the front.
const GIVEN_UP_BYTES: usize = 64 * 1024;

/// A line that is coming is shortened once it has so many bytes.
pub const SHORTENED_BYTES: usize = 2 * (LINE_LIMIT + 1);

/// The bytes that are in no line yet that was taken, which contracts see as a list.
///
/// The place up to which a line feed was sought is kept, so that no byte is looked at twice for it.
/// What was taken is given up in large steps: once it is half of the bytes.
#[derive(Debug, Drop)]
pub(crate) struct PendingBytes {
    bytes: Vec<u8>,
    /// How many of the bytes were taken.
    start: usize,
    /// In so many bytes behind those there is no line feed.
    sought: usize,
}

impl Model for PendingBytes {
    ghost use Rattle.std.specs.Prelude.{◌≡◌, ℕ, ◌+◌, ◌≤◌, List, drop, false, length, take};
    ghost use Rattle.script_reader.specs.Script.{is_ended};

    ghost Value = { List ℕ };

    ghost view = { λ pending. drop pending.start pending.bytes.items };

    ghost invariant = { λ pending. (pending.start + pending.sought ≤ length pending.bytes.items)
        × (is_ended (take pending.sought (drop pending.start pending.bytes.items)) ≡ false) };
}

impl PendingBytes {
    /// No bytes, which take no memory.
    pub fn new(alloc: Global) -> PendingBytes
        ensures { result ≡ [] }
    {
        PendingBytes {
            bytes: Vec::new(alloc),
            start: 0,
            sought: 0,
        }
    }

    pub fn as_slice(&self) -> &[u8]
        ensures { result.now ≡ self.now }
    {
        self.bytes.as_slice().split_at(self.start).1
    }

    /// Appends a piece.
    pub fn append(&mut self, piece: &[u8]) -> Result<(), NoMemory>
        ensures ok { OnOk result (self.new ≡ self.old ++ piece.now) }
        ensures err { OnErr result (self.new ≡ self.old) }
    {
        give_up(&mut self.bytes, &mut self.start);
        Ok(self.bytes.extend_from_slice(piece)?)
    }

    /// The length of the first line that has come, with its line feed.
    pub fn line_len(&mut self, ended: bool) -> Option<usize>
        ensures some { IfSome result (FirstLine ended self.old) }
        ensures within { IfSome result (λ len. (0 < len) × (len ≤ length self.old)) }
        ensures none { IfNone result (NoLine ended self.old) }
        ensures same { self.new ≡ self.old }
    {
        let rest = self.bytes.as_slice().split_at(self.start).1;
        let len = line_len_from(rest, self.sought, ended);
        if len.is_none() {
            self.sought = rest.len();
        }
        len
    }

    /// Shortens a line that is coming once it has many bytes: what it means stays.
    pub fn shorten(&mut self, alloc: Global) -> Result<(), NoMemory>
        requires { is_ended self.old ≡ false }
        ensures stands { StandsFor self.new self.old }
        ensures none { is_ended self.new ≡ false }
        ensures empty { self.old ≡ [] → self.new ≡ [] }
        ensures short { OnOk result (length self.new < SHORTENED_BYTES) }
        ensures err { OnErr result ((self.new ≡ self.old) × (0 < length self.old)) }
    {
        shorten(alloc, &mut self.bytes, &mut self.start, &mut self.sought)
    }

    /// Takes so many bytes from the front.
    pub fn take_front(&mut self, len: usize)
        requires { len ≤ length self.old }
        ensures { self.new ≡ drop len self.old }
    {
        self.start += len;
        self.sought = 0;
    }
}

/// Puts a short line in the place of a long one that is coming.
fn shorten(
    alloc: Global,
    bytes: &mut Vec<u8>,
    start: &mut usize,
    sought: &mut usize,
) -> Result<(), NoMemory>
    requires within { start.old + sought.old ≤ length bytes.old.items }
    requires none { is_ended (drop start.old bytes.old.items) ≡ false }
    ensures shortened { OnOk result (IsShortened (drop start.old bytes.old.items)
        (drop start.new bytes.new.items)) }
    ensures within { start.new + sought.new ≤ length bytes.new.items }
    ensures none { is_ended (drop start.new bytes.new.items) ≡ false }
    ensures same { OnErr result ((bytes.new.items ≡ bytes.old.items) × (start.new ≡ start.old)
        × (SHORTENED_BYTES ≤ length (drop start.old bytes.old.items))) }
{
    let line = bytes.as_slice().split_at(*start).1;
    if line.len() < SHORTENED_BYTES {
        return Ok(());
    }
    let kept = shortened(alloc, line)?;
    *start = 0;
    *sought = kept.len();
    *bytes = kept;
    Ok(())
}

/// Gives up what was taken, where it is at least half of the bytes.
fn give_up(bytes: &mut Vec<u8>, start: &mut usize)
    requires { start.old ≤ length bytes.old.items }
    ensures rest { drop start.new bytes.new.items ≡ drop start.old bytes.old.items }
    ensures within { start.new ≤ length bytes.new.items }
{
    let taken = *start;
    if taken >= GIVEN_UP_BYTES && taken >= bytes.len() / 2 {
        bytes.drain(..taken);
        *start = 0;
    }
}
