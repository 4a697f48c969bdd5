//! A reader of statements from pieces. What a line is to them is in `open_load`, where
//! lines end in `pending_bytes`.
ghost use Rattle.std.specs.Prelude.{◌≡◌, ℕ, ◌<◌, ◌≤◌, [], false, length, true, IfOk, IsErrOf, Ok, OnErr, OnOk};
ghost use Rattle.script_reader.specs.Script.{is_ended};
ghost use Rattle.script_reader.specs.Short.{StandsFor};
ghost use Rattle.script_reader.specs.declared.pending_bytes.TheConstants.{SHORTENED_BYTES};
ghost use Rattle.script_reader.specs.Open.{AreParts, TakesLast, none_open, reading_of};
ghost use Rattle.script_reader.specs.Reading.{AnswersNext, KeepsShort, StaysFed, WantsMemory, after_piece, no_reading};
ghost use Rattle.script_reader.specs.declared.reader.FeedFault.TheVariants.{Memory};
ghost use Rattle.script_reader.specs.declared.reader.NextStatement.TheVariants.{NotYet};

use crate::lines::within;
use crate::open_load::{OpenLoad, TakenLine, close, none_open, take_line};
use crate::pending_bytes::PendingBytes;
use crate::statement::{Block, Statement};
use star_values::NoMemory;
use std::alloc::Global;
use std::marker::Model;

/// The most bytes of a script, or of one connection.
pub const SCRIPT_LIMIT: usize = 67_108_864;

/// Why a piece was not taken whole.
#[derive(Clone, Copy, Debug, PartialEq, Eq)]
pub enum FeedFault {
    /// More than `SCRIPT_LIMIT` bytes were fed in all.
    Limit,

    /// No memory was left for the piece, of which nothing was taken.
    Memory,
}

impl From<NoMemory> for FeedFault {
    ghost from_gives = { λ _ fault. fault ≡ Memory };

    fn from(_none: NoMemory) -> FeedFault {
        FeedFault::Memory
    }
}

/// What is answered of the statement that is to come next.
#[derive(Debug, Drop)]
pub enum NextStatement {
    /// It is whole.
    Got(Statement),

    /// It is not whole yet, and the input has not ended.
    NotYet,

    /// The input has ended, and no statement is left.
    End,
}

/// Takes a script in pieces, and gives its statements in order, however the script is cut.
///
/// It keeps the bytes of the statement that is coming, and gives up those of statements that were
/// taken. No byte is looked at more than a few times, whatever the pieces.
#[derive(Debug, Drop)]
pub struct ScriptReader {
    alloc: Global,
    load: OpenLoad,
    pending: PendingBytes,
    fed: usize,
    ended: bool,
}

impl Model for ScriptReader {
    ghost use Rattle.std.specs.Prelude.{◌≡◌, ◌+◌, ◌++◌, ◌≤◌, length};
    ghost use Rattle.script_reader.specs.Open.{AreParts, bytes_of};
    ghost use Rattle.script_reader.specs.Reading.{Reading};
    ghost use Rattle.script_reader.specs.declared.reader.TheConstants.{SCRIPT_LIMIT};

    ghost Value = { Reading };

    ghost view = { λ reader. record {
      waiting = bytes_of reader.load ++ reader.pending;
      fed = reader.fed;
      ended = reader.ended;
    } };

    ghost invariant = { λ reader. (reader.fed ≤ SCRIPT_LIMIT + 1)
        × AreParts reader.load reader.pending reader.ended };
}

impl ScriptReader {
    /// A reader that was fed nothing. It takes no memory.
    pub fn new(alloc: Global) -> ScriptReader
        ensures { result ≡ no_reading }
    {
        ScriptReader {
            alloc,
            load: none_open(alloc),
            pending: PendingBytes::new(alloc),
            fed: 0,
            ended: false,
        }
    }

    /// Takes the next piece of a script whose input has not ended.
    ///
    /// Where more than `SCRIPT_LIMIT` bytes were fed in all, the bytes up to the limit are taken,
    /// and it answers `Limit`, then and at each later piece.
    pub fn feed(&mut self, piece: &[u8]) -> Result<(), FeedFault>
        requires { self.old.ended ≡ false }
        ensures ok { OnOk result
            ((self.new ≡ after_piece self.old piece.now) × (self.new.fed ≤ SCRIPT_LIMIT)) }
        ensures limit { IsErrOf result FeedFault.Limit →
            (self.new ≡ after_piece self.old piece.now) × (SCRIPT_LIMIT < self.new.fed) }
        ensures memory { IsErrOf result FeedFault.Memory → self.new ≡ self.old }
    {
        let taken = within(piece, SCRIPT_LIMIT.saturating_sub(self.fed));
        if self.pending.append(taken).is_err() {
            return Err(FeedFault::Memory);
        }
        self.fed = self.fed.saturating_add(piece.len()).min(SCRIPT_LIMIT + 1);
        if self.fed > SCRIPT_LIMIT {
            return Err(FeedFault::Limit);
        }
        Ok(())
    }

    /// How many bytes were fed in all, but at most one past `SCRIPT_LIMIT`.
    pub fn fed(&self) -> usize
        ensures { result ≡ self.now.fed }
    {
        self.fed
    }

    /// Says that the input has ended: what waits is all that there is.
    pub fn finish(&mut self)
        ensures { self.new ≡ record self.old { ended = true } }
    {
        self.ended = true;
    }

    /// Takes the first statement that is whole.
    ///
    /// `NotYet` says that the input has not ended and none is, and `End` that it has ended and none
    /// is left. Where memory is wanted no statement is lost.
    pub fn next_statement(&mut self) -> Result<NextStatement, NoMemory>
        ensures answers { IfOk result (AnswersNext self.old self.new) }
        ensures wanted { OnErr result (WantsMemory self.old self.new) }
        ensures stays { StaysFed self.old self.new }
        ensures short { IfOk result (KeepsShort self.new) }
    {
        take_next(self.alloc, &mut self.load, &mut self.pending, self.ended)
    }
}

/// Takes the first statement out of what waits.
fn take_next(
    alloc: Global,
    load: &mut OpenLoad,
    pending: &mut PendingBytes,
    ended: bool,
) -> Result<NextStatement, NoMemory>
    requires { AreParts load.old pending.old ended }
    ensures answers { (fed : ℕ) → IfOk result (AnswersNext
        (reading_of load.old pending.old fed ended) (reading_of load.new pending.new fed ended)) }
    ensures wanted { (fed : ℕ) → OnErr result (WantsMemory
        (reading_of load.old pending.old fed ended) (reading_of load.new pending.new fed ended)) }
    ensures parts { AreParts load.new pending.new ended }
    ensures short { (fed : ℕ) → IfOk result (KeepsShort
        (reading_of load.new pending.new fed ended)) }
{
    'lines: loop {
        let Some(len) = pending.line_len(ended) else {
            keep_short(alloc, load, pending)?;
            return take_last(alloc, load, ended);
        };
        let line = pending.as_slice().split_at(len).0;
        let taken = take_line(alloc, load, line)?;
        pending.take_front(len);
        if let TakenLine::Whole(statement) = taken {
            return Ok(NextStatement::Got(statement));
        }
    }
}

/// Keeps the line that is coming short, where no block is open: a line of a block is kept as it is.
fn keep_short(alloc: Global, load: &OpenLoad, pending: &mut PendingBytes) -> Result<(), NoMemory>
    requires none { is_ended pending.old ≡ false }
    ensures open { 0 < length load.now.line → pending.new ≡ pending.old }
    ensures stands { StandsFor pending.new pending.old }
    ensures none { is_ended pending.new ≡ false }
    ensures empty { pending.old ≡ [] → pending.new ≡ [] }
    ensures short { OnOk result
        (length load.now.line ≡ 0 → length pending.new < SHORTENED_BYTES) }
    ensures err { OnErr result ((pending.new ≡ pending.old) × (0 < length pending.old)) }
{
    if load.line.is_empty() {
        pending.shorten(alloc)
    } else {
        Ok(())
    }
}

/// What is answered where no further line has come.
fn take_last(alloc: Global, load: &mut OpenLoad, ended: bool) -> Result<NextStatement, NoMemory>
    requires load { (length load.old.line ≡ 0) → load.old ≡ none_open }
    ensures not_ended { ended ≡ false → (result ≡ Ok NotYet) × (load.new ≡ load.old) }
    ensures ended { ended ≡ true → IfOk result (TakesLast load.old load.new) }
    ensures err { OnErr result
        ((ended ≡ true) × (load.new ≡ load.old) × (0 < length load.old.line)) }
{
    if !ended {
        return Ok(NextStatement::NotYet);
    }
    if load.line.is_empty() {
        return Ok(NextStatement::End);
    }
    let (line, block) = close(alloc, load)?;
    Ok(NextStatement::Got(Statement {
        line,
        block: Block::Unclosed(block),
    }))
}
