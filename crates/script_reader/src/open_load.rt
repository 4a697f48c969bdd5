//! The `load` whose block is open, and what a line is to it. How lines are
//! found is in `pending_bytes`.
ghost use Rattle.std.specs.Prelude.{◌≡◌, ◌<◌, length, IfOk, OnErr, OnOk};
ghost use Rattle.script_reader.specs.Open.{LeavesSome, TakesLine, none_open};
ghost use Rattle.script_reader.specs.Script.{clipped, line_text};

use crate::clipping::clipped;
use crate::lines::{has_block, is_dot_line, is_no_statement, line_text};
use crate::statement::{Block, Statement};
use star_values::{ByteText, NoMemory};
use std::alloc::Global;
use std::mem;

/// A `load` whose block is open.
#[derive(Debug, Drop)]
pub(crate) struct OpenLoad {
    /// Its own line as it stands, or nothing where no block is open.
    pub line: ByteText,
    /// The lines of its block so far, as they stand.
    pub block: ByteText,
}

/// What a line is to the statements.
#[derive(Debug, Drop)]
pub(crate) enum TakenLine {
    /// It begins no statement.
    Passed,
    /// It is the line of a `load`, or one of its block.
    Joined,
    /// It ends this statement.
    Whole(Statement),
}

/// No block is open. It takes no memory.
pub(crate) fn none_open(alloc: Global) -> OpenLoad
    ensures { result ≡ none_open }
{
    OpenLoad {
        line: ByteText::new(alloc),
        block: ByteText::new(alloc),
    }
}

/// Takes a line more.
pub(crate) fn take_line(
    alloc: Global,
    load: &mut OpenLoad,
    line: &[u8],
) -> Result<TakenLine, NoMemory>
    requires some { 0 < length line.now }
    requires load { (length load.old.line ≡ 0) → load.old ≡ none_open }
    ensures taken { IfOk result (TakesLine load.old load.new line.now) }
    ensures err { OnErr result ((load.new ≡ load.old) × LeavesSome load.old line.now) }
{
    if load.line.is_empty() {
        take_first_line(alloc, load, line)
    } else {
        take_block_line(alloc, load, line)
    }
}

/// Takes a line where no block is open.
fn take_first_line(alloc: Global, load: &mut OpenLoad, line: &[u8]) -> Result<TakenLine, NoMemory>
    requires some { 0 < length line.now }
    requires none { load.old ≡ none_open }
    ensures taken { IfOk result (TakesLine none_open load.new line.now) }
    ensures err { OnErr result ((load.new ≡ none_open) × LeavesSome none_open line.now) }
{
    let text = line_text(line);
    if is_no_statement(text) {
        return Ok(TakenLine::Passed);
    }
    if has_block(text) {
        load.line.extend_from_slice(line)?;
        return Ok(TakenLine::Joined);
    }
    let line = clipped(alloc, text)?;
    Ok(TakenLine::Whole(Statement {
        line,
        block: Block::Absent,
    }))
}

/// Takes a line of an open block, or the one that closes it.
fn take_block_line(alloc: Global, load: &mut OpenLoad, line: &[u8]) -> Result<TakenLine, NoMemory>
    requires load { 0 < length load.old.line }
    ensures taken { IfOk result (TakesLine load.old load.new line.now) }
    ensures err { OnErr result ((load.new ≡ load.old) × LeavesSome load.old line.now) }
{
    if is_dot_line(line) {
        let (line, block) = close(alloc, load)?;
        return Ok(TakenLine::Whole(Statement {
            line,
            block: Block::Closed(block),
        }));
    }
    load.block.extend_from_slice(line)?;
    Ok(TakenLine::Joined)
}

/// Ends an open block: what the statement has of its line, and the bytes of the block.
pub(crate) fn close(alloc: Global, load: &mut OpenLoad) -> Result<(ByteText, ByteText), NoMemory>
    ensures line { IfOk result (λ closed. closed.0 ≡ clipped (line_text load.old.line)) }
    ensures block { IfOk result (λ closed. closed.1 ≡ load.old.block) }
    ensures none { OnOk result (load.new ≡ none_open) }
    ensures err { OnErr result (load.new ≡ load.old) }
{
    let line = clipped(alloc, line_text(load.line.as_bytes()))?;
    let closed = mem::replace(load, none_open(alloc));
    Ok((line, closed.block))
}
