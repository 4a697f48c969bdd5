//! The first statement of a script, copied out of it.
ghost use Rattle.std.specs.Prelude.{◌≡◌, ◌≢◌, ◌∷◌, ◌<◌, ◌≤◌, [], length, drop, IfOk, OnErr, IfNone, IfSome};
ghost use Rattle.script_reader.specs.Script.{clipped, statements_of};
ghost use Rattle.script_reader.specs.Cut.{statements_from_load};
ghost use Rattle.script_reader.specs.Coming.{StaysFirst, StaysLoad};
ghost use Rattle.script_reader.specs.Reach.{TakesLines, TakesLoad};

use crate::clipping::clipped;
use crate::closing::{Closing, first_closing};
use crate::lines::has_block;
use crate::opening::first_opening;
use crate::statement::{Block, Statement};
use star_values::{ByteText, NoMemory};
use std::alloc::Global;

/// A statement, and where the script goes on behind it.
#[derive(Debug, Drop)]
pub struct TakenStatement {
    pub statement: Statement,
    /// The bytes of the script up to the end of the statement's last line: its own, or for one with
    /// a block the dot line or the last line of the input.
    pub len: usize,
}

/// The first statement of the script.
///
/// Where the input has not ended, `None` says that no statement has come to its end yet, and a
/// statement that has come is the same whatever comes behind it. The only error is want of memory,
/// and it comes only where there is a statement.
pub fn take_statement(
    alloc: Global,
    script: &[u8],
    ended: bool,
) -> Result<Option<TakenStatement>, NoMemory>
    ensures none { IfOk result (λ r. IfNone r (statements_of ended script.now ≡ [])) }
    ensures found { IfOk result (λ r. IfSome r (λ t.
        statements_of ended script.now
        ≡ t.statement ∷ statements_of ended (drop t.len script.now))) }
    ensures wanted { OnErr result (statements_of ended script.now ≢ []) }
    ensures lines { IfOk result (λ r.
        IfSome r (λ t. TakesLines ended script.now t.statement t.len)) }
    ensures within { IfOk result (λ r. IfSome r (λ t. (0 < t.len) × (t.len ≤ length script.now))) }
    ensures stays { IfOk result (λ r.
        IfSome r (λ t. StaysFirst ended script.now t.statement t.len)) }
{
    let Some(opening) = first_opening(script, ended) else {
        return Ok(None);
    };
    if !has_block(opening.text) {
        let line = clipped(alloc, opening.text)?;
        let statement = Statement {
            line,
            block: Block::Absent,
        };
        return Ok(Some(TakenStatement {
            statement,
            len: opening.end,
        }));
    }
    match take_load(alloc, opening.text, &script[opening.end..], ended)? {
        Some(TakenStatement { statement, len }) => Ok(Some(TakenStatement {
            statement,
            len: opening.end + len,
        })),
        None => Ok(None),
    }
}

/// The `load` with this text, whose block begins the bytes behind its line.
fn take_load(
    alloc: Global,
    text: &[u8],
    rest: &[u8],
    ended: bool,
) -> Result<Option<TakenStatement>, NoMemory>
    ensures none { IfOk result (λ r. IfNone r (statements_from_load ended (clipped text.now) rest.now ≡ [])) }
    ensures found { IfOk result (λ r. IfSome r (λ t.
        statements_from_load ended (clipped text.now) rest.now
        ≡ t.statement ∷ statements_of ended (drop t.len rest.now))) }
    ensures wanted { OnErr result (statements_from_load ended (clipped text.now) rest.now ≢ []) }
    ensures takes { IfOk result (λ r. IfSome r (λ t.
        TakesLoad ended (clipped text.now) rest.now t.statement t.len)) }
    ensures stays { IfOk result (λ r. IfSome r (λ t.
        StaysLoad ended (clipped text.now) rest.now t.statement t.len)) }
{
    let Some(closing) = first_closing(rest, ended) else {
        return Ok(None);
    };
    let line = clipped(alloc, text)?;
    match closing {
        Closing::Dot { len, end } => {
            let block = Block::Closed(copy_bytes(alloc, &rest[..len])?);
            Ok(Some(TakenStatement {
                statement: Statement { line, block },
                len: end,
            }))
        }
        Closing::Input => {
            let block = Block::Unclosed(copy_bytes(alloc, rest)?);
            Ok(Some(TakenStatement {
                statement: Statement { line, block },
                len: rest.len(),
            }))
        }
    }
}

pub(crate) fn copy_bytes(alloc: Global, bytes: &[u8]) -> Result<ByteText, NoMemory>
    ensures { IfOk result (λ t. t ≡ bytes.now) }
{
    Ok(ByteText::from(Vec::from_slice(alloc, bytes)?))
}
