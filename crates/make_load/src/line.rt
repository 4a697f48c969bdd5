//! The line of the replies to a script.
ghost use Rattle.std.specs.Prelude.{◌≡◌, ◌≤◌, ℕ, Bool, true, List, length, IfOk};
ghost use Rattle.script_reader.specs.declared.reader.TheConstants.{SCRIPT_LIMIT};
ghost use Rattle.script_run.specs.End.{end_of_all};
ghost use Rattle.script_run.specs.Run.{script_text};
ghost use Rattle.make_load.specs.Made.{EndsText, IsSummed, IsTextOf, line_of};

use crate::printing::print_summary;
use crate::reading::summary;
use star_io::RunEnd;
use star_store::replies_are_well_formed;
use star_values::{ByteText, NoMemory};
use std::alloc::Global;

/// The line that sums up the replies to a script, and whether some reply is a refusal or `memory`.
#[derive(Drop)]
pub(crate) struct Summed {
    pub(crate) line: ByteText,
    pub(crate) refused: bool,
}

/// Sums up the replies to a script whose run in memory ended so. There is no line where it did not
/// come to its end.
pub(crate) fn sum_up(
    alloc: Global,
    run_end: RunEnd,
    replies: &[u8],
    script: &[u8],
) -> Result<Summed, NoMemory>
    requires short { length script.now ≤ SCRIPT_LIMIT }
    requires ends { EndsText run_end }
    requires text { (refused : Bool) → run_end ≡ end_of_all refused →
        IsTextOf replies.now script.now }
    ensures { IfOk result (IsSummed run_end script.now replies.now) }
{
    let refused = refused_of(run_end)?;
    let line = line_of(alloc, replies, script)?;
    Ok(Summed { line, refused })
}

/// Whether some statement was refused, where a run in memory ended so. Want of memory is also what
/// makes a write there fail.
fn refused_of(run_end: RunEnd) -> Result<bool, NoMemory>
    requires { EndsText run_end }
    ensures { IfOk result (λ refused. run_end ≡ end_of_all refused) }
{
    match run_end {
        RunEnd::Clean => Ok(false),
        RunEnd::SomeRefused => Ok(true),
        RunEnd::WriteFault | RunEnd::NoMemory => Err(NoMemory),
        RunEnd::ReadFault | RunEnd::ScriptLimit => unreachable!(),
    }
}

/// The line that sums up the replies to a script, from their text.
fn line_of(alloc: Global, replies: &[u8], script: &[u8]) -> Result<ByteText, NoMemory>
    requires short { length script.now ≤ SCRIPT_LIMIT }
    requires text { IsTextOf replies.now script.now }
    ensures { IfOk result (λ line. (wanted : List ℕ) →
        replies.now ≡ script_text wanted true script.now → line ≡ line_of wanted script.now) }
{
    replies_are_well_formed();
    let Some(found) = summary(alloc, replies)? else {
        unreachable!()
    };
    let mut line = ByteText::new(alloc);
    print_summary(&found, &mut line)?;
    Ok(line)
}
