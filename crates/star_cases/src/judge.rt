//! Whether a run wrote the replies of a case, and ended as they say.
ghost use Rattle.std.specs.Prelude.{◌≡◌, ◌↔◌, IsNone};
ghost use Rattle.star_cases.specs.Judge.{is_refusal, has_refusal, wanted_end};

use star_io::RunEnd;

/// What is wrong with a run.
#[derive(Clone, Copy, Debug, PartialEq, Eq)]
pub(crate) enum RunFault {
    /// This line of what was written, counted from 0, is not that of the replies.
    Line(usize),
    /// The run ended so.
    End(RunEnd),
}

/// Whether a line of replies is a refusal, or tells that a statement found no memory.
#[tactic(auto, unfolding(crate::specs::Judge::is_refusal))]
fn is_refusal(line: &[u8]) -> bool
    ensures { result ≡ is_refusal line.now }
{
    line.starts_with(b"refused ") || line == b"memory".as_slice()
}

fn has_refusal(replies: &[u8]) -> bool
    ensures { result ≡ has_refusal replies.now }
{
    replies
        .split(|byte| *byte == b'\n')
        .any(|line| is_refusal(line))
}

/// The end of a run that writes these replies.
fn wanted_end(replies: &[u8]) -> RunEnd
    ensures { result ≡ wanted_end replies.now }
{
    if has_refusal(replies) {
        RunEnd::SomeRefused
    } else {
        RunEnd::Clean
    }
}

/// The first fault of a run that wrote these bytes and ended so.
pub(crate) fn fault_of(written: &[u8], end: RunEnd, replies: &[u8]) -> Option<RunFault>
    ensures { IsNone result ↔ (written.now ≡ replies.now) × (end ≡ wanted_end replies.now) }
{
    if written != replies {
        return Some(RunFault::Line(first_other_line(written, replies)));
    }
    if end != wanted_end(replies) {
        return Some(RunFault::End(end));
    }
    None
}

/// The number of the first line in which two texts differ, counted from 0.
fn first_other_line(written: &[u8], replies: &[u8]) -> usize {
    let same = written
        .iter()
        .zip(replies)
        .take_while(|(one, other)| one == other)
        .map(|(one, _)| *one);
    same.filter(|byte| *byte == b'\n').count()
}
