//! What is counted of a list of replies.
ghost use Rattle.std.specs.Prelude.{◌≡◌, ◌+◌, ◌<◌, ◌^◌, length, sum, count_by};
ghost use Rattle.std.specs.List.{sum_by};
ghost use Rattle.reply_text.specs.Text.{text_of_all};
ghost use Rattle.make_load.specs.Summary.{capped, is_answer, is_commit, is_memory, is_overflow, is_refused, answered_rows, summary_of};

use crate::totals::Summary;
use reply_text::Reply;

/// The numbers of replies with this text.
#[tactic(auto, unfolding(crate::specs::Summary::summary_of))]
pub(crate) fn numbers_of(replies: &[Reply], text: &[u8]) -> Summary
    requires { text.now ≡ text_of_all replies.now }
    ensures { result ≡ summary_of replies.now }
{
    let bytes = text.len();
    Summary {
        statements: replies.len() as u64,
        commits: commits(replies),
        answers: answers(replies),
        rows: answer_rows(replies),
        overflows: overflows(replies),
        refused: refused(replies),
        memory: memory(replies),
        bytes: bytes as u64,
        sum: byte_sum(text),
    }
}

fn commits(replies: &[Reply]) -> u64
    ensures { result ≡ count_by is_commit replies.now }
{
    replies.iter().filter(|reply| is_commit(reply)).count() as u64
}

fn is_commit(reply: &Reply) -> bool
    ensures { result ≡ is_commit reply.now }
{
    matches!(reply, Reply::Commit { .. })
}

fn answers(replies: &[Reply]) -> u64
    ensures { result ≡ count_by is_answer replies.now }
{
    replies.iter().filter(|reply| is_answer(reply)).count() as u64
}

fn is_answer(reply: &Reply) -> bool
    ensures { result ≡ is_answer reply.now }
{
    matches!(reply, Reply::Answer { .. })
}

fn overflows(replies: &[Reply]) -> u64
    ensures { result ≡ count_by is_overflow replies.now }
{
    replies.iter().filter(|reply| is_overflow(reply)).count() as u64
}

fn is_overflow(reply: &Reply) -> bool
    ensures { result ≡ is_overflow reply.now }
{
    matches!(reply, Reply::Overflow { .. })
}

fn refused(replies: &[Reply]) -> u64
    ensures { result ≡ count_by is_refused replies.now }
{
    replies.iter().filter(|reply| is_refused(reply)).count() as u64
}

fn is_refused(reply: &Reply) -> bool
    ensures { result ≡ is_refused reply.now }
{
    matches!(reply, Reply::Refused(_))
}

fn memory(replies: &[Reply]) -> u64
    ensures { result ≡ count_by is_memory replies.now }
{
    replies.iter().filter(|reply| is_memory(reply)).count() as u64
}

fn is_memory(reply: &Reply) -> bool
    ensures { result ≡ is_memory reply.now }
{
    matches!(reply, Reply::Memory)
}

/// The rows of all answers. There are no more of them than bytes of their text.
fn answer_rows(replies: &[Reply]) -> u64
    requires { sum_by answered_rows replies.now < 2 ^ 64 }
    ensures { result ≡ sum_by answered_rows replies.now }
{
    replies.iter().map(|reply| answered_rows(reply)).sum()
}

fn answered_rows(reply: &Reply) -> u64
    ensures { result ≡ answered_rows reply.now }
{
    match reply {
        Reply::Answer { rows, .. } => rows.len() as u64,
        _ => 0,
    }
}

/// The sum of the bytes, or the greatest number of 64 bits where the sum is greater.
fn byte_sum(bytes: &[u8]) -> u64
    ensures { result ≡ capped (sum bytes.now) }
{
    let mut sum: u64 = 0;
    for byte in bytes {
        sum = capped_sum(sum, *byte);
    }
    sum
}

fn capped_sum(sum: u64, byte: u8) -> u64
    ensures { result ≡ capped (sum + byte) }
{
    sum.saturating_add(u64::from(byte))
}
