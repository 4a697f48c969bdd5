//! The reply at the front of bytes. Its parts are read in `numbers`, `table_name`,
//! `refusals`, `cells` and `rows`.
ghost use Rattle.std.specs.Prelude.{◌≡◌, ◌≢◌, ℕ, List, ◌++◌, length, Some, option_map, codes, IfOk, IfSome};
ghost use Rattle.std.specs.Option.{IfNone, option_or};
ghost use Rattle.reply_text.specs.declared.reply.Reply as declared;
ghost use Rattle.reply_text.specs.Text.{text_of};
ghost use Rattle.reply_text.specs.Formed.{IsWellFormed};
ghost use Rattle.reply_text.specs.Reading.{answer_at, commit_at, line_at, overflow_at, refused_at, reply_at, table_at, table_name_at, word_at};
ghost use Rattle.reply_text.specs.declared.reply.Reply.TheVariants.{Memory, Waited};

use crate::numbers::{behind, number_then, numbers_at};
use crate::refusals::refusal_at;
use crate::reply::Reply;
use crate::rows::even_rows_at;
use crate::table_name::name_at;
use star_values::{NoMemory, SmallText, integer_text_reads_back, small_text_rule_is_tested};
use std::alloc::Global;

/// Reads the reply at the front of the bytes, and gives it with its length in bytes. There is none
/// where no front of the bytes is the text of a reply. What stands behind the reply is not looked
/// at. The only error is want of memory. The time and the memory that it takes go by the bytes that
/// are there, and not by the number of rows that the first line tells.
pub fn read_reply(alloc: Global, bytes: &[u8]) -> Result<Option<(Reply, usize)>, NoMemory>
    ensures some { IfOk result (λ found. IfSome found (λ f. IsWellFormed f.0
        × (f.1 ≡ length (text_of f.0))
        × ((rest : List ℕ) × (bytes.now ≡ text_of f.0 ++ rest)))) }
    ensures none { IfOk result (λ found. IfNone found ((reply : declared.Reply) (rest : List ℕ) →
        IsWellFormed reply → bytes.now ≢ text_of reply ++ rest)) }
    ensures back { IfOk result (λ found.
        (reply : declared.Reply) (rest : List ℕ) → IsWellFormed reply
        → bytes.now ≡ text_of reply ++ rest → found ≡ Some (reply, length (text_of reply))) }
{
    integer_text_reads_back();
    small_text_rule_is_tested();
    let Ok(found) = reply_at(alloc, bytes) else {
        return Err(NoMemory);
    };
    match found {
        Some((reply, rest)) => Ok(Some((reply, bytes.len() - rest.len()))),
        None => Ok(None),
    }
}

/// Where a reply stands at the front of bytes, it is the only one that does.
pub fn replies_have_one_spelling()
    ensures { (reply other : declared.Reply) (rest more : List ℕ) → IsWellFormed reply
        → IsWellFormed other → text_of reply ++ rest ≡ text_of other ++ more
        → (reply ≡ other) × (rest ≡ more) }
{
    integer_text_reads_back();
    small_text_rule_is_tested();
}

#[tactic(auto, unfolding(crate::specs::Reading::reply_at))]
fn reply_at(alloc: Global, bytes: &[u8]) -> Result<Option<(Reply, &[u8])>, NoMemory>
    ensures { IfOk result (λ found. option_map (λ f. (f.0, f.1.now)) found ≡ reply_at bytes.now) }
{
    let Ok(table) = table_at(alloc, bytes) else {
        return Err(NoMemory);
    };
    let None = table else {
        return Ok(table);
    };
    let Ok(answer) = answer_at(alloc, bytes) else {
        return Err(NoMemory);
    };
    match answer {
        Some(found) => Ok(Some(found)),
        None => Ok(line_at(bytes)),
    }
}

#[tactic(auto, unfolding(crate::specs::Reading::table_at))]
fn table_at(alloc: Global, bytes: &[u8]) -> Result<Option<(Reply, &[u8])>, NoMemory>
    ensures { IfOk result (λ found. option_map (λ f. (f.0, f.1.now)) found ≡ table_at bytes.now) }
{
    let Some((name, rest)) = table_name_at(bytes) else {
        return Ok(None);
    };
    match SmallText::from_bytes(alloc, name) {
        Ok(name) => Ok(Some((Reply::Table(name), rest))),
        // A name is within the rule of a text, so this is want of memory.
        Err(_) => Err(NoMemory),
    }
}

#[tactic(auto, unfolding(crate::specs::Reading::table_name_at))]
fn table_name_at(bytes: &[u8]) -> Option<(&[u8], &[u8])>
    ensures { option_map (λ f. (f.0.now, f.1.now)) result ≡ table_name_at bytes.now }
{
    let name = behind(bytes, b"table ")?;
    let (name, rest) = name_at(name)?;
    Some((name, behind(rest, b"\n")?))
}

#[tactic(auto, unfolding(crate::specs::Reading::answer_at))]
fn answer_at(alloc: Global, bytes: &[u8]) -> Result<Option<(Reply, &[u8])>, NoMemory>
    ensures { IfOk result (λ found. option_map (λ f. (f.0, f.1.now)) found ≡ answer_at bytes.now) }
{
    let Some((snapshot, count, rest)) = numbers_at(bytes, b"answer ", b" rows ") else {
        return Ok(None);
    };
    let Ok(found) = even_rows_at(alloc, count, rest) else {
        return Err(NoMemory);
    };
    match found {
        Some((rows, rest)) => Ok(Some((Reply::Answer { snapshot, rows }, rest))),
        None => Ok(None),
    }
}

#[tactic(auto, unfolding(crate::specs::Reading::line_at))]
fn line_at(bytes: &[u8]) -> Option<(Reply, &[u8])>
    ensures { option_map (λ f. (f.0, f.1.now)) result ≡ line_at bytes.now }
{
    match commit_at(bytes) {
        Some(found) => Some(found),
        None => match overflow_at(bytes) {
            Some(found) => Some(found),
            None => match refused_at(bytes) {
                Some(found) => Some(found),
                None => plain_at(bytes),
            },
        },
    }
}

fn plain_at(bytes: &[u8]) -> Option<(Reply, &[u8])>
    ensures { option_map (λ f. (f.0, f.1.now)) result
        ≡ option_or (word_at (codes "memory\n") Memory bytes.now)
        (word_at (codes "waited\n") Waited bytes.now) }
{
    match behind(bytes, b"memory\n") {
        Some(rest) => Some((Reply::Memory, rest)),
        None => Some((Reply::Waited, behind(bytes, b"waited\n")?)),
    }
}

#[tactic(auto, unfolding(crate::specs::Reading::commit_at))]
fn commit_at(bytes: &[u8]) -> Option<(Reply, &[u8])>
    ensures { option_map (λ f. (f.0, f.1.now)) result ≡ commit_at bytes.now }
{
    let (number, rows, rest) = numbers_at(bytes, b"commit ", b" rows ")?;
    Some((Reply::Commit { number, rows }, rest))
}

#[tactic(auto, unfolding(crate::specs::Reading::overflow_at))]
fn overflow_at(bytes: &[u8]) -> Option<(Reply, &[u8])>
    ensures { option_map (λ f. (f.0, f.1.now)) result ≡ overflow_at bytes.now }
{
    let snapshot = behind(bytes, b"overflow ")?;
    let (snapshot, rest) = number_then(snapshot, b"\n")?;
    Some((Reply::Overflow { snapshot }, rest))
}

#[tactic(auto, unfolding(crate::specs::Reading::refused_at))]
fn refused_at(bytes: &[u8]) -> Option<(Reply, &[u8])>
    ensures { option_map (λ f. (f.0, f.1.now)) result ≡ refused_at bytes.now }
{
    let reason = behind(bytes, b"refused ")?;
    let (refusal, rest) = refusal_at(reason)?;
    Some((Reply::Refused(refusal), rest))
}
