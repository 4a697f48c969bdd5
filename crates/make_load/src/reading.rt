//! The summary of the text of a list of replies.
ghost use Rattle.std.specs.Prelude.{◌≡◌, ◌≢◌, List, Some, All, IfOk, IfSome};
ghost use Rattle.std.specs.Option.{IfNone};
ghost use Rattle.reply_text.specs.declared.reply.Reply as declared;
ghost use Rattle.reply_text.specs.Text.{text_of_all};
ghost use Rattle.reply_text.specs.Formed.{IsWellFormed};
ghost use Rattle.make_load.specs.Summary.{summary_of};

use crate::counts::numbers_of;
use crate::totals::Summary;
use reply_text::{Reply, read_reply};
use star_values::{ListOf, NoMemory};
use std::alloc::Global;

/// The summary of the replies whose text, one after the other, the bytes are. There is none where
/// the bytes are not the text of a list of replies. The only error is want of memory.
pub fn summary(alloc: Global, replies: &[u8]) -> Result<Option<Summary>, NoMemory>
    ensures some { IfOk result (λ found.
        IfSome found (λ s. (list : List declared.Reply) × (All IsWellFormed list)
        × (replies.now ≡ text_of_all list) × (s ≡ summary_of list))) }
    ensures none { IfOk result (λ found. IfNone found ((list : List declared.Reply) →
        All IsWellFormed list → replies.now ≢ text_of_all list)) }
    ensures back { IfOk result (λ found. (list : List declared.Reply) → All IsWellFormed list
        → replies.now ≡ text_of_all list → found ≡ Some (summary_of list)) }
{
    let Ok(found) = replies_in(alloc, replies) else {
        return Err(NoMemory);
    };
    match found {
        Some(list) => Ok(Some(numbers_of(list.as_slice(), replies))),
        None => Ok(None),
    }
}

/// The replies whose text, one after the other, the bytes are.
fn replies_in(alloc: Global, bytes: &[u8]) -> Result<Option<ListOf<Reply>>, NoMemory>
    ensures some { IfOk result (λ found.
        IfSome found (λ list. (All IsWellFormed list) × (bytes.now ≡ text_of_all list))) }
    ensures none { IfOk result (λ found. IfNone found ((list : List declared.Reply) →
        All IsWellFormed list → bytes.now ≢ text_of_all list)) }
    ensures back { IfOk result (λ found. (list : List declared.Reply) → All IsWellFormed list
        → bytes.now ≡ text_of_all list → found ≡ Some list) }
{
    let mut list = ListOf::new(alloc);
    let mut rest = bytes;
    'replies: while !rest.is_empty() {
        let Ok(found) = read_reply(alloc, rest) else {
            return Err(NoMemory);
        };
        let Some((reply, len)) = found else {
            return Ok(None);
        };
        list.push(reply)?;
        rest = rest.split_at(len).1;
    }
    Ok(Some(list))
}
