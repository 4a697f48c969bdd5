//! The reply to one statement. A query is answered by itself, at its place.
ghost use Rattle.std.specs.Prelude.{◌≡◌, ◌++◌, IfOk, OnErr, OnOk};
ghost use Rattle.star_plan.specs.Over.{IsOver};
ghost use Rattle.star_plan.specs.Test.{query_of};
ghost use Rattle.query_meaning.specs.Alone.{alone};
ghost use Rattle.query_meaning.specs.Keyed.{plain};
ghost use Rattle.reply_text.specs.Text.{text_of};
ghost use Rattle.star_store.specs.Effect.{answer_reply, effect_of, store_after};
ghost use Rattle.script_run.specs.Replied.{IsReplied};
ghost use Rattle.script_run.specs.Run.{is_refusal};

use query_meaning::answer_alone;
use reply_text::{Reply, print_reply};
use script_reader::Statement;
use star_plan::{Answer, StarQuery};
use star_store::{Applied, ReadStatement, Store, apply_alone};
use star_values::{ByteText, NoMemory};
use std::alloc::Global;
use std::hash::RandomState;

/// Does what a statement says, and gives its reply. Where no memory is left for that nothing has
/// changed, and its reply is `memory`.
pub(crate) fn reply_or_memory(
    alloc: Global,
    hash_keys: RandomState,
    store: &mut Store,
    statement: Statement,
) -> Reply
    ensures { IsReplied (plain store.old) statement result (plain store.new) }
{
    match reply_to(alloc, hash_keys, store, statement) {
        Ok(reply) => reply,
        Err(_) => Reply::Memory,
    }
}

/// Does what a statement says, and gives its reply. A query is answered over the commits before it.
pub(crate) fn reply_to(
    alloc: Global,
    hash_keys: RandomState,
    store: &mut Store,
    statement: Statement,
) -> Result<Reply, NoMemory>
    ensures reply { IfOk result (λ reply. reply ≡ (effect_of (plain store.old) statement).reply) }
    ensures tables { OnOk result (plain store.new ≡ store_after (plain store.old) statement) }
    ensures wanted { OnErr result (plain store.new ≡ plain store.old) }
{
    let applied = apply_alone(alloc, store, &mut ReadStatement::unread(&statement));
    drop(statement);
    match applied? {
        Applied::Replied(reply) | Applied::Changed { reply, .. } => Ok(reply),
        Applied::Accepted { query, snapshot } => {
            reply_to_query(alloc, hash_keys, store, &query, snapshot)
        }
    }
}

/// The reply to a query: its answer alone.
fn reply_to_query(
    alloc: Global,
    hash_keys: RandomState,
    store: &Store,
    query: &StarQuery,
    snapshot: u64,
) -> Result<Reply, NoMemory>
    requires { IsOver store.now.schema (query_of query.now) }
    ensures { IfOk result (λ reply.
        reply ≡ answer_reply snapshot (alone (plain store.now) (query_of query.now) snapshot)) }
{
    let answer = answer_alone(
        alloc,
        hash_keys,
        store.facts(),
        store.dims(),
        query,
        snapshot,
    )?;
    Ok(match answer {
        Answer::Rows(rows) => Reply::Answer { snapshot, rows },
        Answer::Overflow => Reply::Overflow { snapshot },
    })
}

/// The text of a reply.
pub(crate) fn text_of(alloc: Global, reply: &Reply) -> Result<ByteText, NoMemory>
    ensures { IfOk result (λ text. text ≡ text_of reply.now) }
{
    let mut text = ByteText::new(alloc);
    print_reply(reply, &mut text)?;
    Ok(text)
}

/// Whether a reply is a refusal, or tells that memory was wanted.
pub(crate) fn is_refusal(reply: &Reply) -> bool
    ensures { result ≡ is_refusal reply.now }
{
    matches!(reply, Reply::Refused(_) | Reply::Memory)
}
