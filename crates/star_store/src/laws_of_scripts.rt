//! What holds of the replies to scripts, and of the histories that they make.
ghost use Rattle.std.specs.Prelude.{◌≡◌, ◌<◌, ◌≤◌, ◌+◌, ◌^◌, ℕ, Bool, false, List, length, All, Contains, Some, count_by};
ghost use Rattle.star_values.specs.declared.value.Value.{Value};
ghost use Rattle.script_reader.specs.Script.{statements_of};
ghost use Rattle.script_reader.specs.declared.reader.TheConstants.{SCRIPT_LIMIT};
ghost use Rattle.script_reader.specs.declared.statement.Statement.{Statement};
ghost use Rattle.query_meaning.specs.Accepted.{AcceptsAll};
ghost use Rattle.query_meaning.specs.Alone.{foreign_key, is_matched, visible};
ghost use Rattle.query_meaning.specs.History.{Change, store_of};
ghost use Rattle.query_meaning.specs.Settled.{IsSettled};
ghost use Rattle.query_meaning.specs.Store.{PlainVersion, Store, empty_store, rows_in};
ghost use Rattle.reply_text.specs.Formed.{IsWellFormed};
ghost use Rattle.reply_text.specs.Text.{text_of_all};
ghost use Rattle.reply_text.specs.declared.reply.Reply.{Reply};
ghost use Rattle.star_store.specs.Effect.{effect_of};
ghost use Rattle.star_store.specs.Memory.{HaveSameText, is_memory, memory_places, told_places, wanted_places};
ghost use Rattle.star_store.specs.Script.{history_from, history_of, replies_after, replies_of};

use crate::laws_of_statements::{outcomes_fit_the_tables, texts_are_refused_for_the_first_reason};
use query_meaning::{accepted_histories_are_settled, one_row_joins_a_visible_version};
use reply_text::replies_have_one_spelling;
use star_binder::bound_queries_keep_to_their_schema;
use star_parser::statements_have_their_shapes;
use star_values::small_text_rule_is_tested;

/// Replies are `memory` exactly at the places of statements where memory was wanted: no statement
/// that has its effect replies so. So the replies tell the places: with those at which they are
/// `memory`, and no others, the statements have the same replies and make the same history.
pub fn replies_tell_where_memory_was_wanted()
    ensures never { (store : Store) (statement : Statement) →
        is_memory (effect_of store statement).reply ≡ false }
    ensures places { (wanted : List ℕ) (place : ℕ) (history : List Change)
        (statements : List Statement) →
        told_places wanted place history statements ≡ wanted_places wanted place statements }
    ensures replies { (wanted : List ℕ) (place : ℕ) (history : List Change)
        (statements : List Statement) →
        replies_after (told_places wanted place history statements) place history statements
        ≡ replies_after wanted place history statements }
    ensures history { (wanted : List ℕ) (place : ℕ) (history : List Change)
        (statements : List Statement) →
        history_from (told_places wanted place history statements) place history statements
        ≡ history_from wanted place history statements }
    ensures script { (wanted : List ℕ) (statements : List Statement) →
        replies_of (memory_places (replies_of wanted statements)) statements
        ≡ replies_of wanted statements }
{}

/// Each change of a script's history is taken by the tables that stand before it, wherever memory
/// was wanted, and whether the input has ended or not; and so is each change of statements behind a
/// history of such changes.
pub fn histories_of_scripts_are_accepted()
    ensures behind { (wanted : List ℕ) (place : ℕ) (history : List Change)
        (statements : List Statement) → AcceptsAll empty_store history →
        AcceptsAll empty_store (history_from wanted place history statements) }
    ensures script { (wanted : List ℕ) (ended : Bool) (script : List ℕ) →
        AcceptsAll empty_store (history_of wanted (statements_of ended script)) }
{
    accepted_histories_are_settled();
    outcomes_fit_the_tables();
}

/// So the tables that statements make are settled, and exactly one row of a dimension that a
/// snapshot sees has the foreign key of a version that it sees.
pub fn tables_of_scripts_are_settled()
    ensures settled { (wanted : List ℕ) (statements : List Statement) →
        IsSettled (store_of (history_of wanted statements)) }
    ensures one_row { (wanted : List ℕ) (statements : List Statement) (store : Store)
        (snapshot dimension : ℕ) (version : PlainVersion) (key : Value) →
        store ≡ store_of (history_of wanted statements) →
        Contains (visible store snapshot) version →
        foreign_key store.schema dimension version.row ≡ Some key →
        count_by (is_matched snapshot key) (rows_in store.dimensions dimension) ≡ 1 }
{
    accepted_histories_are_settled();
    histories_of_scripts_are_accepted();
    one_row_joins_a_visible_version();
}

/// Each reply to a script within the limit is well formed: what its text tells can be read back
/// from it. So is each reply to statements behind others, unless there are more of them than
/// commits can be numbered.
pub fn replies_are_well_formed()
    ensures behind { (before wanted : List ℕ) (place : ℕ) (earlier statements : List Statement) →
        length earlier + length statements + 1 < 2 ^ 64 →
        All IsWellFormed (replies_after wanted place (history_of before earlier) statements) }
    ensures script { (wanted : List ℕ) (ended : Bool) (script : List ℕ) →
        length script ≤ SCRIPT_LIMIT →
        All IsWellFormed (replies_of wanted (statements_of ended script)) }
{
    bound_queries_keep_to_their_schema();
    small_text_rule_is_tested();
    statements_have_their_shapes();
    texts_are_refused_for_the_first_reason();
}

/// The text of well-formed replies, one behind the other, tells them. So what is written to
/// a script within the limit tells at which places of its statements memory was wanted, and
/// the history that they make.
pub fn texts_tell_their_replies()
    ensures replies { (replies others : List Reply) →
        All IsWellFormed replies → All IsWellFormed others →
        text_of_all replies ≡ text_of_all others → replies ≡ others }
    ensures places { (wanted other : List ℕ) (ended : Bool) (script : List ℕ) →
        length script ≤ SCRIPT_LIMIT → HaveSameText wanted other (statements_of ended script) →
        wanted_places wanted 0 (statements_of ended script)
        ≡ wanted_places other 0 (statements_of ended script) }
    ensures history { (wanted other : List ℕ) (ended : Bool) (script : List ℕ) →
        length script ≤ SCRIPT_LIMIT → HaveSameText wanted other (statements_of ended script) →
        history_of wanted (statements_of ended script)
        ≡ history_of other (statements_of ended script) }
{
    replies_are_well_formed();
    replies_have_one_spelling();
    replies_tell_where_memory_was_wanted();
}

/// The places at which memory ran out are a function of the text that was written. Read the text
/// of the replies to a script within the limit back into well-formed replies, in any way: these are
/// the replies to the script if memory runs out at the places at which they are `memory`.
pub fn the_text_tells_where_memory_was_wanted()
    ensures { (wanted : List ℕ) (ended : Bool) (script : List ℕ) (replies : List Reply) →
        length script ≤ SCRIPT_LIMIT → All IsWellFormed replies →
        text_of_all replies ≡ text_of_all (replies_of wanted (statements_of ended script)) →
        replies ≡ replies_of (memory_places replies) (statements_of ended script) }
{
    replies_are_well_formed();
    replies_tell_where_memory_was_wanted();
    texts_tell_their_replies();
}
