//! What holds of every statement, whatever the tables.
ghost use Rattle.std.specs.Prelude.{◌≡◌, ◌↔◌, ℕ, List, [], Option, Some, None, Ok, Err, IsUtf8};
ghost use Rattle.script_reader.specs.declared.statement.Statement.{Statement};
ghost use Rattle.star_values.specs.declared.refusal.Refusal.TheVariants.{Syntax, Limit, NotUtf8, OutOfOrder};
ghost use Rattle.star_values.specs.declared.refusal.Refusal.{Refusal};
ghost use Rattle.star_lexer.specs.Limits.{IsOverLimit};
ghost use Rattle.star_parser.specs.Condition.{Condition};
ghost use Rattle.star_parser.specs.Statement as written;
ghost use Rattle.star_parser.specs.declared.ast.AstItem.{AstItem};
ghost use Rattle.star_parser.specs.declared.tree.Column.{Column};
ghost use Rattle.star_plan.specs.Test.{Query};
ghost use Rattle.star_plan.specs.declared.table_def.TableDef.{TableDef};
ghost use Rattle.star_binder.specs.Refused.{bound_select};
ghost use Rattle.star_binder.specs.Select.{select_of};
ghost use Rattle.query_meaning.specs.History.{Change, store_of};
ghost use Rattle.query_meaning.specs.Settled.{IsSettled};
ghost use Rattle.query_meaning.specs.Store.{Store, empty_store};
ghost use Rattle.star_store.specs.Effect.{effect_of, store_after};
ghost use Rattle.star_store.specs.Fitting.{FitsTables};
ghost use Rattle.star_store.specs.Laws.{AgreesWith};
ghost use Rattle.star_store.specs.Outcome.{Accepted, only_tells, outcome_of, refused};
ghost use Rattle.star_store.specs.Script.{replies_after, replies_at, replies_of};
ghost use Rattle.star_store.specs.Text.{IsWhole, IsWithin, StopsAt, meaning_of};

use crate::laws_of_tables::changes_of_statements_are_taken;
use star_binder::bound_queries_keep_to_their_schema;
use star_parser::{lines_are_what_the_grammar_says, statements_have_their_shapes};

/// A refused statement, a query and a `wait` change nothing, and an accepted load or
/// delete is the next commit.
pub fn replies_agree_with_the_tables()
    ensures { (store : Store) (statement : Statement) →
        AgreesWith store (store_after store statement) (effect_of store statement).reply }
{}

/// The replies to the statements of a script are those over its tables, from no tables on.
pub fn replies_follow_from_the_tables()
    ensures after { (wanted : List ℕ) (place : ℕ) (history : List Change)
        (statements : List Statement) →
        replies_after wanted place history statements
        ≡ replies_at wanted place (store_of history) statements }
    ensures script { (wanted : List ℕ) (statements : List Statement) →
        replies_of wanted statements ≡ replies_at wanted 0 empty_store statements }
{}

/// The text of a statement is refused for the first of these: its line is not UTF-8, it is over a
/// limit, or it is no statement with all that it has to have. Else it means what the grammar says.
pub fn texts_are_refused_for_the_first_reason()
    ensures utf8 { (statement : Statement) →
        (meaning_of statement ≡ Err NotUtf8) ↔ (¬ (IsUtf8 statement.line)) }
    ensures limit { (statement : Statement) →
        (meaning_of statement ≡ Err Limit) ↔ (IsUtf8 statement.line × IsOverLimit statement.line) }
    ensures syntax { (statement : Statement) (place : ℕ) →
        meaning_of statement ≡ Err (Syntax place) →
        IsWithin statement.line × StopsAt statement place }
    ensures passed { (statement : Statement) (meaning : written.Statement) →
        (meaning_of statement ≡ Ok meaning)
        ↔ (IsWithin statement.line × IsWhole statement meaning) }
{
    lines_are_what_the_grammar_says();
}

/// A select is out of order before the fact table was declared. Behind it a select that may not
/// stand over the declared tables is refused for the first reason of the binder, and any other is
/// accepted, with the number of the last commit as its snapshot.
pub fn selects_are_refused_by_the_schema()
    ensures early { (store : Store) (statement : Statement) (items : List AstItem)
        (names : List (List ℕ))
        (condition : Option Condition) (groups : List Column) →
        meaning_of statement ≡ Ok (written.Select items names condition groups) →
        store.schema.fact ≡ None →
        outcome_of store statement ≡ refused OutOfOrder }
    ensures bound { (store : Store) (fact : TableDef) (statement : Statement) (items : List AstItem)
        (names : List (List ℕ))
        (condition : Option Condition) (groups : List Column) (reason : Refusal) →
        meaning_of statement ≡ Ok (written.Select items names condition groups) →
        store.schema.fact ≡ Some fact →
        bound_select store.schema (select_of items names condition groups) ≡ Err reason →
        outcome_of store statement ≡ refused reason }
    ensures accepted { (store : Store) (fact : TableDef) (statement : Statement)
        (items : List AstItem) (names : List (List ℕ))
        (condition : Option Condition) (groups : List Column) (query : Query) →
        meaning_of statement ≡ Ok (written.Select items names condition groups) →
        store.schema.fact ≡ Some fact →
        bound_select store.schema (select_of items names condition groups) ≡ Ok query →
        outcome_of store statement ≡ only_tells (Accepted query store.commits) }
{}

/// A statement over settled tables is a reply alone, a query over the schema at the last commit, or
/// a change that the tables take.
pub fn outcomes_fit_the_tables()
    ensures { (store : Store) (statement : Statement) → IsSettled store →
        FitsTables store (outcome_of store statement).change (outcome_of store statement).told }
{
    bound_queries_keep_to_their_schema();
    changes_of_statements_are_taken();
    statements_have_their_shapes();
    texts_are_refused_for_the_first_reason();
}
