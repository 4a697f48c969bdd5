//! What holds of the queries that selects are.
ghost use Rattle.std.specs.Prelude.{◌≡◌, ℕ, List, Contains, Ok, Option, filter, map};
ghost use Rattle.star_parser.specs.Condition.{Condition};
ghost use Rattle.star_parser.specs.declared.ast.AstItem.{AstItem};
ghost use Rattle.star_parser.specs.declared.tree.Column.{Column};
ghost use Rattle.star_plan.specs.Answer.{answer_of};
ghost use Rattle.star_plan.specs.Joined.{is_kept};
ghost use Rattle.star_plan.specs.Test.{Query};
ghost use Rattle.star_binder.specs.Refused.{bound_select, from_tables};
ghost use Rattle.star_binder.specs.Select.{select_of};
ghost use Rattle.star_binder.specs.Where.{IsJoinedByKeys, whole_where_holds};
ghost use Rattle.query_meaning.specs.Alone.{alone, joined, visible, visible_rows};
ghost use Rattle.query_meaning.specs.Settled.{IsSettled};
ghost use Rattle.query_meaning.specs.Store.{PlainVersion, Store};

use query_meaning::one_row_joins_a_visible_version;
use star_binder::bound_queries_keep_what_the_where_keeps;

/// A select over settled tables is answered by the rows on which its WHERE holds as it is written.
/// Each version that its snapshot sees is joined with the rows of its keys; on that joined row the
/// WHERE holds exactly where the query that is bound keeps it; and so the answer of the query alone
/// is over these rows and no others.
pub fn selects_are_answered_by_the_rows_where_their_where_holds()
    ensures joined { (store : Store) (items : List AstItem) (names : List (List ℕ))
        (condition : Option Condition) (groups : List Column) (query : Query) (snapshot : ℕ)
        (version : PlainVersion) → IsSettled store →
        bound_select store.schema (select_of items names condition groups) ≡ Ok query →
        Contains (visible store snapshot) version →
        IsJoinedByKeys (from_tables store.schema names) (joined store query snapshot version.row) }
    ensures kept { (store : Store) (items : List AstItem) (names : List (List ℕ))
        (condition : Option Condition) (groups : List Column) (query : Query) (snapshot : ℕ)
        (version : PlainVersion) → IsSettled store →
        bound_select store.schema (select_of items names condition groups) ≡ Ok query →
        Contains (visible store snapshot) version →
        whole_where_holds (from_tables store.schema names)
        (joined store query snapshot version.row) condition
        ≡ is_kept query (joined store query snapshot version.row) }
    ensures answer { (store : Store) (items : List AstItem) (names : List (List ℕ))
        (condition : Option Condition) (groups : List Column) (query : Query) (snapshot : ℕ) →
        IsSettled store →
        bound_select store.schema (select_of items names condition groups) ≡ Ok query →
        alone store query snapshot ≡ answer_of query
        (filter (λ row. whole_where_holds (from_tables store.schema names) row condition)
        (map (joined store query snapshot) (visible_rows store snapshot))) }
{
    bound_queries_keep_what_the_where_keeps();
    one_row_joins_a_visible_version();
}
