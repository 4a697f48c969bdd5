//! What the definitions of binding say, as laws. The definitions are in `specs/`.
ghost use Rattle.std.specs.Prelude.{◌≡◌, ◌<◌, ℕ, true, List, [], length, IfOk, Ok, Option};
ghost use Rattle.star_values.specs.declared.value.Value.{Value};
ghost use Rattle.star_parser.specs.declared.ast.AstItem.{AstItem};
ghost use Rattle.star_parser.specs.declared.tree.Column.{Column};
ghost use Rattle.star_parser.specs.Condition.{Condition};
ghost use Rattle.star_plan.specs.Joined.{Joined, is_kept};
ghost use Rattle.star_plan.specs.Test.{Query, Test};
ghost use Rattle.star_plan.specs.Truth.{passes};
ghost use Rattle.star_plan.specs.Fits.{some_test_fits};
ghost use Rattle.star_plan.specs.Columns.{fact_columns, kinds_of};
ghost use Rattle.star_plan.specs.Over.{IsOver};
ghost use Rattle.star_plan.specs.declared.schema.Schema.{Schema};
ghost use Rattle.star_binder.specs.Named.{where_conjuncts};
ghost use Rattle.star_binder.specs.Refused.{bound_delete, bound_select, fact_alone, from_tables};
ghost use Rattle.star_binder.specs.Select.{SelectParts, select_of};
ghost use Rattle.star_binder.specs.Where.{IsJoinedByKeys, whole_where_holds};
ghost use Rattle.star_binder.specs.declared.TheConstants.{MAX_ITEMS, MAX_GROUPS};

use star_plan::kept_rows_meet_each_condition;
use star_values::values_are_in_order;

/// What is bound keeps to its schema. In the query of a select of some item each test fits the
/// columns of its table, there is a choice for each dimension, each place is that of a column, sums
/// are over integers, plain items stand in the groups, each dimension of the groups and items is
/// named, and each that is named is referenced by a column of the fact table. The test of a delete,
/// where there is one, fits the columns of the fact table.
pub fn bound_queries_keep_to_their_schema()
    ensures select { (schema : Schema) (select : SelectParts) → 0 < length select.items →
        IfOk (bound_select schema select) (λ query. IsOver schema query) }
    ensures delete { (schema : Schema) (name : List ℕ) (conjuncts : List Condition) →
        IfOk (bound_delete schema name conjuncts)
        (λ test. some_test_fits (kinds_of (fact_columns schema)) test ≡ true) }
{}

/// The WHERE holds on a joined row exactly where the query that is bound keeps the row, if the row
/// of each dimension among the tables has the key that the fact row references. So splitting the
/// WHERE by tables loses no condition, and the key joins that the query leaves out hold by
/// themselves. The WHERE of a delete holds on a row of the fact table exactly where its test does.
pub fn bound_queries_keep_what_the_where_keeps()
    ensures select { (schema : Schema) (items : List AstItem) (names : List (List ℕ))
        (condition : Option Condition) (groups : List Column) (query : Query) (row : Joined) →
        bound_select schema (select_of items names condition groups) ≡ Ok query →
        IsJoinedByKeys (from_tables schema names) row →
        whole_where_holds (from_tables schema names) row condition ≡ is_kept query row }
    ensures delete { (schema : Schema) (name : List ℕ) (condition : Option Condition)
        (test : Option Test) (row : List Value) →
        bound_delete schema name (where_conjuncts condition) ≡ Ok test →
        whole_where_holds (fact_alone schema) (record { fact = row; dimensions = [] }) condition
        ≡ passes test row }
{
    values_are_in_order();
    kept_rows_meet_each_condition();
}

/// The most items of a query, and the most columns that it groups by.
pub fn selects_have_their_limits()
    ensures items { MAX_ITEMS ≡ 64 }
    ensures groups { MAX_GROUPS ≡ 16 }
{}
