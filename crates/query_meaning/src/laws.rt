//! What one version more does to what is kept, and what is kept ends as, as laws.
ghost use Rattle.std.specs.Prelude.{◌≡◌, ℕ, List, [], ◌∷◌, ◌++◌, IsSorted, Some, if◌then◌else◌};
ghost use Rattle.std.specs.Ordering.{eq_by_cmp};
ghost use Rattle.std.specs.List.{IsDistinct};
ghost use Rattle.std.specs.Option.{option_map_or};
ghost use Rattle.std.specs.Map.{keys_of, lookup};
ghost use Rattle.star_values.specs.declared.value.Value.{Value};
ghost use Rattle.star_values.specs.Value.{row_cmp};
ghost use Rattle.star_plan.specs.declared.item.Item.{Item};
ghost use Rattle.star_plan.specs.declared.place.Place.{Place};
ghost use Rattle.star_plan.specs.Answer.{answer_of};
ghost use Rattle.star_plan.specs.Groups.{key_of};
ghost use Rattle.star_plan.specs.Joined.{Joined};
ghost use Rattle.star_plan.specs.Test.{Query};
ghost use Rattle.fact_versions.specs.declared.version.Version.{Version};
ghost use Rattle.dimension_rows.specs.declared.dimension_row.DimensionRow.{DimensionRow};
ghost use Rattle.query_meaning.specs.Keyed.{joined_by_keys};
ghost use Rattle.query_meaning.specs.Finish.{all_of, answer_from, group_end};
ghost use Rattle.query_meaning.specs.Kept.{group_of, keeps, kept_in};
ghost use Rattle.query_meaning.specs.Read.{item_value_of};
ghost use Rattle.query_meaning.specs.Tally.{taken, tallies_of};
ghost use Rattle.query_meaning.specs.declared.tally.Tally.{Tally};

use star_plan::{
    answers_overflow_by_whole_sums, cells_take_one_row_more, groups_are_the_keys_of_the_rows,
    groups_take_one_row_more,
};
use star_values::rows_are_in_order;

/// A query keeps of versions and one more what it keeps of the versions, and the one joined by its
/// key numbers where it keeps that.
pub(crate) fn kept_rows_take_one_version_more()
    ensures { (query : Query) (dimensions : List (List DimensionRow)) (snapshot : ℕ)
        (versions : List Version) (version : Version) →
        kept_in query dimensions snapshot (versions ++ version ∷ [])
        ≡ (if keeps query dimensions snapshot version
        then (kept_in query dimensions snapshot versions
        ++ joined_by_keys dimensions query version ∷ [])
        else kept_in query dimensions snapshot versions) }
{
    groups_take_one_row_more();
}

/// The tallies of rows and one more are those of the rows, with the values of the one.
pub(crate) fn tallies_take_one_row_more()
    ensures { (items : List Item) (rows : List Joined) (row : Joined) →
        taken (item_value_of row) items (tallies_of items rows)
        ≡ tallies_of items (rows ++ row ∷ []) }
{
    cells_take_one_row_more();
}

/// What is kept of the groups of rows and one more is what is kept of the groups of the rows, where
/// the group of the one has its values too, and is there.
pub(crate) fn groups_take_one_row()
    ensures { (query : Query) (rows : List Joined) (row : Joined) (key : List Value) →
        group_of query (rows ++ row ∷ []) key
        ≡ (if eq_by_cmp row_cmp (key_of query.groups row) key
        then Some (taken (item_value_of row) query.items
        (option_map_or (λ tallies. tallies)
        (group_of query rows (key_of query.groups row)) (tallies_of query.items [])))
        else group_of query rows key) }
{
    groups_take_one_row_more();
    tallies_take_one_row_more();
}

/// Without GROUP BY the cells of all rows are the answer.
pub(crate) fn all_rows_end_as_the_answer()
    ensures { (query : Query) (rows : List Joined) → query.groups ≡ [] →
        answer_from (all_of (group_end query.groups query.items)
        (([], tallies_of query.items rows) ∷ []))
        ≡ answer_of query rows }
{
    answers_overflow_by_whole_sums();
}

/// With GROUP BY the cells of the groups, in the order of their keys, are the answer.
pub(crate) fn sorted_groups_end_as_the_answer()
    ensures { (query : Query) (place : Place) (places : List Place) (rows : List Joined)
        (entries : List (List Value × List Tally)) → query.groups ≡ place ∷ places →
        IsSorted row_cmp (keys_of entries) → IsDistinct (eq_by_cmp row_cmp) (keys_of entries) →
        ((key : List Value) → lookup (eq_by_cmp row_cmp key) entries ≡ group_of query rows key) →
        answer_from (all_of (group_end query.groups query.items) entries) ≡ answer_of query rows }
{
    answers_overflow_by_whole_sums();
    groups_are_the_keys_of_the_rows();
    rows_are_in_order();
}
