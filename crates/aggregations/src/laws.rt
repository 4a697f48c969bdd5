//! What one row more, or a part of rows, makes of groups, and what groups end as, as laws.
ghost use Rattle.std.specs.Prelude.{◌≡◌, ◌==◌, ℕ, List, [], ◌∷◌, ◌++◌, IsPermutation, fold, length, take};
ghost use Rattle.std.specs.List.{IsDistinct};
ghost use Rattle.std.specs.List.Sorted.{IsSortedByKey};
ghost use Rattle.std.specs.Ordering.{eq_by_cmp};
ghost use Rattle.star_values.specs.declared.value.Value.{Value};
ghost use Rattle.star_values.specs.Value.{row_cmp};
ghost use Rattle.star_values.specs.Roomy.{Roomy};
ghost use Rattle.star_plan.specs.Answer.{answer_of};
ghost use Rattle.star_plan.specs.declared.place.Place.{Place};
ghost use Rattle.star_plan.specs.Joined.{Joined, value_at};
ghost use Rattle.star_plan.specs.Test.{Query};
ghost use Rattle.fact_versions.specs.declared.version.Version.{Version};
ghost use Rattle.dimension_rows.specs.declared.dimension_row.DimensionRow.{DimensionRow};
ghost use Rattle.query_meaning.specs.KeptTables.{rows_of_all};
ghost use Rattle.query_meaning.specs.Keyed.{joined_by_keys};
ghost use Rattle.query_meaning.specs.Read.{NamesItsPlaces, value_by_key};
ghost use Rattle.aggregations.specs.declared.ordered.NumberedKey.{NumberedKey};
ghost use Rattle.aggregations.specs.Grouped.{AreOfItems, Grouped, Tally, grouped_of};
ghost use Rattle.aggregations.specs.Absorbing.{absorbed, with_all, without_rows};
ghost use Rattle.aggregations.specs.Taken.{AreKnown, HasFirst, HasKeys, HasKeysOf, with_keys_of};
ghost use Rattle.aggregations.specs.Folding.{with_row, with_value};
ghost use Rattle.aggregations.specs.Cells.{groups_in};
ghost use Rattle.aggregations.specs.Finish.{answer_from, each_of, group_at, group_end, numbered_from};
ghost use Rattle.aggregations.specs.Homes.{CodesAreOfOneKey, keys_in};
ghost use Rattle.aggregations.specs.Partial.{PartsAdd, PartsCommute, part_of_all, with_part};

use query_meaning::values_by_key_are_those_of_joined_rows;
use star_plan::{
    answers_overflow_by_whole_sums, cells_take_one_row_more, groups_are_the_keys_of_the_rows,
    groups_take_one_row_more, the_least_of_values_ignores_their_order,
};
use star_values::{codes_tell_values_apart, rows_are_in_order};

/// The groups of rows, with one row more, are the groups of the rows and the one.
pub fn one_row_more_is_folded()
    ensures { (query : Query) (rows : List Joined) (row : Joined) →
        with_row (λ place. value_at place row) (grouped_of query rows)
        ≡ grouped_of query (rows ++ row ∷ []) }
{
    groups_take_one_row_more();
    cells_take_one_row_more();
}

/// Groups without their rows are those of no rows.
pub fn groups_without_rows_are_those_of_none()
    ensures { (query : Query) (rows : List Joined) →
        without_rows (grouped_of query rows) ≡ grouped_of query [] }
{}

/// The same by key numbers: where the query names the dimensions of its places, the row is the
/// version joined with the rows at its key numbers.
pub fn values_by_key_fold_the_same()
    ensures { (query : Query) (dims : List (Roomy DimensionRow)) (version : Version)
        (rows : List Joined) → NamesItsPlaces query →
        with_row (value_by_key dims version) (grouped_of query rows)
        ≡ grouped_of query (rows ++ joined_by_keys (rows_of_all dims) query version ∷ []) }
{
    one_row_more_is_folded();
    values_by_key_are_those_of_joined_rows();
}

/// Parts of rows may be taken in any order, and two of them at once. So a part stands for its rows:
/// their values, one after another, make the same of a tally.
pub fn parts_may_come_in_any_order()
    ensures commute { PartsCommute }
    ensures add { PartsAdd }
    ensures values { (values : List Value) (tally : Tally) →
        fold (λ before value. with_value value before) tally values
        ≡ with_part (part_of_all values) tally }
{
    the_least_of_values_ignores_their_order();
}

/// Rows may be folded apart, by groups of no rows of the same query, and be taken in later: rows
/// whose groups are there change no order, so it does not matter when.
pub fn rows_may_be_folded_apart()
    ensures absorbed { (rows : List (Place → Value)) (other groups : Grouped) → AreOfItems groups →
        other ≡ with_all rows (without_rows groups) → absorbed other groups ≡ with_all rows groups }
    ensures swap { (rows more : List (Place → Value)) (groups : Grouped) → AreKnown rows groups →
        with_all rows (with_all more groups) ≡ with_all more (with_all rows groups) }
    ensures keys { (rows : List (Place → Value)) (groups : Grouped) → AreKnown rows groups →
        keys_in (with_all rows groups).groups ≡ keys_in groups.groups }
    ensures first { (rows : List (Place → Value)) (from : ℕ) (groups : Grouped) → HasFirst groups →
        HasKeys (take from (keys_in (with_all rows (without_rows groups)).groups)) groups.groups →
        (with_all rows (with_keys_of from (with_all rows (without_rows groups)) groups)
        ≡ with_all rows groups)
        × AreKnown rows (with_keys_of from (with_all rows (without_rows groups)) groups) }
    ensures known { (rows : List (Place → Value)) (groups : Grouped) → HasFirst groups →
        AreKnown rows groups → HasKeysOf (with_all rows (without_rows groups)) groups }
{
    parts_may_come_in_any_order();
}

/// Two codes of which none is `NO_CODE` are those of one key: so a group is known by them.
pub fn codes_are_of_one_key()
    ensures { CodesAreOfOneKey }
{
    codes_tell_values_apart();
}

/// The groups of rows, ended in the ascending order of their keys, are the answer.
pub(crate) fn groups_in_order_end_as_the_answer()
    ensures { (query : Query) (rows : List Joined) (keys : List (List Value))
        (tallies : List Tally) (order : List NumberedKey) →
        groups_in (length query.items) keys tallies ≡ (grouped_of query rows).groups →
        IsDistinct (eq_by_cmp row_cmp) keys → IsPermutation (numbered_from 0 keys) order →
        IsSortedByKey (λ entry. entry.key) row_cmp order →
        answer_from (each_of (λ entry. group_end (length rows == 0) query.groups query.items
        (group_at (length query.items) tallies entry)) order)
        ≡ answer_of query rows }
{
    answers_overflow_by_whole_sums();
    groups_are_the_keys_of_the_rows();
    rows_are_in_order();
}
