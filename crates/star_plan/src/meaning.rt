//! What the definitions of an answer say, as laws. The definitions are in `specs/`.
ghost use Rattle.std.specs.Prelude.{◌≡◌, ◌↔◌, ℕ, ℤ, ◌<◌, IsTrue, IsSome, IfSome, All, AllPairs, Any, Contains, List, [], ◌∷◌, filter, length, map, FitsSigned, if◌then◌else◌};
ghost use Rattle.std.specs.Int.{w64};
ghost use Rattle.std.specs.List.Sorted.{IsPermutation};
ghost use Rattle.std.specs.Ordering.{flip_args, is_le, ord_min};
ghost use Rattle.std.specs.declared.cmp.Ordering.TheVariants.{Less};
ghost use Rattle.star_values.specs.declared.value.Value.{Value};
ghost use Rattle.star_values.specs.Value.{value_cmp};
ghost use Rattle.star_plan.specs.declared.answer.Answer.TheVariants.{Rows, Overflow};
ghost use Rattle.star_values.specs.declared.cell.Cell.TheVariants.{Full};
ghost use Rattle.star_plan.specs.declared.item.Item.TheVariants.{Plain};
ghost use Rattle.star_plan.specs.declared.place.Place.{Place};
ghost use Rattle.star_plan.specs.Joined.{Joined, is_kept, kept_of, takes_at, value_at};
ghost use Rattle.star_plan.specs.Groups.{groups_of, key_cmp, key_of, rows_of};
ghost use Rattle.star_plan.specs.Answer.{answer_of, cells_of, greatest_at, is_beyond, item_cell, item_overflows, least_at, overflows};
ghost use Rattle.star_plan.specs.Test.{Query};
ghost use Rattle.star_plan.specs.Truth.{passes};

use star_values::values_are_in_order;

/// A query keeps a joined row exactly where its test on the fact table, if there is one, holds on
/// the fact row, and it takes the row of each of its dimensions. It keeps the rows in their order.
pub fn kept_rows_meet_each_condition()
    ensures meets { (query : Query) (row : Joined) →
        IsTrue (is_kept query row)
        ↔ (IsTrue (passes query.fact row.fact) × ((dimension : ℕ) →
        dimension < length query.choices → IsTrue (takes_at query row dimension))) }
    ensures kept { (query : Query) (rows : List Joined) →
        kept_of query rows ≡ filter (is_kept query) rows }
{}

/// The groups stand in ascending order, each once. With GROUP BY they are the keys of the rows, and
/// a row belongs to the group of its key alone.
pub fn groups_are_the_keys_of_the_rows()
    ensures ascending { (places : List Place) (rows : List Joined) →
        AllPairs (λ key later. key_cmp key later ≡ Less) (groups_of places rows) }
    ensures keys { (place : Place) (places : List Place) (rows : List Joined) (key : List Value) →
        Contains (groups_of (place ∷ places) rows) key
        ↔ Contains (map (key_of (place ∷ places)) rows) key }
    ensures alone { (rows : List Joined) → groups_of [] rows ≡ [] ∷ [] }
    ensures rows { (places : List Place) (key : List Value) (rows : List Joined) (row : Joined) →
        Contains (rows_of places key rows) row ↔ (Contains rows row × (key_of places row ≡ key)) }
{
    values_are_in_order();
}

/// The cell of a plain item that stands in GROUP BY is the value that each row of the group has.
pub fn plain_cells_are_the_values_of_the_rows()
    ensures { (places : List Place) (place : Place) (key : List Value) (rows : List Joined) →
        Contains places place →
        let group = rows_of places key rows in
        All (λ row. item_cell places key group (Plain place) ≡ Full (value_at place row)) group }
{
    values_are_in_order();
}

/// The least and the greatest value over rows are values of rows, and no value is below or above.
pub fn least_and_greatest_bound_the_values()
    ensures least { (place : Place) (rows : List Joined) →
        IfSome (least_at place rows) (λ least. Contains (map (value_at place) rows) least
        × All (λ value. IsTrue (is_le (value_cmp least value))) (map (value_at place) rows)) }
    ensures greatest { (place : Place) (rows : List Joined) →
        IfSome (greatest_at place rows) (λ greatest. Contains (map (value_at place) rows) greatest
        × All (λ value. IsTrue (is_le (value_cmp value greatest))) (map (value_at place) rows)) }
    ensures found { (place : Place) (row : Joined) (rows : List Joined) →
        IsSome (least_at place (row ∷ rows)) × IsSome (greatest_at place (row ∷ rows)) }
{
    values_are_in_order();
}

/// The answer is an overflow exactly where the whole sum of some item in some group is no integer
/// of 64 bits with sign. Else it is a row of cells for each group, in the order of the groups.
pub fn answers_overflow_by_whole_sums()
    ensures some_sum { (query : Query) (rows : List Joined) →
        (answer_of query rows ≡ Overflow)
        ↔ Any (λ key. Any (λ item. IsTrue (item_overflows (rows_of query.groups key rows) item))
        query.items) (groups_of query.groups rows) }
    ensures range { (sum : ℤ) → IsTrue (is_beyond sum) ↔ ¬ (FitsSigned w64 sum) }
    ensures cells { (query : Query) (rows : List Joined) →
        answer_of query rows ≡ (if overflows query rows then Overflow
        else Rows (map (cells_of query rows) (groups_of query.groups rows))) }
{}

/// Rows in another order have the same answer, also those that a query keeps of them.
pub fn answers_ignore_the_order_of_rows()
    ensures answer { (query : Query) (rows others : List Joined) →
        IsPermutation rows others → answer_of query rows ≡ answer_of query others }
    ensures kept { (query : Query) (rows others : List Joined) →
        IsPermutation rows others → IsPermutation (kept_of query rows) (kept_of query others) }
{
    values_are_in_order();
}

/// The least of values is the same in whatever order they come, and so is the greatest: two may be
/// turned round, and of two that come behind others either may come first.
pub fn the_least_of_values_ignores_their_order()
    ensures turns { (value other : Value) →
        ord_min value_cmp value other ≡ ord_min value_cmp other value }
    ensures commutes { (least value other : Value) →
        ord_min value_cmp (ord_min value_cmp least value) other
        ≡ ord_min value_cmp (ord_min value_cmp least other) value }
    ensures greatest_turns { (value other : Value) →
        ord_min (flip_args value_cmp) value other ≡ ord_min (flip_args value_cmp) other value }
    ensures greatest_commutes { (greatest value other : Value) →
        ord_min (flip_args value_cmp) (ord_min (flip_args value_cmp) greatest value) other
        ≡ ord_min (flip_args value_cmp) (ord_min (flip_args value_cmp) greatest other) value }
{
    values_are_in_order();
}
