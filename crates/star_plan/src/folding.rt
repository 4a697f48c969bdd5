//! What one row more does to groups and their cells, as laws. It is what a
//! fold of rows is proved by.
ghost use Rattle.std.specs.Prelude.{◌≡◌, ◌+ℤ◌, List, [], ◌∷◌, ◌++◌, Some, if◌then◌else◌};
ghost use Rattle.std.specs.Option.{option_map_or};
ghost use Rattle.std.specs.Ordering.{is_eq, ord_min, flip_args};
ghost use Rattle.std.specs.BTreeSet.{insert_key};
ghost use Rattle.star_values.specs.declared.value.Value.{Value};
ghost use Rattle.star_values.specs.Value.{value_cmp};
ghost use Rattle.star_plan.specs.declared.place.Place.{Place};
ghost use Rattle.star_plan.specs.Joined.{Joined, is_kept, kept_of, value_at};
ghost use Rattle.star_plan.specs.Groups.{groups_of, key_cmp, key_of, rows_of};
ghost use Rattle.star_plan.specs.Answer.{greatest_at, integer_of, least_at, sum_at};
ghost use Rattle.star_plan.specs.Test.{Query};

/// The groups of rows and one more are those of the rows, with the key of the one in its
/// place in the order. The one belongs to the group of its key, behind the rows that
/// were there, and to no other.
pub fn groups_take_one_row_more()
    ensures groups { (places : List Place) (rows : List Joined) (row : Joined) →
        groups_of places (rows ++ row ∷ [])
        ≡ insert_key key_cmp (groups_of places rows) (key_of places row) }
    ensures rows { (places : List Place) (key : List Value) (rows : List Joined) (row : Joined) →
        rows_of places key (rows ++ row ∷ [])
        ≡ (if is_eq (key_cmp (key_of places row) key)
        then (rows_of places key rows ++ row ∷ []) else rows_of places key rows) }
    ensures kept { (query : Query) (rows : List Joined) (row : Joined) →
        kept_of query (rows ++ row ∷ [])
        ≡ (if is_kept query row then (kept_of query rows ++ row ∷ []) else kept_of query rows) }
{}

/// The sum over rows and one more is the sum over the rows and the integer of the one; the least
/// and the greatest value are the one's where it is below or above those of the rows, or the first.
/// The count over rows and one more is one more, since it is their number.
pub fn cells_take_one_row_more()
    ensures sum { (place : Place) (rows : List Joined) (row : Joined) →
        sum_at place (rows ++ row ∷ [])
        ≡ sum_at place rows +ℤ integer_of (value_at place row) }
    ensures least { (place : Place) (rows : List Joined) (row : Joined) →
        least_at place (rows ++ row ∷ []) ≡ Some (option_map_or
        (λ least. ord_min value_cmp least (value_at place row)) (least_at place rows)
        (value_at place row)) }
    ensures greatest { (place : Place) (rows : List Joined) (row : Joined) →
        greatest_at place (rows ++ row ∷ []) ≡ Some (option_map_or
        (λ greatest. ord_min (flip_args value_cmp) greatest (value_at place row))
        (greatest_at place rows) (value_at place row)) }
{}
