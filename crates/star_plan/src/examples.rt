//! Small queries and their answers, computed from the definitions.
ghost use Rattle.std.specs.Prelude.{◌≡◌, [], ◌∷◌, pos, codes};
ghost use Rattle.star_values.specs.declared.value.Value.TheVariants.{Int, Str};
ghost use Rattle.star_plan.specs.declared.answer.Answer.TheVariants.{Rows, Overflow};
ghost use Rattle.star_values.specs.declared.cell.Cell.TheVariants.{Null, Full};
ghost use Rattle.star_plan.specs.declared.item.Item.TheVariants.{Plain, CountAll, Sum, Min, Max};
ghost use Rattle.star_plan.specs.declared.place.Place.TheVariants.{Fact};
ghost use Rattle.star_plan.specs.Joined.{kept_of};
ghost use Rattle.star_plan.specs.Answer.{answer_of, least_integer, greatest_integer};
ghost use Rattle.star_plan.specs.Examples.{sale, sales, store_id, units, city, asked, sum_of_all, minus_one, more_than_three_in_oslo, numbers};

/// `select city, count(*), sum(units) from sales, store where .. group by city`: a row for each
/// city, in the order of their names.
#[tactic(auto, unfolding(crate::specs::Answer::answer_of))]
pub fn sales_are_summed_by_city()
    ensures { answer_of (asked (city ∷ []) (Plain city ∷ CountAll ∷ Sum units ∷ [])) sales
        ≡ Rows ((Full (Str (codes "Oslo")) ∷ Full (Int (pos 2)) ∷ Full (Int (pos 15)) ∷ [])
        ∷ (Full (Str (codes "Rome")) ∷ Full (Int (pos 2)) ∷ Full (Int (pos 4)) ∷ []) ∷ []) }
{}

/// Over no rows there is one group without GROUP BY, whose sum is null, and no group with it.
#[tactic(auto, unfolding(crate::specs::Answer::answer_of))]
pub fn no_sales_have_no_sum()
    ensures alone { answer_of (asked [] (CountAll ∷ Sum units ∷ [])) []
        ≡ Rows ((Full (Int (pos 0)) ∷ Null ∷ []) ∷ []) }
    ensures grouped { answer_of (asked (store_id ∷ []) (Plain store_id ∷ CountAll ∷ [])) []
        ≡ Rows [] }
{}

/// A sum that leaves the range of 64 bits and comes back to it is no overflow, in any order.
#[tactic(auto, unfolding(crate::specs::Answer::answer_of))]
pub fn only_the_whole_sum_overflows()
    ensures up_and_down { answer_of sum_of_all (numbers (greatest_integer ∷ pos 1 ∷ minus_one ∷ []))
        ≡ Rows ((Full (Int greatest_integer) ∷ []) ∷ []) }
    ensures down_and_up { answer_of sum_of_all (numbers (minus_one ∷ pos 1 ∷ greatest_integer ∷ []))
        ≡ Rows ((Full (Int greatest_integer) ∷ []) ∷ []) }
    ensures above { answer_of sum_of_all (numbers (greatest_integer ∷ pos 1 ∷ [])) ≡ Overflow }
    ensures below { answer_of sum_of_all (numbers (least_integer ∷ minus_one ∷ [])) ≡ Overflow }
{}

/// The ends of the range are the least and the greatest value.
#[tactic(auto, unfolding(crate::specs::Answer::answer_of))]
pub fn least_and_greatest_are_found()
    ensures { answer_of (asked [] (Min (Fact 0) ∷ Max (Fact 0) ∷ []))
        (numbers (least_integer ∷ greatest_integer ∷ []))
        ≡ Rows ((Full (Int least_integer) ∷ Full (Int greatest_integer) ∷ []) ∷ []) }
{}

/// `where units > 3 and city = 'Oslo'`.
#[tactic(auto, unfolding(crate::specs::Joined::kept_of))]
pub fn sales_are_kept_by_both_conditions()
    ensures { kept_of more_than_three_in_oslo sales
        ≡ sale 1 (codes "Oslo") 5 ∷ sale 1 (codes "Oslo") 10 ∷ [] }
{}
