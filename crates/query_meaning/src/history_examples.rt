//! A query over a small history at each of its snapshots, computed from the definitions.
ghost use Rattle.std.specs.Prelude.{◌≡◌, [], ◌∷◌, pos};
ghost use Rattle.star_values.specs.declared.cell.Cell.TheVariants.{Null, Full};
ghost use Rattle.star_values.specs.declared.value.Value.TheVariants.{Int};
ghost use Rattle.star_plan.specs.declared.answer.Answer.TheVariants.{Rows};
ghost use Rattle.query_meaning.specs.Alone.{alone};
ghost use Rattle.query_meaning.specs.HistoryExamples.{history, sold_in_rome};
ghost use Rattle.query_meaning.specs.History.{store_of};

/// `select count(*), sum(units) from sales, store where store_id = store.id and city = 'Rome'`:
/// before the sales are loaded, behind them, behind a delete of one, and behind one more.
#[tactic(auto, unfolding(star_plan::specs::Answer::answer_of, star_plan::specs::Joined::kept_of))]
pub fn a_query_sees_the_commits_up_to_its_snapshot()
    ensures stores { alone (store_of history) sold_in_rome 1
        ≡ Rows ((Full (Int (pos 0)) ∷ Null ∷ []) ∷ []) }
    ensures sales { alone (store_of history) sold_in_rome 2
        ≡ Rows ((Full (Int (pos 2)) ∷ Full (Int (pos 4)) ∷ []) ∷ []) }
    ensures delete { alone (store_of history) sold_in_rome 3
        ≡ Rows ((Full (Int (pos 1)) ∷ Full (Int (pos 3)) ∷ []) ∷ []) }
    ensures more { alone (store_of history) sold_in_rome 4
        ≡ Rows ((Full (Int (pos 2)) ∷ Full (Int (pos 10)) ∷ []) ∷ []) }
{}
