//! What holds of the changes that statements make.
ghost use Rattle.std.specs.Prelude.{◌≡◌, ℕ, Bool, List, Option, Ok};
ghost use Rattle.star_plan.specs.Test.{Test};
ghost use Rattle.query_meaning.specs.Accepted.{Accepts};
ghost use Rattle.query_meaning.specs.History.{Change};
ghost use Rattle.query_meaning.specs.Settled.{IsSettled};
ghost use Rattle.query_meaning.specs.Store.{Store};
ghost use Rattle.star_store.specs.Deletes.{delete_change};
ghost use Rattle.star_store.specs.Loads.{load_change};

use csv_load::{each_record_is_a_row, rows_have_the_kinds};
use star_plan::rows_fit_by_their_kinds;

/// The tables take the change of each load and delete that nothing refuses.
pub fn changes_of_statements_are_taken()
    ensures load { (store : Store) (name : List ℕ) (header : Bool) (block : List ℕ)
        (change : Change) →
        IsSettled store → load_change store name header block ≡ Ok change → Accepts store change }
    ensures delete { (store : Store) (condition : Option Test) (change : Change) →
        delete_change store condition ≡ Ok change → Accepts store change }
{
    each_record_is_a_row();
    rows_fit_by_their_kinds();
    rows_have_the_kinds();
}
