//! What holds of every core still holds after a statement.
ghost use Rattle.std.specs.Prelude.{ℕ, ◌<◌, length};
ghost use Rattle.script_reader.specs.declared.statement.Statement.{Statement};
ghost use Rattle.query_meaning.specs.Accepted.{Accepts};
ghost use Rattle.query_meaning.specs.History.{Change};
ghost use Rattle.core_state.specs.Beside.{IsOfRows, IsSoundBeside};
ghost use Rattle.core_state.specs.Sound.{IsSound};
ghost use Rattle.core_state.specs.State.{State};
ghost use Rattle.core_state.specs.Submitting.{after_submitting, with_change};
ghost use Rattle.core_state.specs.Tables.{tables_of};

use crate::laws_of_tables::a_change_of_rows_keeps_what_is_kept;
use query_meaning::accepted_histories_are_settled;
use star_store::outcomes_fit_the_tables;

/// A declaration that the tables take leaves everything sound that a core keeps beside its seats;
/// that of the fact table makes its filters.
pub fn a_declaration_keeps_what_is_kept()
    ensures { (seat statement : ℕ) (change : Change) (state : State) → (IsOfRows change → ⊥) →
        Accepts (tables_of state) change → IsSound state →
        IsSoundBeside (with_change seat statement change state) }
{
    accepted_histories_are_settled();
}

/// A statement that a seat submits keeps a core sound, whatever it is and whatever is told of it.
pub fn a_statement_keeps_a_core_sound()
    ensures { (seat : ℕ) (statement : Statement) (state : State) → seat < length state.seats →
        IsSound state →
        IsSound (after_submitting seat statement state) }
{
    a_change_of_rows_keeps_what_is_kept();
    accepted_histories_are_settled();
    outcomes_fit_the_tables();
}
