//! What holds of every core still holds after its tables grow.
ghost use Rattle.std.specs.Prelude.{ℕ};
ghost use Rattle.query_meaning.specs.Accepted.{Accepts};
ghost use Rattle.query_meaning.specs.History.{Change};
ghost use Rattle.core_state.specs.Beside.{IsOfRows, IsSoundBeside, with_entry};
ghost use Rattle.core_state.specs.Sound.{IsSound};
ghost use Rattle.core_state.specs.State.{State};
ghost use Rattle.core_state.specs.Tables.{tables_of};

use query_meaning::{accepted_histories_are_settled, later_changes_are_not_seen};

/// Rows that are loaded, and versions that are ended, leave everything sound that a
/// core keeps beside its seats.
pub fn a_change_of_rows_keeps_what_is_kept()
    ensures { (seat statement : ℕ) (change : Change) (state : State) → IsOfRows change →
        Accepts (tables_of state) change → IsSound state →
        IsSoundBeside (with_entry seat statement change state) }
{
    accepted_histories_are_settled();
    later_changes_are_not_seen();
}
